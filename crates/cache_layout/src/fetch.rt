// A fetch, as a trait.
ghost use Rattle.std.specs.Prelude.{◌≡◌, ◌≤◌, ℕ, List, Bool, false, All, Result, length, IfOk, IsOk};
ghost use Rattle.dict_schema.specs.declared.definition.Definition.{Definition};
ghost use Rattle.dict_value.specs.declared.fault.FetchFault.{FetchFault as Fault};
ghost use Rattle.dict_value.specs.declared.value.FetchedRow.{FetchedRow};
ghost use Rattle.dict_value.specs.declared.value.MaybeRow.{MaybeRow};
ghost use Rattle.dict_value.specs.declared.value.Value.{Value};
ghost use Rattle.cache_layout.specs.Fetching.{EachGave, FitsReply, IsKeyOf};

use dict_value::{FetchFault, Fetched, KeyList};
use std::alloc::Global;

/// The greatest number of keys that one fetch takes.
pub const MOST_KEYS: usize = 4_294_967_295;

/// The greatest number of bytes of the row that a child is sent for one key, with its line feed.
pub const MOST_KEY_BYTES: usize = 32_768;

/// What asks a program for the rows of keys. It is of one dictionary.
pub trait Fetch {
    /// The dictionary.
    ghost definition: { Self → Definition };

    /// A fetch for this dictionary that was handed this moment answered this row, or that there is none, for
    /// the key.
    ghost gave: { Definition → List Value → MaybeRow → ℕ → Type 0 };

    /// What was given fits the dictionary.
    ghost gave_fits: { (d : Definition) (key : List Value) (row : MaybeRow) (m : ℕ) → gave d key row m
        → FitsReply d row };

    /// The fetch was handed this moment and these keys in its first state, answered this, and came to its
    /// second state.
    ghost fetches: { Self → ℕ → List (List Value) → Result (List FetchedRow) Fault → Self → Type 0 };

    /// It has answered a fault.
    ghost failed: { Self → Bool };

    /// One row for each key, in order, or the first fault.
    fn fetch(&mut self, alloc: Global, now: u64, keys: &[KeyList]) -> Result<Fetched, FetchFault>
        requires keys { All (λ key. IsKeyOf (definition self.old) key) keys.now }
        requires few { length keys.now ≤ MOST_KEYS }
        requires well { failed self.old ≡ false }
        ensures of { definition self.new ≡ definition self.old }
        ensures act { fetches self.old now keys.now result self.new }
        ensures rows { IfOk result (EachGave (gave (definition self.old)) now keys.now) }
        ensures well { IsOk result → failed self.new ≡ false };
}
