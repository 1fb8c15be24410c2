// The ends of a slot, and its tokens, as traits: over one thread, and over many.
ghost use Rattle.std.specs.Prelude.{ℕ, ◌≡◌, ◌<◌, List, [], ◌∷◌, ◌++◌, length, IfOk, OnErr, IsErrOf};
ghost use Rattle.dict_io.specs.Outside.{HasCause};
ghost use mathlib.Core.List.{IsPrefix};
ghost use Rattle.version_slot.specs.Views.{EachHasFact, IsNewestOf, KeepsTokens};

use crate::held::Entry;
use crate::seen::{EnterFault, Seen};
use dict_value::NoMemory;
use std::alloc::Global;

/// The greatest number that an entry can have.
pub const LAST_NUMBER: u64 = 9_223_372_036_854_775_807;

/// What a publishing tells: that a slot's list had come so far.
pub trait Token: Drop {
    /// The length of the list.
    ghost number_of: { Self → ℕ };

    fn number(&self) -> u64
        ensures { result ≡ number_of self.now };
}

/// An end of a slot: what its clauses see.
pub trait End {
    type V: Entry;

    type Told: Token;

    /// What names a slot.
    ghost Slot: { Type 0 };

    /// Which slot this is an end of.
    ghost slot: { Self → Slot };

    /// The list of entries: a publisher's is the slot's, a viewer's is its view, the longest list that it
    /// saw or was told of.
    ghost list: { Self → List Self.V };

    /// The slot's fact.
    ghost allows: { List Self.V → Self.V → Type 0 };

    /// The token is of this slot.
    ghost is_of: { Self → Self.Told → Type 0 };

    /// The list that the token stands for.
    ghost told_list: { Self → Self.Told → List Self.V };
}

/// The end of a slot that appends its entries.
pub trait Publisher: End {
    /// Appends one entry and answers its token, or gives the version up and leaves the list.
    fn publish(&mut self, alloc: Global, v: Self::V) -> Result<Self::Told, NoMemory>
        requires room { length (Self.list self.old) < LAST_NUMBER }
        requires fact { Self.allows (Self.list self.old) v }
        ensures ok { IfOk result (λ _. Self.list self.new ≡ Self.list self.old ++ v ∷ []) }
        ensures err { OnErr result (Self.list self.new ≡ Self.list self.old) }
        ensures told { IfOk result (λ t. Self.is_of self.new t) }
        ensures whole { IfOk result (λ t. Self.told_list self.new t ≡ Self.list self.new) }
        ensures numbered { IfOk result (λ t. Self.Told.number_of t ≡ length (Self.list self.new)) }
        ensures tokens { KeepsTokens Self.is_of Self.told_list self.old self.new }
        ensures slot { Self.slot self.new ≡ Self.slot self.old };

    /// The number of the newest entry, or 0 before the first.
    fn number(&self) -> u64
        ensures number { result ≡ length (Self.list self.now) }
        ensures fact { EachHasFact Self.allows (Self.list self.now) };
}

/// The end of a slot that sees its entries. It never waits.
pub trait Viewer: End {
    /// How often an entering was refused.
    ghost refusals: { Self → ℕ };

    /// Gives the newest entry of a view that begins with the old one, and leaves the slot.
    fn enter(&mut self) -> Result<Seen<Self::V>, EnterFault>
        ensures view { IsPrefix (Self.list self.old) (Self.list self.new) }
        ensures seen { IfOk result (λ s. IsNewestOf (Self.list self.new) s) }
        ensures fact { EachHasFact Self.allows (Self.list self.new) }
        ensures shut { HasCause (refusals self.old) (refusals self.new) (IsErrOf result EnterFault.Shut) }
        ensures tokens { KeepsTokens Self.is_of Self.told_list self.old self.new }
        ensures slot { Self.slot self.new ≡ Self.slot self.old };

    /// Takes what was told into the view. It takes no memory.
    fn learn(&mut self, told: &mut Self::Told)
        requires { Self.is_of self.old told.old }
        ensures view { IsPrefix (Self.list self.old) (Self.list self.new) }
        ensures learnt { IsPrefix (Self.told_list self.old told.old) (Self.list self.new) }
        ensures number { length (Self.told_list self.old told.old) ≡ Self.Told.number_of told.old }
        ensures fact { EachHasFact Self.allows (Self.list self.new) }
        ensures told { told.new ≡ told.old }
        ensures refusals { refusals self.new ≡ refusals self.old }
        ensures tokens { KeepsTokens Self.is_of Self.told_list self.old self.new }
        ensures slot { Self.slot self.new ≡ Self.slot self.old };
}
