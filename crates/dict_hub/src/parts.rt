// The parts of a desk.
ghost use Rattle.std.specs.Prelude.{◌≡◌, ℕ, ◌≤◌, All, Bool, List, length, Option, Result, IfErr, IfOk, IsErrOf};
ghost use Rattle.std.specs.Prelude.{Some, false};
ghost use mathlib.Core.List.{IsPrefix};
ghost use Rattle.dict_io.specs.Outside.{HasCause};
ghost use Rattle.dict_io.specs.declared.outside.TheConstants.{LAST_MOMENT};
ghost use Rattle.dict_schema.specs.Parts.{is_keyed_layout};
ghost use Rattle.dict_schema.specs.Sound.{IsSound, IsSoundItem};
ghost use Rattle.dict_schema.specs.declared.definition.Definition.{Definition};
ghost use Rattle.dict_schema.specs.declared.definition.Item.{Item};
ghost use Rattle.dict_session.specs.declared.desk.ConfigEnd.{ConfigEnd};
ghost use Rattle.dict_version.specs.Contents.{Contents};
ghost use Rattle.dict_hub.specs.Changes.{IsFileFault};
ghost use Rattle.dict_hub.specs.Over.{Children, children_of};
ghost use Rattle.loader.specs.declared.answers.LoadEnd.{LoadEnd};
ghost use Rattle.loader.specs.declared.answers.StatusRow.{StatusRow};
ghost use Rattle.version_slot.specs.Views.{EachHasFact, Entered, IsNewestOf};
ghost use Rattle.version_slot.specs.declared.seen.EnterFault.{EnterFault};

use child_io::Spawner;
use dict_schema::{Definition, Item};
use dict_session::ConfigEnd;
use dict_value::{ListOf, Uncounted};
use dict_version::Version;
use loader::{LoadEnd, StatusRow};
use std::alloc::Global;
use version_slot::{EnterFault, Seen};

/// A dictionary that is fully loaded: what a desk asks of it.
pub trait DictAt<S: Spawner> {
    /// The state is plain data of a type that the dictionary names.
    ghost State: { Type 0 };

    ghost state: { Self → State };

    /// What its viewer saw and was told of.
    ghost view: { State → List Contents };

    /// Its name, which stays.
    ghost name: { State → List ℕ };

    /// What holds of each version of its view over those before it.
    ghost allows: { List Contents → Contents → Type 0 };

    /// What the calls do, as far as that is told.
    ghost entered: { State → Result (Entered Contents) EnterFault → State → Type 0 };

    ghost taught: { State → StatusRow → State → Type 0 };

    ghost loaded: { State → Children → ℕ → LoadEnd → State → Children → Type 0 };

    ghost due: { State → Children → ℕ → Option LoadEnd → State → Children → Type 0 };

    ghost loaded_as: { State → Definition → Children → ℕ → LoadEnd → State → Children → Type 0 };

    /// Whether a definition was said to be the current one.
    ghost judged: { State → Definition → Bool → Type 0 };

    /// How often an entering of its viewer was refused.
    ghost refusals: { Self → ℕ };

    /// How many versions its view has.
    fn versions(&self) -> u64
        ensures number { result ≡ length (view (state self.now)) }
        ensures fact { EachHasFact allows (view (state self.now)) };

    /// One entering of its viewer.
    fn enter(&mut self) -> Result<Seen<Version<Uncounted>>, EnterFault>
        ensures act { entered (state self.old) result (state self.new) }
        ensures grows { IsPrefix (view (state self.old)) (view (state self.new)) }
        ensures named { name (state self.new) ≡ name (state self.old) }
        ensures seen { IfOk result (λ seen. IsNewestOf (view (state self.new)) seen) }
        ensures shut { HasCause (refusals self.old) (refusals self.new) (IsErrOf result EnterFault.Shut) };

    /// Lets its viewer learn the newest token of its board, and gives the board's row.
    fn teach(&mut self) -> StatusRow
        ensures act { taught (state self.old) result (state self.new) }
        ensures grows { IsPrefix (view (state self.old)) (view (state self.new)) }
        ensures named { name (state self.new) ≡ name (state self.old) }
        ensures learnt { result.number ≤ length (view (state self.new)) };

    /// One load; of a published version its viewer has learnt.
    fn load(&mut self, alloc: Global, spawner: &mut S, now: u64) -> LoadEnd
        requires { now ≤ LAST_MOMENT }
        ensures act { loaded (state self.old) (children_of S.scripts S.starts spawner.old) now result
            (state self.new) (children_of S.scripts S.starts spawner.new) }
        ensures grows { IsPrefix (view (state self.old)) (view (state self.new)) }
        ensures named { name (state self.new) ≡ name (state self.old) }
        ensures learnt { (n : ℕ) → result ≡ LoadEnd.Published n → n ≤ length (view (state self.new)) };

    /// A load where one is due at this moment; of a published version its viewer has learnt.
    fn load_due(&mut self, alloc: Global, spawner: &mut S, now: u64) -> Option<LoadEnd>
        requires { now ≤ LAST_MOMENT }
        ensures act { due (state self.old) (children_of S.scripts S.starts spawner.old) now result
            (state self.new) (children_of S.scripts S.starts spawner.new) }
        ensures grows { IsPrefix (view (state self.old)) (view (state self.new)) }
        ensures named { name (state self.new) ≡ name (state self.old) }
        ensures learnt { (n : ℕ) → result ≡ Some (LoadEnd.Published n) → n ≤ length (view (state self.new)) };

    /// Whether a definition is the current one.
    fn is_current(&mut self, definition: &Definition) -> bool
        ensures judged { judged (state self.old) definition.now result }
        ensures same { state self.new ≡ state self.old };

    /// One load with another definition of its name; of a published version its viewer has learnt.
    fn load_as(
        &mut self,
        alloc: Global,
        definition: Definition,
        spawner: &mut S,
        now: u64,
    ) -> LoadEnd
        requires sound { IsSound definition }
        requires kept { is_keyed_layout definition.layout ≡ false }
        requires name { definition.name ≡ name (state self.old) }
        requires bound { now ≤ LAST_MOMENT }
        ensures act { loaded_as (state self.old) definition (children_of S.scripts S.starts spawner.old) now result
            (state self.new) (children_of S.scripts S.starts spawner.new) }
        ensures grows { IsPrefix (view (state self.old)) (view (state self.new)) }
        ensures named { name (state self.new) ≡ name (state self.old) }
        ensures learnt { (n : ℕ) → result ≡ LoadEnd.Published n → n ≤ length (view (state self.new)) };
}

/// The definitions file: what a desk reads once more.
pub trait FileAt {
    /// The state is plain data of a type that the part names.
    ghost State: { Type 0 };

    ghost state: { Self → State };

    /// A reading answered so.
    ghost reads: { State → Result (List Item) ConfigEnd → State → Type 0 };

    /// The items that the file has now, or why there are none.
    fn read_items(&mut self, alloc: Global) -> Result<ListOf<Item>, ConfigEnd>
        ensures reads { reads (state self.old) result (state self.new) }
        ensures sound { IfOk result (All IsSoundItem) }
        ensures fault { IfErr result IsFileFault };
}
