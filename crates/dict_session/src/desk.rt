// A desk: what a session asks of the dictionaries and the functions.
ghost use Rattle.std.specs.Prelude.{◌≡◌, ◌≤◌, ℕ, All, length, map, IfOk, IsErrOf};
ghost use Rattle.cache_layout.specs.Fetching.{CanBeSent, IsKeyOf};
ghost use Rattle.dict_io.specs.Outside.{HasCause};
ghost use Rattle.dict_io.specs.declared.outside.TheConstants.{LAST_MOMENT};
ghost use Rattle.dict_schema.specs.Sound.{IsSoundItem};
ghost use Rattle.dict_schema.specs.declared.definition.Definition.{Definition};
ghost use Rattle.dict_schema.specs.declared.definition.FunctionDef.{FunctionDef};
ghost use Rattle.dict_session.specs.Acts.{Moment, Before, Entered, Taught, Reloaded, Keyed, Called, Configured};
ghost use Rattle.dict_session.specs.Facts.{Facts, Grows, EachFetched, EachReturned};
ghost use Rattle.dict_session.specs.Items.{IsFunctionItem, IsKeyedItem, IsLoadedItem};
ghost use Rattle.version_slot.specs.Views.{IsNewestOf};

use dict_schema::Item;
use dict_value::{CallFault, FetchFault, Fetched, KeyList, ListOf, Row, Uncounted, Value};
use dict_version::Version;
use loader::{LoadEnd, StatusRow};
use std::alloc::Global;
use version_slot::{EnterFault, Seen};

/// What came of reading the definitions file again.
#[derive(Clone, Copy, Debug, PartialEq, Eq)]
pub enum ConfigEnd {
    /// How many items changed, and how many loads were published.
    Done {
        changed: u32,
        published: u32,
    },
    Unread,
    TooLong,
    /// The file has no reading: its line from 1, its byte from 0, and words.
    Refused {
        line: u32,
        place: u32,
        words: &'static [u8],
    },
    /// The first item, from 1, that another file can't change so.
    Names(u32),
    NoMemory,
}

/// What a session asks of: the dictionaries, with a viewer for each one that is fully loaded, and the functions.
/// Items are told by their places, from 0.
pub trait Desk {
    /// The state is plain data of a type that the desk names.
    ghost State: { Type 0 };

    ghost state: { Self → State };

    /// What the calls do, the views, the items, and what was fetched.
    ghost facts: { Facts State };

    /// How often an entering of each viewer was refused.
    ghost refusals: { Self → ℕ → ℕ };

    /// The next moment.
    fn moment(&mut self) -> u64
        ensures act { facts.did (state self.old) (Moment result) (state self.new) }
        ensures grows { Grows facts (state self.old) (state self.new) }
        ensures bound { result ≤ LAST_MOMENT };

    /// What is to be done before a request of this moment is answered: loads that are due may run.
    fn before(&mut self, alloc: Global, now: u64)
        requires { now ≤ LAST_MOMENT }
        ensures act { facts.did (state self.old) (Before now) (state self.new) }
        ensures grows { Grows facts (state self.old) (state self.new) };

    fn items(&self) -> &ListOf<Item>
        ensures items { result.now ≡ facts.items (state self.now) }
        ensures sound { All IsSoundItem result.now }
        ensures few { length result.now ≤ u32.MAX };

    /// One entering of the viewer of a dictionary.
    fn enter(&mut self, d: u32) -> Result<Seen<Version<Uncounted>>, EnterFault>
        requires { IsLoadedItem (facts.items (state self.old)) d }
        ensures act { facts.did (state self.old) (Entered d result) (state self.new) }
        ensures grows { Grows facts (state self.old) (state self.new) }
        ensures seen { IfOk result (λ s. IsNewestOf (facts.view (state self.new) d) s) }
        ensures shut { HasCause (refusals self.old d) (refusals self.new d) (IsErrOf result EnterFault.Shut) };

    /// Lets the viewer learn the newest token of the dictionary's board, and gives the board's row.
    fn teach(&mut self, d: u32) -> StatusRow
        requires { IsLoadedItem (facts.items (state self.old)) d }
        ensures act { facts.did (state self.old) (Taught d result) (state self.new) }
        ensures grows { Grows facts (state self.old) (state self.new) }
        ensures learnt { result.number ≤ length (facts.view (state self.new) d) };

    /// One load of the dictionary; of a published version the viewer has learnt.
    fn reload(&mut self, alloc: Global, d: u32, now: u64) -> LoadEnd
        requires loaded { IsLoadedItem (facts.items (state self.old)) d }
        requires bound { now ≤ LAST_MOMENT }
        ensures act { facts.did (state self.old) (Reloaded d now result) (state self.new) }
        ensures grows { Grows facts (state self.old) (state self.new) }
        ensures learnt { (n : ℕ) → result ≡ LoadEnd.Published n → n ≤ length (facts.view (state self.new) d) };

    /// One row for each key of a dictionary whose rows are fetched by key, in order, or the first fault.
    fn keyed(
        &mut self,
        alloc: Global,
        d: u32,
        now: u64,
        keys: &[KeyList],
    ) -> Result<Fetched, FetchFault>
        requires keyed { (definition : Definition) × IsKeyedItem (facts.items (state self.old)) d definition
            × All (IsKeyOf definition) keys.now }
        requires few { length keys.now ≤ u32.MAX }
        requires bound { now ≤ LAST_MOMENT }
        ensures act { facts.did (state self.old) (Keyed d now keys.now result) (state self.new) }
        ensures grows { Grows facts (state self.old) (state self.new) }
        ensures rows { (definition : Definition) → IsKeyedItem (facts.items (state self.old)) d definition
            → IfOk result (EachFetched facts.gave definition now keys.now) };

    /// One value for each row of arguments of a function, in order, or the first fault.
    fn call(&mut self, alloc: Global, f: u32, rows: &[Row]) -> Result<ListOf<Value>, CallFault>
        requires function { (definition : FunctionDef) × IsFunctionItem (facts.items (state self.old)) f definition
            × All (CanBeSent definition.source.format (map (λ argument. argument.ty) definition.args)) rows.now }
        requires few { length rows.now ≤ u32.MAX }
        ensures act { facts.did (state self.old) (Called f rows.now result) (state self.new) }
        ensures grows { Grows facts (state self.old) (state self.new) }
        ensures values { (definition : FunctionDef) → IsFunctionItem (facts.items (state self.old)) f definition
            → IfOk result (EachReturned definition rows.now) };

    /// Reads the definitions file again, and loads what differs.
    fn config(&mut self, alloc: Global, now: u64) -> ConfigEnd
        requires { now ≤ LAST_MOMENT }
        ensures act { facts.did (state self.old) (Configured now result) (state self.new) }
        ensures grows { Grows facts (state self.old) (state self.new) };
}
