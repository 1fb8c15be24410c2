// The definitions file: a reading of it, and what a desk reads once more.
ghost use Rattle.std.specs.Prelude.{◌≡◌, ◌≤◌, All, IfErr, IfOk, IsErrOf, Ok, length};
ghost use Rattle.dict_io.specs.Outside.{HasCause};
ghost use Rattle.dict_hub.specs.Changes.{IsFileFault};
ghost use Rattle.dict_hub.specs.Readings.{FileState, ReadGives, ReadsItems, ReadsOnce, TextGives, file_state};
ghost use Rattle.dict_schema.specs.Sound.{IsSoundItem};

use crate::parts::FileAt;
use ddl_text::{DdlRefusal, fault_words, parse_definitions, place_of};
use dict_io::{Shelf, ShelfFault};
use dict_schema::Item;
use dict_session::ConfigEnd;
use dict_value::ListOf;
use std::alloc::Global;

/// The greatest number of bytes of a definitions file.
pub const MOST_DEFINITIONS: u32 = 4_194_304;

/// The items of a text, or its first fault.
fn items_of(alloc: Global, text: &[u8]) -> Result<ListOf<Item>, ConfigEnd>
    requires { length text.now ≤ 4194304 }
    ensures gives { TextGives text.now result }
    ensures sound { IfOk result (All IsSoundItem) }
    ensures fault { IfErr result IsFileFault }
    ensures read { IsErrOf result ConfigEnd.Unread → ⊥ }
{
    match parse_definitions(alloc, text) {
        Ok(items) => Ok(items),
        Err(DdlRefusal::Refused { line, fault }) => Err(ConfigEnd::Refused {
            line,
            place: place_of(&fault),
            words: fault_words(&fault),
        }),
        Err(DdlRefusal::NoMemory) => Err(ConfigEnd::NoMemory),
    }
}

/// The same of a text of any length.
fn read_text(alloc: Global, text: &[u8]) -> Result<ListOf<Item>, ConfigEnd>
    ensures gives { ReadGives text.now result }
    ensures sound { IfOk result (All IsSoundItem) }
    ensures fault { IfErr result IsFileFault }
    ensures read { IsErrOf result ConfigEnd.Unread → ⊥ }
{
    if text.len() > MOST_DEFINITIONS as usize {
        return Err(ConfigEnd::TooLong);
    }
    items_of(alloc, text)
}

/// The items of the file of a name, or why there are none.
pub fn read_items<F: Shelf>(
    alloc: Global,
    shelf: &mut F,
    name: &str,
) -> Result<ListOf<Item>, ConfigEnd>
    ensures reads { ReadsItems F.filed (F.file (F.readings shelf.old) name.now) name.now result }
    ensures sound { IfOk result (All IsSoundItem) }
    ensures fault { IfErr result IsFileFault }
    ensures cause { HasCause (F.shelf_faults shelf.old) (F.shelf_faults shelf.new) (IsErrOf result ConfigEnd.Unread) }
    ensures later { F.readings shelf.new ≡ F.later (F.readings shelf.old) }
{
    match shelf.read_file(name, MOST_DEFINITIONS) {
        Ok(text) => read_text(alloc, text.as_slice()),
        Err(ShelfFault::Failed) => Err(ConfigEnd::Unread),
        Err(ShelfFault::TooLong) => Err(ConfigEnd::TooLong),
        Err(ShelfFault::NoMemory) => Err(ConfigEnd::NoMemory),
    }
}

/// The definitions file of a desk: a shelf, and the file's name.
#[derive(Drop)]
pub struct DefinitionsFile<'a, F: Shelf> {
    shelf: F,
    name: &'a str,
}

impl<'a, F: Shelf> DefinitionsFile<'a, F> {
    pub fn new(shelf: F, name: &'a str) -> DefinitionsFile<'a, F>
        ensures { ⟦<DefinitionsFile<'a, F> as FileAt>⟧.state result ≡ file_state (F.readings shelf) name.now }
    {
        DefinitionsFile { shelf, name }
    }

    /// The shelf, with the readings that are left.
    pub fn into_shelf(self) -> F
        ensures { file_state (F.readings result) self.entry.name.now
            ≡ ⟦<DefinitionsFile<'a, F> as FileAt>⟧.state self.entry }
    {
        let DefinitionsFile { shelf, name: _name } = self;
        shelf
    }
}

impl<'a, F: Shelf> FileAt for DefinitionsFile<'a, F> {
    ghost State = { FileState F.Readings };

    ghost state = { λ it. file_state (F.readings it.shelf) it.name.now };

    ghost reads = { ReadsOnce F.filed F.file F.later };

    fn read_items(&mut self, alloc: Global) -> Result<ListOf<Item>, ConfigEnd> {
        read_items(alloc, &mut self.shelf, self.name)
    }
}
