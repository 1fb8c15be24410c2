// One dictionary of a test: its loader, its slot and its board.
ghost use Rattle.std.specs.Prelude.{◌≡◌, ◌<◌, ◌≤◌, length, ⊤, false};
ghost use Rattle.dict_io.specs.declared.outside.TheConstants.{LAST_MOMENT};
ghost use Rattle.dict_schema.specs.Parts.{is_keyed_layout};
ghost use Rattle.dict_schema.specs.Sound.{IsSound};

use super::making::{Sketch, definition_of};
use crate::{BoardState, LoadEnd, Loader, StatusRow};
use child_io::MemorySpawner;
use dict_io::LAST_MOMENT;
use dict_schema::Definition;
use dict_value::{Bytes, NoMemory, Uncounted};
use dict_version::Version;
use std::alloc::Global;
use std::marker::Model;
use std::process::Abort;
use std::test::Fail;
use version_slot::{Fact, PlainSlot, PlainToken, Publisher, Viewer};

/// The fact of a slot whose entries need none.
#[derive(Drop)]
pub(super) struct NoFact;

impl Fact<Version<Uncounted>> for NoFact {
    ghost allows = { λ _ _. ⊤ };
}

/// What loads a dictionary.
#[derive(Clone, Copy)]
pub(super) enum Call {
    Load,
    /// Where it is due.
    Due,
    /// With another definition.
    As(Sketch),
}

/// A dictionary: its name, its loader, its versions and its board.
#[derive(Drop)]
pub(super) struct Dictionary {
    name: Bytes,
    loader: Loader,
    slot: PlainSlot<Version<Uncounted>, NoFact>,
    board: BoardState<PlainToken>,
}

impl Model for Dictionary {
    ghost use Rattle.std.specs.Prelude.{◌≡◌, IfSome, List};
    ghost use Rattle.dict_version.specs.Contents.{Contents};
    ghost use Rattle.version_slot.specs.Views.{HasEntries};
    ghost use Rattle.loader.specs.Loaders.{IsAt};

    ghost Value = { List Contents };

    ghost view = { λ it. it.slot };

    ghost invariant = { λ it. IsAt it.loader it.slot × IfSome it.board.newest (HasEntries it.slot)
        × (it.loader.definition.name ≡ it.name) };
}

impl Dictionary {
    /// A dictionary that was never loaded.
    pub(super) fn new(alloc: Global, sketch: &Sketch) -> Result<Dictionary, Fail> {
        let d = definition_of(alloc, sketch)?;
        let name = Bytes::copy_of(alloc, d.name.as_slice())?;
        Ok(Dictionary {
            name,
            loader: Loader::new(alloc, d, b".", 1, 0)?,
            slot: PlainSlot::new(alloc),
            board: BoardState::new(alloc)?,
        })
    }

    fn load(&mut self, alloc: Global, spawner: &mut MemorySpawner, now: u64) -> LoadEnd
        requires { now ≤ LAST_MOMENT }
    {
        self.loader
            .load(alloc, spawner, &mut self.slot, now, &mut self.board)
    }

    fn load_due(&mut self, alloc: Global, spawner: &mut MemorySpawner, now: u64) -> Option<LoadEnd>
        requires { now ≤ LAST_MOMENT }
    {
        self.loader
            .load_due(alloc, spawner, &mut self.slot, now, &mut self.board)
    }

    fn load_as(
        &mut self,
        alloc: Global,
        d: Definition,
        spawner: &mut MemorySpawner,
        now: u64,
    ) -> Result<LoadEnd, Fail>
        requires sound { IsSound d }
        requires kept { is_keyed_layout d.layout ≡ false }
        requires moment { now ≤ LAST_MOMENT }
    {
        if !d.name.is_same(&self.name) {
            return Err("another name".into());
        }
        Ok(
            self.loader
                .load_as(alloc, d, spawner, &mut self.slot, now, &mut self.board),
        )
    }

    /// One call at a moment.
    pub(super) fn call(
        &mut self,
        alloc: Global,
        call: Call,
        spawner: &mut MemorySpawner,
        now: u64,
    ) -> Result<Option<LoadEnd>, Fail> {
        if now > LAST_MOMENT {
            return Err("no moment".into());
        }
        match call {
            Call::Load => Ok(Some(self.load(alloc, spawner, now))),
            Call::Due => Ok(self.load_due(alloc, spawner, now)),
            Call::As(sketch) => {
                let d = definition_of(alloc, &sketch)?;
                Ok(Some(self.load_as(alloc, d, spawner, now)?))
            }
        }
    }

    /// As after the last load that it may have.
    pub(super) fn use_up(&mut self) {
        self.loader.use_up();
    }

    /// Whether a sketch's definition is the current one.
    pub(super) fn is_current(&self, alloc: Global, sketch: &Sketch) -> Result<bool, Fail> {
        Ok(self.loader.is_current(&definition_of(alloc, sketch)?))
    }

    /// What the board tells.
    pub(super) fn status(&mut self, rt: &impl Abort) -> StatusRow {
        let number = self.slot.number();
        let row = self.board.teach(&mut self.slot);
        assert!(rt; self.slot.number() <= number);
        row
    }

    /// The newest version's number, and its rows as text; 0 and no text before the first version.
    pub(super) fn entered(&mut self, alloc: Global) -> Result<(u64, Bytes), Fail> {
        let Ok(seen) = self.slot.enter() else {
            return Err("no entering".into());
        };
        let text = match seen.version() {
            Some(version) => text_of(alloc, version)?,
            None => Bytes::new(alloc),
        };
        Ok((seen.number(), text))
    }
}

/// The rows of a version, with tabs and line feeds.
fn text_of(alloc: Global, version: &Version<Uncounted>) -> Result<Bytes, NoMemory> {
    let mut text = Bytes::new(alloc);
    for place in 0..version.row_count() {
        write_row(version, place, &mut text)?;
    }
    Ok(text)
}

fn write_row(version: &Version<Uncounted>, place: u32, out: &mut Bytes) -> Result<(), NoMemory>
    requires { place < length version.now.rows }
{
    for column in 0..version.column_count() {
        if column > 0 {
            out.push(b'\t')?;
        }
        let Ok(number) = u32::try_from(column) else {
            return Err(NoMemory);
        };
        version.write_cell(place, number, out)?;
    }
    out.push(b'\n')
}
