// A board that threads share.
ghost use Rattle.std.specs.Prelude.{◌≡◌, ◌≤◌, length, IfOk, IfSome};
ghost use mathlib.Core.List.{IsPrefix};
ghost use Rattle.loader.specs.Boards.{HasNumber, HasToken, empty_board, posted, row_of};

use dict_value::{ListOf, NoMemory};
use loader::{BoardAt, BoardState, LoadNote, Posting, StatusRow};
use std::alloc::Global;
use std::marker::{Brand, Model, PhantomData};
use std::sync::{Mutex, Wait};
use version_slot::{Entry, Fact, SharedToken, SharedViewer};

/// Names the slot whose tokens a board holds, for proofs alone.
pub trait SlotOf {
    ghost use Rattle.version_slot.specs.SharedSlots.{SlotName};

    ghost slot: { SlotName };
}

impl SlotOf for Brand {
    ghost slot = { record { number = 0; log_name = 0; cells_name = 0 } };
}

/// What lies under a board's lock.
#[derive(Drop)]
struct Posted<V: Entry, F: Fact<V>, J: SlotOf> {
    state: BoardState<SharedToken<V, F>>,
    of: PhantomData<J>,
}

impl<V: Entry, F: Fact<V>, J: SlotOf> Model for Posted<V, F, J> {
    ghost use Rattle.std.specs.Prelude.{◌≡◌, IfSome, length};
    ghost use Rattle.loader.specs.Boards.{BoardTold, newest_number};
    ghost use Rattle.version_slot.specs.SharedSlots.{Reached};

    ghost Value = { BoardTold (Reached V) };

    ghost view = { λ it. it.state };

    ghost invariant = { λ it. IfSome it.state.newest (λ told. told.slot ≡ J.slot)
        × (it.state.oks ≡ newest_number (λ told. length told.list) it.state.newest) };
}

impl<V: Entry, F: Fact<V>, J: SlotOf> Posted<V, F, J> {
    fn new(alloc: Global) -> Result<Posted<V, F, J>, NoMemory>
        ensures { IfOk result (λ board. board ≡ empty_board) }
    {
        Ok(Posted {
            state: BoardState::new(alloc)?,
            of: PhantomData,
        })
    }

    fn post(&mut self, posting: Posting<SharedToken<V, F>>)
        requires number { HasNumber (λ told. length told.list) posting }
        requires token { HasToken (λ told. told.slot ≡ J.slot) posting }
        ensures { self.new ≡ posted self.old posting }
    {
        self.state.post(posting);
    }

    /// Lets a viewer learn the newest token, where there is one, and tells the row.
    fn teach(&mut self, viewer: &mut SharedViewer<V, F>) -> StatusRow
        requires { viewer.old.slot ≡ J.slot }
        ensures row { result ≡ row_of self.old }
        ensures board { self.new ≡ self.old }
        ensures learnt { IfSome self.old.newest (λ told. IsPrefix told.list viewer.new.list) }
        ensures number { result.number ≤ length viewer.new.list }
        ensures view { IsPrefix viewer.old.list viewer.new.list }
        ensures slot { viewer.new.slot ≡ viewer.old.slot }
        ensures refusals { viewer.new.refusals ≡ viewer.old.refusals }
    {
        self.state.teach(viewer)
    }

    /// A copy of the last ends, the oldest first.
    fn notes(&self, alloc: Global) -> Result<ListOf<LoadNote>, NoMemory>
        ensures { IfOk result (λ notes. notes ≡ self.now.notes) }
    {
        let mut notes = ListOf::new(alloc);
        for note in self.state.notes() {
            notes.push(*note)?;
        }
        Ok(notes)
    }
}

/// A dictionary's board under a lock, of the slot that J names.
pub struct Board<V: Entry, F: Fact<V>, J: SlotOf> {
    posted: Mutex<Posted<V, F, J>>,
}

impl<V: Entry, F: Fact<V>, J: SlotOf> Drop for Board<V, F, J> {
    fn drop(self) {
        let Self { posted: _posted } = self;
    }
}

impl<V: Entry, F: Fact<V>, J: SlotOf> Board<V, F, J> {
    /// The board of a dictionary of which no load has begun.
    pub fn new(alloc: Global) -> Result<Board<V, F, J>, NoMemory> {
        Ok(Board {
            posted: Mutex::new(Posted::new(alloc)?),
        })
    }

    /// Lets a viewer of the board's slot learn the newest token, where there is one, and tells the row. It takes no
    /// memory, and waits for the lock.
    pub fn teach<R: Wait>(&self, rt: &R, viewer: &mut SharedViewer<V, F>) -> StatusRow
        requires { viewer.old.slot ≡ J.slot }
        ensures number { result.number ≤ length viewer.new.list }
        ensures view { IsPrefix viewer.old.list viewer.new.list }
        ensures slot { viewer.new.slot ≡ viewer.old.slot }
        ensures refusals { viewer.new.refusals ≡ viewer.old.refusals }
    {
        self.posted.lock(rt).teach(viewer)
    }

    /// A copy of the last ends, the oldest first. It waits for the lock.
    pub fn notes<R: Wait>(&self, rt: &R, alloc: Global) -> Result<ListOf<LoadNote>, NoMemory> {
        self.posted.lock(rt).notes(alloc)
    }

    /// Where a thread posts that waits by this.
    pub fn place<'a, R: Wait>(&'a self, rt: &'a R) -> Place<'a, V, F, J, R> {
        Place { board: self, rt }
    }
}

/// Where a thread posts on a board. Each posting waits for the lock.
#[derive(Drop)]
pub struct Place<'a, V: Entry, F: Fact<V>, J: SlotOf, R: Wait> {
    board: &'a Board<V, F, J>,
    rt: &'a R,
}

impl<V: Entry, F: Fact<V>, J: SlotOf, R: Wait> BoardAt<SharedToken<V, F>>
    for Place<'_, V, F, J, R> {
    ghost use Rattle.std.specs.Prelude.{◌≡◌};

    /// It is of the slot that J names.
    ghost takes = { λ _ told. told.slot ≡ J.slot };

    /// Others post on the board too, so nothing is told of it.
    ghost posts = { λ _ _ _. Unit {0} };

    fn post(&mut self, posting: Posting<SharedToken<V, F>>)
        requires number { HasNumber (λ told. length told.list) posting }
        requires token { HasToken (λ told. told.slot ≡ J.slot) posting }
    {
        self.board.posted.lock(self.rt).post(posting);
    }
}
