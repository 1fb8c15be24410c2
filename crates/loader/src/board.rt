// A dictionary's board: what is posted of its loads, and what it tells of them.
ghost use Rattle.std.specs.Prelude.{◌≡◌, ℕ, List, [], ◌∷◌, ◌++◌, Option, None, IfSome, IfOk, length};
ghost use Rattle.std.specs.Option.{ForSome};
ghost use mathlib.Core.List.{IsPrefix};
ghost use Rattle.circular_buffer.specs.Buffer.{buffer, keep_last};
ghost use Rattle.version_slot.specs.Views.{KeepsTokens};
ghost use Rattle.loader.specs.Boards.{HasNumber, HasToken, empty_board, posted, row_of, state_of};

use crate::answers::StatusRow;
use circular_buffer::HeapCircularBuffer;
use dict_value::{Cause, NoMemory};
use load_core::{LastCause, State};
use std::alloc::Global;
use std::marker::Model;
use version_slot::{Token, Viewer};

/// How many ends of loads a board keeps.
pub const KEPT_NOTES: usize = 64;

/// How a load ended, as a board notes it.
#[derive(Clone, Copy, Debug, PartialEq, Eq)]
pub enum NoteEnd {
    /// The number of the version that was published.
    Published(u64),
    Failed(Cause),
}

/// How a load ended, and the moment that it had.
#[derive(Clone, Copy, Debug, PartialEq, Eq)]
pub struct LoadNote {
    pub moment: u64,
    pub end: NoteEnd,
}

/// What is posted of a load.
#[derive(Debug, Drop)]
pub enum Posting<T> {
    /// It runs.
    Begun,
    /// It ended so: the version's token, its number, and the moment of the load.
    Published { told: T, number: u64, moment: u64 },
    Failed { cause: Cause, moment: u64 },
}

/// Where postings go.
pub trait BoardAt<T: Token> {
    ghost use Rattle.loader.specs.declared.board.Posting.{Posting};

    /// The token is of the board's slot.
    ghost takes: { Self → T → Type 0 };

    /// Between the first state of the board and the second these were posted, in this order.
    ghost posts: { Self → List (Posting T) → Self → Type 0 };

    /// Posts one more. It takes no memory.
    fn post(&mut self, posting: Posting<T>)
        requires number { HasNumber T.number_of posting }
        requires token { HasToken (takes self.old) posting }
        ensures posts { (first : Self) (before : List (Posting T)) → posts first before self.old
            → posts first (before ++ posting ∷ []) self.new }
        ensures takes { (told : T) → takes self.old told → takes self.new told };
}

/// The board of one thread, or what lies under a board's lock.
#[derive(Drop)]
pub struct BoardState<T: Token> {
    newest: Option<T>,
    running: bool,
    oks: u64,
    fails: u64,
    cause: LastCause,
    notes: HeapCircularBuffer<LoadNote>,
}

impl<T: Token> Model for BoardState<T> {
    ghost use Rattle.std.specs.Prelude.{◌≡◌};
    ghost use Rattle.loader.specs.Boards.{BoardTold, newest_number};

    ghost Value = { BoardTold T };

    ghost view = { λ it. record {
      newest = it.newest;
      is_running = it.running;
      oks = it.oks;
      fails = it.fails;
      cause = it.cause;
      notes = it.notes.items;
    } };

    ghost invariant = { λ it. (it.notes.capacity ≡ 64) × (it.oks ≡ newest_number T.number_of it.newest) };
}

impl<T: Token> BoardAt<T> for BoardState<T> {
    ghost use Rattle.std.specs.Prelude.{◌≡◌, fold};
    ghost use Rattle.loader.specs.Boards.{posted};

    /// It is of each slot that all its tokens are of.
    ghost takes = { λ _ _. Unit {0} };

    ghost posts = { λ first postings now. now ≡ fold posted first postings };

    fn post(&mut self, posting: Posting<T>)
        requires number { HasNumber T.number_of posting }
        requires token { HasToken (λ _. Unit {0}) posting }
        ensures posted { self.new ≡ posted self.old posting }
    {
        match posting {
            Posting::Begun => self.running = true,
            Posting::Published {
                told,
                number,
                moment,
            } => {
                self.newest = Some(told);
                self.running = false;
                self.oks = number;
                self.cause = LastCause::None;
                self.notes.push_back(LoadNote {
                    moment,
                    end: NoteEnd::Published(number),
                });
            }
            Posting::Failed { cause, moment } => {
                match cause {
                    Cause::Spent => {}
                    _ => {
                        self.running = false;
                        self.fails = self.fails.saturating_add(1);
                    }
                }
                self.cause = LastCause::Of(cause);
                self.notes.push_back(LoadNote {
                    moment,
                    end: NoteEnd::Failed(cause),
                });
            }
        }
    }
}

impl<T: Token> BoardState<T> {
    /// The board of a dictionary of which no load has begun.
    pub fn new(alloc: Global) -> Result<BoardState<T>, NoMemory>
        ensures { IfOk result (λ board. board ≡ empty_board) }
    {
        match HeapCircularBuffer::with_capacity(alloc, KEPT_NOTES) {
            Ok(notes) => Ok(BoardState {
                newest: None,
                running: false,
                oks: 0,
                fails: 0,
                cause: LastCause::None,
                notes,
            }),
            Err(_) => Err(NoMemory),
        }
    }

    /// What the dictionary is told to be in.
    fn state(&self) -> State
        ensures { result ≡ state_of self.now }
    {
        if self.oks > 0 {
            if self.running {
                State::LoadedAndReloading
            } else {
                State::Loaded
            }
        } else if self.fails > 0 {
            if self.running {
                State::FailedAndReloading
            } else {
                State::Failed
            }
        } else if self.running {
            State::Loading
        } else {
            State::NotLoaded
        }
    }

    /// Lets a viewer of the tokens' slot learn the newest one, where there is one, and tells the row. It takes no
    /// memory.
    pub fn teach<W: Viewer<Told = T>>(&mut self, viewer: &mut W) -> StatusRow
        requires { ForSome self.old.newest (λ told. W.is_of viewer.old told) }
        ensures row { result ≡ row_of self.old }
        ensures board { self.new ≡ self.old }
        ensures none { self.old.newest ≡ None → viewer.new ≡ viewer.old }
        ensures learnt { IfSome self.old.newest (λ told. IsPrefix (W.told_list viewer.old told) (W.list viewer.new)) }
        ensures number { IfSome self.old.newest (λ told.
            length (W.told_list viewer.old told) ≡ result.number) }
        ensures view { IsPrefix (W.list viewer.old) (W.list viewer.new) }
        ensures refusals { W.refusals viewer.new ≡ W.refusals viewer.old }
        ensures tokens { KeepsTokens W.is_of W.told_list viewer.old viewer.new }
        ensures slot { W.slot viewer.new ≡ W.slot viewer.old }
    {
        if let Some(told) = &mut self.newest {
            viewer.learn(told);
        }
        StatusRow {
            number: self.oks,
            state: self.state(),
            oks: self.oks,
            fails: self.fails,
            cause: self.cause,
        }
    }

    /// The last ends, the oldest first.
    pub fn notes(&self) -> &HeapCircularBuffer<LoadNote>
        ensures { result.now ≡ buffer self.now.notes 64 }
    {
        &self.notes
    }
}
