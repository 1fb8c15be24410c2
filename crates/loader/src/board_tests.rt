// Boards after postings, and what they tell.
ghost use Rattle.std.specs.Prelude.{IfSome, OnOk};
ghost use Rattle.version_slot.specs.Views.{HasEntries};

use crate::{BoardAt, BoardState, LoadNote, NoteEnd, Posting, StatusRow};
use dict_value::Cause;
use load_core::{LastCause, State};
use std::alloc::Global;
use std::test::Fail;
use version_slot::{Fact, LAST_NUMBER, PlainSlot, PlainToken, Publisher, Token, Viewer};

/// Each entry may follow each list.
struct Anything;

impl Fact<u64> for Anything {
    ghost allows = { λ _ _. Unit {0} };
}

/// What is posted, at the moment of its place.
#[derive(Clone, Copy)]
enum Step {
    Begun,
    /// One more entry is published.
    Published,
    Failed(Cause),
}

/// Postings, and the number, the state, the counts and the cause that a board tells after them.
struct Case {
    steps: &'static [Step],
    number: u64,
    state: State,
    fails: u64,
    cause: LastCause,
}

static CASES: [Case; 9] = [
    Case {
        steps: &[],
        number: 0,
        state: State::NotLoaded,
        fails: 0,
        cause: LastCause::None,
    },
    Case {
        steps: &[Step::Begun],
        number: 0,
        state: State::Loading,
        fails: 0,
        cause: LastCause::None,
    },
    Case {
        steps: &[Step::Begun, Step::Failed(Cause::Key(500_000))],
        number: 0,
        state: State::Failed,
        fails: 1,
        cause: LastCause::Of(Cause::Key(500_000)),
    },
    Case {
        steps: &[Step::Begun, Step::Failed(Cause::Start), Step::Begun],
        number: 0,
        state: State::FailedAndReloading,
        fails: 1,
        cause: LastCause::Of(Cause::Start),
    },
    Case {
        steps: &[
            Step::Begun,
            Step::Failed(Cause::Start),
            Step::Begun,
            Step::Published,
        ],
        number: 1,
        state: State::Loaded,
        fails: 1,
        cause: LastCause::None,
    },
    Case {
        steps: &[
            Step::Begun,
            Step::Published,
            Step::Begun,
            Step::Failed(Cause::Status(3)),
        ],
        number: 1,
        state: State::Loaded,
        fails: 1,
        cause: LastCause::Of(Cause::Status(3)),
    },
    Case {
        steps: &[Step::Begun, Step::Published, Step::Begun],
        number: 1,
        state: State::LoadedAndReloading,
        fails: 0,
        cause: LastCause::None,
    },
    Case {
        steps: &[Step::Begun, Step::Published, Step::Failed(Cause::Spent)],
        number: 1,
        state: State::Loaded,
        fails: 0,
        cause: LastCause::Of(Cause::Spent),
    },
    Case {
        steps: &[Step::Failed(Cause::Spent)],
        number: 0,
        state: State::NotLoaded,
        fails: 0,
        cause: LastCause::Of(Cause::Spent),
    },
];

fn post(
    alloc: Global,
    slot: &mut PlainSlot<u64, Anything>,
    board: &mut BoardState<PlainToken>,
    step: Step,
    moment: u64,
) -> Result<(), Fail>
    requires { IfSome board.old.newest (HasEntries slot.old) }
    ensures { OnOk result (IfSome board.new.newest (HasEntries slot.new)) }
{
    match step {
        Step::Begun => board.post(Posting::Begun),
        Step::Failed(cause) => board.post(Posting::Failed { cause, moment }),
        Step::Published => {
            if slot.number() >= LAST_NUMBER {
                return Err("no number is left".into());
            }
            let Ok(told) = slot.publish(alloc, moment) else {
                return Err("nothing is published".into());
            };
            let number = told.number();
            board.post(Posting::Published {
                told,
                number,
                moment,
            });
        }
    }
    Ok(())
}

#[test]
fn boards_tell_what_was_posted(rt: HostRuntime) -> Result<(), Fail> {
    let alloc = rt.alloc();
    for (place, case) in CASES.iter().enumerate() {
        let mut slot: PlainSlot<u64, Anything> = PlainSlot::new(alloc);
        let Ok(mut board) = BoardState::new(alloc) else {
            return Err("no board".into());
        };
        for (moment, step) in case.steps.iter().enumerate() {
            post(alloc, &mut slot, &mut board, *step, moment as u64)?;
        }
        let row = StatusRow {
            number: case.number,
            state: case.state,
            oks: case.number,
            fails: case.fails,
            cause: case.cause,
        };
        assert_eq!(rt; slot.number(), case.number, "at {place}");
        assert_eq!(rt; board.teach(&mut slot), row, "at {place}");
    }
    Ok(())
}

#[test]
fn the_last_ends_are_noted(rt: HostRuntime) -> Result<(), Fail> {
    let alloc = rt.alloc();
    let Ok(mut board) = BoardState::<PlainToken>::new(alloc) else {
        return Err("no board".into());
    };
    for moment in 0..65 {
        board.post(Posting::Begun);
        board.post(Posting::Failed {
            cause: Cause::Status(3),
            moment,
        });
    }
    assert_eq!(rt; board.notes().len(), 64);
    for (place, note) in board.notes().iter().enumerate() {
        let end = NoteEnd::Failed(Cause::Status(3));
        let moment = place as u64 + 1;
        assert_eq!(rt; *note, LoadNote { moment, end });
    }
    Ok(())
}
