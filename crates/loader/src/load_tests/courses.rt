// Courses of loads: the words that each starts its child with, how it ends, and what stands after it.
use super::dictionary::{Call, Dictionary};
use super::making::{Ends, FLAT, Sketch, script_of};
use crate::{LoadEnd, StatusRow};
use child_io::MemorySpawner;
use dict_schema::{Layout, Lifetime};
use dict_value::{Bytes, Cause, Format, ListOf};
use load_core::{LastCause, State};
use std::alloc::Global;
use std::process::Abort;
use std::test::Fail;

/// A call at a moment and the child that is there for it, if any; and how it ends, with which words a child is started,
/// if one is, and the state, the failed loads, the cause, the newest number and the rows then.
#[derive(Clone, Copy)]
struct Step {
    call: Call,
    now: u64,
    child: Option<(&'static [u8], Ends)>,
    end: Option<LoadEnd>,
    words: &'static [&'static [u8]],
    state: State,
    fails: u64,
    cause: LastCause,
    number: u64,
    rows: &'static [u8],
}

struct Course {
    sketch: Sketch,
    steps: &'static [Step],
}

/// The words of the command without a moment.
const WHOLE: &[&[u8]] = &[b"/bin/sh", b"-c", b"c"];

/// The first load of two rows.
const FIRST: Step = Step {
    call: Call::Load,
    now: 100,
    child: Some((b"1\ta\n2\tb\n", Ends::With(0))),
    end: Some(LoadEnd::Published(1)),
    words: WHOLE,
    state: State::Loaded,
    fails: 0,
    cause: LastCause::None,
    number: 1,
    rows: b"1\ta\n2\tb\n",
};

/// Nothing is due before the first load, nor at any later moment.
const NEVER: Step = Step {
    call: Call::Due,
    now: 9_223_372_036_854_775_807,
    child: None,
    end: None,
    words: &[],
    state: State::NotLoaded,
    number: 0,
    rows: b"",
    ..FIRST
};

/// Nothing is due after the first load.
const NOT_YET: Step = Step {
    call: Call::Due,
    child: None,
    end: None,
    words: &[],
    ..FIRST
};

/// The second load of the same rows.
const SECOND: Step = Step {
    end: Some(LoadEnd::Published(2)),
    number: 2,
    ..FIRST
};

/// A load whose child ends with status 1, and what stands then where none failed before.
const REFUSED: Step = Step {
    child: Some((b"9\tz\n", Ends::With(1))),
    end: Some(LoadEnd::Failed(Cause::Status(1))),
    fails: 1,
    cause: LastCause::Of(Cause::Status(1)),
    ..FIRST
};

/// The first load where it fails for a key.
const LARGE: Step = Step {
    child: Some((b"500000\ta\n", Ends::With(0))),
    end: Some(LoadEnd::Failed(Cause::Key(500_000))),
    state: State::Failed,
    fails: 1,
    cause: LastCause::Of(Cause::Key(500_000)),
    number: 0,
    rows: b"",
    ..FIRST
};

/// A version lives ten seconds.
const TEN: Sketch = Sketch {
    lifetime: Lifetime { min: 10, max: 10 },
    ..FLAT
};

/// First loads that fail, loads that are cut, and loads that are due.
static COURSES: [Course; 7] = [
    Course {
        sketch: FLAT,
        steps: &[
            NEVER,
            LARGE,
            Step { fails: 2, ..LARGE },
            Step {
                child: Some((b"499999\ta\n", Ends::With(0))),
                fails: 2,
                rows: b"499999\ta\n",
                ..FIRST
            },
        ],
    },
    Course {
        sketch: FLAT,
        steps: &[
            Step {
                child: Some((b"", Ends::NotStarted)),
                end: Some(LoadEnd::Failed(Cause::Start)),
                cause: LastCause::Of(Cause::Start),
                ..LARGE
            },
            Step { fails: 1, ..FIRST },
        ],
    },
    Course {
        sketch: FLAT,
        steps: &[
            FIRST,
            Step {
                child: Some((b"1\tc\n2\t", Ends::Cut(2))),
                end: Some(LoadEnd::Failed(Cause::Read)),
                cause: LastCause::Of(Cause::Read),
                ..REFUSED
            },
            Step {
                child: Some((b"1\tn\n", Ends::With(0))),
                fails: 1,
                rows: b"1\tn\n",
                ..SECOND
            },
        ],
    },
    Course {
        sketch: TEN,
        steps: &[
            NEVER,
            FIRST,
            Step {
                now: 109,
                ..NOT_YET
            },
            Step {
                call: Call::Due,
                now: 110,
                ..SECOND
            },
            Step {
                now: 119,
                number: 2,
                ..NOT_YET
            },
            Step {
                call: Call::Due,
                now: 121,
                end: Some(LoadEnd::Published(3)),
                number: 3,
                ..FIRST
            },
        ],
    },
    // Retries come after 5 seconds, and after 10 seconds.
    Course {
        sketch: TEN,
        steps: &[
            FIRST,
            Step {
                call: Call::Due,
                now: 110,
                ..REFUSED
            },
            Step {
                now: 114,
                fails: 1,
                cause: LastCause::Of(Cause::Status(1)),
                ..NOT_YET
            },
            Step {
                call: Call::Due,
                now: 115,
                fails: 2,
                ..REFUSED
            },
            Step {
                now: 124,
                fails: 2,
                cause: LastCause::Of(Cause::Status(1)),
                ..NOT_YET
            },
            Step {
                call: Call::Due,
                now: 125,
                fails: 2,
                ..SECOND
            },
        ],
    },
    // What was published stays, and a load that failed is tried again.
    Course {
        sketch: FLAT,
        steps: &[
            FIRST,
            Step {
                now: 9_223_372_036_854_775_807,
                ..NOT_YET
            },
            Step {
                now: 200,
                ..REFUSED
            },
            Step {
                now: 204,
                fails: 1,
                cause: LastCause::Of(Cause::Status(1)),
                ..NOT_YET
            },
            Step {
                call: Call::Due,
                now: 205,
                fails: 1,
                ..SECOND
            },
            Step {
                now: 9_223_372_036_854_775_807,
                fails: 1,
                number: 2,
                ..NOT_YET
            },
        ],
    },
    // A deadline at the last moment, and one behind it.
    Course {
        sketch: TEN,
        steps: &[
            Step {
                now: 9_223_372_036_854_775_797,
                ..FIRST
            },
            Step {
                now: 9_223_372_036_854_775_806,
                ..NOT_YET
            },
            Step {
                call: Call::Due,
                now: 9_223_372_036_854_775_807,
                ..REFUSED
            },
            Step {
                now: 9_223_372_036_854_775_807,
                fails: 1,
                cause: LastCause::Of(Cause::Status(1)),
                ..NOT_YET
            },
        ],
    },
];

/// Rows are loaded that changed, from 5 seconds before the last published load on.
const LAGGING: Sketch = Sketch {
    layout: Layout::Hashed,
    lag: Some(5),
    ..FLAT
};

/// The command is run as it is, from its folder.
const DIRECT: Sketch = Sketch {
    direct: true,
    lag: Some(4_294_967_295),
    ..LAGGING
};

/// Loads that are laid over the former rows.
static UPDATES: [Course; 4] = [
    Course {
        sketch: LAGGING,
        steps: &[
            FIRST,
            Step {
                now: 130,
                child: Some((b"2\tz\n3\tc\n", Ends::With(0))),
                words: &[b"/bin/sh", b"-c", b"c ts 95"],
                rows: b"2\tz\n3\tc\n1\ta\n",
                ..SECOND
            },
            Step {
                now: 140,
                words: &[b"/bin/sh", b"-c", b"c ts 125"],
                number: 2,
                rows: b"2\tz\n3\tc\n1\ta\n",
                ..REFUSED
            },
            Step {
                now: 144,
                child: Some((b"", Ends::With(0))),
                end: Some(LoadEnd::Published(3)),
                words: &[b"/bin/sh", b"-c", b"c ts 125"],
                fails: 1,
                number: 3,
                rows: b"2\tz\n3\tc\n1\ta\n",
                ..FIRST
            },
            Step {
                now: 200,
                child: Some((b"9\tp\n9\tq\n1\tr\n", Ends::With(0))),
                end: Some(LoadEnd::Published(4)),
                words: &[b"/bin/sh", b"-c", b"c ts 139"],
                fails: 1,
                number: 4,
                rows: b"9\tp\n1\tr\n2\tz\n3\tc\n",
                ..FIRST
            },
        ],
    },
    // All rows are asked for until a load was published, and a key that is too large leaves the former rows.
    Course {
        sketch: Sketch {
            lag: Some(5),
            ..FLAT
        },
        steps: &[
            LARGE,
            Step {
                now: 105,
                fails: 1,
                ..FIRST
            },
            Step {
                now: 110,
                child: Some((b"2\tz\n500000\tq\n", Ends::With(0))),
                words: &[b"/bin/sh", b"-c", b"c ts 100"],
                state: State::Loaded,
                fails: 2,
                number: 1,
                rows: b"1\ta\n2\tb\n",
                ..LARGE
            },
            Step {
                now: 120,
                child: Some((b"2\tz\n", Ends::With(0))),
                words: &[b"/bin/sh", b"-c", b"c ts 100"],
                fails: 2,
                rows: b"2\tz\n1\ta\n",
                ..SECOND
            },
        ],
    },
    // No moment is below 0.
    Course {
        sketch: DIRECT,
        steps: &[
            Step {
                words: &[b"./user_scripts/c"],
                ..FIRST
            },
            Step {
                now: 4_294_967_300,
                child: Some((b"3\tc\n", Ends::With(0))),
                words: &[b"./user_scripts/c", b"ts", b"0"],
                rows: b"3\tc\n1\ta\n2\tb\n",
                ..SECOND
            },
            Step {
                now: 4_294_967_301,
                end: Some(LoadEnd::Published(3)),
                words: &[b"./user_scripts/c", b"ts", b"5"],
                number: 3,
                rows: b"1\ta\n2\tb\n3\tc\n",
                ..FIRST
            },
        ],
    },
    // Without an update field a load is whole, and nothing is kept.
    Course {
        sketch: FLAT,
        steps: &[
            FIRST,
            Step {
                now: 130,
                child: Some((b"2\tz\n3\tc\n", Ends::With(0))),
                rows: b"2\tz\n3\tc\n",
                ..SECOND
            },
        ],
    },
];

/// Another definition, whose versions live ten seconds.
const OTHER: Sketch = Sketch {
    lag: Some(20),
    lifetime: Lifetime { min: 10, max: 10 },
    ..LAGGING
};

const COMMAS: Sketch = Sketch {
    format: Format::Csv,
    ..FLAT
};

/// Loads with other definitions.
static CHANGES: [Course; 2] = [
    Course {
        sketch: LAGGING,
        steps: &[
            FIRST,
            // It fails: the next load has the former definition, and its versions stay.
            Step {
                call: Call::As(OTHER),
                now: 110,
                ..REFUSED
            },
            Step {
                now: 114,
                fails: 1,
                cause: LastCause::Of(Cause::Status(1)),
                ..NOT_YET
            },
            Step {
                call: Call::Due,
                now: 115,
                child: Some((b"2\tz\n", Ends::With(0))),
                words: &[b"/bin/sh", b"-c", b"c ts 95"],
                fails: 1,
                rows: b"2\tz\n1\ta\n",
                ..SECOND
            },
            Step {
                now: 9_223_372_036_854_775_807,
                fails: 1,
                number: 2,
                rows: b"2\tz\n1\ta\n",
                ..NOT_YET
            },
            // It is published: its lifetime counts at once, and the former rows aren't laid under its own.
            Step {
                call: Call::As(OTHER),
                now: 120,
                child: Some((b"3\tc\n", Ends::With(0))),
                end: Some(LoadEnd::Published(3)),
                fails: 1,
                number: 3,
                rows: b"3\tc\n",
                ..FIRST
            },
            Step {
                now: 129,
                fails: 1,
                number: 3,
                rows: b"3\tc\n",
                ..NOT_YET
            },
            Step {
                call: Call::Due,
                now: 130,
                child: Some((b"1\tq\n", Ends::With(0))),
                end: Some(LoadEnd::Published(4)),
                words: &[b"/bin/sh", b"-c", b"c ts 100"],
                fails: 1,
                number: 4,
                rows: b"1\tq\n3\tc\n",
                ..FIRST
            },
            // With the current definition it is a load.
            Step {
                call: Call::As(OTHER),
                now: 140,
                child: Some((b"", Ends::With(0))),
                end: Some(LoadEnd::Published(5)),
                words: &[b"/bin/sh", b"-c", b"c ts 110"],
                fails: 1,
                number: 5,
                rows: b"1\tq\n3\tc\n",
                ..FIRST
            },
            Step {
                call: Call::As(LAGGING),
                now: 150,
                child: Some((b"8\th\n", Ends::With(0))),
                end: Some(LoadEnd::Published(6)),
                fails: 1,
                number: 6,
                rows: b"8\th\n",
                ..FIRST
            },
            Step {
                now: 9_223_372_036_854_775_807,
                fails: 1,
                number: 6,
                rows: b"8\th\n",
                ..NOT_YET
            },
        ],
    },
    Course {
        sketch: FLAT,
        steps: &[
            Step {
                call: Call::As(COMMAS),
                child: Some((b"500000,a\n", Ends::With(0))),
                ..LARGE
            },
            Step {
                call: Call::As(COMMAS),
                child: Some((b"1,a\n2,b\n", Ends::With(0))),
                fails: 1,
                ..FIRST
            },
            Step {
                child: Some((b"7,\"a,b\"\n", Ends::With(0))),
                fails: 1,
                rows: b"7\ta,b\n",
                ..SECOND
            },
        ],
    },
];

/// What starts the children of a course.
fn spawner_of(alloc: Global, steps: &[Step]) -> Result<MemorySpawner, Fail> {
    let mut scripts = ListOf::new(alloc);
    for step in steps {
        if let Some((prints, ends)) = step.child {
            scripts.push(script_of(alloc, Bytes::copy_of(alloc, prints)?, ends)?)?;
        }
    }
    Ok(MemorySpawner::new(alloc, scripts))
}

fn are_words(words: &[Bytes], wanted: &[&[u8]]) -> bool {
    if words.len() != wanted.len() {
        return false;
    }
    for place in 0..words.len() {
        if words[place].as_slice() != wanted[place] {
            return false;
        }
    }
    true
}

/// Whether behind so many starts one more had these words, or no one came where there are none.
fn is_started(starts: &[ListOf<Bytes>], before: usize, words: &[&[u8]]) -> bool {
    if words.is_empty() {
        return starts.len() == before;
    }
    match starts.last() {
        Some(last) => starts.len() - 1 == before && are_words(last.as_slice(), words),
        None => false,
    }
}

fn see_step(
    rt: &impl Abort,
    alloc: Global,
    dictionary: &mut Dictionary,
    spawner: &mut MemorySpawner,
    step: &Step,
) -> Result<(), Fail> {
    let before = spawner.starts().len();
    let end = dictionary.call(alloc, step.call, spawner, step.now)?;
    let now = step.now;
    let row = StatusRow {
        number: step.number,
        state: step.state,
        oks: step.number,
        fails: step.fails,
        cause: step.cause,
    };
    assert_eq!(rt; end, step.end, "at {now}");
    assert!(rt;
        is_started(spawner.starts(), before, step.words),
        "at {now}"
    );
    assert_eq!(rt; dictionary.status(rt), row, "at {now}");
    let (number, rows) = dictionary.entered(alloc)?;
    assert_eq!(rt; number, step.number, "at {now}");
    assert!(rt; rows.as_slice() == step.rows, "at {now}");
    Ok(())
}

fn see_courses(rt: &impl Abort, alloc: Global, courses: &[Course]) -> Result<(), Fail> {
    for course in courses {
        let mut spawner = spawner_of(alloc, course.steps)?;
        let mut dictionary = Dictionary::new(alloc, &course.sketch)?;
        for step in course.steps {
            see_step(rt, alloc, &mut dictionary, &mut spawner, step)?;
        }
    }
    Ok(())
}

#[test]
fn loads_go_their_course(rt: HostRuntime) -> Result<(), Fail> {
    see_courses(&rt, rt.alloc(), &COURSES)
}

#[test]
fn updates_are_laid_over_the_former_rows(rt: HostRuntime) -> Result<(), Fail> {
    see_courses(&rt, rt.alloc(), &UPDATES)
}

#[test]
fn published_definitions_are_followed(rt: HostRuntime) -> Result<(), Fail> {
    see_courses(&rt, rt.alloc(), &CHANGES)
}

/// A load, a failed one with another definition, and a published one.
static CHANGED: [Step; 3] = [
    FIRST,
    Step {
        call: Call::As(OTHER),
        ..REFUSED
    },
    Step {
        call: Call::As(OTHER),
        ..FIRST
    },
];

/// A definition is the current one from its published load on.
#[test]
fn the_published_definition_is_current(rt: HostRuntime) -> Result<(), Fail> {
    let alloc = rt.alloc();
    let mut spawner = spawner_of(alloc, &CHANGED)?;
    let mut dictionary = Dictionary::new(alloc, &LAGGING)?;
    for (place, step) in CHANGED.iter().enumerate() {
        dictionary.call(alloc, step.call, &mut spawner, step.now)?;
        assert_eq!(rt; dictionary.is_current(alloc, &LAGGING)?, place < 2);
        assert_eq!(rt; dictionary.is_current(alloc, &OTHER)?, place == 2);
    }
    Ok(())
}
