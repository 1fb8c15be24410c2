// Loads of one dictionary: how they end, what its board tells, and which rows it has then.
mod courses;
mod dictionary;
mod making;

use crate::{LoadEnd, StatusRow};
use child_io::MemorySpawner;
use dict_schema::Layout;
use dict_value::{BadRow, BadValue, Cause, ColType, Format, Why};
use dictionary::{Call, Dictionary};
use load_core::{LastCause, State};
use making::{Ends, FLAT, Sketch, spawner_of};
use std::alloc::Global;
use std::process::Abort;
use std::test::Fail;

/// A child that gives no version: a definition, an output that it loads before and the rows of that, what the child
/// prints, how it ends, and the cause.
#[derive(Clone, Copy)]
struct Failure {
    sketch: Sketch,
    good: &'static [u8],
    rows: &'static [u8],
    prints: &'static [u8],
    ends: Ends,
    cause: Cause,
}

/// A FLAT dictionary of two rows whose next child isn't started.
const NOT_STARTED: Failure = Failure {
    sketch: Sketch {
        max_output: 40,
        ..FLAT
    },
    good: b"1\ta\n2\tb\n",
    rows: b"1\ta\n2\tb\n",
    prints: b"",
    ends: Ends::NotStarted,
    cause: Cause::Start,
};

const COMMAS: Failure = Failure {
    sketch: Sketch {
        format: Format::Csv,
        ..FLAT
    },
    good: b"1,\"a\nb\"\"c\"\r\n\r\n2,z\n",
    rows: b"1\ta\\nb\"c\n2\tz\n",
    ..NOT_STARTED
};

const PREFIXES: Failure = Failure {
    sketch: Sketch {
        key: ColType::Str,
        layout: Layout::IpTrie,
        ..FLAT
    },
    good: b"10.0.0.0/8\ta\n",
    rows: b"10.0.0.0/8\ta\n",
    ..NOT_STARTED
};

static FAILURES: [Failure; 24] = [
    NOT_STARTED,
    // No row is left, the last one is cut, and the rows are whole.
    Failure {
        prints: b"1\tc\n2\t",
        ends: Ends::Cut(0),
        cause: Cause::Read,
        ..NOT_STARTED
    },
    Failure {
        prints: b"1\tc\n2\t",
        ends: Ends::Cut(2),
        cause: Cause::Read,
        ..NOT_STARTED
    },
    Failure {
        prints: b"1\tc\n",
        ends: Ends::Cut(2),
        cause: Cause::Read,
        ..NOT_STARTED
    },
    Failure {
        prints: b"1\tc\n",
        ends: Ends::TimedOut(2),
        cause: Cause::TimedOut,
        ..NOT_STARTED
    },
    // One byte above the limit, and at it.
    Failure {
        prints: b"1\t45678901234567890123456789012345678901\n",
        ends: Ends::With(3),
        cause: Cause::Longer(40),
        ..NOT_STARTED
    },
    Failure {
        prints: b"1\t4567890123456789012345678901234567890\n",
        ends: Ends::With(3),
        cause: Cause::Status(3),
        ..NOT_STARTED
    },
    Failure {
        prints: b"1\tc\n",
        ends: Ends::WaitFails,
        cause: Cause::Read,
        ..NOT_STARTED
    },
    Failure {
        prints: b"9\tz\n",
        ends: Ends::With(3),
        cause: Cause::Status(3),
        ..NOT_STARTED
    },
    Failure {
        prints: b"q\tz\n",
        ends: Ends::With(-1),
        cause: Cause::Status(-1),
        ..NOT_STARTED
    },
    Failure {
        prints: b"9\tz\n",
        ends: Ends::Killed,
        cause: Cause::Killed,
        ..NOT_STARTED
    },
    Failure {
        prints: b"1\tc\r\n",
        ends: Ends::With(0),
        cause: Cause::Row(BadRow {
            line: 1,
            column: 0,
            why: Why::CarriageReturn,
        }),
        ..NOT_STARTED
    },
    Failure {
        prints: b"1\tc\n2\t\\x4",
        ends: Ends::With(0),
        cause: Cause::Row(BadRow {
            line: 2,
            column: 0,
            why: Why::Escape(2),
        }),
        ..NOT_STARTED
    },
    Failure {
        prints: b"1\tc\td\n",
        ends: Ends::With(0),
        cause: Cause::Row(BadRow {
            line: 1,
            column: 0,
            why: Why::FieldCount(3),
        }),
        ..NOT_STARTED
    },
    Failure {
        prints: b"1\tc\nq\td\n",
        ends: Ends::With(0),
        cause: Cause::Row(BadRow {
            line: 2,
            column: 1,
            why: Why::Value(BadValue::NotANumber),
        }),
        ..NOT_STARTED
    },
    Failure {
        prints: b"18446744073709551616\tc\n",
        ends: Ends::With(0),
        cause: Cause::Row(BadRow {
            line: 1,
            column: 1,
            why: Why::Value(BadValue::OutOfRange),
        }),
        ..NOT_STARTED
    },
    Failure {
        prints: b"\\N\tc\n",
        ends: Ends::With(0),
        cause: Cause::Row(BadRow {
            line: 1,
            column: 1,
            why: Why::Value(BadValue::NullNotAllowed),
        }),
        ..NOT_STARTED
    },
    Failure {
        prints: b"1\tc\n500000\ta\n500001\ta\n",
        ends: Ends::With(0),
        cause: Cause::Key(500_000),
        ..NOT_STARTED
    },
    // A bad row is told before a key that is too large.
    Failure {
        prints: b"500000\ta\n2\n",
        ends: Ends::With(0),
        cause: Cause::Row(BadRow {
            line: 2,
            column: 0,
            why: Why::FieldCount(1),
        }),
        ..NOT_STARTED
    },
    Failure {
        prints: b"1,\"a\nb\"\"c\"\r\n\r\nz,z\n",
        ends: Ends::With(0),
        cause: Cause::Row(BadRow {
            line: 3,
            column: 1,
            why: Why::Value(BadValue::NotANumber),
        }),
        ..COMMAS
    },
    Failure {
        prints: b"1,a\rb\n",
        ends: Ends::With(0),
        cause: Cause::Row(BadRow {
            line: 1,
            column: 0,
            why: Why::NotOneRecord,
        }),
        ..COMMAS
    },
    Failure {
        prints: b"10.0.0.0/8\tb\n1.2.3.4/33\tx\n",
        ends: Ends::With(0),
        cause: Cause::Prefix(2),
        ..PREFIXES
    },
    Failure {
        prints: b"1.2.3.4\\x4\tx\n",
        ends: Ends::With(0),
        cause: Cause::Row(BadRow {
            line: 1,
            column: 0,
            why: Why::Escape(7),
        }),
        ..PREFIXES
    },
    Failure {
        prints: b"10.0.0.0/8\tb\n",
        ends: Ends::With(256),
        cause: Cause::Status(256),
        ..PREFIXES
    },
];

/// What a board tells of a dictionary with so many versions.
fn loaded(number: u64, fails: u64, cause: LastCause) -> StatusRow {
    StatusRow {
        number,
        state: State::Loaded,
        oks: number,
        fails,
        cause,
    }
}

/// A load that ends so, what the board tells then, and the rows that are there.
fn see_load(
    rt: &impl Abort,
    alloc: Global,
    dictionary: &mut Dictionary,
    spawner: &mut MemorySpawner,
    end: LoadEnd,
    row: StatusRow,
    rows: &[u8],
) -> Result<(), Fail> {
    assert_eq!(rt;
        dictionary.call(alloc, Call::Load, spawner, 100)?,
        Some(end)
    );
    assert_eq!(rt; dictionary.status(rt), row);
    let (number, text) = dictionary.entered(alloc)?;
    assert_eq!(rt; number, row.number);
    assert!(rt; text.as_slice() == rows);
    Ok(())
}

/// A version, a child that gives none, and a version: the cause is told until then, and the rows stay.
fn see_failure(rt: &impl Abort, alloc: Global, failure: &Failure) -> Result<(), Fail> {
    let mut spawner = spawner_of(
        alloc,
        &[
            (failure.good, Ends::With(0)),
            (failure.prints, failure.ends),
            (b"", Ends::With(0)),
        ],
    )?;
    let mut d = Dictionary::new(alloc, &failure.sketch)?;
    let first = loaded(1, 0, LastCause::None);
    let end = LoadEnd::Published(1);
    see_load(rt, alloc, &mut d, &mut spawner, end, first, failure.rows)?;
    let failed = loaded(1, 1, LastCause::Of(failure.cause));
    let end = LoadEnd::Failed(failure.cause);
    see_load(rt, alloc, &mut d, &mut spawner, end, failed, failure.rows)?;
    let last = loaded(2, 1, LastCause::None);
    let end = LoadEnd::Published(2);
    see_load(rt, alloc, &mut d, &mut spawner, end, last, b"")
}

#[test]
fn each_failed_load_leaves_the_version_and_tells_its_cause(rt: HostRuntime) -> Result<(), Fail> {
    for failure in &FAILURES {
        see_failure(&rt, rt.alloc(), failure)?;
    }
    Ok(())
}

#[test]
fn loads_that_are_used_up_start_no_child(rt: HostRuntime) -> Result<(), Fail> {
    let alloc = rt.alloc();
    let prints = NOT_STARTED.good;
    let mut spawner = spawner_of(alloc, &[(prints, Ends::With(0)), (prints, Ends::With(0))])?;
    let mut d = Dictionary::new(alloc, &NOT_STARTED.sketch)?;
    let end = LoadEnd::Published(1);
    let first = loaded(1, 0, LastCause::None);
    see_load(
        &rt,
        alloc,
        &mut d,
        &mut spawner,
        end,
        first,
        NOT_STARTED.rows,
    )?;
    d.use_up();
    let end = LoadEnd::Failed(Cause::Spent);
    let left = loaded(1, 0, LastCause::Of(Cause::Spent));
    see_load(
        &rt,
        alloc,
        &mut d,
        &mut spawner,
        end,
        left,
        NOT_STARTED.rows,
    )?;
    assert_eq!(rt; spawner.starts().len(), 1);
    Ok(())
}
