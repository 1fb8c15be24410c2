// Loads: what is published, and what a failed load leaves.
use super::{Ends, FLAT, Session, check_sessions, clock, run_told, script, shelf, source};
use crate::once::Outside;
use child_io::MemorySpawner;
use dict_value::{Bytes, ListOf, MOST_ROWS};
use std::test::Fail;

static LOADS: [Session; 8] = [
    // A key that is too large for the layout.
    Session {
        file: FLAT,
        children: &[
            (b"500000\ta\n", Ends::With(0)),
            (b"500000\ta\n", Ends::With(0)),
        ],
        moments: &[],
        input: b"reload\td\ndictGet\td\tx\t1\nstatus\td\n",
        out: b"ERR\t7\t9 key 500000\nERR\t5\nOK\tv0\tFAILED\t0\t2\t9 key 500000\n",
    },
    Session {
        file: FLAT,
        children: &[(b"1\ta", Ends::With(0)), (b"1\ta\r\n", Ends::With(0))],
        moments: &[],
        input: b"dictGet\td\tx\t1\nreload\td\n",
        out: b"OK\tv1\ta\nERR\t7\t8 row 1 0 cr\n",
    },
    // A failed load leaves the version, and its cause is told.
    Session {
        file: FLAT,
        children: &[(b"1\ta\n2\tb\n", Ends::With(0)), (b"9\tz\n", Ends::With(3))],
        moments: &[],
        input: b"reload\td\ndictGet\td\tx\t2\nstatus\td\n",
        out: b"ERR\t7\t4 status 3\nOK\tv1\tb\nOK\tv1\tLOADED\t1\t1\t4 status 3\n",
    },
    // A cut output, and then a whole one.
    Session {
        file: FLAT,
        children: &[
            (b"1\ta\n2\tb\n", Ends::With(0)),
            (b"1\tc\n2\tdddd", Ends::Cut(1)),
            (b"1\tn\n", Ends::With(0)),
        ],
        moments: &[],
        input: b"reload\td\ndictGet\td\tx\t1\nreload\td\ndictGet\td\tx\t1\ndictGet\td\tx\t2\nstatus\td\n",
        out: b"ERR\t7\t2 read\nOK\tv1\ta\nOK\tv2\nOK\tv2\tn\nOK\tv2\t\nOK\tv2\tLOADED\t2\t1\t-\n",
    },
    Session {
        file: FLAT,
        children: &[(b"", Ends::NotStarted), (b"1\ta\n2\tb\n", Ends::With(0))],
        moments: &[],
        input: b"reload\td\nstatus\td\nafter\td\t1\nafter\td\t2\n",
        out: b"OK\tv1\nOK\tv1\tLOADED\t1\t1\t-\nOK\tv1\nERR\t12\t1\n",
    },
    Session {
        file: FLAT,
        children: &[(b"1\ta\n", Ends::Killed), (b"1\ta\n", Ends::WaitFails)],
        moments: &[],
        input: b"status\td\nreload\td\n",
        out: b"OK\tv0\tFAILED\t0\t1\t5 killed\nERR\t7\t2 read\n",
    },
    // What is due is loaded before a request: a load, a failed one, and its two retries.
    Session {
        file: b"CREATE DICTIONARY d (id UInt64, x String) PRIMARY KEY id SOURCE(EXECUTABLE(command 'c' format TSV)) \
            LAYOUT(FLAT()) LIFETIME(10);",
        children: &[
            (b"1\ta\n", Ends::With(0)),
            (b"1\tb\n", Ends::With(0)),
            (b"1\tc\n", Ends::With(1)),
            (b"1\td\n", Ends::With(1)),
            (b"1\te\n", Ends::With(0)),
        ],
        moments: &[100, 109, 110, 119, 120, 124, 125, 134, 135],
        input: b"dictGet\td\tx\t1\ndictGet\td\tx\t1\ndictGet\td\tx\t1\ndictGet\td\tx\t1\ndictGet\td\tx\t1\n\
            dictGet\td\tx\t1\ndictGet\td\tx\t1\ndictGet\td\tx\t1\n",
        out: b"OK\tv1\ta\nOK\tv2\tb\nOK\tv2\tb\nOK\tv2\tb\nOK\tv2\tb\nOK\tv2\tb\nOK\tv2\tb\nOK\tv3\te\n",
    },
    // Rows of an update are laid over the former ones.
    Session {
        file: b"CREATE DICTIONARY d (id UInt64, x String) PRIMARY KEY id SOURCE(EXECUTABLE(command 'c' format TSV \
            update_field updated update_lag 5)) LAYOUT(HASHED());",
        children: &[
            (b"1\ta\n2\tb\n", Ends::With(0)),
            (b"2\tc\n3\td\n", Ends::With(0)),
        ],
        moments: &[],
        input: b"reload\td\nmany\t3\tdictGet\td\tx\n1\n2\n3\n",
        out: b"OK\tv2\nOK\tv2\t3\na\nc\nd\n",
    },
];

#[test]
fn loads_publish_or_leave_the_version(rt: HostRuntime) -> Result<(), Fail> {
    check_sessions(&rt, rt.alloc(), &LOADS)
}

#[test]
fn one_row_too_many_is_told(rt: HostRuntime) -> Result<(), Fail> {
    let alloc = rt.alloc();
    let mut output = Bytes::new(alloc);
    for _ in 0..=MOST_ROWS {
        output.extend(b"1\ta\n")?;
    }
    let mut child = script(alloc, output.as_slice(), Ends::With(0))?;
    child.failing_reads = ListOf::new(alloc);
    let mut scripts = ListOf::new(alloc);
    scripts.push(child)?;
    let outside = Outside {
        shelf: shelf(alloc, FLAT, &[])?,
        spawner: MemorySpawner::new(alloc, scripts),
        clock: clock(alloc, &[])?,
    };
    let input = source(alloc, b"status\td\n", &[])?;
    let told = run_told(alloc, &["once", "d.sql", "1"], outside, input, 100, 100)?;
    assert!(rt; told.out.as_slice() == b"OK\tv0\tFAILED\t0\t1\t7 rows 4194304\n".as_slice());
    Ok(())
}
