// Runs of `demo`: the line of the counts, and how it ends.
use super::strings;
use crate::demo::demo;
use crate::status::Status;
use dict_io::MemorySink;
use dict_value::{Bytes, ListOf};
use std::alloc::Global;
use std::test::Fail;

/// How a run ends and what it writes to both outputs, of which the first has room for so many bytes.
#[derive(Drop)]
struct Printed {
    status: Status,
    out: Bytes,
    err: Bytes,
}

fn print(alloc: Global, words: &[&'static str], room: u32) -> Result<Printed, Fail> {
    let words = strings(alloc, words)?;
    let mut out = MemorySink::new(alloc, room, ListOf::new(alloc))?;
    let mut err = MemorySink::new(alloc, 200, ListOf::new(alloc))?;
    let status = demo(alloc, words.as_slice(), &mut out, &mut err);
    Ok(Printed {
        status,
        out: Bytes::copy_of(alloc, out.written().as_slice())?,
        err: Bytes::copy_of(alloc, err.written().as_slice())?,
    })
}

const USAGE: &[u8] =
    b"usage: dictd once DEFS SEED | dictd serve DEFS ADDR WORKERS SEED | dictd demo N SEED\n";

/// Words, the room of the output, and how the run ends: its status and what both outputs are written.
static RUNS: [(&[&str], u32, Status, &[u8], &[u8]); 20] = [
    // Keys 1, 0, 7, 6 of the rows and 3, 0, 5, 2 of the lookups.
    (
        &["demo", "4", "1"],
        100,
        Status::Done,
        b"rows 4 lookups 4 hits 1 sum 1\n",
        b"",
    ),
    (
        &["demo", "1", "0"],
        100,
        Status::Done,
        b"rows 1 lookups 1 hits 1 sum 0\n",
        b"",
    ),
    (
        &["demo", "0004", "01"],
        100,
        Status::Done,
        b"rows 4 lookups 4 hits 1 sum 1\n",
        b"",
    ),
    // Three times the seed has more than 64 bits.
    (
        &["demo", "3", "18446744073709551615"],
        100,
        Status::Done,
        b"rows 3 lookups 3 hits 2 sum 0\n",
        b"",
    ),
    (
        &["demo", "7", "18446744073709551615"],
        100,
        Status::Done,
        b"rows 7 lookups 7 hits 5 sum 10\n",
        b"",
    ),
    // More lookups than a block has.
    (
        &["demo", "5000", "7"],
        100,
        Status::Done,
        b"rows 5000 lookups 5000 hits 2503 sum 6258053\n",
        b"",
    ),
    // Two keys, each of many rows.
    (
        &["demo", "48271", "5"],
        100,
        Status::Done,
        b"rows 48271 lookups 48271 hits 1 sum 0\n",
        b"",
    ),
    // Another form, a number out of range, or one of more than twenty digits.
    (&[], 100, Status::Usage, b"", USAGE),
    (&["demo"], 100, Status::Usage, b"", USAGE),
    (&["demo", "4"], 100, Status::Usage, b"", USAGE),
    (&["demo", "4", "1", "1"], 100, Status::Usage, b"", USAGE),
    (&["once", "4", "1"], 100, Status::Usage, b"", USAGE),
    (&["demo", "0", "1"], 100, Status::Usage, b"", USAGE),
    (&["demo", "1000001", "1"], 100, Status::Usage, b"", USAGE),
    (
        &["demo", "4", "18446744073709551616"],
        100,
        Status::Usage,
        b"",
        USAGE,
    ),
    (&["demo", "-4", "1"], 100, Status::Usage, b"", USAGE),
    (
        &["demo", "000000000000000000004", "1"],
        100,
        Status::Usage,
        b"",
        USAGE,
    ),
    (
        &["demo", "4", "000000000000000000001"],
        100,
        Status::Usage,
        b"",
        USAGE,
    ),
    // An output that takes a front of the line, or nothing.
    (
        &["demo", "4", "1"],
        8,
        Status::WriteFault,
        b"rows 4 l",
        b"write failed\n",
    ),
    (
        &["demo", "4", "1"],
        0,
        Status::WriteFault,
        b"",
        b"write failed\n",
    ),
];

#[test]
fn counts_are_printed(rt: HostRuntime) -> Result<(), Fail> {
    let alloc = rt.alloc();
    for (place, (words, room, status, out, err)) in RUNS.iter().enumerate() {
        let printed = print(alloc, words, *room)?;
        assert_eq!(rt; printed.status, *status, "at {place}");
        assert!(rt; printed.out.as_slice() == *out, "at {place}");
        assert!(rt; printed.err.as_slice() == *err, "at {place}");
    }
    Ok(())
}
