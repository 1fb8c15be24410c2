// How runs end: each status with what it is told by.
use super::{FIRST, FLAT, Told, clock, run_told, shelf, source, spawner};
use crate::once::Outside;
use crate::status::Status;
use dict_io::MemorySource;
use dict_value::{Bytes, ListOf};
use std::alloc::Global;
use std::test::Fail;

const ONCE: &[&str] = &["once", "d.sql", "1"];

/// What a run meets beside its words, after one child with two rows where it comes so far: the file and which readings
/// of it fail, the input and which reads of it fail, and the bytes that either output has room for.
#[derive(Clone, Copy)]
struct Meets {
    file: &'static [u8],
    failing_files: &'static [u64],
    input: &'static [u8],
    failing_reads: &'static [u64],
    room: u32,
    err_room: u32,
}

fn run(alloc: Global, words: &[&'static str], meets: &Meets) -> Result<Told, Fail> {
    let outside = Outside {
        shelf: shelf(alloc, meets.file, meets.failing_files)?,
        spawner: spawner(alloc, FIRST)?,
        clock: clock(alloc, &[])?,
    };
    let input = source(alloc, meets.input, meets.failing_reads)?;
    run_told(alloc, words, outside, input, meets.room, meets.err_room)
}

/// Words that aren't those of `once`.
static MISUSED: [&[&str]; 7] = [
    &[],
    &["once"],
    &["once", "d.sql"],
    &["once", "d.sql", "x"],
    &["once", "d.sql", "18446744073709551616"],
    &["once", "d.sql", "1", "1"],
    &["serve", "d.sql", "1"],
];

#[test]
fn other_words_are_told_the_usage(rt: HostRuntime) -> Result<(), Fail> {
    let alloc = rt.alloc();
    let meets = Meets {
        file: FLAT,
        failing_files: &[],
        input: b"quit\n",
        failing_reads: &[],
        room: 100,
        err_room: 100,
    };
    for (place, words) in MISUSED.iter().enumerate() {
        let told = run(alloc, words, &meets)?;
        assert_eq!(rt; told.status, Status::Usage, "at {place}");
        assert!(rt; told.out.is_empty(), "at {place}");
        let usage =
            b"usage: dictd once DEFS SEED | dictd serve DEFS ADDR WORKERS SEED | dictd demo N SEED\n";
        assert!(rt; told.err.as_slice() == usage.as_slice(), "at {place}");
    }
    Ok(())
}

/// Files without items that are served: the name and the text, which readings fail, and how that ends.
static FILES: [(&str, &[u8], &[u64], Status, &[u8]); 7] = [
    (
        "e.sql",
        FLAT,
        &[],
        Status::DefsUnread,
        b"cannot read definitions\n",
    ),
    (
        "d.sql",
        FLAT,
        &[0],
        Status::DefsUnread,
        b"cannot read definitions\n",
    ),
    (
        "d.sql",
        b"CREATE DICTIONARY d (id Float64)",
        &[],
        Status::DefsRefused {
            line: 1,
            place: 24,
            words: b"unsupported",
        },
        b"definitions line 1 byte 24: unsupported\n",
    ),
    (
        "d.sql",
        b"\nCREATE DICTIONARY d (id UInt64, x String) PRIMARY KEY id SOURCE(EXECUTABLE(command ' ' format TSV)) \
            LAYOUT(FLAT)",
        &[],
        Status::DefsRefused {
            line: 2,
            place: 1,
            words: b"command",
        },
        b"definitions line 2 byte 1: command\n",
    ),
    // Items that aren't served yet.
    (
        "d.sql",
        b"CREATE DICTIONARY d (id UInt64, x String) PRIMARY KEY id SOURCE(EXECUTABLE(command 'c' format TSV)) \
            LAYOUT(DIRECT)",
        &[],
        Status::DefsRefused {
            line: 1,
            place: 0,
            words: b"unsupported",
        },
        b"definitions line 1 byte 0: unsupported\n",
    ),
    (
        "d.sql",
        b"CREATE DICTIONARY d (id UInt64, x String) PRIMARY KEY id SOURCE(EXECUTABLE(command 'c' format TSV)) \
            LAYOUT(CACHE(SIZE_IN_CELLS 3))",
        &[],
        Status::DefsRefused {
            line: 1,
            place: 0,
            words: b"unsupported",
        },
        b"definitions line 1 byte 0: unsupported\n",
    ),
    (
        "d.sql",
        b"\nEXECUTABLE FUNCTION f(a UInt8) RETURNS String SOURCE(EXECUTABLE(command 'g' format TSV))",
        &[],
        Status::DefsRefused {
            line: 1,
            place: 0,
            words: b"unsupported",
        },
        b"definitions line 1 byte 0: unsupported\n",
    ),
];

#[test]
fn files_without_items_are_refused(rt: HostRuntime) -> Result<(), Fail> {
    let alloc = rt.alloc();
    for (place, (name, file, failing_files, want, err)) in FILES.iter().enumerate() {
        let meets = Meets {
            file,
            failing_files,
            input: b"dictGet\td\tx\t1\n",
            failing_reads: &[],
            room: 100,
            err_room: 100,
        };
        let told = run(alloc, &["once", name, "1"], &meets)?;
        assert_eq!(rt; told.status, *want, "at {place}");
        assert!(rt; told.out.is_empty(), "at {place}");
        assert!(rt; told.err.as_slice() == *err, "at {place}");
    }
    Ok(())
}

/// Ends of sessions: the requests, which reads fail, the room of either output, how that ends, and what was written.
static LINKS: [(&[u8], &[u64], u32, u32, Status, &[u8], &[u8]); 4] = [
    // A read fails behind the first request.
    (
        b"dictGet\td\tx\t1\ndictGet\td\tx\t2\n",
        &[1],
        100,
        100,
        Status::ReadFault,
        b"OK\tv1\ta\n",
        b"read failed\n",
    ),
    (
        b"dictGet\td\tx\t2\n",
        &[],
        5,
        100,
        Status::WriteFault,
        b"OK\tv1",
        b"write failed\n",
    ),
    // What can't be told ends as it is.
    (
        b"dictGet\td\tx\t2\n",
        &[],
        5,
        7,
        Status::WriteFault,
        b"OK\tv1",
        b"write f",
    ),
    (
        b"dictGet\td\tx\t2\n",
        &[],
        100,
        0,
        Status::Done,
        b"OK\tv1\tb\n",
        b"",
    ),
];

#[test]
fn sessions_end_with_their_status(rt: HostRuntime) -> Result<(), Fail> {
    let alloc = rt.alloc();
    for (place, (input, failing_reads, room, err_room, want, out, err)) in LINKS
        .iter()
        .enumerate()
    {
        let meets = Meets {
            file: FLAT,
            failing_files: &[],
            input,
            failing_reads,
            room: *room,
            err_room: *err_room,
        };
        let told = run(alloc, ONCE, &meets)?;
        assert_eq!(rt; told.status, *want, "at {place}");
        assert!(rt; told.out.as_slice() == *out, "at {place}");
        assert!(rt; told.err.as_slice() == *err, "at {place}");
    }
    Ok(())
}

/// The lines of 65,536 bytes and of one more.
#[test]
fn long_lines_have_their_own_status(rt: HostRuntime) -> Result<(), Fail> {
    let alloc = rt.alloc();
    let longest = Vec::from_elem(alloc, b'a', 65536)?;
    let mut input = Bytes::from_vec(longest);
    input.extend(b"\n")?;
    input.extend(Bytes::zeros(alloc, 65537)?.as_slice())?;
    let outside = Outside {
        shelf: shelf(alloc, FLAT, &[])?,
        spawner: spawner(alloc, FIRST)?,
        clock: clock(alloc, &[])?,
    };
    let input = MemorySource::new(input, ListOf::new(alloc), ListOf::new(alloc));
    let told = run_told(alloc, ONCE, outside, input, 100, 100)?;
    assert_eq!(rt; told.status, Status::LineTooLong);
    assert!(rt; told.out.as_slice() == b"ERR\t1\nERR\t13\n".as_slice());
    assert!(rt; told.err.as_slice() == b"line too long\n".as_slice());
    Ok(())
}

#[test]
fn a_long_definitions_file_is_refused(rt: HostRuntime) -> Result<(), Fail> {
    let alloc = rt.alloc();
    let long = Vec::from_elem(alloc, b' ', 4194305)?;
    let outside = Outside {
        shelf: shelf(alloc, long.as_slice(), &[])?,
        spawner: spawner(alloc, FIRST)?,
        clock: clock(alloc, &[])?,
    };
    let input = source(alloc, b"", &[])?;
    let told = run_told(alloc, ONCE, outside, input, 100, 100)?;
    assert_eq!(rt; told.status, Status::DefsTooLong);
    assert!(rt; told.out.is_empty());
    assert!(rt; told.err.as_slice() == b"definitions too long\n".as_slice());
    Ok(())
}
