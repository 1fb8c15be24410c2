// The texts of replies, by tables.
use crate::{Line, Mark, Reply, ReplyFault, StatusLine, write_reply};
use dict_value::{
    BadRow, BadValue, BlockFault, Bytes, CallFault, Cause, FetchFault, ListOf, NoMemory, Why,
};
use load_core::{LastCause, State};
use std::alloc::Global;
use std::test::Fail;

/// Refusals, and what follows ERR.
static REFUSALS: [(ReplyFault, &[u8]); 66] = [
    (ReplyFault::BadRequest, b"1"),
    (ReplyFault::UnknownDictionary, b"2"),
    (ReplyFault::UnknownAttribute, b"3"),
    (ReplyFault::BadKey(1), b"4\t1"),
    (ReplyFault::BadKey(4096), b"4\t4096"),
    (ReplyFault::NotLoaded, b"5"),
    (ReplyFault::WrongLayout, b"6"),
    (ReplyFault::Load(Cause::Start), b"7\t1 start"),
    (ReplyFault::Load(Cause::Read), b"7\t2 read"),
    (ReplyFault::Load(Cause::TimedOut), b"7\t3 timeout"),
    (ReplyFault::Load(Cause::Status(-1)), b"7\t4 status -1"),
    (
        ReplyFault::Load(Cause::Status(2147483647)),
        b"7\t4 status 2147483647",
    ),
    (ReplyFault::Load(Cause::Killed), b"7\t5 killed"),
    (
        ReplyFault::Load(Cause::Longer(4294967295)),
        b"7\t6 longer 4294967295",
    ),
    (ReplyFault::Load(Cause::Rows), b"7\t7 rows 4194304"),
    (
        ReplyFault::Load(Cause::Row(BadRow {
            line: 1,
            column: 20,
            why: Why::Escape(17),
        })),
        b"7\t8 row 1 20 escape 17",
    ),
    (
        ReplyFault::Load(Cause::Row(BadRow {
            line: 2,
            column: 21,
            why: Why::CarriageReturn,
        })),
        b"7\t8 row 2 21 cr",
    ),
    (
        ReplyFault::Load(Cause::Row(BadRow {
            line: 3,
            column: 22,
            why: Why::NotOneRecord,
        })),
        b"7\t8 row 3 22 csv",
    ),
    (
        ReplyFault::Load(Cause::Row(BadRow {
            line: 4,
            column: 23,
            why: Why::FieldCount(3),
        })),
        b"7\t8 row 4 23 fields 3",
    ),
    (
        ReplyFault::Load(Cause::Row(BadRow {
            line: 5,
            column: 24,
            why: Why::Value(BadValue::NotANumber),
        })),
        b"7\t8 row 5 24 number",
    ),
    (
        ReplyFault::Load(Cause::Row(BadRow {
            line: 6,
            column: 25,
            why: Why::Value(BadValue::OutOfRange),
        })),
        b"7\t8 row 6 25 range",
    ),
    (
        ReplyFault::Load(Cause::Row(BadRow {
            line: 7,
            column: 26,
            why: Why::Value(BadValue::BadDate),
        })),
        b"7\t8 row 7 26 date",
    ),
    (
        ReplyFault::Load(Cause::Row(BadRow {
            line: 8,
            column: 27,
            why: Why::Value(BadValue::BadUuid),
        })),
        b"7\t8 row 8 27 uuid",
    ),
    (
        ReplyFault::Load(Cause::Row(BadRow {
            line: 9,
            column: 28,
            why: Why::Value(BadValue::BadAddress),
        })),
        b"7\t8 row 9 28 address",
    ),
    (
        ReplyFault::Load(Cause::Row(BadRow {
            line: 10,
            column: 29,
            why: Why::Value(BadValue::BadDecimal),
        })),
        b"7\t8 row 10 29 decimal",
    ),
    (
        ReplyFault::Load(Cause::Row(BadRow {
            line: 11,
            column: 30,
            why: Why::Value(BadValue::NullNotAllowed),
        })),
        b"7\t8 row 11 30 null",
    ),
    (
        ReplyFault::Load(Cause::Row(BadRow {
            line: 12,
            column: 31,
            why: Why::Value(BadValue::NoMemory),
        })),
        b"7\t8 row 12 31 memory",
    ),
    (
        ReplyFault::Load(Cause::Key(18446744073709551615)),
        b"7\t9 key 18446744073709551615",
    ),
    (ReplyFault::Load(Cause::Prefix(12)), b"7\t10 prefix 12"),
    (ReplyFault::Load(Cause::Spent), b"7\t11 spent"),
    (ReplyFault::Load(Cause::NoMemory), b"99"),
    (ReplyFault::Fetch(FetchFault::Start), b"8\tstart"),
    (
        ReplyFault::Fetch(FetchFault::Block(BlockFault::Write)),
        b"8\twrite",
    ),
    (
        ReplyFault::Fetch(FetchFault::Block(BlockFault::Read)),
        b"8\tread",
    ),
    (
        ReplyFault::Fetch(FetchFault::Block(BlockFault::TimedOut)),
        b"8\ttimeout",
    ),
    (
        ReplyFault::Fetch(FetchFault::Block(BlockFault::Longer(9))),
        b"8\tlonger 9",
    ),
    (
        ReplyFault::Fetch(FetchFault::Block(BlockFault::Lacks { got: 3, wanted: 5 })),
        b"8\tlacks 3 5",
    ),
    (
        ReplyFault::Fetch(FetchFault::Block(BlockFault::Exceeds { extra: 7 })),
        b"8\texceeds 7",
    ),
    (ReplyFault::Fetch(FetchFault::Status(2)), b"8\tstatus 2"),
    (ReplyFault::Fetch(FetchFault::Killed), b"8\tkilled"),
    (
        ReplyFault::Fetch(FetchFault::Implicit { got: 3, wanted: 5 }),
        b"8\timplicit 3 5",
    ),
    (ReplyFault::Fetch(FetchFault::Strange(6)), b"8\tstrange 6"),
    (
        ReplyFault::Fetch(FetchFault::Text(BadRow {
            line: 2,
            column: 3,
            why: Why::Escape(0),
        })),
        b"8\trow 2 3 escape 0",
    ),
    (ReplyFault::Fetch(FetchFault::NoMemory), b"99"),
    (ReplyFault::Call(CallFault::Start), b"11\tstart"),
    (
        ReplyFault::Call(CallFault::Block(BlockFault::Write)),
        b"11\twrite",
    ),
    (
        ReplyFault::Call(CallFault::Block(BlockFault::Read)),
        b"11\tread",
    ),
    (
        ReplyFault::Call(CallFault::Block(BlockFault::TimedOut)),
        b"11\ttimeout",
    ),
    (
        ReplyFault::Call(CallFault::Block(BlockFault::Longer(9))),
        b"11\tlonger 9",
    ),
    (
        ReplyFault::Call(CallFault::Block(BlockFault::Lacks { got: 3, wanted: 5 })),
        b"11\tlacks 3 5",
    ),
    (
        ReplyFault::Call(CallFault::Block(BlockFault::Exceeds { extra: 7 })),
        b"11\texceeds 7",
    ),
    (ReplyFault::Call(CallFault::Status(2)), b"11\tstatus 2"),
    (ReplyFault::Call(CallFault::Killed), b"11\tkilled"),
    (
        ReplyFault::Call(CallFault::Text(BadRow {
            line: 2,
            column: 3,
            why: Why::Escape(0),
        })),
        b"11\trow 2 3 escape 0",
    ),
    (ReplyFault::Call(CallFault::NoMemory), b"99"),
    (ReplyFault::UnknownFunction, b"9"),
    (ReplyFault::BadArgument(0), b"10\t0"),
    (
        ReplyFault::Behind(18446744073709551615),
        b"12\t18446744073709551615",
    ),
    (ReplyFault::LineTooLong, b"13"),
    (ReplyFault::TooLarge, b"14"),
    (ReplyFault::ConfigUnread, b"15"),
    (
        ReplyFault::ConfigRefused {
            line: 3,
            place: 40,
            words: b"given twice",
        },
        b"16\tline 3 byte 40: given twice",
    ),
    (ReplyFault::ConfigNames(2), b"17\t2"),
    (ReplyFault::ConfigTooLong, b"18"),
    (ReplyFault::Shut, b"98"),
    (ReplyFault::NoMemory, b"99"),
];

/// States, and their names.
static STATES: [(State, LastCause, &[u8]); 7] = [
    (
        State::NotLoaded,
        LastCause::None,
        b"OK\tv1\tNOT_LOADED\t2\t3\t-\n",
    ),
    (State::Loaded, LastCause::None, b"OK\tv1\tLOADED\t2\t3\t-\n"),
    (State::Failed, LastCause::None, b"OK\tv1\tFAILED\t2\t3\t-\n"),
    (
        State::Loading,
        LastCause::None,
        b"OK\tv1\tLOADING\t2\t3\t-\n",
    ),
    (
        State::LoadedAndReloading,
        LastCause::None,
        b"OK\tv1\tLOADED_AND_RELOADING\t2\t3\t-\n",
    ),
    (
        State::FailedAndReloading,
        LastCause::None,
        b"OK\tv1\tFAILED_AND_RELOADING\t2\t3\t-\n",
    ),
    (
        State::Failed,
        LastCause::Of(Cause::NoMemory),
        b"OK\tv1\tFAILED\t2\t3\t99 memory\n",
    ),
];

/// Marks, and the replies of one value and of two.
static MARKS: [(Mark, &[u8], &[u8]); 3] = [
    (
        Mark::Version(7),
        b"OK\tv7\ta\\tb\n",
        b"OK\tv7\t2\na\\tb\n\n",
    ),
    (
        Mark::Moment(8),
        b"OK\tt8\ta\\tb\n",
        b"OK\tt8\t2\nt5\ta\\tb\nt6\t\n",
    ),
    (Mark::Function, b"OK\tf\ta\\tb\n", b"OK\tf\t2\na\\tb\n\n"),
];

/// The text of a reply behind another text.
fn written(alloc: Global, reply: &Reply) -> Result<Bytes, NoMemory> {
    let mut out = Bytes::copy_of(alloc, b"<")?;
    write_reply(reply, &mut out)?;
    Ok(out)
}

/// A text behind the same text.
fn behind(alloc: Global, before: &[u8], text: &[u8]) -> Result<Bytes, NoMemory> {
    let mut out = Bytes::copy_of(alloc, before)?;
    out.extend(text)?;
    Ok(out)
}

#[test]
fn refusals(rt: HostRuntime) -> Result<(), Fail> {
    for (row, (fault, fields)) in REFUSALS.iter().enumerate() {
        let mut wanted = behind(rt.alloc(), b"<ERR\t", fields)?;
        wanted.push(b'\n')?;
        let out = written(rt.alloc(), &Reply::Refused(*fault))?;
        assert_eq!(rt; out.as_slice(), wanted.as_slice(), "row {row}");
    }
    Ok(())
}

#[test]
fn states(rt: HostRuntime) -> Result<(), Fail> {
    for (row, (state, cause, text)) in STATES.iter().enumerate() {
        let status = StatusLine {
            number: 1,
            state: *state,
            oks: 2,
            fails: 3,
            cause: *cause,
        };
        let wanted = behind(rt.alloc(), b"<", text)?;
        let out = written(rt.alloc(), &Reply::Status(status))?;
        assert_eq!(rt; out.as_slice(), wanted.as_slice(), "row {row}");
    }
    Ok(())
}

/// The two values of a block.
fn two_lines(alloc: Global) -> Result<ListOf<Line>, NoMemory> {
    let mut lines = ListOf::new(alloc);
    let text = Bytes::copy_of(alloc, b"a\\tb")?;
    lines.push(Line { moment: 5, text })?;
    let text = Bytes::new(alloc);
    lines.push(Line { moment: 6, text })?;
    Ok(lines)
}

#[test]
fn values(rt: HostRuntime) -> Result<(), Fail> {
    for (row, (mark, one, many)) in MARKS.iter().enumerate() {
        let text = Bytes::copy_of(rt.alloc(), b"a\\tb")?;
        let out = written(rt.alloc(), &Reply::One { mark: *mark, text })?;
        let wanted = behind(rt.alloc(), b"<", one)?;
        assert_eq!(rt; out.as_slice(), wanted.as_slice(), "row {row}");
        let lines = two_lines(rt.alloc())?;
        let out = written(rt.alloc(), &Reply::Many { mark: *mark, lines })?;
        let wanted = behind(rt.alloc(), b"<", many)?;
        assert_eq!(rt; out.as_slice(), wanted.as_slice(), "row {row}");
    }
    Ok(())
}

#[test]
fn other_replies(rt: HostRuntime) -> Result<(), Fail> {
    let mut out = Bytes::new(rt.alloc());
    write_reply(&Reply::Number(18446744073709551615), &mut out)?;
    write_reply(
        &Reply::Shown(Bytes::copy_of(rt.alloc(), b"a\tb\n\\")?),
        &mut out,
    )?;
    write_reply(&Reply::Config(3, 2), &mut out)?;
    write_reply(&Reply::Bye, &mut out)?;
    let wanted = b"OK\tv18446744073709551615\nOK\tshow\ta\\tb\\n\\\\\nOK\tconfig\t3\t2\nOK\tbye\n";
    assert_eq!(rt; out.as_slice(), wanted.as_slice());
    Ok(())
}
