// The texts of causes, appended; after `NoMemory` a front may stand behind what was there.
ghost use Rattle.std.specs.Prelude.{◌≡◌, ◌++◌, codes, decimal, length, take, OnErr, OnOk};
ghost use Rattle.wire_text.specs.Causes.{block_cause, call_cause, fetch_cause, load_cause, row_cause, value_cause};
ghost use Rattle.wire_text.specs.Causes.{call_lacks_memory, fetch_lacks_memory, load_lacks_memory, why_cause};

use crate::pieces::{push_numbered, push_pair};
use dict_value::{
    BadRow, BadValue, BlockFault, Bytes, CallFault, Cause, FetchFault, NoMemory, Why,
};

/// The word for a field that is no value of its column.
fn value_word(bad: BadValue) -> &'static [u8]
    ensures { result.now ≡ value_cause bad }
{
    match bad {
        BadValue::NotANumber => b"number",
        BadValue::OutOfRange => b"range",
        BadValue::BadDate => b"date",
        BadValue::BadUuid => b"uuid",
        BadValue::BadAddress => b"address",
        BadValue::BadDecimal => b"decimal",
        BadValue::NullNotAllowed => b"null",
        BadValue::NoMemory => b"memory",
    }
}

/// Appends why a row has no reading.
fn push_why(out: &mut Bytes, why: Why) -> Result<(), NoMemory>
    ensures ok { OnOk result (out.new ≡ out.old ++ why_cause why) }
    ensures err { OnErr result (take (length out.old) out.new ≡ out.old) }
{
    match why {
        Why::Escape(place) => push_numbered(out, b"escape ", place),
        Why::CarriageReturn => out.extend(b"cr"),
        Why::NotOneRecord => out.extend(b"csv"),
        Why::FieldCount(count) => push_numbered(out, b"fields ", count),
        Why::Value(bad) => out.extend(value_word(bad)),
    }
}

/// Appends which row has no reading, and why.
fn push_row(out: &mut Bytes, bad: BadRow) -> Result<(), NoMemory>
    ensures ok { OnOk result (out.new ≡ out.old ++ row_cause bad) }
    ensures err { OnErr result (take (length out.old) out.new ≡ out.old) }
{
    push_pair(out, b"row ", bad.line, bad.column)?;
    out.push(b' ')?;
    push_why(out, bad.why)
}

/// Appends why a load ended without a version.
pub(crate) fn push_load(out: &mut Bytes, cause: Cause) -> Result<(), NoMemory>
    ensures ok { OnOk result (out.new ≡ out.old ++ load_cause cause) }
    ensures err { OnErr result (take (length out.old) out.new ≡ out.old) }
{
    match cause {
        Cause::Start => out.extend(b"1 start"),
        Cause::Read => out.extend(b"2 read"),
        Cause::TimedOut => out.extend(b"3 timeout"),
        Cause::Status(status) => push_numbered(out, b"4 status ", status),
        Cause::Killed => out.extend(b"5 killed"),
        Cause::Longer(limit) => push_numbered(out, b"6 longer ", limit),
        Cause::Rows => out.extend(b"7 rows 4194304"),
        Cause::Row(bad) => {
            out.extend(b"8 ")?;
            push_row(out, bad)
        }
        Cause::Key(key) => push_numbered(out, b"9 key ", key),
        Cause::Prefix(row) => push_numbered(out, b"10 prefix ", row),
        Cause::Spent => out.extend(b"11 spent"),
        Cause::NoMemory => out.extend(b"99 memory"),
    }
}

/// Appends why a block of rows got no reply.
fn push_block(out: &mut Bytes, fault: BlockFault) -> Result<(), NoMemory>
    ensures ok { OnOk result (out.new ≡ out.old ++ block_cause fault) }
    ensures err { OnErr result (take (length out.old) out.new ≡ out.old) }
{
    match fault {
        BlockFault::Write => out.extend(b"write"),
        BlockFault::Read => out.extend(b"read"),
        BlockFault::TimedOut => out.extend(b"timeout"),
        BlockFault::Longer(limit) => push_numbered(out, b"longer ", limit),
        BlockFault::Lacks { got, wanted } => push_pair(out, b"lacks ", got, wanted),
        BlockFault::Exceeds { extra } => push_numbered(out, b"exceeds ", extra),
    }
}

/// Appends why a fetch by key failed.
pub(crate) fn push_fetch(out: &mut Bytes, fault: FetchFault) -> Result<(), NoMemory>
    ensures ok { OnOk result (out.new ≡ out.old ++ fetch_cause fault) }
    ensures err { OnErr result (take (length out.old) out.new ≡ out.old) }
{
    match fault {
        FetchFault::Start => out.extend(b"start"),
        FetchFault::Block(fault) => push_block(out, fault),
        FetchFault::Status(status) => push_numbered(out, b"status ", status),
        FetchFault::Killed => out.extend(b"killed"),
        FetchFault::Implicit { got, wanted } => push_pair(out, b"implicit ", got, wanted),
        FetchFault::Text(bad) => push_row(out, bad),
        FetchFault::Strange(row) => push_numbered(out, b"strange ", row),
        FetchFault::NoMemory => out.extend(b"memory"),
    }
}

/// Appends why a call of a function failed.
pub(crate) fn push_call(out: &mut Bytes, fault: CallFault) -> Result<(), NoMemory>
    ensures ok { OnOk result (out.new ≡ out.old ++ call_cause fault) }
    ensures err { OnErr result (take (length out.old) out.new ≡ out.old) }
{
    match fault {
        CallFault::Start => out.extend(b"start"),
        CallFault::Block(fault) => push_block(out, fault),
        CallFault::Status(status) => push_numbered(out, b"status ", status),
        CallFault::Killed => out.extend(b"killed"),
        CallFault::Text(bad) => push_row(out, bad),
        CallFault::NoMemory => out.extend(b"memory"),
    }
}

/// Whether it ended because memory ran out.
pub(crate) fn load_lacks_memory(cause: Cause) -> bool
    ensures { result ≡ load_lacks_memory cause }
{
    matches!(cause, Cause::NoMemory)
}

/// Whether it ended because memory ran out.
pub(crate) fn fetch_lacks_memory(cause: FetchFault) -> bool
    ensures { result ≡ fetch_lacks_memory cause }
{
    matches!(cause, FetchFault::NoMemory)
}

/// Whether it ended because memory ran out.
pub(crate) fn call_lacks_memory(cause: CallFault) -> bool
    ensures { result ≡ call_lacks_memory cause }
{
    matches!(cause, CallFault::NoMemory)
}
