// The plain faults that several layers pass on.
use crate::value::BadValue;

/// No memory was found.
#[derive(Clone, Copy, Debug, PartialEq, Eq)]
pub struct NoMemory;

/// Why a line isn't a row of fields.
#[derive(Clone, Copy, Debug, PartialEq, Eq)]
pub enum LineFault {
    /// The escape at this byte of the line, from 0, has no reading.
    BadEscape(u32),
    CarriageReturn,
    NotOneRecord,
    NoMemory,
}

/// Why a row has no reading.
#[derive(Clone, Copy, Debug, PartialEq, Eq)]
pub enum Why {
    Escape(u32),
    CarriageReturn,
    NotOneRecord,
    /// The row has this many fields.
    FieldCount(u32),
    Value(BadValue),
}

/// A row without a reading; line and column count from 1, and column 0 is the row as a whole.
#[derive(Clone, Copy, Debug, PartialEq, Eq)]
pub struct BadRow {
    pub line: u32,
    pub column: u32,
    pub why: Why,
}

/// How a child ended.
#[derive(Clone, Copy, Debug, PartialEq, Eq)]
pub enum Exit {
    Code(i32),
    Killed,
}

/// Why a load ended without a version.
#[derive(Clone, Copy, Debug, PartialEq, Eq)]
pub enum Cause {
    Start,
    Read,
    TimedOut,
    Status(i32),
    Killed,
    /// More than this many bytes were read.
    Longer(u32),
    Rows,
    Row(BadRow),
    Key(u64),
    Prefix(u32),
    Spent,
    NoMemory,
}

/// Why a block of rows got no reply.
#[derive(Clone, Copy, Debug, PartialEq, Eq)]
pub enum BlockFault {
    Write,
    Read,
    TimedOut,
    Longer(u32),
    Lacks { got: u32, wanted: u32 },
    Exceeds { extra: u32 },
}

/// Why a fetch by key failed.
#[derive(Clone, Copy, Debug, PartialEq, Eq)]
pub enum FetchFault {
    Start,
    Block(BlockFault),
    Status(i32),
    Killed,
    Implicit { got: u32, wanted: u32 },
    Text(BadRow),
    Strange(u32),
    NoMemory,
}

/// Why a call of a function failed.
#[derive(Clone, Copy, Debug, PartialEq, Eq)]
pub enum CallFault {
    Start,
    Block(BlockFault),
    Status(i32),
    Killed,
    Text(BadRow),
    NoMemory,
}
