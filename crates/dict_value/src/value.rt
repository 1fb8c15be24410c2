// Types, values, fields and rows, as plain data.
ghost use Rattle.std.specs.Prelude.{◌≡◌, ◌↔◌, IfOk, IsTrue, OnErr};
ghost use Rattle.dict_value.specs.Values.{IsStringValue};

use crate::bytes::Bytes;
use crate::fault::NoMemory;
use crate::list::ListOf;
use std::alloc::Global;

/// The type of a column, NULL aside.
#[derive(Clone, Copy, Debug, PartialEq, Eq)]
pub enum ColType {
    UInt8,
    UInt16,
    UInt32,
    UInt64,
    Int8,
    Int16,
    Int32,
    Int64,
    Str,
    Date,
    DateTime,
    Uuid,
    Ipv4,
    Ipv6,
    /// So many digits in all, and so many of them behind the point.
    Decimal(u8, u8),
}

/// The type of a column.
#[derive(Clone, Copy, Debug, PartialEq, Eq)]
pub struct AttrType {
    pub base: ColType,
    pub nullable: bool,
}

/// A value of a column.
#[derive(Debug, Drop)]
pub enum Value {
    Null,
    U(u64),
    I(i64),
    S(Bytes),
    /// The number of a day, from 1970-01-01.
    Day(u16),
    /// A second from the midnight UTC of 1970-01-01.
    Second(u32),
    Id(u128),
    V4(u32),
    V6(u128),
    /// A Decimal as the scaled whole number.
    Dec(i128),
}

/// Whether two values are one.
pub fn same_value(a: &Value, b: &Value) -> bool
    ensures { IsTrue result ↔ (a.now ≡ b.now) }
{
    match (a, b) {
        (Value::Null, Value::Null) => true,
        (Value::U(a), Value::U(b)) => a == b,
        (Value::I(a), Value::I(b)) => a == b,
        (Value::S(a), Value::S(b)) => a.is_same(b),
        (Value::Day(a), Value::Day(b)) => a == b,
        (Value::Second(a), Value::Second(b)) => a == b,
        (Value::Id(a), Value::Id(b)) => a == b,
        (Value::V4(a), Value::V4(b)) => a == b,
        (Value::V6(a), Value::V6(b)) => a == b,
        (Value::Dec(a), Value::Dec(b)) => a == b,
        _ => false,
    }
}

/// The same value once more; only a String that isn't empty takes memory.
pub fn copy_value(alloc: Global, value: &Value) -> Result<Value, NoMemory>
    ensures ok { IfOk result (λ copy. copy ≡ value.now) }
    ensures memory { OnErr result (IsStringValue value.now) }
{
    Ok(match value {
        Value::Null => Value::Null,
        Value::U(n) => Value::U(*n),
        Value::I(n) => Value::I(*n),
        Value::S(text) => Value::S(Bytes::of_text(alloc, text.as_slice())?),
        Value::Day(n) => Value::Day(*n),
        Value::Second(n) => Value::Second(*n),
        Value::Id(n) => Value::Id(*n),
        Value::V4(n) => Value::V4(*n),
        Value::V6(n) => Value::V6(*n),
        Value::Dec(n) => Value::Dec(*n),
    })
}

/// A field of a row's text.
#[derive(Debug, Drop)]
pub enum Field {
    Null,
    Text(Bytes),
}

/// The text form of rows: fields by tab with escapes, or by comma with quotes.
#[derive(Clone, Copy, Debug, PartialEq, Eq)]
pub enum Format {
    Tab,
    Csv,
}

/// Why a field is no value of its type.
#[derive(Clone, Copy, Debug, PartialEq, Eq)]
pub enum BadValue {
    NotANumber,
    OutOfRange,
    BadDate,
    BadUuid,
    BadAddress,
    BadDecimal,
    NullNotAllowed,
    NoMemory,
}

/// The first bits of addresses of one family; bits past the length are 0.
#[derive(Clone, Copy, Debug, PartialEq, Eq)]
pub struct Prefix {
    pub v6: bool,
    pub bits: u128,
    pub len: u8,
}

/// An address of either family.
#[derive(Clone, Copy, Debug, PartialEq, Eq)]
pub enum Address {
    V4(u32),
    V6(u128),
}

/// The greatest number of rows of a version.
pub const MOST_ROWS: usize = 4_194_304;

pub type Row = ListOf<Value>;

pub type KeyList = ListOf<Value>;

pub type Fields = ListOf<Field>;

/// A fetched row, or that there is none.
#[derive(Debug, Drop)]
pub enum MaybeRow {
    Absent,
    Present(Row),
}

/// What a fetch that began at a moment gave for a key.
#[derive(Debug, Drop)]
pub struct FetchedRow {
    pub moment: u64,
    pub row: MaybeRow,
}

pub type Fetched = ListOf<FetchedRow>;
