// A value whose text lies elsewhere.
ghost use Rattle.std.specs.Prelude.{◌≡◌, IfOk, OnErr};
ghost use Rattle.dict_value.specs.Values.{IsStringValue};
ghost use Rattle.dict_value.specs.declared.value.Value.TheVariants.{S};
ghost use Rattle.packed_rows.specs.Cells.{meaning};

use dict_value::{Bytes, NoMemory, Value};
use std::alloc::Global;

/// A value of a column, which owns no memory: the text of a String lies where it was found.
#[derive(Clone, Copy, Debug, PartialEq, Eq)]
pub enum Cell<'a> {
    Null,
    U(u64),
    I(i64),
    S(&'a [u8]),
    /// The number of a day, from 1970-01-01.
    Day(u16),
    /// A second from the midnight UTC of 1970-01-01.
    Second(u32),
    Id(u128),
    V4(u32),
    V6(u128),
    /// A Decimal as the scaled whole number.
    Dec(i128),
}

/// The cell that a value is.
#[inline]
pub fn cell_of(value: &Value) -> Cell<'_>
    ensures { meaning result ≡ value.now }
{
    match value {
        Value::Null => Cell::Null,
        Value::U(n) => Cell::U(*n),
        Value::I(z) => Cell::I(*z),
        Value::S(text) => Cell::S(text.as_slice()),
        Value::Day(n) => Cell::Day(*n),
        Value::Second(n) => Cell::Second(*n),
        Value::Id(n) => Cell::Id(*n),
        Value::V4(n) => Cell::V4(*n),
        Value::V6(n) => Cell::V6(*n),
        Value::Dec(z) => Cell::Dec(*z),
    }
}

/// The value that a cell is; only a String that isn't empty takes memory, for a copy of its text.
pub fn value_of(alloc: Global, cell: &Cell<'_>) -> Result<Value, NoMemory>
    ensures ok { IfOk result (λ value. value ≡ meaning cell.now) }
    ensures memory { OnErr result (IsStringValue (meaning cell.now)) }
{
    Ok(match *cell {
        Cell::Null => Value::Null,
        Cell::U(n) => Value::U(n),
        Cell::I(z) => Value::I(z),
        Cell::S(text) => Value::S(text_copy(alloc, text)?),
        Cell::Day(n) => Value::Day(n),
        Cell::Second(n) => Value::Second(n),
        Cell::Id(n) => Value::Id(n),
        Cell::V4(n) => Value::V4(n),
        Cell::V6(n) => Value::V6(n),
        Cell::Dec(z) => Value::Dec(z),
    })
}

/// A copy of a text; that of no bytes takes no memory.
fn text_copy(alloc: Global, text: &[u8]) -> Result<Bytes, NoMemory>
    ensures ok { IfOk result (λ b. b ≡ text.now) }
    ensures memory { OnErr result (IsStringValue (S text.now)) }
{
    let mut copy = Bytes::new(alloc);
    copy.extend(text)?;
    Ok(copy)
}
