// What tests see of values.
use crate::value::{AttrType, BadValue, ColType, Field, Value};
use crate::{Bytes, read_value, write_value};
use std::alloc::Global;
use std::test::Fail;

/// A value, to be compared.
#[derive(Clone, Copy, Debug, PartialEq, Eq)]
pub enum Seen {
    Null,
    Str,
    U(u64),
    I(i64),
    Day(u16),
    Second(u32),
    Id(u128),
    V4(u32),
    V6(u128),
    Dec(i128),
}

pub fn seen_of(v: &Value) -> Seen {
    match v {
        Value::Null => Seen::Null,
        Value::S(_) => Seen::Str,
        Value::U(n) => Seen::U(*n),
        Value::I(z) => Seen::I(*z),
        Value::Day(n) => Seen::Day(*n),
        Value::Second(n) => Seen::Second(*n),
        Value::Id(n) => Seen::Id(*n),
        Value::V4(n) => Seen::V4(*n),
        Value::V6(n) => Seen::V6(*n),
        Value::Dec(z) => Seen::Dec(*z),
    }
}

/// The first text that isn't read and written as its row says, where there is one.
pub fn first_misread<'a>(
    alloc: Global,
    rows: &[(ColType, &'a str, Seen, &'a str)],
) -> Result<Option<&'a str>, Fail> {
    for (base, text, want, written) in rows {
        if !is_read(alloc, *base, text, *want, written)? {
            return Ok(Some(*text));
        }
    }
    Ok(None)
}

/// Whether a text is read as this, and this text appended for what was read.
fn is_read(
    alloc: Global,
    base: ColType,
    text: &str,
    want: Seen,
    written: &str,
) -> Result<bool, Fail> {
    let t = AttrType {
        base,
        nullable: false,
    };
    let field = Field::Text(Bytes::copy_of(alloc, text.as_bytes())?);
    let Ok(value) = read_value(alloc, &t, &field) else {
        return Ok(false);
    };
    let mut out = Bytes::copy_of(alloc, b">")?;
    if matches!(value, Value::Null) {
        return Ok(false);
    }
    write_value(&t, &value, &mut out)?;
    Ok(
        seen_of(&value) == want
            && matches!(out.as_slice(), [b'>', rest @ ..] if rest == written.as_bytes()),
    )
}

/// The first text that isn't refused as its row says, where there is one.
pub fn first_not_refused<'a>(
    alloc: Global,
    rows: &[(ColType, &'a str, BadValue)],
) -> Result<Option<&'a str>, Fail> {
    for (base, text, want) in rows {
        let t = AttrType {
            base: *base,
            nullable: false,
        };
        let field = Field::Text(Bytes::copy_of(alloc, text.as_bytes())?);
        if !matches!(read_value(alloc, &t, &field), Err(fault) if fault == *want) {
            return Ok(Some(*text));
        }
    }
    Ok(None)
}
