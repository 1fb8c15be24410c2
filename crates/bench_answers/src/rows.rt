// The cells of rows, and the keys that find them.
use crate::kinds::Kind;
use dict_value::{Bytes, ListOf, NoMemory, Row, Value};
use std::alloc::{AllocError, Global};

/// 64 bits that look random, another list for each number.
pub fn scattered(number: u64) -> u64 {
    let a = number.wrapping_add(1).wrapping_mul(0x9e37_79b9_7f4a_7c15);
    let b = (a ^ (a >> 30)).wrapping_mul(0xbf58_476d_1ce4_e5b9);
    let c = (b ^ (b >> 27)).wrapping_mul(0x94d0_49bb_1331_11eb);
    c ^ (c >> 31)
}

/// A number with ten digits for each row.
fn value(row: u32) -> u64 {
    1_000_000_000 + u64::from(row)
}

/// The key of a row whose key is a number; a range has each key ten times.
fn number(kind: Kind, row: u32) -> u64 {
    match kind {
        Kind::Flat => u64::from(row),
        Kind::Range => scattered(u64::from(row / 10)),
        _ => scattered(u64::from(row)),
    }
}

/// Where a row's range begins: the ten of a key begin about a hundred points from each other, and overlap.
fn start(row: u32) -> u32 {
    row % 10 * 100 + (scattered(u64::from(row)) % 50) as u32
}

/// The small number of a key of two values.
fn small(row: u32) -> u64 {
    scattered(u64::from(row)) % 256
}

/// The text that was formatted, where there was memory for it.
fn bytes_of(text: Result<String, AllocError>) -> Result<Bytes, NoMemory> {
    match text {
        Ok(text) => Ok(Bytes::from_vec(text.into_bytes())),
        Err(_) => Err(NoMemory),
    }
}

/// The text of a row: ten letters of its own, a prefix of 8 to 24 bits, or the ten digits of its value.
fn text(alloc: Global, kind: Kind, row: u32) -> Result<Bytes, NoMemory> {
    let drawn = scattered(u64::from(row));
    bytes_of(match kind {
        Kind::Complex => format!(in alloc; "{:010x}", drawn >> 24),
        Kind::Ip => {
            let [a, b, c, d, ..] = drawn.to_be_bytes();
            let len = 8 + drawn % 17;
            format!(in alloc; "{a}.{b}.{c}.{d}/{len}")
        }
        _ => format!(in alloc; "{}", value(row)),
    })
}

/// The row of a number.
pub fn row_of(alloc: Global, kind: Kind, row: u32) -> Result<Row, NoMemory> {
    let mut values = ListOf::with_room(alloc, 4)?;
    match kind {
        Kind::Complex | Kind::Ip => values.push(Value::S(text(alloc, kind, row)?))?,
        _ => values.push(Value::U(number(kind, row)))?,
    }
    match kind {
        Kind::Complex => values.push(Value::U(small(row)))?,
        Kind::Range => {
            values.push(Value::U(u64::from(start(row))))?;
            values.push(Value::U(u64::from(start(row)) + 150))?;
        }
        _ => {}
    }
    match kind {
        Kind::Texts => values.push(Value::S(text(alloc, kind, row)?))?,
        _ => values.push(Value::U(value(row)))?,
    }
    Ok(values)
}

/// The line of a key that finds this row, or, by address, one that is at least as near.
pub fn key_line(alloc: Global, kind: Kind, row: u32) -> Result<Bytes, NoMemory> {
    let drawn = scattered(u64::from(row));
    bytes_of(match kind {
        Kind::Complex => format!(in alloc; "{:010x}\t{}", drawn >> 24, small(row)),
        Kind::Range => format!(in alloc; "{}\t{}", number(kind, row), start(row)),
        Kind::Ip => {
            let [a, b, c, d, ..] = drawn.to_be_bytes();
            format!(in alloc; "{a}.{b}.{c}.{d}")
        }
        _ => format!(in alloc; "{}", number(kind, row)),
    })
}
