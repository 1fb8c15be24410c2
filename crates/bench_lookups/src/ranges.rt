// Rows with ranges, and the points that are asked.
use crate::key_source::scattered;
use dict_value::{KeyList, ListOf, Value};
use range_layout::{End, Ends};
use std::alloc::Global;
use std::io;

/// Ten ranges of each key, or all ranges of one.
#[derive(Clone, Copy)]
pub enum Spread {
    Ten,
    One,
}

/// A key, and the point that is asked.
#[derive(Drop)]
pub struct Question {
    pub key: KeyList,
    pub point: i128,
}

/// How many keys so many rows have.
fn key_count(spread: Spread, count: u32) -> u64 {
    match spread {
        Spread::Ten => (u64::from(count) / 10).max(1),
        Spread::One => 1,
    }
}

fn key_of(alloc: Global, number: u64) -> io::Result<KeyList> {
    let mut values = Vec::with_capacity(alloc, 1)?;
    values.push(Value::U(scattered(number)))?;
    Ok(ListOf::from_vec(values))
}

/// The range of a row: the ten of a key begin about a hundred points from each other, and overlap; those of
/// one key begin and end anywhere.
fn range_of(spread: Spread, keys: u64, row: u32) -> Ends {
    let row = u64::from(row);
    let (start, width) = (scattered(row), scattered(row ^ (1 << 41)));
    let (low, width) = match spread {
        Spread::Ten => (row / keys.max(1) * 100 + start % 50, width % 200),
        Spread::One => (start % 1_000_000_000, width % 1_000_000_000),
    };
    Ends {
        low: End::At(i128::from(low)),
        high: End::At(i128::from(low) + i128::from(width)),
    }
}

/// The keys of rows, and their ranges.
pub fn rows(alloc: Global, spread: Spread, count: u32) -> io::Result<(Vec<KeyList>, Vec<Ends>)> {
    let keys = key_count(spread, count).max(1);
    let mut lists = Vec::with_capacity(alloc, count as usize)?;
    let mut ends = Vec::with_capacity(alloc, count as usize)?;
    for row in 0..count {
        lists.push(key_of(alloc, u64::from(row) % keys)?)?;
        ends.push(range_of(spread, keys, row))?;
    }
    Ok((lists, ends))
}

/// A key and a point, for a number that looks random.
pub fn asked_at(alloc: Global, spread: Spread, count: u32, number: u64) -> io::Result<Question> {
    let keys = key_count(spread, count).max(1);
    let most = match spread {
        Spread::Ten => 1_000,
        Spread::One => 2_000_000_000,
    };
    Ok(Question {
        key: key_of(alloc, number % keys)?,
        point: i128::from(scattered(number) % most),
    })
}
