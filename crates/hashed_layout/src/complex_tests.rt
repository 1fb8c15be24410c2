// Keys of several values.
use crate::Complex;
use crate::hashed_tests::{ALIKE, Family, member};
use dict_value::{Bytes, KeyList, ListOf, MOST_ROWS, Value};
use std::alloc::Global;
use std::test::Fail;

/// A value of a key, as a test writes it.
#[derive(Clone, Copy)]
enum Part {
    Null,
    Text(&'static str),
    Number(u64),
    Signed(i64),
    Wide(i128),
    Id(u128),
    Day(u16),
}

fn value_of(alloc: Global, part: Part) -> Result<Value, Fail> {
    Ok(match part {
        Part::Null => Value::Null,
        Part::Text(text) => Value::S(Bytes::copy_of(alloc, text.as_bytes())?),
        Part::Number(n) => Value::U(n),
        Part::Signed(z) => Value::I(z),
        Part::Wide(z) => Value::Dec(z),
        Part::Id(n) => Value::Id(n),
        Part::Day(n) => Value::Day(n),
    })
}

fn key_of(alloc: Global, parts: &[Part]) -> Result<KeyList, Fail> {
    let mut key = ListOf::new(alloc);
    for part in parts {
        key.push(value_of(alloc, *part)?)?;
    }
    Ok(key)
}

/// The keys of two parts.
static PAIRS: [[Part; 2]; 16] = [
    [Part::Text("ab"), Part::Text("c")],
    [Part::Text("a"), Part::Text("bc")],
    [Part::Text(""), Part::Text("abc")],
    [Part::Text("abc"), Part::Text("")],
    [Part::Text("abc"), Part::Null],
    [Part::Null, Part::Text("abc")],
    [Part::Null, Part::Null],
    [Part::Text(""), Part::Text("")],
    [Part::Number(5), Part::Text("a")],
    [Part::Signed(5), Part::Text("a")],
    [Part::Signed(-5), Part::Text("a")],
    [Part::Number(u64::MAX), Part::Text("a")],
    [Part::Wide(-1), Part::Day(0)],
    [Part::Wide(1), Part::Day(0)],
    [Part::Id(u128::MAX), Part::Day(65535)],
    [Part::Id(0), Part::Day(65535)],
];

#[test]
fn each_pair_is_its_own(rt: HostRuntime) -> Result<(), Fail> {
    let alloc = rt.alloc();
    let mut keys = Vec::new(alloc);
    for _ in 0..2 {
        for parts in &PAIRS {
            keys.push(key_of(alloc, parts)?)?;
        }
    }
    if keys.len() > MOST_ROWS {
        return Err("too many".into());
    }
    let table = Complex::build(alloc, keys.as_slice())?;
    for (place, parts) in PAIRS.iter().enumerate() {
        let key = key_of(alloc, parts)?;
        assert_eq!(rt; table.find(&key), Some(place as u32));
        assert!(rt; table.has(&key));
    }
    for parts in [
        [Part::Text("ab"), Part::Text("")],
        [Part::Text("c"), Part::Text("ab")],
        [Part::Number(6), Part::Text("a")],
        [Part::Null, Part::Text("")],
    ] {
        let key = key_of(alloc, &parts)?;
        assert_eq!(rt; table.find(&key), None);
        assert!(rt; !table.has(&key));
    }
    Ok(())
}

#[test]
fn few_keys(rt: HostRuntime) -> Result<(), Fail> {
    let alloc = rt.alloc();
    let empty = Complex::build(alloc, &[])?;
    let none = key_of(alloc, &[])?;
    let one = key_of(alloc, &[Part::Text("")])?;
    assert_eq!(rt; empty.find(&none), None);
    assert!(rt; !empty.has(&one));
    let table = Complex::build(alloc, &[key_of(alloc, &[Part::Text("")])?])?;
    assert_eq!(rt; table.find(&one), Some(0));
    assert_eq!(rt; table.find(&none), None);
    assert_eq!(rt; table.find(&key_of(alloc, &[Part::Null])?), None);
    Ok(())
}

/// A key of a text of ten digits and a number.
fn numbered(alloc: Global, number: u32) -> Result<KeyList, Fail> {
    let mut digits = [b'0'; 10];
    let mut rest = number;
    for digit in digits.iter_mut() {
        *digit = b'0' + (rest % 10) as u8;
        rest /= 10;
    }
    let mut key = ListOf::new(alloc);
    key.push(Value::S(Bytes::copy_of(alloc, &digits)?))?;
    key.push(Value::U(u64::from(number % 256)))?;
    Ok(key)
}

/// What keys are made of.
#[derive(Clone, Copy)]
enum Form {
    Digits,
    /// A member of a family, behind the same number in each key.
    Members(Family),
}

fn key_in(alloc: Global, form: Form, number: u32) -> Result<KeyList, Fail> {
    match form {
        Form::Digits => numbered(alloc, number),
        Form::Members(family) => key_of(
            alloc,
            &[Part::Number(77), Part::Number(member(family, number))],
        ),
    }
}

/// Whether each of so many keys is found at its place, and as many others nowhere. The finds would take
/// hours if one scanned the rows.
fn finds_each(alloc: Global, form: Form, count: u32) -> Result<bool, Fail> {
    let mut keys = Vec::with_capacity(alloc, count as usize)?;
    for row in 0..count {
        keys.push(key_in(alloc, form, row)?)?;
    }
    if keys.len() > MOST_ROWS {
        return Ok(false);
    }
    let table = Complex::build(alloc, keys.as_slice())?;
    for (row, key) in keys.iter().enumerate() {
        if table.find(key) != Some(row as u32) {
            return Ok(false);
        }
    }
    for row in 0..count {
        if table.has(&key_in(alloc, form, row.wrapping_add(count))?) {
            return Ok(false);
        }
    }
    Ok(true)
}

#[test]
fn many_keys(rt: HostRuntime) -> Result<(), Fail> {
    assert!(rt; finds_each(rt.alloc(), Form::Digits, 1_000_000)?);
    Ok(())
}

#[test]
fn families(rt: HostRuntime) -> Result<(), Fail> {
    for family in &ALIKE {
        assert!(rt; finds_each(rt.alloc(), Form::Members(*family), 1_000_000)?);
    }
    Ok(())
}
