// Keys of 64 bits.
use crate::Hashed;
use dict_value::MOST_ROWS;
use std::alloc::Global;
use std::test::Fail;

#[test]
fn first_places(rt: HostRuntime) -> Result<(), Fail> {
    let keys = [7, u64::MAX, 7, 0, 1 << 32, u64::MAX];
    let table = Hashed::build(rt.alloc(), &keys)?;
    for (key, want) in [
        (7, Some(0)),
        (u64::MAX, Some(1)),
        (0, Some(3)),
        (1 << 32, Some(4)),
        (1, None),
        (u64::MAX - 1, None),
    ] {
        assert_eq!(rt; table.find(key), want, "at {key}");
        assert_eq!(rt; table.has(key), want.is_some(), "at {key}");
    }
    Ok(())
}

#[test]
fn few_keys(rt: HostRuntime) -> Result<(), Fail> {
    let empty = Hashed::build(rt.alloc(), &[])?;
    assert_eq!(rt; empty.find(0), None);
    assert!(rt; !empty.has(u64::MAX));
    let one = Hashed::build(rt.alloc(), &[u64::MAX])?;
    assert_eq!(rt; one.find(u64::MAX), Some(0));
    assert_eq!(rt; one.find(0), None);
    Ok(())
}

/// Families of keys that are alike in some bits.
#[derive(Clone, Copy)]
pub(crate) enum Family {
    Consecutive,
    EqualLowHalves,
    EqualHighHalves,
    MultiplesOfAPower,
    ReversedBits,
    Scattered,
}

/// A member of a family; two numbers below 2 ^ 24 give two members.
pub(crate) fn member(family: Family, number: u32) -> u64 {
    let number = u64::from(number);
    match family {
        Family::Consecutive => number,
        Family::EqualLowHalves => (number << 32) | 77,
        Family::EqualHighHalves => (77 << 32) | number,
        Family::MultiplesOfAPower => number << 40,
        Family::ReversedBits => number.reverse_bits(),
        Family::Scattered => number.wrapping_mul(0xd134_2543_de82_ef95),
    }
}

/// Whether each of so many members is found at its place, and as many others nowhere. The finds would
/// take hours if one scanned the rows.
fn finds_each(alloc: Global, family: Family, count: u32) -> Result<bool, Fail> {
    let mut keys = Vec::with_capacity(alloc, count as usize)?;
    for row in 0..count {
        keys.push(member(family, row))?;
    }
    if keys.len() > MOST_ROWS {
        return Ok(false);
    }
    let table = Hashed::build(alloc, keys.as_slice())?;
    for row in 0..count {
        let other = member(family, row.wrapping_add(count));
        if table.find(member(family, row)) != Some(row) || table.has(other) {
            return Ok(false);
        }
    }
    Ok(true)
}

/// The families that are chosen to collide.
pub(crate) static ALIKE: [Family; 5] = [
    Family::Consecutive,
    Family::EqualLowHalves,
    Family::EqualHighHalves,
    Family::MultiplesOfAPower,
    Family::ReversedBits,
];

#[test]
fn families(rt: HostRuntime) -> Result<(), Fail> {
    for family in &ALIKE {
        assert!(rt; finds_each(rt.alloc(), *family, 1_000_000)?);
    }
    Ok(())
}

#[test]
fn most_rows(rt: HostRuntime) -> Result<(), Fail> {
    assert!(rt; finds_each(rt.alloc(), Family::Scattered, 4_194_304)?);
    Ok(())
}
