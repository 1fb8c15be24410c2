// Small keys.
ghost use Rattle.std.specs.Prelude.{◌≤◌, length};
ghost use Rattle.dict_value.specs.declared.value.TheConstants.{MOST_ROWS};

use crate::{Flat, FlatFault};
use dict_value::{MOST_ROWS, Tally, Uncounted};
use std::alloc::Global;
use std::test::Fail;

/// The place of a key in a list, and the steps that it took.
fn found(alloc: Global, keys: &[u64], max: u32, key: u64) -> Result<(Option<u32>, u64), FlatFault>
    requires { length keys.now ≤ MOST_ROWS }
{
    let flat = Flat::<Tally>::build(alloc, keys, max)?;
    let mut steps = Tally::new();
    let place = flat.find(key, &mut steps);
    Ok((place, steps.steps()))
}

#[test]
fn first_places(rt: HostRuntime) {
    let keys = [7, 3, 7, 0, 3];
    for (key, want) in [
        (7, (Some(0), 1)),
        (3, (Some(1), 1)),
        (0, (Some(3), 1)),
        (4, (None, 1)),
        (8, (None, 0)),
        (u64::MAX, (None, 0)),
    ] {
        assert_eq!(rt; found(rt.alloc(), &keys, 8, key), Ok(want), "at {key}");
    }
    assert_eq!(rt; found(rt.alloc(), &[], 8, 0), Ok((None, 0)));
    assert_eq!(rt; found(rt.alloc(), &[5], 8, 5), Ok((Some(0), 1)));
}

#[test]
fn large_keys(rt: HostRuntime) {
    for (keys, max, want) in [
        ([7, 3, 9, 8], 8, Err(FlatFault::KeyTooLarge(9))),
        ([7, 3, 8, 9], 8, Err(FlatFault::KeyTooLarge(8))),
        ([7, 3, 9, 8], 10, Ok((Some(1), 1))),
        ([0, 3, u64::MAX, 8], 1, Err(FlatFault::KeyTooLarge(3))),
        (
            [0, 3, 4_294_967_296, 8],
            16_777_216,
            Err(FlatFault::KeyTooLarge(4_294_967_296)),
        ),
    ] {
        assert_eq!(rt; found(rt.alloc(), &keys, max, 3), want, "at {max}");
    }
}

/// Whether each of so many keys, in scattered order, is found at its place.
fn finds_each(alloc: Global, count: u32) -> Result<bool, Fail> {
    let mut keys = Vec::with_capacity(alloc, count as usize)?;
    for row in 0..count {
        keys.push(u64::from(row) * 4_194_301 % u64::from(count))?;
    }
    if keys.len() > MOST_ROWS {
        return Ok(false);
    }
    let Ok(flat) = Flat::<Uncounted>::build(alloc, keys.as_slice(), 4_194_304) else {
        return Ok(false);
    };
    for (row, key) in keys.iter().enumerate() {
        if flat.find(*key, &mut Uncounted) != Some(row as u32) {
            return Ok(false);
        }
    }
    Ok(flat.find(u64::from(count), &mut Uncounted).is_none())
}

#[test]
fn many_keys(rt: HostRuntime) -> Result<(), Fail> {
    assert!(rt; finds_each(rt.alloc(), 4_194_304)?);
    Ok(())
}
