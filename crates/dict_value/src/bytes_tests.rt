// Lists that grow.
use crate::{Bytes, ListOf};
use std::test::Fail;

#[test]
fn bytes_grow(rt: HostRuntime) -> Result<(), Fail> {
    let mut bytes = Bytes::with_room(rt.alloc(), 4)?;
    bytes.push(7)?;
    bytes.extend(&[8, 9])?;
    let zeros = Bytes::zeros(rt.alloc(), 2)?;
    bytes.reserve(1_000_000)?;
    bytes.extend(zeros.as_slice())?;
    if bytes.len() == 5 {
        bytes.store(1, &[5]);
    }
    assert!(rt; bytes.as_slice() == [7, 5, 9, 0, 0].as_slice());
    Ok(())
}

#[test]
fn lists_grow(rt: HostRuntime) -> Result<(), Fail> {
    let mut numbers = ListOf::with_room(rt.alloc(), 1)?;
    for number in 0..1_000_000u64 {
        numbers.push(number)?;
    }
    assert_eq!(rt; numbers.len(), 1_000_000);
    assert_eq!(rt; numbers.pop_front(), Some(0));
    assert_eq!(rt; numbers.as_slice().first(), Some(&1));
    Ok(())
}
