use super::*;
use crate::outside::write_all;
use dict_value::ListOf;
use std::test::Fail;

/// What is read is written again; the second read fails, and takes nothing.
#[test]
fn links_are_read_and_written(rt: HostRuntime) -> Result<(), Fail> {
    let alloc = rt.alloc();
    let sizes = ListOf::from_vec(Vec::from_array(alloc, [3u32])?);
    let failing = ListOf::from_vec(Vec::from_array(alloc, [1u64])?);
    let input = MemorySource::new(Bytes::copy_of(alloc, b"abcdefgh")?, sizes, failing);
    let output = MemorySink::new(alloc, 8, ListOf::new(alloc))?;
    let mut link = MemoryLink::new(input, output);
    let mut buf = [0u8; 4];
    assert_eq!(rt; link.read(&mut buf), Got::Bytes(3));
    assert!(rt; write_link(&mut link, &buf[..3]).is_ok());
    assert_eq!(rt; link.read(&mut buf), Got::Failed);
    assert_eq!(rt; link.read(&mut buf), Got::Bytes(4));
    assert!(rt; write_link(&mut link, &buf).is_ok());
    assert_eq!(rt; link.read(&mut buf), Got::Bytes(1));
    assert!(rt; write_link(&mut link, &buf[..1]).is_ok());
    assert!(rt; link.written().as_slice() == b"abcdefgh".as_slice());
    assert!(rt; write_all(&mut link, b"i").is_err());
    Ok(())
}

/// A link of a lent source and a lent sink, whose second write fails.
#[test]
fn lent_sides_are_a_link(rt: HostRuntime) -> Result<(), Fail> {
    let alloc = rt.alloc();
    let mut input = MemorySource::new(
        Bytes::copy_of(alloc, b"abcdef")?,
        ListOf::new(alloc),
        ListOf::new(alloc),
    );
    let failing = ListOf::from_vec(Vec::from_array(alloc, [1u64])?);
    let mut output = MemorySink::new(alloc, 8, failing)?;
    {
        let mut link = Both::new(&mut input, &mut output);
        let mut buf = [0u8; 4];
        assert_eq!(rt; link.read(&mut buf), Got::Bytes(4));
        assert!(rt; write_link(&mut link, &buf).is_ok());
        assert!(rt; write_link(&mut link, b"ef").is_err());
        OpenGate.pass(0, 1);
    }
    assert!(rt; output.written().as_slice() == b"abcd".as_slice());
    Ok(())
}
