use super::*;
use std::test::Fail;

#[test]
fn shelves_read_whole_files(rt: HostRuntime) -> Result<(), Fail> {
    let alloc = rt.alloc();
    let mut files = ListOf::new(alloc);
    for text in [b"first".as_slice(), b"second".as_slice()] {
        files.push(NamedFile {
            name: Bytes::copy_of(alloc, b"defs")?,
            text: Bytes::copy_of(alloc, text)?,
        })?;
    }
    let failing = ListOf::from_vec(Vec::from_array(alloc, [2u64])?);
    let mut shelf = MemoryShelf::new(alloc, files, failing);
    let read = shelf.read_file("defs", 5)?;
    assert!(rt; read.as_slice() == b"first".as_slice());
    for (name, limit, fault) in [
        ("defs", 4, ShelfFault::TooLong),
        ("defs", 5, ShelfFault::Failed),
        ("other", 5, ShelfFault::Failed),
    ] {
        assert_eq!(rt; shelf.read_file(name, limit).err(), Some(fault));
    }
    Ok(())
}

/// A file of 16 MiB at its limit.
#[test]
fn long_files_are_read(rt: HostRuntime) -> Result<(), Fail> {
    let alloc = rt.alloc();
    let mut files = ListOf::new(alloc);
    files.push(NamedFile {
        name: Bytes::copy_of(alloc, b"defs")?,
        text: Bytes::zeros(alloc, 16_777_216)?,
    })?;
    let mut shelf = MemoryShelf::new(alloc, files, ListOf::new(alloc));
    let read = shelf.read_file("defs", 16_777_216)?;
    assert_eq!(rt; read.len(), 16_777_216);
    Ok(())
}
