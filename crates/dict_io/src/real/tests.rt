use super::*;
use crate::outside::write_all;
use std::cell::Cell;
use std::io;
use std::test::Fail;
use std::time::Duration;

#[test]
fn readers_are_read_to_their_end(rt: HostRuntime) -> Result<(), Fail> {
    let mut source = StdSource::new(b"abcde".as_slice());
    let mut buf = [0u8; 4];
    assert_eq!(rt; source.read(&mut buf), Got::Bytes(4));
    assert!(rt; buf == *b"abcd");
    assert_eq!(rt; source.read(&mut buf), Got::Bytes(1));
    assert_eq!(rt; buf[0], b'e');
    assert_eq!(rt; source.read(&mut buf), Got::End);
    Ok(())
}

/// A folder can be opened and not read.
#[test]
fn a_folder_is_no_input(rt: HostRuntime) -> Result<(), Fail> {
    let mut source = StdSource::new(fs::open(&rt, ".")?);
    assert_eq!(rt; source.read(&mut [0u8; 4]), Got::Failed);
    Ok(())
}

#[test]
fn writers_take_what_fits(rt: HostRuntime) -> Result<(), Fail> {
    let mut whole = StdSink::new(Vec::new(rt.alloc()));
    assert_eq!(rt; write_all(&mut whole, b"abc"), Ok(()));
    let mut full = [0u8; 2];
    assert_eq!(rt;
        write_all(&mut StdSink::new(full.as_mut_slice()), b"abc"),
        Err(Failed)
    );
    Ok(())
}

/// Nobody reads what goes into a closed pipe.
#[test]
fn a_closed_pipe_takes_nothing(rt: HostRuntime) -> Result<(), Fail> {
    let (reader, writer) = io::pipe(&rt)?;
    drop(reader);
    assert_eq!(rt; StdSink::new(writer).write(b"abc"), Put::Failed);
    Ok(())
}

#[test]
fn files_are_read_within_their_limit(rt: HostRuntime) -> Result<(), Fail> {
    let name = "dict_io_test_file";
    fs::write(&rt, name, "first")?;
    let mut shelf = FileShelf::new(&rt, rt.alloc());
    let read = shelf.read_file(name, 5)?;
    assert!(rt; read.as_slice() == b"first".as_slice());
    for (path, limit, fault) in [
        (name, 4, ShelfFault::TooLong),
        ("dict_io_no_such_file", 5, ShelfFault::Failed),
        (".", 5, ShelfFault::Failed),
    ] {
        assert_eq!(rt; shelf.read_file(path, limit).err(), Some(fault));
    }
    fs::remove_file(&rt, name)?;
    Ok(())
}

/// A file of 16 MiB at its limit.
#[test]
fn long_files_are_read(rt: HostRuntime) -> Result<(), Fail> {
    let name = "dict_io_test_long_file";
    let text = Bytes::zeros(rt.alloc(), 16_777_216)?;
    fs::write(&rt, name, text.as_slice())?;
    let mut shelf = FileShelf::new(&rt, rt.alloc());
    let read = shelf.read_file(name, 16_777_216)?;
    assert!(rt; read.as_slice() == text.as_slice());
    fs::remove_file(&rt, name)?;
    Ok(())
}

/// A clock that can be read once.
#[derive(Drop)]
struct OneReading {
    left: Cell<bool>,
}

impl rt::Clock for OneReading {
    fn monotonic(&self) -> io::Result<Duration> {
        Err(io::Error::from(ErrorKind::Unsupported))
    }

    fn since_1970(&self) -> io::Result<Duration> {
        if self.left.replace(false) {
            Ok(Duration::from_secs(5))
        } else {
            Err(io::Error::from(ErrorKind::Other))
        }
    }
}

#[test]
fn clocks_give_moments(rt: HostRuntime) -> Result<(), Fail> {
    let now = SystemClock::new(&rt).now();
    assert!(rt; now > 1_700_000_000 && now <= LAST_MOMENT);
    let once = OneReading {
        left: Cell::new(true),
    };
    let mut clock = SystemClock::new(&once);
    for faults in [0, 1, 2] {
        assert_eq!(rt; clock.now(), 5);
        assert_eq!(rt; clock.faults, faults);
    }
    Ok(())
}
