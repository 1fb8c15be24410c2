ghost use Rattle.std.specs.Prelude.{◌≡◌, false};

use super::*;
use crate::outside::write_all;
use std::process::Abort;
use std::test::Fail;

/// Reads a source to its end.
fn check_reads<S: Source>(rt: &impl Abort, source: &mut S, want: &[(Got, &[u8])])
    requires { S.ended source.old ≡ false }
{
    for (got, bytes) in want {
        let mut buf = [0u8; 4];
        let read = source.read(&mut buf);
        assert_eq!(rt; read, *got);
        assert!(rt; buf.starts_with(bytes));
        if let Got::End = read {
            return;
        }
    }
}

#[test]
fn sources_give_their_pieces(rt: HostRuntime) -> Result<(), Fail> {
    let alloc = rt.alloc();
    let sizes = ListOf::from_vec(Vec::from_array(alloc, [2u32, 9, 0, 1])?);
    let failing = ListOf::from_vec(Vec::from_array(alloc, [1u64])?);
    let mut source = MemorySource::new(Bytes::copy_of(alloc, b"abcdefgh")?, sizes, failing);
    let want: [(Got, &[u8]); 6] = [
        (Got::Bytes(2), b"ab"),
        (Got::Failed, b""),
        (Got::Bytes(4), b"cdef"),
        (Got::Bytes(1), b"g"),
        (Got::Bytes(1), b"h"),
        (Got::End, b""),
    ];
    check_reads(&rt, &mut source, &want);
    Ok(())
}

#[test]
fn sinks_take_what_fits(rt: HostRuntime) -> Result<(), Fail> {
    let alloc = rt.alloc();
    let failing = ListOf::from_vec(Vec::from_array(alloc, [1u64])?);
    let mut sink = MemorySink::new(alloc, 5, failing)?;
    let writes: [(&[u8], Put); 4] = [
        (b"abc", Put::Bytes(3)),
        (b"def", Put::Failed),
        (b"ghi", Put::Bytes(2)),
        (b"jkl", Put::Failed),
    ];
    for (piece, put) in &writes {
        assert_eq!(rt; sink.write(piece), *put);
    }
    assert!(rt; sink.written().as_slice() == b"abcgh".as_slice());
    Ok(())
}

/// An output of 16 MiB, which is written whole or fails at the end of its room.
#[test]
fn long_outputs_are_written(rt: HostRuntime) -> Result<(), Fail> {
    let alloc = rt.alloc();
    let text = Bytes::zeros(alloc, 16_777_216)?;
    let mut sink = MemorySink::new(alloc, 16_777_216, ListOf::new(alloc))?;
    assert_eq!(rt; write_all(&mut sink, text.as_slice()), Ok(()));
    assert!(rt; sink.written().as_slice() == text.as_slice());
    assert_eq!(rt; sink.write(b"a"), Put::Failed);
    Ok(())
}

#[test]
fn clocks_give_moments(rt: HostRuntime) -> Result<(), Fail> {
    let moments = Vec::from_array(rt.alloc(), [5u64, u64::MAX, 7])?;
    let mut clock = MemoryClock::new(ListOf::from_vec(moments));
    for want in [5, LAST_MOMENT, 7, 7] {
        assert_eq!(rt; clock.now(), want);
    }
    Ok(())
}
