ghost use Rattle.std.specs.Prelude.{◌≡◌, false};

use super::*;
use dict_io::{MemorySource, Source};
use dict_value::{Bytes, ListOf};
use std::process::Abort;
use std::test::Fail;

/// Reads a source line by line, up to its end or a line that is too long.
fn check_lines<S: Source>(
    rt: &impl Abort,
    lines: &mut Lines,
    source: &mut S,
    want: &[(Next, &[u8])],
)
    requires { S.ended source.old ≡ false }
{
    for (next, line) in want {
        let met = lines.next(source);
        assert_eq!(rt; met, *next);
        match met {
            Next::Whole => assert!(rt; lines.line() == *line),
            Next::Last => {
                assert!(rt; lines.line() == *line);
                return;
            }
            Next::End => return,
            Next::TooLong | Next::Failed => {}
        }
    }
}

#[test]
fn lines_end_at_their_feeds(rt: HostRuntime) -> Result<(), Fail> {
    let alloc = rt.alloc();
    let sizes = ListOf::from_vec(Vec::from_array(alloc, [1u32, 3, 1, 1])?);
    let failing = ListOf::from_vec(Vec::from_array(alloc, [2u64])?);
    let mut source = MemorySource::new(Bytes::copy_of(alloc, b"ab\n\ncd\ne")?, sizes, failing);
    let mut lines = Lines::new(alloc)?;
    let want: [(Next, &[u8]); 5] = [
        (Next::Whole, b"ab"),
        (Next::Whole, b""),
        (Next::Failed, b""),
        (Next::Whole, b"cd"),
        (Next::Last, b"e"),
    ];
    check_lines(&rt, &mut lines, &mut source, &want);
    Ok(())
}

/// The longest line, and behind it one byte more than a line may have.
#[test]
fn lines_have_a_limit(rt: HostRuntime) -> Result<(), Fail> {
    let alloc = rt.alloc();
    let longest = Bytes::zeros(alloc, 65_536)?;
    let mut text = Bytes::copy_of(alloc, longest.as_slice())?;
    text.push(LINE_FEED)?;
    text.extend(longest.as_slice())?;
    text.push(0)?;
    text.push(LINE_FEED)?;
    let mut source = MemorySource::new(text, ListOf::new(alloc), ListOf::new(alloc));
    let mut lines = Lines::new(alloc)?;
    let want: [(Next, &[u8]); 3] = [
        (Next::Whole, longest.as_slice()),
        (Next::TooLong, b""),
        (Next::TooLong, b""),
    ];
    check_lines(&rt, &mut lines, &mut source, &want);
    Ok(())
}

#[test]
fn an_empty_source_has_no_line(rt: HostRuntime) -> Result<(), Fail> {
    let alloc = rt.alloc();
    let mut lines = Lines::new(alloc)?;
    for (text, want) in [(b"".as_slice(), Next::End), (b"\n", Next::Whole)] {
        let text = Bytes::copy_of(alloc, text)?;
        let mut source = MemorySource::new(text, ListOf::new(alloc), ListOf::new(alloc));
        check_lines(
            &rt,
            &mut lines,
            &mut source,
            &[(want, b""), (Next::End, b"")],
        );
    }
    Ok(())
}
