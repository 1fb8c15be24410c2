ghost use Rattle.std.specs.Prelude.{◌<◌};

use crate::shown::show;
use crate::{Cut, CutRule, Cutter, is_blank_line, read_csv_row, read_fields, rows_of_pieces};
use dict_value::{Bytes, ListOf, NoMemory};
use std::alloc::Global;
use std::test::Fail;

/// The pieces of this size, and the rest of the text.
fn pieces_of(alloc: Global, text: &[u8], size: usize) -> Result<ListOf<Bytes>, NoMemory>
    requires { 0 < size }
{
    let mut pieces = ListOf::new(alloc);
    for piece in text.chunks(size) {
        pieces.push(Bytes::copy_of(alloc, piece)?)?;
    }
    Ok(pieces)
}

/// What each row is read as, blank ones left out.
fn show_rows(
    alloc: Global,
    rule: CutRule,
    rows: &[Bytes],
    out: &mut Bytes,
) -> Result<(), NoMemory> {
    for row in rows {
        let line = row.as_slice();
        if line.len() > 99 {
            return Err(NoMemory);
        }
        match rule {
            CutRule::Plain => out.extend(line)?,
            CutRule::Tab => show(read_fields(alloc, line), out)?,
            CutRule::Csv => {
                if !is_blank_line(line) {
                    show(read_csv_row(alloc, line), out)?;
                }
            }
        }
        out.push(b';')?;
    }
    Ok(())
}

#[test]
fn any_pieces(rt: HostRuntime) -> Result<(), Fail> {
    let cases: [(CutRule, &[u8], &[u8], &[u8]); 5] = [
        (CutRule::Plain, b"a\\\n\"b\n\nc", b"a\\;\"b;;", b"c"),
        (CutRule::Plain, b"a\n", b"a;", b""),
        (
            CutRule::Tab,
            b"a\\\nb\tc\nd\\\\\n\\x41\ne",
            b"|a\nb|c;|d\\;|A;",
            b"e",
        ),
        (CutRule::Tab, b"a\tb\\\n", b"", b"a\tb\\\n"),
        (
            CutRule::Csv,
            b"1,\"a\nb\"\"c\"\r\n\r\n2,z\n\"",
            b"|1|a\nb\"c;;|2|z;",
            b"\"",
        ),
    ];
    for (rule, text, wanted, rest) in cases {
        for size in 1..10 {
            let pieces = pieces_of(rt.alloc(), text, size)?;
            let found = rows_of_pieces(rt.alloc(), rule, pieces.as_slice())?;
            let mut out = Bytes::new(rt.alloc());
            show_rows(rt.alloc(), rule, found.rows.as_slice(), &mut out)?;
            assert_eq!(rt; out.as_slice(), wanted);
            assert_eq!(rt; found.rest.as_slice(), rest);
        }
    }
    Ok(())
}

#[test]
fn starts(rt: HostRuntime) {
    let mut cutter = Cutter::new(CutRule::Csv);
    assert!(rt; cutter.at_start());
    assert_eq!(rt; cutter.feed(b"\"a\n"), Cut::More);
    assert!(rt; !cutter.at_start());
    assert_eq!(rt; cutter.feed(b"\"\nb"), Cut::Row(2));
    assert!(rt; cutter.at_start());
}

#[test]
fn a_million_rows(rt: HostRuntime) -> Result<(), Fail> {
    let mut text = Bytes::new(rt.alloc());
    for _ in 0..1_000_000 {
        text.extend(b"a,b\n")?;
    }
    text.push(b'c')?;
    let pieces = pieces_of(rt.alloc(), text.as_slice(), 65_536)?;
    for rule in [CutRule::Plain, CutRule::Tab, CutRule::Csv] {
        let found = rows_of_pieces(rt.alloc(), rule, pieces.as_slice())?;
        assert_eq!(rt; found.rows.len(), 1_000_000);
        assert_eq!(rt; found.rest.as_slice(), b"c".as_slice());
    }
    Ok(())
}
