use crate::shown::{LARGE_ROWS, fields_of, long_text, row_of, show};
use crate::{read_fields, write_row, write_text};
use dict_value::Bytes;
use std::test::Fail;

#[test]
fn tab_rows(rt: HostRuntime) -> Result<(), Fail> {
    let cases: [(&[u8], &[u8]); 21] = [
        (b"a\tbc", b"|a|bc"),
        (b"", b"|"),
        (b"\t", b"||"),
        (b"\\b\\f\\r\\n\\t\\0", b"|\x08\x0c\r\n\t\0"),
        (b"\\a\\v\\'\\\\\\q", b"|\x07\x0b'\\q"),
        (b"\\x41\\x7e", b"|A~"),
        (b"\\x4", b"escape 0"),
        (b"a\\x4g", b"escape 1"),
        (b"a\tb\\", b"escape 3"),
        (b"\\x\t\\", b"escape 0"),
        (b"a\\\tb\tc", b"|a\tb|c"),
        (b"a\\\nb", b"|a\nb"),
        (b"\\N", b"|?"),
        (b"a\t\\N\tb", b"|a|?|b"),
        (b"\\Nx", b"|Nx"),
        (b"x\\N", b"|xN"),
        (b"a\\\r", b"|a\r"),
        (b"a\r", b"cr"),
        (b"a\\\\\r", b"cr"),
        (b"a\r\tb", b"|a\r|b"),
        (b"\\x4\r", b"escape 0"),
    ];
    for (line, wanted) in cases {
        let mut out = Bytes::new(rt.alloc());
        show(read_fields(rt.alloc(), line), &mut out)?;
        assert_eq!(rt; out.as_slice(), wanted);
    }
    Ok(())
}

#[test]
fn written_tab_rows(rt: HostRuntime) -> Result<(), Fail> {
    let cases: [(&[Option<&[u8]>], &[u8]); 4] = [
        (&[Some(b""), None], b"\t\\N\n"),
        (&[Some(b"")], b"\n"),
        (
            &[Some(b"\x08\x0c\r\n\t\0'\\"), Some(b"N")],
            b"\\b\\f\\r\\n\\t\\0\\'\\\\\tN\n",
        ),
        (&[Some(b"a,b\"c")], b"a,b\"c\n"),
    ];
    for (texts, wanted) in cases {
        let fields = fields_of(rt.alloc(), texts)?;
        assert!(rt; !fields.is_empty());
        let mut out = Bytes::new(rt.alloc());
        write_row(fields.as_slice(), &mut out)?;
        assert_eq!(rt; out.as_slice(), wanted);
    }
    let mut out = Bytes::copy_of(rt.alloc(), b"v")?;
    write_text(b"a\tb\\N", &mut out)?;
    assert_eq!(rt; out.as_slice(), b"va\\tb\\\\N".as_slice());
    Ok(())
}

#[test]
fn large_tab_rows(rt: HostRuntime) -> Result<(), Fail> {
    for (bytes, count) in LARGE_ROWS {
        for byte in [b'x', b'\t'] {
            let text = long_text(rt.alloc(), byte, bytes)?;
            let fields = row_of(rt.alloc(), text.as_slice(), count)?;
            assert!(rt; !fields.is_empty());
            let mut written = Bytes::new(rt.alloc());
            write_row(fields.as_slice(), &mut written)?;
            let mut field = Bytes::new(rt.alloc());
            write_text(text.as_slice(), &mut field)?;
            let line = written.as_slice();
            assert!(rt; line.starts_with(field.as_slice()));
            assert!(rt; 0 < line.len() && line.len() <= u32::MAX as usize);
            let mut wanted = Bytes::new(rt.alloc());
            show(Ok(fields), &mut wanted)?;
            let mut out = Bytes::new(rt.alloc());
            show(read_fields(rt.alloc(), &line[..line.len() - 1]), &mut out)?;
            assert!(rt; out.is_same(&wanted));
        }
    }
    Ok(())
}
