use crate::shown::{LARGE_ROWS, fields_of, long_text, row_of, show};
use crate::{read_csv_row, write_csv_row};
use dict_value::Bytes;
use std::test::Fail;

#[test]
fn csv_rows(rt: HostRuntime) -> Result<(), Fail> {
    let cases: [(&[u8], &[u8]); 18] = [
        (b"a,bc", b"|a|bc"),
        (b"a, b,", b"|a| b|"),
        (b",", b"||"),
        (b"\\N", b"|\\N"),
        (b"\"a,b\",c", b"|a,b|c"),
        (b"\"a\"\"b\"", b"|a\"b"),
        (b"a\"b", b"|a\"b"),
        (b"\"a\nb\",c", b"|a\nb|c"),
        (b"\"\"", b"|"),
        (b"a,b\r", b"|a|b"),
        (b"a\rb", b"csv"),
        // Two records of another number of fields each.
        (b"a,b\rc", b"csv"),
        (b"a\nb", b"csv"),
        (b"", b"csv"),
        (b"\r", b"csv"),
        (b"\xEF\xBB\xBFa,b", b"|a|b"),
        (b"\xEF\xBB\xBF", b"csv"),
        (b"\xEFa", b"|\xEFa"),
    ];
    for (line, wanted) in cases {
        let mut out = Bytes::new(rt.alloc());
        show(read_csv_row(rt.alloc(), line), &mut out)?;
        assert_eq!(rt; out.as_slice(), wanted);
    }
    Ok(())
}

#[test]
fn written_csv_rows(rt: HostRuntime) -> Result<(), Fail> {
    let cases: [(&[Option<&[u8]>], &[u8]); 4] = [
        (&[Some(b""), None], b",\\N\n"),
        (&[Some(b"")], b"\"\"\n"),
        (
            &[Some(b"\x08\x0c\r\n\t\0'\\"), Some(b"N")],
            b"\"\x08\x0c\r\n\t\0'\\\",N\n",
        ),
        (&[Some(b"a,b\"c")], b"\"a,b\"\"c\"\n"),
    ];
    for (texts, wanted) in cases {
        let fields = fields_of(rt.alloc(), texts)?;
        assert!(rt; !fields.is_empty());
        let mut out = Bytes::new(rt.alloc());
        write_csv_row(rt.alloc(), fields.as_slice(), &mut out)?;
        assert_eq!(rt; out.as_slice(), wanted);
    }
    Ok(())
}

#[test]
fn large_csv_rows(rt: HostRuntime) -> Result<(), Fail> {
    for (bytes, count) in LARGE_ROWS {
        for byte in [b'x', b',', b'"'] {
            let text = long_text(rt.alloc(), byte, bytes)?;
            let fields = row_of(rt.alloc(), text.as_slice(), count)?;
            assert!(rt; !fields.is_empty());
            let mut written = Bytes::new(rt.alloc());
            write_csv_row(rt.alloc(), fields.as_slice(), &mut written)?;
            let line = written.as_slice();
            assert!(rt; 0 < line.len());
            let mut wanted = Bytes::new(rt.alloc());
            show(Ok(fields), &mut wanted)?;
            let mut out = Bytes::new(rt.alloc());
            show(read_csv_row(rt.alloc(), &line[..line.len() - 1]), &mut out)?;
            assert!(rt; out.is_same(&wanted));
        }
    }
    Ok(())
}
