ghost use Rattle.std.specs.Prelude.{IfOk};
ghost use Rattle.dict_value.specs.Values.{FitsColumn};
ghost use Rattle.rows_typed.specs.Fits.{HasFittingDefaults};

use crate::{DecodeFault, decode, decoded_rows_fit};
use dict_schema::{Role, Shape, ShapeColumn};
use dict_value::{
    AttrType, Bytes, ColType, Format, ListOf, MOST_ROWS, NoMemory, Value, default_of,
};
use packed_rows::{Cell, Rows};
use std::alloc::Global;
use std::test::Fail;

/// A column's role and type, and whether it is nullable.
type Kind = (Role, ColType, bool);

const ID: Kind = (Role::Key, ColType::UInt64, false);

const START: Kind = (Role::Start, ColType::UInt32, false);

const END: Kind = (Role::End, ColType::UInt32, false);

const TEXT: Kind = (Role::Attribute, ColType::Str, false);

const MAYBE_TEXT: Kind = (Role::Attribute, ColType::Str, true);

const MAYBE_BYTE: Kind = (Role::Attribute, ColType::UInt8, true);

/// The text `q`, or the default of another type.
fn default_for(alloc: Global, ty: &AttrType) -> Result<Value, NoMemory>
    ensures { IfOk result (FitsColumn ty.now) }
{
    match ty.base {
        ColType::Str => Ok(Value::S(Bytes::copy_of(alloc, b"q")?)),
        _ => Ok(default_of(alloc, ty)),
    }
}

/// The columns of these kinds, each String with the text `q` as its default.
fn shape_of(alloc: Global, kinds: &[Kind]) -> Result<Shape, NoMemory>
    ensures { IfOk result HasFittingDefaults }
{
    let mut shape = ListOf::new(alloc);
    for (role, base, nullable) in kinds {
        let ty = AttrType {
            base: *base,
            nullable: *nullable,
        };
        let default = default_for(alloc, &ty)?;
        shape.push(ShapeColumn {
            ty,
            role: *role,
            default,
        })?;
    }
    Ok(shape)
}

/// What a text decodes to, by columns of these kinds; no test has one that is too long for it.
fn decoded(
    alloc: Global,
    kinds: &[Kind],
    format: Format,
    text: &[u8],
) -> Result<Rows, DecodeFault> {
    let Ok(shape) = shape_of(alloc, kinds) else {
        return Err(DecodeFault::NoMemory);
    };
    if shape.len() > u32::MAX as usize || text.len() > u32::MAX as usize {
        return Err(DecodeFault::NoMemory);
    }
    decode(alloc, &shape, format, text)
}

/// The same as it is shown.
fn shown(alloc: Global, kinds: &[Kind], format: Format, text: &[u8]) -> Result<Bytes, NoMemory> {
    let mut out = Bytes::new(alloc);
    show(
        alloc,
        decoded(alloc, kinds, format, text),
        kinds.len(),
        &mut out,
    )?;
    Ok(out)
}

/// A bar before each value, a question mark for Null, and a semicolon behind each row; or the fault.
fn show(
    alloc: Global,
    answer: Result<Rows, DecodeFault>,
    columns: usize,
    out: &mut Bytes,
) -> Result<(), NoMemory> {
    let rows = match answer {
        Ok(rows) => rows,
        Err(DecodeFault::Bad(bad)) => {
            let told = format!(in alloc; "row {} {} {:?}", bad.line, bad.column, bad.why);
            return out.extend(told.map_err(|_| NoMemory)?.as_bytes());
        }
        Err(DecodeFault::TooMany | DecodeFault::NoMemory) => return Err(NoMemory),
    };
    for place in 0..rows.len() {
        for column in 0..columns {
            let Some(cell) = rows.get(place, column) else {
                return Err(NoMemory);
            };
            out.push(b'|')?;
            show_cell(alloc, cell, out)?;
        }
        out.push(b';')?;
    }
    Ok(())
}

fn show_cell(alloc: Global, cell: Cell<'_>, out: &mut Bytes) -> Result<(), NoMemory> {
    match cell {
        Cell::Null => out.push(b'?'),
        Cell::S(text) => out.extend(text),
        other => {
            let shown = format!(in alloc; "{other:?}").map_err(|_| NoMemory)?;
            out.extend(shown.as_bytes())
        }
    }
}

#[test]
fn tab_texts(rt: HostRuntime) -> Result<(), Fail> {
    let pair: &[Kind] = &[ID, TEXT];
    let triple: &[Kind] = &[ID, TEXT, MAYBE_BYTE];
    let cases: [(&[Kind], &[u8], &[u8]); 17] = [
        (triple, b"1\ta\n", b"row 1 0 FieldCount(2)"),
        (triple, b"1\ta\t300\n", b"row 1 3 Value(OutOfRange)"),
        (triple, b"1\ta\t1\nx\ta\t1\n", b"row 2 1 Value(NotANumber)"),
        (triple, b"1\t\\N\t\\N\n", b"|U(1)|q|?;"),
        (triple, b"\\N\ta\t1\n", b"row 1 1 Value(NullNotAllowed)"),
        (triple, b"1\ta\\x4\t1\n", b"row 1 0 Escape(3)"),
        (triple, b"", b""),
        (
            &[ID, TEXT, MAYBE_TEXT],
            b"1\ta\\tb\t\\N\n2\t\\N\t\\x41\n",
            b"|U(1)|a\tb|?;|U(2)|q|A;",
        ),
        (pair, b"1\ta", b"|U(1)|a;"),
        (pair, b"1\ta\r\n", b"row 1 0 CarriageReturn"),
        (pair, b"1\ta\\\\\n", b"|U(1)|a\\;"),
        (pair, b"1\t a\n 1\ta\n", b"row 2 1 Value(NotANumber)"),
        (
            &[ID, START, END],
            b"1\t\\N\t2\n1\t3\t\\N\n",
            b"|U(1)|?|U(2);|U(1)|U(3)|?;",
        ),
        (&[], b"1\n", b"row 1 0 FieldCount(1)"),
        (
            pair,
            b"1\ta\n2\t\\b\\f\\r\\n\\t\\0\\'\\\\\\a\\v\\x7e\n3\t\n",
            b"|U(1)|a;|U(2)|\x08\x0c\r\n\t\0'\\\x07\x0b~;|U(3)|;",
        ),
        (pair, b"1\ta\n2\tb\tc\n", b"row 2 0 FieldCount(3)"),
        (pair, b"1\ta\n2\tb\\x4\n", b"row 2 0 Escape(3)"),
    ];
    for (kinds, text, wanted) in cases {
        let out = shown(rt.alloc(), kinds, Format::Tab, text)?;
        assert_eq!(rt; out.as_slice(), wanted);
    }
    Ok(())
}

#[test]
fn csv_texts(rt: HostRuntime) -> Result<(), Fail> {
    let pair: &[Kind] = &[ID, TEXT];
    let cases: [(&[Kind], &[u8], &[u8]); 7] = [
        (
            pair,
            b"1,\"a\nb\"\"c\"\r\n\r\n2,z\n",
            b"|U(1)|a\nb\"c;|U(2)|z;",
        ),
        (
            pair,
            b"1,\"a\nb\"\"c\"\r\n\r\nz,z\n",
            b"row 3 1 Value(NotANumber)",
        ),
        (pair, b" 1\t, a \n", b"|U(1)| a ;"),
        (pair, b"1,\\N\n", b"|U(1)|\\N;"),
        (
            &[ID, MAYBE_TEXT],
            b"1,\\N\n2, \\N\n",
            b"|U(1)|?;|U(2)| \\N;",
        ),
        (
            &[ID, MAYBE_BYTE],
            b"1, \\N\n\\N,1\n",
            b"row 2 1 Value(NullNotAllowed)",
        ),
        (
            &[ID, START, END],
            b"1,\\N ,2\n1,3,\\N\n",
            b"|U(1)|?|U(2);|U(1)|U(3)|?;",
        ),
    ];
    for (kinds, text, wanted) in cases {
        let out = shown(rt.alloc(), kinds, Format::Csv, text)?;
        assert_eq!(rt; out.as_slice(), wanted);
    }
    decoded_rows_fit();
    Ok(())
}

/// Lines that are read where they lie, beside such as aren't: with quotes, carriage returns, a byte order mark or no
/// line feed.
static LINES: [(Format, &[u8], &[u8]); 9] = [
    (
        Format::Tab,
        b"1\ta\\\nb\n2\t\\N\n3\tc",
        b"|U(1)|a\nb;|U(2)|q;|U(3)|c;",
    ),
    (
        Format::Tab,
        b"1\t\\\\n\n2\t\\x5cn\n",
        b"|U(1)|\\n;|U(2)|\\n;",
    ),
    (
        Format::Tab,
        b"1\ta\\\r\n2\tb\r\n",
        b"row 2 0 CarriageReturn",
    ),
    (
        Format::Csv,
        b"1,a\n2,\"b,c\"\n3,d\r\n\n4,e",
        b"|U(1)|a;|U(2)|b,c;|U(3)|d;|U(4)|e;",
    ),
    (Format::Csv, b"\xef\xbb\xbf1,a\n2,b\n", b"|U(1)|a;|U(2)|b;"),
    (Format::Csv, b"1,a\n2,b,c\n", b"row 2 0 FieldCount(3)"),
    (Format::Csv, b"1,a\n2\n", b"row 2 0 FieldCount(1)"),
    (
        Format::Csv,
        b"1,a\n 2\t,b \n+3,\n",
        b"|U(1)|a;|U(2)|b ;|U(3)|;",
    ),
    (Format::Csv, b"1,a\rb\n", b"row 1 0 NotOneRecord"),
];

#[test]
fn lines_beside_each_other(rt: HostRuntime) -> Result<(), Fail> {
    for row in &LINES {
        let (format, text, wanted) = *row;
        let out = shown(rt.alloc(), &[ID, TEXT], format, text)?;
        assert_eq!(rt; out.as_slice(), wanted);
    }
    Ok(())
}

/// A value's text of each type, and how the value is shown.
const TYPES: [(ColType, &[u8], &[u8]); 15] = [
    (ColType::UInt8, b"255", b"U(255)"),
    (ColType::UInt16, b"65535", b"U(65535)"),
    (ColType::UInt32, b"4294967295", b"U(4294967295)"),
    (
        ColType::UInt64,
        b"18446744073709551615",
        b"U(18446744073709551615)",
    ),
    (ColType::Int8, b"-128", b"I(-128)"),
    (ColType::Int16, b"-32768", b"I(-32768)"),
    (ColType::Int32, b"-2147483648", b"I(-2147483648)"),
    (
        ColType::Int64,
        b"-9223372036854775808",
        b"I(-9223372036854775808)",
    ),
    (ColType::Str, b"ab", b"ab"),
    (ColType::Date, b"2149-06-06", b"Day(65535)"),
    (
        ColType::DateTime,
        b"2106-02-07 06:28:15",
        b"Second(4294967295)",
    ),
    (
        ColType::Uuid,
        b"00000000-0000-0000-0000-0000000000ff",
        b"Id(255)",
    ),
    (ColType::Ipv4, b"255.255.255.255", b"V4(4294967295)"),
    (ColType::Ipv6, b"::ff", b"V6(255)"),
    (ColType::Decimal(38, 1), b"-1.5", b"Dec(-15)"),
];

const ROLES: [Role; 4] = [Role::Key, Role::Start, Role::End, Role::Attribute];

/// What NULL is at a column.
fn null_shown(kind: Kind, format: Format) -> &'static [u8] {
    match kind {
        (_, ColType::Str, false) if format == Format::Csv => b"|\\N;",
        (Role::Start | Role::End, _, _) => b"|?;",
        (_, _, true) => b"|?;",
        (Role::Key, _, false) => b"row 1 1 Value(NullNotAllowed)",
        (Role::Attribute, base, false) => default_shown(base),
    }
}

/// The default of a type, or the text `q`.
fn default_shown(base: ColType) -> &'static [u8] {
    match base {
        ColType::UInt8 | ColType::UInt16 | ColType::UInt32 | ColType::UInt64 => b"|U(0);",
        ColType::Int8 | ColType::Int16 | ColType::Int32 | ColType::Int64 => b"|I(0);",
        ColType::Str => b"|q;",
        ColType::Date => b"|Day(0);",
        ColType::DateTime => b"|Second(0);",
        ColType::Uuid => b"|Id(0);",
        ColType::Ipv4 => b"|V4(0);",
        ColType::Ipv6 => b"|V6(0);",
        ColType::Decimal(_, _) => b"|Dec(0);",
    }
}

#[test]
fn each_type_and_role(rt: HostRuntime) -> Result<(), Fail> {
    for (base, text, value) in TYPES {
        let mut wanted = Bytes::copy_of(rt.alloc(), b"|")?;
        wanted.extend(value)?;
        wanted.push(b';')?;
        for role in ROLES {
            for nullable in [false, true] {
                for format in [Format::Tab, Format::Csv] {
                    let kind = (role, base, nullable);
                    let out = shown(rt.alloc(), &[kind], format, text)?;
                    assert_eq!(rt; out.as_slice(), wanted.as_slice());
                    let out = shown(rt.alloc(), &[kind], format, b"\\N\n")?;
                    assert_eq!(rt; out.as_slice(), null_shown(kind, format));
                }
            }
        }
    }
    Ok(())
}

/// A text of so many of these lines.
fn lines(alloc: Global, line: &[u8], count: usize) -> Result<Bytes, NoMemory> {
    let mut text = Bytes::new(alloc);
    for _ in 0..count {
        text.extend(line)?;
    }
    Ok(text)
}

/// The row at a place has the greatest number and ten letters.
fn is_pair(rows: &Rows, place: usize) -> bool {
    matches!(rows.get(place, 0), Some(Cell::U(u64::MAX)))
        && matches!(rows.get(place, 1), Some(Cell::S(text)) if text == b"abcdefghij".as_slice())
}

#[test]
fn a_million_rows(rt: HostRuntime) -> Result<(), Fail> {
    let cases: [(Format, &[u8]); 2] = [
        (Format::Tab, b"18446744073709551615\tabcdefghij\n"),
        (Format::Csv, b"18446744073709551615,abcdefghij\n"),
    ];
    for (format, line) in cases {
        let text = lines(rt.alloc(), line, 1_000_000)?;
        let Ok(rows) = decoded(rt.alloc(), &[ID, TEXT], format, text.as_slice()) else {
            return Err(Fail::from("there is memory for a million rows"));
        };
        assert_eq!(rt; rows.len(), 1_000_000);
        for place in 0..rows.len() {
            assert!(rt; is_pair(&rows, place));
        }
    }
    Ok(())
}

/// The number of a text's rows, or that they are too many.
fn row_count(answer: Result<Rows, DecodeFault>) -> Result<Option<usize>, Fail> {
    match answer {
        Ok(rows) => Ok(Some(rows.len())),
        Err(DecodeFault::TooMany) => Ok(None),
        Err(DecodeFault::Bad(_)) => Err(Fail::from("each line is a row")),
        Err(DecodeFault::NoMemory) => Err(Fail::from("there is memory for all rows")),
    }
}

#[test]
fn too_many_rows(rt: HostRuntime) -> Result<(), Fail> {
    for format in [Format::Tab, Format::Csv] {
        let mut text = lines(rt.alloc(), b"7\n", MOST_ROWS)?;
        let full = row_count(decoded(rt.alloc(), &[MAYBE_BYTE], format, text.as_slice()))?;
        assert_eq!(rt; full, Some(4_194_304));
        text.extend(b"x\n")?;
        let more = row_count(decoded(rt.alloc(), &[MAYBE_BYTE], format, text.as_slice()))?;
        assert_eq!(rt; more, None);
    }
    Ok(())
}

#[test]
fn long_texts(rt: HostRuntime) -> Result<(), Fail> {
    for count in [1_001, 65_537, 16_777_216] {
        let text = lines(rt.alloc(), b"x", count)?;
        let mut wanted = Bytes::copy_of(rt.alloc(), b"|")?;
        wanted.extend(text.as_slice())?;
        wanted.push(b';')?;
        for format in [Format::Tab, Format::Csv] {
            let out = shown(rt.alloc(), &[TEXT], format, text.as_slice())?;
            assert!(rt; out.is_same(&wanted));
        }
    }
    Ok(())
}

#[test]
fn greatest_values(rt: HostRuntime) -> Result<(), Fail> {
    let kinds: &[Kind] = &[
        ID,
        (Role::Attribute, ColType::Date, false),
        (Role::Attribute, ColType::DateTime, false),
        (Role::Attribute, ColType::Decimal(5, 2), false),
        (Role::Attribute, ColType::Ipv6, false),
    ];
    let line = b"1\t2149-06-06\t2106-02-07 06:28:15\t-1.50\t2001:DB8:0:0:0:0:0:1\n";
    let out = shown(rt.alloc(), kinds, Format::Tab, line)?;
    let wanted =
        b"|U(1)|Day(65535)|Second(4294967295)|Dec(-150)|V6(42540766411282592856903984951653826561);";
    assert_eq!(rt; out.as_slice(), wanted.as_slice());
    let late = b"1\t2149-06-07\t2106-02-07 06:28:15\t-1.50\t2001:DB8:0:0:0:0:0:1\n";
    let out = shown(rt.alloc(), kinds, Format::Tab, late)?;
    assert_eq!(rt; out.as_slice(), b"row 1 2 Value(OutOfRange)".as_slice());
    Ok(())
}
