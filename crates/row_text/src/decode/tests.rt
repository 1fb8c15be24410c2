ghost use Rattle.std.specs.Prelude.{◌≤◌, length};

use crate::{Columns, DecodeFault, decode_rows};
use dict_value::{
    AttrType, BadRow, BadValue, Bytes, ColType, Field, Format, MOST_ROWS, Value, Why,
};
use packed_rows::{Cell, Rows};
use std::alloc::Global;
use std::test::Fail;

/// One column, which makes Null of every field.
struct NullColumn;

impl Columns for NullColumn {
    ghost use Rattle.std.specs.Prelude.{◌∷◌, [], true, Ok};
    ghost use Rattle.dict_value.specs.declared.value.Value.TheVariants.{Null};
    ghost use Rattle.dict_value.specs.declared.value.ColType.TheVariants as type;

    ghost columns = { λ it. (λ field. Ok Null) ∷ [] };

    ghost types = { λ it. record { base = type.UInt8; nullable = true } ∷ [] };

    fn count(&self) -> usize {
        1
    }

    fn type_at(&self, _place: usize) -> AttrType {
        AttrType {
            base: ColType::UInt8,
            nullable: true,
        }
    }

    fn read_cell<'a>(&'a self, _alloc: Global, _place: usize, _text: &'a [u8]) -> Option<Cell<'a>> {
        Some(Cell::Null)
    }

    fn null_cell(&self, _place: usize) -> Option<Cell<'_>> {
        Some(Cell::Null)
    }

    fn read(&self, _alloc: Global, _place: usize, _field: Field) -> Result<Value, BadValue> {
        Ok(Value::Null)
    }
}

/// What a text decodes to by that column.
fn decode_nulls(alloc: Global, format: Format, text: &[u8]) -> Result<Rows, DecodeFault>
    requires { length text.now ≤ 4294967295 }
{
    decode_rows(alloc, format, &NullColumn, text)
}

#[test]
fn decoded_rows(rt: HostRuntime) -> Result<(), Fail> {
    let cases: [(Format, &[u8], Result<usize, BadRow>); 5] = [
        (Format::Tab, b"", Ok(0)),
        (Format::Tab, b"a\n\n\\\n\nb", Ok(4)),
        (Format::Csv, b"a\n\r\nb\r\n\"\n\"", Ok(3)),
        (
            Format::Tab,
            b"a\nb\tc\nd\te\n",
            Err(BadRow {
                line: 2,
                column: 0,
                why: Why::FieldCount(2),
            }),
        ),
        (
            Format::Csv,
            b"a\n\nb,c",
            Err(BadRow {
                line: 3,
                column: 0,
                why: Why::FieldCount(2),
            }),
        ),
    ];
    for (format, text, wanted) in cases {
        let found = match decode_nulls(rt.alloc(), format, text) {
            Ok(rows) => Ok(rows.len()),
            Err(DecodeFault::Bad(bad)) => Err(bad),
            Err(DecodeFault::TooMany | DecodeFault::NoMemory) => return Err(Fail::from(
                "a short text has memory and few rows",
            )),
        };
        assert_eq!(rt; found, wanted);
    }
    Ok(())
}

/// How many rows a text has; nothing where they are too many.
fn row_count(alloc: Global, format: Format, text: &[u8]) -> Result<Option<usize>, Fail> {
    if text.len() > u32::MAX as usize {
        return Err(Fail::from("a text has a length of 32 bits"));
    }
    match decode_nulls(alloc, format, text) {
        Ok(rows) => Ok(Some(rows.len())),
        Err(DecodeFault::TooMany) => Ok(None),
        Err(DecodeFault::Bad(_)) => Err(Fail::from("each line is a row")),
        Err(DecodeFault::NoMemory) => Err(Fail::from("there is memory for all rows")),
    }
}

#[test]
fn most_rows(rt: HostRuntime) -> Result<(), Fail> {
    for format in [Format::Tab, Format::Csv] {
        let mut text = Bytes::new(rt.alloc());
        for _ in 0..MOST_ROWS {
            text.extend(b"a\n")?;
        }
        let full = row_count(rt.alloc(), format, text.as_slice())?;
        assert_eq!(rt; full, Some(4_194_304));
        text.push(b'b')?;
        let more = row_count(rt.alloc(), format, text.as_slice())?;
        assert_eq!(rt; more, None);
    }
    Ok(())
}
