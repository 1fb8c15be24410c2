// What the columns of a shape make of fields.
ghost use Rattle.std.specs.Prelude.{◌≡◌, length, reverse, take_while, IfNone, IfSome, Ok};
ghost use Rattle.dict_value.specs.Values.{text_reading};
ghost use Rattle.packed_rows.specs.Cells.{meaning};
ghost use Rattle.rows_typed.specs.Fits.{IsUnsigned};
ghost use Rattle.row_text.specs.Decoding.{Reads};
ghost use Rattle.dict_value.specs.Letters.{is_blank_byte};
ghost use Rattle.rows_typed.specs.Shapes.{column_by, is_null_text, null_or_text, seen_text, value_at, without_blanks};

use dict_schema::{Role, ShapeColumn, cell_type, may_be_open};
use dict_value::letters::{BACKSLASH, CAPITAL_N, TAB};
use dict_value::{
    AttrType, BadValue, Bytes, ColType, Field, Format, Value, copy_value, read_digits, read_text,
};
use packed_rows::{Cell, cell_of};
use row_text::Columns;
use std::alloc::Global;

const SPACE: u8 = b' ';

/// The columns of a shape, as they read a format.
#[derive(Drop)]
pub struct ShapeColumns<'a> {
    pub shape: &'a [ShapeColumn],
    pub format: Format,
}

impl<'a> Columns for ShapeColumns<'a> {
    ghost use Rattle.rows_typed.specs.Shapes.{columns_of};

    ghost columns = { λ s. columns_of s.format s.shape.now };

    ghost use Rattle.dict_schema.specs.Shapes.{cell_types};

    ghost types = { λ s. cell_types s.shape.now };

    fn count(&self) -> usize {
        self.shape.len()
    }

    fn type_at(&self, place: usize) -> AttrType {
        cell_type(&self.shape[place])
    }

    fn read_cell<'t>(&'t self, alloc: Global, place: usize, text: &'t [u8]) -> Option<Cell<'t>> {
        read_cell(alloc, self.format, &self.shape[place], text)
    }

    fn null_cell(&self, place: usize) -> Option<Cell<'_>> {
        null_cell(&self.shape[place])
    }

    fn read(&self, alloc: Global, place: usize, field: Field) -> Result<Value, BadValue> {
        read_field(alloc, self.format, &self.shape[place], field)
    }
}

/// What a column makes of a text, where that is a value without memory; None leaves a text to `read_field`.
#[inline(always)]
fn read_cell<'a>(
    alloc: Global,
    format: Format,
    column: &'a ShapeColumn,
    text: &'a [u8],
) -> Option<Cell<'a>>
    ensures { IfSome result (λ cell. column_by format column.now (Field.Text text.now) ≡ Ok (meaning cell)) }
{
    match format {
        Format::Tab => text_cell(alloc, column.ty.base, text),
        Format::Csv => csv_cell(alloc, column, text),
    }
}

/// What a column makes of a text of CSV, where that is a value without memory.
#[inline(always)]
fn csv_cell<'a>(alloc: Global, column: &'a ShapeColumn, text: &'a [u8]) -> Option<Cell<'a>>
    ensures { IfSome result (λ cell. column_by Format.Csv column.now (Field.Text text.now) ≡ Ok (meaning cell)) }
{
    match seen_text(column.ty, text) {
        Some(seen) => text_cell(alloc, column.ty.base, seen),
        None => null_cell(column),
    }
}

/// What a type sees of a text of CSV; nothing where that is NULL.
#[inline(always)]
fn seen_text(ty: AttrType, text: &[u8]) -> Option<&[u8]>
    ensures null { IfNone result (seen_text ty.base ty.nullable text.now ≡ Field.Null) }
    ensures text { IfSome result (λ seen. seen_text ty.base ty.nullable text.now ≡ Field.Text seen.now) }
    ensures same { ty.base ≡ ColType.Str → IfSome result (λ seen. seen.now ≡ text.now) }
{
    match ty.base {
        ColType::Str if ty.nullable => unless_null(text),
        ColType::Str => Some(text),
        _ => unless_null(without_blanks(text)),
    }
}

/// A text that isn't `\N`.
#[inline(always)]
fn unless_null(text: &[u8]) -> Option<&[u8]>
    ensures null { IfNone result (null_or_text text.now ≡ Field.Null) }
    ensures text { IfSome result (λ seen. null_or_text text.now ≡ Field.Text seen.now) }
    ensures same { IfSome result (λ seen. seen.now ≡ text.now) }
{
    if is_null_text(text) { None } else { Some(text) }
}

/// What NULL is at a column, where that is a value.
fn null_cell(column: &ShapeColumn) -> Option<Cell<'_>>
    ensures { IfSome result (λ cell. value_at column.now Field.Null ≡ Ok (meaning cell)) }
{
    match column.role {
        Role::Start | Role::End => Some(Cell::Null),
        _ if column.ty.nullable => Some(Cell::Null),
        Role::Key => None,
        Role::Attribute => Some(cell_of(&column.default)),
    }
}

/// The value of a text at a type, where it lies; None where it has none.
#[inline(always)]
fn text_cell<'a>(alloc: Global, base: ColType, text: &'a [u8]) -> Option<Cell<'a>>
    ensures { IfSome result (λ cell. text_reading base text.now ≡ Ok (meaning cell)) }
{
    match base {
        ColType::Str => Some(Cell::S(text)),
        ColType::UInt8 => number_cell(base, text, u64::from(u8::MAX)),
        ColType::UInt16 => number_cell(base, text, u64::from(u16::MAX)),
        ColType::UInt32 => number_cell(base, text, u64::from(u32::MAX)),
        ColType::UInt64 => number_cell(base, text, u64::MAX),
        _ => other_cell(alloc, base, text),
    }
}

/// The value of digits at an unsigned type whose greatest number is `most`.
#[inline(always)]
fn number_cell<'a>(base: ColType, text: &[u8], most: u64) -> Option<Cell<'a>>
    requires { IsUnsigned base most }
    ensures { IfSome result (λ cell. text_reading base text.now ≡ Ok (meaning cell)) }
{
    match read_digits(text) {
        Some(number) if number <= most => Some(Cell::U(number)),
        _ => None,
    }
}

/// The value of a text at a type that isn't String.
fn other_cell<'a>(alloc: Global, base: ColType, text: &[u8]) -> Option<Cell<'a>>
    ensures { IfSome result (λ cell. text_reading base text.now ≡ Ok (meaning cell)) }
{
    match read_text(alloc, base, text) {
        Ok(value) => textless_cell(&value),
        Err(_) => None,
    }
}

/// The cell that a value is which has no text.
fn textless_cell<'a>(value: &Value) -> Option<Cell<'a>>
    ensures { IfSome result (λ cell. meaning cell ≡ value.now) }
{
    match value {
        Value::Null => Some(Cell::Null),
        Value::U(n) => Some(Cell::U(*n)),
        Value::I(z) => Some(Cell::I(*z)),
        Value::S(_) => None,
        Value::Day(n) => Some(Cell::Day(*n)),
        Value::Second(n) => Some(Cell::Second(*n)),
        Value::Id(n) => Some(Cell::Id(*n)),
        Value::V4(n) => Some(Cell::V4(*n)),
        Value::V6(n) => Some(Cell::V6(*n)),
        Value::Dec(z) => Some(Cell::Dec(*z)),
    }
}

/// What a column makes of a field.
fn read_field(
    alloc: Global,
    format: Format,
    column: &ShapeColumn,
    field: Field,
) -> Result<Value, BadValue>
    ensures { Reads (column_by format column.now) field result }
{
    match (format, field) {
        (_, Field::Null) => null_value(alloc, column),
        (Format::Tab, Field::Text(text)) => text_value(alloc, column, text),
        (Format::Csv, Field::Text(text)) => csv_value(alloc, column, text),
    }
}

/// What NULL is at a column.
fn null_value(alloc: Global, column: &ShapeColumn) -> Result<Value, BadValue>
    ensures { Reads (value_at column.now) Field.Null result }
{
    match column.role {
        Role::Start | Role::End => Ok(Value::Null),
        _ if column.ty.nullable => Ok(Value::Null),
        Role::Key => Err(BadValue::NullNotAllowed),
        Role::Attribute => copy_value(alloc, &column.default).map_err(|_| BadValue::NoMemory),
    }
}

/// The value of a text, which becomes that of a String without a copy.
fn text_value(alloc: Global, column: &ShapeColumn, text: Bytes) -> Result<Value, BadValue>
    ensures { Reads (value_at column.now) (Field.Text text) result }
{
    match column.ty.base {
        ColType::Str => Ok(Value::S(text)),
        base => read_text(alloc, base, text.as_slice()),
    }
}

/// The value of a text of CSV.
fn csv_value(alloc: Global, column: &ShapeColumn, text: Bytes) -> Result<Value, BadValue>
    ensures { Reads (column_by Format.Csv column.now) (Field.Text text) result }
{
    match (column.ty.base, seen_text(column.ty, text.as_slice())) {
        (_, None) => null_value(alloc, column),
        (ColType::Str, Some(_)) => Ok(Value::S(text)),
        (base, Some(seen)) => read_text(alloc, base, seen),
    }
}

/// The text is `\N`.
fn is_null_text(text: &[u8]) -> bool
    ensures { result ≡ is_null_text text.now }
{
    matches!(text, [BACKSLASH, CAPITAL_N])
}

/// The text without the blanks at its ends.
#[tactic(auto, using(crate::proofs::Blanks::blank_lengths))]
fn without_blanks(text: &[u8]) -> &[u8]
    ensures { result.now ≡ without_blanks text.now }
{
    let left = &text[blanks_before(text)..];
    &left[..left.len() - blanks_behind(left)]
}

/// How many blanks a text begins with.
fn blanks_before(text: &[u8]) -> usize
    ensures { result ≡ length (take_while is_blank_byte text.now) }
{
    text.iter().take_while(|b| is_blank_byte(**b)).count()
}

/// How many blanks a text ends with.
fn blanks_behind(text: &[u8]) -> usize
    ensures { result ≡ length (take_while is_blank_byte (reverse text.now)) }
{
    text.iter().rev().take_while(|b| is_blank_byte(**b)).count()
}

/// A space or a tab.
fn is_blank_byte(byte: u8) -> bool
    ensures { result ≡ is_blank_byte byte }
{
    matches!(byte, SPACE | TAB)
}
