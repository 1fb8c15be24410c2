// Whole texts, decoded row by row into values.
ghost use Rattle.std.specs.Prelude.{◌≡◌, ◌<◌, ◌≤◌, ◌+◌, ◌++◌, ◌∷◌, [], true, Err, List, length, IfOk, IfNone};
ghost use Rattle.std.specs.Prelude.{IfSome, OnErr, OnOk, OnSome};
ghost use Rattle.std.specs.List.{AllZip};
ghost use Rattle.dict_value.specs.Values.{FitsColumn};
ghost use Rattle.dict_value.specs.declared.value.Format.{Format};
ghost use Rattle.dict_value.specs.Memory.{UnlessNoMemory};
ghost use Rattle.row_text.specs.Fitting.{AllFit};
ghost use Rattle.row_text.specs.Decoding.{Decodes, LineGives, is_row_line, rule_of};
ghost use Rattle.row_text.specs.Growing.{AddsRowsOf, AddsWhole};
ghost use Rattle.row_text.specs.steps.DecodeSteps.{FirstBrings, LineBrings, LineDecodes, TakeAll, column_fault};
ghost use Rattle.row_text.specs.steps.DecodeSteps.{fault_at, row_fault};

use crate::columns::Columns;
use crate::csv_row::{is_blank_line, read_csv_row};
use crate::cutter::{CutRule, whole_line};
use crate::direct::take_row;
use crate::tab_row::read_fields;
use dict_value::letters::LINE_FEED;
use dict_value::{
    BadRow, BadValue, Bytes, Fields, Format, LineFault, ListOf, MOST_ROWS, NoMemory, Row, Why,
};
use memchr::memchr;
use packed_rows::{Rows, RowsBuilder, cell_of};
use std::alloc::Global;

/// Why a text has no rows.
#[derive(Clone, Copy, Debug, PartialEq, Eq)]
pub enum DecodeFault {
    /// The first bad row.
    Bad(BadRow),
    /// A row stands behind as many as a version may have, and none of those is bad.
    TooMany,
    NoMemory,
}

/// The typed rows of a whole text, or its first bad row, or that it has too many.
pub fn decode_rows<C: Columns>(
    alloc: Global,
    format: Format,
    columns: &C,
    text: &[u8],
) -> Result<Rows, DecodeFault>
    requires bytes { length text.now ≤ u32.MAX }
    requires columns { length (C.columns columns.now) ≤ u32.MAX }
    requires fit { AllFit (C.columns columns.now) (C.types columns.now) }
    ensures { UnlessNoMemory (Err DecodeFault.NoMemory) result
        (Decodes format (C.columns columns.now) text.now result) }
{
    let mut rows = no_rows(alloc, columns, text)?;
    decode_more(alloc, format, columns, text, 0, &mut rows)?;
    Ok(rows.finish())
}

/// Adds the typed rows of a text to those of the lines before it, which are so many. After a fault, what
/// the rows are isn't told.
pub fn decode_more<C: Columns>(
    alloc: Global,
    format: Format,
    columns: &C,
    text: &[u8],
    lines_before: u32,
    rows: &mut RowsBuilder,
) -> Result<(), DecodeFault>
    requires bytes { lines_before + length text.now ≤ u32.MAX }
    requires columns { length (C.columns columns.now) ≤ u32.MAX }
    requires fit { AllFit (C.columns columns.now) (C.types columns.now) }
    requires types { rows.old.types ≡ C.types columns.now }
    requires none { rows.old.open_row ≡ [] }
    requires few { length rows.old.rows ≤ MOST_ROWS }
    ensures adds { UnlessNoMemory (Err DecodeFault.NoMemory) result
        (AddsRowsOf format (C.columns columns.now) lines_before rows.old.rows text.now result rows.new.rows) }
    ensures types { OnOk result (rows.new.types ≡ rows.old.types) }
    ensures none { OnOk result (rows.new.open_row ≡ []) }
{
    let mut lines = lines_before;
    let size = decode_whole(alloc, format, columns, text, &mut lines, rows)?;
    if size == text.len() {
        return Ok(());
    }
    take_line(alloc, format, columns, &text[size..], lines + 1, rows)
}

/// Adds the typed rows of those lines of a text that have their line feed to those of the lines before it,
/// and counts these lines. The size is that of these lines; what stands behind is less than one more. After
/// a fault, what the rows are isn't told.
pub fn decode_whole<C: Columns>(
    alloc: Global,
    format: Format,
    columns: &C,
    text: &[u8],
    lines: &mut u32,
    rows: &mut RowsBuilder,
) -> Result<usize, DecodeFault>
    requires bytes { lines.old + length text.now ≤ u32.MAX }
    requires columns { length (C.columns columns.now) ≤ u32.MAX }
    requires fit { AllFit (C.columns columns.now) (C.types columns.now) }
    requires types { rows.old.types ≡ C.types columns.now }
    requires none { rows.old.open_row ≡ [] }
    requires few { length rows.old.rows ≤ MOST_ROWS }
    ensures adds { UnlessNoMemory (Err DecodeFault.NoMemory) result
        (AddsWhole format (C.columns columns.now) lines.old rows.old.rows text.now result lines.new rows.new.rows) }
    ensures types { OnOk result (rows.new.types ≡ rows.old.types) }
    ensures none { OnOk result (rows.new.open_row ≡ []) }
{
    let mut scratch = Bytes::new(alloc);
    let mut done = 0;
    loop {
        let left = &text[done..];
        match take_first(alloc, format, columns, left, *lines, &mut scratch, rows)? {
            Some(size) => {
                done += size;
                *lines += 1;
            }
            None => return Ok(done),
        }
    }
}

/// Adds the row of the first line of a text, behind so many others, where the line has its line feed. The
/// size is the line's with its line feed.
#[inline(always)]
fn take_first<C: Columns>(
    alloc: Global,
    format: Format,
    columns: &C,
    text: &[u8],
    lines_before: u32,
    scratch: &mut Bytes,
    rows: &mut RowsBuilder,
) -> Result<Option<usize>, DecodeFault>
    requires bytes { lines_before + length text.now ≤ u32.MAX }
    requires columns { length (C.columns columns.now) ≤ u32.MAX }
    requires fit { AllFit (C.columns columns.now) (C.types columns.now) }
    requires types { rows.old.types ≡ C.types columns.now }
    requires none { rows.old.open_row ≡ [] }
    requires few { length rows.old.rows ≤ MOST_ROWS }
    ensures brings { UnlessNoMemory (Err DecodeFault.NoMemory) result
        (FirstBrings format (C.columns columns.now) text.now lines_before rows.old.rows result rows.new.rows) }
    ensures types { OnOk result (rows.new.types ≡ rows.old.types) }
    ensures none { OnOk result (rows.new.open_row ≡ []) }
{
    if let Some(size) = take_row(alloc, format, columns, text, scratch, rows) {
        return Ok(Some(size));
    }
    let Some((line, size)) = whole_line(rule_for(format), text) else {
        return Ok(None);
    };
    take_line(alloc, format, columns, line, lines_before + 1, rows)?;
    Ok(Some(size))
}

/// About how many rows a text has: as many as lines of the size of its first.
fn likely_rows(text: &[u8]) -> usize {
    match memchr(LINE_FEED, text) {
        Some(size) => (text.len() / (size + 1) + 1).min(MOST_ROWS),
        None => 1,
    }
}

/// No rows of the columns' types, with room for those that a text is likely to have.
fn no_rows<C: Columns>(alloc: Global, columns: &C, text: &[u8]) -> Result<RowsBuilder, DecodeFault>
    requires { AllFit (C.columns columns.now) (C.types columns.now) }
    ensures ok { IfOk result (λ rows. (rows.types ≡ C.types columns.now) × (rows.rows ≡ []) × (rows.open_row ≡ [])) }
    ensures memory { OnErr result (result ≡ Err DecodeFault.NoMemory) }
{
    let mut types = Vec::new(alloc);
    for place in 0..columns.count() {
        match types.push(columns.type_at(place)) {
            Ok(()) => {}
            Err(_) => return Err(DecodeFault::NoMemory),
        }
    }
    match RowsBuilder::with_room(alloc, types.as_slice(), likely_rows(text), text.len()) {
        Ok(rows) => Ok(rows),
        Err(_) => Err(DecodeFault::NoMemory),
    }
}

/// Which line feeds end a row.
fn rule_for(format: Format) -> CutRule
    ensures { result ≡ rule_of format }
{
    match format {
        Format::Tab => CutRule::Tab,
        Format::Csv => CutRule::Csv,
    }
}

/// Adds the row of a line, the one of this number in its text; a blank line of CSV has none.
fn take_line<C: Columns>(
    alloc: Global,
    format: Format,
    columns: &C,
    line: &[u8],
    number: u32,
    rows: &mut RowsBuilder,
) -> Result<(), DecodeFault>
    requires bytes { length line.now ≤ u32.MAX }
    requires columns { length (C.columns columns.now) ≤ u32.MAX }
    requires fit { AllFit (C.columns columns.now) (C.types columns.now) }
    requires types { rows.old.types ≡ C.types columns.now }
    requires none { rows.old.open_row ≡ [] }
    requires few { length rows.old.rows ≤ MOST_ROWS }
    ensures brings { UnlessNoMemory (Err DecodeFault.NoMemory) result
        (LineBrings format (C.columns columns.now) line.now number rows.old.rows result rows.new.rows) }
    ensures types { OnOk result (rows.new.types ≡ rows.old.types) }
    ensures none { OnOk result (rows.new.open_row ≡ []) }
{
    if !is_row(format, line) {
        return Ok(());
    }
    if rows.row_count() == MOST_ROWS {
        return Err(DecodeFault::TooMany);
    }
    match read_row(alloc, format, columns, line) {
        Ok(row) => match push_row(&row, rows) {
            Ok(()) => Ok(()),
            Err(_) => Err(DecodeFault::NoMemory),
        },
        Err(fault) => Err(at_line(number, fault)),
    }
}

/// Adds a row of values.
fn push_row(row: &Row, rows: &mut RowsBuilder) -> Result<(), NoMemory>
    requires fits { AllZip FitsColumn rows.old.types row.now }
    requires none { rows.old.open_row ≡ [] }
    requires few { length rows.old.rows < MOST_ROWS }
    ensures { OnOk result (rows.new ≡ record rows.old { rows = rows.old.rows ++ row.now ∷ [] }) }
{
    for value in row.as_slice() {
        rows.push_cell(&cell_of(value))?;
    }
    rows.end_row();
    Ok(())
}

/// Whether a line stands for a row; a blank line of CSV doesn't.
fn is_row(format: Format, line: &[u8]) -> bool
    ensures { result ≡ is_row_line format line.now }
{
    match format {
        Format::Tab => true,
        Format::Csv => !is_blank_line(line),
    }
}

/// The fault of the line of this number as that of its text.
fn at_line(number: u32, fault: RowFault) -> DecodeFault
    ensures { result ≡ fault_at number fault }
{
    match fault {
        RowFault::Bad { column, why } => DecodeFault::Bad(BadRow {
            line: number,
            column,
            why,
        }),
        RowFault::NoMemory => DecodeFault::NoMemory,
    }
}

/// Why a line is no row: at a column from 1, or at 0 for the line as a whole.
enum RowFault {
    Bad { column: u32, why: Why },
    NoMemory,
}

/// The row of a line.
fn read_row<C: Columns>(
    alloc: Global,
    format: Format,
    columns: &C,
    line: &[u8],
) -> Result<Row, RowFault>
    requires bytes { length line.now ≤ u32.MAX }
    requires columns { length (C.columns columns.now) ≤ u32.MAX }
    ensures { UnlessNoMemory (Err RowFault.NoMemory) result
        (LineDecodes format (C.columns columns.now) line.now result) }
{
    let fields = match line_fields(alloc, format, line) {
        Ok(fields) => fields,
        Err(fault) => return Err(of_line(fault)),
    };
    if fields.len() != columns.count() {
        let told = fields.len().min(u32::MAX as usize) as u32;
        return Err(RowFault::Bad {
            column: 0,
            why: Why::FieldCount(told),
        });
    }
    read_values(alloc, columns, fields)
}

/// The fields of a line.
fn line_fields(alloc: Global, format: Format, line: &[u8]) -> Result<Fields, LineFault>
    requires { length line.now ≤ u32.MAX }
    ensures { UnlessNoMemory (Err LineFault.NoMemory) result (LineGives format line.now result) }
{
    match format {
        Format::Tab => read_fields(alloc, line),
        Format::Csv => read_csv_row(alloc, line),
    }
}

/// A line's fault as that of a row.
fn of_line(fault: LineFault) -> RowFault
    ensures { result ≡ row_fault fault }
{
    let why = match fault {
        LineFault::BadEscape(place) => Why::Escape(place),
        LineFault::CarriageReturn => Why::CarriageReturn,
        LineFault::NotOneRecord => Why::NotOneRecord,
        LineFault::NoMemory => return RowFault::NoMemory,
    };
    RowFault::Bad { column: 0, why }
}

/// A fault of the column at a place, from 0, as that of a row.
fn of_column(place: usize, fault: BadValue) -> RowFault
    requires { place < u32.MAX }
    ensures { result ≡ column_fault place fault }
{
    match fault {
        BadValue::NoMemory => RowFault::NoMemory,
        _ => RowFault::Bad {
            column: place as u32 + 1,
            why: Why::Value(fault),
        },
    }
}

/// The values of as many fields as there are columns.
fn read_values<C: Columns>(alloc: Global, columns: &C, fields: Fields) -> Result<Row, RowFault>
    requires count { length fields ≡ length (C.columns columns.now) }
    requires columns { length (C.columns columns.now) ≤ u32.MAX }
    ensures { UnlessNoMemory (Err RowFault.NoMemory) result (TakeAll (C.columns columns.now) fields result) }
{
    let Ok(mut row) = ListOf::with_room(alloc, fields.len()) else {
        return Err(RowFault::NoMemory);
    };
    for field in fields.into_vec() {
        let value = match columns.read(alloc, row.len(), field) {
            Ok(value) => value,
            Err(fault) => return Err(of_column(row.len(), fault)),
        };
        match row.push(value) {
            Ok(()) => {}
            Err(_) => return Err(RowFault::NoMemory),
        }
    }
    Ok(row)
}

#[cfg(test)]
mod tests;
