// Rows whose values go from the text into the packs, with no list of fields or of values between.
ghost use Rattle.std.specs.Prelude.{◌≡◌, ◌<◌, ◌≤◌, [], length, IfNone, IfSome, OnSome};
ghost use Rattle.dict_value.specs.declared.value.Field.TheVariants as field;
ghost use Rattle.row_text.specs.Fitting.{AllFit};
ghost use Rattle.row_text.specs.steps.DirectSteps.{AddsValue, BeginsWithRow, TakesRow};

mod csv_line;
mod tab_line;

use crate::columns::Columns;
use dict_value::{Bytes, Format, MOST_ROWS};
use packed_rows::RowsBuilder;
use std::alloc::Global;

/// Adds the row of the first line of a text, where the line has its line feed and each value is told where it
/// lies. The size is the line's with its line feed. Where it is none, the rows are as they were. Room for the
/// text of a field with escapes is kept in `scratch`, from one row to the next.
pub(crate) fn take_row<C: Columns>(
    alloc: Global,
    format: Format,
    columns: &C,
    text: &[u8],
    scratch: &mut Bytes,
    rows: &mut RowsBuilder,
) -> Option<usize>
    requires fit { AllFit (C.columns columns.now) (C.types columns.now) }
    requires types { rows.old.types ≡ C.types columns.now }
    requires none { rows.old.open_row ≡ [] }
    requires few { length rows.old.rows ≤ MOST_ROWS }
    ensures none { IfNone result (rows.new ≡ rows.old) }
    ensures row { IfSome result (λ size. TakesRow format (C.columns columns.now) text.now size rows.old rows.new) }
{
    if rows.row_count() == MOST_ROWS {
        return None;
    }
    let taken = push_line(alloc, format, columns, text, scratch, rows);
    match taken {
        Some(_) => rows.end_row(),
        None => rows.drop_open_row(),
    }
    taken
}

/// Adds the values of the first line of a text to the open row.
#[inline]
fn push_line<C: Columns>(
    alloc: Global,
    format: Format,
    columns: &C,
    text: &[u8],
    scratch: &mut Bytes,
    rows: &mut RowsBuilder,
) -> Option<usize>
    requires fit { AllFit (C.columns columns.now) (C.types columns.now) }
    requires types { rows.old.types ≡ C.types columns.now }
    requires none { rows.old.open_row ≡ [] }
    requires few { length rows.old.rows < MOST_ROWS }
    ensures types { rows.new.types ≡ rows.old.types }
    ensures rows { rows.new.rows ≡ rows.old.rows }
    ensures row { IfSome result (λ size. BeginsWithRow format (C.columns columns.now) text.now size rows.new.open_row) }
{
    match format {
        Format::Tab => tab_line::push_line(alloc, columns, text, scratch, rows),
        Format::Csv => csv_line::push_line(alloc, columns, text, rows),
    }
}

/// Adds the value of a text to the open row.
#[inline(always)]
fn push_piece<C: Columns>(
    alloc: Global,
    columns: &C,
    place: usize,
    piece: &[u8],
    rows: &mut RowsBuilder,
) -> Option<()>
    requires fit { AllFit (C.columns columns.now) (C.types columns.now) }
    requires types { rows.old.types ≡ C.types columns.now }
    requires place { place ≡ length rows.old.open_row }
    requires within { place < length (C.columns columns.now) }
    requires few { length rows.old.rows < MOST_ROWS }
    ensures types { rows.new.types ≡ rows.old.types }
    ensures rows { rows.new.rows ≡ rows.old.rows }
    ensures cell { OnSome result (AddsValue (C.columns columns.now) (field.Text piece.now)
        rows.old.open_row rows.new.open_row) }
{
    let cell = columns.read_cell(alloc, place, piece)?;
    rows.push_cell(&cell).ok()
}

/// Adds the value that stands for NULL to the open row.
fn push_null<C: Columns>(columns: &C, place: usize, rows: &mut RowsBuilder) -> Option<()>
    requires fit { AllFit (C.columns columns.now) (C.types columns.now) }
    requires types { rows.old.types ≡ C.types columns.now }
    requires place { place ≡ length rows.old.open_row }
    requires within { place < length (C.columns columns.now) }
    requires few { length rows.old.rows < MOST_ROWS }
    ensures types { rows.new.types ≡ rows.old.types }
    ensures rows { rows.new.rows ≡ rows.old.rows }
    ensures cell { OnSome result (AddsValue (C.columns columns.now) field.Null rows.old.open_row rows.new.open_row) }
{
    let cell = columns.null_cell(place)?;
    rows.push_cell(&cell).ok()
}
