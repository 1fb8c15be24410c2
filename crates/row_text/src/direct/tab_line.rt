// Rows of TabSeparated text, field by field where they lie.
ghost use Rattle.std.specs.Prelude.{◌≡◌, ◌<◌, [], true, length, IfSome};
ghost use Rattle.dict_value.specs.declared.value.Format.TheVariants.{Tab};
ghost use Rattle.dict_value.specs.declared.value.TheConstants.{MOST_ROWS};
ghost use Rattle.row_text.specs.Fitting.{AllFit};
ghost use Rattle.row_text.specs.steps.DirectSteps.{AddsField, BeginsWithRow, EndsPiece, LacksReturn, Unescapes};

use super::{push_null, push_piece};
use crate::columns::Columns;
use crate::tab_row::{escape_of, is_null_field};
use dict_value::Bytes;
use dict_value::letters::{BACKSLASH, CARRIAGE_RETURN, LINE_FEED, TAB};
use memchr::memchr3;
use packed_rows::RowsBuilder;
use std::alloc::Global;

/// Adds the values of the first line of a text to the open row.
#[inline]
pub(super) fn push_line<C: Columns>(
    alloc: Global,
    columns: &C,
    text: &[u8],
    scratch: &mut Bytes,
    rows: &mut RowsBuilder,
) -> Option<usize>
    requires fit { AllFit (C.columns columns.now) (C.types columns.now) }
    requires types { rows.old.types ≡ C.types columns.now }
    requires none { rows.old.open_row ≡ [] }
    requires few { length rows.old.rows < MOST_ROWS }
    ensures types { rows.new.types ≡ rows.old.types }
    ensures rows { rows.new.rows ≡ rows.old.rows }
    ensures row { IfSome result (λ size. BeginsWithRow Tab (C.columns columns.now) text.now size rows.new.open_row) }
{
    let count = columns.count();
    let mut at = 0;
    for place in 0..count {
        let left = &text[at..];
        let (size, end) = push_field(alloc, columns, place, left, scratch, rows)?;
        if end != TAB {
            if place + 1 < count || end != LINE_FEED || !lacks_return(&left[..size]) {
                return None;
            }
            return Some(at + size + 1);
        }
        at += size + 1;
    }
    None
}

/// Adds the value of the first field of a text to the open row. The answer is where the field ends, and the
/// byte there.
#[inline(always)]
fn push_field<C: Columns>(
    alloc: Global,
    columns: &C,
    place: usize,
    text: &[u8],
    scratch: &mut Bytes,
    rows: &mut RowsBuilder,
) -> Option<(usize, u8)>
    requires fit { AllFit (C.columns columns.now) (C.types columns.now) }
    requires types { rows.old.types ≡ C.types columns.now }
    requires place { place ≡ length rows.old.open_row }
    requires within { place < length (C.columns columns.now) }
    requires few { length rows.old.rows < MOST_ROWS }
    ensures types { rows.new.types ≡ rows.old.types }
    ensures rows { rows.new.rows ≡ rows.old.rows }
    ensures field { IfSome result (λ end. AddsField (C.columns columns.now) text.now end.0 end.1
        rows.old.open_row rows.new.open_row) }
{
    let (size, end) = piece_end(text)?;
    if end == BACKSLASH {
        return push_escaped(alloc, columns, place, text, scratch, rows);
    }
    push_piece(alloc, columns, place, &text[..size], rows)?;
    Some((size, end))
}

/// Adds the value of the first field of a text, which has escapes.
fn push_escaped<C: Columns>(
    alloc: Global,
    columns: &C,
    place: usize,
    text: &[u8],
    scratch: &mut Bytes,
    rows: &mut RowsBuilder,
) -> Option<(usize, u8)>
    requires fit { AllFit (C.columns columns.now) (C.types columns.now) }
    requires types { rows.old.types ≡ C.types columns.now }
    requires place { place ≡ length rows.old.open_row }
    requires within { place < length (C.columns columns.now) }
    requires few { length rows.old.rows < MOST_ROWS }
    ensures types { rows.new.types ≡ rows.old.types }
    ensures rows { rows.new.rows ≡ rows.old.rows }
    ensures field { IfSome result (λ end. AddsField (C.columns columns.now) text.now end.0 end.1
        rows.old.open_row rows.new.open_row) }
{
    let (size, end) = unescape(text, scratch)?;
    if is_null_field(&text[..size]) {
        push_null(columns, place, rows)?;
    } else {
        push_piece(alloc, columns, place, scratch.as_slice(), rows)?;
    }
    Some((size, end))
}

/// Keeps in `scratch` what the first field of a text stands for, and tells where the field ends, and the byte
/// there.
fn unescape(text: &[u8], scratch: &mut Bytes) -> Option<(usize, u8)>
    ensures { IfSome result (λ end. Unescapes text.now end.0 end.1 scratch.new) }
{
    scratch.clear();
    let mut at = 0;
    'runs: loop {
        let left = &text[at..];
        let (run, end) = piece_end(left)?;
        if scratch.extend(&left[..run]).is_err() {
            return None;
        }
        if end != BACKSLASH {
            return Some((at + run, end));
        }
        let (byte, size) = escape_of(&left[run..])?;
        if scratch.push(byte).is_err() {
            return None;
        }
        at = at + run + size;
    }
}

/// Whether a text doesn't end in a carriage return.
#[inline]
fn lacks_return(piece: &[u8]) -> bool
    ensures { result ≡ true → LacksReturn piece.now }
{
    piece.is_empty() || piece[piece.len() - 1] != CARRIAGE_RETURN
}

/// Where the first tab, line feed or backslash of a text stands, and which of them it is.
#[inline(always)]
fn piece_end(text: &[u8]) -> Option<(usize, u8)>
    ensures { IfSome result (λ end. EndsPiece text.now end.0 end.1) }
{
    let size = memchr3(TAB, LINE_FEED, BACKSLASH, text)?;
    Some((size, text[size]))
}
