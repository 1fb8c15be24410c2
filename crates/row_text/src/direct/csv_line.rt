// Rows of CSV without quotes, text by text where they lie.
ghost use Rattle.std.specs.Prelude.{◌≡◌, ◌<◌, [], length, IfSome};
ghost use Rattle.dict_value.specs.declared.value.Format.TheVariants.{Csv};
ghost use Rattle.dict_value.specs.declared.value.TheConstants.{MOST_ROWS};
ghost use Rattle.row_text.specs.Fitting.{AllFit};
ghost use Rattle.row_text.specs.steps.DirectSteps.{BeginsWithRow, EndsText, HasTextsTaken};

use super::push_piece;
use crate::columns::Columns;
use crate::csv_row::{MARK, plain_len};
use dict_value::letters::{COMMA, LINE_FEED};
use packed_rows::RowsBuilder;
use std::alloc::Global;

/// Adds the values of the first line of a text to the open row, where the line isn't empty, has no quote and no
/// carriage return, and doesn't begin as a byte order mark does.
#[inline]
pub(super) fn push_line<C: Columns>(
    alloc: Global,
    columns: &C,
    text: &[u8],
    rows: &mut RowsBuilder,
) -> Option<usize>
    requires fit { AllFit (C.columns columns.now) (C.types columns.now) }
    requires types { rows.old.types ≡ C.types columns.now }
    requires none { rows.old.open_row ≡ [] }
    requires few { length rows.old.rows < MOST_ROWS }
    ensures types { rows.new.types ≡ rows.old.types }
    ensures rows { rows.new.rows ≡ rows.old.rows }
    ensures row { IfSome result (λ size. BeginsWithRow Csv (C.columns columns.now) text.now size rows.new.open_row) }
{
    if text.is_empty() || text[0] == MARK {
        return None;
    }
    let count = columns.count();
    let mut at = 0;
    for place in 0..count {
        let left = &text[at..];
        let (size, end) = text_end(left)?;
        push_piece(alloc, columns, place, &left[..size], rows)?;
        if end != COMMA {
            if place + 1 < count || end != LINE_FEED || at + size == 0 {
                return None;
            }
            return Some(at + size + 1);
        }
        at += size + 1;
    }
    None
}

/// Where the first comma, quote or line end of a text stands, and which of them it is.
#[inline(always)]
fn text_end(text: &[u8]) -> Option<(usize, u8)>
    ensures { IfSome result (λ end. EndsText text.now end.0 end.1) }
{
    let size = plain_len(text);
    if size == text.len() {
        return None;
    }
    Some((size, text[size]))
}
