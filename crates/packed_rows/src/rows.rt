// Whole rows, which no call changes.
ghost use Rattle.std.specs.Prelude.{◌≡◌, ◌<◌, ◌≤◌, ◌+◌, ◌*◌, true, length, min, take};
ghost use Rattle.packed_rows.specs.Packs.{column_size, stored_size};
ghost use Rattle.packed_rows.specs.Cells.{meaning};
ghost use Rattle.packed_rows.specs.Columns.{HaveCells, IsHeld, between, is_text, number_value, end_in, null_in};
ghost use Rattle.packed_rows.specs.Columns.{row_end, start_of, value_in};
ghost use Rattle.packed_rows.specs.Widths.{width_bytes, limit_of, nat_at, cell_width};

use crate::bits::bytes_for;
use crate::cell::Cell;
use crate::column::{CellWidth, Column, bytes_in, number_at, width_of};
use dict_value::{AttrType, Bytes, ColType};
use std::marker::Model;

/// Rows of values.
#[derive(Drop)]
pub struct Rows {
    pub(crate) columns: Vec<Column>,
    pub(crate) text: Bytes,
    pub(crate) count: usize,
}

impl Model for Rows {
    ghost use Rattle.packed_rows.specs.Columns.{RowList, rows_in};
    ghost use Rattle.packed_rows.specs.Packs.{Packs};

    ghost Value = { RowList };

    ghost view = { λ r. rows_in r.columns.items r.text r.count };

    ghost invariant = { λ r. Packs r.columns.items r.text r.count 0 };
}

impl Rows {
    ghost use Rattle.std.specs.Prelude.{◌≡◌, length, Some, IsSome};
    ghost use Rattle.packed_rows.specs.Cells.{meaning};
    ghost use Rattle.std.specs.Option.{option_map};
    ghost use Rattle.packed_rows.specs.Columns.{cell_at};
    ghost use Rattle.packed_rows.specs.Packs.{stored_size};
    ghost use Rattle.std.specs.Prelude.{min};

    /// How many rows there are.
    pub fn len(&self) -> usize
        ensures { result ≡ length self.now }
    {
        self.count
    }

    /// How many bytes the rows take by these types, which are those of their columns: for each column
    /// its cells and, where it may hold NULL, a bit for each row; and all texts once. At most the
    /// greatest number of 64 bits is told.
    pub fn stored(&self, types: &[AttrType]) -> u64
        ensures { result ≡ min (stored_size types.now self.now) u64.MAX }
    {
        let mut size = self.text.len() as u64;
        for ty in types {
            size = size.saturating_add(column_size(self.count, *ty));
        }
        size
    }

    /// The value at a row and a column, if they exist.
    pub fn get(&self, place: usize, column: usize) -> Option<Cell<'_>>
        ensures { option_map meaning result ≡ cell_at self.now place column }
    {
        if place >= self.count {
            return None;
        }
        if column >= self.columns.as_slice().len() {
            return None;
        }
        Some(self.cell(place, column))
    }

    /// The value at a row and a column, where it lies.
    pub fn cell(&self, place: usize, column: usize) -> Cell<'_>
        requires { IsSome (cell_at self.now place column) }
        ensures { cell_at self.now place column ≡ Some (meaning result) }
    {
        let here = &self.columns[column];
        match here.ty.base {
            ColType::Str => {
                let start = text_start(self.columns.as_slice(), column, place);
                cell_in(here, self.text.as_slice(), place, start)
            }
            _ => cell_in(here, self.text.as_slice(), place, 0),
        }
    }
}

/// How many bytes so many rows take in a column, up to the greatest number of 64 bits.
fn column_size(count: usize, ty: AttrType) -> u64
    ensures { result ≡ min (column_size count ty) u64.MAX }
{
    let cells = (count as u64).saturating_mul(bytes_in(width_of(ty.base)) as u64);
    let bits = if ty.nullable {
        bytes_for(count) as u64
    } else {
        0
    };
    cells.saturating_add(bits)
}

/// Whether the cell at a row is NULL.
#[inline]
#[tactic(auto, unfolding(crate::specs::Columns::null_in))]
fn is_null_at(column: &Column, place: usize) -> bool
    requires { column.now.ty.nullable ≡ true → place < length column.now.nulls }
    ensures { result ≡ null_in column.now place }
{
    column.ty.nullable && column.nulls.at(place)
}

/// The cell at a row, given where its text starts.
#[inline]
fn cell_in<'a>(column: &Column, text: &'a [u8], place: usize, start: u64) -> Cell<'a>
    requires { IsHeld column.now place (length text.now) }
    ensures { meaning result ≡ value_in column.now text.now place start }
{
    if is_null_at(column, place) {
        return Cell::Null;
    }
    let n = number_at(column.cells.as_slice(), width_of(column.ty.base), place);
    match column.ty.base {
        ColType::Str => Cell::S(piece(text, start, n as u64)),
        base => number_cell(base, n),
    }
}

/// The bytes between two places.
fn piece(text: &[u8], start: u64, end: u64) -> &[u8]
    requires { end ≤ length text.now }
    ensures { result.now ≡ between start end text.now }
{
    if end <= start {
        &text[..0]
    } else {
        &text[start as usize..end as usize]
    }
}

/// The value of a type that isn't String, from its number.
#[inline]
#[tactic(auto, unfolding(crate::specs::Widths::limit_of))]
fn number_cell<'a>(t: ColType, n: u128) -> Cell<'a>
    requires { n < limit_of (cell_width t) }
    ensures { meaning result ≡ number_value t n }
{
    match t {
        ColType::Int8 => Cell::I(i64::from((n as u8).cast_signed())),
        ColType::Int16 => Cell::I(i64::from((n as u16).cast_signed())),
        ColType::Int32 => Cell::I(i64::from((n as u32).cast_signed())),
        ColType::Int64 => Cell::I((n as u64).cast_signed()),
        ColType::Date => Cell::Day(n as u16),
        ColType::DateTime => Cell::Second(n as u32),
        ColType::Ipv4 => Cell::V4(n as u32),
        ColType::Uuid => Cell::Id(n),
        ColType::Ipv6 => Cell::V6(n),
        ColType::Decimal(_, _) => Cell::Dec(n.cast_signed()),
        _ => Cell::U(n as u64),
    }
}

/// Where the text at a row and a column starts.
fn text_start(columns: &[Column], column: usize, place: usize) -> u64
    requires cells { HaveCells columns.now (place + 1) }
    requires within { column ≤ length columns.now }
    ensures { result ≡ row_end (take column columns.now) place (start_of columns.now place) }
{
    let start = row_start(columns, place);
    text_end(&columns[..column], place, start)
}

/// Where the texts of a row start.
pub(crate) fn row_start(columns: &[Column], place: usize) -> u64
    requires { HaveCells columns.now place }
    ensures { result ≡ start_of columns.now place }
{
    if place == 0 {
        return 0;
    }
    text_end(columns, place - 1, 0)
}

/// Where the texts of a row end, in these columns.
fn text_end(columns: &[Column], place: usize, start: u64) -> u64
    requires { HaveCells columns.now (place + 1) }
    ensures { result ≡ row_end columns.now place start }
{
    let mut end = start;
    for column in columns {
        end = cell_end(column, place, end);
    }
    end
}

/// Where the text of a cell ends, given where it starts.
#[tactic(auto, unfolding(crate::specs::Columns::end_in, crate::specs::Widths::limit_of))]
fn cell_end(column: &Column, place: usize, start: u64) -> u64
    requires { (place + 1) * width_bytes (cell_width column.now.ty.base) ≤ length column.now.cells }
    ensures { result ≡ end_in column.now place start }
{
    match column.ty.base {
        ColType::Str => number_at(column.cells.as_slice(), CellWidth::Eight, place) as u64,
        _ => start,
    }
}
