// Rows that are built cell by cell.
ghost use Rattle.std.specs.Prelude.{◌≡◌, ◌<◌, ◌≤◌, ◌+◌, ◌++◌, ◌∷◌, [], true, length, map, Some, slice_get, IfOk};
ghost use Rattle.std.specs.Prelude.{OnOk, OnErr, FitsSigned};
ghost use Rattle.std.specs.Int.{cast_unsigned};
ghost use Rattle.dict_value.specs.declared.value.AttrType.{AttrType};
ghost use Rattle.dict_value.specs.Values.{FitsColumn};
ghost use Rattle.packed_rows.specs.Cells.{meaning};
ghost use Rattle.packed_rows.specs.Columns.{FrontHasCells, HasCells, cut, cut_front, grown, is_null, is_text};
ghost use Rattle.packed_rows.specs.Columns.{number_of, signed_width, text_of_value};
ghost use Rattle.packed_rows.specs.Widths.{limit_of, cell_width};

use crate::bits::Bits;
use crate::cell::Cell;
use crate::column::{Column, bytes_in, push_number, width_of};
use crate::rows::{Rows, row_start};
use dict_value::{AttrType, Bytes, ColType, NoMemory};
use std::alloc::Global;
use std::marker::Model;

/// Rows so far, and the first values of a row that is still open.
#[derive(Drop)]
pub struct RowsBuilder {
    columns: Vec<Column>,
    text: Bytes,
    rows: usize,
    place: usize,
}

impl Model for RowsBuilder {
    ghost use Rattle.packed_rows.specs.Packs.{Building, Packs, building};

    ghost Value = { Building };

    ghost view = { λ b. building b.columns.items b.text b.rows b.place };

    ghost invariant = { λ b. Packs b.columns.items b.text b.rows b.place };
}

fn is_text(t: ColType) -> bool
    ensures { result ≡ is_text t }
{
    matches!(t, ColType::Str)
}

/// The number that is kept of a signed value, in two's complement.
#[inline(always)]
fn signed_number(z: i64, t: ColType) -> u64
    requires { FitsSigned (signed_width t) z }
    ensures { result ≡ cast_unsigned (signed_width t) z }
{
    match t {
        ColType::Int8 => u64::from((z as i8).cast_unsigned()),
        ColType::Int16 => u64::from((z as i16).cast_unsigned()),
        ColType::Int32 => u64::from((z as i32).cast_unsigned()),
        _ => z.cast_unsigned(),
    }
}

/// The number that is kept of a cell, given where the text ends behind it.
#[inline(always)]
fn number_of(cell: &Cell<'_>, ty: AttrType, end: u64) -> u128
    requires { FitsColumn ty (meaning cell.now) }
    ensures { result ≡ number_of ty.base end (meaning cell.now) }
{
    match *cell {
        Cell::U(n) => u128::from(n),
        Cell::I(z) => u128::from(signed_number(z, ty.base)),
        Cell::S(_) => u128::from(end),
        Cell::Day(n) => u128::from(n),
        Cell::Second(n) => u128::from(n),
        Cell::Id(n) => n,
        Cell::V4(n) => u128::from(n),
        Cell::V6(n) => n,
        Cell::Dec(z) => z.cast_unsigned(),
        Cell::Null => { if is_text(ty.base) { u128::from(end) } else { 0 } }
    }
}

#[inline(always)]
fn is_null(cell: &Cell<'_>) -> bool
    ensures { result ≡ is_null (meaning cell.now) }
{
    matches!(*cell, Cell::Null)
}

/// No bytes, with room for so many where there is memory for them.
fn room_for(alloc: Global, count: usize) -> Bytes
    ensures { result ≡ [] }
{
    if count == 0 {
        return Bytes::new(alloc);
    }
    match Bytes::with_room(alloc, count) {
        Ok(bytes) => bytes,
        Err(_) => Bytes::new(alloc),
    }
}

/// The same bytes, without their spare room where that is more than they are.
fn fitted(bytes: Bytes) -> Bytes
    ensures { result ≡ bytes }
{
    let mut items = bytes.into_vec();
    if items.capacity() / 2 > items.len() {
        items.shrink_to_fit();
    }
    Bytes::from_vec(items)
}

/// A column without a cell, with room for so many.
fn empty_column(alloc: Global, ty: AttrType, rows: usize) -> Column
    ensures { (result.ty ≡ ty) × (result.cells ≡ []) × (result.nulls ≡ []) }
{
    Column {
        ty,
        cells: room_for(alloc, rows.saturating_mul(bytes_in(width_of(ty.base)))),
        nulls: Bits::new(alloc),
    }
}

/// Whether a type is that of a text.
fn has_text(types: &[AttrType]) -> bool {
    types.iter().any(|ty| is_text(ty.base))
}

/// Appends the text of a String.
#[inline(always)]
fn push_text(text: &mut Bytes, cell: &Cell<'_>) -> Result<(), NoMemory>
    ensures ok { OnOk result (text.new ≡ text.old ++ text_of_value (meaning cell.now)) }
    ensures err { OnErr result (text.new ≡ text.old) }
{
    match *cell {
        Cell::S(piece) => text.extend(piece),
        _ => Ok(()),
    }
}

/// Adds a cell to a column.
#[inline(always)]
fn grow(column: &mut Column, n: u128, null: bool) -> Result<(), NoMemory>
    requires fits { n < limit_of (cell_width column.old.ty.base) }
    requires few { column.old.ty.nullable ≡ true → length column.old.nulls < 4294967295 }
    ensures ok { OnOk result (column.new ≡ grown column.old n null) }
    ensures err { OnErr result (column.new ≡ column.old) }
{
    let before = column.cells.len();
    push_number(&mut column.cells, width_of(column.ty.base), n)?;
    if column.ty.nullable && column.nulls.push(null).is_err() {
        column.cells.truncate(before);
        return Err(NoMemory);
    }
    Ok(())
}

/// Keeps a column's first cells.
fn cut(column: &mut Column, count: usize)
    requires { HasCells column.old count }
    ensures { column.new ≡ cut count column.old }
{
    let _have = column.cells.len();
    column
        .cells
        .truncate(count * bytes_in(width_of(column.ty.base)));
    if column.ty.nullable {
        column.nulls.truncate(count);
    }
}

/// Keeps the first cells of the first columns.
fn cut_front(columns: &mut Vec<Column>, count: usize, before: usize)
    requires within { before ≤ length columns.old.items }
    requires cells { FrontHasCells columns.old.items count before }
    ensures { columns.new.items ≡ cut_front count before columns.old.items }
{
    for place in 0..before {
        cut(&mut columns[place], count);
    }
}

impl RowsBuilder {
    ghost use Rattle.packed_rows.specs.Packs.{building};

    /// No rows of columns of these types.
    pub fn new(alloc: Global, types: &[AttrType]) -> Result<RowsBuilder, NoMemory>
        ensures { IfOk result (λ b. (b.types ≡ types.now) × (b.rows ≡ []) × (b.open_row ≡ [])) }
    {
        RowsBuilder::with_room(alloc, types, 0, 0)
    }

    /// The same with room for so many rows, whose texts have so many bytes, where there is memory for them.
    pub fn with_room(
        alloc: Global,
        types: &[AttrType],
        rows: usize,
        text: usize,
    ) -> Result<RowsBuilder, NoMemory>
        ensures { IfOk result (λ b. (b.types ≡ types.now) × (b.rows ≡ []) × (b.open_row ≡ [])) }
    {
        let mut columns = Vec::new(alloc);
        for ty in types {
            match columns.push(empty_column(alloc, *ty, rows)) {
                Ok(()) => {}
                Err(_) => return Err(NoMemory),
            }
        }
        Ok(RowsBuilder {
            columns,
            text: room_for(alloc, if has_text(types) { text } else { 0 }),
            rows: 0,
            place: 0,
        })
    }

    /// How many rows there are, without the open one.
    pub fn row_count(&self) -> usize
        ensures { result ≡ length self.now.rows }
    {
        self.rows
    }

    /// Adds a value to the open row; after `NoMemory` all is as it was.
    #[inline(always)]
    pub fn push_cell(&mut self, cell: &Cell<'_>) -> Result<(), NoMemory>
        requires room { length self.old.open_row < length self.old.types }
        requires few { length self.old.rows < 4294967295 }
        requires fits { (t : AttrType) → slice_get self.old.types (length self.old.open_row) ≡ Some t
            → FitsColumn t (meaning cell.now) }
        ensures ok { OnOk result
            (self.new ≡ record self.old { open_row = self.old.open_row ++ meaning cell.now ∷ [] }) }
        ensures err { OnErr result (self.new ≡ self.old) }
    {
        let before = self.text.len();
        push_text(&mut self.text, cell)?;
        let end = self.text.len() as u64;
        let column = &mut self.columns[self.place];
        let number = number_of(cell, column.ty, end);
        if grow(column, number, is_null(cell)).is_err() {
            self.text.truncate(before);
            return Err(NoMemory);
        }
        self.place += 1;
        Ok(())
    }

    /// Drops the values of the open row. The rows stay as they are.
    pub fn drop_open_row(&mut self)
        ensures { self.new ≡ record self.old { open_row = [] } }
    {
        let start = row_start(self.columns.as_slice(), self.rows);
        self.text.truncate(start as usize);
        cut_front(&mut self.columns, self.rows, self.place);
        self.place = 0;
    }

    /// Ends the open row, which has a value for each column.
    #[inline]
    pub fn end_row(&mut self)
        requires whole { length self.old.open_row ≡ length self.old.types }
        requires few { length self.old.rows < 4294967295 }
        ensures { self.new ≡ record self.old { rows = self.old.rows ++ self.old.open_row ∷ []; open_row = [] } }
    {
        self.place = 0;
        self.rows += 1;
    }

    /// The rows, where none is open.
    pub fn finish(self) -> Rows
        requires { self.open_row ≡ [] }
        ensures { result ≡ self.rows }
    {
        let RowsBuilder {
            columns,
            text,
            rows,
            place: _,
        } = self;
        Rows {
            columns,
            text: fitted(text),
            count: rows,
        }
    }
}
