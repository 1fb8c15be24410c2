// The columns of rows that an index is made of.
ghost use Rattle.std.specs.Prelude.{◌≡◌, ◌≤◌, ◌<◌, ℕ, List, Some, IfOk, IsTrue, MatchOption, filter, length, map};
ghost use Rattle.std.specs.Prelude.{slice_get, take};
ghost use Rattle.std.specs.List.{range_with_len};
ghost use Rattle.std.specs.Option.{option_map};
ghost use Rattle.dict_schema.specs.Parts.{is_attribute};
ghost use Rattle.dict_schema.specs.Shapes.{shape_column, shape_of};
ghost use Rattle.dict_schema.specs.Sound.{IsSound};
ghost use Rattle.dict_schema.specs.declared.definition.Column.{Column as ColumnOf};
ghost use Rattle.dict_schema.specs.declared.definition.Role.TheVariants.{Attribute};
ghost use Rattle.dict_value.specs.declared.value.Value.{Value as ValueOf};
ghost use Rattle.dict_version.specs.Keys.{NamesParent, attribute_place, end_count, range_end, is_numbered, key_number};
ghost use Rattle.dict_version.specs.Keys.{numbers_of, parent_in, range_behind, text_in, key_texts};
ghost use Rattle.packed_rows.specs.Cells.{meaning};

use dict_schema::{Definition, Layout, RangeOf, is_attribute};
use dict_value::{Bytes, KeyList, ListOf, NoMemory};
use hier::Parent;
use packed_rows::{Cell, Rows, value_of};
use range_layout::{End, Ends};
use std::alloc::Global;

/// The number that a cell is.
fn number_in(cell: Option<Cell<'_>>) -> u64
    ensures { result ≡ key_number (option_map meaning cell.entry) }
{
    match cell {
        Some(Cell::U(number)) => number,
        _ => 0,
    }
}

/// The numbers that rows begin with.
pub(crate) fn numbers_of(alloc: Global, rows: &Rows) -> Result<Vec<u64>, NoMemory>
    ensures { IfOk result (λ numbers. numbers.items ≡ numbers_of rows.now) }
{
    let Ok(mut numbers) = Vec::with_capacity(alloc, rows.len()) else {
        return Err(NoMemory);
    };
    for place in 0..rows.len() {
        if numbers.push(number_in(rows.get(place, 0))).is_err() {
            return Err(NoMemory);
        }
    }
    Ok(numbers)
}

/// A copy of the text that a cell is.
fn text_in(alloc: Global, cell: Option<Cell<'_>>) -> Result<Bytes, NoMemory>
    ensures { IfOk result (λ text. text ≡ text_in (option_map meaning cell.entry)) }
{
    match cell {
        Some(Cell::S(text)) => Bytes::copy_of(alloc, text),
        _ => Ok(Bytes::new(alloc)),
    }
}

/// The texts that rows begin with.
pub(crate) fn texts_of(alloc: Global, rows: &Rows) -> Result<Vec<Bytes>, NoMemory>
    ensures { IfOk result (λ texts. texts.items ≡ key_texts rows.now) }
{
    let Ok(mut texts) = Vec::with_capacity(alloc, rows.len()) else {
        return Err(NoMemory);
    };
    for place in 0..rows.len() {
        let text = text_in(alloc, rows.get(place, 0))?;
        if texts.push(text).is_err() {
            return Err(NoMemory);
        }
    }
    Ok(texts)
}

/// The first values of a row, so many.
fn first_values(alloc: Global, rows: &Rows, place: usize, count: usize) -> Result<KeyList, NoMemory>
    ensures { IfOk result (λ values. (row : List ValueOf)
        → slice_get rows.now place ≡ Some row → values ≡ take count row) }
{
    let mut values = ListOf::with_room(alloc, count)?;
    for column in 0..count {
        let Some(cell) = rows.get(place, column) else {
            return Ok(values);
        };
        values.push(value_of(alloc, &cell)?)?;
    }
    Ok(values)
}

/// The first values of each row, so many.
pub(crate) fn first_values_of(
    alloc: Global,
    rows: &Rows,
    count: usize,
) -> Result<Vec<KeyList>, NoMemory>
    ensures { IfOk result (λ lists. lists.items ≡ map (take count) rows.now) }
{
    let Ok(mut lists) = Vec::with_capacity(alloc, rows.len()) else {
        return Err(NoMemory);
    };
    for place in 0..rows.len() {
        let list = first_values(alloc, rows, place, count)?;
        if lists.push(list).is_err() {
            return Err(NoMemory);
        }
    }
    Ok(lists)
}

/// The end of a range that a cell is.
fn end_in(cell: Option<Cell<'_>>) -> End
    ensures { result ≡ range_end (option_map meaning cell.entry) }
{
    match cell {
        Some(Cell::U(number)) => End::At(i128::from(number)),
        Some(Cell::I(number)) => End::At(i128::from(number)),
        Some(Cell::Day(day)) => End::At(i128::from(day)),
        Some(Cell::Second(second)) => End::At(i128::from(second)),
        _ => End::Free,
    }
}

/// The range of each row, whose start stands in this column and whose end in the next one.
pub(crate) fn ranges_of(alloc: Global, rows: &Rows, start: usize) -> Result<Vec<Ends>, NoMemory>
    requires { start < usize.MAX }
    ensures { IfOk result (λ ranges. ranges.items ≡ map (range_behind start) rows.now) }
{
    let Ok(mut ranges) = Vec::with_capacity(alloc, rows.len()) else {
        return Err(NoMemory);
    };
    for place in 0..rows.len() {
        let range = Ends {
            low: end_in(rows.get(place, start)),
            high: end_in(rows.get(place, start + 1)),
        };
        if ranges.push(range).is_err() {
            return Err(NoMemory);
        }
    }
    Ok(ranges)
}

/// The parent that a cell names.
fn parent_in(cell: Option<Cell<'_>>) -> Parent
    ensures { result ≡ parent_in (option_map meaning cell.entry) }
{
    match cell {
        Some(Cell::U(key)) => Parent::Of(key),
        _ => Parent::Top,
    }
}

/// The parent that each row names in this column.
pub(crate) fn parents_at(alloc: Global, rows: &Rows, column: u32) -> Result<Vec<Parent>, NoMemory>
    ensures { IfOk result (λ parents. parents.items ≡ map (λ row. parent_in (slice_get row column)) rows.now) }
{
    let Ok(mut parents) = Vec::with_capacity(alloc, rows.len()) else {
        return Err(NoMemory);
    };
    for place in 0..rows.len() {
        if parents
            .push(parent_in(rows.get(place, column as usize)))
            .is_err()
        {
            return Err(NoMemory);
        }
    }
    Ok(parents)
}

/// How many columns of a row are ends of a range.
fn end_count(range: &RangeOf) -> u32
    ensures { result ≡ end_count range.now }
{
    match range {
        RangeOf::None => 0,
        RangeOf::Columns { .. } => 2,
    }
}

/// How many attributes there are before a column.
fn attributes_before(d: &Definition, column: u32) -> u32
    ensures count { result ≡ length (filter (is_attribute d.now) (range_with_len 0 column)) }
    ensures bound { result ≤ column }
{
    let mut count = 0;
    for place in 0..column {
        if is_attribute(d, place as usize) {
            count += 1;
        }
    }
    count
}

/// The place in a row of the attribute that is this column of the definition, both from 0.
pub fn attribute_place(d: &Definition, column: u32) -> u32
    requires sound { IsSound d.now }
    requires within { column < length d.now.columns }
    ensures place { result ≡ attribute_place d.now column }
    // The column of a row that stands there is this one.
    ensures there { (attribute : ColumnOf) → slice_get d.now.columns column ≡ Some attribute
        → IsTrue (is_attribute d.now column)
        → slice_get (shape_of d.now) result ≡ Some (shape_column Attribute attribute) }
{
    d.keys.len() as u32 + end_count(&d.range) + attributes_before(d, column)
}

/// Whether a layout's key is one number.
fn is_numbered(layout: &Layout) -> bool
    ensures { result ≡ is_numbered layout.now }
{
    matches!(
        layout,
        Layout::Flat { .. } | Layout::Hashed | Layout::SparseHashed | Layout::HashedArray
    )
}

/// The column of the definition that names a parent, where the layout has a hierarchy.
pub(crate) fn parent_column(d: &Definition) -> Option<u32>
    requires { length d.now.columns ≤ 64 }
    ensures { MatchOption result ((column : ℕ) → ¬ (NamesParent d.now column)) (NamesParent d.now) }
{
    if !is_numbered(&d.layout) {
        return None;
    }
    let columns = d.columns.as_slice();
    for place in 0..columns.len() {
        if columns[place].hierarchical {
            return Some(place as u32);
        }
    }
    None
}
