// Replies from fetched rows, from plain data.
ghost use Rattle.std.specs.Prelude.{All, IfOk, IsTrue};
ghost use Rattle.std.specs.List.{AllZip};
ghost use Rattle.cache_layout.specs.Fetching.{FitsReply};
ghost use Rattle.dict_schema.specs.Parts.{is_keyed_layout};
ghost use Rattle.dict_schema.specs.Sound.{IsSound};
ghost use Rattle.dict_value.specs.Values.{FitsColumn};
ghost use Rattle.dict_functions.specs.Asking.{IsLookup};

use crate::tests::making::{Asking, Cells, Sketch, definition_of, is_sound, is_text, lookup_of};
use crate::{answer_keyed, keys_of};
use dict_schema::{Definition, ShapeColumn, is_keyed, keyed_shape};
use dict_value::{Fetched, FetchedRow, ListOf, MaybeRow, NoMemory, Row, Value, fits_column};
use packed_rows::{Cell, value_of};
use std::alloc::Global;
use std::test::Fail;
use wire_text::{Asked, Reply};

/// The moment of a fetch, and the cells of the row that it gave, if there is one.
pub(super) type Given = (u64, Option<Cells>);

/// A definition, and what is asked of it at moments, with what was fetched for the keys.
pub(super) struct Fetching {
    pub sketch: Sketch,
    pub asked: &'static [(u64, Asking, &'static [Given])],
}

/// The definition of a sketch whose rows are fetched by key.
pub(super) fn keyed_definition(alloc: Global, sketch: &Sketch) -> Result<Definition, Fail>
    ensures { IfOk result (λ d. IsSound d × IsTrue (is_keyed_layout d.layout)) }
{
    let d = definition_of(alloc, sketch)?;
    if !is_sound(&d) || !is_keyed(&d) {
        return Err("no definition whose rows are fetched".into());
    }
    Ok(d)
}

/// A value that fits its column.
fn fitting_value(
    alloc: Global,
    column: &ShapeColumn,
    cell: &Cell<'static>,
) -> Result<Value, NoMemory>
    ensures { IfOk result (FitsColumn column.now.ty) }
{
    let value = value_of(alloc, cell)?;
    if !fits_column(&column.ty, &value) {
        return Err(NoMemory);
    }
    Ok(value)
}

/// A row of cells that fit their columns.
fn row_of(alloc: Global, shape: &[ShapeColumn], cells: &[Cell<'static>]) -> Result<Row, NoMemory>
    ensures { IfOk result (AllZip (λ column v. FitsColumn column.ty v) shape.now) }
{
    if cells.len() != shape.len() {
        return Err(NoMemory);
    }
    let mut row = ListOf::new(alloc);
    for place in 0..shape.len() {
        row.push(fitting_value(alloc, &shape[place], &cells[place])?)?;
    }
    Ok(row)
}

/// A row that may have been fetched.
fn maybe_row(alloc: Global, d: &Definition, cells: Option<Cells>) -> Result<MaybeRow, NoMemory>
    ensures { IfOk result (FitsReply d.now) }
{
    let Some(cells) = cells else {
        return Ok(MaybeRow::Absent);
    };
    let shape = keyed_shape(alloc, d)?;
    Ok(MaybeRow::Present(row_of(alloc, shape.as_slice(), cells)?))
}

/// Rows that may have been fetched.
fn fetched_of(alloc: Global, d: &Definition, given: &[Given]) -> Result<Fetched, NoMemory>
    ensures { IfOk result (All (λ fetched. FitsReply d.now fetched.row)) }
{
    let mut rows = ListOf::new(alloc);
    for (moment, cells) in given {
        rows.push(FetchedRow {
            moment: *moment,
            row: maybe_row(alloc, d, *cells)?,
        })?;
    }
    Ok(rows)
}

/// The reply to a lookup at a moment, if just this is fetched for its keys.
pub(super) fn keyed_reply(
    alloc: Global,
    d: &Definition,
    q: &Asked,
    now: u64,
    given: &[Given],
) -> Result<Reply, Fail>
    requires lookup { IsLookup q.now }
    requires sound { IsSound d.now }
    requires keyed { IsTrue (is_keyed_layout d.now.layout) }
{
    let keys = match keys_of(alloc, d, q) {
        Ok(keys) => keys,
        Err(fault) => return Ok(Reply::Refused(fault)),
    };
    let rows = fetched_of(alloc, d, given)?;
    if rows.len() != keys.len() {
        return Err("another number of rows than of keys".into());
    }
    Ok(answer_keyed(alloc, d, q, now, &rows))
}

/// The place of the first request that is answered otherwise.
pub(super) fn first_wrong(alloc: Global, fetching: &Fetching) -> Result<Option<usize>, Fail> {
    let d = keyed_definition(alloc, &fetching.sketch)?;
    for (place, (now, (first, more, wanted), given)) in fetching.asked.iter().enumerate() {
        let asked = lookup_of(alloc, first, more)?;
        let reply = keyed_reply(alloc, &d, &asked, *now, given)?;
        if !is_text(alloc, &reply, wanted)? {
            return Ok(Some(place));
        }
    }
    Ok(None)
}
