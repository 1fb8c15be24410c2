// The rows of an overlay, new ones first.
ghost use Rattle.std.specs.Prelude.{◌≡◌, ◌+◌, ◌<◌, ◌≤◌, ◌++◌, ◌∷◌, [], List, IfOk, OnOk, length};
ghost use Rattle.dict_value.specs.declared.value.TheConstants.{MOST_ROWS};
ghost use Rattle.dict_value.specs.declared.value.Value.{Value};
ghost use Rattle.hashed_layout.specs.KeyTables.{IsKeyTableOf};
ghost use Rattle.packed_rows.specs.Columns.{RowList};
ghost use Rattle.overlay.specs.Overlays.{HaveTypes, Overlay};
ghost use Rattle.overlay.specs.steps.Standing.{AddsRowAt, IsBetween, StandTo};

use crate::keys::{is_first, is_first_behind, keys_of};
use dict_value::{AttrType, KeyList, MOST_ROWS, NoMemory};
use hashed_layout::Complex;
use packed_rows::{Rows, RowsBuilder};
use std::alloc::Global;

/// Adds the row at a place.
fn push_row(
    out: &mut RowsBuilder,
    types: &[AttrType],
    rows: &Rows,
    place: usize,
) -> Result<(), NoMemory>
    requires between { IsBetween types.now out.old }
    requires few { length out.old.rows < 4294967295 }
    requires fit { HaveTypes types.now rows.now }
    requires within { place < length rows.now }
    ensures { OnOk result (AddsRowAt out.old rows.now place out.new) }
{
    for column in 0..types.len() {
        out.push_cell(&rows.cell(place, column))?;
    }
    out.end_row();
    Ok(())
}

/// Adds the new rows whose key has no earlier one.
fn push_new(
    out: &mut RowsBuilder,
    types: &[AttrType],
    rows: &Rows,
    keys: &[KeyList],
    table: &Complex,
) -> Result<(), NoMemory>
    requires between { IsBetween types.now out.old }
    requires none { out.old.rows ≡ [] }
    requires fit { HaveTypes types.now rows.now }
    requires few { length rows.now ≤ MOST_ROWS }
    requires table { IsKeyTableOf keys.now table.now.bytes table.now.entries table.now.cells.items }
    requires keys { length keys.now ≡ length rows.now }
    ensures between { OnOk result (IsBetween types.now out.new) }
    ensures few { OnOk result (length out.new.rows ≤ length rows.now) }
    ensures stand { OnOk result ((later : List (List Value)) (more : RowList) →
        StandTo (keys.now ++ later) (rows.now ++ more) (length rows.now) out.new.rows) }
{
    for place in 0..rows.len() {
        if is_first(table, keys, place) {
            push_row(out, types, rows, place)?;
        }
    }
    Ok(())
}

/// Adds the former rows whose key is none of the others and has no earlier one.
fn push_former(
    out: &mut RowsBuilder,
    types: &[AttrType],
    rows: &Rows,
    keys: &[KeyList],
    table: &Complex,
    others: &Complex,
) -> Result<(), NoMemory>
    requires between { IsBetween types.now out.old }
    requires room { length out.old.rows ≤ MOST_ROWS }
    requires fit { HaveTypes types.now rows.now }
    requires few { length rows.now ≤ MOST_ROWS }
    requires table { IsKeyTableOf keys.now table.now.bytes table.now.entries table.now.cells.items }
    requires keys { length keys.now ≡ length rows.now }
    ensures between { OnOk result (IsBetween types.now out.new) }
    ensures stand { OnOk result ((before : List (List Value)) (first : RowList) → length before ≡ length first
        → IsKeyTableOf before others.now.bytes others.now.entries others.now.cells.items
        → StandTo (before ++ keys.now) (first ++ rows.now) (length first) out.old.rows
        → StandTo (before ++ keys.now) (first ++ rows.now) (length first + length rows.now) out.new.rows) }
{
    for place in 0..rows.len() {
        if is_first_behind(others, table, keys, place) {
            push_row(out, types, rows, place)?;
        }
    }
    Ok(())
}

/// The same rows once more. They have values of these types, and there are at most `MOST_ROWS` of them.
pub fn copy_rows(alloc: Global, types: &[AttrType], rows: &Rows) -> Result<Rows, NoMemory>
    requires fit { HaveTypes types.now rows.now }
    requires few { length rows.now ≤ MOST_ROWS }
    ensures { IfOk result (λ copy. copy ≡ rows.now) }
{
    let text = rows.stored(&[]) as usize;
    let mut out = RowsBuilder::with_room(alloc, types, rows.len(), text)?;
    for place in 0..rows.len() {
        push_row(&mut out, types, rows, place)?;
    }
    Ok(out.finish())
}

/// Lays fresh rows over the former ones: of the fresh rows followed by the former ones, those whose key,
/// their first `keys` values, has no earlier row there. All rows have values of these types, and neither
/// list has more than `MOST_ROWS` of them.
pub fn overlay(
    alloc: Global,
    types: &[AttrType],
    keys: u32,
    former: &Rows,
    fresh: &Rows,
) -> Result<Rows, NoMemory>
    requires keys { (1 ≤ keys) × (keys ≤ length types.now) }
    requires former { HaveTypes types.now former.now × (length former.now ≤ MOST_ROWS) }
    requires fresh { HaveTypes types.now fresh.now × (length fresh.now ≤ MOST_ROWS) }
    ensures { IfOk result (Overlay keys former.now fresh.now) }
{
    let former_keys = keys_of(alloc, former, keys as usize)?;
    let fresh_keys = keys_of(alloc, fresh, keys as usize)?;
    let former_table = Complex::build(alloc, former_keys.as_slice())?;
    let fresh_table = Complex::build(alloc, fresh_keys.as_slice())?;
    let mut out = RowsBuilder::with_room(alloc, types, former.len().max(fresh.len()), 0)?;
    push_new(&mut out, types, fresh, fresh_keys.as_slice(), &fresh_table)?;
    push_former(
        &mut out,
        types,
        former,
        former_keys.as_slice(),
        &former_table,
        &fresh_table,
    )?;
    Ok(out.finish())
}
