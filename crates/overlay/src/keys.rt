// The keys of rows, and which of them come first.
ghost use Rattle.std.specs.Prelude.{◌≡◌, ◌↔◌, ◌<◌, ◌≤◌, ℕ, List, IfOk, IsTrue, length};
ghost use Rattle.dict_value.specs.FindByKey.{HasKeyAt};
ghost use Rattle.dict_value.specs.declared.value.AttrType.{AttrType};
ghost use Rattle.dict_value.specs.declared.value.Value.{Value};
ghost use Rattle.hashed_layout.specs.KeyTables.{IsKeyTableOf};
ghost use Rattle.overlay.specs.Overlays.{HaveTypes, IsFirst, keys_of};
ghost use Rattle.overlay.specs.steps.Standing.{IsFirstBehind};

use dict_value::{KeyList, ListOf, NoMemory};
use hashed_layout::Complex;
use packed_rows::{Rows, value_of};
use std::alloc::Global;

/// The key of a row.
fn key_at(alloc: Global, rows: &Rows, place: usize, keys: usize) -> Result<KeyList, NoMemory>
    requires within { place < length rows.now }
    requires wide { (types : List AttrType) × HaveTypes types rows.now × (keys ≤ length types) }
    ensures { IfOk result (λ key. HasKeyAt (keys_of keys rows.now) key place) }
{
    let mut key = ListOf::with_room(alloc, keys)?;
    for column in 0..keys {
        key.push(value_of(alloc, &rows.cell(place, column))?)?;
    }
    Ok(key)
}

/// The key of each row.
pub(crate) fn keys_of(alloc: Global, rows: &Rows, keys: usize) -> Result<ListOf<KeyList>, NoMemory>
    requires wide { (types : List AttrType) × HaveTypes types rows.now × (keys ≤ length types) }
    ensures { IfOk result (λ list. list ≡ keys_of keys rows.now) }
{
    let mut list = ListOf::with_room(alloc, rows.len())?;
    for place in 0..rows.len() {
        list.push(key_at(alloc, rows, place, keys)?)?;
    }
    Ok(list)
}

/// Whether the key at a place has no earlier place.
pub(crate) fn is_first(table: &Complex, keys: &[KeyList], place: usize) -> bool
    requires table { IsKeyTableOf keys.now table.now.bytes table.now.entries table.now.cells.items }
    requires within { place < length keys.now }
    ensures { IsTrue result ↔ IsFirst keys.now place }
{
    match table.find(&keys[place]) {
        Some(least) => least as usize == place,
        None => false,
    }
}

/// Whether the key at a place is none of the other table, and has no earlier place.
pub(crate) fn is_first_behind(
    others: &Complex,
    table: &Complex,
    keys: &[KeyList],
    place: usize,
) -> bool
    requires table { IsKeyTableOf keys.now table.now.bytes table.now.entries table.now.cells.items }
    requires within { place < length keys.now }
    ensures { (list : List (List Value))
        → IsKeyTableOf list others.now.bytes others.now.entries others.now.cells.items
        → (IsTrue result ↔ IsFirstBehind list keys.now place) }
{
    if others.has(&keys[place]) {
        return false;
    }
    is_first(table, keys, place)
}
