// A definition and its rows, and the version of both.
ghost use Rattle.std.specs.Prelude.{◌≡◌, ◌<◌, ◌≤◌, ◌∷◌, ◌++◌, All, IfOk, IfSome, OnOk, Some, [], false, length};
ghost use Rattle.std.specs.Prelude.{slice_get, ⊤};
ghost use Rattle.std.specs.List.{AllZip};
ghost use Rattle.dict_schema.specs.Parts.{is_keyed_layout};
ghost use Rattle.dict_schema.specs.Shapes.{cell_types, shape_of};
ghost use Rattle.dict_schema.specs.Sound.{IsSound};
ghost use Rattle.dict_value.specs.Values.{FitsColumn};
ghost use Rattle.dict_value.specs.declared.value.TheConstants.{MOST_ROWS};
ghost use Rattle.dict_version.specs.Rows.{TakesRows};

use crate::kinds::{self, Kind};
use crate::rows;
use ddl_text::parse_definitions;
use dict_schema::{Definition, Item, cell_type, is_keyed, shape};
use dict_value::{AttrType, ListOf, MOST_ROWS, NoMemory, Row, Uncounted, Value, fits_column};
use dict_version::Version;
use packed_rows::{Rows, RowsBuilder, cell_of};
use std::alloc::Global;
use version_slot::{Fact, PlainSlot, Publisher, Seen, Viewer};

/// A definition and its rows.
#[derive(Drop)]
pub struct Loaded {
    definition: Definition,
    rows: Rows,
}

/// The fact of a slot whose entries need none.
#[derive(Drop)]
struct NoFact;

impl Fact<Version<Uncounted>> for NoFact {
    ghost allows = { λ _ _. ⊤ };
}

fn definition_of(alloc: Global, kind: Kind) -> Option<Definition>
    ensures { IfSome result IsSound }
{
    let statement = kinds::statement(kind);
    if statement.len() > 65_536 {
        return None;
    }
    let Ok(mut items) = parse_definitions(alloc, statement) else {
        return None;
    };
    match items.pop_front() {
        Some(Item::Dictionary(definition)) => Some(definition),
        _ => None,
    }
}

/// The types of the values of a row.
fn types_of(alloc: Global, d: &Definition) -> Result<ListOf<AttrType>, NoMemory>
    ensures { IfOk result (λ types. types ≡ cell_types (shape_of d.now)) }
{
    let columns = shape(alloc, d)?;
    let mut types = ListOf::with_room(alloc, columns.len())?;
    for column in columns.as_slice() {
        types.push(cell_type(column))?;
    }
    Ok(types)
}

/// Adds a value that fits the type of its column.
fn push_fitting(rows: &mut RowsBuilder, ty: &AttrType, value: &Value) -> Result<(), NoMemory>
    requires room { length rows.old.open_row < length rows.old.types }
    requires few { length rows.old.rows < 4294967295 }
    requires typed { slice_get rows.old.types (length rows.old.open_row) ≡ Some ty.now }
    ensures types { rows.new.types ≡ rows.old.types }
    ensures rows { rows.new.rows ≡ rows.old.rows }
    ensures open { OnOk result (rows.new.open_row ≡ rows.old.open_row ++ value.now ∷ []) }
    ensures fits { OnOk result (FitsColumn ty.now value.now) }
{
    if !fits_column(ty, value) {
        return Err(NoMemory);
    }
    rows.push_cell(&cell_of(value))
}

/// Adds a row of values that fit their columns.
fn push_row(rows: &mut RowsBuilder, types: &[AttrType], row: &Row) -> Result<(), NoMemory>
    requires types { rows.old.types ≡ types.now }
    requires none { rows.old.open_row ≡ [] }
    requires fit { All (AllZip FitsColumn types.now) rows.old.rows }
    ensures types { rows.new.types ≡ types.now }
    ensures none { OnOk result (rows.new.open_row ≡ []) }
    ensures fit { All (AllZip FitsColumn types.now) rows.new.rows }
{
    if rows.row_count() >= MOST_ROWS || row.len() != types.len() {
        return Err(NoMemory);
    }
    for place in 0..types.len() {
        push_fitting(rows, &types[place], &row.as_slice()[place])?;
    }
    rows.end_row();
    Ok(())
}

/// So many rows of a kind.
fn rows_of(alloc: Global, types: &[AttrType], kind: Kind, count: u32) -> Result<Rows, NoMemory>
    ensures { IfOk result (All (AllZip FitsColumn types.now)) }
{
    let room = count as usize;
    let mut made = RowsBuilder::with_room(alloc, types, room, room.saturating_mul(10))?;
    for row in 0..count {
        push_row(&mut made, types, &rows::row_of(alloc, kind, row)?)?;
    }
    Ok(made.finish())
}

/// A definition with so many rows, or nothing where there is no memory or the rows are too many.
pub fn loaded_of(alloc: Global, kind: Kind, count: u32) -> Option<Loaded>
    ensures { IfSome result (λ loaded. IsSound loaded.definition × TakesRows loaded.definition loaded.rows
        × (is_keyed_layout loaded.definition.layout ≡ false) × (length loaded.rows ≤ MOST_ROWS)) }
{
    let definition = definition_of(alloc, kind)?;
    if is_keyed(&definition) {
        return None;
    }
    let types = types_of(alloc, &definition).ok()?;
    let rows = rows_of(alloc, types.as_slice(), kind, count).ok()?;
    if rows.len() > MOST_ROWS {
        return None;
    }
    Some(Loaded { definition, rows })
}

/// The version of rows, or nothing where the layout doesn't take them.
pub fn build(alloc: Global, loaded: Loaded) -> Option<Version<Uncounted>>
    requires sound { IsSound loaded.definition }
    requires takes { TakesRows loaded.definition loaded.rows }
    requires kept { is_keyed_layout loaded.definition.layout ≡ false }
    requires few { length loaded.rows ≤ MOST_ROWS }
{
    let Loaded { definition, rows } = loaded;
    Version::build(alloc, definition, rows).ok()
}

/// What is seen of a slot whose first version this is.
pub fn seen_of(alloc: Global, version: Version<Uncounted>) -> Option<Seen<Version<Uncounted>>> {
    let mut slot: PlainSlot<Version<Uncounted>, NoFact> = PlainSlot::new(alloc);
    slot.publish(alloc, version).ok()?;
    slot.enter().ok()
}

pub fn row_count(seen: &Seen<Version<Uncounted>>) -> u32 {
    match seen.version() {
        Some(version) => version.row_count(),
        None => 0,
    }
}
