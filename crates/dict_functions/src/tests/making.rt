// Definitions, versions and requests of tests, from plain data.
ghost use Rattle.std.specs.Prelude.{◌≡◌, ◌<◌, ◌≤◌, ◌∷◌, ◌++◌, All, IfOk, IfSome, IsTrue, OnOk, Some, [], false, length};
ghost use Rattle.std.specs.Prelude.{slice_get, ⊤};
ghost use Rattle.std.specs.List.{AllZip};
ghost use Rattle.dict_schema.specs.Parts.{is_keyed_layout};
ghost use Rattle.dict_schema.specs.Shapes.{cell_types, shape_of};
ghost use Rattle.dict_schema.specs.Sound.{IsSound, IsSoundBase, IsSoundType};
ghost use Rattle.dict_value.specs.Values.{FitsColumn};
ghost use Rattle.dict_value.specs.declared.value.TheConstants.{MOST_ROWS};
ghost use Rattle.packed_rows.specs.Cells.{meaning};
ghost use Rattle.dict_functions.specs.Asking.{IsAsked, IsLookup};

use crate::answer_loaded;
use dict_schema::{
    Column, Definition, Kind, Layout, Lifetime, RangeOf, SourceOf, Update, cell_type, check,
    is_keyed, shape,
};
use dict_value::{
    AttrType, Bytes, ColType, Field, Format, ListOf, MOST_ROWS, NoMemory, Uncounted, Value,
    fits_column,
};
use dict_version::Version;
use packed_rows::{Cell, Rows, RowsBuilder, value_of};
use std::alloc::Global;
use std::test::Fail;
use version_slot::{Fact, PlainSlot, Publisher, Seen, Viewer};
use wire_text::{
    Asked, MOST_BLOCK_LINES, MOST_LINE_BYTES, Reply, Request, Verb, read_request, write_reply,
};

/// A column of a definition.
#[derive(Clone, Copy)]
pub(super) struct Sketched {
    pub name: &'static [u8],
    pub base: ColType,
    pub nullable: bool,
    pub default: Cell<'static>,
    pub parent: bool,
}

/// What differs between the definitions of tests.
#[derive(Clone, Copy)]
pub(super) struct Sketch {
    pub columns: &'static [Sketched],
    pub keys: &'static [u8],
    pub layout: Layout,
    pub range: RangeOf,
    pub format: Format,
    pub implicit: bool,
}

/// The cells of a row.
pub(super) type Cells = &'static [Cell<'static>];

/// The first line of a request, the lines that follow it, and its reply without the last line feed.
pub(super) type Asking = (&'static [u8], &'static [&'static [u8]], &'static [u8]);

/// A definition, the rows of its version, if there is one, and what is asked of it.
pub(super) struct Answering {
    pub sketch: Sketch,
    pub rows: Option<&'static [Cells]>,
    pub asked: &'static [Asking],
}

pub(super) const NUMBER: Sketched = Sketched {
    name: b"id",
    base: ColType::UInt64,
    nullable: false,
    default: Cell::U(0),
    parent: false,
};

pub(super) const TEXT: Sketched = Sketched {
    name: b"x",
    base: ColType::Str,
    nullable: false,
    default: Cell::S(b""),
    parent: false,
};

/// A number and a text, FLAT.
pub(super) const FLAT: Sketch = Sketch {
    columns: &[NUMBER, TEXT],
    keys: &[0],
    layout: Layout::Flat {
        initial: 1024,
        max: 500_000,
    },
    range: RangeOf::None,
    format: Format::Tab,
    implicit: false,
};

fn columns_of(alloc: Global, sketch: &Sketch) -> Result<ListOf<Column>, NoMemory> {
    let mut columns = ListOf::new(alloc);
    for column in sketch.columns {
        columns.push(Column {
            name: Bytes::copy_of(alloc, column.name)?,
            ty: AttrType {
                base: column.base,
                nullable: column.nullable,
            },
            default: value_of(alloc, &column.default)?,
            hierarchical: column.parent,
            object_id: false,
            injective: false,
        })?;
    }
    Ok(columns)
}

/// A program that prints rows in a format.
pub(super) fn source_of(
    alloc: Global,
    format: Format,
    implicit: bool,
) -> Result<SourceOf, NoMemory> {
    Ok(SourceOf {
        kind: Kind::Executable,
        command: Bytes::copy_of(alloc, b"cat x")?,
        format,
        direct: false,
        implicit,
        header: false,
        read_ms: 10_000,
        write_ms: 10_000,
        end_s: 10,
        pool_size: 16,
        execution_s: 10,
        update: Update::None,
    })
}

/// The definition of a sketch.
pub(super) fn definition_of(alloc: Global, sketch: &Sketch) -> Result<Definition, NoMemory> {
    let mut keys = ListOf::new(alloc);
    for key in sketch.keys {
        keys.push(*key)?;
    }
    Ok(Definition {
        name: Bytes::copy_of(alloc, b"d")?,
        columns: columns_of(alloc, sketch)?,
        keys,
        source: source_of(alloc, sketch.format, sketch.implicit)?,
        layout: sketch.layout,
        lifetime: Lifetime { min: 0, max: 0 },
        range: sketch.range,
        max_output: 67_108_864,
        comment: Bytes::new(alloc),
    })
}

pub(super) fn is_sound_base(base: ColType) -> bool
    ensures { IsTrue result → IsSoundBase base }
{
    match base {
        ColType::Decimal(digits, scale) => digits >= 1 && digits <= 38 && scale <= digits,
        _ => true,
    }
}

fn has_sound_types(columns: &[Column]) -> bool
    ensures { IsTrue result → All (λ column. IsSoundType column.ty) columns.now }
{
    for place in 0..columns.len() {
        if !is_sound_base(columns[place].ty.base) {
            return false;
        }
    }
    true
}

/// Whether no fault stands in a definition.
pub(super) fn is_sound(d: &Definition) -> bool
    ensures { IsTrue result → IsSound d.now }
{
    match check(d) {
        Ok(()) => has_sound_types(d.columns.as_slice()),
        Err(_) => false,
    }
}

/// The types of the values of a row.
fn types_of(alloc: Global, d: &Definition) -> Result<ListOf<AttrType>, NoMemory>
    ensures { IfOk result (λ types. types ≡ cell_types (shape_of d.now)) }
{
    let columns = shape(alloc, d)?;
    let mut types = ListOf::with_room(alloc, columns.len())?;
    for column in columns.as_slice() {
        types.push(cell_type(column))?;
    }
    Ok(types)
}

/// These rows in packed columns; one that doesn't fit its columns is no row.
fn rows_of(alloc: Global, types: &[AttrType], table: &[Cells]) -> Result<Rows, NoMemory>
    ensures { IfOk result (All (AllZip FitsColumn types.now)) }
{
    let mut rows = RowsBuilder::new(alloc, types)?;
    for cells in table {
        push_row(alloc, &mut rows, types, cells)?;
    }
    Ok(rows.finish())
}

/// Adds a row of cells that fit their columns.
fn push_row(
    alloc: Global,
    rows: &mut RowsBuilder,
    types: &[AttrType],
    cells: &[Cell<'static>],
) -> Result<(), NoMemory>
    requires types { rows.old.types ≡ types.now }
    requires none { rows.old.open_row ≡ [] }
    requires fit { All (AllZip FitsColumn types.now) rows.old.rows }
    ensures types { rows.new.types ≡ types.now }
    ensures none { OnOk result (rows.new.open_row ≡ []) }
    ensures fit { All (AllZip FitsColumn types.now) rows.new.rows }
{
    if rows.row_count() >= MOST_ROWS || cells.len() != types.len() {
        return Err(NoMemory);
    }
    for place in 0..types.len() {
        push_fitting(alloc, rows, &types[place], &cells[place])?;
    }
    rows.end_row();
    Ok(())
}

/// Adds a cell that fits the type of its column.
fn push_fitting(
    alloc: Global,
    rows: &mut RowsBuilder,
    ty: &AttrType,
    cell: &Cell<'static>,
) -> Result<(), NoMemory>
    requires room { length rows.old.open_row < length rows.old.types }
    requires few { length rows.old.rows < 4294967295 }
    requires typed { slice_get rows.old.types (length rows.old.open_row) ≡ Some ty.now }
    ensures types { rows.new.types ≡ rows.old.types }
    ensures rows { rows.new.rows ≡ rows.old.rows }
    ensures open { OnOk result (rows.new.open_row ≡ rows.old.open_row ++ meaning cell.now ∷ []) }
    ensures fits { OnOk result (FitsColumn ty.now (meaning cell.now)) }
{
    let value = value_of(alloc, cell)?;
    if !fits_column(ty, &value) {
        return Err(NoMemory);
    }
    rows.push_cell(cell)
}

/// The version of a sketch and some rows.
fn version_of(alloc: Global, sketch: &Sketch, table: &[Cells]) -> Result<Version<Uncounted>, Fail> {
    let d = definition_of(alloc, sketch)?;
    if !is_sound(&d) || is_keyed(&d) {
        return Err("no definition of a version".into());
    }
    let types = types_of(alloc, &d)?;
    let rows = rows_of(alloc, types.as_slice(), table)?;
    if rows.len() > MOST_ROWS {
        return Err("too many rows".into());
    }
    match Version::build(alloc, d, rows) {
        Ok(version) => Ok(version),
        Err(_) => Err("rows that the layout doesn't take".into()),
    }
}

/// The fact of a slot whose entries need none.
#[derive(Drop)]
struct NoFact;

impl Fact<Version<Uncounted>> for NoFact {
    ghost allows = { λ _ _. ⊤ };
}

/// What is seen of a slot after its first version; of the slot without one where there is no table.
pub(super) fn seen_of(
    alloc: Global,
    sketch: &Sketch,
    table: Option<&[Cells]>,
) -> Result<Seen<Version<Uncounted>>, Fail> {
    let mut slot: PlainSlot<Version<Uncounted>, NoFact> = PlainSlot::new(alloc);
    if let Some(table) = table {
        slot.publish(alloc, version_of(alloc, sketch, table)?)?;
    }
    match slot.enter() {
        Ok(seen) => Ok(seen),
        Err(_) => Err("no more handles".into()),
    }
}

/// A line that may be one of a request.
fn line_of(alloc: Global, line: &[u8]) -> Result<Bytes, Fail>
    ensures { IfOk result (λ copy. (copy ≡ line.now) × (length copy ≤ 65536)) }
{
    if line.len() > MOST_LINE_BYTES as usize {
        return Err("a line that is too long".into());
    }
    Ok(Bytes::copy_of(alloc, line)?)
}

/// Lines that may follow the first one.
fn lines_of(alloc: Global, lines: &[&[u8]]) -> Result<ListOf<Bytes>, Fail>
    ensures { IfOk result (All (λ line. length line ≤ 65536)) }
{
    let mut copies = ListOf::new(alloc);
    for line in lines {
        copies.push(line_of(alloc, line)?)?;
    }
    Ok(copies)
}

/// The lookup or the call that is asked for.
fn asked_in(request: Request) -> Option<Asked>
    ensures { IfSome result (λ asked. request ≡ Request.Asked asked) }
{
    match request {
        Request::Asked(asked) => Some(asked),
        _ => None,
    }
}

/// What the lines of a request ask.
pub(super) fn asked_of(alloc: Global, first: &[u8], more: &[&[u8]]) -> Result<Asked, Fail>
    ensures { IfOk result IsAsked }
{
    let first = line_of(alloc, first)?;
    let more = lines_of(alloc, more)?;
    let line = first.as_slice();
    let keys = more.as_slice();
    if keys.len() > MOST_BLOCK_LINES as usize {
        return Err("too many lines".into());
    }
    let Ok(request) = read_request(alloc, line, keys) else {
        return Err("no request".into());
    };
    match asked_in(request) {
        Some(asked) => Ok(asked),
        None => Err("no lookup and no call".into()),
    }
}

/// What the lines of a lookup ask.
pub(super) fn lookup_of(alloc: Global, first: &[u8], more: &[&[u8]]) -> Result<Asked, Fail>
    ensures { IfOk result IsLookup }
{
    let asked = asked_of(alloc, first, more)?;
    match asked.verb {
        Verb::Call => Err("no lookup".into()),
        _ => Ok(asked),
    }
}

/// Whether this is the text of a reply with a line feed behind it.
pub(super) fn is_text(alloc: Global, reply: &Reply, wanted: &[u8]) -> Result<bool, NoMemory> {
    let mut text = Bytes::new(alloc);
    write_reply(reply, &mut text)?;
    let mut line = Bytes::copy_of(alloc, wanted)?;
    line.push(b'\n')?;
    Ok(text.is_same(&line))
}

/// The place of the first request that a version answers otherwise.
pub(super) fn first_wrong(alloc: Global, answering: &Answering) -> Result<Option<usize>, Fail> {
    let seen = seen_of(alloc, &answering.sketch, answering.rows)?;
    for (place, (first, more, reply)) in answering.asked.iter().enumerate() {
        let asked = lookup_of(alloc, first, more)?;
        let answer = answer_loaded(alloc, &seen, &asked);
        if !is_text(alloc, &answer, reply)? {
            return Ok(Some(place));
        }
    }
    Ok(None)
}
