// The items that statements make.
ghost use Rattle.std.specs.Prelude.{◌≡◌, ◌≤◌, ◌++◌, ◌==◌, length, map, IfOk};
ghost use Rattle.std.specs.List.{list_any};
ghost use Rattle.dict_schema.specs.Parts.{is_range_end};
ghost use Rattle.ddl_text.specs.Items.{definition_of, function_of, is_misfit, joined, key_places, place_from, range_of};
ghost use Rattle.ddl_text.specs.Items.{same_name, settled, settled_from, is_set_apart, place_of_column};

use crate::statement::{DictionaryText, FunctionText, WrittenName};
use ddl_clauses::{DictionaryParts, FunctionParts, RangeNames};
use dict_schema::{Column, Definition, FunctionDef, RangeOf};
use dict_value::{AttrType, Bytes, ColType, ListOf, NoMemory, Value, default_of};
use std::alloc::Global;

/// Both words of a name, joined by a point.
fn joined(name: WrittenName) -> Result<Bytes, NoMemory>
    ensures { IfOk result (λ bytes. bytes ≡ joined name) }
{
    let WrittenName { mut first, second } = name;
    let Some(second) = second else {
        return Ok(first);
    };
    first.push(b'.')?;
    first.extend(second.as_slice())?;
    Ok(first)
}

pub(crate) fn same_name(a: &Bytes, b: &Bytes) -> bool
    ensures { result ≡ same_name a.now b.now }
{
    a.is_same(b)
}

/// The place of the first column of a name, 255 where there is none.
#[tactic(auto, unfolding(crate::specs::Items::place_from))]
fn place_of_column(columns: &[Column], name: &Bytes) -> u8
    requires { length columns.now ≤ 64 }
    ensures { result ≡ place_of_column columns.now name.now }
{
    let mut place = 0;
    let mut rest = columns;
    while let [column, others @ ..] = rest {
        if same_name(&column.name, name) {
            return place;
        }
        place += 1;
        rest = others;
    }
    255
}

/// The places of the key columns.
fn key_places(alloc: Global, columns: &[Column], names: &[Bytes]) -> Result<ListOf<u8>, NoMemory>
    requires { length columns.now ≤ 64 }
    ensures { IfOk result (λ places. places ≡ key_places columns.now names.now) }
{
    let mut places = ListOf::new(alloc);
    let mut rest = names;
    while let [name, others @ ..] = rest {
        places.push(place_of_column(columns, name))?;
        rest = others;
    }
    Ok(places)
}

/// The places of the columns of a range.
fn range_of(columns: &[Column], names: &Option<RangeNames>) -> RangeOf
    requires { length columns.now ≤ 64 }
    ensures { result ≡ range_of columns.now names.now }
{
    match names {
        None => RangeOf::None,
        Some(names) => RangeOf::Columns {
            start: place_of_column(columns, &names.start),
            end: place_of_column(columns, &names.end),
        },
    }
}

/// Whether a value stands for a literal that isn't of this type.
fn is_misfit(ty: &AttrType, value: &Value) -> bool
    ensures { result ≡ is_misfit ty.now value.now }
{
    match value {
        Value::Null => !ty.nullable,
        Value::Day(_) => ty.nullable && !matches!(ty.base, ColType::Date),
        Value::Second(_) => ty.nullable && matches!(ty.base, ColType::Date),
        _ => false,
    }
}

/// A column that is a key or an end of the range has the default of its type, unless its literal was none of it.
fn settled(alloc: Global, column: Column) -> Column
    ensures { result ≡ settled column }
{
    if is_misfit(&column.ty, &column.default) {
        return column;
    }
    let default = default_of(alloc, &column.ty);
    Column {
        name: column.name,
        ty: column.ty,
        default,
        hierarchical: column.hierarchical,
        object_id: column.object_id,
        injective: column.injective,
    }
}

/// Whether a key stands at a place.
fn is_key(keys: &[u8], place: usize) -> bool
    ensures { result ≡ list_any (λ key. key == place) keys.now }
{
    keys.iter().any(|key| usize::from(*key) == place)
}

/// Whether an end of the range stands at a place.
fn is_range_end(range: &RangeOf, place: usize) -> bool
    ensures { result ≡ is_range_end range.now place }
{
    match range {
        RangeOf::None => false,
        RangeOf::Columns { start, end } => {
            place == usize::from(*start) || place == usize::from(*end)
        }
    }
}

/// Whether a key or an end of the range stands at a place.
fn is_set_apart(keys: &[u8], range: &RangeOf, place: usize) -> bool
    ensures { result ≡ is_set_apart keys.now range.now place }
{
    is_key(keys, place) || is_range_end(range, place)
}

/// The columns of a definition, from those that are written.
#[tactic(auto, unfolding(crate::specs::Items::settled_from))]
fn settled_columns(
    alloc: Global,
    keys: &[u8],
    range: &RangeOf,
    mut written: ListOf<Column>,
) -> Result<ListOf<Column>, NoMemory>
    requires { length written ≤ 64 }
    ensures { IfOk result (λ columns. columns ≡ settled_from keys.now range.now 0 written) }
{
    let mut columns = ListOf::with_room(alloc, written.len())?;
    let mut place = 0;
    while let Some(column) = written.pop_front() {
        if is_set_apart(keys, range, place) {
            columns.push(settled(alloc, column))?;
        } else {
            columns.push(column)?;
        }
        place += 1;
    }
    Ok(columns)
}

/// The definition that a dictionary's statement makes.
pub(crate) fn definition_of(alloc: Global, text: DictionaryText) -> Result<Definition, NoMemory>
    requires { length text.columns ≤ 64 }
    ensures { IfOk result (λ definition. definition ≡ definition_of text) }
{
    let DictionaryText {
        name,
        columns,
        keys,
        parts,
    } = text;
    let name = joined(name)?;
    let keys = key_places(alloc, columns.as_slice(), keys.as_slice())?;
    let DictionaryParts {
        source,
        layout,
        lifetime,
        range,
        max_output,
        comment,
        ..
    } = parts;
    let range = range_of(columns.as_slice(), &range);
    let columns = settled_columns(alloc, keys.as_slice(), &range, columns)?;
    Ok(Definition {
        name,
        columns,
        keys,
        source,
        layout,
        lifetime,
        range,
        max_output,
        comment,
    })
}

/// The function that a statement makes.
pub(crate) fn function_of(text: FunctionText) -> FunctionDef
    ensures { result ≡ function_of text }
{
    let FunctionText {
        name,
        arguments,
        returns,
        parts,
    } = text;
    let FunctionParts {
        source,
        max_output,
        ..
    } = parts;
    FunctionDef {
        name,
        args: arguments,
        returns,
        source,
        max_output,
    }
}
