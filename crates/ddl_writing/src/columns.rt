// Columns and keys. After `NoMemory` a front of what was to be written may stand behind what was there.
ghost use Rattle.std.specs.Prelude.{◌≡◌, ◌++◌, ◌≤◌, ◌+◌, length, take, OnErr, OnOk};
ghost use Rattle.std.specs.List.{flat_map};
ghost use Rattle.ddl_writing.specs.Canonical.{DefaultFits, DefaultsFit, and_then, column_at_text, column_name_text};
ghost use Rattle.ddl_writing.specs.Canonical.{column_text, columns_text, default_text, keys_text, listed_column};
ghost use Rattle.ddl_writing.specs.Canonical.{column_mark, marks_text, other_keys_text};

use crate::quoted::push_name;
use crate::types::{push_literal, push_typed};
use dict_schema::{Column, Definition, column_at, is_attribute};
use dict_value::{Bytes, NoMemory, fits_column};

/// Appends a mark, where the column has it.
fn push_mark(out: &mut Bytes, marked: bool, word: &[u8]) -> Result<(), NoMemory>
    ensures ok { OnOk result (out.new ≡ out.old ++ column_mark marked word.now) }
    ensures err { OnErr result (take (length out.old) out.new ≡ out.old) }
{
    if marked { out.extend(word) } else { Ok(()) }
}

/// Appends the marks of a column.
#[tactic(auto, using(dict_value::proofs::Fronts::front_stays))]
fn push_marks(out: &mut Bytes, column: &Column) -> Result<(), NoMemory>
    ensures ok { OnOk result (out.new ≡ out.old ++ marks_text column.now) }
    ensures err { OnErr result (take (length out.old) out.new ≡ out.old) }
{
    push_mark(out, column.hierarchical, b" HIERARCHICAL")?;
    push_mark(out, column.object_id, b" IS_OBJECT_ID")?;
    push_mark(out, column.injective, b" INJECTIVE")
}

/// Appends the default of an attribute.
#[tactic(auto, using(dict_value::proofs::Fronts::front_stays))]
fn push_default(out: &mut Bytes, attribute: bool, column: &Column) -> Result<(), NoMemory>
    requires { DefaultFits column.now }
    ensures ok { OnOk result (out.new ≡ out.old ++ default_text attribute column.now) }
    ensures err { OnErr result (take (length out.old) out.new ≡ out.old) }
{
    if !attribute {
        return Ok(());
    }
    if !fits_column(&column.ty, &column.default) {
        unreachable!()
    }
    out.extend(b" DEFAULT ")?;
    push_literal(out, &column.ty, &column.default)
}

/// Appends a column.
#[tactic(auto, using(dict_value::proofs::Fronts::front_stays))]
fn push_column(
    out: &mut Bytes,
    d: &Definition,
    place: usize,
    column: &Column,
) -> Result<(), NoMemory>
    requires { DefaultFits column.now }
    ensures ok { OnOk result (out.new ≡ out.old ++ column_text d.now place column.now) }
    ensures err { OnErr result (take (length out.old) out.new ≡ out.old) }
{
    push_typed(out, column.name.as_slice(), &column.ty)?;
    push_default(out, is_attribute(d, place), column)?;
    push_marks(out, column)
}

/// Appends the column at a place, if there is one.
fn push_column_at(out: &mut Bytes, d: &Definition, place: usize) -> Result<(), NoMemory>
    requires { DefaultsFit d.now }
    ensures ok { OnOk result (out.new ≡ out.old ++ column_at_text d.now place) }
    ensures err { OnErr result (take (length out.old) out.new ≡ out.old) }
{
    match column_at(d, place) {
        Some(column) => push_column(out, d, place, column),
        None => Ok(()),
    }
}

/// Appends the column at a place behind what stands before it.
#[tactic(auto, using(dict_value::proofs::Fronts::front_stays))]
fn push_listed(out: &mut Bytes, d: &Definition, place: usize) -> Result<(), NoMemory>
    requires { DefaultsFit d.now }
    ensures ok { OnOk result (out.new ≡ out.old ++ listed_column d.now place) }
    ensures err { OnErr result (take (length out.old) out.new ≡ out.old) }
{
    if place > 0 {
        out.extend(b", ")?;
    }
    push_column_at(out, d, place)
}

/// Appends all columns.
#[tactic(auto, using(dict_value::proofs::Fronts::front_stays))]
pub(crate) fn push_columns(out: &mut Bytes, d: &Definition) -> Result<(), NoMemory>
    requires { DefaultsFit d.now }
    ensures ok { OnOk result (out.new ≡ out.old ++ columns_text d.now) }
    ensures err { OnErr result (take (length out.old) out.new ≡ out.old) }
{
    for place in 0..d.columns.len() {
        push_listed(out, d, place)?;
    }
    Ok(())
}

/// Appends the name of the column at a place, if there is one.
pub(crate) fn push_column_name(out: &mut Bytes, d: &Definition, place: u8) -> Result<(), NoMemory>
    ensures ok { OnOk result (out.new ≡ out.old ++ column_name_text d.now place) }
    ensures err { OnErr result (take (length out.old) out.new ≡ out.old) }
{
    match column_at(d, usize::from(place)) {
        Some(column) => push_name(out, column.name.as_slice()),
        None => Ok(()),
    }
}

/// Appends the name of a key behind another.
#[tactic(auto, using(dict_value::proofs::Fronts::front_stays))]
fn push_other_key(out: &mut Bytes, d: &Definition, place: u8) -> Result<(), NoMemory>
    ensures ok { OnOk result (out.new ≡ out.old ++ and_then (column_name_text d.now place)) }
    ensures err { OnErr result (take (length out.old) out.new ≡ out.old) }
{
    out.extend(b", ")?;
    push_column_name(out, d, place)
}

/// Appends the names of the keys behind the first one.
#[tactic(auto, using(dict_value::proofs::Fronts::front_stays))]
fn push_other_keys(out: &mut Bytes, d: &Definition, keys: &[u8]) -> Result<(), NoMemory>
    ensures ok { OnOk result (out.new ≡ out.old ++ other_keys_text d.now keys.now) }
    ensures err { OnErr result (take (length out.old) out.new ≡ out.old) }
{
    for place in keys {
        push_other_key(out, d, *place)?;
    }
    Ok(())
}

/// Appends the names of the keys.
#[tactic(auto, using(dict_value::proofs::Fronts::front_stays))]
pub(crate) fn push_keys(out: &mut Bytes, d: &Definition, keys: &[u8]) -> Result<(), NoMemory>
    ensures ok { OnOk result (out.new ≡ out.old ++ keys_text d.now keys.now) }
    ensures err { OnErr result (take (length out.old) out.new ≡ out.old) }
{
    let [first, others @ ..] = keys else {
        return Ok(());
    };
    push_column_name(out, d, *first)?;
    push_other_keys(out, d, others)
}
