// Definitions, written.
ghost use Rattle.std.specs.Prelude.{◌≡◌, ◌++◌, length, take, OnErr, OnOk};
ghost use Rattle.std.specs.List.{flat_map};
ghost use Rattle.ddl_writing.specs.Canonical.{DefaultsFit, HasNoFault, and_then, arguments_text, definition_text};
ghost use Rattle.ddl_writing.specs.Canonical.{function_text, item_text, other_arguments_text, signature_text};
ghost use Rattle.ddl_writing.specs.Canonical.{table_text, typed_text};
ghost use Rattle.dict_schema.specs.Judging.{AreClear};
ghost use Rattle.dict_schema.specs.Table.{table};

use crate::clauses::{push_clauses, push_output};
use crate::columns::{push_columns, push_keys};
use crate::quoted::push_name;
use crate::sources::push_source;
use crate::types::{push_type, push_typed};
use crate::words::{Word, push_word};
use dict_schema::{Arg, Definition, FunctionDef, Item};
use dict_value::{Bytes, NoMemory};

/// Appends the name, the columns and the keys of a dictionary.
#[tactic(auto, using(dict_value::proofs::Fronts::front_stays))]
fn push_table(out: &mut Bytes, d: &Definition) -> Result<(), NoMemory>
    requires { DefaultsFit d.now }
    ensures ok { OnOk result (out.new ≡ out.old ++ table_text d.now) }
    ensures err { OnErr result (take (length out.old) out.new ≡ out.old) }
{
    push_word(out, Word::Create)?;
    push_name(out, d.name.as_slice())?;
    out.extend(b" (")?;
    push_columns(out, d)?;
    push_word(out, Word::PrimaryKey)?;
    push_keys(out, d, d.keys.as_slice())
}

/// Appends a dictionary.
#[tactic(auto, using(dict_value::proofs::Fronts::front_stays))]
fn push_definition(out: &mut Bytes, d: &Definition) -> Result<(), NoMemory>
    requires { DefaultsFit d.now }
    ensures ok { OnOk result (out.new ≡ out.old ++ definition_text d.now) }
    ensures err { OnErr result (take (length out.old) out.new ≡ out.old) }
{
    push_table(out, d)?;
    out.push(b' ')?;
    push_source(out, false, &d.source)?;
    push_clauses(out, d)
}

/// Appends an argument behind another.
#[tactic(auto, using(dict_value::proofs::Fronts::front_stays))]
fn push_other_argument(out: &mut Bytes, argument: &Arg) -> Result<(), NoMemory>
    ensures ok { OnOk result (out.new ≡ out.old ++ and_then (typed_text argument.now.name argument.now.ty)) }
    ensures err { OnErr result (take (length out.old) out.new ≡ out.old) }
{
    out.extend(b", ")?;
    push_typed(out, argument.name.as_slice(), &argument.ty)
}

/// Appends the arguments behind the first one.
#[tactic(auto, using(dict_value::proofs::Fronts::front_stays))]
fn push_other_arguments(out: &mut Bytes, arguments: &[Arg]) -> Result<(), NoMemory>
    ensures ok { OnOk result (out.new ≡ out.old ++ other_arguments_text arguments.now) }
    ensures err { OnErr result (take (length out.old) out.new ≡ out.old) }
{
    for argument in arguments {
        push_other_argument(out, argument)?;
    }
    Ok(())
}

/// Appends the arguments of a function.
#[tactic(auto, using(dict_value::proofs::Fronts::front_stays))]
fn push_arguments(out: &mut Bytes, arguments: &[Arg]) -> Result<(), NoMemory>
    ensures ok { OnOk result (out.new ≡ out.old ++ arguments_text arguments.now) }
    ensures err { OnErr result (take (length out.old) out.new ≡ out.old) }
{
    let [first, others @ ..] = arguments else {
        return Ok(());
    };
    push_typed(out, first.name.as_slice(), &first.ty)?;
    push_other_arguments(out, others)
}

/// Appends the name of a function, its arguments and what it gives.
#[tactic(auto, using(dict_value::proofs::Fronts::front_stays))]
fn push_signature(out: &mut Bytes, f: &FunctionDef) -> Result<(), NoMemory>
    ensures ok { OnOk result (out.new ≡ out.old ++ signature_text f.now) }
    ensures err { OnErr result (take (length out.old) out.new ≡ out.old) }
{
    push_word(out, Word::Function)?;
    push_name(out, f.name.as_slice())?;
    out.extend(b" (")?;
    push_arguments(out, f.args.as_slice())?;
    push_word(out, Word::Returns)?;
    push_type(out, &f.returns)
}

/// Appends a function.
#[tactic(auto, using(dict_value::proofs::Fronts::front_stays))]
fn push_function(out: &mut Bytes, f: &FunctionDef) -> Result<(), NoMemory>
    ensures ok { OnOk result (out.new ≡ out.old ++ function_text f.now) }
    ensures err { OnErr result (take (length out.old) out.new ≡ out.old) }
{
    push_signature(out, f)?;
    out.push(b' ')?;
    push_source(out, true, &f.source)?;
    push_output(out, f.max_output)
}

/// Appends an item.
#[tactic(auto, using(crate::proofs::Defaults::defaults_fit))]
fn push_item(out: &mut Bytes, item: &Item) -> Result<(), NoMemory>
    requires { HasNoFault item.now }
    ensures ok { OnOk result (out.new ≡ out.old ++ item_text item.now) }
    ensures err { OnErr result (take (length out.old) out.new ≡ out.old) }
{
    match item {
        Item::Dictionary(d) => push_definition(out, d),
        Item::Function(f) => push_function(out, f),
    }
}

/// Keeps what was written behind so many bytes, or drops it where it isn't whole.
fn whole_or_none(
    written: Result<(), NoMemory>,
    before: usize,
    out: &mut Bytes,
) -> Result<(), NoMemory>
    ensures same { result ≡ written }
    ensures ok { OnOk result (out.new ≡ out.old) }
    ensures err { OnErr result (out.new ≡ take before out.old) }
{
    if written.is_err() {
        out.truncate(before);
    }
    written
}

/// Appends the one text of a dictionary, in which `dict_schema::check` finds no fault; after `NoMemory` nothing has
/// changed.
#[tactic(auto, using(crate::proofs::Defaults::defaults_fit))]
pub fn write_dictionary(d: &Definition, out: &mut Bytes) -> Result<(), NoMemory>
    requires { AreClear (table d.now) }
    ensures ok { OnOk result (out.new ≡ out.old ++ definition_text d.now) }
    ensures err { OnErr result (out.new ≡ out.old) }
{
    let before = out.len();
    let written = push_definition(out, d);
    whole_or_none(written, before, out)
}

/// Appends the one text of an item, in which `dict_schema::check` finds no fault; after `NoMemory` nothing has changed.
pub fn write_definition(item: &Item, out: &mut Bytes) -> Result<(), NoMemory>
    requires { HasNoFault item.now }
    ensures ok { OnOk result (out.new ≡ out.old ++ item_text item.now) }
    ensures err { OnErr result (out.new ≡ out.old) }
{
    let before = out.len();
    let written = push_item(out, item);
    whole_or_none(written, before, out)
}

#[cfg(test)]
mod tests;
