// Whether what is asked fits a definition.
ghost use Rattle.std.specs.Prelude.{◌≡◌, ◌≢◌, ◌<◌, ◌^◌, ℕ, Err, IfOk, IsTrue, MatchOption, MatchResult, false};
ghost use Rattle.std.specs.Prelude.{length, true};
ghost use Rattle.dict_schema.specs.declared.definition.Column.{Column as ColumnOf};
ghost use Rattle.dict_value.specs.Values.{reading};
ghost use Rattle.dict_value.specs.declared.value.Value.{Value as ValueOf};
ghost use Rattle.dict_functions.specs.Asking.{IsAttributeNamed, asks_attribute, asks_hierarchy};
ghost use Rattle.dict_functions.specs.Values.{StandsIn};
ghost use Rattle.dict_schema.specs.Sound.{IsSound};
ghost use Rattle.dict_value.specs.Memory.{UnlessNoMemory};
ghost use Rattle.dict_functions.specs.Refusals.{IsUnfitting};
ghost use Rattle.dict_functions.specs.steps.Lines.{IsAttributeOf, default_fault, key_fault};
ghost use Rattle.wire_text.specs.declared.reply.ReplyFault.TheVariants as fault;

use crate::lines::{LineFault, LinesFault, value_fault};
use crate::replies::print_value;
use dict_schema::{Column, Definition, is_attribute};
use dict_value::{Bytes, Value, copy_value, read_value};
use std::alloc::Global;
use wire_text::{Asked, ReplyFault, Verb};

/// The attribute that is asked for.
#[derive(Drop)]
pub(crate) struct Attribute {
    /// Its place in the definition.
    pub place: u32,
    /// What is printed where there is no row.
    pub missing: Bytes,
}

/// Whether a verb asks for a hierarchy.
pub(crate) fn asks_hierarchy(verb: Verb) -> bool
    ensures { result ≡ asks_hierarchy verb }
{
    matches!(
        verb,
        Verb::Hierarchy | Verb::IsIn | Verb::Children | Verb::Descendants
    )
}

/// Whether the column at a place is the attribute of a name.
fn is_attribute_named(d: &Definition, name: &Bytes, place: usize) -> bool
    requires { place < length d.now.columns }
    ensures yes { result ≡ true → (column : ColumnOf) × IsAttributeNamed d.now name.now place column }
    ensures no { result ≡ false → (column : ColumnOf) → ¬ (IsAttributeNamed d.now name.now place column) }
{
    if !is_attribute(d, place) {
        return false;
    }
    d.columns.as_slice()[place].name.is_same(name)
}

/// The place in the definition of the attribute of a name.
fn attribute_named(d: &Definition, name: &Bytes) -> Option<u32>
    requires { length d.now.columns < 2 ^ 32 }
    ensures { MatchOption result
        ((place : ℕ) (column : ColumnOf) → ¬ (IsAttributeNamed d.now name.now place column))
        (λ place. (column : ColumnOf) × IsAttributeNamed d.now name.now place column) }
{
    for place in 0..d.columns.len() {
        if is_attribute_named(d, name, place) {
            return Some(place as u32);
        }
    }
    None
}

/// What stands for an attribute where there is no row; Unread for a default that is none of its values.
pub(crate) fn stand_in(alloc: Global, q: &Asked, column: &Column) -> Result<Value, LineFault>
    requires { IsTrue (asks_attribute q.now.verb) }
    ensures ok { IfOk result (StandsIn q.now.verb column.now q.now.fallback) }
    ensures bad { result ≡ Err LineFault.Unread → (q.now.verb ≡ Verb.GetOrDefault)
        × ((v : ValueOf) → reading column.now.ty q.now.fallback ≢ Ok v) }
{
    match q.verb {
        Verb::Get => match copy_value(alloc, &column.default) {
            Ok(value) => Ok(value),
            Err(_) => Err(LineFault::NoMemory),
        },
        Verb::GetOrDefault => match read_value(alloc, &column.ty, &q.fallback) {
            Ok(value) => Ok(value),
            Err(fault) => Err(value_fault(fault)),
        },
        _ => Ok(Value::Null),
    }
}

/// Why a lookup is refused whose default can't be had.
fn default_fault(fault: LineFault) -> ReplyFault
    ensures { result ≡ default_fault fault }
{
    match fault {
        LineFault::Unread => ReplyFault::BadArgument(0),
        LineFault::NoMemory => ReplyFault::NoMemory,
    }
}

/// Why a lookup is refused whose lines aren't all read.
pub(crate) fn key_fault(fault: LinesFault) -> ReplyFault
    ensures { result ≡ key_fault fault }
{
    match fault {
        LinesFault::Unread(line) => ReplyFault::BadKey(line),
        LinesFault::NoMemory => ReplyFault::NoMemory,
    }
}

/// The attribute that is asked for, or why there is none: an unknown name, or a default that is none of its values.
pub(crate) fn attribute_of(
    alloc: Global,
    d: &Definition,
    q: &Asked,
) -> Result<Attribute, ReplyFault>
    requires verb { IsTrue (asks_attribute q.now.verb) }
    requires sound { IsSound d.now }
    ensures { UnlessNoMemory (Err fault.NoMemory) result
        (MatchResult result (IsAttributeOf d.now q.now) (IsUnfitting d.now q.now)) }
{
    let Some(place) = attribute_named(d, &q.attribute) else {
        return Err(ReplyFault::UnknownAttribute);
    };
    let column = &d.columns.as_slice()[place as usize];
    let value = match stand_in(alloc, q, column) {
        Ok(value) => value,
        Err(fault) => return Err(default_fault(fault)),
    };
    let mut missing = Bytes::new(alloc);
    match print_value(&column.ty, &value, &mut missing) {
        Ok(()) => Ok(Attribute { place, missing }),
        Err(_) => Err(ReplyFault::NoMemory),
    }
}
