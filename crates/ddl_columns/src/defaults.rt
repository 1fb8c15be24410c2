// The defaults of columns.
ghost use Rattle.std.specs.Prelude.{◌≡◌, ◌<◌, ◌≤◌, length, IfOk, OnOk};
ghost use Rattle.ddl_tokens.specs.Reading.{Gives};
ghost use Rattle.ddl_columns.specs.Defaults.{default_given, misfit, misfit_of};
ghost use Rattle.ddl_columns.specs.Reading.{default_at, literal_at};

use ddl_tokens::{ReadFault, Reader};
use dict_value::{AttrType, BadValue, ColType, Field, NoMemory, Value, default_of, read_value};
use std::alloc::Global;

/// The text of a number or a string, or NULL.
#[tactic(auto, using(ddl_tokens::proofs::Going::string_goes_on, ddl_tokens::proofs::Going::keyword_goes_on), unfolding(crate::specs::Reading::literal_at))]
fn literal(alloc: Global, r: &mut Reader<'_>) -> Result<Field, ReadFault>
    ensures value { Gives (λ literal. literal) result r.new (literal_at r.old) }
    ensures shorter { OnOk result (length r.new < length r.old) }
{
    if r.sees_string() {
        return Ok(Field::Text(r.string(alloc)?));
    }
    if r.sees_keyword(b"NULL") {
        r.keyword(b"NULL")?;
        return Ok(Field::Null);
    }
    let number = r.number()?;
    Ok(Field::Text(dict_value::Bytes::copy_of(alloc, number)?))
}

/// DEFAULT and its literal, where they are there.
#[tactic(auto, unfolding(crate::specs::Reading::default_at))]
pub(crate) fn default(alloc: Global, r: &mut Reader<'_>) -> Result<Option<Field>, ReadFault>
    ensures value { Gives (λ literal. literal) result r.new (default_at r.old) }
    ensures shorter { OnOk result (length r.new ≤ length r.old) }
{
    if !r.sees_keyword(b"DEFAULT") {
        return Ok(None);
    }
    r.keyword(b"DEFAULT")?;
    Ok(Some(literal(alloc, r)?))
}

/// A value that isn't one of the type.
pub(crate) fn misfit(ty: &AttrType) -> Value
    ensures { result ≡ misfit ty.now }
{
    if !ty.nullable {
        return Value::Null;
    }
    match ty.base {
        ColType::Date => Value::Second(0),
        _ => Value::Day(0),
    }
}

/// The default that a column of this type has by its DEFAULT, or by its type.
pub(crate) fn default_given(
    alloc: Global,
    ty: &AttrType,
    literal: &Option<Field>,
) -> Result<Value, NoMemory>
    ensures { IfOk result (λ value. value ≡ default_given ty.now literal.now) }
{
    let Some(literal) = literal else {
        return Ok(default_of(alloc, ty));
    };
    match read_value(alloc, ty, literal) {
        Ok(value) => Ok(value),
        Err(BadValue::NoMemory) => Err(NoMemory),
        Err(_) => Ok(misfit(ty)),
    }
}
