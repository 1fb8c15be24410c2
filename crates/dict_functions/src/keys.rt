// Keys and values, read from the fields of a line.
ghost use Rattle.std.specs.Prelude.{◌≡◌, ◌∷◌, ◌++◌, [], ℕ, ℤ, List, Err, IfOk, MatchOption, Some, None, ⊤};
ghost use Rattle.cache_layout.specs.Fetching.{key_types};
ghost use Rattle.dict_value.specs.declared.value.Field.TheVariants.{Text};
ghost use Rattle.dict_value.specs.declared.value.Value.{Value as ValueOf};
ghost use Rattle.dict_version.specs.Keys.{range_end};
ghost use Rattle.dict_version.specs.declared.key.Key.{Key as KeyOf};
ghost use Rattle.dict_functions.specs.steps.Lines.{is_by_number};
ghost use Rattle.dict_functions.specs.Keys.{ReadsAddress, ReadsAs, ReadsKey, ReadsNumber, ReadsNumbers, ReadsPoint};
ghost use Rattle.dict_functions.specs.Keys.{ReadsRanged, point_type};
ghost use Rattle.range_layout.specs.declared.ends.End.TheVariants.{At};
ghost use Rattle.dict_value.specs.Values.{FitsColumn};
ghost use Rattle.std.specs.List.{AllZip};

use crate::lines::{LineFault, value_fault};
use dict_schema::{Definition, RangeOf, column_at};
use dict_value::{
    Address, AttrType, ColType, Field, Fields, ListOf, NoMemory, Value, read_address, read_digits,
    read_text, read_value,
};
use dict_version::{Key, LookupBy, lookup_by};
use std::alloc::Global;

/// The types of the key columns, in their order.
pub(crate) fn key_types(alloc: Global, d: &Definition) -> Result<ListOf<AttrType>, NoMemory>
    ensures { IfOk result (λ types. types ≡ key_types d.now) }
{
    let mut types = ListOf::with_room(alloc, d.keys.len())?;
    for key in d.keys.as_slice() {
        if let Some(column) = column_at(d, usize::from(*key)) {
            types.push(column.ty)?;
        }
    }
    Ok(types)
}

/// The values that fields write, one of each type.
pub(crate) fn read_values(
    alloc: Global,
    types: &[AttrType],
    fields: &[Field],
) -> Result<ListOf<Value>, LineFault>
    ensures ok { IfOk result (ReadsAs types.now fields.now) }
    ensures fit { IfOk result (AllZip FitsColumn types.now) }
    ensures bad { result ≡ Err LineFault.Unread → (values : List ValueOf) → ¬ (ReadsAs types.now fields.now values) }
{
    if types.len() != fields.len() {
        return Err(LineFault::Unread);
    }
    let Ok(mut values) = ListOf::with_room(alloc, types.len()) else {
        return Err(LineFault::NoMemory);
    };
    for place in 0..types.len() {
        let value = match read_value(alloc, &types[place], &fields[place]) {
            Ok(value) => value,
            Err(fault) => return Err(value_fault(fault)),
        };
        if values.push(value).is_err() {
            return Err(LineFault::NoMemory);
        }
    }
    Ok(values)
}

/// The number of 64 bits that a field writes.
pub(crate) fn read_number(alloc: Global, field: &Field) -> Option<u64>
    ensures { MatchOption result ((n : ℕ) → ¬ (ReadsNumber field.now n)) (λ n. ReadsNumber field.now n) }
{
    let Field::Text(text) = field else {
        return None;
    };
    if let Some(number) = read_digits(text.as_slice()) {
        return Some(number);
    }
    match read_text(alloc, ColType::UInt64, text.as_slice()) {
        Ok(Value::U(number)) => Some(number),
        _ => None,
    }
}

/// The number that is the whole of a line.
pub(crate) fn only_number(alloc: Global, fields: &[Field]) -> Result<u64, LineFault>
    ensures ok { IfOk result (λ n. ReadsNumbers fields.now (n ∷ [])) }
    ensures bad { result ≡ Err LineFault.Unread → (n : ℕ) → ¬ (ReadsNumbers fields.now (n ∷ [])) }
{
    if fields.len() != 1 {
        return Err(LineFault::Unread);
    }
    match read_number(alloc, &fields[0]) {
        Some(number) => Ok(number),
        None => Err(LineFault::Unread),
    }
}

/// Whether a key is one number.
pub(crate) fn is_by_number(by: LookupBy) -> bool
    ensures { result ≡ is_by_number by }
{
    matches!(by, LookupBy::SmallNumber(_) | LookupBy::Number)
}

/// The type of the ends of the range, NULL aside.
fn point_type(d: &Definition) -> Option<ColType>
    ensures { result ≡ point_type d.now d.now.range }
{
    match d.range {
        RangeOf::None => None,
        RangeOf::Columns { start, .. } => match column_at(d, usize::from(start)) {
            Some(column) => Some(column.ty.base),
            None => None,
        },
    }
}

/// The number that a value of a range is: a number, a day or a second.
fn point_in(value: &Value) -> Option<i128>
    ensures { MatchOption result ((point : ℤ) → ¬ (range_end (Some value.now) ≡ At point))
        (λ point. range_end (Some value.now) ≡ At point) }
{
    match value {
        Value::U(number) => Some(i128::from(*number)),
        Value::I(number) => Some(i128::from(*number)),
        Value::Day(day) => Some(i128::from(*day)),
        Value::Second(second) => Some(i128::from(*second)),
        _ => None,
    }
}

/// The point of the range that a field writes.
fn read_point(alloc: Global, d: &Definition, field: &Field) -> Result<i128, LineFault>
    ensures ok { IfOk result (ReadsPoint d.now field.now) }
    ensures bad { result ≡ Err LineFault.Unread → (point : ℤ) → ¬ (ReadsPoint d.now field.now point) }
{
    let Field::Text(text) = field else {
        return Err(LineFault::Unread);
    };
    let Some(base) = point_type(d) else {
        return Err(LineFault::Unread);
    };
    let value = match read_text(alloc, base, text.as_slice()) {
        Ok(value) => value,
        Err(fault) => return Err(value_fault(fault)),
    };
    match point_in(&value) {
        Some(point) => Ok(point),
        None => Err(LineFault::Unread),
    }
}

/// The values of a key and the point behind them that a line writes.
fn read_ranged(
    alloc: Global,
    d: &Definition,
    types: &[AttrType],
    fields: &[Field],
) -> Result<Key, LineFault>
    requires { types.now ≡ key_types d.now }
    ensures ok { IfOk result (λ key. (values : List ValueOf) × (point : ℤ) × (key ≡ Key.Ranged values point)
        × ReadsRanged d.now fields.now values point) }
    ensures bad { result ≡ Err LineFault.Unread → (values : List ValueOf) (point : ℤ)
        → ¬ (ReadsRanged d.now fields.now values point) }
{
    if fields.is_empty() {
        return Err(LineFault::Unread);
    }
    let count = fields.len() - 1;
    let values = match read_values(alloc, types, &fields[..count]) {
        Ok(values) => values,
        Err(fault) => return Err(fault),
    };
    match read_point(alloc, d, &fields[count]) {
        Ok(point) => Ok(Key::Ranged(values, point)),
        Err(fault) => Err(fault),
    }
}

/// The address that is the whole of a line.
fn only_address(fields: &[Field]) -> Result<Key, LineFault>
    ensures ok { IfOk result (λ key. ReadsAddress fields.now key) }
    ensures bad { result ≡ Err LineFault.Unread → (key : KeyOf) → ¬ (ReadsAddress fields.now key) }
{
    if fields.len() != 1 {
        return Err(LineFault::Unread);
    }
    let Field::Text(text) = &fields[0] else {
        return Err(LineFault::Unread);
    };
    match read_address(text.as_slice()) {
        Ok(Address::V4(bits)) => Ok(Key::V4(bits)),
        Ok(Address::V6(bits)) => Ok(Key::V6(bits)),
        Err(_) => Err(LineFault::Unread),
    }
}

/// The key that a line writes, by the layout of the definition.
pub(crate) fn read_key(
    alloc: Global,
    d: &Definition,
    types: &[AttrType],
    fields: &[Field],
) -> Result<Key, LineFault>
    requires { types.now ≡ key_types d.now }
    ensures ok { IfOk result (ReadsKey d.now fields.now) }
    ensures bad { result ≡ Err LineFault.Unread → (key : KeyOf) → ¬ (ReadsKey d.now fields.now key) }
{
    match lookup_by(&d.layout) {
        LookupBy::SmallNumber(_) | LookupBy::Number => match only_number(alloc, fields) {
            Ok(number) => Ok(Key::Simple(number)),
            Err(fault) => Err(fault),
        },
        LookupBy::KeyList => match read_values(alloc, types, fields) {
            Ok(values) => Ok(Key::List(values)),
            Err(fault) => Err(fault),
        },
        LookupBy::Range(_) => read_ranged(alloc, d, types, fields),
        LookupBy::Address => only_address(fields),
        LookupBy::Nothing => Err(LineFault::Unread),
    }
}
