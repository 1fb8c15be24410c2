// A value from a field, and the value that stands where none is given.
ghost use Rattle.std.specs.Prelude.{◌≡◌, IfOk, Err};
ghost use Rattle.dict_value.specs.Memory.{UnlessNoMemory};
ghost use Rattle.dict_value.specs.Values.{FitsColumn, HasType, IsStringField, IsStringText, default_of_column, reading};
ghost use Rattle.dict_value.specs.Values.{text_reading};
ghost use Rattle.dict_value.specs.declared.value.BadValue.TheVariants as fault;

use crate::addresses::{read_v4, read_v6};
use crate::bytes::Bytes;
use crate::dates::{read_date, read_second};
use crate::decimals::read_decimal;
use crate::identifiers::read_id;
use crate::numbers::{read_signed, read_unsigned};
use crate::value::{AttrType, BadValue, ColType, Field, Value};
use std::alloc::Global;

/// The value of a field; only a String that isn't empty takes memory.
#[tactic(auto, using(crate::proofs::Readings::reading_has_memory))]
pub fn read_value(alloc: Global, t: &AttrType, field: &Field) -> Result<Value, BadValue>
    ensures exact { UnlessNoMemory (Err fault.NoMemory) result (result ≡ reading t.now field.now) }
    ensures memory { result ≡ Err fault.NoMemory → IsStringField t.now field.now }
    ensures fits { IfOk result (FitsColumn t.now) }
{
    match field {
        Field::Null if t.nullable => Ok(Value::Null),
        Field::Null => Err(BadValue::NullNotAllowed),
        Field::Text(text) => read_text(alloc, t.base, text.as_slice()),
    }
}

/// The value that a text has at a type; only a String that isn't empty takes memory.
#[tactic(auto, using(crate::proofs::Readings::text_has_memory), unfolding(crate::specs::Values::text_reading))]
pub fn read_text(alloc: Global, base: ColType, text: &[u8]) -> Result<Value, BadValue>
    ensures exact { UnlessNoMemory (Err fault.NoMemory) result (result ≡ text_reading base text.now) }
    ensures memory { result ≡ Err fault.NoMemory → IsStringText base text.now }
    ensures fits { IfOk result (HasType base) }
{
    match base {
        ColType::UInt8 => read_unsigned(text, u64::from(u8::MAX)),
        ColType::UInt16 => read_unsigned(text, u64::from(u16::MAX)),
        ColType::UInt32 => read_unsigned(text, u64::from(u32::MAX)),
        ColType::UInt64 => read_unsigned(text, u64::MAX),
        ColType::Int8 => read_signed(text, 0x7f),
        ColType::Int16 => read_signed(text, 0x7fff),
        ColType::Int32 => read_signed(text, 0x7fff_ffff),
        ColType::Int64 => read_signed(text, 0x7fff_ffff_ffff_ffff),
        ColType::Str => match Bytes::of_text(alloc, text) {
            Ok(bytes) => Ok(Value::S(bytes)),
            Err(_) => Err(BadValue::NoMemory),
        },
        ColType::Date => read_date(text),
        ColType::DateTime => read_second(text),
        ColType::Uuid => read_id(text),
        ColType::Ipv4 => read_v4(text),
        ColType::Ipv6 => read_v6(text),
        ColType::Decimal(digits, scale) => read_decimal(text, digits, scale),
    }
}

/// What stands where no value is given: Null where it is allowed, and else 0 or the empty string.
pub fn default_of(alloc: Global, t: &AttrType) -> Value
    ensures value { result ≡ default_of_column t.now }
    ensures fits { FitsColumn t.now result }
{
    if t.nullable {
        return Value::Null;
    }
    match t.base {
        ColType::UInt8 | ColType::UInt16 | ColType::UInt32 | ColType::UInt64 => Value::U(0),
        ColType::Int8 | ColType::Int16 | ColType::Int32 | ColType::Int64 => Value::I(0),
        ColType::Str => Value::S(Bytes::new(alloc)),
        ColType::Date => Value::Day(0),
        ColType::DateTime => Value::Second(0),
        ColType::Uuid => Value::Id(0),
        ColType::Ipv4 => Value::V4(0),
        ColType::Ipv6 => Value::V6(0),
        ColType::Decimal(_, _) => Value::Dec(0),
    }
}
