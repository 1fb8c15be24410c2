// Whether a value is one of a type.
ghost use Rattle.std.specs.Prelude.{◌↔◌, IsTrue};
ghost use Rattle.dict_value.specs.Values.{FitsColumn, HasType};

use crate::decimals::bound_of;
use crate::value::{AttrType, ColType, Value};

/// Whether a value is one of a column's type, or Null where the column may be NULL.
pub fn fits_column(t: &AttrType, v: &Value) -> bool
    ensures { IsTrue result ↔ FitsColumn t.now v.now }
{
    match v {
        Value::Null => t.nullable,
        _ => has_type(t.base, v),
    }
}

/// Whether a value is one of a type, Null aside. A number is read also where each one will do: that
/// it is within its bits is known once it is read.
fn has_type(t: ColType, v: &Value) -> bool
    ensures { IsTrue result ↔ HasType t v.now }
{
    match (t, v) {
        (ColType::UInt8, Value::U(n)) => *n < 1 << 8,
        (ColType::UInt16, Value::U(n)) => *n < 1 << 16,
        (ColType::UInt32, Value::U(n)) => *n < 1 << 32,
        (ColType::UInt64, Value::U(n)) => any_number(*n),
        (ColType::Int8, Value::I(z)) => i8::try_from(*z).is_ok(),
        (ColType::Int16, Value::I(z)) => i16::try_from(*z).is_ok(),
        (ColType::Int32, Value::I(z)) => i32::try_from(*z).is_ok(),
        (ColType::Int64, Value::I(z)) => any_number(*z),
        (ColType::Str, Value::S(_)) => true,
        (ColType::Date, Value::Day(n)) => any_number(*n),
        (ColType::DateTime, Value::Second(n)) => any_number(*n),
        (ColType::Uuid, Value::Id(n)) => any_number(*n),
        (ColType::Ipv4, Value::V4(n)) => any_number(*n),
        (ColType::Ipv6, Value::V6(n)) => any_number(*n),
        (ColType::Decimal(digits, _), Value::Dec(z)) => z.unsigned_abs() < bound_of(digits),
        _ => false,
    }
}

/// Takes each number.
fn any_number<N: Copy>(_n: N) -> bool
    ensures { IsTrue result }
{
    true
}
