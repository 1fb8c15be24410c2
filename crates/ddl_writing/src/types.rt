// Types and values. After `NoMemory` a front of what was to be written may stand behind what was there.
ghost use Rattle.std.specs.Prelude.{◌≡◌, ◌≢◌, ◌++◌, length, take, OnErr, OnOk};
ghost use Rattle.dict_value.specs.Values.{FitsColumn, value_text};
ghost use Rattle.dict_value.specs.declared.value.Value.TheVariants.{Null};
ghost use Rattle.ddl_writing.specs.Canonical.{as_string, base_text, decimal_type_text, literal_text, type_text};
ghost use Rattle.ddl_writing.specs.Canonical.{typed_text};

use crate::quoted::{push_name, push_string};
use dict_value::{AttrType, Bytes, ColType, NoMemory, Value, push_number, write_value};

/// Appends the type of a Decimal.
#[tactic(auto, using(dict_value::proofs::Fronts::front_stays))]
fn push_decimal(out: &mut Bytes, digits: u8, scale: u8) -> Result<(), NoMemory>
    ensures ok { OnOk result (out.new ≡ out.old ++ decimal_type_text digits scale) }
    ensures err { OnErr result (take (length out.old) out.new ≡ out.old) }
{
    out.extend(b"Decimal(")?;
    push_number(out, digits)?;
    out.extend(b", ")?;
    push_number(out, scale)?;
    out.push(b')')
}

/// Appends a type that NULL isn't in.
fn push_base(out: &mut Bytes, t: ColType) -> Result<(), NoMemory>
    ensures ok { OnOk result (out.new ≡ out.old ++ base_text t) }
    ensures err { OnErr result (take (length out.old) out.new ≡ out.old) }
{
    match t {
        ColType::UInt8 => out.extend(b"UInt8"),
        ColType::UInt16 => out.extend(b"UInt16"),
        ColType::UInt32 => out.extend(b"UInt32"),
        ColType::UInt64 => out.extend(b"UInt64"),
        ColType::Int8 => out.extend(b"Int8"),
        ColType::Int16 => out.extend(b"Int16"),
        ColType::Int32 => out.extend(b"Int32"),
        ColType::Int64 => out.extend(b"Int64"),
        ColType::Str => out.extend(b"String"),
        ColType::Date => out.extend(b"Date"),
        ColType::DateTime => out.extend(b"DateTime"),
        ColType::Uuid => out.extend(b"UUID"),
        ColType::Ipv4 => out.extend(b"IPv4"),
        ColType::Ipv6 => out.extend(b"IPv6"),
        ColType::Decimal(digits, scale) => push_decimal(out, digits, scale),
    }
}

/// Appends a type.
#[tactic(auto, using(dict_value::proofs::Fronts::front_stays))]
pub(crate) fn push_type(out: &mut Bytes, t: &AttrType) -> Result<(), NoMemory>
    ensures ok { OnOk result (out.new ≡ out.old ++ type_text t.now) }
    ensures err { OnErr result (take (length out.old) out.new ≡ out.old) }
{
    if !t.nullable {
        return push_base(out, t.base);
    }
    out.extend(b"Nullable(")?;
    push_base(out, t.base)?;
    out.push(b')')
}

/// Appends a value in quotes, whose text has no byte to escape.
#[tactic(auto, using(dict_value::proofs::Fronts::front_stays))]
fn push_as_string(out: &mut Bytes, t: &AttrType, v: &Value) -> Result<(), NoMemory>
    requires fits { FitsColumn t.now v.now }
    requires some { v.now ≢ Null }
    ensures ok { OnOk result (out.new ≡ out.old ++ as_string (value_text t.now.base v.now)) }
    ensures err { OnErr result (take (length out.old) out.new ≡ out.old) }
{
    out.push(b'\'')?;
    write_value(t, v, out)?;
    out.push(b'\'')
}

/// Appends a default as it is written in a definition.
pub(crate) fn push_literal(out: &mut Bytes, t: &AttrType, v: &Value) -> Result<(), NoMemory>
    requires { FitsColumn t.now v.now }
    ensures ok { OnOk result (out.new ≡ out.old ++ literal_text t.now.base v.now) }
    ensures err { OnErr result (take (length out.old) out.new ≡ out.old) }
{
    match v {
        Value::Null => out.extend(b"NULL"),
        Value::U(_) | Value::I(_) | Value::Dec(_) => write_value(t, v, out),
        Value::S(text) => push_string(out, text.as_slice()),
        _ => push_as_string(out, t, v),
    }
}

/// Appends a name and its type.
#[tactic(auto, using(dict_value::proofs::Fronts::front_stays))]
pub(crate) fn push_typed(out: &mut Bytes, name: &[u8], t: &AttrType) -> Result<(), NoMemory>
    ensures ok { OnOk result (out.new ≡ out.old ++ typed_text name.now t.now) }
    ensures err { OnErr result (take (length out.old) out.new ≡ out.old) }
{
    push_name(out, name)?;
    out.push(b' ')?;
    push_type(out, t)
}
