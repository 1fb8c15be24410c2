// The one text of a value.
ghost use Rattle.std.specs.Prelude.{◌≡◌, ◌≢◌, ◌++◌, ◌≤◌, [], length, take, IsOk, OnOk, OnErr, Ok, ◌/◌, ◌^◌};
ghost use Rattle.dict_value.specs.Values.{HasType, FitsColumn, value_text, text_reading, scale_of};
ghost use Rattle.dict_value.specs.Decimals.{decimal_text, last_digits, without_end_zeros, fraction_text};
ghost use Rattle.dict_value.specs.Dates.{second_text};
ghost use Rattle.dict_value.specs.declared.value.Value.TheVariants.{Null, S};

use crate::bytes::Bytes;
use crate::dates::{DAY_SECONDS, clock_text, day_text};
use crate::fault::NoMemory;
use crate::identifiers::push_id;
use crate::number_texts::{push_number, push_v4, push_v6};
use crate::value::{AttrType, ColType, Value};
use std::net::{Ipv4Addr, Ipv6Addr};

/// Appends the text of a second; after `NoMemory` the front is as it was.
fn push_second(out: &mut Bytes, second: u32) -> Result<(), NoMemory>
    ensures ok { OnOk result (out.new ≡ out.old ++ second_text second) }
    ensures err { OnErr result (take (length out.old) out.new ≡ out.old) }
{
    out.extend(&day_text((second / DAY_SECONDS) as u16))?;
    out.extend(&clock_text(second % DAY_SECONDS))
}

/// Fills the room with the last digits of a number, and answers what stands before them.
fn fill_digits(room: &mut [u8], n: u128) -> u128
    ensures digits { room.new ≡ last_digits (length room.old) n }
    ensures rest { result ≡ n / 10 ^ length room.old }
{
    let mut rest = n;
    for place in (0..room.len()).rev() {
        room[place] = b'0' + (rest % 10) as u8;
        rest /= 10;
    }
    rest
}

/// Digits without the zeros at their end.
fn without_zeros(digits: &[u8]) -> &[u8]
    ensures { result.now ≡ without_end_zeros digits.now }
{
    let mut kept = digits.len();
    while kept > 0 && digits[kept - 1] == b'0' {
        kept -= 1;
    }
    &digits[..kept]
}

/// Appends the text of a Decimal; after `NoMemory` the front is as it was.
fn push_decimal(out: &mut Bytes, scale: u8, z: i128) -> Result<(), NoMemory>
    ensures ok { OnOk result (out.new ≡ out.old ++ decimal_text scale z) }
    ensures err { OnErr result (take (length out.old) out.new ≡ out.old) }
{
    let mut digits = [0; 255];
    let room = &mut digits[..usize::from(scale)];
    let whole = fill_digits(room, z.unsigned_abs());
    let fraction = without_zeros(room);
    if z < 0 {
        out.push(b'-')?;
    }
    push_number(out, whole)?;
    if fraction.is_empty() {
        return Ok(());
    }
    out.push(b'.')?;
    out.extend(fraction)
}

/// Appends the text of a value; after `NoMemory` the front is as it was.
#[tactic(auto, unfolding(crate::specs::Values::value_text))]
fn push_text(t: ColType, v: &Value, out: &mut Bytes) -> Result<(), NoMemory>
    requires { HasType t v.now }
    ensures ok { OnOk result (out.new ≡ out.old ++ value_text t v.now) }
    ensures err { OnErr result (take (length out.old) out.new ≡ out.old) }
    ensures memory { v.now ≡ S [] → IsOk result }
{
    match v {
        Value::Null => Ok(()),
        Value::U(n) => push_number(out, *n),
        Value::I(z) => push_number(out, *z),
        Value::S(text) => out.extend(text.as_slice()),
        Value::Day(day) => out.extend(&day_text(*day)),
        Value::Second(second) => push_second(out, *second),
        Value::Id(id) => push_id(out, *id),
        Value::V4(bits) => push_v4(out, &Ipv4Addr::from_bits(*bits)),
        Value::V6(bits) => push_v6(out, &Ipv6Addr::from_bits(*bits)),
        Value::Dec(z) => push_decimal(out, scale_of(t), *z),
    }
}

fn scale_of(t: ColType) -> u8
    ensures { result ≡ scale_of t }
{
    match t {
        ColType::Decimal(_, scale) => scale,
        _ => 0,
    }
}

/// Appends the one text of a value that isn't Null, unescaped; after `NoMemory` nothing has changed.
pub fn write_value(t: &AttrType, v: &Value, out: &mut Bytes) -> Result<(), NoMemory>
    requires fits { FitsColumn t.now v.now }
    requires some { v.now ≢ Null }
    ensures ok { OnOk result (out.new ≡ out.old ++ value_text t.now.base v.now) }
    ensures err { OnErr result (out.new ≡ out.old) }
    // The empty string takes no memory.
    ensures memory { v.now ≡ S [] → IsOk result }
    // What is written is read as the value again.
    ensures again { text_reading t.now.base (value_text t.now.base v.now) ≡ Ok v.now }
{
    let before = out.len();
    let written = push_text(t.base, v, out);
    if written.is_err() {
        out.truncate(before);
    }
    written
}
