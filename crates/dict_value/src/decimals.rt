// Decimals, read byte by byte, as the scaled whole number.
ghost use Rattle.std.specs.Prelude.{◌≡◌, ◌+◌, ◌*◌, ◌^◌, ◌-◌, ◌<◌, ◌≤◌, ◌++◌, List, take, drop, length, min, not, ◌==◌};
ghost use Rattle.std.specs.Prelude.{slice_index_or, IsTrue, IfOk, None, Some};
ghost use Rattle.std.specs.List.{prefix_len};
ghost use Rattle.std.specs.Option.{option_map};
ghost use Rattle.std.specs.Str.{all_ascii_digits};
ghost use Rattle.std.specs.Str.Parse.{digits_value};
ghost use Rattle.dict_value.specs.Decimals.{before_byte, from_byte, places, scaled_in, decimal_of};
ghost use Rattle.dict_value.specs.declared.decimals.TheConstants.{DECIMAL_DIGITS};
ghost use Rattle.dict_value.specs.Values.{as_value, HasType};
ghost use Rattle.dict_value.specs.declared.value.ColType.{ColType};
ghost use Rattle.dict_value.specs.declared.value.Value.TheVariants.{Dec};

use crate::numbers::{is_numeral, number_of, split_sign, with_digit, with_sign};
use crate::value::{BadValue, Value};

/// The greatest number of digits of a Decimal.
const DECIMAL_DIGITS: u8 = 38;

/// The place of the first such byte, or the length where there is none.
fn place_of(byte: u8, text: &[u8]) -> usize
    ensures { result ≡ prefix_len (λ c. not (c == byte)) text.now }
{
    for (i, b) in text.iter().enumerate() {
        if *b == byte {
            return i;
        }
    }
    text.len()
}

/// A text, cut before the first such byte.
pub(crate) fn cut_before(byte: u8, text: &[u8]) -> (&[u8], &[u8])
    ensures before { result.0.now ≡ before_byte byte text.now }
    ensures from { result.1.now ≡ from_byte byte text.now }
{
    let place = place_of(byte, text);
    (&text[..place], &text[place..])
}

/// The digit at a place behind the point.
fn digit_at(fraction: &[u8], place: usize) -> u8
    ensures { result ≡ slice_index_or fraction.now place 48 }
{
    if place < fraction.len() {
        fraction[place]
    } else {
        b'0'
    }
}

/// The number of whole digits and so many behind the point, or the greatest `u128` where it is greater.
fn with_places(whole: &[u8], fraction: &[u8], scale: u8) -> u128
    requires whole { IsTrue (all_ascii_digits whole.now) }
    requires fraction { IsTrue (all_ascii_digits fraction.now) }
    ensures { result
        ≡ min (digits_value 10 (whole.now ++ places scale fraction.now)) (2 ^ 128 - 1) }
{
    let mut scaled = number_of(whole);
    for place in 0..usize::from(scale) {
        scaled = with_digit(scaled, digit_at(fraction, place));
    }
    scaled
}

/// The scaled number of a text without a sign, or the greatest `u128` where it is greater.
fn scaled_of(text: &[u8], scale: u8) -> Option<u128>
    ensures { result ≡ option_map (λ n. min n (2 ^ 128 - 1)) (scaled_in scale text.now) }
{
    let (whole, rest) = cut_before(b'.', text);
    let fraction = match rest {
        [_, fraction @ ..] => fraction,
        [] => rest,
    };
    if !is_numeral(whole) || !(rest.is_empty() || is_numeral(fraction)) {
        return None;
    }
    Some(with_places(whole, fraction, scale))
}

/// The bound of the numbers of so many digits, of which a Decimal has at most [`DECIMAL_DIGITS`].
pub(crate) fn bound_of(digits: u8) -> u128
    ensures value { result ≡ 10 ^ min digits DECIMAL_DIGITS }
    ensures bound { result ≤ 10 ^ DECIMAL_DIGITS }
{
    10u128.pow(u32::from(digits.min(DECIMAL_DIGITS)))
}

/// A Decimal with so many digits, and so many of them behind the point.
pub(crate) fn read_decimal(text: &[u8], digits: u8, scale: u8) -> Result<Value, BadValue>
    ensures exact { result ≡ as_value Dec (decimal_of digits scale text.now) }
    ensures fits { IfOk result (HasType (ColType.Decimal digits scale)) }
{
    let (negative, unsigned) = split_sign(text);
    let Some(n) = scaled_of(unsigned, scale) else {
        return Err(BadValue::BadDecimal);
    };
    if n >= bound_of(digits) {
        return Err(BadValue::OutOfRange);
    }
    Ok(Value::Dec(with_sign(negative, n)))
}
