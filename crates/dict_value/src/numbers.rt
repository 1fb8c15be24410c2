// Whole numbers, read byte by byte.
ghost use Rattle.std.specs.Prelude.{◌≡◌, ◌+◌, ◌*◌, ◌^◌, ◌-◌, ◌<◌, ◌≤◌, min, length, IsTrue, pos, neg_ℤ, if◌then◌else◌};
ghost use Rattle.std.specs.Char.{digit_value};
ghost use Rattle.std.specs.Str.{all_ascii_digits};
ghost use Rattle.std.specs.Str.Parse.{digits_value, starts_with_minus, without_leading_sign};
ghost use Rattle.dict_value.specs.Numbers.{is_numeral, number_in, unsigned_in, signed_in, given, below, within};
ghost use Rattle.dict_value.specs.Values.{as_value};
ghost use Rattle.dict_value.specs.declared.value.Value.TheVariants.{U, I};
ghost use Rattle.dict_value.specs.declared.value.BadValue.TheVariants.{NotANumber};

use crate::value::{BadValue, Value};

/// Whether each byte is a digit from 0 to 9.
pub(crate) fn all_digits(text: &[u8]) -> bool
    ensures { result ≡ all_ascii_digits text.now }
{
    for b in text {
        if !b.is_ascii_digit() {
            return false;
        }
    }
    true
}

/// Whether a text is one digit or more, and nothing else.
pub(crate) fn is_numeral(text: &[u8]) -> bool
    ensures { result ≡ is_numeral text.now }
{
    !text.is_empty() && all_digits(text)
}

/// The number whose last digit follows those of `n`, or the greatest `u128` where it is greater.
pub(crate) fn with_digit(n: u128, digit: u8) -> u128
    requires { digit_value digit < 10 }
    ensures { result ≡ min (n * 10 + digit_value digit) (2 ^ 128 - 1) }
{
    n.saturating_mul(10)
        .saturating_add(u128::from(digit - b'0'))
}

/// The number that digits write, or the greatest `u128` where it is greater.
pub(crate) fn number_of(digits: &[u8]) -> u128
    requires { IsTrue (all_ascii_digits digits.now) }
    ensures { result ≡ min (digits_value 10 digits.now) (2 ^ 128 - 1) }
{
    let mut n = 0;
    for b in digits {
        n = with_digit(n, *b);
    }
    n
}

/// The number that a few digits write.
pub(crate) fn short_number(digits: &[u8]) -> u64
    requires digits { IsTrue (all_ascii_digits digits.now) }
    requires len { length digits.now ≤ 10 }
    ensures value { result ≡ digits_value 10 digits.now }
    ensures bound { result < 10 ^ length digits.now }
{
    number_of(digits) as u64
}

/// Whether a text begins with a minus sign, and what follows an optional sign.
pub(crate) fn split_sign(text: &[u8]) -> (bool, &[u8])
    ensures negative { result.0 ≡ starts_with_minus text.now }
    ensures rest { result.1.now ≡ without_leading_sign text.now }
{
    match text {
        [b'-', rest @ ..] => (true, rest),
        [b'+', rest @ ..] => (false, rest),
        _ => (false, text),
    }
}

/// A value of an unsigned type whose greatest is `most`.
pub(crate) fn read_unsigned(text: &[u8], most: u64) -> Result<Value, BadValue>
    ensures { result ≡ as_value U (given (unsigned_in text.now) NotANumber (below (most + 1))) }
{
    let digits = match text {
        [b'+', rest @ ..] => rest,
        _ => text,
    };
    if !is_numeral(digits) {
        return Err(BadValue::NotANumber);
    }
    let n = number_of(digits);
    if n > u128::from(most) {
        return Err(BadValue::OutOfRange);
    }
    Ok(Value::U(n as u64))
}

/// A number with its sign.
pub(crate) fn with_sign(negative: bool, n: u128) -> i128
    requires { n < 2 ^ 127 }
    ensures { result ≡ (if negative then neg_ℤ (pos n) else pos n) }
{
    if negative { -(n as i128) } else { n as i128 }
}

/// A value of a signed type whose greatest is `most`.
pub(crate) fn read_signed(text: &[u8], most: u64) -> Result<Value, BadValue>
    requires { most < 2 ^ 63 }
    ensures { result ≡ as_value I (given (signed_in number_in text.now) NotANumber (within (most + 1))) }
{
    let (negative, digits) = split_sign(text);
    if !is_numeral(digits) {
        return Err(BadValue::NotANumber);
    }
    let n = number_of(digits);
    if n > u128::from(most) + u128::from(negative) {
        return Err(BadValue::OutOfRange);
    }
    Ok(Value::I(with_sign(negative, n) as i64))
}
