// Dates and seconds, which `jiff` checks and converts.
ghost use Rattle.std.specs.Prelude.{◌≡◌, ◌+◌, ◌*◌, ◌^◌, ◌-◌, ◌<◌, ◌≤◌, ◌∷◌, length, take, drop, IsTrue, if◌then◌else◌};
ghost use Rattle.std.specs.Prelude.{Some, None, IfOk, pos, ◌+ℤ◌, ◌≤ℤ◌};
ghost use Rattle.std.specs.Str.{all_ascii_digits};
ghost use Rattle.std.specs.Str.Parse.{digits_value};
ghost use Rattle.dict_value.specs.Letters.{space};
ghost use Rattle.dict_value.specs.declared.dates.TheConstants.{DAY_SECONDS};
ghost use Rattle.dict_value.specs.Dates.{civil, is_civil, has_date_form, day_in, day_of, date_of, has_clock_form};
ghost use Rattle.dict_value.specs.Dates.{clock_in, plain_second_in, civil_second_in, second_of, from_zero_below};
ghost use Rattle.dict_value.specs.Dates.{second_after, civil_of_day, date_text, two, clock_text, day_text, second_text};
ghost use Rattle.dict_value.specs.Values.{as_value, HasType};
ghost use Rattle.dict_value.specs.declared.value.ColType.{ColType};
ghost use Rattle.dict_value.specs.declared.value.Value.TheVariants.{Day, Second};

use crate::numbers::{all_digits, short_number};
use crate::value::{BadValue, Value};
use jiff::civil::Date;
use jiff_core::civil;

/// How many seconds a day has.
pub(crate) const DAY_SECONDS: u32 = 86400;

/// Four digits, `-`, two digits, `-`, two digits.
fn has_date_form(text: &[u8]) -> bool
    ensures { result ≡ has_date_form text.now }
{
    text.len() == 10
        && all_digits(&text[..4])
        && text[4] == b'-'
        && all_digits(&text[5..7])
        && text[7] == b'-'
        && all_digits(&text[8..10])
}

/// The number of a day, from 1970-01-01, where the calendar has it.
fn day_number(year: u16, month: u8, day: u8) -> Option<i32>
    requires year { year < 10000 }
    requires month { month < 100 }
    requires day { day < 100 }
    ensures { result ≡ (let c = civil year month day in if is_civil c then Some (day_of c) else None) }
{
    match Date::new(year as i16, month as i8, day as i8) {
        Ok(date) => Some(date.to_plain().to_unix_epoch_day()),
        Err(_) => None,
    }
}

/// The number of the day that a text writes, from 1970-01-01.
fn day_in(text: &[u8]) -> Option<i32>
    ensures { result ≡ day_in text.now }
{
    if !has_date_form(text) {
        return None;
    }
    let year = short_number(&text[..4]) as u16;
    let month = short_number(&text[5..7]) as u8;
    let day = short_number(&text[8..10]) as u8;
    day_number(year, month, day)
}

/// A Date, where the number of the day is in its range.
fn date_value(day: i32) -> Result<Value, BadValue>
    ensures exact { result ≡ as_value Day (from_zero_below (2 ^ 16) day) }
    ensures fits { IfOk result (HasType ColType.Date) }
{
    if day < 0 || day > i32::from(u16::MAX) {
        return Err(BadValue::OutOfRange);
    }
    Ok(Value::Day(day as u16))
}

/// A Date from 1970-01-01 to 2149-06-06.
pub(crate) fn read_date(text: &[u8]) -> Result<Value, BadValue>
    ensures exact { result ≡ as_value Day (date_of text.now) }
    ensures fits { IfOk result (HasType ColType.Date) }
{
    match day_in(text) {
        None => Err(BadValue::BadDate),
        Some(day) => date_value(day),
    }
}

/// Two digits, `:`, two digits, `:`, two digits.
fn has_clock_form(text: &[u8]) -> bool
    ensures { result ≡ has_clock_form text.now }
{
    text.len() == 8
        && all_digits(&text[..2])
        && text[2] == b':'
        && all_digits(&text[3..5])
        && text[5] == b':'
        && all_digits(&text[6..])
}

/// The second of the day that a text writes.
fn clock_in(text: &[u8]) -> Option<u32>
    ensures { result ≡ clock_in text.now }
{
    if !has_clock_form(text) {
        return None;
    }
    let hour = short_number(&text[..2]);
    let minute = short_number(&text[3..5]);
    let second = short_number(&text[6..]);
    if hour >= 24 || minute >= 60 || second >= 60 {
        return None;
    }
    Some((hour * 3600 + minute * 60 + second) as u32)
}

/// The second that five to ten digits write.
fn plain_second_in(text: &[u8]) -> Option<i64>
    ensures { result ≡ plain_second_in text.now }
{
    if text.len() < 5 || text.len() > 10 || !all_digits(text) {
        return None;
    }
    Some(short_number(text) as i64)
}

/// The second at a time of a day.
fn second_at(day: Option<i32>, clock: Option<u32>) -> Option<i64>
    ensures { result ≡ second_after day clock }
{
    match (day, clock) {
        (Some(day), Some(clock)) => Some(
            i64::from(day) * i64::from(DAY_SECONDS) + i64::from(clock),
        ),
        _ => None,
    }
}

/// The second that a date, a space and a time write.
fn civil_second_in(text: &[u8]) -> Option<i64>
    ensures { result ≡ civil_second_in text.now }
{
    if text.len() < 11 || text[10] != b' ' {
        return None;
    }
    second_at(day_in(&text[..10]), clock_in(&text[11..]))
}

/// A DateTime, where the second is in its range.
fn second_value(second: i64) -> Result<Value, BadValue>
    ensures exact { result ≡ as_value Second (from_zero_below (2 ^ 32) second) }
    ensures fits { IfOk result (HasType ColType.DateTime) }
{
    if second < 0 || second > i64::from(u32::MAX) {
        return Err(BadValue::OutOfRange);
    }
    Ok(Value::Second(second as u32))
}

/// A DateTime of 32 bits.
pub(crate) fn read_second(text: &[u8]) -> Result<Value, BadValue>
    ensures exact { result ≡ as_value Second (second_of text.now) }
    ensures fits { IfOk result (HasType ColType.DateTime) }
{
    if let Some(second) = plain_second_in(text) {
        return second_value(second);
    }
    match civil_second_in(text) {
        None => Err(BadValue::BadDate),
        Some(second) => second_value(second),
    }
}

/// The year, month and day with this number.
fn civil_at(day: u16) -> (u16, u8, u8)
    ensures civil { civil result.0 result.1 result.2 ≡ civil_of_day day }
    ensures year { result.0 < 10000 }
    ensures month { result.1 < 100 }
    ensures day { result.2 < 100 }
{
    let Ok(date) = civil::Date::from_unix_epoch_day(i64::from(day)) else {
        unreachable!()
    };
    (date.year.unsigned_abs(), date.month, date.day)
}

/// The text of the day with this number.
pub(crate) fn day_text(day: u16) -> [u8; 10]
    ensures { result ≡ day_text day }
{
    let (year, month, day) = civil_at(day);
    date_text(year, month, day)
}

/// The text of a day.
fn date_text(year: u16, month: u8, day: u8) -> [u8; 10]
    requires year { year < 10000 }
    requires month { month < 100 }
    requires day { day < 100 }
    ensures { result ≡ date_text (civil year month day) }
{
    let (front, back) = ((year / 100) as u8, (year % 100) as u8);
    [
        b'0' + front / 10,
        b'0' + front % 10,
        b'0' + back / 10,
        b'0' + back % 10,
        b'-',
        b'0' + month / 10,
        b'0' + month % 10,
        b'-',
        b'0' + day / 10,
        b'0' + day % 10,
    ]
}

/// The text of a second of a day, behind a space.
pub(crate) fn clock_text(second: u32) -> [u8; 9]
    requires { second < DAY_SECONDS }
    ensures { result ≡ space ∷ clock_text second }
{
    let hour = (second / 3600) as u8;
    let minute = (second / 60 % 60) as u8;
    let second = (second % 60) as u8;
    [
        b' ',
        b'0' + hour / 10,
        b'0' + hour % 10,
        b':',
        b'0' + minute / 10,
        b'0' + minute % 10,
        b':',
        b'0' + second / 10,
        b'0' + second % 10,
    ]
}
