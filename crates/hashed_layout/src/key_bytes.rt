// The bytes of key lists, compared and hashed without being written down.
ghost use Rattle.std.specs.Prelude.{◌≡◌, ◌≢◌, ◌≤◌, ◌↔◌, ◌∷◌, ◌++◌, ℕ, List, drop, length, take};
ghost use Rattle.std.specs.Prelude.{IsTrue, MatchOption, OnOk};
ghost use Rattle.hashed_layout.specs.KeyBytes.{BeginsWithKey, digits_of, digits_to, head_bytes, key_bytes, kind_of};
ghost use Rattle.hashed_layout.specs.KeyBytes.{magnitude_of, string_of, value_bytes};
ghost use Rattle.hashed_layout.specs.KeyHash.{bits_of, folded_bits, hash_of, text_bits};

use crate::probing::mixed;
use dict_value::{Bytes, KeyList, NoMemory, Value};
use std::hash::{FoldHasher, Hasher};

/// The byte behind the last value of a key list. No kind of value has this number.
pub(crate) const END_MARK: u8 = 255;

/// The bits that stand for NULL in a hash: any would do.
pub(crate) const NULL_BITS: u64 = 0x9e37_79b9_7f4a_7c15;

/// The bits that a hash begins with: any would do.
pub(crate) const SEED: u64 = 0x243f_6a88_85a3_08d3;

/// The greatest number of digits of a value's number.
const MOST_DIGITS: usize = 16;

/// What stands before the text of a value: its kind, the number of digits of its number, and these.
#[derive(Clone, Copy)]
struct Head {
    bytes: [u8; 18],
    len: usize,
}

/// The head of this kind and number.
fn head_from(kind: u8, number: u128) -> Head
    ensures within { result.len ≤ 18 }
    ensures bytes { take result.len result.bytes ≡ kind ∷ length (digits_to 16 number) ∷ digits_to 16 number }
{
    let mut bytes = [0; 18];
    bytes[0] = kind;
    let mut rest = number;
    let mut size = 0;
    while size < MOST_DIGITS && rest > 0 {
        bytes[size + 2] = (rest % 256) as u8;
        rest /= 256;
        size += 1;
    }
    bytes[1] = size as u8;
    Head {
        bytes,
        len: size + 2,
    }
}

/// The kind and the number of a value.
fn kind_and_number(value: &Value) -> (u8, u128)
    ensures kind { result.0 ≡ kind_of value.now }
    ensures number { result.1 ≡ magnitude_of value.now }
{
    match value {
        Value::Null => (0, 0),
        Value::U(n) => (1, u128::from(*n)),
        Value::I(z) => (if *z < 0 { 3 } else { 2 }, u128::from(z.unsigned_abs())),
        Value::S(text) => (4, text.len() as u128),
        Value::Day(n) => (5, u128::from(*n)),
        Value::Second(n) => (6, u128::from(*n)),
        Value::Id(n) => (7, *n),
        Value::V4(n) => (8, u128::from(*n)),
        Value::V6(n) => (9, *n),
        Value::Dec(z) => (if *z < 0 { 11 } else { 10 }, z.unsigned_abs()),
    }
}

/// What stands before the text of a value.
fn head_of(value: &Value) -> Head
    ensures within { result.len ≤ 18 }
    ensures bytes { take result.len result.bytes ≡ head_bytes value.now }
{
    let (kind, number) = kind_and_number(value);
    head_from(kind, number)
}

/// The text of a value.
fn string_of(value: &Value) -> &[u8]
    ensures { result.now ≡ string_of value.now }
{
    match value {
        Value::S(text) => text.as_slice(),
        _ => &[],
    }
}

/// What follows a piece that bytes begin with.
fn behind<'a>(bytes: &'a [u8], piece: &[u8]) -> Option<&'a [u8]>
    ensures { MatchOption result ((rest : List ℕ) → bytes.now ≢ piece.now ++ rest)
        (λ rest. bytes.now ≡ piece.now ++ rest.now) }
{
    bytes.strip_prefix(piece)
}

/// How many digits a number has, where bytes begin with them.
#[inline(always)]
fn digits_met(bytes: &[u8], number: u128) -> Option<usize>
    ensures { MatchOption result ((rest : List ℕ) → bytes.now ≢ digits_of number ++ rest)
        (λ count. (count ≡ length (digits_of number)) × (bytes.now ≡ digits_of number ++ drop count bytes.now)) }
{
    let mut left = number;
    let mut count = 0;
    while left > 0 {
        if count >= bytes.len() || bytes[count] != (left % 256) as u8 {
            return None;
        }
        left /= 256;
        count += 1;
    }
    Some(count)
}

/// What follows the head of a value that bytes begin with.
#[inline(always)]
fn behind_head<'a>(bytes: &'a [u8], value: &Value) -> Option<&'a [u8]>
    ensures { MatchOption result ((rest : List ℕ) → bytes.now ≢ head_bytes value.now ++ rest)
        (λ rest. bytes.now ≡ head_bytes value.now ++ rest.now) }
{
    let (kind, number) = kind_and_number(value);
    if bytes.len() < 2 || bytes[0] != kind {
        return None;
    }
    let digits = &bytes[2..];
    match digits_met(digits, number) {
        Some(count) if bytes[1] as usize == count => Some(&digits[count..]),
        _ => None,
    }
}

/// What follows the text of a value that bytes begin with.
#[inline(always)]
fn behind_string<'a>(bytes: &'a [u8], value: &Value) -> Option<&'a [u8]>
    ensures { MatchOption result ((rest : List ℕ) → bytes.now ≢ string_of value.now ++ rest)
        (λ rest. bytes.now ≡ string_of value.now ++ rest.now) }
{
    match value {
        Value::S(text) => behind(bytes, text.as_slice()),
        _ => Some(bytes),
    }
}

/// What follows the bytes of a value that bytes begin with.
fn behind_value<'a>(bytes: &'a [u8], value: &Value) -> Option<&'a [u8]>
    ensures { MatchOption result ((rest : List ℕ) → bytes.now ≢ value_bytes value.now ++ rest)
        (λ rest. bytes.now ≡ value_bytes value.now ++ rest.now) }
{
    let Some(rest) = behind_head(bytes, value) else {
        return None;
    };
    behind_string(rest, value)
}

/// Whether bytes begin with those of a key list.
pub(crate) fn begins_with_key(bytes: &[u8], key: &KeyList) -> bool
    ensures { IsTrue result ↔ BeginsWithKey bytes.now key.now }
{
    let mut rest = bytes;
    for value in key.as_slice() {
        match behind_value(rest, value) {
            Some(next) => rest = next,
            None => return false,
        }
    }
    !rest.is_empty() && rest[0] == END_MARK
}

/// Appends the bytes of a key list; after `NoMemory` the front is as it was.
pub(crate) fn push_key(out: &mut Bytes, key: &KeyList) -> Result<(), NoMemory>
    ensures { OnOk result (out.new ≡ out.old ++ key_bytes key.now) }
{
    for value in key.as_slice() {
        let head = head_of(value);
        out.extend(&head.bytes[..head.len])?;
        out.extend(string_of(value))?;
    }
    out.push(END_MARK)
}

/// 64 bits of a number of 128.
fn folded(number: u128) -> u64
    ensures { result ≡ folded_bits number }
{
    (number % (1 << 64)) as u64 ^ mixed((number >> 64) as u64)
}

/// 64 bits of a text.
#[inline(always)]
fn text_bits(text: &[u8]) -> u64
    ensures { result ≡ text_bits text.now }
{
    let mut hasher = FoldHasher::default();
    hasher.write(text);
    hasher.finish()
}

/// 64 bits of a value.
#[inline(always)]
fn bits_of(value: &Value) -> u64
    ensures { result ≡ bits_of value.now }
{
    match value {
        Value::Null => NULL_BITS,
        Value::U(n) => *n,
        Value::I(z) => z.cast_unsigned(),
        Value::S(text) => text_bits(text.as_slice()),
        Value::Day(n) => u64::from(*n),
        Value::Second(n) => u64::from(*n),
        Value::Id(n) => folded(*n),
        Value::V4(n) => u64::from(*n),
        Value::V6(n) => folded(*n),
        Value::Dec(z) => folded(z.cast_unsigned()),
    }
}

/// The number that a key list is hashed to.
pub(crate) fn hash_of(key: &KeyList) -> u64
    ensures { result ≡ hash_of key.now }
{
    let mut state = SEED;
    for value in key.as_slice() {
        state = mixed(state ^ bits_of(value));
    }
    state
}

/// About how many bytes key lists have, so that they are stored without growing; any number would do.
pub(crate) fn room_for(keys: &[KeyList]) -> usize {
    let mut room: usize = 0;
    for key in keys {
        for value in key.as_slice() {
            let size = head_of(value).len + string_of(value).len();
            room = room.saturating_add(size);
        }
        room = room.saturating_add(1);
    }
    room
}
