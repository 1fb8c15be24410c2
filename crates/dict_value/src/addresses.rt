// Addresses and prefixes.
ghost use Rattle.std.specs.Prelude.{◌≡◌, ◌↔◌, ◌≤◌, ◌-◌, ◌%◌, ◌^◌, ℕ, List, OnErr, IfOk, IfSome, Ok, Some};
ghost use Rattle.dict_value.specs.Addresses.{IsAddress, IsV4, IsV6, IsPrefix, v4_in, v6_in, v4_of, v6_of, address_in};
ghost use Rattle.dict_value.specs.Addresses.{length_in, prefix_len_in, prefix_in, prefix_of, width_of, first_bits};
ghost use Rattle.dict_value.specs.Numbers.{given};
ghost use Rattle.dict_value.specs.declared.value.Address.{Address};
ghost use Rattle.dict_value.specs.declared.value.BadValue.TheVariants.{BadAddress};
ghost use Rattle.dict_value.specs.Values.{as_value};
ghost use Rattle.dict_value.specs.declared.value.Value.TheVariants.{V4, V6};

use crate::decimals::cut_before;
use crate::numbers::{is_numeral, number_of};
use crate::value::{Address, BadValue, Prefix, Value};
use std::net::{Ipv4Addr, Ipv6Addr};

/// The IPv4 address that a text writes.
pub(crate) fn v4_in(text: &[u8]) -> Option<u32>
    ensures { result ≡ v4_in text.now }
{
    match Ipv4Addr::parse_ascii(text) {
        Ok(address) => Some(address.to_bits()),
        Err(_) => None,
    }
}

/// The IPv6 address that a text writes.
pub(crate) fn v6_in(text: &[u8]) -> Option<u128>
    ensures { result ≡ v6_in text.now }
{
    match Ipv6Addr::parse_ascii(text) {
        Ok(address) => Some(address.to_bits()),
        Err(_) => None,
    }
}

/// An IPv4 address as a value.
pub(crate) fn read_v4(text: &[u8]) -> Result<Value, BadValue>
    ensures { result ≡ as_value V4 (v4_of text.now) }
{
    match v4_in(text) {
        Some(bits) => Ok(Value::V4(bits)),
        None => Err(BadValue::BadAddress),
    }
}

/// An IPv6 address as a value.
pub(crate) fn read_v6(text: &[u8]) -> Result<Value, BadValue>
    ensures { result ≡ as_value V6 (v6_of text.now) }
{
    match v6_in(text) {
        Some(bits) => Ok(Value::V6(bits)),
        None => Err(BadValue::BadAddress),
    }
}

/// The address of either family that a text writes.
#[tactic(auto, unfolding(crate::specs::Addresses::address_in))]
fn address_in(text: &[u8]) -> Option<Address>
    ensures { result ≡ address_in text.now }
{
    if let Some(bits) = v4_in(text) {
        return Some(Address::V4(bits));
    }
    match v6_in(text) {
        Some(bits) => Some(Address::V6(bits)),
        None => None,
    }
}

/// The address of either family that a text writes.
pub fn read_address(text: &[u8]) -> Result<Address, BadValue>
    ensures value { result ≡ given (address_in text.now) BadAddress Ok }
    // A text is read exactly where it writes an address in four octets or eight groups.
    ensures written { IfOk result (IsAddress text.now) }
    ensures unwritten { OnErr result ((a : Address) → ¬ (IsAddress text.now a)) }
{
    match address_in(text) {
        Some(address) => Ok(address),
        None => Err(BadValue::BadAddress),
    }
}

/// A number without leading zeros, at most `most`.
fn length_in(text: &[u8], most: u8) -> Option<u8>
    ensures { result ≡ length_in most text.now }
{
    if !is_numeral(text) || (text[0] == b'0' && text.len() != 1) {
        return None;
    }
    let n = number_of(text);
    if n > u128::from(most) {
        return None;
    }
    Some(n as u8)
}

/// The length behind a slash, or the whole width where there is none.
fn prefix_len_in(rest: &[u8], width: u8) -> Option<u8>
    ensures value { result ≡ prefix_len_in width rest.now }
    ensures bound { IfSome result (λ len. len ≤ width) }
{
    match rest {
        [_, digits @ ..] => length_in(digits, width),
        [] => Some(width),
    }
}

/// The first bits of a number of `width` bits, so many of them.
fn first_bits(width: u8, count: u8, bits: u128) -> u128
    requires count { count ≤ width }
    requires width { width ≤ 128 }
    ensures value { result ≡ first_bits width count bits }
    ensures bound { result ≤ bits }
    ensures cleared { result % 2 ^ (width - count) ≡ 0 }
{
    let cleared = u32::from(width - count);
    if cleared == 128 {
        return 0;
    }
    bits - bits % (1 << cleared)
}

/// How many bits an address of the family has.
fn width_of(address: &Address) -> u8
    ensures value { result ≡ width_of address.now }
    ensures bound { result ≤ 128 }
{
    match address {
        Address::V4(_) => 32,
        Address::V6(_) => 128,
    }
}

/// The prefix of an address.
fn prefix_of(address: &Address, len: u8) -> Prefix
    requires { len ≤ width_of address.now }
    ensures value { result ≡ prefix_of address.now len }
    ensures fits { IsPrefix result }
{
    match address {
        Address::V4(bits) => Prefix {
            v6: false,
            bits: first_bits(32, len, u128::from(*bits)),
            len,
        },
        Address::V6(bits) => Prefix {
            v6: true,
            bits: first_bits(128, len, *bits),
            len,
        },
    }
}

/// The prefix that a text writes, with the bits past its length cleared.
#[tactic(auto, unfolding(crate::specs::Addresses::prefix_in))]
pub fn read_prefix(text: &[u8]) -> Result<Prefix, BadValue>
    ensures value { result ≡ given (prefix_in text.now) BadAddress Ok }
    ensures fits { IfOk result IsPrefix }
{
    let (before, rest) = cut_before(b'/', text);
    let Some(address) = address_in(before) else {
        return Err(BadValue::BadAddress);
    };
    let Some(len) = prefix_len_in(rest, width_of(&address)) else {
        return Err(BadValue::BadAddress);
    };
    Ok(prefix_of(&address, len))
}
