// The texts of numbers and addresses; addresses by RFC 5952.
ghost use Rattle.std.specs.Prelude.{◌≡◌, ◌++◌, ◌+◌, ◌≤◌, ◌<◌, length, take, OnOk, OnErr};
ghost use Rattle.std.specs.Char.{digit_char};
ghost use Rattle.std.specs.Net.Addr.{ipv4_octets, ipv6_segments};
ghost use Rattle.std.specs.Net.Text.{ipv4_text, ipv6_text, hex, groups_text, hex_groups_text, leading_zero_digits};
ghost use Rattle.std.specs.Net.Text.{longest_zero_run};

use crate::bytes::Bytes;
use crate::fault::NoMemory;
use itoa::{Buffer, Integer};
use std::net::{Ipv4Addr, Ipv6Addr};

/// Appends a number in decimal digits; after `NoMemory` the front is as it was.
pub fn push_number<I: Integer>(out: &mut Bytes, n: I) -> Result<(), NoMemory>
    ensures ok { OnOk result (out.new ≡ out.old ++ I.text n) }
    ensures err { OnErr result (out.new ≡ out.old) }
{
    let mut digits = Buffer::new();
    out.extend(digits.format(n).as_bytes())
}

/// Appends the text of an IPv4 address; after `NoMemory` the front is as it was.
pub(crate) fn push_v4(out: &mut Bytes, address: &Ipv4Addr) -> Result<(), NoMemory>
    ensures ok { OnOk result (out.new ≡ out.old ++ ipv4_text (ipv4_octets address.now)) }
    ensures err { OnErr result (take (length out.old) out.new ≡ out.old) }
{
    let [a, b, c, d] = address.octets();
    push_number(out, a)?;
    out.push(b'.')?;
    push_number(out, b)?;
    out.push(b'.')?;
    push_number(out, c)?;
    out.push(b'.')?;
    push_number(out, d)
}

fn digit_letter(digit: u16) -> u8
    requires { digit < 16 }
    ensures { result ≡ digit_char digit }
{
    if digit < 10 {
        b'0' + digit as u8
    } else {
        b'a' + (digit - 10) as u8
    }
}

/// How many of the four digits of a group are zeros before its number.
fn leading_zero_digits(group: u16) -> usize
    ensures value { result ≡ leading_zero_digits group }
    ensures within { result < 4 }
{
    match group {
        0x1000.. => 0,
        0x100.. => 1,
        0x10.. => 2,
        _ => 3,
    }
}

/// Appends a group in hexadecimal digits without leading zeros.
#[tactic(auto, unfolding(std::specs::Net::Text::hex))]
fn push_group(out: &mut Bytes, group: u16) -> Result<(), NoMemory>
    ensures ok { OnOk result (out.new ≡ out.old ++ hex group) }
    ensures err { OnErr result (out.new ≡ out.old) }
{
    let digits = [
        digit_letter(group / 0x1000),
        digit_letter(group / 0x100 % 16),
        digit_letter(group / 0x10 % 16),
        digit_letter(group % 16),
    ];
    out.extend(&digits[leading_zero_digits(group)..])
}

/// Appends groups with colons between them; after `NoMemory` the front is as it was.
fn push_groups(out: &mut Bytes, groups: &[u16]) -> Result<(), NoMemory>
    ensures ok { OnOk result (out.new ≡ out.old ++ groups_text groups.now) }
    ensures err { OnErr result (take (length out.old) out.new ≡ out.old) }
{
    let [first, rest @ ..] = groups else {
        return Ok(());
    };
    push_group(out, *first)?;
    for group in rest {
        out.push(b':')?;
        push_group(out, *group)?;
    }
    Ok(())
}

/// The start and the length of the longest run of zeros, the first one of that length.
fn longest_zero_run(groups: &[u16]) -> (usize, usize)
    ensures value { result ≡ longest_zero_run groups.now }
    ensures within { result.0 + result.1 ≤ length groups.now }
{
    let mut start = groups.len();
    let mut len = 0;
    let mut run = 0;
    for i in (0..groups.len()).rev() {
        run = if groups[i] == 0 { run + 1 } else { 0 };
        if run >= len {
            start = i;
            len = run;
        }
    }
    (start, len)
}

/// Appends groups, the longest run of zeros as `::`; after `NoMemory` the front is as it was.
#[tactic(auto, using(crate::proofs::Fronts::front_stays), unfolding(std::specs::Net::Text::hex_groups_text))]
fn push_short_groups(out: &mut Bytes, groups: &[u16]) -> Result<(), NoMemory>
    ensures ok { OnOk result (out.new ≡ out.old ++ hex_groups_text groups.now) }
    ensures err { OnErr result (take (length out.old) out.new ≡ out.old) }
{
    let (start, len) = longest_zero_run(groups);
    if len <= 1 {
        return push_groups(out, groups);
    }
    push_groups(out, &groups[..start])?;
    out.extend(b"::")?;
    push_groups(out, &groups[start + len..])
}

/// Appends the text of an IPv6 address; after `NoMemory` the front is as it was.
pub(crate) fn push_v6(out: &mut Bytes, address: &Ipv6Addr) -> Result<(), NoMemory>
    ensures ok { OnOk result (out.new ≡ out.old ++ ipv6_text (ipv6_segments address.now)) }
    ensures err { OnErr result (take (length out.old) out.new ≡ out.old) }
{
    match address.to_ipv4_mapped() {
        Some(v4) => {
            out.extend(b"::ffff:")?;
            push_v4(out, &v4)
        }
        None => push_short_groups(out, &address.segments()),
    }
}
