// How many lines belong to a request.
ghost use Rattle.std.specs.Prelude.{◌≡◌, ◌⊎◌, ◌≢◌, ◌++◌, ◌∷◌, ◌<◌, ◌^◌, ℕ, List, MatchOption, codes};
ghost use Rattle.wire_text.specs.Numbers.{IsDecimalText};
ghost use Rattle.wire_text.specs.Requests.{IsBlockLine, LinesAfter};
ghost use Rattle.dict_value.specs.Split.{Lacks};

use crate::decimals::read_decimal;
use dict_value::letters::TAB;
use dict_value::split_at_byte;

/// The greatest number of bytes of a line, without its line feed.
pub const MOST_LINE_BYTES: u32 = 65_536;

/// The greatest number of lines that may follow the first line of a request.
pub const MOST_BLOCK_LINES: u32 = 4_096;

/// The greatest number of bytes of the lines that follow the first line of a request, with their line feeds.
pub const MOST_BLOCK_BYTES: u32 = 1_048_576;

/// The greatest number of requests of a session.
pub const MOST_REQUESTS: u64 = 4_294_967_296;

/// What stands before the first tab.
fn first_part(text: &[u8]) -> &[u8]
    ensures before { Lacks TAB result.now }
    ensures rest { (text.now ≡ result.now) ⊎ ((more : List ℕ) × (text.now ≡ result.now ++ TAB ∷ more)) }
{
    match split_at_byte(text, TAB) {
        Some((before, _)) => before,
        None => text,
    }
}

/// The number of 32 bits that a text writes.
pub(crate) fn count_in(text: &[u8]) -> Option<u32>
    ensures { MatchOption result ((n : ℕ) → IsDecimalText text.now n → ¬ (n < 2 ^ 32))
        (λ n. IsDecimalText text.now n × (n < 2 ^ 32)) }
{
    match read_decimal(text) {
        Some(number) if number <= u64::from(u32::MAX) => Some(number as u32),
        _ => None,
    }
}

/// What follows the word of a block and a tab.
fn behind_many(line: &[u8]) -> Option<&[u8]>
    ensures { MatchOption result ((rest : List ℕ) → line.now ≢ codes "many" ++ TAB ∷ rest)
        (λ rest. line.now ≡ codes "many" ++ TAB ∷ rest.now) }
{
    line.strip_prefix(b"many\t")
}

/// How many lines follow the first line of a block.
pub(crate) fn block_size(line: &[u8]) -> Option<u32>
    ensures { MatchOption result ((n : ℕ) → ¬ IsBlockLine line.now n)
        (λ n. IsBlockLine line.now n × ((m : ℕ) → IsBlockLine line.now m → m ≡ n)) }
{
    match behind_many(line) {
        Some(rest) => count_in(first_part(rest)),
        None => None,
    }
}

/// How many lines follow the first line of a request: 0 for one that is no block. It takes no memory.
pub fn lines_after(line: &[u8]) -> u32
    ensures { LinesAfter line.now result }
{
    match block_size(line) {
        Some(count) => count,
        None => 0,
    }
}
