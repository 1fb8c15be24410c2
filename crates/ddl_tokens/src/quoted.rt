// What stands between two quote signs.
ghost use Rattle.std.specs.Prelude.{◌≡◌, ◌<◌, ◌≤◌, ◌+◌, ◌∷◌, ℕ, length, IfOk, IfSome};
ghost use Rattle.ddl_tokens.specs.Letters.{same_letters};
ghost use Rattle.ddl_tokens.specs.steps.Lexer.{bytes_in, ending, spoiled, closes, plain, escaped, EndingIs, HexByteIs};
ghost use Rattle.ddl_tokens.specs.steps.Lexer.{ScanWithin, StepIs, StepWithin};

use crate::letters::{LetterCase, folded};
use dict_value::{Bytes, NoMemory, hex_digit, unescaped};
use std::alloc::Global;

/// The byte of the two hexadecimal digits that come first, and what stands behind them.
#[tactic(auto, unfolding(crate::specs::steps::Lexer::bytes_in))]
fn hex_byte(text: &[u8]) -> Option<(u8, &[u8])>
    ensures value { HexByteIs text.now result }
    ensures shorter { IfSome result (λ x. length x.1.now < length text.now) }
{
    let [high, low, rest @ ..] = text else {
        return None;
    };
    match (hex_digit(*high), hex_digit(*low)) {
        (Some(a), Some(b)) => Some((16 * a + b, rest)),
        _ => None,
    }
}

/// How a text that follows a quote sign ends.
#[derive(Drop)]
pub(crate) enum Scan<'a> {
    /// What stands behind the closing sign.
    Closed(&'a [u8]),
    /// How many bytes there are from the first bad escape on.
    Bad(usize),
    Open,
}

/// Whether the text has a closing sign.
#[tactic(auto, unfolding(crate::specs::steps::Lexer::closes))]
fn has_end(quote: u8, text: &[u8]) -> bool
    ensures { result ≡ closes quote plain text.now }
{
    let mut rest = text;
    loop {
        match rest {
            [] => return false,
            [b, behind @ ..] if *b == quote => match behind {
                [c, tail @ ..] if *c == quote => rest = tail,
                _ => return true,
            },
            [b'\\'] => return false,
            [b'\\', _, behind @ ..] => rest = behind,
            [_, behind @ ..] => rest = behind,
        }
    }
}

/// Finds the closing sign of a text.
#[tactic(auto, unfolding(crate::specs::steps::Lexer::ending))]
pub(crate) fn find_end(quote: u8, text: &[u8]) -> Scan<'_>
    ensures value { EndingIs (ending quote plain text.now) result }
    ensures within { ScanWithin (length text.now) result }
{
    let mut rest = text;
    loop {
        match rest {
            [] => return Scan::Open,
            [b, behind @ ..] if *b == quote => match behind {
                [c, later @ ..] if *c == quote => rest = later,
                _ => return Scan::Closed(behind),
            },
            [b'\\'] => return Scan::Open,
            [b'\\', c, behind @ ..] => {
                if *c == b'x' && hex_byte(behind).is_none() {
                    return spoiled(quote, rest.len(), behind);
                }
                rest = behind;
            }
            [_, behind @ ..] => rest = behind,
        }
    }
}

/// A bad escape is told where the text has a closing sign.
fn spoiled(quote: u8, left: usize, behind: &[u8]) -> Scan<'_>
    ensures value { EndingIs (spoiled left (closes quote plain behind.now)) result }
    ensures within { ScanWithin left result }
{
    if has_end(quote, behind) {
        Scan::Bad(left)
    } else {
        Scan::Open
    }
}

/// The front of a text in quotes.
#[derive(Drop)]
enum Step<'a> {
    /// It stands for this byte.
    Byte(u8, &'a [u8]),
    Over,
}

#[tactic(auto, unfolding(crate::specs::steps::Lexer::bytes_in))]
fn step_at(quote: u8, text: &[u8]) -> Step<'_>
    ensures value { StepIs quote (bytes_in quote plain text.now) result }
    ensures shorter { StepWithin (length text.now) result }
{
    match text {
        [] => Step::Over,
        [b, behind @ ..] if *b == quote => match behind {
            [c, rest @ ..] if *c == quote => Step::Byte(quote, rest),
            _ => Step::Over,
        },
        [b'\\'] => Step::Over,
        [b'\\', c, behind @ ..] => {
            let (byte, rest) = escape_at(*c, behind);
            Step::Byte(byte, rest)
        }
        [b, rest @ ..] => Step::Byte(*b, rest),
    }
}

/// The byte that a backslash and what follows it stand for, and what stands behind them.
#[tactic(auto, unfolding(crate::specs::steps::Lexer::bytes_in, dict_value::specs::Escapes::unescaped))]
fn escape_at(c: u8, behind: &[u8]) -> (u8, &[u8])
    ensures value { (q : ℕ) → bytes_in q escaped (c ∷ behind.now) ≡ result.0 ∷ bytes_in q plain result.1.now }
    ensures shorter { length result.1.now ≤ length behind.now }
{
    if c != b'x' {
        return (unescaped(c), behind);
    }
    match hex_byte(behind) {
        Some(found) => found,
        None => (c, behind),
    }
}

/// The bytes that the text up to its closing sign stands for.
pub(crate) fn read_quoted(
    alloc: Global,
    quote: u8,
    text: &[u8],
    room: usize,
) -> Result<Bytes, NoMemory>
    ensures { IfOk result (λ bytes. bytes ≡ bytes_in quote plain text.now) }
{
    let mut out = Bytes::with_room(alloc, room)?;
    let mut rest = text;
    while let Step::Byte(b, behind) = step_at(quote, rest) {
        out.push(b)?;
        rest = behind;
    }
    Ok(out)
}

/// Whether the text up to its closing sign stands for this word.
#[tactic(auto, unfolding(crate::specs::Letters::same_letters))]
pub(crate) fn is_quoted(case: LetterCase, quote: u8, text: &[u8], word: &[u8]) -> bool
    ensures { result ≡ same_letters case (bytes_in quote plain text.now) word.now }
{
    let mut rest = text;
    let mut left = word;
    while let Step::Byte(b, behind) = step_at(quote, rest) {
        let [k, later @ ..] = left else {
            return false;
        };
        if folded(case, b) != folded(case, *k) {
            return false;
        }
        rest = behind;
        left = later;
    }
    left.is_empty()
}

/// Whether two texts have the same letters.
#[tactic(auto, unfolding(crate::specs::Letters::same_letters))]
pub(crate) fn is_same(case: LetterCase, text: &[u8], word: &[u8]) -> bool
    ensures { result ≡ same_letters case text.now word.now }
{
    let mut rest = text;
    let mut left = word;
    while let [b, behind @ ..] = rest {
        let [k, later @ ..] = left else {
            return false;
        };
        if folded(case, *b) != folded(case, *k) {
            return false;
        }
        rest = behind;
        left = later;
    }
    left.is_empty()
}
