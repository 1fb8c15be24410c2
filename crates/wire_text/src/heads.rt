// What the first line of a request tells by itself.
ghost use Rattle.std.specs.Prelude.{◌≡◌, ◌≤◌, ◌∷◌, [], length, IfOk, MatchBool, MatchOption, option_map};
ghost use Rattle.dict_value.specs.declared.value.Field.{Field};
ghost use Rattle.wire_text.specs.RequestTexts.{IsBlockHead};
ghost use Rattle.wire_text.specs.Requests.{IsRequest};
ghost use Rattle.wire_text.specs.declared.request.Request.TheVariants as request;
ghost use Rattle.wire_text.specs.steps.Heads.{IsHeadOfBlock, first_meant, means};

use crate::lines::block_size;
use crate::reading::{read_head, read_row, take_text};
use crate::request::RequestFault;
use crate::words::{Word, read_word};
use dict_value::letters::{BACKSLASH, LETTER_X};
use dict_value::{Fields, NoMemory, hex_digit, unescaped};
use std::alloc::Global;

/// Whether fields are the word of a block, a number, and a lookup without its keys.
fn is_head_of_block(alloc: Global, mut fields: Fields) -> bool
    ensures { MatchBool result (IsHeadOfBlock fields) (¬ IsHeadOfBlock fields) }
{
    let Some(text) = take_text(&mut fields) else {
        return false;
    };
    let Some(Word::Many) = read_word(text.as_slice()) else {
        return false;
    };
    let Some(_count) = fields.pop_front() else {
        return false;
    };
    match read_head(alloc, fields) {
        Some(lookup) => lookup.keys.is_empty(),
        None => false,
    }
}

/// Whether a line is the first one of a block that has a reading, whatever the lines that follow it hold.
pub fn heads_block(alloc: Global, line: &[u8]) -> Result<bool, NoMemory>
    requires { length line.now ≤ u32.MAX }
    ensures { IfOk result (λ heads. MatchBool heads (IsBlockHead line.now) (¬ IsBlockHead line.now)) }
{
    match block_size(line) {
        None => Ok(false),
        Some(_size) => match read_row(alloc, line) {
            Ok(fields) => Ok(is_head_of_block(alloc, fields)),
            Err(RequestFault::Bad) => Ok(false),
            Err(RequestFault::NoMemory) => Err(NoMemory),
        },
    }
}

/// The byte that stands first in a text, by itself or in an escape, and what stands behind it.
fn first_meant(text: &[u8]) -> Option<(u8, &[u8])>
    ensures { option_map (λ found. (found.0, found.1.now)) result ≡ first_meant text.now }
{
    let (byte, rest) = text.split_first()?;
    if *byte != BACKSLASH {
        return Some((*byte, rest));
    }
    let (byte, rest) = rest.split_first()?;
    if *byte != LETTER_X {
        return Some((unescaped(*byte), rest));
    }
    let (high, rest) = rest.split_first()?;
    let (low, rest) = rest.split_first()?;
    let high = hex_digit(*high)?;
    let low = hex_digit(*low)?;
    Some((16 * high + low, rest))
}

/// Whether a text stands for this word.
fn means(text: &[u8], word: &[u8]) -> bool
    ensures { result ≡ means text.now word.now }
{
    let mut rest = text;
    for byte in word {
        match first_meant(rest) {
            None => return false,
            Some((meant, behind)) => {
                if meant != *byte {
                    return false;
                }
                rest = behind;
            }
        }
    }
    rest.is_empty()
}

/// Whether a line is the request that ends a session. It takes no memory.
pub fn is_quit(line: &[u8]) -> bool
    ensures { MatchBool result (IsRequest line.now [] request.Quit) (¬ IsRequest line.now [] request.Quit) }
{
    means(line, b"quit")
}

#[cfg(test)]
mod tests;
