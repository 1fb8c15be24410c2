// Names and texts in quotes. After `NoMemory` a front of what was to be written may stand behind what was there.
ghost use Rattle.std.specs.Prelude.{◌≡◌, ◌++◌, length, take, OnErr, OnOk};
ghost use Rattle.std.specs.List.{flat_map};
ghost use Rattle.ddl_writing.specs.Quoted.{byte_in_quotes, quoted_text, letter_in_quotes, name_text, string_text};

use dict_value::letters::{
    BACKSLASH, BACKSPACE, CARRIAGE_RETURN, DIGIT_0, FORM_FEED, LETTER_B, LETTER_F, LETTER_N,
    LETTER_R, LETTER_T, LINE_FEED, NUL, SINGLE_QUOTE, TAB,
};
use dict_value::{Bytes, NoMemory};

/// The sign around names.
pub const BACKQUOTE: u8 = b'`';

/// The letter that a byte is written with behind a backslash, where it is.
#[tactic(auto, unfolding(crate::specs::Quoted::letter_in_quotes))]
fn letter_in_quotes(quote: u8, b: u8) -> Option<u8>
    ensures { result ≡ letter_in_quotes quote b }
{
    if b == quote {
        return Some(quote);
    }
    match b {
        BACKSLASH => Some(BACKSLASH),
        BACKSPACE => Some(LETTER_B),
        FORM_FEED => Some(LETTER_F),
        CARRIAGE_RETURN => Some(LETTER_R),
        LINE_FEED => Some(LETTER_N),
        TAB => Some(LETTER_T),
        NUL => Some(DIGIT_0),
        _ => None,
    }
}

/// Appends a byte of a text in quotes.
fn push_byte(out: &mut Bytes, quote: u8, b: u8) -> Result<(), NoMemory>
    ensures ok { OnOk result (out.new ≡ out.old ++ byte_in_quotes quote b) }
    ensures err { OnErr result (take (length out.old) out.new ≡ out.old) }
{
    match letter_in_quotes(quote, b) {
        Some(letter) => {
            out.push(BACKSLASH)?;
            out.push(letter)
        }
        None => out.push(b),
    }
}

/// Appends the bytes of a text in quotes.
#[tactic(auto, using(dict_value::proofs::Fronts::front_stays))]
fn push_bytes(out: &mut Bytes, quote: u8, text: &[u8]) -> Result<(), NoMemory>
    ensures ok { OnOk result (out.new ≡ out.old ++ flat_map (byte_in_quotes quote) text.now) }
    ensures err { OnErr result (take (length out.old) out.new ≡ out.old) }
{
    for b in text {
        push_byte(out, quote, *b)?;
    }
    Ok(())
}

/// Appends a text in quotes.
#[tactic(auto, using(dict_value::proofs::Fronts::front_stays))]
fn push_quoted(out: &mut Bytes, quote: u8, text: &[u8]) -> Result<(), NoMemory>
    ensures ok { OnOk result (out.new ≡ out.old ++ quoted_text quote text.now) }
    ensures err { OnErr result (take (length out.old) out.new ≡ out.old) }
{
    out.push(quote)?;
    push_bytes(out, quote, text)?;
    out.push(quote)
}

/// Appends a name.
pub(crate) fn push_name(out: &mut Bytes, name: &[u8]) -> Result<(), NoMemory>
    ensures ok { OnOk result (out.new ≡ out.old ++ name_text name.now) }
    ensures err { OnErr result (take (length out.old) out.new ≡ out.old) }
{
    push_quoted(out, BACKQUOTE, name)
}

/// Appends a string.
pub(crate) fn push_string(out: &mut Bytes, text: &[u8]) -> Result<(), NoMemory>
    ensures ok { OnOk result (out.new ≡ out.old ++ string_text text.now) }
    ensures err { OnErr result (take (length out.old) out.new ≡ out.old) }
{
    push_quoted(out, SINGLE_QUOTE, text)
}
