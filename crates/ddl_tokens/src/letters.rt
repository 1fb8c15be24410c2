// The bytes of a definition text, by kind.
ghost use Rattle.std.specs.Prelude.{◌≡◌};
ghost use Rattle.ddl_tokens.specs.Letters.{is_space, is_word_start, is_word_byte, is_digit, is_sign, is_number_sign};
ghost use Rattle.ddl_tokens.specs.Letters.{quoted_kind, folded};

use crate::token::TokenKind;

/// Whether letters are the same in either case.
#[derive(Clone, Copy, Debug, PartialEq, Eq)]
pub enum LetterCase {
    Any,
    AsWritten,
}

pub(crate) fn is_space(b: u8) -> bool
    ensures { result ≡ is_space b }
{
    b == b' ' || b == b'\t' || b == b'\r' || b == b'\n'
}

pub(crate) fn is_word_start(b: u8) -> bool
    ensures { result ≡ is_word_start b }
{
    (b'a' <= b && b <= b'z') || (b'A' <= b && b <= b'Z') || b == b'_'
}

pub(crate) fn is_digit(b: u8) -> bool
    ensures { result ≡ is_digit b }
{
    b'0' <= b && b <= b'9'
}

pub(crate) fn is_word_byte(b: u8) -> bool
    ensures { result ≡ is_word_byte b }
{
    is_word_start(b) || is_digit(b)
}

pub(crate) fn is_sign(b: u8) -> bool
    ensures { result ≡ is_sign b }
{
    b == b'(' || b == b')' || b == b',' || b == b';' || b == b'.' || b == b'='
}

pub(crate) fn is_number_sign(b: u8) -> bool
    ensures { result ≡ is_number_sign b }
{
    b == b'+' || b == b'-'
}

/// What a quote sign begins.
pub(crate) fn quoted_kind(b: u8) -> Option<TokenKind>
    ensures { result ≡ quoted_kind b }
{
    match b {
        b'`' | b'"' => Some(TokenKind::QuotedWord),
        b'\'' => Some(TokenKind::String),
        _ => None,
    }
}

/// A letter as it is compared.
pub(crate) fn folded(case: LetterCase, b: u8) -> u8
    ensures { result ≡ folded case b }
{
    match case {
        LetterCase::Any if b'a' <= b && b <= b'z' => b - 32,
        _ => b,
    }
}
