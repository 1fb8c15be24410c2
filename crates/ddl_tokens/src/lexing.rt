// One token of a text.
ghost use Rattle.std.specs.Prelude.{◌≡◌, ◌≤◌, ◌<◌, ◌-◌, ◌∷◌, [], ℕ, length};
ghost use Rattle.std.specs.List.{prefix_len};
ghost use Rattle.ddl_tokens.specs.Letters.{is_digit, is_word_byte};
ghost use Rattle.ddl_tokens.specs.declared.token.TokenKind.TheVariants.{Broken};
ghost use Rattle.ddl_tokens.specs.steps.Lexer.{digits_len, fraction_len, number_len, token_at, next_token, in_quotes};
ghost use Rattle.ddl_tokens.specs.steps.Lexer.{unquoted, front, bytes_in, ending, plain, token, token_of, Found};
ghost use Rattle.ddl_tokens.specs.steps.Lexer.{IsBare, IsInQuotes};

use crate::gaps::after_gap;
use crate::letters::{is_digit, is_number_sign, is_sign, is_word_byte, is_word_start, quoted_kind};
use crate::quoted::{Scan, find_end};
use crate::token::{Lexed, TokenKind};

fn word_len(text: &[u8]) -> usize
    ensures value { result ≡ prefix_len is_word_byte text.now }
    ensures within { result ≤ length text.now }
{
    let mut count = 0;
    let mut rest = text;
    while let [b, behind @ ..] = rest {
        if !is_word_byte(*b) {
            break;
        }
        count += 1;
        rest = behind;
    }
    count
}

fn run_of_digits(text: &[u8]) -> usize
    ensures value { result ≡ prefix_len is_digit text.now }
    ensures within { result ≤ length text.now }
{
    let mut count = 0;
    let mut rest = text;
    while let [b, behind @ ..] = rest {
        if !is_digit(*b) {
            break;
        }
        count += 1;
        rest = behind;
    }
    count
}

fn fraction_len(text: &[u8]) -> usize
    ensures value { result ≡ fraction_len text.now }
    ensures within { result ≤ length text.now }
{
    match text {
        [b'.', behind @ ..] => {
            let count = run_of_digits(behind);
            if count == 0 { 0 } else { count + 1 }
        }
        _ => 0,
    }
}

fn digits_len(text: &[u8]) -> usize
    ensures value { result ≡ digits_len text.now }
    ensures within { result ≤ length text.now }
{
    let count = run_of_digits(text);
    count + fraction_len(&text[count..])
}

/// How long the number is that begins the text, 0 where none does.
fn number_len(text: &[u8]) -> usize
    ensures value { result ≡ number_len text.now }
    ensures within { result ≤ length text.now }
{
    match text {
        [b, behind @ ..] if is_number_sign(*b) => {
            if run_of_digits(behind) == 0 {
                0
            } else {
                digits_len(behind) + 1
            }
        }
        [b, ..] if is_digit(*b) => digits_len(text),
        _ => 0,
    }
}

/// The place of what has so many bytes, in a text of this size.
fn place_of(size: u32, left: usize) -> u32
    requires { left ≤ size }
    ensures { result ≡ size - left }
{
    size - left as u32
}

/// Where no token can be read.
fn broken<'a>(size: u32, left: usize) -> Lexed<'a>
    requires { left ≤ size }
    ensures { token_of result ≡ token (size - left) Broken [] }
{
    Lexed {
        place: place_of(size, left),
        kind: TokenKind::Broken,
        quote: 0,
        text: &[],
    }
}

fn front(size: u32, text: &[u8], kind: TokenKind, count: usize) -> (Lexed<'_>, &[u8])
    requires within { count ≤ length text.now }
    requires fits { length text.now ≤ size }
    requires bare { IsBare kind }
    ensures value { Found (front size text.now kind count) result.0 result.1.now }
    ensures within { length result.1.now ≤ length text.now }
{
    let place = place_of(size, text.len());
    let (own, rest) = text.split_at(count);
    (
        Lexed {
            place,
            kind,
            quote: 0,
            text: own,
        },
        rest,
    )
}

/// What a quote sign begins; it stands before the rest.
fn in_quotes<'a>(
    size: u32,
    text: &'a [u8],
    kind: TokenKind,
    quote: u8,
    behind: &'a [u8],
) -> (Lexed<'a>, &'a [u8])
    requires fits { length text.now ≤ size }
    requires behind { length behind.now ≤ length text.now }
    requires quoted { IsInQuotes kind }
    ensures value { Found (in_quotes size text.now kind (bytes_in quote plain behind.now)
        (ending quote plain behind.now)) result.0 result.1.now }
    ensures within { length result.1.now ≤ length text.now }
{
    match find_end(quote, behind) {
        Scan::Closed(rest) => (
            Lexed {
                place: place_of(size, text.len()),
                kind,
                quote,
                text: behind,
            },
            rest,
        ),
        Scan::Bad(left) => (broken(size, left), &[]),
        Scan::Open => (broken(size, text.len()), &[]),
    }
}

/// A number, a sign, or no token.
fn unquoted<'a>(size: u32, text: &'a [u8], b: u8, behind: &'a [u8]) -> (Lexed<'a>, &'a [u8])
    requires fits { length text.now ≤ size }
    requires first { text.now ≡ b ∷ behind.now }
    ensures value { Found (unquoted size text.now b behind.now) result.0 result.1.now }
    ensures within { length result.1.now ≤ length text.now }
{
    let count = number_len(text);
    if count != 0 {
        return front(size, text, TokenKind::Number, count);
    }
    if is_sign(b) {
        return front(size, text, TokenKind::Sign, 1);
    }
    (broken(size, text.len()), &[])
}

#[tactic(auto, unfolding(crate::specs::steps::Lexer::token_at))]
fn token_at(size: u32, text: &[u8]) -> (Lexed<'_>, &[u8])
    requires { length text.now ≤ size }
    ensures value { Found (token_at size text.now) result.0 result.1.now }
    ensures within { length result.1.now ≤ length text.now }
{
    let [b, behind @ ..] = text else {
        let end = Lexed {
            place: size,
            kind: TokenKind::End,
            quote: 0,
            text: &[],
        };
        return (end, &[]);
    };
    let b = *b;
    if is_word_start(b) {
        return front(size, text, TokenKind::Word, word_len(text));
    }
    match quoted_kind(b) {
        Some(kind) => in_quotes(size, text, kind, b, behind),
        None => unquoted(size, text, b, behind),
    }
}

/// The first token of what is left of a text of this size, and what stands behind it.
#[tactic(auto, unfolding(crate::specs::steps::Lexer::next_token))]
pub(crate) fn next_token(size: u32, text: &[u8]) -> (Lexed<'_>, &[u8])
    requires { length text.now ≤ size }
    ensures value { Found (next_token size text.now) result.0 result.1.now }
    ensures within { length result.1.now ≤ size }
{
    match after_gap(text) {
        Ok(rest) => token_at(size, rest),
        Err(left) => (broken(size, left), &[]),
    }
}
