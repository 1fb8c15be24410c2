// Tokens that are judged by their bytes.
ghost use Rattle.std.specs.Prelude.{◌≡◌, ◌<◌, ◌≤◌, length, IfOk, OnOk};
ghost use Rattle.std.specs.List.{list_all};
ghost use Rattle.ddl_tokens.specs.Letters.{is_word_start, is_word_byte, same_letters};
ghost use Rattle.ddl_tokens.specs.Reading.{Gives, kind_ahead, bytes_ahead, is_name, is_string, is_number};
ghost use Rattle.ddl_tokens.specs.declared.letters.LetterCase.TheVariants.{AsWritten};
ghost use Rattle.ddl_tokens.specs.declared.fault.SyntaxFault.TheVariants.{Unexpected, UnknownSetting, Unsupported};
ghost use Rattle.ddl_clauses.specs.Choices.{chosen_at, meant_by, is_written, is_plain_value, flag_in, no_flag_meant};
ghost use Rattle.ddl_clauses.specs.Choices.{format_in, strategy_in, whole_from, whole_in, whole_up_to_at, has_bare_form};
ghost use Rattle.ddl_clauses.specs.Choices.{bare_name_in};
ghost use Rattle.ddl_clauses.specs.Choices.{source_kind_in, word_in, most_whole, most_short};

use ddl_tokens::{LetterCase, ReadFault, Reader, SyntaxFault, TokenKind};
use dict_schema::{Format, Kind, Strategy};
use dict_value::{BadValue, Bytes, ColType, Value, read_text};
use std::alloc::Global;

/// Whether the token in hand is a word or a string.
fn sees_written(r: &Reader<'_>) -> bool
    ensures { result ≡ is_written (kind_ahead r.now) }
{
    match r.kind() {
        TokenKind::Word | TokenKind::QuotedWord | TokenKind::String => true,
        _ => false,
    }
}

/// Whether the token in hand is a word, a string or a number.
fn sees_plain_value(r: &Reader<'_>) -> bool
    ensures { result ≡ is_plain_value (kind_ahead r.now) }
{
    match r.kind() {
        TokenKind::Word | TokenKind::QuotedWord | TokenKind::String | TokenKind::Number => true,
        _ => false,
    }
}

/// Whether the token in hand stands for this word, in these letters.
fn says(r: &Reader<'_>, word: &[u8]) -> bool
    ensures { result ≡ same_letters AsWritten (bytes_ahead r.now) word.now }
{
    r.means(LetterCase::AsWritten, word)
}

/// The boolean that the token in hand stands for.
fn flag_in(r: &Reader<'_>) -> Option<bool>
    ensures { result ≡ flag_in (bytes_ahead r.now) }
{
    if says(r, b"0") || says(r, b"false") {
        Some(false)
    } else if says(r, b"1") || says(r, b"true") {
        Some(true)
    } else {
        None
    }
}

/// A boolean, bare or in quotes.
#[tactic(auto, using(crate::proofs::Ahead::plain_value_goes_on), unfolding(crate::specs::Choices::chosen_at))]
pub(crate) fn flag(r: &mut Reader<'_>) -> Result<bool, ReadFault>
    ensures value { Gives (λ flag. flag) result r.new (chosen_at is_plain_value (meant_by Unexpected flag_in) r.old) }
    ensures shorter { OnOk result (length r.new < length r.old) }
{
    if !sees_plain_value(r) {
        return Err(r.unexpected());
    }
    let Some(flag) = flag_in(r) else {
        return Err(r.unexpected());
    };
    r.skip();
    Ok(flag)
}

/// A boolean that can't be true yet.
#[tactic(auto, using(crate::proofs::Ahead::plain_value_goes_on), unfolding(crate::specs::Choices::chosen_at))]
pub(crate) fn no_flag(r: &mut Reader<'_>) -> Result<bool, ReadFault>
    ensures value { Gives (λ flag. flag) result r.new (chosen_at is_plain_value no_flag_meant r.old) }
    ensures shorter { OnOk result (length r.new < length r.old) }
{
    if !sees_plain_value(r) {
        return Err(r.unexpected());
    }
    let Some(flag) = flag_in(r) else {
        return Err(r.unexpected());
    };
    if flag {
        return Err(ReadFault::Syntax(SyntaxFault::Unsupported(r.place())));
    }
    r.skip();
    Ok(false)
}

fn format_in(r: &Reader<'_>) -> Option<Format>
    ensures { result ≡ format_in (bytes_ahead r.now) }
{
    if says(r, b"TabSeparated") || says(r, b"TSV") {
        Some(Format::Tab)
    } else if says(r, b"CSV") {
        Some(Format::Csv)
    } else {
        None
    }
}

/// The name of a text form of rows, bare or in quotes.
#[tactic(auto, using(crate::proofs::Ahead::written_goes_on), unfolding(crate::specs::Choices::chosen_at))]
pub(crate) fn format(r: &mut Reader<'_>) -> Result<Format, ReadFault>
    ensures value { Gives (λ format. format) result r.new
        (chosen_at is_written (meant_by Unsupported format_in) r.old) }
    ensures shorter { OnOk result (length r.new < length r.old) }
{
    if !sees_written(r) {
        return Err(r.unexpected());
    }
    let Some(format) = format_in(r) else {
        return Err(ReadFault::Syntax(SyntaxFault::Unsupported(r.place())));
    };
    r.skip();
    Ok(format)
}

fn strategy_in(r: &Reader<'_>) -> Option<Strategy>
    ensures { result ≡ strategy_in (bytes_ahead r.now) }
{
    if says(r, b"min") {
        Some(Strategy::Min)
    } else if says(r, b"max") {
        Some(Strategy::Max)
    } else {
        None
    }
}

/// A string that says which of several ranges counts.
#[tactic(auto, using(crate::proofs::Ahead::sees_string_is, crate::proofs::Ahead::string_goes_on), unfolding(crate::specs::Choices::chosen_at))]
pub(crate) fn strategy(r: &mut Reader<'_>) -> Result<Strategy, ReadFault>
    ensures value { Gives (λ strategy. strategy) result r.new
        (chosen_at is_string (meant_by Unexpected strategy_in) r.old) }
    ensures shorter { OnOk result (length r.new < length r.old) }
{
    let TokenKind::String = r.kind() else {
        return Err(r.unexpected());
    };
    let Some(strategy) = strategy_in(r) else {
        return Err(r.unexpected());
    };
    r.skip();
    Ok(strategy)
}

/// The whole number that a reading gave, where it isn't above this one.
fn whole_from(most: u64, reading: Result<Value, BadValue>) -> Option<u64>
    ensures { result ≡ whole_from most reading }
{
    match reading {
        Ok(Value::U(n)) if n <= most => Some(n),
        _ => None,
    }
}

/// The whole number that a text writes, where it isn't above this one.
#[tactic(auto, using(crate::proofs::Wholes::whole_is))]
fn whole_of(alloc: Global, most: u64, text: &[u8]) -> Option<u64>
    ensures { result ≡ whole_in most text.now }
{
    whole_from(most, read_text(alloc, ColType::UInt64, text))
}

/// A whole number up to this one.
#[tactic(auto, using(crate::proofs::Ahead::sees_number_is), unfolding(crate::specs::Choices::chosen_at, ddl_tokens::specs::Reading::bytes_at))]
fn whole_up_to(alloc: Global, most: u64, r: &mut Reader<'_>) -> Result<u64, ReadFault>
    ensures value { Gives (λ n. n) result r.new (whole_up_to_at most r.old) }
    ensures shorter { OnOk result (length r.new < length r.old) }
    ensures bound { IfOk result (λ n. n ≤ most) }
{
    let place = r.place();
    let text = r.number()?;
    let Some(n) = whole_of(alloc, most, text) else {
        return Err(ReadFault::Syntax(SyntaxFault::Unexpected(place)));
    };
    Ok(n)
}

fn is_word_start(byte: u8) -> bool
    ensures { result ≡ is_word_start byte }
{
    byte.is_ascii_alphabetic() || byte == b'_'
}

fn is_word_byte(byte: u8) -> bool
    ensures { result ≡ is_word_byte byte }
{
    is_word_start(byte) || byte.is_ascii_digit()
}

fn are_word_bytes(text: &[u8]) -> bool
    ensures { result ≡ list_all is_word_byte text.now }
{
    text.iter().all(|byte| is_word_byte(*byte))
}

/// Whether a text is a letter or `_`, then letters, digits and `_`.
fn has_bare_form(text: &[u8]) -> bool
    ensures { result ≡ has_bare_form text.now }
{
    match text {
        [first, rest @ ..] => is_word_start(*first) && are_word_bytes(rest),
        [] => false,
    }
}

/// A bare name, with or without quotes.
#[tactic(auto, using(crate::proofs::Ahead::written_goes_on), unfolding(crate::specs::Choices::chosen_at))]
pub(crate) fn bare_name(alloc: Global, r: &mut Reader<'_>) -> Result<Bytes, ReadFault>
    ensures value { Gives (λ name. name) result r.new (chosen_at is_written (meant_by Unexpected bare_name_in) r.old) }
    ensures shorter { OnOk result (length r.new < length r.old) }
{
    if !sees_written(r) {
        return Err(r.unexpected());
    }
    let name = r.bytes(alloc)?;
    if !has_bare_form(name.as_slice()) {
        return Err(r.unexpected());
    }
    r.skip();
    Ok(name)
}

/// A whole number of 64 bits.
pub(crate) fn whole(alloc: Global, r: &mut Reader<'_>) -> Result<u64, ReadFault>
    ensures value { Gives (λ n. n) result r.new (whole_up_to_at most_whole r.old) }
    ensures shorter { OnOk result (length r.new < length r.old) }
{
    whole_up_to(alloc, u64::MAX, r)
}

/// A whole number of 32 bits.
pub(crate) fn short(alloc: Global, r: &mut Reader<'_>) -> Result<u32, ReadFault>
    ensures value { Gives (λ n. n) result r.new (whole_up_to_at most_short r.old) }
    ensures shorter { OnOk result (length r.new < length r.old) }
{
    let n = whole_up_to(alloc, u64::from(u32::MAX), r)?;
    Ok(n as u32)
}

fn source_kind_in(r: &Reader<'_>) -> Option<Kind>
    ensures { result ≡ source_kind_in (bytes_ahead r.now) }
{
    if r.means(LetterCase::Any, b"EXECUTABLE") {
        Some(Kind::Executable)
    } else if r.means(LetterCase::Any, b"EXECUTABLE_POOL") {
        Some(Kind::Pool)
    } else {
        None
    }
}

/// The kind of a source.
#[tactic(auto, using(crate::proofs::Ahead::sees_name_is, crate::proofs::Ahead::name_goes_on), unfolding(crate::specs::Choices::chosen_at))]
pub(crate) fn source_kind(r: &mut Reader<'_>) -> Result<Kind, ReadFault>
    ensures value { Gives (λ kind. kind) result r.new (chosen_at is_name (meant_by Unsupported source_kind_in) r.old) }
    ensures shorter { OnOk result (length r.new < length r.old) }
{
    if !r.sees_name() {
        return Err(r.unexpected());
    }
    let Some(kind) = source_kind_in(r) else {
        return Err(ReadFault::Syntax(SyntaxFault::Unsupported(r.place())));
    };
    r.skip();
    Ok(kind)
}

/// This word, with or without quotes, in any letter case.
#[tactic(auto, using(crate::proofs::Ahead::sees_name_is, crate::proofs::Ahead::name_goes_on), unfolding(crate::specs::Choices::chosen_at))]
pub(crate) fn word(r: &mut Reader<'_>, word: &[u8]) -> Result<(), ReadFault>
    ensures value { Gives (λ _. tt) result r.new
        (chosen_at is_name (meant_by UnknownSetting (word_in word.now)) r.old) }
    ensures shorter { OnOk result (length r.new < length r.old) }
{
    if !r.sees_name() {
        return Err(r.unexpected());
    }
    if !r.means(LetterCase::Any, word) {
        return Err(ReadFault::Syntax(SyntaxFault::UnknownSetting(r.place())));
    }
    r.skip();
    Ok(())
}
