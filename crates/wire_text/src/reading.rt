// Requests, read from their lines.
ghost use Rattle.std.specs.Prelude.{◌≡◌, ◌≢◌, ◌≤◌, ◌∷◌, [], ℕ, List, All, Result, Ok, Err, Some, None, MatchOption};
ghost use Rattle.std.specs.Prelude.{length};
ghost use Rattle.dict_value.specs.declared.value.Field.TheVariants.{Text};
ghost use Rattle.wire_text.specs.Requests.{AsksFor, IsRequest, asked_above};
ghost use Rattle.dict_value.specs.Memory.{UnlessNoMemory};
ghost use Rattle.wire_text.specs.steps.Asked.{AsksAbove, AsksAfter, AsksBelow, AsksBlock, AsksBy, AsksLookup};
ghost use Rattle.wire_text.specs.steps.Asked.{IsBareWord};
ghost use Rattle.wire_text.specs.steps.Asked.{IsNaming, ReadsBy, RowRead, RowsRead, head_in, request_fault};
ghost use Rattle.wire_text.specs.declared.request.Request.{Request};
ghost use Rattle.wire_text.specs.steps.Fields.{attribute_in, default_in, lookup_in, plain_in, text_first};

use crate::decimals::read_decimal;
use crate::lines::{block_size, count_in};
use crate::request::{Asked, Request, RequestFault, Verb};
use crate::words::{Word, read_word};
use dict_value::{Bytes, Field, Fields, LineFault, ListOf};
use row_text::read_fields;
use std::alloc::Global;

/// What a lookup asks for, before its keys are judged.
#[derive(Drop)]
pub(crate) struct Lookup {
    verb: Verb,
    name: Bytes,
    attribute: Bytes,
    fallback: Field,
    pub(crate) keys: Fields,
}

/// Takes the first field away, where it is a text.
pub(crate) fn take_text(fields: &mut Fields) -> Option<Bytes>
    ensures { MatchOption result (text_first fields.old ≡ None)
        (λ text. text_first fields.old ≡ Some (text, fields.new)) }
{
    match fields.pop_front() {
        Some(Field::Text(text)) => Some(text),
        _ => None,
    }
}

/// A lookup in an attribute, by what stands behind its word.
fn attribute_lookup(verb: Verb, mut fields: Fields) -> Option<Lookup>
    ensures { result ≡ attribute_in verb fields }
{
    let name = take_text(&mut fields)?;
    let attribute = take_text(&mut fields)?;
    Some(Lookup {
        verb,
        name,
        attribute,
        fallback: Field::Null,
        keys: fields,
    })
}

/// A lookup with a default of its own, by what stands behind its word.
fn default_lookup(mut fields: Fields) -> Option<Lookup>
    ensures { result ≡ default_in fields }
{
    let name = take_text(&mut fields)?;
    let attribute = take_text(&mut fields)?;
    let fallback = fields.pop_front()?;
    Some(Lookup {
        verb: Verb::GetOrDefault,
        name,
        attribute,
        fallback,
        keys: fields,
    })
}

/// A lookup without an attribute, or a call, by what stands behind its word.
fn plain_lookup(alloc: Global, verb: Verb, mut fields: Fields) -> Option<Lookup>
    ensures { result ≡ plain_in verb fields }
{
    let name = take_text(&mut fields)?;
    Some(Lookup {
        verb,
        name,
        attribute: Bytes::new(alloc),
        fallback: Field::Null,
        keys: fields,
    })
}

/// What a lookup asks for, by its word and the fields behind it.
fn read_lookup(alloc: Global, word: Word, fields: Fields) -> Option<Lookup>
    ensures { result ≡ lookup_in word fields }
{
    match word {
        Word::Get => attribute_lookup(Verb::Get, fields),
        Word::GetOrDefault => default_lookup(fields),
        Word::GetOrNull => attribute_lookup(Verb::GetOrNull, fields),
        Word::Has => plain_lookup(alloc, Verb::Has, fields),
        Word::Call => plain_lookup(alloc, Verb::Call, fields),
        _ => None,
    }
}

/// The request for a lookup with at least one key.
fn one_lookup(alloc: Global, lookup: Option<Lookup>) -> Result<Request, RequestFault>
    ensures { ReadsBy (AsksLookup lookup) result }
{
    let Some(lookup) = lookup else {
        return Err(RequestFault::Bad);
    };
    if lookup.keys.is_empty() {
        return Err(RequestFault::Bad);
    }
    let mut lines = ListOf::new(alloc);
    if lines.push(lookup.keys).is_err() {
        return Err(RequestFault::NoMemory);
    }
    Ok(Request::Asked(Asked {
        verb: lookup.verb,
        name: lookup.name,
        attribute: lookup.attribute,
        fallback: lookup.fallback,
        level: 0,
        block: false,
        lines,
    }))
}

/// What a hierarchy is asked for, by its keys.
fn above(
    alloc: Global,
    verb: Verb,
    name: Bytes,
    keys: Fields,
    level: u32,
) -> Result<Request, RequestFault>
    ensures { ReadsBy (λ r. r ≡ asked_above verb name keys level) result }
{
    let mut lines = ListOf::new(alloc);
    if lines.push(keys).is_err() {
        return Err(RequestFault::NoMemory);
    }
    Ok(Request::Asked(Asked {
        verb,
        name,
        attribute: Bytes::new(alloc),
        fallback: Field::Null,
        level,
        block: false,
        lines,
    }))
}

/// A name, and so many keys of a hierarchy.
fn read_above(
    alloc: Global,
    verb: Verb,
    count: usize,
    mut fields: Fields,
) -> Result<Request, RequestFault>
    ensures { ReadsBy (AsksAbove verb count fields) result }
{
    let Some(name) = take_text(&mut fields) else {
        return Err(RequestFault::Bad);
    };
    if fields.len() != count {
        return Err(RequestFault::Bad);
    }
    above(alloc, verb, name, fields, 0)
}

/// A text alone.
fn only_text(mut fields: Fields) -> Option<Bytes>
    ensures { MatchOption result ((text : List ℕ) → fields ≢ Text text ∷ []) (λ text. fields ≡ Text text ∷ []) }
{
    let text = take_text(&mut fields)?;
    if fields.is_empty() { Some(text) } else { None }
}

/// A name, a key and a level.
fn read_below(alloc: Global, mut fields: Fields) -> Result<Request, RequestFault>
    ensures { ReadsBy (AsksBelow fields) result }
{
    let Some(name) = take_text(&mut fields) else {
        return Err(RequestFault::Bad);
    };
    let Some(key) = fields.pop_front() else {
        return Err(RequestFault::Bad);
    };
    let Some(digits) = only_text(fields) else {
        return Err(RequestFault::Bad);
    };
    let Some(level) = count_in(digits.as_slice()) else {
        return Err(RequestFault::Bad);
    };
    let mut keys = ListOf::new(alloc);
    match keys.push(key) {
        Ok(()) => above(alloc, Verb::Descendants, name, keys, level),
        Err(_) => Err(RequestFault::NoMemory),
    }
}

/// A name and a number.
fn read_after(mut fields: Fields) -> Result<Request, RequestFault>
    ensures { ReadsBy (AsksAfter fields) result }
{
    let Some(name) = take_text(&mut fields) else {
        return Err(RequestFault::Bad);
    };
    let Some(digits) = only_text(fields) else {
        return Err(RequestFault::Bad);
    };
    match read_decimal(digits.as_slice()) {
        Some(number) => Ok(Request::After(name, number)),
        None => Err(RequestFault::Bad),
    }
}

/// A name alone, which is reloaded, told of or shown.
fn read_named(word: Word, fields: Fields) -> Result<Request, RequestFault>
    requires { IsNaming word }
    ensures { ReadsBy (AsksBy word fields) result }
{
    let Some(name) = only_text(fields) else {
        return Err(RequestFault::Bad);
    };
    match word {
        Word::Reload => Ok(Request::Reload(name)),
        Word::Status => Ok(Request::Status(name)),
        _ => Ok(Request::Show(name)),
    }
}

/// A word alone.
fn read_bare(word: Word, fields: &Fields) -> Result<Request, RequestFault>
    requires { IsBareWord word }
    ensures { ReadsBy (AsksBy word fields.now) result }
{
    if !fields.is_empty() {
        return Err(RequestFault::Bad);
    }
    match word {
        Word::Config => Ok(Request::Config),
        _ => Ok(Request::Quit),
    }
}

/// What the fields behind a word ask for, where no lines follow.
fn read_by(alloc: Global, word: Word, fields: Fields) -> Result<Request, RequestFault>
    ensures { ReadsBy (AsksBy word fields) result }
{
    match word {
        Word::Get | Word::GetOrDefault | Word::GetOrNull | Word::Has | Word::Call => one_lookup(
            alloc,
            read_lookup(alloc, word, fields),
        ),
        Word::Hierarchy => read_above(alloc, Verb::Hierarchy, 1, fields),
        Word::Children => read_above(alloc, Verb::Children, 1, fields),
        Word::IsIn => read_above(alloc, Verb::IsIn, 2, fields),
        Word::Descendants => read_below(alloc, fields),
        Word::Many => Err(RequestFault::Bad),
        Word::Reload | Word::Status | Word::Show => read_named(word, fields),
        Word::After => read_after(fields),
        Word::Config | Word::Quit => read_bare(word, &fields),
    }
}

/// What the fault of a line makes of its request.
fn request_fault(fault: LineFault) -> RequestFault
    ensures { result ≡ request_fault fault }
{
    match fault {
        LineFault::NoMemory => RequestFault::NoMemory,
        _ => RequestFault::Bad,
    }
}

/// The fields of a line.
pub(crate) fn read_row(alloc: Global, line: &[u8]) -> Result<Fields, RequestFault>
    requires { length line.now ≤ u32.MAX }
    ensures { RowRead line.now result }
{
    match read_fields(alloc, line) {
        Ok(fields) => Ok(fields),
        Err(fault) => Err(request_fault(fault)),
    }
}

/// The fields of each line.
fn read_rows(alloc: Global, lines: &[Bytes]) -> Result<ListOf<Fields>, RequestFault>
    requires { All (λ line. length line ≤ u32.MAX) lines.now }
    ensures { RowsRead lines.now result }
{
    let mut rows = ListOf::new(alloc);
    for line in lines {
        let fields = match read_row(alloc, line.as_slice()) {
            Ok(fields) => fields,
            Err(fault) => return Err(fault),
        };
        match rows.push(fields) {
            Ok(()) => {}
            Err(_) => return Err(RequestFault::NoMemory),
        }
    }
    Ok(rows)
}

/// The lookup of a block, by what stands behind the number of its lines.
pub(crate) fn read_head(alloc: Global, mut fields: Fields) -> Option<Lookup>
    ensures { result ≡ head_in fields }
{
    let text = take_text(&mut fields)?;
    let word = read_word(text.as_slice())?;
    read_lookup(alloc, word, fields)
}

/// A block, by the fields behind its word.
fn read_block(
    alloc: Global,
    line: &[u8],
    mut fields: Fields,
    rows: ListOf<Fields>,
) -> Result<Request, RequestFault>
    ensures { ReadsBy (AsksBlock line.now fields rows) result }
{
    let Some(count) = block_size(line) else {
        return Err(RequestFault::Bad);
    };
    if count as usize != rows.len() {
        return Err(RequestFault::Bad);
    }
    let Some(_count) = fields.pop_front() else {
        return Err(RequestFault::Bad);
    };
    let Some(lookup) = read_head(alloc, fields) else {
        return Err(RequestFault::Bad);
    };
    if !lookup.keys.is_empty() {
        return Err(RequestFault::Bad);
    }
    Ok(Request::Asked(Asked {
        verb: lookup.verb,
        name: lookup.name,
        attribute: lookup.attribute,
        fallback: lookup.fallback,
        level: 0,
        block: true,
        lines: rows,
    }))
}

/// What the fields behind a word ask for, where no lines follow.
fn read_single(
    alloc: Global,
    word: Word,
    fields: Fields,
    rows: &ListOf<Fields>,
) -> Result<Request, RequestFault>
    ensures { ReadsBy (λ r. (rows.now ≡ []) × AsksBy word fields r) result }
{
    if !rows.is_empty() {
        return Err(RequestFault::Bad);
    }
    read_by(alloc, word, fields)
}

/// What the fields of a request's lines ask for.
fn read_asked(
    alloc: Global,
    line: &[u8],
    mut fields: Fields,
    rows: ListOf<Fields>,
) -> Result<Request, RequestFault>
    ensures { ReadsBy (AsksFor line.now fields rows) result }
{
    let Some(text) = take_text(&mut fields) else {
        return Err(RequestFault::Bad);
    };
    let Some(word) = read_word(text.as_slice()) else {
        return Err(RequestFault::Bad);
    };
    match word {
        Word::Many => read_block(alloc, line, fields, rows),
        _ => read_single(alloc, word, fields, &rows),
    }
}

/// The request of a line and of the lines that follow it, all without their line feeds.
pub fn read_request(alloc: Global, line: &[u8], keys: &[Bytes]) -> Result<Request, RequestFault>
    requires first { length line.now ≤ u32.MAX }
    requires more { All (λ key. length key ≤ u32.MAX) keys.now }
    // The request, or that the lines are none; in place of both want of memory may stand.
    ensures exact { ReadsBy (IsRequest line.now keys.now) result }
    // There is no other answer to them.
    ensures only { (r : Request) → IsRequest line.now keys.now r
        → UnlessNoMemory (Err RequestFault.NoMemory) result (result ≡ Ok r) }
{
    let rows = match read_rows(alloc, keys) {
        Ok(rows) => rows,
        Err(fault) => return Err(fault),
    };
    match read_row(alloc, line) {
        Ok(fields) => read_asked(alloc, line, fields, rows),
        Err(fault) => Err(fault),
    }
}

#[cfg(test)]
mod tests;
