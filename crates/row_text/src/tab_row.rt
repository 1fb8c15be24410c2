// Rows of TabSeparated text.
ghost use Rattle.std.specs.Prelude.{◌≡◌, ◌≢◌, ◌≤◌, ◌<◌, ◌+◌, ◌⊎◌, ◌∷◌, ◌++◌, [], ℕ, List, Result, Err};
ghost use Rattle.std.specs.Prelude.{length, map, take, slice_index, IfSome, OnErr, OnOk};
ghost use Rattle.std.specs.List.{AllByRecursion, flat_map};
ghost use Rattle.dict_value.specs.declared.value.Field.{Field};
ghost use Rattle.dict_value.specs.declared.value.Field.TheVariants as field;
ghost use Rattle.dict_value.specs.declared.fault.LineFault.{LineFault};
ghost use Rattle.row_text.specs.Cutting.{IsWhole, ended};
ghost use Rattle.row_text.specs.Marks.{Mark, Spells, meant_byte};
ghost use Rattle.dict_value.specs.Memory.{UnlessNoMemory};
ghost use Rattle.row_text.specs.TabRow.{TabAnswers, IsTabRow, field_of, field_text, are_null_marks, row_line};
ghost use Rattle.row_text.specs.TabRow.{written_byte, written_letter};
ghost use Rattle.row_text.specs.steps.TabSteps.{EscapeOf, IsOrdinary, ReadsField};
ghost use Rattle.row_text.specs.declared.cutter.CutRule.TheVariants as rule;

use dict_value::letters::*;
use dict_value::{Bytes, Field, Fields, LineFault, ListOf, NoMemory, hex_digit, unescaped};
use std::alloc::Global;

/// The fields of one row, which comes without its line feed.
pub fn read_fields(alloc: Global, line: &[u8]) -> Result<Fields, LineFault>
    requires { length line.now ≤ u32.MAX }
    // The fields where the line is a row, and else its first fault.
    ensures exact { UnlessNoMemory (Err LineFault.NoMemory) result (TabAnswers line.now result) }
    // There is no other answer to it.
    ensures only { (answer : Result (List Field) LineFault) → TabAnswers line.now answer
        → UnlessNoMemory (Err LineFault.NoMemory) result (result ≡ answer) }
{
    read_line(alloc, line)
}

fn read_line(alloc: Global, line: &[u8]) -> Result<Fields, LineFault>
    requires { length line.now ≤ u32.MAX }
    ensures { UnlessNoMemory (Err LineFault.NoMemory) result (TabAnswers line.now result) }
{
    let mut fields = ListOf::new(alloc);
    let mut at = 0;
    'fields: loop {
        let (field, size) = match read_field(alloc, &line[at..], at) {
            Ok(found) => found,
            Err(fault) => return Err(fault),
        };
        let stop = at + size;
        if fields.push(field).is_err() {
            return Err(LineFault::NoMemory);
        }
        if stop == line.len() {
            return Ok(fields);
        }
        at = stop + 1;
    }
}

/// The first field of a text and its size; the text stands at this place of its line.
fn read_field(alloc: Global, rest: &[u8], start: usize) -> Result<(Field, usize), LineFault>
    requires { start + length rest.now ≤ u32.MAX }
    ensures { UnlessNoMemory (Err LineFault.NoMemory) result (ReadsField rest.now start result) }
{
    let mut text = Bytes::new(alloc);
    let mut at = 0;
    'runs: loop {
        let left = &rest[at..];
        let run = run_len(left);
        let stop = at + run;
        if text.extend(&left[..run]).is_err() {
            return Err(LineFault::NoMemory);
        }
        if stop == rest.len() {
            if run > 0 && left[run - 1] == CARRIAGE_RETURN {
                return Err(LineFault::CarriageReturn);
            }
            return Ok((field_from(rest, text), stop));
        }
        if left[run] == TAB {
            return Ok((field_from(&rest[..stop], text), stop));
        }
        let Some((byte, size)) = escape_of(&left[run..]) else {
            return Err(LineFault::BadEscape((start + stop) as u32));
        };
        if text.push(byte).is_err() {
            return Err(LineFault::NoMemory);
        }
        at = stop + size;
    }
}

/// How many bytes stand before the first tab or backslash.
fn run_len(rest: &[u8]) -> usize
    ensures within { result ≤ length rest.now }
    ensures plain { AllByRecursion IsOrdinary (take result rest.now) }
    ensures stops { result < length rest.now
        → (slice_index rest.now result ≡ TAB) ⊎ (slice_index rest.now result ≡ BACKSLASH) }
{
    for (place, b) in rest.iter().enumerate() {
        if *b == TAB || *b == BACKSLASH {
            return place;
        }
    }
    rest.len()
}

/// The field of these bytes, given the text that they stand for.
fn field_from(raw: &[u8], text: Bytes) -> Field
    ensures { (marks : List Mark) → Spells raw.now marks → text ≡ map meant_byte marks → result ≡ field_of marks }
{
    if is_null_field(raw) {
        Field::Null
    } else {
        Field::Text(text)
    }
}

/// Whether the field of these bytes is NULL.
pub(crate) fn is_null_field(raw: &[u8]) -> bool
    ensures { (marks : List Mark) → Spells raw.now marks → result ≡ are_null_marks marks }
{
    raw.len() == 2 && raw[0] == BACKSLASH && raw[1] == CAPITAL_N
}

/// The byte that an escape stands for, and the escape's size.
pub(crate) fn escape_of(rest: &[u8]) -> Option<(u8, usize)>
    requires first { slice_index rest.now 0 ≡ BACKSLASH }
    requires some { 0 < length rest.now }
    ensures size { IfSome result (λ escape. (0 < escape.1) × (escape.1 ≤ length rest.now)) }
    ensures escape { EscapeOf rest.now result }
{
    if rest.len() < 2 {
        return None;
    }
    if rest[1] != LETTER_X {
        return Some((unescaped(rest[1]), 2));
    }
    if rest.len() < 4 {
        return None;
    }
    match (hex_digit(rest[2]), hex_digit(rest[3])) {
        (Some(high), Some(low)) => Some((16 * high + low, 4)),
        _ => None,
    }
}

/// Appends the row of the fields with its line feed.
pub fn write_row(fields: &[Field], out: &mut Bytes) -> Result<(), NoMemory>
    requires { fields.now ≢ [] }
    ensures ok { OnOk result (out.new ≡ out.old ++ ended (row_line fields.now)) }
    ensures err { OnErr result (out.new ≡ out.old) }
    // What is written is one whole row, which is read as these fields again.
    ensures whole { IsWhole rule.Tab (row_line fields.now) }
    ensures again { IsTabRow (row_line fields.now) fields.now }
{
    let before = out.len();
    let written = append_row(fields, out);
    whole_or_none(written, before, out)
}

/// Appends a text as a field is written, without a tab or a line feed.
pub fn write_text(text: &[u8], out: &mut Bytes) -> Result<(), NoMemory>
    ensures ok { OnOk result (out.new ≡ out.old ++ field_text (field.Text text.now)) }
    ensures err { OnErr result (out.new ≡ out.old) }
{
    let before = out.len();
    let written = append_escaped(text, out);
    whole_or_none(written, before, out)
}

/// Keeps what was written behind so many bytes, or drops it where it isn't whole.
fn whole_or_none(
    written: Result<(), NoMemory>,
    before: usize,
    out: &mut Bytes,
) -> Result<(), NoMemory>
    ensures same { result ≡ written }
    ensures ok { OnOk result (out.new ≡ out.old) }
    ensures err { OnErr result (out.new ≡ take before out.old) }
{
    if written.is_err() {
        out.truncate(before);
    }
    written
}

/// Appends the row; after `NoMemory` a front of it may stand behind what was there.
fn append_row(fields: &[Field], out: &mut Bytes) -> Result<(), NoMemory>
    requires { fields.now ≢ [] }
    ensures ok { OnOk result (out.new ≡ out.old ++ ended (row_line fields.now)) }
    ensures err { OnErr result (take (length out.old) out.new ≡ out.old) }
{
    for (place, field) in fields.iter().enumerate() {
        if place > 0 {
            out.push(TAB)?;
        }
        append_field(field, out)?;
    }
    out.push(LINE_FEED)
}

fn append_field(field: &Field, out: &mut Bytes) -> Result<(), NoMemory>
    ensures ok { OnOk result (out.new ≡ out.old ++ field_text field.now) }
    ensures err { OnErr result (take (length out.old) out.new ≡ out.old) }
{
    match field {
        Field::Null => out.extend(b"\\N"),
        Field::Text(text) => append_escaped(text.as_slice(), out),
    }
}

fn append_escaped(text: &[u8], out: &mut Bytes) -> Result<(), NoMemory>
    ensures ok { OnOk result (out.new ≡ out.old ++ flat_map written_byte text.now) }
    ensures err { OnErr result (take (length out.old) out.new ≡ out.old) }
{
    for b in text {
        match escape_letter(*b) {
            Some(letter) => out.extend(&[BACKSLASH, letter])?,
            None => out.push(*b)?,
        }
    }
    Ok(())
}

/// The letter behind the backslash that a byte is written with, if it is.
#[tactic(auto, unfolding(crate::specs::TabRow::written_letter))]
fn escape_letter(b: u8) -> Option<u8>
    ensures { result ≡ written_letter b }
{
    match b {
        BACKSPACE => Some(LETTER_B),
        FORM_FEED => Some(LETTER_F),
        CARRIAGE_RETURN => Some(LETTER_R),
        LINE_FEED => Some(LETTER_N),
        TAB => Some(LETTER_T),
        NUL => Some(DIGIT_0),
        SINGLE_QUOTE => Some(SINGLE_QUOTE),
        BACKSLASH => Some(BACKSLASH),
        _ => None,
    }
}

#[cfg(test)]
mod tests;
