// The source of a definition.
ghost use Rattle.std.specs.Prelude.{◌≡◌, ◌≢◌, ◌↔◌, IsTrue, IsUtf8, length, not, take_while};
ghost use Rattle.dict_value.specs.Letters.{is_blank_byte};
ghost use Rattle.dict_schema.specs.Commands.{IsBadCommand, IsBlank, IsNoFileName, first_word};
ghost use Rattle.dict_schema.specs.Judging.{IsJudged};
ghost use Rattle.dict_schema.specs.Table.{IsUnused, sources, function_source};

use crate::definition::{Definition, FunctionDef, Kind, SourceOf, Update};
use crate::fault::DefFault;
use crate::layout::{is_keyed, is_updated};
use std::str;

/// Judges the source of a dictionary.
pub(crate) fn judge_source(d: &Definition) -> Result<(), DefFault>
    ensures { IsJudged (sources d.now) result }
{
    if d.source.kind == Kind::Pool && !is_keyed(d) {
        return Err(DefFault::PoolNeedsKeys);
    }
    if is_bad_command(&d.source) {
        return Err(DefFault::Command);
    }
    if is_unused(is_updated(&d.layout), &d.source) {
        return Err(DefFault::UpdateLayout);
    }
    Ok(())
}

/// Judges the source of a function.
pub(crate) fn judge_function_source(f: &FunctionDef) -> Result<(), DefFault>
    ensures { IsJudged (function_source f.now) result }
{
    if is_bad_command(&f.source) {
        return Err(DefFault::Command);
    }
    if is_unused(false, &f.source) {
        return Err(DefFault::UpdateLayout);
    }
    Ok(())
}

/// Whether an update is wanted where rows aren't updated.
fn is_unused(updated: bool, source: &SourceOf) -> bool
    ensures { IsTrue result ↔ IsUnused updated source.now }
{
    match source.update {
        Update::None => false,
        Update::Field { .. } => !updated,
    }
}

/// Whether the command isn't UTF-8, is blank, or is to be run directly and names no program.
fn is_bad_command(source: &SourceOf) -> bool
    ensures { IsTrue result ↔ IsBadCommand source.now.direct source.now.command }
{
    let command = source.command.as_slice();
    if str::from_utf8(command).is_err() || is_all_blank(command) {
        return true;
    }
    source.direct && is_no_file_name(first_word(command))
}

/// A space or a tab.
fn blank(byte: u8) -> bool
    ensures { result ≡ is_blank_byte byte }
{
    byte == b' ' || byte == b'\t'
}

fn is_all_blank(command: &[u8]) -> bool
    ensures { IsTrue result ↔ IsBlank command.now }
{
    command.iter().all(|byte| blank(*byte))
}

/// The first word of a command.
fn first_word(command: &[u8]) -> &[u8]
    ensures { result.now ≡ first_word command.now }
{
    let rest = &command[blanks_before(command)..];
    &rest[..others_before(rest)]
}

/// How many blanks a text begins with.
fn blanks_before(text: &[u8]) -> usize
    ensures { result ≡ length (take_while is_blank_byte text.now) }
{
    text.iter().take_while(|byte| blank(**byte)).count()
}

/// How many bytes that are no blanks a text begins with.
fn others_before(text: &[u8]) -> usize
    ensures { result ≡ length (take_while (λ b. not (is_blank_byte b)) text.now) }
{
    text.iter().take_while(|byte| !blank(**byte)).count()
}

/// Whether a word can't be the name of a file in a folder.
fn is_no_file_name(word: &[u8]) -> bool
    ensures { IsTrue result ↔ IsNoFileName word.now }
{
    word.contains(&b'/') || word == b".".as_slice() || word == b"..".as_slice()
}
