// The words that a child is started with.
ghost use Rattle.std.specs.Prelude.{◌≡◌, ◌≢◌, IfOk, MatchOption, if◌then◌else◌};
ghost use Rattle.std.specs.List.{All};
ghost use Rattle.dict_value.specs.Letters.{is_blank_byte};
ghost use Rattle.child_io.specs.Words.{asking_words, in_folder, program_in, shell_words, source_words};
ghost use Rattle.child_io.specs.Words.{words_in, words_since};
ghost use Rattle.child_io.specs.Words.{IsFolder, IsLastSlash};

use dict_schema::{SourceOf, Update};
use dict_value::{Bytes, ListOf, NoMemory, push_number};
use std::alloc::Global;

#[cfg(test)]
mod tests;

/// Since when rows are asked for.
#[derive(Clone, Copy, Debug, PartialEq, Eq)]
pub enum Since {
    /// All of them.
    Whole,
    /// Those that changed since this moment, in seconds.
    From(u64),
}

/// The words to start a source's program with. A command of blanks alone, which no sound definition
/// has, gives no words where it is run directly.
pub fn words_of(alloc: Global, s: &SourceOf, folder: &[u8]) -> Result<ListOf<Bytes>, NoMemory>
    ensures { IfOk result (λ words. words ≡ source_words s.now folder.now) }
{
    if s.direct {
        direct_words(alloc, s.command.as_slice(), folder)
    } else {
        let command = Bytes::copy_of(alloc, s.command.as_slice())?;
        shell_words(alloc, command)
    }
}

/// The words to ask a source's program for its rows since then. Where the source has no update field,
/// or all rows are asked for, they are those of [`words_of`]. Else the command is followed by the field's
/// name and the moment less the field's lag, at least 0, in decimal digits.
pub fn words_since(
    alloc: Global,
    s: &SourceOf,
    folder: &[u8],
    since: Since,
) -> Result<ListOf<Bytes>, NoMemory>
    ensures { IfOk result (λ words. words ≡ words_since s.now folder.now s.now.update since) }
{
    match (&s.update, since) {
        (Update::Field { name, lag }, Since::From(moment)) => {
            let least = moment.saturating_sub(u64::from(*lag));
            asking_words(alloc, s, folder, name.as_slice(), least)
        }
        _ => words_of(alloc, s, folder),
    }
}

/// The words with a name and a number behind the command.
fn asking_words(
    alloc: Global,
    s: &SourceOf,
    folder: &[u8],
    name: &[u8],
    number: u64,
) -> Result<ListOf<Bytes>, NoMemory>
    ensures { IfOk result (λ words. words ≡ asking_words s.now folder.now name.now number) }
{
    if s.direct {
        let mut digits = Bytes::new(alloc);
        push_number(&mut digits, number)?;
        let mut words = direct_words(alloc, s.command.as_slice(), folder)?;
        words.push(Bytes::copy_of(alloc, name)?)?;
        words.push(digits)?;
        return Ok(words);
    }
    let mut command = Bytes::copy_of(alloc, s.command.as_slice())?;
    command.push(b' ')?;
    command.extend(name)?;
    command.push(b' ')?;
    push_number(&mut command, number)?;
    shell_words(alloc, command)
}

/// The words that give a command to the shell.
fn shell_words(alloc: Global, command: Bytes) -> Result<ListOf<Bytes>, NoMemory>
    ensures { IfOk result (λ words. words ≡ shell_words command) }
{
    let mut words = ListOf::with_room(alloc, 3)?;
    words.push(Bytes::copy_of(alloc, b"/bin/sh")?)?;
    words.push(Bytes::copy_of(alloc, b"-c")?)?;
    words.push(command)?;
    Ok(words)
}

/// A space or a tab.
fn blank(byte: u8) -> bool
    ensures { result ≡ is_blank_byte byte }
{
    byte == b' ' || byte == b'\t'
}

/// The words of a command, the first one in the folder's `user_scripts`.
fn direct_words(alloc: Global, command: &[u8], folder: &[u8]) -> Result<ListOf<Bytes>, NoMemory>
    ensures { IfOk result (λ words. words ≡ in_folder folder.now (words_in command.now)) }
{
    let mut words = ListOf::new(alloc);
    for part in command.split(|b| blank(*b)) {
        if part.is_empty() {
            continue;
        }
        let first = words.is_empty();
        words.push(word_of(alloc, folder, part, first)?)?;
    }
    Ok(words)
}

/// The word of a part; the first one is a program of the folder's `user_scripts`.
fn word_of(alloc: Global, folder: &[u8], part: &[u8], first: bool) -> Result<Bytes, NoMemory>
    ensures { IfOk result (λ word. word ≡ (if first then program_in folder.now part.now else part.now)) }
{
    if !first {
        return Bytes::copy_of(alloc, part);
    }
    let mut path = Bytes::copy_of(alloc, folder)?;
    path.extend(b"/user_scripts/")?;
    path.extend(part)?;
    Ok(path)
}

/// Where the last slash of a path is.
fn last_slash(path: &[u8]) -> Option<usize>
    ensures { MatchOption result (All (λ b. b ≢ 47) path.now) (IsLastSlash path.now) }
{
    path.iter().rposition(|b| *b == b'/')
}

/// The folder that a file lies in: the part of its path before the last slash, or `.`.
pub fn folder_of(path: &[u8]) -> &[u8]
    ensures { IsFolder path.now result.now }
{
    match last_slash(path) {
        Some(place) => &path[..place],
        None => b".",
    }
}
