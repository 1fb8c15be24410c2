// How a run of the program ends: its status, the number that tells it to the caller, and its text.
ghost use Rattle.std.specs.Prelude.{◌≡◌, ◌++◌, ◌∷◌, [], IsErr, codes, decimal};
ghost use Rattle.dict_io.specs.Outside.{HasCause, Rose, WritesPrefix};
ghost use Rattle.dictd.specs.Statuses.{TellsText, fault_text, status_text};

use dict_io::{Failed, Sink, write_all};
use itoa::Buffer;

/// How a run ended.
#[derive(Clone, Copy, Debug, PartialEq, Eq)]
pub enum Status {
    Done,
    Usage,
    DefsUnread,
    /// The definitions file has no reading: the line of its fault, from 1, the byte, from 0, and words.
    DefsRefused {
        line: u32,
        place: u32,
        words: &'static [u8],
    },
    ReadFault,
    WriteFault,
    LineTooLong,
    /// As many requests were answered as a session may have.
    Spent,
    DefsTooLong,
    NoMemory,
}

impl Status {
    ghost use Rattle.std.specs.Prelude.{◌≡◌};
    ghost use Rattle.dictd.specs.Statuses.{status_number};

    /// The number that the program ends with.
    pub fn number(self) -> u8
        ensures { result ≡ status_number self }
    {
        match self {
            Status::Done => 0,
            Status::Usage => 2,
            Status::DefsUnread => 3,
            Status::DefsRefused { .. } => 4,
            Status::ReadFault => 5,
            Status::WriteFault => 6,
            Status::LineTooLong => 7,
            Status::Spent => 8,
            Status::DefsTooLong => 9,
            Status::NoMemory => 12,
        }
    }
}

/// Writes a piece and another behind it.
fn write_both<E: Sink>(err: &mut E, first: &[u8], second: &[u8]) -> Result<(), Failed>
    ensures bytes { WritesPrefix (E.written err.old) (E.written err.new) (first.now ++ second.now) result }
    ensures cause { HasCause (E.write_faults err.old) (E.write_faults err.new) (IsErr result) }
{
    match write_all(err, first) {
        Ok(()) => write_all(err, second),
        Err(fault) => Err(fault),
    }
}

/// Writes a piece and a number behind it.
fn write_number<E: Sink>(err: &mut E, piece: &[u8], number: u32) -> Result<(), Failed>
    ensures bytes { WritesPrefix (E.written err.old) (E.written err.new) (piece.now ++ decimal number) result }
    ensures cause { HasCause (E.write_faults err.old) (E.write_faults err.new) (IsErr result) }
{
    let mut digits = Buffer::new();
    write_both(err, piece, digits.format(number).as_bytes())
}

/// Writes words and the end of their line.
fn write_words<E: Sink>(err: &mut E, words: &[u8]) -> Result<(), Failed>
    ensures bytes { WritesPrefix (E.written err.old) (E.written err.new) (codes ": " ++ (words.now ++ 10 ∷ [])) result }
    ensures cause { HasCause (E.write_faults err.old) (E.write_faults err.new) (IsErr result) }
{
    match write_all(err, b": ") {
        Ok(()) => write_both(err, words, b"\n"),
        Err(fault) => Err(fault),
    }
}

/// Writes a byte of a file and words.
fn write_place<E: Sink>(err: &mut E, place: u32, words: &[u8]) -> Result<(), Failed>
    ensures bytes { WritesPrefix (E.written err.old) (E.written err.new)
        ((codes " byte " ++ decimal place) ++ (codes ": " ++ (words.now ++ 10 ∷ []))) result }
    ensures cause { HasCause (E.write_faults err.old) (E.write_faults err.new) (IsErr result) }
{
    match write_number(err, b" byte ", place) {
        Ok(()) => write_words(err, words),
        Err(fault) => Err(fault),
    }
}

/// Writes why a definitions file has no reading, which takes no memory.
fn write_fault<E: Sink>(err: &mut E, line: u32, place: u32, words: &[u8]) -> Result<(), Failed>
    ensures bytes { WritesPrefix (E.written err.old) (E.written err.new) (fault_text line place words.now) result }
    ensures cause { HasCause (E.write_faults err.old) (E.write_faults err.new) (IsErr result) }
{
    match write_number(err, b"definitions line ", line) {
        Ok(()) => write_place(err, place, words),
        Err(fault) => Err(fault),
    }
}

/// Writes the text that tells a status, with its line feed.
fn write_status<E: Sink>(err: &mut E, status: Status) -> Result<(), Failed>
    ensures bytes { WritesPrefix (E.written err.old) (E.written err.new) (status_text status) result }
    ensures cause { HasCause (E.write_faults err.old) (E.write_faults err.new) (IsErr result) }
{
    match status {
        Status::Done => Ok(()),
        Status::Usage => write_all(
            err,
            b"usage: dictd once DEFS SEED | dictd serve DEFS ADDR WORKERS SEED | dictd demo N SEED\n",
        ),
        Status::DefsUnread => write_all(err, b"cannot read definitions\n"),
        Status::DefsRefused { line, place, words } => write_fault(err, line, place, words),
        Status::ReadFault => write_all(err, b"read failed\n"),
        Status::WriteFault => write_all(err, b"write failed\n"),
        Status::LineTooLong => write_all(err, b"line too long\n"),
        Status::Spent => write_all(err, b"too many requests\n"),
        Status::DefsTooLong => write_all(err, b"definitions too long\n"),
        Status::NoMemory => write_all(err, b"no memory\n"),
    }
}

/// Tells a status on the error output; a write there that fails is passed over.
pub fn tell<E: Sink>(err: &mut E, status: Status)
    ensures { TellsText (E.written err.old) (E.written err.new) (status_text status)
        (Rose (E.write_faults err.old) (E.write_faults err.new)) }
{
    let _ = write_status(err, status);
}
