// What the program meets, as traits.
ghost use Rattle.std.specs.Prelude.{◌≡◌, ◌<◌, ◌≤◌, ℕ, List, length, Bool, Option, Result, false, IsErr, IsErrOf};
ghost use Rattle.dict_io.specs.Outside.{count_up, HasCause, GotGives, GotWithin, is_end, PutGives, PutWithin, Side};
ghost use Rattle.dict_io.specs.Outside.{NextMoment, ReadsFile, WritesPrefix};
ghost use Rattle.dict_io.specs.declared.outside.ShelfFault.{ShelfFault};

use dict_value::Bytes;
use thiserror::Error;

/// A call of the outside failed.
#[derive(Clone, Copy, Debug, PartialEq, Eq)]
pub struct Failed;

/// What a read gave: the bytes at the front of the buffer, the end, or a fault.
#[derive(Clone, Copy, Debug, PartialEq, Eq)]
pub enum Got {
    Bytes(usize),
    End,
    Failed,
}

/// What a write took: so many bytes of the piece, or it failed.
#[derive(Clone, Copy, Debug, PartialEq, Eq)]
pub enum Put {
    Bytes(usize),
    Failed,
}

/// Why a file wasn't read.
#[derive(Clone, Copy, Debug, PartialEq, Eq, Error)]
pub enum ShelfFault {
    #[error("the file can't be read")]
    Failed,
    #[error("the file is too long")]
    TooLong,
    #[error("no memory")]
    NoMemory,
}

/// Bytes that come from outside.
pub trait Source {
    /// What is left to be read, where it tells that.
    ghost left: { Self → Option (List ℕ) };

    /// How often a read has failed.
    ghost read_faults: { Self → ℕ };

    /// A read found the end, and nothing is read any more.
    ghost ended: { Self → Bool };

    /// What a read leaves as it is: the side that is written, where there is one.
    ghost kept_by_read: { Self → Side };

    fn read(&mut self, buf: &mut [u8]) -> Got
        requires room { 0 < length buf.old }
        requires open { ended self.old ≡ false }
        ensures bound { GotWithin result buf.new }
        ensures bytes { GotGives (left self.old) (left self.new) result buf.new }
        ensures cause { HasCause (read_faults self.old) (read_faults self.new) (result ≡ Got.Failed) }
        ensures end { ended self.new ≡ is_end result }
        ensures kept { kept_by_read self.new ≡ kept_by_read self.old };
}

/// Where bytes go.
pub trait Sink {
    /// What was written, where it tells that.
    ghost written: { Self → Option (List ℕ) };

    /// How often a write has failed.
    ghost write_faults: { Self → ℕ };

    /// What a write leaves as it is: the side that is read, where there is one.
    ghost kept_by_write: { Self → Side };

    fn write(&mut self, piece: &[u8]) -> Put
        requires { 0 < length piece.now }
        ensures bound { PutWithin result piece.now }
        ensures bytes { PutGives (written self.old) (written self.new) result piece.now }
        ensures cause { HasCause (write_faults self.old) (write_faults self.new) (result ≡ Put.Failed) }
        ensures kept { kept_by_write self.new ≡ kept_by_write self.old };
}

/// Files by their names: each reading gives what the file is then.
pub trait Shelf {
    /// What the readings that come will find is plain data of a type that the shelf names.
    ghost Readings: { Type 0 };

    ghost readings: { Self → Readings };

    /// What the next reading finds of a name: the file's bytes, or that there is no such file, where that is told.
    ghost file: { Readings → List ℕ → Option (Option (List ℕ)) };

    /// What the readings behind the next one will find.
    ghost later: { Readings → Readings };

    /// A shelf answered this for the file of this name.
    ghost filed: { List ℕ → Result (List ℕ) ShelfFault → Type 0 };

    /// How often a file wasn't read.
    ghost shelf_faults: { Self → ℕ };

    /// The bytes of a file that has at most `limit` of them.
    fn read_file(&mut self, name: &str, limit: u32) -> Result<Bytes, ShelfFault>
        ensures bytes { ReadsFile (file (readings self.old) name.now) limit result }
        ensures filed { filed name.now result }
        ensures cause { HasCause (shelf_faults self.old) (shelf_faults self.new) (IsErrOf result ShelfFault.Failed) }
        ensures later { readings self.new ≡ later (readings self.old) };
}

/// The last moment: a number above it that a clock gives is read as this one.
pub const LAST_MOMENT: u64 = 9_223_372_036_854_775_807;

/// Moments, as seconds since the midnight UTC of 1970-01-01.
pub trait Clock {
    /// The moments that come, where it tells them; the last one stays.
    ghost moments: { Self → Option (List ℕ) };

    /// How many moments were taken.
    ghost taken: { Self → ℕ };

    fn now(&mut self) -> u64
        ensures moment { NextMoment (moments self.old) (moments self.new) result }
        ensures bound { result ≤ LAST_MOMENT }
        ensures taken { taken self.new ≡ count_up (taken self.old) };
}

/// Writes the whole piece, or a front of it and then a write fails.
pub fn write_all<O: Sink>(out: &mut O, piece: &[u8]) -> Result<(), Failed>
    ensures bytes { WritesPrefix (O.written out.old) (O.written out.new) piece.now result }
    ensures cause { HasCause (O.write_faults out.old) (O.write_faults out.new) (IsErr result) }
    ensures kept { O.kept_by_write out.new ≡ O.kept_by_write out.old }
{
    let mut done = 0;
    while done < piece.len() {
        match out.write(&piece[done..]) {
            Put::Bytes(count) => done += count,
            Put::Failed => return Err(Failed),
        }
    }
    Ok(())
}
