// The real outside, a few lines each. Nothing here tells what it reads or writes.
ghost use Rattle.std.specs.Prelude.{◌≡◌, ◌<◌, ◌≤◌, length, None, false, MatchResult};
ghost use Rattle.dict_io.specs.Outside.{count_up, GotWithin, moment_of, no_side, PutWithin};
ghost use Rattle.dict_io.specs.Real.{faults_after, ReadsFrom, WritesTo};
ghost use Rattle.dict_io.specs.declared.outside.TheConstants.{LAST_MOMENT};

use crate::outside::{Clock, Failed, Got, LAST_MOMENT, Put, Shelf, ShelfFault, Sink, Source};
use dict_value::Bytes;
use std::alloc::Global;
use std::io::{ErrorKind, Read, Write};
use std::rt::Files;
use std::time::{SystemTime, UNIX_EPOCH};
use std::{fs, rt};

#[cfg(test)]
mod tests;

/// Reads from a reader of the runtime.
pub fn read_from<R: Read>(reader: &mut R, buf: &mut [u8]) -> Got
    requires { 0 < length buf.old }
    ensures bound { GotWithin result buf.new }
    ensures bytes { ReadsFrom (R.remaining reader.old) (R.remaining reader.new) result buf.new }
{
    match reader.read(buf) {
        Ok(0) => Got::End,
        Ok(count) => Got::Bytes(count),
        Err(_) => Got::Failed,
    }
}

/// Writes to a writer of the runtime; one that takes nothing has failed.
pub fn write_to<W: Write>(writer: &mut W, piece: &[u8]) -> Put
    requires { 0 < length piece.now }
    ensures bound { PutWithin result piece.now }
    ensures bytes { WritesTo (W.contents writer.old) (W.contents writer.new) result piece.now }
{
    match writer.write(piece) {
        Ok(count) if count > 0 => Put::Bytes(count),
        _ => Put::Failed,
    }
}

/// A reader of the runtime, such as standard input.
#[derive(Drop)]
pub struct StdSource<R: Read> {
    reader: R,
    faults: u64,
    ended: bool,
}

impl<R: Read> StdSource<R> {
    pub fn new(reader: R) -> StdSource<R>
        ensures faults { ⟦<StdSource<R> as Source>⟧.read_faults result ≡ 0 }
        ensures open { ⟦<StdSource<R> as Source>⟧.ended result ≡ false }
    {
        StdSource {
            reader,
            faults: 0,
            ended: false,
        }
    }
}

impl<R: Read> Source for StdSource<R> {
    ghost left = { λ s. None };

    ghost read_faults = { λ s. s.faults };

    ghost ended = { λ s. s.ended };

    ghost kept_by_read = { λ s. no_side };

    fn read(&mut self, buf: &mut [u8]) -> Got {
        let got = read_from(&mut self.reader, buf);
        match got {
            Got::Bytes(_) => {}
            Got::End => self.ended = true,
            Got::Failed => self.faults = self.faults.saturating_add(1),
        }
        got
    }
}

/// A writer of the runtime, such as standard output; one that takes nothing has failed.
#[derive(Drop)]
pub struct StdSink<W: Write> {
    writer: W,
    faults: u64,
}

impl<W: Write> StdSink<W> {
    pub fn new(writer: W) -> StdSink<W>
        ensures { ⟦<StdSink<W> as Sink>⟧.write_faults result ≡ 0 }
    {
        StdSink { writer, faults: 0 }
    }
}

impl<W: Write> Sink for StdSink<W> {
    ghost written = { λ s. None };

    ghost write_faults = { λ s. s.faults };

    ghost kept_by_write = { λ s. no_side };

    fn write(&mut self, piece: &[u8]) -> Put {
        let put = write_to(&mut self.writer, piece);
        if put == Put::Failed {
            self.faults = self.faults.saturating_add(1);
        }
        put
    }
}

/// The files of the runtime, by path.
#[derive(Drop)]
pub struct FileShelf<'a, R: Files> {
    rt: &'a R,
    alloc: Global,
    faults: u64,
}

impl<'a, R: Files> FileShelf<'a, R> {
    pub fn new(rt: &'a R, alloc: Global) -> FileShelf<'a, R>
        ensures { ⟦<FileShelf<'a, R> as Shelf>⟧.shelf_faults result ≡ 0 }
    {
        FileShelf {
            rt,
            alloc,
            faults: 0,
        }
    }
}

impl<R: Files> Shelf for FileShelf<'_, R> {
    ghost Readings = { Unit {0} };

    ghost readings = { λ _. tt };

    ghost file = { λ _ name. None };

    ghost later = { λ _. tt };

    ghost filed = { λ name answer. Unit {0} };

    ghost shelf_faults = { λ s. s.faults };

    fn read_file(&mut self, name: &str, limit: u32) -> Result<Bytes, ShelfFault> {
        let read = read_at_most(self.rt, self.alloc, name, limit);
        if let Err(ShelfFault::Failed) = read {
            self.faults = self.faults.saturating_add(1);
        }
        read
    }
}

/// Reads one byte past the limit at most, so that a huge file isn't read whole.
fn read_at_most<R: Files>(
    rt: &R,
    alloc: Global,
    name: &str,
    limit: u32,
) -> Result<Bytes, ShelfFault> {
    let Ok(file) = fs::open(rt, name) else {
        return Err(ShelfFault::Failed);
    };
    let mut text = Vec::new(alloc);
    match file.take(limit as u64 + 1).read_to_end(&mut text) {
        Ok(_) if text.len() > limit as usize => Err(ShelfFault::TooLong),
        Ok(_) => Ok(Bytes::from_vec(text)),
        Err(fault) if fault.kind() == ErrorKind::OutOfMemory => Err(ShelfFault::NoMemory),
        Err(_) => Err(ShelfFault::Failed),
    }
}

/// The clock of the runtime. Where it can't be read, the last moment that it gave stands.
#[derive(Drop)]
pub struct SystemClock<'a, R: rt::Clock> {
    rt: &'a R,
    last: u64,
    taken: u64,
    /// How often it couldn't be read.
    pub faults: u64,
    ghost within: { last ≤ LAST_MOMENT },
}

impl<'a, R: rt::Clock> SystemClock<'a, R> {
    pub fn new(rt: &'a R) -> SystemClock<'a, R>
        ensures moments { ⟦<SystemClock<'a, R> as Clock>⟧.moments result ≡ None }
        ensures taken { ⟦<SystemClock<'a, R> as Clock>⟧.taken result ≡ 0 }
        ensures faults { result.faults ≡ 0 }
    {
        SystemClock {
            rt,
            last: 0,
            taken: 0,
            faults: 0,
        }
    }

    /// The moment of a reading; without one the last moment stands, and the fault is counted.
    fn moment_by(&mut self, seconds: Result<u64, Failed>) -> u64
        ensures moment { result ≡ self.new.last }
        ensures last { MatchResult seconds (λ s. self.new.last ≡ moment_of s) (λ _. self.new.last ≡ self.old.last) }
        ensures faults { self.new.faults ≡ faults_after seconds self.old.faults }
        ensures taken { self.new.taken ≡ self.old.taken }
    {
        match seconds {
            Ok(seconds) => self.last = seconds.min(LAST_MOMENT),
            Err(Failed) => self.faults = self.faults.saturating_add(1),
        }
        self.last
    }
}

/// The whole seconds since 1970 by the runtime's clock; before 1970 it can't be read.
fn seconds_by<R: rt::Clock>(rt: &R) -> Result<u64, Failed> {
    let Ok(now) = SystemTime::now(rt) else {
        return Err(Failed);
    };
    match now.duration_since(UNIX_EPOCH) {
        Ok(since) => Ok(since.as_secs()),
        Err(_) => Err(Failed),
    }
}

impl<R: rt::Clock> Clock for SystemClock<'_, R> {
    ghost moments = { λ s. None };

    ghost taken = { λ s. s.taken };

    fn now(&mut self) -> u64 {
        self.taken = self.taken.saturating_add(1);
        self.moment_by(seconds_by(self.rt))
    }
}
