// Links, which are read and written: what a session meets, and objects that are made of two sides.
ghost use Rattle.std.specs.Prelude.{◌≡◌, ℕ, Bool, Some, [], false};
ghost use Rattle.dict_io.specs.Links.{Ends, ends_of, Puts, written_side};
ghost use Rattle.dict_io.specs.Outside.{side};

use crate::memory::{MemorySink, MemorySource};
use crate::outside::{Failed, Got, Put, Sink, Source, write_all};
use dict_value::Bytes;

#[cfg(test)]
mod tests;

/// A source and a sink at once, such as a connection.
pub trait Link: Source + Sink {
    /// The side that is read and the side that is written, as one value.
    ghost ends: { Self → Ends };

    /// They are what the two sides tell and count.
    ghost are: { (l : Self) → ends l
        ≡ ends_of (Self.left l) (Self.read_faults l) (Self.ended l) (Self.written l) (Self.write_faults l) };

    /// What a read keeps is the side that is written.
    ghost read_keeps: { (l : Self) → Self.kept_by_read l ≡ written_side (Self.written l) (Self.write_faults l) };

    /// What a write keeps is the side that is read.
    ghost write_keeps: { (l : Self) → Self.kept_by_write l ≡ side (Self.left l) (Self.read_faults l) (Self.ended l) };
}

/// Writes the whole piece to a link, or a front of it and then a write fails.
pub fn write_link<L: Link>(link: &mut L, piece: &[u8]) -> Result<(), Failed>
    ensures { Puts (L.ends link.old) piece.now result (L.ends link.new) }
{
    write_all(link, piece)
}

/// Where a session stands before it answers a request: a test holds it there.
pub trait Gate {
    /// The worker, and the request within its session, count from 0.
    fn pass(&self, worker: u32, request: u64);
}

/// The gate that holds nobody.
#[derive(Clone, Copy, Debug, Drop)]
pub struct OpenGate;

impl Gate for OpenGate {
    fn pass(&self, _worker: u32, _request: u64) {}
}

/// A link that is made of a source and a sink.
#[derive(Drop)]
pub struct Both<I: Source, O: Sink> {
    source: I,
    sink: O,
}

impl<I: Source, O: Sink> Both<I, O> {
    pub fn new(source: I, sink: O) -> Both<I, O>
        ensures { ⟦<Both<I, O> as Link>⟧.ends result
            ≡ ends_of (I.left source) (I.read_faults source) (I.ended source) (O.written sink) (O.write_faults sink) }
    {
        Both { source, sink }
    }

    pub fn source(&self) -> &I
        ensures { (⟦<Both<I, O> as Link>⟧.ends self.now).reads
            ≡ side (I.left result.now) (I.read_faults result.now) (I.ended result.now) }
    {
        &self.source
    }

    pub fn sink(&self) -> &O
        ensures { (⟦<Both<I, O> as Link>⟧.ends self.now).writes
            ≡ written_side (O.written result.now) (O.write_faults result.now) }
    {
        &self.sink
    }
}

impl<I: Source, O: Sink> Source for Both<I, O> {
    ghost left = { λ s. I.left s.source };

    ghost read_faults = { λ s. I.read_faults s.source };

    ghost ended = { λ s. I.ended s.source };

    ghost kept_by_read = { λ s. written_side (O.written s.sink) (O.write_faults s.sink) };

    fn read(&mut self, buf: &mut [u8]) -> Got {
        self.source.read(buf)
    }
}

impl<I: Source, O: Sink> Sink for Both<I, O> {
    ghost written = { λ s. O.written s.sink };

    ghost write_faults = { λ s. O.write_faults s.sink };

    ghost kept_by_write = { λ s. side (I.left s.source) (I.read_faults s.source) (I.ended s.source) };

    fn write(&mut self, piece: &[u8]) -> Put {
        self.sink.write(piece)
    }
}

impl<I: Source, O: Sink> Link for Both<I, O> {
    ghost use Rattle.std.proofs.Common.{refl};

    ghost ends = { λ s. ends_of (I.left s.source) (I.read_faults s.source) (I.ended s.source) (O.written s.sink)
        (O.write_faults s.sink) };

    ghost are = { λ s. refl };

    ghost read_keeps = { λ s. refl };

    ghost write_keeps = { λ s. refl };
}

/// A link in memory.
pub type MemoryLink = Both<MemorySource, MemorySink>;

impl Both<MemorySource, MemorySink> {
    pub fn written(&self) -> &Bytes
        ensures { (⟦<Both<MemorySource, MemorySink> as Link>⟧.ends self.now).writes.known ≡ Some result.now }
    {
        self.sink.written()
    }
}
