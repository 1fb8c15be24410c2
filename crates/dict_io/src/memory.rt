// A source, a sink and a clock in memory, which tell what they hold.
ghost use Rattle.std.specs.Prelude.{◌≡◌, ◌<◌, ◌≤◌, length, drop, Some, IfOk, [], false};
ghost use Rattle.dict_io.specs.Memory.{size_at};
ghost use Rattle.dict_io.specs.Outside.{no_side};

use crate::outside::{Clock, Got, LAST_MOMENT, Put, Sink, Source};
use dict_value::{Bytes, ListOf, NoMemory};
use std::alloc::Global;

#[cfg(test)]
mod tests;

/// Bytes that are read piece by piece.
#[derive(Drop)]
pub struct MemorySource {
    text: Bytes,
    at: usize,
    sizes: ListOf<u32>,
    failing: ListOf<u64>,
    calls: u64,
    faults: u64,
    ended: bool,
    ghost within: { at ≤ length text },
}

/// How much a read of that number may give: its size of the list, or the room for a size of 0 and
/// past the end.
pub fn piece_size(sizes: &ListOf<u32>, call: u64, room: usize) -> usize
    requires { 0 < room }
    ensures value { result ≡ size_at sizes.now call room }
    ensures some { 0 < result }
    ensures bound { result ≤ room }
{
    match sizes.as_slice().get(call as usize) {
        Some(size) if *size > 0 => (*size as usize).min(room),
        _ => room,
    }
}

impl MemorySource {
    /// `sizes` are the greatest sizes of the pieces in turn, and `failing` the reads, from 0, that fail.
    pub fn new(left: Bytes, sizes: ListOf<u32>, failing: ListOf<u64>) -> MemorySource
        ensures left { ⟦<MemorySource as Source>⟧.left result ≡ Some left }
        ensures faults { ⟦<MemorySource as Source>⟧.read_faults result ≡ 0 }
        ensures open { ⟦<MemorySource as Source>⟧.ended result ≡ false }
    {
        MemorySource {
            text: left,
            at: 0,
            sizes,
            failing,
            calls: 0,
            faults: 0,
            ended: false,
        }
    }
}

impl Source for MemorySource {
    ghost left = { λ s. Some (drop s.at s.text) };

    ghost read_faults = { λ s. s.faults };

    ghost ended = { λ s. s.ended };

    ghost kept_by_read = { λ s. no_side };

    fn read(&mut self, buf: &mut [u8]) -> Got {
        let call = self.calls;
        self.calls = call.saturating_add(1);
        if self.failing.as_slice().contains(&call) {
            self.faults = self.faults.saturating_add(1);
            return Got::Failed;
        }
        let rest = &self.text.as_slice()[self.at..];
        let count = piece_size(&self.sizes, call, buf.len()).min(rest.len());
        if count == 0 {
            self.ended = true;
            return Got::End;
        }
        buf[..count].copy_from_slice(&rest[..count]);
        self.at += count;
        Got::Bytes(count)
    }
}

/// Room for so many bytes, which lends what was written.
#[derive(Drop)]
pub struct MemorySink {
    written: Bytes,
    room: usize,
    failing: ListOf<u64>,
    calls: u64,
    faults: u64,
}

impl MemorySink {
    /// Takes the whole room at once; `failing` are the writes, from 0, that fail.
    pub fn new(alloc: Global, room: u32, failing: ListOf<u64>) -> Result<MemorySink, NoMemory>
        ensures written { IfOk result (λ s. ⟦<MemorySink as Sink>⟧.written s ≡ Some []) }
        ensures faults { IfOk result (λ s. ⟦<MemorySink as Sink>⟧.write_faults s ≡ 0) }
    {
        let room = room as usize;
        Ok(MemorySink {
            written: Bytes::with_room(alloc, room)?,
            room,
            failing,
            calls: 0,
            faults: 0,
        })
    }

    pub fn written(&self) -> &Bytes
        ensures { ⟦<MemorySink as Sink>⟧.written self.now ≡ Some result.now }
    {
        &self.written
    }
}

impl Sink for MemorySink {
    ghost written = { λ s. Some s.written };

    ghost write_faults = { λ s. s.faults };

    ghost kept_by_write = { λ s. no_side };

    fn write(&mut self, piece: &[u8]) -> Put {
        let call = self.calls;
        self.calls = call.saturating_add(1);
        let left = self.room.saturating_sub(self.written.len());
        let count = piece.len().min(left);
        let fails = count == 0 || self.failing.as_slice().contains(&call);
        if fails || self.written.extend(&piece[..count]).is_err() {
            self.faults = self.faults.saturating_add(1);
            return Put::Failed;
        }
        Put::Bytes(count)
    }
}

/// A clock that gives its moments in order, and then the last one.
#[derive(Drop)]
pub struct MemoryClock {
    moments: ListOf<u64>,
    at: usize,
    taken: u64,
    ghost within: { at < length moments },
}

impl MemoryClock {
    pub fn new(moments: ListOf<u64>) -> MemoryClock
        requires { 0 < length moments }
        ensures moments { ⟦<MemoryClock as Clock>⟧.moments result ≡ Some moments }
        ensures taken { ⟦<MemoryClock as Clock>⟧.taken result ≡ 0 }
    {
        MemoryClock {
            moments,
            at: 0,
            taken: 0,
        }
    }
}

impl Clock for MemoryClock {
    ghost moments = { λ s. Some (drop s.at s.moments) };

    ghost taken = { λ s. s.taken };

    fn now(&mut self) -> u64 {
        self.taken = self.taken.saturating_add(1);
        let now = self.moments.as_slice()[self.at].min(LAST_MOMENT);
        if self.at + 1 < self.moments.len() {
            self.at += 1;
        }
        now
    }
}
