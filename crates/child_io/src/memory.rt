// Children in memory, by their scripts.
ghost use Rattle.std.specs.Prelude.{◌≡◌, ◌<◌, ◌≤◌, ℕ, length, take, Some, [], ◌∷◌, ◌++◌, IfOk, OnOk, OnErr};
ghost use Rattle.std.specs.List.{list_any};
ghost use Rattle.std.specs.Str.{bytes_eq};
ghost use Rattle.child_io.specs.Told.{is_accepted, told_of};

use crate::child::{Child, Heard, Script, Spawner, StartFault};
use dict_io::memory::piece_size;
use dict_io::{Failed, Put};
use dict_value::{Bytes, Exit, ListOf, NoMemory};
use std::alloc::Global;

/// The input is one of those, or there are none.
fn accepts(accepted: &[Bytes], written: &[u8]) -> bool
    ensures { result ≡ is_accepted accepted.now written.now }
{
    accepted.is_empty() || is_one_of(accepted, written)
}

fn is_one_of(accepted: &[Bytes], written: &[u8]) -> bool
    ensures { result ≡ list_any (λ y. bytes_eq y written.now) accepted.now }
{
    accepted.iter().any(|input| input.as_slice() == written)
}

/// A child in memory, by its script.
#[derive(Drop)]
pub struct MemoryChild {
    script: Script,
    input: Bytes,
    used: usize,
    at: usize,
    reads: u64,
    writes: u64,
    faults: u64,
    closed: bool,
    ended: bool,
    ghost room: { length input ≡ script.room },
    ghost used_within: { used ≤ length input },
    ghost at_within: { at ≤ length script.output },
}

impl Child for MemoryChild {
    ghost told = { λ c. Some (told_of c.script (take c.used c.input) c.at c.reads c.writes) };

    ghost closed = { λ c. c.closed };

    ghost ended = { λ c. c.ended };

    ghost faults = { λ c. c.faults };

    ghost broke = { λ how. Unit {0} };

    ghost history = { λ first acts now. Unit {0} };

    fn write(&mut self, piece: &[u8]) -> Put {
        let call = self.writes;
        self.writes = call.saturating_add(1);
        let count = piece.len().min(self.input.len() - self.used);
        if count == 0 || self.script.failing_writes.as_slice().contains(&call) {
            self.faults = self.faults.saturating_add(1);
            return Put::Failed;
        }
        self.input.store(self.used, &piece[..count]);
        self.used += count;
        Put::Bytes(count)
    }

    fn close_input(&mut self) {
        self.closed = true;
    }

    fn read(&mut self, buf: &mut [u8], _limit_ms: u32) -> Heard {
        let call = self.reads;
        self.reads = call.saturating_add(1);
        let fails = self.script.failing_reads.as_slice().contains(&call);
        if fails
            || !accepts(
                self.script.accepted.as_slice(),
                &self.input.as_slice()[..self.used],
            )
        {
            self.faults = self.faults.saturating_add(1);
            return Heard::Failed;
        }
        let waits = self.script.after_close && !self.closed;
        if waits || self.script.timed_out_reads.as_slice().contains(&call) {
            self.faults = self.faults.saturating_add(1);
            return Heard::TimedOut;
        }
        let rest = &self.script.output.as_slice()[self.at..];
        let count = piece_size(&self.script.sizes, call, buf.len()).min(rest.len());
        if count == 0 {
            self.ended = true;
            return Heard::End;
        }
        buf[..count].copy_from_slice(&rest[..count]);
        self.at += count;
        Heard::Bytes(count)
    }

    fn wait(&mut self) -> Result<Exit, Failed> {
        if self.script.wait_fails {
            self.faults = self.faults.saturating_add(1);
            return Err(Failed);
        }
        Ok(self.script.exit)
    }
}

/// A spawner whose children follow scripts, in turn. It keeps each start's words.
#[derive(Drop)]
pub struct MemorySpawner {
    alloc: Global,
    scripts: ListOf<Script>,
    starts: ListOf<ListOf<Bytes>>,
    faults: u64,
}

/// The same words.
fn copied(alloc: Global, words: &[Bytes]) -> Result<ListOf<Bytes>, NoMemory>
    ensures { IfOk result (λ copy. copy ≡ words.now) }
{
    let mut copy = ListOf::with_room(alloc, words.len())?;
    for word in words {
        copy.push(Bytes::copy_of(alloc, word.as_slice())?)?;
    }
    Ok(copy)
}

impl MemorySpawner {
    pub fn new(alloc: Global, scripts: ListOf<Script>) -> MemorySpawner
        ensures scripts { ⟦<MemorySpawner as Spawner>⟧.scripts result ≡ Some scripts }
        ensures starts { ⟦<MemorySpawner as Spawner>⟧.starts result ≡ Some [] }
        ensures faults { ⟦<MemorySpawner as Spawner>⟧.start_faults result ≡ 0 }
    {
        MemorySpawner {
            alloc,
            scripts,
            starts: ListOf::new(alloc),
            faults: 0,
        }
    }

    /// The words of each start, in order. A start that gave no child may lack for want of memory.
    pub fn starts(&self) -> &[ListOf<Bytes>]
        ensures { ⟦<MemorySpawner as Spawner>⟧.starts self.now ≡ Some result.now }
    {
        self.starts.as_slice()
    }

    /// Keeps the words of a start.
    fn keep(&mut self, words: &[Bytes]) -> Result<(), NoMemory>
        ensures scripts { self.new.scripts ≡ self.old.scripts }
        ensures faults { self.new.faults ≡ self.old.faults }
        ensures ok { OnOk result (self.new.starts ≡ self.old.starts ++ words.now ∷ []) }
        ensures err { OnErr result (self.new.starts ≡ self.old.starts) }
    {
        let kept = copied(self.alloc, words)?;
        self.starts.push(kept)
    }
}

impl Spawner for MemorySpawner {
    type C = MemoryChild;

    ghost ran = { λ words output exit. Unit {0} };

    ghost started = { λ old words c new. Unit {0} };

    ghost scripts = { λ s. Some s.scripts };

    ghost starts = { λ s. Some s.starts };

    ghost start_faults = { λ s. s.faults };

    fn start(&mut self, words: &[Bytes]) -> Result<MemoryChild, StartFault> {
        let kept = self.keep(words);
        let Some(script) = self.scripts.pop_front() else {
            self.faults = self.faults.saturating_add(1);
            return Err(StartFault::Failed);
        };
        if script.start_fails {
            self.faults = self.faults.saturating_add(1);
            return Err(StartFault::Failed);
        }
        if kept.is_err() {
            return Err(StartFault::NoMemory);
        }
        match Bytes::zeros(self.alloc, script.room as usize) {
            Ok(input) => Ok(MemoryChild {
                script,
                input,
                used: 0,
                at: 0,
                reads: 0,
                writes: 0,
                faults: 0,
                closed: false,
                ended: false,
            }),
            Err(_) => Err(StartFault::NoMemory),
        }
    }
}
