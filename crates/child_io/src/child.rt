// A child and its spawner, as traits.
ghost use Rattle.std.specs.Prelude.{◌≡◌, ◌<◌, ◌≤◌, ℕ, List, [], Bool, Option, true, false};
ghost use Rattle.std.specs.Prelude.{length, IsErr, IsErrOf, IfOk, IsTrue};
ghost use Rattle.dict_io.specs.Outside.{HasCause, PutWithin};
ghost use Rattle.child_io.specs.Calls.{heard_act, History, input_closed, put_act, Takes, wait_act};
ghost use Rattle.child_io.specs.Told.{HeardFails, HeardTold, HeardWithin, is_heard_end, PutTold, Told, WaitTold};
ghost use Rattle.child_io.specs.Told.{IsFresh, RanAs, StartTold, StartsTold};

use dict_io::{Failed, Put};
use dict_value::{Bytes, Exit, ListOf};
use thiserror::Error;

/// What a read of a child gave.
#[derive(Clone, Copy, Debug, PartialEq, Eq)]
pub enum Heard {
    Bytes(usize),
    End,
    Failed,
    TimedOut,
}

/// Why a child wasn't started.
#[derive(Clone, Copy, Debug, PartialEq, Eq, Error)]
pub enum StartFault {
    #[error("the program can't be started")]
    Failed,
    #[error("no memory")]
    NoMemory,
}

/// In which way a child failed.
#[derive(Clone, Copy, Debug, PartialEq, Eq)]
pub enum How {
    Write,
    Read,
    TimedOut,
    Wait,
}

/// What a child in memory does. Reads and writes are counted from 0.
#[derive(Debug, Drop)]
pub struct Script {
    pub start_fails: bool,
    pub output: Bytes,
    /// The greatest sizes of the pieces that the reads give, in turn; 0 and past the end are the room.
    pub sizes: ListOf<u32>,
    pub failing_reads: ListOf<u64>,
    pub timed_out_reads: ListOf<u64>,
    pub failing_writes: ListOf<u64>,
    pub wait_fails: bool,
    /// It prints nothing before its input is closed: a read before that times out.
    pub after_close: bool,
    pub exit: Exit,
    /// How many bytes can be written to it.
    pub room: u32,
    /// The inputs after which it can be read; none accepts all.
    pub accepted: ListOf<Bytes>,
}

/// How a child ended that was read to its end.
#[derive(Debug, Drop)]
pub enum Outcome {
    NotStarted,
    WriteFailed,
    Cut { bytes: Bytes, timed_out: bool },
    TooLong,
    WaitFailed(Bytes),
    Ended { bytes: Bytes, exit: Exit },
    NoMemory,
}

/// A program that runs.
pub trait Child: Drop {
    ghost use Rattle.child_io.specs.declared.child.How.{How};

    /// Its script and how far it is, where it tells that.
    ghost told: { Self → Option Told };

    /// Its input was closed.
    ghost closed: { Self → Bool };

    /// A read found the end of its output, and nothing is read any more.
    ghost ended: { Self → Bool };

    /// How often a call failed.
    ghost faults: { Self → ℕ };

    /// A child of this type failed in this way.
    ghost broke: { How → Type 0 };

    /// The calls that it took from its first state to its second.
    ghost history: { History Self };

    fn write(&mut self, piece: &[u8]) -> Put
        requires { 0 < length piece.now }
        ensures bound { PutWithin result piece.now }
        ensures told { PutTold (told self.old) (told self.new) result piece.now }
        ensures cause { HasCause (faults self.old) (faults self.new) (result ≡ Put.Failed) }
        ensures broke { result ≡ Put.Failed → broke How.Write }
        ensures closed { closed self.new ≡ closed self.old }
        ensures ended { ended self.new ≡ ended self.old }
        ensures history { Takes history self.old (put_act result piece.now) self.new };

    fn close_input(&mut self)
        ensures told { told self.new ≡ told self.old }
        ensures faults { faults self.new ≡ faults self.old }
        ensures closed { closed self.new ≡ true }
        ensures ended { ended self.new ≡ ended self.old }
        ensures history { Takes history self.old input_closed self.new };

    fn read(&mut self, buf: &mut [u8], limit_ms: u32) -> Heard
        requires room { 0 < length buf.old }
        requires open { ended self.old ≡ false }
        ensures bound { HeardWithin result buf.new }
        ensures told { HeardTold (told self.old) (closed self.old) (told self.new) result buf.new }
        ensures cause { HasCause (faults self.old) (faults self.new) (HeardFails result) }
        ensures broke_read { result ≡ Heard.Failed → broke How.Read }
        ensures broke_timed_out { result ≡ Heard.TimedOut → broke How.TimedOut }
        ensures closed { closed self.new ≡ closed self.old }
        ensures ended { ended self.new ≡ is_heard_end result }
        ensures history { Takes history self.old (heard_act limit_ms result buf.new) self.new };

    fn wait(&mut self) -> Result<Exit, Failed>
        requires { IsTrue (closed self.old) }
        ensures told { told self.new ≡ told self.old }
        ensures exit { WaitTold (told self.old) result }
        ensures cause { HasCause (faults self.old) (faults self.new) (IsErr result) }
        ensures broke { IsErr result → broke How.Wait }
        ensures closed { closed self.new ≡ closed self.old }
        ensures ended { ended self.new ≡ ended self.old }
        ensures history { Takes history self.old (wait_act result) self.new };
}

/// What starts children.
pub trait Spawner {
    ghost use Rattle.dict_value.specs.declared.fault.Exit.{Exit};
    ghost use Rattle.child_io.specs.declared.child.Script.{Script};

    type C: Child;

    /// A child was started with these words, and this is its whole output and its exit.
    ghost ran: { List (List ℕ) → List ℕ → Exit → Type 0 };

    /// The spawner's first state started this child with these words, which led to its second state.
    ghost started: { Self → List (List ℕ) → Self.C → Self → Type 0 };

    /// The scripts that come, where it tells them.
    ghost scripts: { Self → Option (List Script) };

    /// The words of each start so far, where it tells them.
    ghost starts: { Self → Option (List (List (List ℕ))) };

    /// How often a start failed.
    ghost start_faults: { Self → ℕ };

    /// The first word is the program, and the others are its arguments.
    fn start(&mut self, words: &[Bytes]) -> Result<Self::C, StartFault>
        ensures told { StartTold Self.C.told (scripts self.old) (scripts self.new) result }
        ensures fresh { IfOk result (λ c. IsFresh (Self.C.told c)) }
        ensures open { IfOk result (λ c. Self.C.ended c ≡ false) }
        ensures ran { IfOk result (λ c. RanAs ran words.now (Self.C.told c)) }
        ensures started { IfOk result (λ c. started self.old words.now c self.new) }
        ensures starts { StartsTold (starts self.old) words.now (starts self.new) (IsErr result) }
        ensures history { IfOk result (λ c. Self.C.history c [] c) }
        ensures cause { HasCause (start_faults self.old) (start_faults self.new) (IsErrOf result StartFault.Failed) };
}
