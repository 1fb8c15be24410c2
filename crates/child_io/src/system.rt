// Real programs over pipes, a few lines. Nothing here tells what they read or print.
ghost use Rattle.std.specs.Prelude.{◌≡◌, None, IfOk, false};
ghost use Rattle.child_io.specs.System.{heard_got, WaitsAs};

use crate::child::{Child, Heard, Spawner, StartFault};
use dict_io::{Failed, Got, Put, read_from, write_to};
use dict_value::{Bytes, Exit};
use std::alloc::Global;
use std::io::ErrorKind;
use std::process::{Command, ExitStatus, OpenProcess, Processes, Stdio};
use std::{io, process, str};

#[cfg(test)]
mod tests;

/// A real program. Where it is dropped its pipes are closed; it is neither ended nor waited for, but
/// one that has ended by then is taken off the system's list.
pub struct OsChild<P: OpenProcess + Drop> {
    child: process::Child<P>,
    closed: bool,
    ended: bool,
    faults: u64,
}

impl<P: OpenProcess + Drop> Drop for OsChild<P> {
    fn drop(self) {
        let OsChild {
            mut child,
            closed: _,
            ended: _,
            faults: _,
        } = self;
        drop(child.stdin.take());
        drop(child.stdout.take());
        let _ = child.try_wait();
    }
}

impl<P: OpenProcess + Drop> Child for OsChild<P> {
    ghost told = { λ c. None };

    ghost closed = { λ c. c.closed };

    ghost ended = { λ c. c.ended };

    ghost faults = { λ c. c.faults };

    ghost broke = { λ how. Unit {0} };

    ghost history = { λ first acts now. Unit {0} };

    fn write(&mut self, piece: &[u8]) -> Put {
        let put = match &mut self.child.stdin {
            Some(input) => write_to(input, piece),
            None => Put::Failed,
        };
        if put == Put::Failed {
            self.faults = self.faults.saturating_add(1);
        }
        put
    }

    fn close_input(&mut self) {
        drop(self.child.stdin.take());
        self.closed = true;
    }

    /// A real child meets no read limit yet.
    fn read(&mut self, buf: &mut [u8], _limit_ms: u32) -> Heard {
        let got = match &mut self.child.stdout {
            Some(output) => read_from(output, buf),
            None => Got::Failed,
        };
        match got {
            Got::Bytes(_) => {}
            Got::End => self.ended = true,
            Got::Failed => self.faults = self.faults.saturating_add(1),
        }
        heard(got)
    }

    fn wait(&mut self) -> Result<Exit, Failed> {
        let exit = exit_by(self.child.wait());
        if exit.is_err() {
            self.faults = self.faults.saturating_add(1);
        }
        exit
    }
}

/// What a read of the output gave, as that of a child that meets no limit.
fn heard(got: Got) -> Heard
    ensures { result ≡ heard_got got }
{
    match got {
        Got::Bytes(count) => Heard::Bytes(count),
        Got::End => Heard::End,
        Got::Failed => Heard::Failed,
    }
}

/// How a child ended that was waited for; one without a code was killed.
fn exit_by(waited: io::Result<ExitStatus>) -> Result<Exit, Failed>
    ensures { WaitsAs waited result }
{
    match waited {
        Ok(status) => Ok(match status.code() {
            Some(code) => Exit::Code(code),
            None => Exit::Killed,
        }),
        Err(_) => Err(Failed),
    }
}

/// Starts real programs, with pipes for their input and output; standard error is handed down.
#[derive(Drop)]
pub struct OsSpawner<'a, R: Processes> {
    rt: &'a R,
    alloc: Global,
    faults: u64,
}

impl<'a, R: Processes> OsSpawner<'a, R> {
    pub fn new(rt: &'a R, alloc: Global) -> OsSpawner<'a, R>
        ensures { ⟦<OsSpawner<'a, R> as Spawner>⟧.start_faults result ≡ 0 }
    {
        OsSpawner {
            rt,
            alloc,
            faults: 0,
        }
    }
}

impl<R: Processes> Spawner for OsSpawner<'_, R> {
    type C = OsChild<R::Started>;

    ghost ran = { λ words output exit. Unit {0} };

    ghost started = { λ old words c new. Unit {0} };

    ghost scripts = { λ s. None };

    ghost starts = { λ s. None };

    ghost start_faults = { λ s. s.faults };

    fn start(&mut self, words: &[Bytes]) -> Result<OsChild<R::Started>, StartFault> {
        let started = start_program(self.rt, self.alloc, words);
        if let Err(StartFault::Failed) = &started {
            self.faults = self.faults.saturating_add(1);
        }
        started
    }
}

/// Words that aren't UTF-8 can't be handed to a program.
fn start_program<R: Processes>(
    rt: &R,
    alloc: Global,
    words: &[Bytes],
) -> Result<OsChild<R::Started>, StartFault>
    ensures { IfOk result (λ child. child.ended ≡ false) }
{
    let Some((program, arguments)) = words.split_first() else {
        return Err(StartFault::Failed);
    };
    let mut command = new_command(alloc, program)?;
    for argument in arguments {
        add_argument(&mut command, argument)?;
    }
    command.stdin(Stdio::piped()).stdout(Stdio::piped());
    match command.spawn(rt) {
        Ok(child) => Ok(OsChild {
            child,
            closed: false,
            ended: false,
            faults: 0,
        }),
        Err(fault) if fault.kind() == ErrorKind::OutOfMemory => Err(StartFault::NoMemory),
        Err(_) => Err(StartFault::Failed),
    }
}

fn new_command(alloc: Global, program: &Bytes) -> Result<Command, StartFault> {
    let Ok(text) = str::from_utf8(program.as_slice()) else {
        return Err(StartFault::Failed);
    };
    match Command::new(alloc, text) {
        Ok(command) => Ok(command),
        Err(_) => Err(StartFault::NoMemory),
    }
}

fn add_argument(command: &mut Command, argument: &Bytes) -> Result<(), StartFault> {
    let Ok(text) = str::from_utf8(argument.as_slice()) else {
        return Err(StartFault::Failed);
    };
    match command.arg(text) {
        Ok(_) => Ok(()),
        Err(_) => Err(StartFault::NoMemory),
    }
}
