//! dictd: a lookup server for dictionaries whose rows come from programs.
//!
//! Today it answers the requests of one input from the dictionaries of a definitions file, by `dictd once DEFS SEED`,
//! and counts the lookups in a dictionary that it makes, by `dictd demo N SEED`.
//! It promises that what it writes, which children it starts, and the status that it ends with come from the words, the
//! definitions file, the moments, the children and the requests as the definitions say, and that each status comes only
//! where its cause stands. It takes no Wait and starts no thread.
#![tactic(auto)]

mod demo;
mod once;
mod status;
#[cfg(test)]
mod tests;
mod words;

use crate::once::Outside;
use crate::status::{Status, tell};
use child_io::OsSpawner;
use dict_io::{Both, FileShelf, StdSink, StdSource, SystemClock};
use std::env;
use std::io::{ErrorKind, Write};
use std::process::ExitCode;

/// Runs the words of the call, and ends with the number of the status.
fn main(rt: HostRuntime) -> ExitCode {
    let mut err = StdSink::new(rt.stderr());
    let status = match called_words(&rt) {
        Ok(words) => run(&rt, words.as_slice(), &mut err),
        Err(status) => {
            tell(&mut err, status);
            status
        }
    };
    ExitCode::from(status.number())
}

/// The words behind the program's name. One that isn't UTF-8 is in no form that is called.
fn called_words(rt: &HostRuntime) -> Result<Vec<String>, Status> {
    let args = match env::args(rt) {
        Ok(args) => args,
        Err(fault) if fault.kind() == ErrorKind::OutOfMemory => return Err(Status::NoMemory),
        Err(_) => return Err(Status::Usage),
    };
    let mut words = Vec::new(rt.alloc());
    for word in args.skip(1) {
        if words.push(word).is_err() {
            return Err(Status::NoMemory);
        }
    }
    Ok(words)
}

/// Runs `demo` where it is the first word, and otherwise `once`, over the real objects.
fn run<W: Write>(rt: &HostRuntime, words: &[String], err: &mut StdSink<W>) -> Status {
    let alloc = rt.alloc();
    if words.first().is_some_and(|verb| verb.as_str() == "demo") {
        return demo::demo(alloc, words, &mut StdSink::new(rt.stdout()), err);
    }
    let outside = Outside {
        shelf: FileShelf::new(rt, alloc),
        spawner: OsSpawner::new(rt, alloc),
        clock: SystemClock::new(rt),
    };
    let mut link = Both::new(StdSource::new(rt.stdin()), StdSink::new(rt.stdout()));
    once::once(alloc, words, outside, &mut link, err).status
}
