// Runs of `once` over objects in memory.
ghost use Rattle.std.specs.Prelude.{◌≡◌, IfOk, false};

mod changes;
mod demo;
mod layouts;
mod loads;
mod requests;
mod shop;
mod shut;
mod statuses;
mod updates;
mod values;

use crate::once::{Outside, once};
use crate::status::Status;
use child_io::{MemorySpawner, Script};
use dict_io::{Both, MemoryClock, MemoryShelf, MemorySink, MemorySource, NamedFile, Shelf, Source};
use dict_value::{Bytes, Exit, ListOf};
use std::alloc::{AllocError, Global};
use std::process::Abort;
use std::test::Fail;

/// How a child of a run behaves.
#[derive(Clone, Copy)]
enum Ends {
    With(i32),
    Killed,
    NotStarted,
    /// The read of that number fails.
    Cut(u64),
    WaitFails,
}

/// A child: what it prints, and how it ends.
type Child = (&'static [u8], Ends);

/// A run whose status is Done: the definitions file, the children in their order, the moments, the requests, and the
/// replies.
struct Session {
    file: &'static [u8],
    children: &'static [Child],
    moments: &'static [u64],
    input: &'static [u8],
    out: &'static [u8],
}

fn numbers(alloc: Global, items: &[u64]) -> Result<ListOf<u64>, AllocError> {
    Ok(ListOf::from_vec(Vec::from_slice(alloc, items)?))
}

fn script(alloc: Global, output: &[u8], ends: Ends) -> Result<Script, Fail> {
    let failing: [u64; 1] = match ends {
        Ends::Cut(read) => [read],
        _ => [9],
    };
    Ok(Script {
        start_fails: matches!(ends, Ends::NotStarted),
        output: Bytes::copy_of(alloc, output)?,
        sizes: ListOf::from_vec(Vec::from_slice(alloc, &[7])?),
        failing_reads: numbers(alloc, &failing)?,
        timed_out_reads: ListOf::new(alloc),
        failing_writes: ListOf::new(alloc),
        wait_fails: matches!(ends, Ends::WaitFails),
        after_close: true,
        exit: match ends {
            Ends::With(code) => Exit::Code(code),
            _ => Exit::Killed,
        },
        room: 0,
        accepted: ListOf::new(alloc),
    })
}

fn spawner(alloc: Global, children: &[Child]) -> Result<MemorySpawner, Fail> {
    let mut scripts = ListOf::new(alloc);
    for (output, ends) in children {
        scripts.push(script(alloc, output, *ends)?)?;
    }
    Ok(MemorySpawner::new(alloc, scripts))
}

/// A shelf of one file, `d.sql`, whose readings of these numbers fail.
fn shelf(alloc: Global, file: &[u8], failing: &[u64]) -> Result<MemoryShelf, Fail> {
    let mut files = ListOf::new(alloc);
    files.push(NamedFile {
        name: Bytes::copy_of(alloc, b"d.sql")?,
        text: Bytes::copy_of(alloc, file)?,
    })?;
    Ok(MemoryShelf::new(alloc, files, numbers(alloc, failing)?))
}

fn strings(alloc: Global, texts: &[&'static str]) -> Result<Vec<String>, AllocError> {
    let mut words = Vec::new(alloc);
    for text in texts {
        words.push(String::from_str(alloc, text)?)?;
    }
    Ok(words)
}

/// A clock of these moments, or of one at 100.
fn clock(alloc: Global, moments: &[u64]) -> Result<MemoryClock, AllocError> {
    if moments.is_empty() {
        let moment = Vec::from_array(alloc, [100u64])?;
        return Ok(MemoryClock::new(ListOf::from_vec(moment)));
    }
    let moments = Vec::from_slice(alloc, moments)?;
    Ok(MemoryClock::new(ListOf::from_vec(moments)))
}

/// What a run met and wrote.
#[derive(Drop)]
struct Told {
    status: Status,
    out: Bytes,
    err: Bytes,
    spawner: MemorySpawner,
}

fn run_told<F: Shelf + Drop>(
    alloc: Global,
    words: &[&'static str],
    outside: Outside<F, MemorySpawner, MemoryClock>,
    input: MemorySource,
    room: u32,
    err_room: u32,
) -> Result<Told, Fail>
    requires { ⟦<MemorySource as Source>⟧.ended input ≡ false }
{
    let words = strings(alloc, words)?;
    let mut link = Both::new(input, MemorySink::new(alloc, room, ListOf::new(alloc))?);
    let mut err = MemorySink::new(alloc, err_room, ListOf::new(alloc))?;
    let ended = once(alloc, words.as_slice(), outside, &mut link, &mut err);
    Ok(Told {
        status: ended.status,
        out: Bytes::copy_of(alloc, link.written().as_slice())?,
        err: Bytes::copy_of(alloc, err.written().as_slice())?,
        spawner: ended.outside.spawner,
    })
}

/// A source of these bytes, which come in pieces of 20.
fn source(alloc: Global, bytes: &[u8], failing: &[u64]) -> Result<MemorySource, Fail>
    ensures { IfOk result (λ source. ⟦<MemorySource as Source>⟧.ended source ≡ false) }
{
    let sizes = ListOf::from_vec(Vec::from_array(alloc, [20u32])?);
    Ok(MemorySource::new(
        Bytes::copy_of(alloc, bytes)?,
        sizes,
        numbers(alloc, failing)?,
    ))
}

/// Runs the requests of a session, which end as Done without a word on the error output.
fn run_session<F: Shelf + Drop>(
    rt: &impl Abort,
    alloc: Global,
    run: &Session,
    shelf: F,
    place: usize,
) -> Result<Told, Fail> {
    let outside = Outside {
        shelf,
        spawner: spawner(alloc, run.children)?,
        clock: clock(alloc, run.moments)?,
    };
    let input = source(alloc, run.input, &[])?;
    let told = run_told(alloc, &["once", "d.sql", "1"], outside, input, 8000, 200)?;
    assert!(rt; told.out.as_slice() == run.out, "at {place}");
    assert_eq!(rt; told.status, Status::Done, "at {place}");
    assert!(rt; told.err.is_empty(), "at {place}");
    Ok(told)
}

fn check_sessions(rt: &impl Abort, alloc: Global, runs: &[Session]) -> Result<(), Fail> {
    for (place, run) in runs.iter().enumerate() {
        let file = shelf(alloc, run.file, &[])?;
        run_session(rt, alloc, run, file, place)?;
    }
    Ok(())
}

const FLAT: &[u8] =
    b"CREATE DICTIONARY d (id UInt64, x String DEFAULT '') PRIMARY KEY id SOURCE(EXECUTABLE(command 'c' format \
        'TabSeparated')) LAYOUT(FLAT()) LIFETIME(0);";

const FIRST: &[Child] = &[(b"1\ta\n2\tb\n", Ends::With(0))];
