// The run of `demo`: lookups in a hashed dictionary of made rows, counted.
ghost use Rattle.std.specs.Prelude.{◌≡◌, ◌<◌, ◌≤◌, IfOk, List, map, string_bytes, ℕ};
ghost use Rattle.dict_io.specs.Outside.{HasCause, Rose};
ghost use Rattle.dictd.specs.Demo.{Counts as CountsOf, DemoRun, asked_keys, demo_text};
ghost use Rattle.dictd.specs.Statuses.{TellsText, status_text};

mod counts;
mod engine;

use crate::status::{Status, tell};
use crate::words::{MOST_DEMO_ROWS, demo_words};
use counts::{Counts, count_all};
use dict_io::{Failed, Sink, write_all};
use dict_value::{Bytes, NoMemory, push_number};
use engine::session_counts;
use std::alloc::Global;

/// The line of the counts.
fn demo_line(alloc: Global, rows: u64, counts: Counts) -> Result<Bytes, NoMemory>
    ensures { IfOk result (λ line. line ≡ demo_text rows counts.hits counts.sum) }
{
    let mut line = Bytes::new(alloc);
    line.extend(b"rows ")?;
    push_number(&mut line, rows)?;
    line.extend(b" lookups ")?;
    push_number(&mut line, rows)?;
    line.extend(b" hits ")?;
    push_number(&mut line, counts.hits)?;
    line.extend(b" sum ")?;
    push_number(&mut line, counts.sum)?;
    line.push(b'\n')?;
    Ok(line)
}

/// What all lookups count, by the key table; the same lookups through a session are compared with it. Counts that
/// differ are answered as want of memory, since a session that had it answers the same.
fn counts_of(alloc: Global, rows: u64, seed: u64) -> Result<Counts, NoMemory>
    requires some { 0 < rows }
    requires few { rows ≤ MOST_DEMO_ROWS }
    ensures { IfOk result (λ counts. CountsOf rows seed (asked_keys rows seed) counts.hits counts.sum) }
{
    let counts = count_all(alloc, rows, seed)?;
    if session_counts(alloc, rows, seed)? == counts {
        Ok(counts)
    } else {
        Err(NoMemory)
    }
}

/// The line that is printed for so many rows.
fn line_of(alloc: Global, rows: u64, seed: u64) -> Result<Bytes, NoMemory>
    requires some { 0 < rows }
    requires few { rows ≤ MOST_DEMO_ROWS }
    ensures { IfOk result (λ line. (hits : ℕ) × (total : ℕ)
        × CountsOf rows seed (asked_keys rows seed) hits total × (line ≡ demo_text rows hits total)) }
{
    let counts = counts_of(alloc, rows, seed)?;
    demo_line(alloc, rows, counts)
}

/// Runs the words, and writes nothing to the error output.
fn run<O: Sink>(alloc: Global, words: &[String], out: &mut O) -> Status
    ensures run { DemoRun (map string_bytes words.now) (O.written out.old) result (O.written out.new) }
    ensures writes { HasCause (O.write_faults out.old) (O.write_faults out.new) (result ≡ Status.WriteFault) }
{
    let Some((rows, seed)) = demo_words(words) else {
        return Status::Usage;
    };
    let Ok(line) = line_of(alloc, rows, seed) else {
        return Status::NoMemory;
    };
    match write_all(out, line.as_slice()) {
        Ok(()) => Status::Done,
        Err(Failed) => Status::WriteFault,
    }
}

/// Runs `demo N SEED`: makes a hashed dictionary of N rows, asks for N keys, and prints how many of them have a row and
/// the sum of the values. The counts are those of the key table; the same lookups go through a session of `once` over
/// objects in memory, and its counts are compared with them. A status other than Done is told on the error output; a
/// write there that fails is passed over.
pub fn demo<O: Sink, E: Sink>(alloc: Global, words: &[String], out: &mut O, err: &mut E) -> Status
    ensures run { DemoRun (map string_bytes words.now) (O.written out.old) result (O.written out.new) }
    ensures writes { HasCause (O.write_faults out.old) (O.write_faults out.new) (result ≡ Status.WriteFault) }
    ensures told { TellsText (E.written err.old) (E.written err.new) (status_text result)
        (Rose (E.write_faults err.old) (E.write_faults err.new)) }
{
    let status = run(alloc, words, out);
    tell(err, status);
    status
}
