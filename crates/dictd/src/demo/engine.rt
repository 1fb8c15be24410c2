// The lookups of `demo` through the session engine: a run of `once` over objects in memory.
ghost use Rattle.std.specs.Prelude.{◌≡◌, ◌<◌, ◌≤◌, IfOk, false, length};

use super::counts::{Counts, asked_key, row_key};
use crate::once::{Outside, once};
use crate::status::Status;
use crate::words::MOST_DEMO_ROWS;
use child_io::{MemorySpawner, Script};
use dict_io::{
    Both, Link, MemoryClock, MemoryLink, MemoryShelf, MemorySink, MemorySource, NamedFile,
};
use dict_value::{Bytes, Exit, ListOf, NoMemory, push_number, read_digits};
use std::alloc::Global;

/// The definitions file.
const FILE: &[u8] = b"CREATE DICTIONARY d (k UInt64, v UInt64) PRIMARY KEY k \
    SOURCE(EXECUTABLE(command 'rows' format 'TabSeparated')) LAYOUT(HASHED()) LIFETIME(0);";

/// The most lookups of one request.
const BLOCK: u64 = 4096;

/// More bytes than the reply to a lookup has, and more than all the first lines of blocks have.
const REPLY_ROOM: u32 = 16;

const HEADS_ROOM: u32 = 65536;

/// The output of the child: a line for each row.
fn child_output(alloc: Global, rows: u64, seed: u64) -> Result<Bytes, NoMemory>
    requires some { 0 < rows }
    requires few { rows ≤ MOST_DEMO_ROWS }
{
    let mut out = Bytes::new(alloc);
    for row in 0..rows {
        push_number(&mut out, row_key(rows, seed, row))?;
        out.push(b'\t')?;
        push_number(&mut out, row)?;
        out.push(b'\n')?;
    }
    Ok(out)
}

/// The first line of a block of so many lookups.
fn push_head(out: &mut Bytes, lookups: u64) -> Result<(), NoMemory> {
    out.extend(b"many\t")?;
    push_number(out, lookups)?;
    out.extend(b"\tdictGetOrNull\td\tv\n")
}

/// The requests: blocks of lookups.
fn requests(alloc: Global, rows: u64, seed: u64) -> Result<Bytes, NoMemory>
    requires some { 0 < rows }
    requires few { rows ≤ MOST_DEMO_ROWS }
{
    let mut out = Bytes::new(alloc);
    for lookup in 0..rows {
        if lookup % BLOCK == 0 {
            push_head(&mut out, (rows - lookup).min(BLOCK))?;
        }
        push_number(&mut out, asked_key(rows, seed, lookup))?;
        out.push(b'\n')?;
    }
    Ok(out)
}

/// A list of one item.
fn one<T: Drop>(alloc: Global, item: T) -> Result<ListOf<T>, NoMemory>
    ensures { IfOk result (λ list. 0 < length list) }
{
    let mut list = ListOf::new(alloc);
    list.push(item)?;
    Ok(list)
}

/// What the run meets: the definitions file, a child that prints the rows, and one moment.
fn outside(
    alloc: Global,
    output: Bytes,
) -> Result<Outside<MemoryShelf, MemorySpawner, MemoryClock>, NoMemory> {
    let file = NamedFile {
        name: Bytes::copy_of(alloc, b"d")?,
        text: Bytes::copy_of(alloc, FILE)?,
    };
    let script = Script {
        start_fails: false,
        output,
        sizes: ListOf::new(alloc),
        failing_reads: ListOf::new(alloc),
        timed_out_reads: ListOf::new(alloc),
        failing_writes: ListOf::new(alloc),
        wait_fails: false,
        after_close: true,
        exit: Exit::Code(0),
        room: 0,
        accepted: ListOf::new(alloc),
    };
    Ok(Outside {
        shelf: MemoryShelf::new(alloc, one(alloc, file)?, ListOf::new(alloc)),
        spawner: MemorySpawner::new(alloc, one(alloc, script)?),
        clock: MemoryClock::new(one(alloc, 0)?),
    })
}

/// The link of the run: the requests, and room for all replies.
fn link(alloc: Global, input: Bytes, rows: u64) -> Result<MemoryLink, NoMemory>
    requires { rows ≤ MOST_DEMO_ROWS }
    ensures { IfOk result (λ link. (⟦<MemoryLink as Link>⟧.ends link).reads.ended ≡ false) }
{
    let room = rows as u32 * REPLY_ROOM + HEADS_ROOM;
    let sink = MemorySink::new(alloc, room, ListOf::new(alloc))?;
    let source = MemorySource::new(input, ListOf::new(alloc), ListOf::new(alloc));
    Ok(Both::new(source, sink))
}

/// The words of the run.
fn run_words(alloc: Global) -> Result<Vec<String>, NoMemory> {
    let mut words = Vec::new(alloc);
    for text in ["once", "d", "1"] {
        let Ok(word) = String::from_str(alloc, text) else {
            return Err(NoMemory);
        };
        if words.push(word).is_err() {
            return Err(NoMemory);
        }
    }
    Ok(words)
}

/// The counts with one reply more: a value is a hit, and NULL none; first lines of blocks begin with another letter.
/// None where it is another reply, such as that memory lacks.
fn counted(counts: Counts, line: &[u8]) -> Option<Counts> {
    match line {
        b"\\N" => Some(counts),
        [b'O', b'K', b'\t', b'v', b'1', b'\t', ..] => Some(counts),
        _ => Some(Counts {
            hits: counts.hits.checked_add(1)?,
            sum: counts.sum.checked_add(u128::from(read_digits(line)?))?,
        }),
    }
}

/// What the replies count, or none where one of them is no answer.
fn tally(replies: &[u8]) -> Option<Counts> {
    let mut counts = Counts { hits: 0, sum: 0 };
    for line in replies.split(|byte| *byte == b'\n') {
        if !line.is_empty() {
            counts = counted(counts, line)?;
        }
    }
    Some(counts)
}

/// What the lookups through a session count. Where memory lacks for a load or a reply, the session says so in place of
/// a value, and nothing is counted.
pub fn session_counts(alloc: Global, rows: u64, seed: u64) -> Result<Counts, NoMemory>
    requires some { 0 < rows }
    requires few { rows ≤ MOST_DEMO_ROWS }
{
    let met = outside(alloc, child_output(alloc, rows, seed)?)?;
    let mut link = link(alloc, requests(alloc, rows, seed)?, rows)?;
    let mut err = MemorySink::new(alloc, HEADS_ROOM, ListOf::new(alloc))?;
    let words = run_words(alloc)?;
    let ended = once(alloc, words.as_slice(), met, &mut link, &mut err);
    match tally(link.written().as_slice()) {
        Some(counts) if ended.status == Status::Done => Ok(counts),
        _ => Err(NoMemory),
    }
}
