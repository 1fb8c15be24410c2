//! Times answers to lookups of one attribute, `dictGet`, from a version that stands in memory. The words are a layout,
//! `flat`, `hashed`, `complex`, `range` or `ip`, or `texts` for hashed rows of a number and a text of ten bytes; how
//! keys are asked, `one` for a request of each key, else in blocks of 4,096; how many rows and how many keys, and a
//! number of rounds. The program prints how many keys were asked and how many bytes the values had (ten for each key
//! that is found) and, for more than no rounds, the shortest build of the version and the shortest round of answers,
//! without the reading of the requests, in microseconds. Then it tells how many rows stand, and keeps the version until
//! its standard input ends, so that its memory can be seen.
#![tactic(auto)]

ghost use Rattle.std.specs.Prelude.{All};
ghost use Rattle.dict_functions.specs.Asking.{IsLookup};

mod asking;
mod kinds;
mod rows;
mod versions;

use asking::Batch;
use dict_functions::answer_loaded;
use dict_value::{ListOf, Uncounted};
use dict_version::Version;
use kinds::Kind;
use std::alloc::Global;
use std::io::{Print, Read};
use std::rt::Clock;
use std::time::Instant;
use std::{env, io};
use version_slot::Seen;
use wire_text::{Asked, Line, Reply};

/// How many bytes the values of a block have.
fn bytes_of(lines: &[Line]) -> u64 {
    let mut bytes: u64 = 0;
    for line in lines {
        bytes = bytes.wrapping_add(line.text.len() as u64);
    }
    bytes
}

/// How many bytes the values have that are answered to each lookup.
fn answer_each(alloc: Global, seen: &Seen<Version<Uncounted>>, asked: &ListOf<Asked>) -> u64
    requires { All IsLookup asked.now }
{
    let mut bytes: u64 = 0;
    for place in 0..asked.len() {
        let reply = answer_loaded(alloc, seen, &asked.as_slice()[place]);
        let count = match &reply {
            Reply::One { text, .. } => text.len() as u64,
            Reply::Many { lines, .. } => bytes_of(lines.as_slice()),
            _ => 0,
        };
        bytes = bytes.wrapping_add(count);
    }
    bytes
}

/// What a round of lookups comes to.
#[derive(Clone, Copy)]
struct Round {
    keys: u64,
    bytes: u64,
    nanoseconds: u128,
}

/// Asks for so many keys in batches, of which each is made before it is timed.
fn answer_all<R: Clock>(
    rt: &R,
    alloc: Global,
    seen: &Seen<Version<Uncounted>>,
    batch: Batch,
    count: u32,
) -> io::Result<Round> {
    let mut round = Round {
        keys: 0,
        bytes: 0,
        nanoseconds: 0,
    };
    for number in 0..count / asking::BATCH {
        let Ok(asked) = asking::requests(alloc, batch, number) else {
            break;
        };
        let start = Instant::now(rt)?;
        let bytes = answer_each(alloc, seen, &asked);
        let took = start.elapsed(rt)?.as_nanos();
        round.keys = round.keys.wrapping_add(u64::from(asking::BATCH));
        round.bytes = round.bytes.wrapping_add(bytes);
        round.nanoseconds = round.nanoseconds.wrapping_add(took);
    }
    Ok(round)
}

/// The words of a call.
#[derive(Clone, Copy)]
struct Call {
    batch: Batch,
    keys: u32,
    rounds: u32,
}

/// The number that a word is, or another one.
fn number_or(word: Option<String>, other: u32) -> u32 {
    match word {
        Some(word) => word.as_str().parse().unwrap_or(other),
        None => other,
    }
}

fn call_of(mut words: env::Args) -> Call {
    let _program = words.next();
    let kind = match words.next() {
        Some(word) => kinds::kind_of(word.as_str()),
        None => Kind::Hashed,
    };
    let single = match words.next() {
        Some(word) => word.as_str() == "one",
        None => false,
    };
    let rows = number_or(words.next(), 1_000);
    let keys = number_or(words.next(), 0);
    let rounds = number_or(words.next(), 0);
    Call {
        batch: Batch { kind, single, rows },
        keys,
        rounds,
    }
}

/// Builds the version and asks it, in so many rounds and one more.
fn time<R: Clock + Print>(
    rt: &R,
    alloc: Global,
    call: Call,
) -> io::Result<Option<Seen<Version<Uncounted>>>> {
    let mut build = u128::MAX;
    let mut answers = u128::MAX;
    let mut last = None;
    for number in 0..=call.rounds {
        last = None;
        let Some(loaded) = versions::loaded_of(alloc, call.batch.kind, call.batch.rows) else {
            break;
        };
        let start = Instant::now(rt)?;
        let Some(version) = versions::build(alloc, loaded) else {
            break;
        };
        build = build.min(start.elapsed(rt)?.as_micros());
        let Some(seen) = versions::seen_of(alloc, version) else {
            break;
        };
        let round = answer_all(rt, alloc, &seen, call.batch, call.keys)?;
        answers = answers.min(round.nanoseconds / 1_000);
        if number == 0 {
            println!(rt; "keys {} bytes {}", round.keys, round.bytes)?;
        }
        last = Some(seen);
    }
    if call.rounds > 0 {
        println!(rt; "{build} {answers}")?;
    }
    Ok(last)
}

fn main(rt: HostRuntime) -> io::Result<()> {
    let call = call_of(env::args(&rt)?);
    let seen = time(&rt, rt.alloc(), call)?;
    let rows = match &seen {
        Some(seen) => versions::row_count(seen),
        None => 0,
    };
    println!(rt; "rows {rows}")?;
    let mut ignored = Vec::new(rt.alloc());
    rt.stdin().read_to_end(&mut ignored)?;
    drop(seen);
    Ok(())
}
