//! Times the reading of rows. The text on standard input is cut into rows, each row is read, and
//! all of them are kept. The words are what to read and a number of rounds: `tab` or `csv` for
//! fields, `decode` or `decode_csv` for rows of a number and a text, and `wide` for TabSeparated
//! rows of eight columns. The program prints what it read, for decoded rows how many bytes they
//! keep, and, for more than no rounds, the shortest round in microseconds.
#![tactic(auto)]

mod table;
mod typed;

use dict_value::{Fields, Format, ListOf};
use std::alloc::Global;
use std::io::Read;
use std::time::Instant;
use std::{env, io};

/// What is read.
#[derive(Clone, Copy, PartialEq, Eq)]
enum Work {
    Tab,
    Csv,
    Decode(Format),
    Wide,
}

/// What was read, in numbers.
#[derive(Clone, Copy)]
pub struct Figures {
    rows: usize,
    fields: usize,
    bytes: usize,
    kept: u64,
}

fn work_of(word: &str) -> Work {
    match word {
        "csv" => Work::Csv,
        "decode" => Work::Decode(Format::Tab),
        "decode_csv" => Work::Decode(Format::Csv),
        "wide" => Work::Wide,
        _ => Work::Tab,
    }
}

fn read(alloc: Global, work: Work, text: &[u8]) -> Figures {
    match work {
        Work::Tab | Work::Csv => {
            let table: ListOf<Fields> = table::read(alloc, work == Work::Csv, text);
            Figures {
                rows: table.len(),
                fields: table::fields(&table),
                bytes: table::bytes(&table),
                kept: 0,
            }
        }
        Work::Decode(format) => typed::read(alloc, &typed::PAIR, format, text),
        Work::Wide => typed::read(alloc, &typed::WIDE, Format::Tab, text),
    }
}

fn main(rt: HostRuntime) -> io::Result<()> {
    let mut words = env::args(&rt)?;
    let _program = words.next();
    let work = match words.next() {
        Some(word) => work_of(word.as_str()),
        None => Work::Tab,
    };
    let rounds: u32 = match words.next() {
        Some(number) => number.as_str().parse().unwrap_or(0),
        None => 0,
    };
    let mut text = Vec::new(rt.alloc());
    rt.stdin().read_to_end(&mut text)?;
    let found = read(rt.alloc(), work, text.as_slice());
    println!(rt;
        "rows {} fields {} bytes {}",
        found.rows, found.fields, found.bytes
    )?;
    if found.kept > 0 {
        println!(rt; "kept {}", found.kept)?;
    }
    let mut best = u128::MAX;
    for _ in 0..rounds {
        let start = Instant::now(&rt)?;
        let _again = read(rt.alloc(), work, text.as_slice());
        let took = start.elapsed(&rt)?.as_micros();
        best = best.min(took);
    }
    if rounds > 0 {
        println!(rt; "{best}")?;
    }
    Ok(())
}
