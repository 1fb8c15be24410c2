//! Times the reading of a definitions file, which stands on standard input. The word is a number of
//! rounds: the program prints how many items it read, or the fault, and, for more than no rounds, the
//! shortest round in microseconds.
#![tactic(auto)]

use ddl_text::{DdlRefusal, fault_words, parse_definitions};
use std::alloc::Global;
use std::io::{Read, Write};
use std::time::Instant;
use std::{env, io};

/// A file has at most so many bytes.
const MOST: usize = 4_194_304;

/// How many items a text has, or its fault with its line.
fn read(alloc: Global, text: &[u8]) -> Result<usize, DdlRefusal> {
    if text.len() > MOST {
        return Ok(0);
    }
    let items = parse_definitions(alloc, text)?;
    Ok(items.len())
}

fn main(rt: HostRuntime) -> io::Result<()> {
    let mut words = env::args(&rt)?;
    let _program = words.next();
    let rounds: u32 = match words.next() {
        Some(number) => number.as_str().parse().unwrap_or(0),
        None => 0,
    };
    let mut text = Vec::new(rt.alloc());
    rt.stdin().read_to_end(&mut text)?;
    let found = read(rt.alloc(), text.as_slice());
    match &found {
        Ok(count) => println!(rt; "items {count}")?,
        Err(DdlRefusal::NoMemory) => println!(rt; "memory")?,
        Err(DdlRefusal::Refused { line, fault }) => {
            print!(rt; "line {line}: ")?;
            rt.stdout().write_all(fault_words(fault))?;
            println!(rt)?;
        }
    }
    let mut best = u128::MAX;
    for _ in 0..rounds {
        let start = Instant::now(&rt)?;
        let again = read(rt.alloc(), text.as_slice());
        let took = start.elapsed(&rt)?.as_micros();
        if again == found {
            best = best.min(took);
        }
    }
    if rounds > 0 {
        println!(rt; "{best}")?;
    }
    Ok(())
}
