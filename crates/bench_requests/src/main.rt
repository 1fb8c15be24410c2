//! Times the reading of requests of one line each, which stand on standard input, and the writing of
//! their replies. The word is a number of rounds: the program prints what it read and wrote in
//! numbers and, for more than no rounds, the shortest round in microseconds.
#![tactic(auto)]

use dict_value::{Bytes, NoMemory, split_at_byte};
use std::alloc::Global;
use std::io::Read;
use std::time::Instant;
use std::{env, io};
use wire_text::{Mark, Reply, ReplyFault, Request, lines_after, read_request, write_reply};

/// What was read and written, in numbers.
#[derive(Clone, Copy)]
struct Figures {
    lookups: u32,
    others: u32,
    refused: u32,
    /// The bytes of all replies.
    bytes: u64,
}

/// The value that each lookup is answered with.
const VALUE: &[u8] = b"Australia";

fn answer(alloc: Global, figures: &mut Figures, line: &[u8]) -> Result<Reply, NoMemory> {
    if line.len() > u32::MAX as usize || lines_after(line) > 0 {
        figures.refused = figures.refused.wrapping_add(1);
        return Ok(Reply::Refused(ReplyFault::TooLarge));
    }
    match read_request(alloc, line, &[]) {
        Ok(Request::Asked(_)) => {
            figures.lookups = figures.lookups.wrapping_add(1);
            let text = Bytes::copy_of(alloc, VALUE)?;
            Ok(Reply::One {
                mark: Mark::Version(1),
                text,
            })
        }
        Ok(_) => {
            figures.others = figures.others.wrapping_add(1);
            Ok(Reply::Number(1))
        }
        Err(_) => {
            figures.refused = figures.refused.wrapping_add(1);
            Ok(Reply::Refused(ReplyFault::BadRequest))
        }
    }
}

/// Answers each line of a text, in a buffer that is used again for each of them.
fn run(alloc: Global, text: &[u8]) -> Result<Figures, NoMemory> {
    let mut figures = Figures {
        lookups: 0,
        others: 0,
        refused: 0,
        bytes: 0,
    };
    let mut out = Bytes::with_room(alloc, 65_536)?;
    let mut rest = text;
    for _ in 0..text.len() {
        let Some((line, behind)) = split_at_byte(rest, b'\n') else {
            break;
        };
        rest = behind;
        out.clear();
        let reply = answer(alloc, &mut figures, line)?;
        write_reply(&reply, &mut out)?;
        figures.bytes = figures.bytes.wrapping_add(out.len() as u64);
    }
    Ok(figures)
}

fn main(rt: HostRuntime) -> io::Result<()> {
    let mut words = env::args(&rt)?;
    let _program = words.next();
    let rounds: u32 = match words.next() {
        Some(number) => number.as_str().parse().unwrap_or(0),
        None => 0,
    };
    let mut text = Vec::new(rt.alloc());
    rt.stdin().read_to_end(&mut text)?;
    let mut best = u128::MAX;
    for round in 0..=rounds {
        let start = Instant::now(&rt)?;
        let found = run(rt.alloc(), text.as_slice());
        let took = start.elapsed(&rt)?.as_micros();
        match found {
            Ok(found) if round == 0 => println!(rt;
                "lookups {} others {} refused {} bytes {}",
                found.lookups, found.others, found.refused, found.bytes
            )?,
            Ok(_) => best = best.min(took),
            Err(_) => println!(rt; "no memory")?,
        }
    }
    if rounds > 0 {
        println!(rt; "{best}")?;
    }
    Ok(())
}
