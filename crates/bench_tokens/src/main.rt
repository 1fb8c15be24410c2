//! Times the reading of the tokens of a definition text, which stands on standard input. The word is
//! a number of rounds: the program prints what it read in numbers and, for more than no rounds, the
//! shortest round in microseconds.
#![tactic(auto)]

use ddl_tokens::{Reader, TokenKind};
use std::io::Read;
use std::time::Instant;
use std::{env, io};

/// What was read, in numbers.
#[derive(Clone, Copy)]
struct Figures {
    words: u32,
    numbers: u32,
    strings: u32,
    signs: u32,
    /// The places of all tokens together, the last one's included.
    places: u64,
}

fn count(figures: &mut Figures, kind: TokenKind, place: u32) {
    figures.places = figures.places.wrapping_add(place as u64);
    match kind {
        TokenKind::Word | TokenKind::QuotedWord => figures.words = figures.words.wrapping_add(1),
        TokenKind::Number => figures.numbers = figures.numbers.wrapping_add(1),
        TokenKind::String => figures.strings = figures.strings.wrapping_add(1),
        TokenKind::Sign => figures.signs = figures.signs.wrapping_add(1),
        TokenKind::Broken | TokenKind::End => {}
    }
}

/// The tokens of a text, up to its end or to the first place where none can be read.
fn read(text: &[u8]) -> Figures {
    let mut figures = Figures {
        words: 0,
        numbers: 0,
        strings: 0,
        signs: 0,
        places: 0,
    };
    if text.len() > 4_194_304 {
        return figures;
    }
    let mut reader = Reader::new(text);
    for _ in 0..text.len() {
        if !reader.goes_on() {
            break;
        }
        count(&mut figures, reader.kind(), reader.place());
        reader.skip();
    }
    count(&mut figures, reader.kind(), reader.place());
    figures
}

fn main(rt: HostRuntime) -> io::Result<()> {
    let mut words = env::args(&rt)?;
    let _program = words.next();
    let rounds: u32 = match words.next() {
        Some(number) => number.as_str().parse().unwrap_or(0),
        None => 0,
    };
    let mut text = Vec::new(rt.alloc());
    rt.stdin().read_to_end(&mut text)?;
    let found = read(text.as_slice());
    println!(rt;
        "words {} numbers {} strings {} signs {} places {}",
        found.words, found.numbers, found.strings, found.signs, found.places
    )?;
    let mut best = u128::MAX;
    for _ in 0..rounds {
        let start = Instant::now(&rt)?;
        let again = read(text.as_slice());
        let took = start.elapsed(&rt)?.as_micros();
        if again.places == found.places {
            best = best.min(took);
        }
    }
    if rounds > 0 {
        println!(rt; "{best}")?;
    }
    Ok(())
}
