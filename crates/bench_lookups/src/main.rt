//! Times lookups by key, by address, by range, and of chains of parents. The words are a layout, `flat`, `hashed` or
//! `complex`, or a search, `v4`, `v6`, `chains`, `ranges` or `overlaps`; which keys of a layout are asked, `half`,
//! `all` or `none` of them there; how many keys and how many finds, and a number of rounds. The program prints how
//! many were found and, for more than no rounds, the shortest build and the shortest run of finds in microseconds.
#![tactic(auto)]

mod key_source;
mod ranges;
mod searches;

use dict_value::{KeyList, MOST_ROWS, Uncounted};
use flat_layout::Flat;
use hashed_layout::{Complex, Hashed};
use key_source::{Layout, Share};
use searches::Search;
use std::alloc::Global;
use std::io::Print;
use std::rt::Clock;
use std::time::Instant;
use std::{env, io};

/// The keys of a table, or those that are asked.
#[derive(Drop)]
enum Keys {
    Numbers(Vec<u64>),
    Lists(Vec<KeyList>),
}

/// What is timed.
#[derive(Drop)]
enum Table {
    Flat(Flat<Uncounted>),
    Hashed(Hashed),
    Complex(Complex),
}

/// The same keys as a layout wants them.
fn keys_for(alloc: Global, layout: Layout, keys: Vec<u64>) -> Keys {
    match layout {
        Layout::Complex => Keys::Lists(key_source::key_lists(alloc, keys.as_slice())),
        Layout::Flat | Layout::Hashed => Keys::Numbers(keys),
    }
}

/// The table of a list of keys, or nothing where there is no memory for it or the list is too long.
fn table_of(alloc: Global, layout: Layout, keys: &Keys) -> Option<Table> {
    match keys {
        Keys::Numbers(numbers) if numbers.len() <= MOST_ROWS => match layout {
            Layout::Flat => match Flat::build(alloc, numbers.as_slice(), 16_777_216) {
                Ok(table) => Some(Table::Flat(table)),
                Err(_) => None,
            },
            Layout::Hashed | Layout::Complex => match Hashed::build(alloc, numbers.as_slice()) {
                Ok(table) => Some(Table::Hashed(table)),
                Err(_) => None,
            },
        },
        Keys::Lists(lists) if lists.len() <= MOST_ROWS => {
            match Complex::build(alloc, lists.as_slice()) {
                Ok(table) => Some(Table::Complex(table)),
                Err(_) => None,
            }
        }
        _ => None,
    }
}

/// How many of the asked keys are there, and the sum of their places.
#[derive(Clone, Copy)]
struct Found {
    count: u64,
    sum: u64,
}

impl Found {
    fn and(self, place: Option<u32>) -> Found {
        match place {
            Some(place) => Found {
                count: self.count.wrapping_add(1),
                sum: self.sum.wrapping_add(u64::from(place)),
            },
            None => self,
        }
    }
}

fn finds(table: &Table, asked: &Keys) -> Found {
    let mut found = Found { count: 0, sum: 0 };
    match (table, asked) {
        (Table::Flat(flat), Keys::Numbers(numbers)) => {
            for key in numbers {
                found = found.and(flat.find(*key, &mut Uncounted));
            }
        }
        (Table::Hashed(hashed), Keys::Numbers(numbers)) => {
            for key in numbers {
                found = found.and(hashed.find(*key));
            }
        }
        (Table::Complex(complex), Keys::Lists(lists)) => {
            for key in lists {
                found = found.and(complex.find(key));
            }
        }
        _ => {}
    }
    found
}

/// The number that a word is, or another one.
fn number_or(word: Option<String>, other: u32) -> u32 {
    match word {
        Some(word) => word.as_str().parse().unwrap_or(other),
        None => other,
    }
}

/// How large a run is.
#[derive(Clone, Copy)]
struct Size {
    count: u32,
    finds: u32,
    rounds: u32,
}

/// Times a search by address, by range or of chains.
fn time_search<R: Clock + Print>(
    rt: &R,
    alloc: Global,
    search: Search,
    size: Size,
) -> io::Result<()> {
    let rows = searches::stored_rows(alloc, search, size.count)?;
    let asked = searches::drawn(alloc, search, size.count, size.finds)?;
    let mut build = u128::MAX;
    let mut find = u128::MAX;
    for round in 0..=size.rounds {
        let start = Instant::now(rt)?;
        let Some(searched) = searches::searched_of(alloc, &rows) else {
            println!(rt; "no table")?;
            return Ok(());
        };
        build = build.min(start.elapsed(rt)?.as_micros());
        let start = Instant::now(rt)?;
        let (count, sum) = searches::found(alloc, &searched, &asked);
        find = find.min(start.elapsed(rt)?.as_micros());
        if round == 0 {
            println!(rt; "found {count} sum {sum}")?;
        }
    }
    if size.rounds > 0 {
        println!(rt; "{build} {find}")?;
    }
    Ok(())
}

fn main(rt: HostRuntime) -> io::Result<()> {
    let mut words = env::args(&rt)?;
    let _program = words.next();
    let word = words.next();
    let search = match &word {
        Some(word) => searches::search_of(word.as_str()),
        None => None,
    };
    let layout = match word {
        Some(word) => key_source::layout_of(word.as_str()),
        None => Layout::Flat,
    };
    let share = match words.next() {
        Some(word) => key_source::share_of(word.as_str()),
        None => Share::Half,
    };
    let count = number_or(words.next(), 1_000);
    let find_count = number_or(words.next(), 10_000);
    let rounds = number_or(words.next(), 0);
    if let Some(search) = search {
        let size = Size {
            count,
            finds: find_count,
            rounds,
        };
        return time_search(&rt, rt.alloc(), search, size);
    }
    let stored = key_source::keys(rt.alloc(), layout, count)?;
    let keys = keys_for(rt.alloc(), layout, stored);
    let drawn = key_source::asked(rt.alloc(), layout, share, count, find_count)?;
    let asked = keys_for(rt.alloc(), layout, drawn);
    let mut build = u128::MAX;
    let mut find = u128::MAX;
    for round in 0..=rounds {
        let start = Instant::now(&rt)?;
        let Some(table) = table_of(rt.alloc(), layout, &keys) else {
            println!(rt; "no table")?;
            return Ok(());
        };
        build = build.min(start.elapsed(&rt)?.as_micros());
        let start = Instant::now(&rt)?;
        let seen = finds(&table, &asked);
        find = find.min(start.elapsed(&rt)?.as_micros());
        if round == 0 {
            println!(rt; "found {} sum {}", seen.count, seen.sum)?;
        }
    }
    if rounds > 0 {
        println!(rt; "{build} {find}")?;
    }
    Ok(())
}
