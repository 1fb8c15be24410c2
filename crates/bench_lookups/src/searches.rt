// Searches by address and by range, and chains of parents: what is stored, what is asked, and what was found.
use crate::key_source::scattered;
use crate::ranges::{self, Question, Spread};
use dict_schema::Strategy;
use dict_value::{Address, Bytes, KeyList, MOST_ROWS, Uncounted};
use hier::{Hier, Parent};
use ip_trie::Trie;
use range_layout::{Ends, Ranged};
use std::alloc::Global;
use std::io;

/// Which search is timed.
#[derive(Clone, Copy)]
pub enum Search {
    V4,
    V6,
    Chains,
    Ranges(Spread),
}

pub fn search_of(word: &str) -> Option<Search> {
    match word {
        "v4" => Some(Search::V4),
        "v6" => Some(Search::V6),
        "chains" => Some(Search::Chains),
        "ranges" => Some(Search::Ranges(Spread::Ten)),
        "overlaps" => Some(Search::Ranges(Spread::One)),
        _ => None,
    }
}

/// What is searched in.
#[derive(Drop)]
pub enum Rows {
    Texts(Vec<Bytes>),
    Parents(Vec<u64>, Vec<Parent>),
    Ranges(Vec<KeyList>, Vec<Ends>),
}

/// What is timed.
#[derive(Drop)]
pub enum Searched {
    Trie(Trie<Uncounted>),
    Hier(Hier),
    Ranged(Ranged<Uncounted>),
}

/// What is asked.
#[derive(Drop)]
pub enum Asked {
    Addresses(Vec<Address>),
    Keys(Vec<u64>),
    Points(Vec<Question>),
}

/// The bits of an IPv6 prefix: 2000::/3 and scattered ones.
fn wide(number: u64) -> u128 {
    let high = (scattered(number) >> 3) | (1 << 61);
    (u128::from(high) << 64) | u128::from(scattered(number ^ (1 << 40)))
}

/// A prefix text: of 8 to 24 bits, or of 32 to 48.
fn prefix_text(alloc: Global, search: Search, number: u64) -> io::Result<Vec<u8>> {
    let text = match search {
        Search::V6 => {
            let [a, b, c, d, e, f, g, h, ..] = wide(number).to_be_bytes();
            let len = 32 + scattered(number ^ (1 << 41)) % 17;
            format!(in alloc;
                "{a:02x}{b:02x}:{c:02x}{d:02x}:{e:02x}{f:02x}:{g:02x}{h:02x}::/{len}"
            )?
        }
        Search::V4 | Search::Chains | Search::Ranges(_) => {
            let [a, b, c, d, ..] = scattered(number).to_be_bytes();
            let len = 8 + scattered(number ^ (1 << 41)) % 17;
            format!(in alloc; "{a}.{b}.{c}.{d}/{len}")?
        }
    };
    Ok(text.into_bytes())
}

/// The rows of a search; in chains ten keys each follow one another.
pub fn stored_rows(alloc: Global, search: Search, count: u32) -> io::Result<Rows> {
    match search {
        Search::V4 | Search::V6 => {
            let mut texts = Vec::with_capacity(alloc, count as usize)?;
            for row in 0..count {
                texts.push(Bytes::from_vec(prefix_text(alloc, search, u64::from(row))?))?;
            }
            Ok(Rows::Texts(texts))
        }
        Search::Chains => {
            let mut keys = Vec::with_capacity(alloc, count as usize)?;
            let mut parents = Vec::with_capacity(alloc, count as usize)?;
            for row in 0..count {
                keys.push(scattered(u64::from(row)))?;
                parents.push(if row % 10 == 9 {
                    Parent::Top
                } else {
                    Parent::Of(scattered(u64::from(row) + 1))
                })?;
            }
            Ok(Rows::Parents(keys, parents))
        }
        Search::Ranges(spread) => {
            let (keys, ends) = ranges::rows(alloc, spread, count)?;
            Ok(Rows::Ranges(keys, ends))
        }
    }
}

/// What is asked: scattered IPv4 addresses, scattered addresses of stored IPv6 prefixes, the first keys of
/// chains, or scattered points of keys.
pub fn drawn(alloc: Global, search: Search, rows: u32, finds: u32) -> io::Result<Asked> {
    let count = u64::from(rows).max(1);
    let mut points = Vec::new(alloc);
    let mut addresses = Vec::new(alloc);
    let mut keys = Vec::new(alloc);
    for find in 0..finds {
        let number = scattered(u64::from(find) + 4_294_967_296);
        match search {
            Search::V4 => addresses.push(Address::V4((number >> 32) as u32))?,
            Search::V6 => {
                let low = scattered(number);
                addresses.push(Address::V6(wide(number % count) ^ u128::from(low)))?
            }
            Search::Chains => keys.push(scattered(number % count / 10 * 10))?,
            Search::Ranges(spread) => {
                points.push(ranges::asked_at(alloc, spread, rows, number)?)?
            }
        }
    }
    Ok(match search {
        Search::V4 | Search::V6 => Asked::Addresses(addresses),
        Search::Chains => Asked::Keys(keys),
        Search::Ranges(_) => Asked::Points(points),
    })
}

/// What is searched in, or nothing where there is no memory for it or the list is too long.
pub fn searched_of(alloc: Global, rows: &Rows) -> Option<Searched> {
    match rows {
        Rows::Texts(texts) if texts.len() <= MOST_ROWS => {
            match Trie::build(alloc, texts.as_slice()) {
                Ok(trie) => Some(Searched::Trie(trie)),
                Err(_) => None,
            }
        }
        Rows::Parents(keys, parents) if keys.len() <= MOST_ROWS && parents.len() == keys.len() => {
            match Hier::build(alloc, keys.as_slice(), parents.as_slice()) {
                Ok(hier) => Some(Searched::Hier(hier)),
                Err(_) => None,
            }
        }
        Rows::Ranges(keys, ends) if keys.len() <= MOST_ROWS && ends.len() == keys.len() => {
            match Ranged::build(alloc, keys.as_slice(), ends.as_slice(), Strategy::Max) {
                Ok(ranged) => Some(Searched::Ranged(ranged)),
                Err(_) => None,
            }
        }
        _ => None,
    }
}

/// How many were found, and the sum of their rows or members.
pub fn found(alloc: Global, searched: &Searched, asked: &Asked) -> (u64, u64) {
    let mut count: u64 = 0;
    let mut sum: u64 = 0;
    match (searched, asked) {
        (Searched::Trie(trie), Asked::Addresses(addresses)) => {
            for address in addresses {
                if let Some(row) = trie.find(address, &mut Uncounted) {
                    count = count.wrapping_add(1);
                    sum = sum.wrapping_add(u64::from(row));
                }
            }
        }
        (Searched::Hier(hier), Asked::Keys(keys)) => {
            for key in keys {
                if let Ok(chain) = hier.chain(alloc, *key) {
                    for member in chain.as_slice() {
                        count = count.wrapping_add(1);
                        sum = sum.wrapping_add(*member);
                    }
                }
            }
        }
        (Searched::Ranged(ranged), Asked::Points(points)) => {
            for asked in points {
                if let Some(row) = ranged.find(&asked.key, asked.point, &mut Uncounted) {
                    count = count.wrapping_add(1);
                    sum = sum.wrapping_add(u64::from(row));
                }
            }
        }
        _ => {}
    }
    (count, sum)
}
