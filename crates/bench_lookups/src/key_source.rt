// The keys that are stored and the keys that are asked.
use dict_value::{Bytes, KeyList, ListOf, Value};
use std::alloc::Global;
use std::io;

#[derive(Clone, Copy)]
pub enum Layout {
    Flat,
    Hashed,
    Complex,
}

/// How many of the asked keys are there.
#[derive(Clone, Copy)]
pub enum Share {
    Half,
    All,
    None,
}

pub fn layout_of(word: &str) -> Layout {
    match word {
        "hashed" => Layout::Hashed,
        "complex" => Layout::Complex,
        _ => Layout::Flat,
    }
}

pub fn share_of(word: &str) -> Share {
    match word {
        "all" => Share::All,
        "none" => Share::None,
        _ => Share::Half,
    }
}

/// 64 bits that look random, another list for each number.
pub fn scattered(number: u64) -> u64 {
    let a = number.wrapping_add(1).wrapping_mul(0x9e37_79b9_7f4a_7c15);
    let b = (a ^ (a >> 30)).wrapping_mul(0xbf58_476d_1ce4_e5b9);
    let c = (b ^ (b >> 27)).wrapping_mul(0x94d0_49bb_1331_11eb);
    c ^ (c >> 31)
}

/// The key of a row, for numbers below the count, or a key without a row. In a flat list the former are
/// the even numbers and the latter the odd ones, in scattered order.
fn key(layout: Layout, count: u32, number: u64) -> u64 {
    let count = u64::from(count).max(1);
    match layout {
        Layout::Hashed | Layout::Complex => scattered(number),
        Layout::Flat => number.wrapping_mul(7919) % count * 2 + (number / count).min(1),
    }
}

/// The keys of so many rows.
pub fn keys(alloc: Global, layout: Layout, count: u32) -> io::Result<Vec<u64>> {
    let mut keys = Vec::with_capacity(alloc, count as usize)?;
    for row in 0..count {
        keys.push(key(layout, count, u64::from(row)))?;
    }
    Ok(keys)
}

/// So many scattered keys, of which such a share is there.
pub fn asked(
    alloc: Global,
    layout: Layout,
    share: Share,
    count: u32,
    finds: u32,
) -> io::Result<Vec<u64>> {
    let mut keys = Vec::with_capacity(alloc, finds as usize)?;
    let count_or_one = u64::from(count).max(1);
    for find in 0..finds {
        let drawn = scattered(u64::from(find) + 4_294_967_296);
        let row = drawn % count_or_one;
        let number = match share {
            Share::All => row,
            Share::None => row + count_or_one,
            Share::Half => row + (drawn >> 63) * count_or_one,
        };
        keys.push(key(layout, count, number))?;
    }
    Ok(keys)
}

/// The key list of a key: a text of ten letters and a small number.
fn key_list(alloc: Global, key: u64) -> Option<KeyList> {
    let mut text = [b'a'; 10];
    let mut rest = key;
    for letter in text.iter_mut() {
        *letter = b'a' + (rest % 26) as u8;
        rest /= 26;
    }
    let mut list = ListOf::with_room(alloc, 2).ok()?;
    list.push(Value::S(Bytes::copy_of(alloc, &text).ok()?))
        .ok()?;
    list.push(Value::U(rest % 256)).ok()?;
    Some(list)
}

/// The key lists of keys, up to where there is no memory.
pub fn key_lists(alloc: Global, keys: &[u64]) -> Vec<KeyList> {
    let mut lists = Vec::new(alloc);
    for key in keys {
        let Some(list) = key_list(alloc, *key) else {
            break;
        };
        if lists.push(list).is_err() {
            break;
        }
    }
    lists
}
