// Rows by a key list.
ghost use Rattle.std.specs.Prelude.{◌≡◌, ◌↔◌, ◌+◌, ◌*◌, ◌/◌, ◌%◌, ◌<◌, ◌≤◌, ◌^◌, ℕ, List};
ghost use Rattle.std.specs.Prelude.{IfOk, IfSome, IsTrue, OnOk, length};
ghost use Rattle.dict_value.specs.FindByKey.{FindsByKey, HasKeyAt};
ghost use Rattle.dict_value.specs.declared.value.TheConstants.{MOST_ROWS};
ghost use Rattle.dict_value.specs.declared.value.Value.{Value};
ghost use Rattle.hashed_layout.specs.KeyHash.{hash_of};
ghost use Rattle.hashed_layout.specs.KeyTables.{IsKeyTableOf, key_home, number_below_tag, entry_start, tag_in, tag_of};
ghost use Rattle.hashed_layout.specs.steps.KeyFilling.{IsKeyTableTo, StopsAt, TellsKey};

use crate::key_bytes::{begins_with_key, hash_of, push_key, room_for};
use crate::probing::{home_at, probed};
use dict_value::{Bytes, KeyList, ListOf, NoMemory};
use std::alloc::Global;

/// A distinct key: where its bytes begin, in two halves, and its least place. So an entry takes 12 bytes.
#[derive(Clone, Copy, Debug, PartialEq, Eq)]
struct Entry {
    low: u32,
    high: u32,
    place: u32,
}

/// The least place of each key list: the distinct keys in one byte store, and a table of two cells for a
/// row. A taken cell has the number of a key, which counts from 1 and takes 23 bits, and above it nine bits of
/// the key's hash as a tag, so that cells with other keys are mostly passed without reading an entry.
#[derive(Drop)]
pub struct Complex {
    bytes: Bytes,
    entries: ListOf<Entry>,
    cells: Vec<u32>,
    ghost small: { length cells.items < 2 ^ 24 },
}

/// Where the bytes of an entry's key begin.
#[inline(always)]
fn start_of(entry: &Entry) -> u64
    ensures { result ≡ entry_start entry.now }
{
    (u64::from(entry.high) << 32) + u64::from(entry.low)
}

/// The number of the key that a cell holds, or 0 where the cell is free.
#[inline(always)]
fn number_in(cell: u32) -> u32
    ensures { result ≡ number_below_tag cell }
{
    cell % (1 << 23)
}

/// The tag of a cell.
#[inline(always)]
fn tag_in(cell: u32) -> u32
    ensures { result ≡ tag_in cell }
{
    cell >> 23
}

/// The tag of a key that is hashed to this number.
#[inline(always)]
fn tag_of(bits: u64) -> u32
    ensures { result ≡ bits % 2 ^ 32 / 2 ^ 23 }
{
    (bits % (1 << 32)) as u32 >> 23
}

/// The cell with a tag and a number.
fn cell_of(tag: u32, number: u32) -> u32
    requires tag { tag < 2 ^ 9 }
    requires number { number < 2 ^ 23 }
    ensures number { number_below_tag result ≡ number }
    ensures tag { tag_in result ≡ tag }
{
    tag * (1 << 23) + number
}

/// The cell where the probes of a key that is hashed to this number begin.
#[inline(always)]
fn key_home(size: usize, bits: u64) -> usize
    requires size { size < 2 ^ 24 }
    ensures value { (key : List Value) → bits ≡ hash_of key → result ≡ key_home size key }
    ensures within { 0 < size → result < size }
{
    home_at(size, bits)
}

/// Whether a taken cell has this key, whose tag is given.
#[inline(always)]
fn tells_key(entries: &[Entry], bytes: &[u8], key: &KeyList, tag: u32, cell: u32) -> bool
    requires tag { tag ≡ tag_of key.now }
    requires taken { 0 < number_below_tag cell }
    ensures { IsTrue result ↔ TellsKey entries.now bytes.now key.now cell }
{
    if tag_in(cell) != tag {
        return false;
    }
    let Some(entry) = entries.get((number_in(cell) - 1) as usize) else {
        return false;
    };
    let start = start_of(entry) as usize;
    if start >= bytes.len() {
        return false;
    }
    begins_with_key(&bytes[start..], key)
}

/// The cell where the probes of a key end, which is free or has the key; none where each cell has another.
fn seek(entries: &[Entry], bytes: &[u8], cells: &[u32], key: &KeyList, bits: u64) -> Option<usize>
    requires small { length cells.now < 2 ^ 24 }
    requires bits { bits ≡ hash_of key.now }
    ensures within { IfSome result (λ at. at < length cells.now) }
    ensures home { 0 < length cells.now → key_home (length cells.now) key.now < length cells.now }
    ensures ends { StopsAt entries.now bytes.now cells.now key.now result }
{
    let size = cells.len();
    let home = key_home(size, bits);
    let tag = tag_of(bits);
    for probe in 0..size {
        let at = probed(size, home, probe);
        let cell = cells[at];
        if number_in(cell) == 0 || tells_key(entries, bytes, key, tag, cell) {
            return Some(at);
        }
    }
    None
}

/// Puts one row more into a table that has room for it.
fn put(
    bytes: &mut Bytes,
    entries: &mut ListOf<Entry>,
    cells: &mut Vec<u32>,
    keys: &[KeyList],
    row: usize,
) -> Result<(), NoMemory>
    requires table { IsKeyTableTo keys.now row bytes.old entries.old cells.old.items }
    requires row { row < length keys.now }
    requires rows { length keys.now ≤ MOST_ROWS }
    requires room { length keys.now ≤ length cells.old.items }
    requires small { length cells.old.items < 2 ^ 24 }
    ensures table { OnOk result (IsKeyTableTo keys.now (row + 1) bytes.new entries.new cells.new.items) }
    ensures len { length cells.new.items ≡ length cells.old.items }
{
    let key = &keys[row];
    let bits = hash_of(key);
    let Some(at) = seek(
        entries.as_slice(),
        bytes.as_slice(),
        cells.as_slice(),
        key,
        bits,
    ) else {
        unreachable!()
    };
    if number_in(cells[at]) != 0 {
        return Ok(());
    }
    let start = bytes.len();
    let entry = Entry {
        low: (start % (1 << 32)) as u32,
        high: (start >> 32) as u32,
        place: row as u32,
    };
    entries.push(entry)?;
    push_key(bytes, key)?;
    cells[at] = cell_of(tag_of(bits), entries.len() as u32);
    Ok(())
}

impl Complex {
    /// The table of a list of key lists.
    pub fn build(alloc: Global, keys: &[KeyList]) -> Result<Complex, NoMemory>
        requires { length keys.now ≤ MOST_ROWS }
        ensures { IfOk result (λ table. IsKeyTableOf keys.now table.bytes table.entries table.cells.items) }
    {
        let mut bytes = Bytes::with_room(alloc, room_for(keys))?;
        let mut entries = ListOf::with_room(alloc, keys.len())?;
        let Ok(mut cells) = Vec::from_elem(alloc, 0u32, 2 * keys.len()) else {
            return Err(NoMemory);
        };
        for row in 0..keys.len() {
            put(&mut bytes, &mut entries, &mut cells, keys, row)?;
        }
        Ok(Complex {
            bytes,
            entries,
            cells,
        })
    }

    /// The least place with the key, without taking memory.
    pub fn find(&self, key: &KeyList) -> Option<u32>
        ensures { (keys : List (List Value))
            → IsKeyTableOf keys self.now.bytes self.now.entries self.now.cells.items
            → FindsByKey keys key.now result }
    {
        let at = seek(
            self.entries.as_slice(),
            self.bytes.as_slice(),
            self.cells.as_slice(),
            key,
            hash_of(key),
        )?;
        let number = number_in(self.cells[at]);
        if number == 0 {
            return None;
        }
        match self.entries.as_slice().get((number - 1) as usize) {
            Some(entry) => Some(entry.place),
            None => None,
        }
    }

    /// Whether any place has the key, without taking memory.
    pub fn has(&self, key: &KeyList) -> bool
        ensures { (keys : List (List Value))
            → IsKeyTableOf keys self.now.bytes self.now.entries self.now.cells.items
            → (IsTrue result ↔ ((place : ℕ) × HasKeyAt keys key.now place)) }
    {
        self.find(key).is_some()
    }
}
