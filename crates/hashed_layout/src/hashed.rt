// Rows by a key of 64 bits.
ghost use Rattle.std.specs.Prelude.{◌≡◌, ◌↔◌, ◌+◌, ◌*◌, ◌<◌, ◌≤◌, ◌^◌, ℕ, List, IfOk, IfSome, IsTrue, length};
ghost use Rattle.dict_value.specs.FindByKey.{FindsByKey, HasKeyAt};
ghost use Rattle.dict_value.specs.declared.value.TheConstants.{MOST_ROWS};
ghost use Rattle.hashed_layout.specs.Probing.{home_of};
ghost use Rattle.hashed_layout.specs.Tables.{IsTableOf, held, key_of};
ghost use Rattle.hashed_layout.specs.steps.Filling.{ProbesEndAt, IsTableTo};

use crate::probing::{home_of, probed};
use dict_value::NoMemory;
use std::alloc::Global;

/// A cell of the table: a key in two halves, and one more than its least place, or 0 where the cell is
/// free. So a cell takes 12 bytes.
#[derive(Clone, Copy, Debug, PartialEq, Eq)]
struct Cell {
    low: u32,
    high: u32,
    next: u32,
}

const FREE: Cell = Cell {
    low: 0,
    high: 0,
    next: 0,
};

/// The least place of each key, in a table of two cells for a row.
#[derive(Drop)]
pub struct Hashed {
    cells: Vec<Cell>,
    ghost small: { length cells.items < 2 ^ 24 },
}

/// The key of a cell.
#[inline(always)]
fn key_of(cell: &Cell) -> u64
    ensures { result ≡ key_of cell.now }
{
    (u64::from(cell.high) << 32) + u64::from(cell.low)
}

/// The cell where the probes of a key end, which is free or has the key; none where each cell has another.
#[inline(always)]
fn seek(cells: &[Cell], key: u64) -> Option<usize>
    requires { length cells.now < 2 ^ 24 }
    ensures within { IfSome result (λ at. at < length cells.now) }
    ensures ends { ProbesEndAt (length cells.now) (home_of (length cells.now) key) (held cells.now) key result }
{
    let size = cells.len();
    let home = home_of(size, key);
    for probe in 0..size {
        let at = probed(size, home, probe);
        let cell = &cells[at];
        if cell.next == 0 || key_of(cell) == key {
            return Some(at);
        }
    }
    None
}

/// Puts one row more into a table that has room for it.
fn put(cells: &mut Vec<Cell>, keys: &[u64], row: usize)
    requires table { IsTableTo keys.now row cells.old.items }
    requires row { row < length keys.now }
    requires rows { length keys.now ≤ MOST_ROWS }
    requires room { length keys.now ≤ length cells.old.items }
    requires small { length cells.old.items < 2 ^ 24 }
    ensures table { IsTableTo keys.now (row + 1) cells.new.items }
    ensures len { length cells.new.items ≡ length cells.old.items }
{
    let key = keys[row];
    let Some(at) = seek(cells.as_slice(), key) else {
        unreachable!()
    };
    if cells[at].next == 0 {
        cells[at] = Cell {
            low: (key % (1 << 32)) as u32,
            high: (key >> 32) as u32,
            next: (row + 1) as u32,
        };
    }
}

impl Hashed {
    /// The table of a list of keys.
    pub fn build(alloc: Global, keys: &[u64]) -> Result<Hashed, NoMemory>
        requires { length keys.now ≤ MOST_ROWS }
        ensures { IfOk result (λ table. IsTableOf keys.now table.cells.items) }
    {
        let Ok(mut cells) = Vec::from_elem(alloc, FREE, 2 * keys.len()) else {
            return Err(NoMemory);
        };
        for row in 0..keys.len() {
            put(&mut cells, keys, row);
        }
        Ok(Hashed { cells })
    }

    /// The least place with the key, without taking memory.
    pub fn find(&self, key: u64) -> Option<u32>
        ensures { (keys : List ℕ) → IsTableOf keys self.now.cells.items → FindsByKey keys key result }
    {
        let at = seek(self.cells.as_slice(), key)?;
        let next = self.cells[at].next;
        if next == 0 { None } else { Some(next - 1) }
    }

    /// Whether any place has the key, without taking memory.
    pub fn has(&self, key: u64) -> bool
        ensures { (keys : List ℕ) → IsTableOf keys self.now.cells.items
            → (IsTrue result ↔ ((place : ℕ) × HasKeyAt keys key place)) }
    {
        self.find(key).is_some()
    }
}
