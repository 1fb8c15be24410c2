// How a trie is built: row by row, and then its table.
ghost use Rattle.std.specs.Prelude.{◌≡◌, ◌≢◌, ◌↔◌, ◌⊎◌, ◌+◌, ◌-◌, ◌*◌, ◌<◌, ◌≤◌, ◌^◌, ℕ, Bool, List, Err, IfOk};
ghost use Rattle.std.specs.Prelude.{IsTrue, length};
ghost use Rattle.dict_value.specs.declared.value.TheConstants.{MOST_ROWS};
ghost use Rattle.ip_trie.specs.Below.{IsSafe};
ghost use Rattle.ip_trie.specs.Cells.{AreLeaves, EndsAbove, IsClosed, IsOfFamily, IsTrie, TellsBest, leaf_at, level_of};
ghost use Rattle.ip_trie.specs.Cells.{next_at, node, cell_row};
ghost use Rattle.ip_trie.specs.FindByAddress.{IsFirstBad};
ghost use Rattle.ip_trie.specs.declared.trie.TrieFault.TheVariants as fault;
ghost use Rattle.ip_trie.specs.declared.cells.Leaf.{Leaf};
ghost use Rattle.ip_trie.specs.Kept.{AreTrieCells, AreLeavesOf, IsWholeTrie};
ghost use Rattle.ip_trie.specs.steps.Growing.{AreBettered, GrowsCells, IsBettered, IsGrown};

use crate::cells::{BLANK, Cell, Leaf, TABLE, better, digit_of, leaf_of, level_of};
use crate::prune::{cut_all, rows_below};
use crate::trie::TrieFault;
use dict_value::{Bytes, NoMemory, read_prefix};
use std::alloc::Global;

/// The leaf of each text's prefix.
pub(crate) fn leaves_of(alloc: Global, texts: &[Bytes]) -> Result<Vec<Leaf>, TrieFault>
    requires { length texts.now ≤ MOST_ROWS }
    ensures leaves { IfOk result (λ leaves. AreLeavesOf texts.now leaves.items × AreLeaves leaves.items) }
    ensures bad { (row : ℕ) → result ≡ Err (fault.BadPrefix row) → IsFirstBad texts.now row }
{
    let Ok(mut leaves) = Vec::with_capacity(alloc, texts.len()) else {
        return Err(TrieFault::NoMemory);
    };
    for (row, text) in texts.iter().enumerate() {
        let Ok(prefix) = read_prefix(text.as_slice()) else {
            return Err(TrieFault::BadPrefix((row + 1) as u32));
        };
        if leaves.push(leaf_of(prefix)).is_err() {
            return Err(TrieFault::NoMemory);
        }
    }
    Ok(leaves)
}

/// Whether any leaf is of a family.
fn has_family(leaves: &[Leaf], v6: bool) -> bool
    ensures { IsTrue result ↔ ((row : ℕ) × IsOfFamily leaves.now v6 row) }
{
    for leaf in leaves {
        if leaf.v6 == v6 {
            return true;
        }
    }
    false
}

/// How many cells a prefix covers at its level.
fn covered(len: u8, level: u32) -> usize
    requires len { len ≤ 128 }
    requires level { level ≡ level_of len }
    ensures { result ≡ 2 ^ (4 * level + 4 - len) }
{
    1 << (4 * level + 4 - u32::from(len))
}

/// Goes to the cells below a cell, and makes them where there are none.
fn grow(cells: &mut Vec<Cell>, at: usize) -> Result<usize, NoMemory>
    requires within { at < length cells.old.items }
    requires room { length cells.old.items + 16 < 2 ^ 32 }
    ensures grows { IfOk result (GrowsCells cells.old.items at cells.new.items) }
    ensures room { IfOk result (λ _. length cells.new.items ≤ length cells.old.items + 16) }
{
    let cell = cells[at];
    if cell.next != 0 {
        return Ok(cell.next as usize);
    }
    let start = cells.len();
    if cells.extend_from_slice(&[BLANK; 16]).is_err() {
        return Err(NoMemory);
    }
    cells[at] = Cell {
        next: start as u32,
        row: cell.row,
    };
    Ok(start)
}

/// The row of a cell after another one ends there.
fn bettered(leaves: &[Leaf], row: usize, old: u32) -> u32
    requires rows { length leaves.now ≤ MOST_ROWS }
    requires row { row < length leaves.now }
    requires old { old ≤ length leaves.now }
    ensures { IsBettered leaves.now row old result }
{
    if old == 0 || leaves[(old - 1) as usize].len < leaves[row].len {
        (row + 1) as u32
    } else {
        old
    }
}

/// Lets a row end at cells from one place on to another, where none better ends.
fn mark(cells: &mut Vec<Cell>, leaves: &[Leaf], row: usize, start: usize, end: usize)
    requires rows { length leaves.now ≤ MOST_ROWS }
    requires row { row < length leaves.now }
    requires old { (i : ℕ) → cell_row cells.old.items i ≤ row }
    requires order { start ≤ end }
    requires end { end ≤ length cells.old.items }
    ensures { AreBettered leaves.now row start end cells.old.items cells.new.items }
{
    for at in start..end {
        let cell = cells[at];
        cells[at] = Cell {
            next: cell.next,
            row: bettered(leaves, row, cell.row),
        };
    }
}

/// Goes the way of a row down to a level, and makes what isn't there.
fn way(
    cells: &mut Vec<Cell>,
    leaves: &[Leaf],
    v6: bool,
    row: usize,
    last: u32,
) -> Result<usize, NoMemory>
    requires leaves { AreLeaves leaves.now }
    requires trie { IsTrie leaves.now v6 row cells.old.items }
    requires row { IsOfFamily leaves.now v6 row }
    requires rows { length leaves.now ≤ MOST_ROWS }
    requires last { last ≡ level_of (leaf_at leaves.now row).len }
    requires room { length cells.old.items ≤ 65552 + 512 * row }
    ensures grown { IfOk result (λ start. IsGrown leaves.now v6 row last start cells.new.items) }
    ensures room { IfOk result (λ _. length cells.new.items ≤ 65552 + 512 * row + 16 * last) }
{
    let bits = leaves[row].bits;
    let mut start = TABLE;
    for level in 0..last {
        start = grow(cells, start + digit_of(bits, level))?;
    }
    Ok(start)
}

/// Puts one row more into a trie.
fn put(cells: &mut Vec<Cell>, leaves: &[Leaf], v6: bool, row: usize) -> Result<(), NoMemory>
    requires leaves { AreLeaves leaves.now }
    requires trie { IsTrie leaves.now v6 row cells.old.items }
    requires row { row < length leaves.now }
    requires rows { length leaves.now ≤ MOST_ROWS }
    requires room { length cells.old.items ≤ 65552 + 512 * row }
    ensures trie { IfOk result (λ _. IsTrie leaves.now v6 (row + 1) cells.new.items) }
    ensures room { IfOk result (λ _. length cells.new.items ≤ 65552 + 512 * (row + 1)) }
{
    let leaf = leaves[row];
    if leaf.v6 != v6 {
        return Ok(());
    }
    let last = level_of(leaf.len);
    let start = way(cells, leaves, v6, row, last)?;
    let from = start + digit_of(leaf.bits, last);
    mark(cells, leaves, row, from, from + covered(leaf.len, last));
    Ok(())
}

/// What the first four levels tell of some bits.
fn scanned(cells: &[Cell], bits: u128) -> Cell
    requires size { 65552 ≤ length cells.now }
    requires closed { IsClosed cells.now }
    ensures within { result.next ≢ 0 → (result.next ≡ 65536) ⊎ ((i : ℕ) × (result.next ≡ next_at cells.now i)) }
    ensures told { (leaves : List Leaf) (v6 : Bool) → AreLeaves leaves
        → IsTrie leaves v6 (length leaves) cells.now
        → (result.next ≡ node cells.now bits 4) × TellsBest leaves (EndsAbove leaves v6 4 bits) result.row }
{
    let mut next = TABLE as u32;
    let mut row = 0;
    for level in 0..4 {
        if next == 0 {
            return Cell { next, row };
        }
        let cell = cells[next as usize + digit_of(bits, level)];
        next = cell.next;
        row = better(row, cell.row);
    }
    Cell { next, row }
}

/// Fills the table in front of a trie.
fn fill_table(cells: &mut Vec<Cell>)
    requires size { 65552 ≤ length cells.old.items }
    requires closed { IsClosed cells.old.items }
    ensures { (leaves : List Leaf) (v6 : Bool) → AreLeaves leaves
        → IsTrie leaves v6 (length leaves) cells.old.items → IsWholeTrie leaves v6 cells.new.items }
{
    for bucket in 0..TABLE {
        let cell = scanned(cells.as_slice(), (bucket as u128) << 112);
        cells[bucket] = cell;
    }
}

/// So many blank cells.
fn blanks(alloc: Global, count: usize) -> Result<Vec<Cell>, NoMemory>
    ensures len { IfOk result (λ cells. length cells.items ≡ count) }
    ensures next { IfOk result (λ cells. (i : ℕ) → next_at cells.items i ≡ 0) }
    ensures row { IfOk result (λ cells. (i : ℕ) → cell_row cells.items i ≡ 0) }
{
    match Vec::from_elem(alloc, BLANK, count) {
        Ok(cells) => Ok(cells),
        Err(_) => Err(NoMemory),
    }
}

/// The cells of a family, or none where it has no row.
pub(crate) fn cells_of(alloc: Global, leaves: &[Leaf], v6: bool) -> Result<Vec<Cell>, NoMemory>
    requires leaves { AreLeaves leaves.now }
    requires rows { length leaves.now ≤ MOST_ROWS }
    ensures cells { IfOk result (λ cells. AreTrieCells leaves.now v6 cells.items) }
    ensures safe { IfOk result (λ cells. IsSafe (length leaves.now) cells.items) }
{
    if !has_family(leaves, v6) {
        return Ok(Vec::new(alloc));
    }
    let mut cells = blanks(alloc, TABLE + 16)?;
    for row in 0..leaves.len() {
        put(&mut cells, leaves, v6, row)?;
    }
    fill_table(&mut cells);
    let below = rows_below(alloc, cells.as_slice(), leaves, v6)?;
    cut_all(&mut cells, below.as_slice());
    Ok(cells)
}
