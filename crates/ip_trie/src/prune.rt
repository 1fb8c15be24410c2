// How the nodes are cut off below which one row lies alone.
ghost use Rattle.std.specs.Prelude.{◌≡◌, ◌≢◌, ◌+◌, ◌-◌, ◌<◌, ◌≤◌, ◌⊎◌, ℕ, IfOk, length};
ghost use Rattle.dict_value.specs.declared.value.TheConstants.{MOST_ROWS};
ghost use Rattle.ip_trie.specs.Cells.{AreLeaves};
ghost use Rattle.ip_trie.specs.Below.{AreBelow, AreCut, IsCut, Joins, one_below};
ghost use Rattle.ip_trie.specs.Kept.{IsWholeTrie};

use crate::cells::{Cell, Leaf, bucket_of, digit_of, level_of, next_of_row};
use dict_value::NoMemory;
use std::alloc::Global;

/// What is said of a cell below which several rows lie; of one it is one more than the row, of none it is 0.
pub(crate) const MANY: u32 = u32::MAX;

/// Says of a cell that one row more lies below it.
fn join(below: &mut Vec<u32>, at: usize, row: usize)
    requires within { at < length below.old.items }
    requires row { row < MOST_ROWS }
    ensures { Joins at row below.old.items below.new.items }
{
    below[at] = if below[at] == 0 {
        (row + 1) as u32
    } else {
        MANY
    };
}

/// Says of the cells on a row's way that the row lies below them.
fn join_way(below: &mut Vec<u32>, cells: &[Cell], leaves: &[Leaf], v6: bool, row: usize)
    requires leaves { AreLeaves leaves.now }
    requires filled { IsWholeTrie leaves.now v6 cells.now }
    requires row { row < length leaves.now }
    requires rows { length leaves.now ≤ MOST_ROWS }
    requires below { AreBelow leaves.now v6 cells.now row below.old.items }
    ensures { AreBelow leaves.now v6 cells.now (row + 1) below.new.items }
{
    let leaf = leaves[row];
    let last = level_of(leaf.len);
    if leaf.v6 != v6 || last < 4 {
        return;
    }
    let bucket = bucket_of(leaf.bits);
    join(below, bucket, row);
    let mut start = cells[bucket].next as usize;
    for level in 4..last {
        let at = start + digit_of(leaf.bits, level);
        join(below, at, row);
        start = cells[at].next as usize;
    }
}

/// Which rows lie below each cell.
pub(crate) fn rows_below(
    alloc: Global,
    cells: &[Cell],
    leaves: &[Leaf],
    v6: bool,
) -> Result<Vec<u32>, NoMemory>
    requires leaves { AreLeaves leaves.now }
    requires filled { IsWholeTrie leaves.now v6 cells.now }
    requires rows { length leaves.now ≤ MOST_ROWS }
    ensures { IfOk result (λ below. AreBelow leaves.now v6 cells.now (length leaves.now) below.items) }
{
    let Ok(mut below) = Vec::from_elem(alloc, 0, cells.len()) else {
        return Err(NoMemory);
    };
    for row in 0..leaves.len() {
        join_way(&mut below, cells, leaves, v6, row);
    }
    Ok(below)
}

/// A cell with the row alone below it in place of a node.
fn cut(cell: Cell, below: u32) -> Cell
    requires { (below ≡ MANY) ⊎ (below ≤ MOST_ROWS) }
    ensures { IsCut below cell result }
{
    if cell.next == 0 || below == 0 || below == MANY {
        cell
    } else {
        Cell {
            next: next_of_row(below - 1),
            row: cell.row,
        }
    }
}

/// Cuts off the nodes below which one row lies alone.
pub(crate) fn cut_all(cells: &mut Vec<Cell>, below: &[u32])
    requires len { length below.now ≡ length cells.old.items }
    requires rows { (i : ℕ) → (one_below below.now i ≡ MANY) ⊎ (one_below below.now i ≤ MOST_ROWS) }
    ensures { AreCut below.now cells.old.items cells.new.items }
{
    for at in 0..cells.len() {
        cells[at] = cut(cells[at], below[at]);
    }
}
