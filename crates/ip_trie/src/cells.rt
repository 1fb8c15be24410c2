// Cells, leaves, and the bits that lead from cell to cell.
ghost use Rattle.std.specs.Prelude.{◌≡◌, ◌≢◌, ◌↔◌, ◌*◌, ◌-◌, ◌/◌, ◌%◌, ◌<◌, ◌≤◌, ◌^◌, IsTrue};
ghost use Rattle.dict_value.specs.Addresses.{IsPrefix};
ghost use Rattle.dict_value.specs.declared.value.TheConstants.{MOST_ROWS};
ghost use Rattle.ip_trie.specs.Cells.{digit, leaf_of, level_of, top};
ghost use Rattle.ip_trie.specs.Below.{IsNextOf, next_of_row};

use dict_value::Prefix;

/// How many cells the table of the first 16 bits has; the trie's first node stands behind it.
pub(crate) const TABLE: usize = 65_536;

/// What lies below, as [`below_of`] reads it; and one more than the best row that ends here, or 0.
#[derive(Clone, Copy, Debug, PartialEq, Eq)]
pub(crate) struct Cell {
    pub(crate) next: u32,
    pub(crate) row: u32,
}

pub(crate) const BLANK: Cell = Cell { next: 0, row: 0 };

/// What lies below a cell: no row, 16 cells from a place on, or one row alone.
#[derive(Clone, Copy, Debug, PartialEq, Eq)]
pub(crate) enum Below {
    Nothing,
    Node(u32),
    Row(u32),
}

/// What lies below the cells that have this `next`. Nodes stand at multiples of 16.
#[inline(always)]
pub(crate) fn below_of(next: u32) -> Below
    ensures { IsNextOf next result }
{
    if next == 0 {
        Below::Nothing
    } else if next % 16 == 1 {
        Below::Row(next / 16)
    } else {
        Below::Node(next)
    }
}

/// The `next` of a cell below which one row lies alone.
pub(crate) fn next_of_row(row: u32) -> u32
    requires { row < MOST_ROWS }
    ensures { result ≡ next_of_row row }
{
    16 * row + 1
}

/// A prefix by the first ones of 128 bits, of which an IPv4 address has the first 32.
#[derive(Clone, Copy, Debug, PartialEq, Eq)]
pub(crate) struct Leaf {
    pub(crate) v6: bool,
    pub(crate) bits: u128,
    pub(crate) len: u8,
}

/// The leaf of a prefix.
pub(crate) fn leaf_of(prefix: Prefix) -> Leaf
    requires { IsPrefix prefix }
    ensures is { result ≡ leaf_of prefix }
    ensures len { result.len ≤ 128 }
    ensures cleared { result.bits % 2 ^ (128 - result.len) ≡ 0 }
{
    Leaf {
        v6: prefix.v6,
        bits: if prefix.v6 {
            prefix.bits
        } else {
            prefix.bits << 96
        },
        len: prefix.len,
    }
}

/// The first ones of 128 bits, so many.
#[inline(always)]
fn first_of(bits: u128, len: u8) -> u128
    requires { len ≤ 128 }
    ensures { result ≡ top len bits }
{
    if len == 0 {
        0
    } else {
        bits >> (128 - u32::from(len))
    }
}

/// Whether a leaf's prefix holds some bits.
#[inline(always)]
pub(crate) fn holds(leaf: Leaf, bits: u128) -> bool
    requires { leaf.len ≤ 128 }
    ensures { IsTrue result ↔ (top leaf.len leaf.bits ≡ top leaf.len bits) }
{
    first_of(leaf.bits, leaf.len) == first_of(bits, leaf.len)
}

/// The cell of the table for some bits.
#[inline(always)]
pub(crate) fn bucket_of(bits: u128) -> usize
    ensures is { result ≡ top 16 bits }
    ensures within { result < 65536 }
{
    (bits >> 112) as usize
}

/// The level at whose cells a prefix ends.
pub(crate) fn level_of(len: u8) -> u32
    requires { len ≤ 128 }
    ensures is { result ≡ level_of len }
    ensures within { result < 32 }
{
    u32::from(len.saturating_sub(1)) / 4
}

/// The four bits of a level.
#[inline(always)]
pub(crate) fn digit_of(bits: u128, level: u32) -> usize
    requires { level < 32 }
    ensures is { result ≡ digit level bits }
    ensures within { result < 16 }
{
    ((bits >> (124 - 4 * level)) % 16) as usize
}

/// The row of a cell, where it has one, else the row so far.
#[inline(always)]
pub(crate) fn better(best: u32, row: u32) -> u32
    ensures kept { row ≡ 0 → result ≡ best }
    ensures new { row ≢ 0 → result ≡ row }
{
    if row == 0 { best } else { row }
}
