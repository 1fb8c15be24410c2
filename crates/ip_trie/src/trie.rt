// The tries of both families, and the search in them.
ghost use Rattle.std.specs.Prelude.{◌≡◌, ◌≢◌, ◌+◌, ◌-◌, ◌<◌, ◌≤◌, ◌⊎◌, ℕ, Bool, List, All, None, Some, Err, IfErr};
ghost use Rattle.std.specs.Prelude.{IfOk, IsSome};
ghost use Rattle.std.specs.Prelude.{OnOk, length};
ghost use Rattle.dict_value.specs.Addresses.{prefix_in};
ghost use Rattle.dict_value.specs.Memory.{UnlessNoMemory};
ghost use Rattle.dict_value.specs.declared.value.TheConstants.{MOST_ROWS};
ghost use Rattle.ip_trie.specs.Below.{IsLastOf, IsSafe};
ghost use Rattle.ip_trie.specs.Cells.{AreLeaves, HasBits, Shares, TellsBest, leaf_at};
ghost use Rattle.ip_trie.specs.FindByAddress.{FindsByAddress, HasInCommon, IsTrieRefused};
ghost use Rattle.ip_trie.specs.Kept.{AreTrieCells, AreTriesOf};
ghost use Rattle.ip_trie.specs.declared.trie.TrieFault.TheVariants as fault;

use crate::build::{cells_of, leaves_of};
use crate::cells::{Below, Cell, Leaf, below_of, better, bucket_of, digit_of, holds};
use dict_value::{Address, Bytes, Counted, Counter, ListOf};
use std::alloc::Global;

/// Why a list of texts has no trie.
#[derive(Clone, Copy, Debug, PartialEq, Eq)]
pub enum TrieFault {
    /// The first row whose text is no prefix, counted from 1.
    BadPrefix(u32),
    NoMemory,
}

/// The prefixes of each family: a table of the first 16 bits, and behind it a trie of four bits a level, in
/// which a row that lies alone below a cell stands in place of its nodes, so that a search reads its leaf at
/// once. A family without rows has no cells.
#[derive(Drop)]
pub struct Trie<S> {
    v4: Counted<Cell, S>,
    v6: Counted<Cell, S>,
    leaves: Counted<Leaf, S>,
    ghost sound: { AreLeaves leaves },
    ghost rows: { length leaves ≤ MOST_ROWS },
    ghost safe_v4: { IsSafe (length leaves) v4 },
    ghost safe_v6: { IsSafe (length leaves) v6 },
}

/// One more than a row, where its prefix holds some bits, else the best so far.
#[inline(always)]
fn last_of<S: Counter>(
    leaves: &Counted<Leaf, S>,
    row: u32,
    bits: u128,
    best: u32,
    steps: &mut S,
) -> u32
    requires leaves { AreLeaves leaves.now }
    requires row { row < length leaves.now }
    requires rows { length leaves.now ≤ MOST_ROWS }
    ensures last { IsLastOf (leaf_at leaves.now row) row bits best result }
    ensures step { S.amount steps.new ≤ S.amount steps.old + 1 }
{
    let leaf = leaves.at(row as usize, steps);
    if holds(leaf, bits) { row + 1 } else { best }
}

/// One more than the row with the longest prefix that holds some bits, or 0.
#[inline(always)]
fn found_in<S: Counter>(
    cells: &Counted<Cell, S>,
    leaves: &Counted<Leaf, S>,
    bits: u128,
    steps: &mut S,
) -> u32
    requires leaves { AreLeaves leaves.now }
    requires rows { length leaves.now ≤ MOST_ROWS }
    requires safe { IsSafe (length leaves.now) cells.now }
    ensures found { (v6 : Bool) → AreTrieCells leaves.now v6 cells.now
        → TellsBest leaves.now (HasBits leaves.now v6 bits) result }
    ensures steps { (v6 : Bool) → AreTrieCells leaves.now v6 cells.now
        → (count : ℕ) × ((count ≡ 0) ⊎ Shares leaves.now v6 bits count)
        × (S.amount steps.new ≤ S.amount steps.old + (count + 1)) }
{
    if cells.is_empty() {
        return 0;
    }
    let mut cell = cells.at(bucket_of(bits), steps);
    let mut best = cell.row;
    for level in 4..32 {
        match below_of(cell.next) {
            Below::Nothing => return best,
            Below::Row(row) => return last_of(leaves, row, bits, best, steps),
            Below::Node(start) => {
                cell = cells.at(start as usize + digit_of(bits, level), steps);
                best = better(best, cell.row);
            }
        }
    }
    best
}

impl<S: Counter> Trie<S> {
    /// The trie of a list of prefix texts.
    pub fn build(alloc: Global, texts: &[Bytes]) -> Result<Trie<S>, TrieFault>
        requires { length texts.now ≤ MOST_ROWS }
        ensures trie { IfOk result (λ trie. AreTriesOf texts.now trie.v4 trie.v6 trie.leaves) }
        ensures read { OnOk result (All (λ text. IsSome (prefix_in text)) texts.now) }
        ensures bad { UnlessNoMemory (Err fault.NoMemory) result (IfErr result (IsTrieRefused texts.now)) }
    {
        let leaves = leaves_of(alloc, texts)?;
        let Ok(v4) = cells_of(alloc, leaves.as_slice(), false) else {
            return Err(TrieFault::NoMemory);
        };
        let Ok(v6) = cells_of(alloc, leaves.as_slice(), true) else {
            return Err(TrieFault::NoMemory);
        };
        Ok(Trie {
            v4: Counted::from_list(ListOf::from_vec(v4)),
            v6: Counted::from_list(ListOf::from_vec(v6)),
            leaves: Counted::from_list(ListOf::from_vec(leaves)),
        })
    }

    /// The row with the longest prefix that holds the address, of equal ones the first, in at most one step
    /// more than the bits that a prefix of the family has in common with it, and without taking memory.
    pub fn find(&self, address: &Address, steps: &mut S) -> Option<u32>
        ensures found { (texts : List (List ℕ)) → AreTriesOf texts self.now.v4 self.now.v6 self.now.leaves
            → FindsByAddress texts address.now result }
        ensures steps { (texts : List (List ℕ)) → AreTriesOf texts self.now.v4 self.now.v6 self.now.leaves
            → (count : ℕ) × HasInCommon texts address.now count
            × (S.amount steps.new ≤ S.amount steps.old + (count + 1)) }
    {
        let best = self.best_for(address, steps);
        if best == 0 { None } else { Some(best - 1) }
    }

    /// One more than that row, or 0.
    #[inline(always)]
    fn best_for(&self, address: &Address, steps: &mut S) -> u32
        ensures none { (texts : List (List ℕ)) → AreTriesOf texts self.now.v4 self.now.v6 self.now.leaves
            → result ≡ 0 → FindsByAddress texts address.now None }
        ensures some { (texts : List (List ℕ)) → AreTriesOf texts self.now.v4 self.now.v6 self.now.leaves
            → result ≢ 0 → FindsByAddress texts address.now (Some (result - 1)) }
        ensures steps { (texts : List (List ℕ)) → AreTriesOf texts self.now.v4 self.now.v6 self.now.leaves
            → (count : ℕ) × HasInCommon texts address.now count
            × (S.amount steps.new ≤ S.amount steps.old + (count + 1)) }
    {
        match address {
            Address::V4(bits) => found_in(&self.v4, &self.leaves, u128::from(*bits) << 96, steps),
            Address::V6(bits) => found_in(&self.v6, &self.leaves, *bits, steps),
        }
    }
}
