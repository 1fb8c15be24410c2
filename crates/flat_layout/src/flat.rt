// Rows by a small key: an array with a cell for each key.
ghost use Rattle.std.specs.Prelude.{◌≡◌, ◌+◌, ◌<◌, ◌≤◌, ℕ, List, All, Err, IfErr, IfOk, OnOk, MatchResult, length};
ghost use Rattle.std.specs.Prelude.{replicate, slice_index};
ghost use Rattle.dict_value.specs.FindByKey.{FindsByKey};
ghost use Rattle.dict_value.specs.Memory.{UnlessNoMemory};
ghost use Rattle.dict_value.specs.declared.value.TheConstants.{MOST_ROWS};
ghost use Rattle.flat_layout.specs.Cells.{AreCellsOf, IsFirstTooLarge, IsFlatRefused};
ghost use Rattle.flat_layout.specs.steps.Filling.{CellTells};
ghost use Rattle.flat_layout.specs.declared.flat.FlatFault.TheVariants as fault;

use dict_value::{Counted, Counter, ListOf};
use std::alloc::Global;

/// Why a list of keys has no cells.
#[derive(Clone, Copy, Debug, PartialEq, Eq)]
pub enum FlatFault {
    /// The first key that isn't below the limit.
    KeyTooLarge(u64),
    NoMemory,
}

/// A cell for each key up to the greatest: one more than the least place with it, or 0.
#[derive(Drop)]
pub struct Flat<S> {
    cells: Counted<u32, S>,
}

impl<S: Counter> Flat<S> {
    /// The cells of a list of keys, each of which is below `max`.
    pub fn build(alloc: Global, keys: &[u64], max: u32) -> Result<Flat<S>, FlatFault>
        requires { length keys.now ≤ MOST_ROWS }
        ensures cells { IfOk result (λ flat. AreCellsOf keys.now flat.cells) }
        ensures small { OnOk result (All (λ key. key < max) keys.now) }
        ensures large { UnlessNoMemory (Err fault.NoMemory) result (IfErr result (IsFlatRefused keys.now max)) }
    {
        let room = match room_for(keys, max) {
            Ok(room) => room,
            Err(key) => return Err(FlatFault::KeyTooLarge(key)),
        };
        let Ok(mut cells) = Vec::from_elem(alloc, 0u32, room) else {
            return Err(FlatFault::NoMemory);
        };
        fill(cells.as_mut_slice(), keys);
        Ok(Flat {
            cells: Counted::from_list(ListOf::from_vec(cells)),
        })
    }

    /// The least place with the key, in at most one step and without taking memory.
    pub fn find(&self, key: u64, steps: &mut S) -> Option<u32>
        ensures found { (keys : List ℕ) → AreCellsOf keys self.now.cells → FindsByKey keys key result }
        ensures steps { S.amount steps.new ≤ S.amount steps.old + 1 }
    {
        if key >= self.cells.len() as u64 {
            return None;
        }
        let cell = self.cells.at(key as usize, steps);
        if cell == 0 { None } else { Some(cell - 1) }
    }
}

/// How many cells the keys need, or the first key that isn't below `max`.
fn room_for(keys: &[u64], max: u32) -> Result<usize, u64>
    ensures { MatchResult result
        (λ room. (room ≤ max) × All (λ key. key < room) keys.now)
        (IsFirstTooLarge keys.now max) }
{
    let mut room = 0;
    for key in keys {
        if *key >= u64::from(max) {
            return Err(*key);
        }
        if *key >= room {
            room = *key + 1;
        }
    }
    Ok(room as usize)
}

/// Fills the cells of keys that all have one.
fn fill(cells: &mut [u32], keys: &[u64])
    requires rows { length keys.now ≤ MOST_ROWS }
    requires keys { All (λ key. key < length cells.old) keys.now }
    requires empty { cells.old ≡ replicate (length cells.old) 0 }
    ensures len { length cells.new ≡ length cells.old }
    ensures told { (key : ℕ) → key < length cells.new
        → CellTells keys.now (length keys.now) key (slice_index cells.new key) }
{
    for (row, key) in keys.iter().enumerate() {
        let cell = *key as usize;
        if cells[cell] == 0 {
            cells[cell] = (row + 1) as u32;
        }
    }
}
