// The counts that `demo` prints, by the key table of the hashed layouts.
ghost use Rattle.std.specs.Prelude.{◌≡◌, ◌<◌, ◌≤◌, ◌*◌, IfOk, length};
ghost use Rattle.dict_value.specs.FindByKey.{FindsByKey};
ghost use Rattle.dictd.specs.Demo.{Counts as CountsOf, asked_key, asked_keys, row_key, row_keys};
ghost use Rattle.hashed_layout.specs.Tables.{IsTableOf};

use crate::words::MOST_DEMO_ROWS;
use dict_value::{ListOf, NoMemory};
use hashed_layout::Hashed;
use std::alloc::Global;

/// How many lookups have a row, and the sum of the values that they answer.
#[derive(Clone, Copy, Debug, PartialEq, Eq)]
pub struct Counts {
    pub hits: u64,
    pub sum: u128,
}

/// The key of a row of so many.
pub fn row_key(rows: u64, seed: u64, row: u64) -> u64
    requires some { 0 < rows }
    requires few { rows ≤ MOST_DEMO_ROWS }
    requires row { row ≤ MOST_DEMO_ROWS }
    ensures { result ≡ row_key rows seed row }
{
    let number = u128::from(row) * 48271 + u128::from(seed);
    (number % u128::from(2 * rows)) as u64
}

/// The key that a lookup asks for.
pub fn asked_key(rows: u64, seed: u64, lookup: u64) -> u64
    requires some { 0 < rows }
    requires few { rows ≤ MOST_DEMO_ROWS }
    requires lookup { lookup ≤ MOST_DEMO_ROWS }
    ensures { result ≡ asked_key rows seed lookup }
{
    let number = u128::from(lookup) * 69621 + 3 * u128::from(seed);
    (number % u128::from(2 * rows)) as u64
}

/// The keys of all rows, in their order.
fn row_keys(alloc: Global, rows: u64, seed: u64) -> Result<ListOf<u64>, NoMemory>
    requires some { 0 < rows }
    requires few { rows ≤ MOST_DEMO_ROWS }
    ensures { IfOk result (λ keys. keys ≡ row_keys rows seed) }
{
    let mut keys = ListOf::with_room(alloc, rows as usize)?;
    for row in 0..rows {
        keys.push(row_key(rows, seed, row))?;
    }
    Ok(keys)
}

/// What the lookups find.
fn find_all(table: &Hashed, rows: u64, seed: u64) -> Counts
    requires table { IsTableOf (row_keys rows seed) table.now.cells.items }
    requires some { 0 < rows }
    requires few { rows ≤ MOST_DEMO_ROWS }
    ensures { CountsOf rows seed (asked_keys rows seed) result.hits result.sum }
{
    let mut counts = Counts { hits: 0, sum: 0 };
    for lookup in 0..rows {
        if let Some(value) = table.find(asked_key(rows, seed, lookup)) {
            counts = Counts {
                hits: counts.hits + 1,
                sum: counts.sum + u128::from(value),
            };
        }
    }
    counts
}

/// The counts over all lookups.
pub fn count_all(alloc: Global, rows: u64, seed: u64) -> Result<Counts, NoMemory>
    requires some { 0 < rows }
    requires few { rows ≤ MOST_DEMO_ROWS }
    ensures { IfOk result (λ counts. CountsOf rows seed (asked_keys rows seed) counts.hits counts.sum) }
{
    let keys = row_keys(alloc, rows, seed)?;
    let table = Hashed::build(alloc, keys.as_slice())?;
    Ok(find_all(&table, rows, seed))
}
