// The order in which rows are taken, by their ranks.
ghost use Rattle.std.specs.Prelude.{◌≡◌, ◌+◌, ◌*◌, ◌%◌, ◌^◌, ◌<◌, ◌≤◌, ℕ, IfOk, length};
ghost use Rattle.dict_value.specs.declared.value.TheConstants.{MOST_ROWS};
ghost use Rattle.range_layout.specs.Stretches.{AreStretchesOf, AreRanksOf, stretch_at, rank_of};
ghost use Rattle.range_layout.specs.Points.{ends_of_row};

use crate::ends::{End, Ends};
use crate::points::risen;
use crate::stretches::Stretch;
use dict_schema::Strategy;
use dict_value::NoMemory;
use std::alloc::Global;

/// Above every place of a point.
const ABOVE: u128 = 16_777_216;

/// A row's rank: by its start, then by its end, then by its place.
fn rank_of(strategy: Strategy, range: &Ends, stretch: Stretch, row: usize) -> u128
    requires low { stretch.low + 1 ≤ ABOVE }
    requires high { stretch.high ≤ ABOVE }
    requires row { row < MOST_ROWS }
    ensures { result ≡ rank_of strategy range.now stretch row }
{
    let start = match range.low {
        End::Free => 0,
        End::At(_) => u128::from(stretch.low) + 1,
    };
    let end = match range.high {
        End::Free => ABOVE,
        End::At(_) => u128::from(stretch.high),
    };
    match strategy {
        Strategy::Min => (((start << 32) + end) << 32) + row as u128,
        Strategy::Max => ((((ABOVE - start) << 32) + (ABOVE - end)) << 32) + row as u128,
    }
}

/// The row of a rank.
#[inline(always)]
pub(crate) fn row_of(rank: u128) -> usize
    ensures { result ≡ rank % 2 ^ 32 }
{
    (rank % (1 << 32)) as usize
}

/// The ranks of rows, rising.
pub(crate) fn ranks_of(
    alloc: Global,
    strategy: Strategy,
    ends: &[Ends],
    stretches: &[Stretch],
) -> Result<Vec<u128>, NoMemory>
    requires rows { length ends.now ≤ MOST_ROWS }
    requires same { length stretches.now ≡ length ends.now }
    requires low { (row : ℕ) → (stretch_at stretches.now row).low < ABOVE }
    requires high { (row : ℕ) → (stretch_at stretches.now row).high ≤ ABOVE }
    ensures { IfOk result (λ ranks. AreRanksOf strategy ends.now stretches.now ranks.items) }
{
    let Ok(mut ranks) = Vec::with_capacity(alloc, ends.len()) else {
        return Err(NoMemory);
    };
    for row in 0..ends.len() {
        let rank = rank_of(strategy, &ends[row], stretches[row], row);
        if ranks.push(rank).is_err() {
            return Err(NoMemory);
        }
    }
    Ok(risen(ranks))
}
