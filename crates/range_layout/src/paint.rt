// Which row is taken from each border on: the borders are painted row by row, the rows that are taken first before the
// others, and a painted border stays as it is.
ghost use Rattle.std.specs.Prelude.{◌≡◌, ◌≢◌, ◌+◌, ◌-◌, ◌<◌, ◌≤◌, ◌^◌, ℕ, List, Contains, IfOk, length, slice_index};
ghost use Rattle.std.specs.List.Sorted.{IsStrictlyIncreasing};
ghost use Rattle.dict_value.specs.declared.value.TheConstants.{MOST_ROWS};
ghost use Rattle.range_layout.specs.Stretches.{AreBordersOf, stretch_start};
ghost use Rattle.range_layout.specs.steps.Painting.{ArePainted, IsOnePainted, IsPainted};
ghost use Rattle.range_layout.specs.steps.Painting.{LeadsOn, PassesPainted, TellsFirst, row_at};

use crate::points::place_in;
use crate::ranks::row_of;
use crate::stretches::{Stretch, end_of, start_of};
use dict_value::NoMemory;
use std::alloc::Global;

/// The first place from one on that may be unpainted. The way to it is made shorter for later ones.
fn skip(next: &mut Vec<u32>, from: usize) -> usize
    requires leads { LeadsOn next.old.items }
    requires from { from < length next.old.items }
    ensures leads { LeadsOn next.new.items }
    ensures len { length next.new.items ≡ length next.old.items }
    ensures after { from ≤ result }
    ensures within { result < length next.new.items }
    ensures skips { (winners : List ℕ) → PassesPainted winners next.old.items → PassesPainted winners next.new.items }
    ensures painted { (winners : List ℕ) → PassesPainted winners next.old.items → ArePainted winners from result }
{
    let mut at = from;
    while next[at] as usize != at {
        let far = next[next[at] as usize];
        next[at] = far;
        at = far as usize;
    }
    at
}

/// Paints one place, if it isn't painted yet.
fn paint_one(winners: &mut Vec<u32>, next: &mut Vec<u32>, at: usize, row: usize)
    requires at { at < length winners.old.items }
    requires row { row < MOST_ROWS }
    requires small { length winners.old.items < 2 ^ 32 }
    requires len { length next.old.items ≡ length winners.old.items + 1 }
    requires leads { LeadsOn next.old.items }
    requires skips { PassesPainted winners.old.items next.old.items }
    ensures len { length next.new.items ≡ length next.old.items }
    ensures painted { IsOnePainted row at winners.old.items winners.new.items }
    ensures leads { LeadsOn next.new.items }
    ensures skips { PassesPainted winners.new.items next.new.items }
{
    if winners[at] == 0 {
        winners[at] = (row + 1) as u32;
    }
    next[at] = (at + 1) as u32;
}

/// Paints the borders of a stretch that aren't painted yet.
fn paint(
    winners: &mut Vec<u32>,
    next: &mut Vec<u32>,
    borders: &[u128],
    stretch: Stretch,
    row: usize,
)
    requires rises { IsStrictlyIncreasing borders.now }
    requires start { Contains borders.now (stretch_start stretch) }
    requires row { row < MOST_ROWS }
    requires small { length borders.now < 2 ^ 32 }
    requires same { length winners.old.items ≡ length borders.now }
    requires len { length next.old.items ≡ length borders.now + 1 }
    requires leads { LeadsOn next.old.items }
    requires skips { PassesPainted winners.old.items next.old.items }
    ensures len { length next.new.items ≡ length next.old.items }
    ensures painted { IsPainted borders.now stretch row winners.old.items winners.new.items }
    ensures leads { LeadsOn next.new.items }
    ensures skips { PassesPainted winners.new.items next.new.items }
{
    let end = end_of(stretch);
    let start = place_in(borders, start_of(stretch));
    let mut at = skip(next, start);
    while at < borders.len() && borders[at] < end {
        paint_one(winners, next, at, row);
        at = skip(next, at + 1);
    }
}

/// One more than the row that is taken from each border on, or 0.
pub(crate) fn winners_of(
    alloc: Global,
    borders: &[u128],
    stretches: &[Stretch],
    count: usize,
    ranks: &[u128],
) -> Result<Vec<u32>, NoMemory>
    requires stretches { length stretches.now ≤ MOST_ROWS }
    requires borders { AreBordersOf stretches.now count borders.now }
    requires rows { (i : ℕ) → i < length ranks.now → row_at ranks.now i < length stretches.now }
    ensures len { IfOk result (λ winners. length winners.items ≡ length borders.now) }
    ensures told { IfOk result (λ winners. (i : ℕ) → i < length borders.now
        → TellsFirst stretches.now ranks.now (length ranks.now) (slice_index borders.now i)
        (slice_index winners.items i)) }
{
    let Ok(mut winners) = Vec::from_elem(alloc, 0u32, borders.len()) else {
        return Err(NoMemory);
    };
    let mut next = next_of(alloc, borders.len())?;
    for rank in ranks {
        let row = row_of(*rank);
        paint(&mut winners, &mut next, borders, stretches[row], row);
    }
    Ok(winners)
}

/// The numbers from 0 to a count, each of which leads to itself.
fn next_of(alloc: Global, count: usize) -> Result<Vec<u32>, NoMemory>
    requires { count < 2 ^ 32 - 1 }
    ensures len { IfOk result (λ next. length next.items ≡ count + 1) }
    ensures leads { IfOk result (λ next. LeadsOn next.items) }
    ensures skips { IfOk result (λ next. (winners : List ℕ) → PassesPainted winners next.items) }
{
    let Ok(mut next) = Vec::with_capacity(alloc, count + 1) else {
        return Err(NoMemory);
    };
    for place in 0..count + 1 {
        if next.push(place as u32).is_err() {
            return Err(NoMemory);
        }
    }
    Ok(next)
}
