// How many members each chain has.
ghost use Rattle.std.specs.Prelude.{◌≡◌, ◌≢◌, ◌+◌, ◌^◌, ◌<◌, ◌≤◌, ℕ, IfOk, length, slice_index};
ghost use Rattle.hier.specs.Members.{IsCounted, above};
ghost use Rattle.hier.specs.steps.Counting.{AreCounted, EndsAs, IsFilled, IsWalked, zeros};

use dict_value::NoMemory;
use std::alloc::Global;

/// A walk from a member on over parents, whose chains weren't counted before: how many members it has, how
/// many the chain of the member behind them has, and the place of the member of the walk that would come
/// again, or the number of members where none does.
#[derive(Clone, Copy)]
struct Walk {
    count: usize,
    behind: u32,
    lap: usize,
}

/// Walks from a member on, and marks the members of the walk with their places from 1.
fn walked(ups: &[u32], rows: &[u32], lengths: &[u32], places: &mut [u32], start: usize) -> Walk
    requires small { length ups.now < 2 ^ 24 }
    requires up { (member : ℕ) → slice_index ups.now member ≤ length ups.now }
    requires rows { length rows.now ≡ length ups.now }
    requires counted { AreCounted ups.now rows.now lengths.now places.old start }
    requires within { start < length ups.now }
    requires row { 0 < slice_index rows.now start }
    requires fresh { slice_index lengths.now start ≡ 0 }
    ensures some { 0 < result.count }
    ensures walked { IsWalked ups.now rows.now lengths.now places.old places.new start result.count }
    ensures ends { EndsAs ups.now rows.now lengths.now start result }
{
    let mut at = start;
    let mut count = 0;
    loop {
        places[at] = (count + 1) as u32;
        count += 1;
        if ups[at] == 0 {
            return Walk {
                count,
                behind: 0,
                lap: count,
            };
        }
        at = (ups[at] - 1) as usize;
        if rows[at] == 0 || lengths[at] != 0 {
            return Walk {
                count,
                behind: lengths[at],
                lap: count,
            };
        }
        if places[at] != 0 {
            return Walk {
                count,
                behind: 0,
                lap: (places[at] - 1) as usize,
            };
        }
    }
}

/// Counts the chains of the members of a walk.
fn fill(ups: &[u32], lengths: &mut [u32], start: usize, walk: Walk)
    requires small { length ups.now < 2 ^ 24 }
    requires len { length lengths.old ≡ length ups.now }
    requires some { 0 < walk.count }
    requires within { (i : ℕ) → i < walk.count → above ups.now i start < length ups.now }
    requires linked { (i : ℕ) → i + 1 < walk.count → 0 < slice_index ups.now (above ups.now i start) }
    requires apart { (i j : ℕ) → i < j → j < walk.count → above ups.now i start ≢ above ups.now j start }
    requires fits { walk.behind + walk.count ≤ length ups.now }
    ensures { IsFilled ups.now lengths.old lengths.new start walk walk.count }
{
    let mut at = start;
    for place in 0..walk.count {
        lengths[at] = walk.behind + (walk.count - place.min(walk.lap)) as u32;
        if place + 1 < walk.count {
            at = (ups[at] - 1) as usize;
        }
    }
}

/// Counts the chain of a member, where it has a row and wasn't counted before.
fn count_chain(ups: &[u32], rows: &[u32], lengths: &mut [u32], places: &mut [u32], member: usize)
    requires small { length ups.now < 2 ^ 24 }
    requires up { (other : ℕ) → slice_index ups.now other ≤ length ups.now }
    requires rows { length rows.now ≡ length ups.now }
    requires counted { AreCounted ups.now rows.now lengths.old places.old member }
    requires within { member < length ups.now }
    ensures { AreCounted ups.now rows.now lengths.new places.new (member + 1) }
{
    if rows[member] == 0 || lengths[member] != 0 {
        return;
    }
    let walk = walked(ups, rows, lengths, places, member);
    fill(ups, lengths, member, walk);
}

/// How many members the chain of each member has, where a cell of `ups` is 0 for no parent and else one more
/// than its number, and one of `rows` is 0 for a member without a row.
pub(crate) fn lengths_of(alloc: Global, ups: &[u32], rows: &[u32]) -> Result<Vec<u32>, NoMemory>
    requires small { length ups.now < 2 ^ 24 }
    requires up { (member : ℕ) → slice_index ups.now member ≤ length ups.now }
    requires rows { length rows.now ≡ length ups.now }
    ensures len { IfOk result (λ lengths. length lengths.items ≡ length ups.now) }
    ensures most { IfOk result (λ lengths. (member : ℕ) → slice_index lengths.items member ≤ length ups.now) }
    ensures rowless { IfOk result (λ lengths. (member : ℕ)
        → slice_index rows.now member ≡ 0 → slice_index lengths.items member ≡ 0) }
    ensures row { IfOk result (λ lengths. (member : ℕ) → member < length ups.now
        → 0 < slice_index rows.now member → 0 < slice_index lengths.items member) }
    ensures counted { IfOk result (λ lengths. (member : ℕ) → 0 < slice_index lengths.items member
        → IsCounted ups.now rows.now member (slice_index lengths.items member)) }
{
    let Ok(mut lengths) = Vec::from_elem(alloc, 0u32, ups.len()) else {
        return Err(NoMemory);
    };
    let Ok(mut places) = Vec::from_elem(alloc, 0u32, ups.len()) else {
        return Err(NoMemory);
    };
    for member in 0..ups.len() {
        count_chain(
            ups,
            rows,
            lengths.as_mut_slice(),
            places.as_mut_slice(),
            member,
        );
    }
    Ok(lengths)
}
