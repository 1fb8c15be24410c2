// The points at which the ranges of any row begin and end, rising.
ghost use Rattle.std.specs.Prelude.{◌≡◌, ◌↔◌, ◌*◌, ◌^◌, ◌<◌, ◌≤◌, ◌∷◌, ◌++◌, ℕ, Contains, IfOk, OnOk};
ghost use Rattle.std.specs.Prelude.{length, slice_index};
ghost use Rattle.std.specs.Option.{option_to_list};
ghost use Rattle.std.specs.List.Sorted.{IsStrictlyIncreasing};
ghost use Rattle.dict_value.specs.declared.value.TheConstants.{MOST_ROWS};
ghost use Rattle.range_layout.specs.Points.{ArePointsOf, low_point, past_point, ends_of_row};

use crate::ends::{Ends, low_point, past_point};
use dict_value::NoMemory;
use std::alloc::{AllocError, Global};

/// The same numbers, rising and without repeats.
pub(crate) fn risen(mut numbers: Vec<u128>) -> Vec<u128>
    ensures rises { IsStrictlyIncreasing result.items }
    ensures each { (n : ℕ) → Contains result.items n ↔ Contains numbers.items n }
    ensures len { length result.items ≤ length numbers.items }
    ensures small { (i : ℕ) → i < length result.items → slice_index result.items i < 2 ^ 128 }
{
    numbers.sort_unstable();
    numbers.dedup();
    numbers
}

/// Appends a number, and another where there is one.
pub(crate) fn push_both(
    all: &mut Vec<u128>,
    first: u128,
    second: Option<u128>,
) -> Result<(), AllocError>
    ensures { OnOk result (all.new.items ≡ all.old.items ++ first ∷ option_to_list second) }
{
    all.push(first)?;
    if let Some(second) = second {
        all.push(second)?;
    }
    Ok(())
}

/// The first points of ranges and the first ones behind them, in one list.
fn all_points(alloc: Global, ends: &[Ends]) -> Result<Vec<u128>, AllocError>
    requires { length ends.now ≤ MOST_ROWS }
    ensures low { IfOk result (λ all. (row : ℕ) → row < length ends.now
        → Contains all.items (low_point (ends_of_row ends.now row).low)) }
    ensures past { IfOk result (λ all. (row : ℕ) → row < length ends.now
        → past_point (ends_of_row ends.now row).high < 2 ^ 128
        → Contains all.items (past_point (ends_of_row ends.now row).high)) }
    ensures len { IfOk result (λ all. length all.items ≤ 2 * length ends.now) }
{
    let mut all = Vec::with_capacity(alloc, 2 * ends.len())?;
    for range in ends {
        push_both(&mut all, low_point(range.low), past_point(range.high))?;
    }
    Ok(all)
}

/// The points of ranges.
pub(crate) fn points_of(alloc: Global, ends: &[Ends]) -> Result<Vec<u128>, NoMemory>
    requires { length ends.now ≤ MOST_ROWS }
    ensures { IfOk result (λ points. ArePointsOf ends.now points.items) }
{
    match all_points(alloc, ends) {
        Ok(all) => Ok(risen(all)),
        Err(_) => Err(NoMemory),
    }
}

/// The place of a number in a rising list that has it.
pub(crate) fn place_in(numbers: &[u128], number: u128) -> usize
    requires rises { IsStrictlyIncreasing numbers.now }
    requires there { Contains numbers.now number }
    ensures within { result < length numbers.now }
    ensures is { slice_index numbers.now result ≡ number }
{
    match numbers.binary_search(&number) {
        Ok(place) => place,
        Err(_) => unreachable!(),
    }
}
