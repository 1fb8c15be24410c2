// The ranges of rows as stretches of one axis, on which the points of each key stand behind those of the one before.
ghost use Rattle.std.specs.Prelude.{◌≡◌, ◌+◌, ◌*◌, ◌^◌, ◌<◌, ◌≤◌, ℕ, Contains, IfOk, MatchOption, length, slice_index};
ghost use Rattle.dict_value.specs.declared.value.TheConstants.{MOST_ROWS};
ghost use Rattle.range_layout.specs.Stretches.{AreBordersOf, AreStretchesOf, IsBorder, IsStretchOf};
ghost use Rattle.range_layout.specs.Stretches.{end_of, stretch_at, stretch_start};
ghost use Rattle.range_layout.specs.Points.{ArePointsOf, low_point, nth_point, past_point, ends_of_row};
ghost use Rattle.std.specs.List.Sorted.{IsStrictlyIncreasing};

use crate::ends::{Ends, low_point, past_point};
use crate::points::{place_in, push_both, risen};
use dict_value::NoMemory;
use std::alloc::{AllocError, Global};

/// The number of a row's key, and the places of the first point in its range and of the first one behind it.
#[derive(Clone, Copy, Debug, PartialEq, Eq)]
pub(crate) struct Stretch {
    pub(crate) number: u32,
    pub(crate) low: u32,
    pub(crate) high: u32,
}

/// Where a stretch begins.
pub(crate) fn start_of(stretch: Stretch) -> u128
    ensures { result ≡ stretch_start stretch }
{
    (u128::from(stretch.number) << 32) + u128::from(stretch.low)
}

/// The first border behind a stretch.
pub(crate) fn end_of(stretch: Stretch) -> u128
    ensures { result ≡ end_of stretch }
{
    (u128::from(stretch.number) << 32) + u128::from(stretch.high)
}

/// The stretch of a row.
fn stretch_of(points: &[u128], number: u32, range: &Ends) -> Stretch
    requires rises { IsStrictlyIncreasing points.now }
    requires few { length points.now < 2 ^ 32 }
    requires low { Contains points.now (low_point range.now.low) }
    requires past { past_point range.now.high < 2 ^ 128 → Contains points.now (past_point range.now.high) }
    ensures { IsStretchOf points.now number range.now result }
{
    let low = place_in(points, low_point(range.low));
    let high = match past_point(range.high) {
        Some(past) => place_in(points, past),
        None => points.len(),
    };
    Stretch {
        number,
        low: low as u32,
        high: high as u32,
    }
}

/// The stretch of each row.
pub(crate) fn stretches_of(
    alloc: Global,
    points: &[u128],
    numbers: &[u32],
    ends: &[Ends],
) -> Result<Vec<Stretch>, NoMemory>
    requires rows { length ends.now ≤ MOST_ROWS }
    requires same { length numbers.now ≡ length ends.now }
    requires points { ArePointsOf ends.now points.now }
    ensures { IfOk result (λ stretches. AreStretchesOf points.now numbers.now ends.now stretches.items) }
{
    let Ok(mut stretches) = Vec::with_capacity(alloc, ends.len()) else {
        return Err(NoMemory);
    };
    for row in 0..ends.len() {
        let stretch = stretch_of(points, numbers[row], &ends[row]);
        if stretches.push(stretch).is_err() {
            return Err(NoMemory);
        }
    }
    Ok(stretches)
}

/// Where a stretch ends, if that is one of so many points.
fn inner_end_of(stretch: Stretch, count: usize) -> Option<u128>
    ensures { MatchOption result (count ≤ stretch.high) (λ end. (stretch.high < count) × (end ≡ end_of stretch)) }
{
    if (stretch.high as usize) < count {
        Some(end_of(stretch))
    } else {
        None
    }
}

/// Where stretches begin and end, in one list; an end without a point is left out.
fn all_borders(alloc: Global, stretches: &[Stretch], count: usize) -> Result<Vec<u128>, AllocError>
    requires { length stretches.now ≤ MOST_ROWS }
    ensures each { IfOk result (λ all. (row border : ℕ) → row < length stretches.now
        → IsBorder stretches.now count row border → Contains all.items border) }
    ensures origin { IfOk result (λ all. (border : ℕ) → Contains all.items border
        → (row : ℕ) × (row < length stretches.now) × IsBorder stretches.now count row border) }
    ensures len { IfOk result (λ all. length all.items ≤ 2 * length stretches.now) }
{
    let mut all = Vec::with_capacity(alloc, 2 * stretches.len())?;
    for stretch in stretches {
        push_both(&mut all, start_of(*stretch), inner_end_of(*stretch, count))?;
    }
    Ok(all)
}

/// Where stretches begin and end, rising.
pub(crate) fn borders_of(
    alloc: Global,
    stretches: &[Stretch],
    count: usize,
) -> Result<Vec<u128>, NoMemory>
    requires { length stretches.now ≤ MOST_ROWS }
    ensures { IfOk result (λ borders. AreBordersOf stretches.now count borders.items) }
{
    match all_borders(alloc, stretches, count) {
        Ok(all) => Ok(risen(all)),
        Err(_) => Err(NoMemory),
    }
}
