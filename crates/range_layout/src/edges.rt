// The place of a point among rising edges, by halves.
ghost use Rattle.std.specs.Prelude.{◌≡◌, ◌+◌, ◌-◌, ◌<◌, ◌≤◌, ℕ, length};
ghost use Rattle.range_layout.specs.Halves.{AreHalves, DividesEdges, Rises};

use dict_value::{Counted, Counter};

/// The place behind the last edge that is at most the point, from one place to another.
#[inline(always)]
pub(crate) fn place_behind<S: Counter>(
    edges: &Counted<u128, S>,
    start: usize,
    end: usize,
    point: u128,
    steps: &mut S,
) -> usize
    requires order { start ≤ end }
    requires within { end ≤ length edges.now }
    ensures after { start ≤ result }
    ensures before { result ≤ end }
    ensures divides { Rises edges.now start end → DividesEdges edges.now start end point result }
    ensures steps { (s : ℕ) × AreHalves (end - start) s × (S.amount steps.new ≤ S.amount steps.old + s) }
{
    let mut low = start;
    let mut high = end;
    while low < high {
        let middle = low + (high - low) / 2;
        if edges.at(middle, steps) <= point {
            low = middle + 1;
        } else {
            high = middle;
        }
    }
    low
}
