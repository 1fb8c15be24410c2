// The points at which the taken row of a key changes.
ghost use Rattle.std.specs.Prelude.{◌≡◌, ◌≢◌, ◌+◌, ◌-◌, ◌*◌, ◌^◌, ◌<◌, ◌≤◌, ℕ, IfOk, OnOk, length, slice_index};
ghost use Rattle.dict_value.specs.declared.value.TheConstants.{MOST_ROWS};
ghost use Rattle.range_layout.specs.steps.Filling.{AddsEdge, AreBorders, AreEdgesOf};
ghost use Rattle.range_layout.specs.steps.Filling.{AreKeyBorders, AreSpansIn, KeepsFirst, border_number};

use dict_value::{ListOf, NoMemory};
use std::alloc::Global;

/// Where the edges of a key stand.
#[derive(Clone, Copy, Debug, PartialEq, Eq)]
pub(crate) struct Span {
    pub(crate) start: u32,
    pub(crate) end: u32,
}

/// The span of each key, the edges of all keys, and one more than the row that is taken from each edge on, or 0.
#[derive(Drop)]
pub(crate) struct Index {
    pub(crate) spans: ListOf<Span>,
    pub(crate) edges: ListOf<u128>,
    pub(crate) winners: ListOf<u32>,
}

/// The last of the winners that stand from a place on, or 0.
fn last_from(winners: &[u32], start: usize) -> u32
    requires { start ≤ length winners.now }
    ensures none { start ≡ length winners.now → result ≡ 0 }
    ensures some { start < length winners.now → result ≡ slice_index winners.now (length winners.now - 1) }
{
    if winners.len() == start {
        0
    } else {
        winners[winners.len() - 1]
    }
}

/// Appends an edge to those that stand from a place on, if the row that is taken changes there.
fn add_edge(
    start: usize,
    point: u128,
    winner: u32,
    edges: &mut ListOf<u128>,
    winners: &mut ListOf<u32>,
) -> Result<(), NoMemory>
    requires { start ≤ length winners.old }
    ensures { OnOk result (AddsEdge start point winner edges.old winners.old edges.new winners.new) }
{
    if winner == last_from(winners.as_slice(), start) {
        return Ok(());
    }
    edges.push(point)?;
    winners.push(winner)
}

/// Appends the edges of a key whose first border, if it has any, is at a place, and answers the place behind its
/// borders.
fn fill_span(
    points: &[u128],
    borders: &[u128],
    taken: &[u32],
    number: usize,
    from: usize,
    edges: &mut ListOf<u128>,
    winners: &mut ListOf<u32>,
) -> Result<usize, NoMemory>
    requires borders { AreBorders points.now borders.now }
    requires taken { length taken.now ≡ length borders.now }
    requires from { from ≤ length borders.now }
    requires before { (i : ℕ) → i < from → border_number borders.now i < number }
    requires behind { (i : ℕ) → from ≤ i → i < length borders.now → number ≤ border_number borders.now i }
    requires same { length winners.old ≡ length edges.old }
    ensures edges { IfOk result (λ to. AreEdgesOf points.now borders.now taken.now from to edges.new winners.new
        (length edges.old) (length edges.new)) }
    ensures borders { IfOk result (λ to. AreKeyBorders borders.now number from to) }
    ensures behind { IfOk result (λ to. (i : ℕ) → to ≤ i → i < length borders.now
        → number + 1 ≤ border_number borders.now i) }
    ensures same { IfOk result (λ _. length winners.new ≡ length edges.new) }
    ensures kept { IfOk result (λ _. KeepsFirst edges.old edges.new × KeepsFirst winners.old winners.new) }
{
    let start = edges.len();
    let mut at = from;
    while at < borders.len() && borders[at] >> 32 == number as u128 {
        let point = points[(borders[at] % (1 << 32)) as usize];
        add_edge(start, point, taken[at], edges, winners)?;
        at += 1;
    }
    Ok(at)
}

/// The index of so many keys.
pub(crate) fn index_of(
    alloc: Global,
    points: &[u128],
    borders: &[u128],
    taken: &[u32],
    count: usize,
) -> Result<Index, NoMemory>
    requires borders { AreBorders points.now borders.now }
    requires taken { length taken.now ≡ length borders.now }
    requires small { length borders.now < 2 ^ 32 }
    requires numbers { (i : ℕ) → i < length borders.now → border_number borders.now i < count }
    ensures { IfOk result (λ index. AreSpansIn points.now borders.now taken.now count
        index.spans index.edges index.winners) }
{
    let mut spans = ListOf::with_room(alloc, count)?;
    let mut edges = ListOf::new(alloc);
    let mut winners = ListOf::new(alloc);
    let mut at = 0;
    for number in 0..count {
        let start = edges.len();
        at = fill_span(points, borders, taken, number, at, &mut edges, &mut winners)?;
        spans.push(Span {
            start: start as u32,
            end: edges.len() as u32,
        })?;
    }
    Ok(Index {
        spans,
        edges,
        winners,
    })
}
