// Rows by a key and a point.
ghost use Rattle.std.specs.Prelude.{◌≡◌, ◌+◌, ◌-◌, ◌<◌, ◌≤◌, ℕ};
ghost use Rattle.std.specs.Prelude.{None, List, IfOk, IfSome, MatchOption, length, slice_index};
ghost use Rattle.dict_schema.specs.declared.definition.Strategy.{Strategy as StrategyOf};
ghost use Rattle.dict_value.specs.FindByKey.{HasKeyAt, IsLeastPlace};
ghost use Rattle.dict_value.specs.declared.value.TheConstants.{MOST_ROWS};
ghost use Rattle.dict_value.specs.declared.value.Value.{Value};
ghost use Rattle.hashed_layout.specs.KeyTables.{IsKeyTableOf};
ghost use Rattle.range_layout.specs.FindByRange.{AreRowsWith, FindsByRange};
ghost use Rattle.range_layout.specs.Halves.{AreHalves, Rises};
ghost use Rattle.range_layout.specs.Kept.{AreFew, AreSpansOver, IsRangedOf, IsSpanOf, TellsIn};
ghost use Rattle.range_layout.specs.declared.ends.Ends.{Ends as EndsOf};

use crate::edges::place_behind;
use crate::ends::{Ends, point_of};
use crate::index::{Span, index_of};
use crate::paint::winners_of;
use crate::points::points_of;
use crate::ranks::ranks_of;
use crate::stretches::{borders_of, stretches_of};
use dict_schema::Strategy;
use dict_value::{Counted, Counter, KeyList, NoMemory};
use hashed_layout::Complex;
use std::alloc::Global;

/// The rows of each key as the points at which the taken row changes, and the row that is taken from each of
/// them on.
#[derive(Drop)]
pub struct Ranged<S> {
    keys: Complex,
    spans: Counted<Span, S>,
    edges: Counted<u128, S>,
    winners: Counted<u32, S>,
    ghost sound: { AreSpansOver spans edges winners },
}

/// The number of each row's key: the least place with it.
fn numbers_of(alloc: Global, table: &Complex, keys: &[KeyList]) -> Result<Vec<u32>, NoMemory>
    requires { IsKeyTableOf keys.now table.now.bytes table.now.entries table.now.cells.items }
    ensures len { IfOk result (λ numbers. length numbers.items ≡ length keys.now) }
    ensures least { IfOk result (λ numbers. (row : ℕ) (key : List Value) → HasKeyAt keys.now key row
        → IsLeastPlace keys.now key (slice_index numbers.items row)) }
{
    let Ok(mut numbers) = Vec::with_capacity(alloc, keys.len()) else {
        return Err(NoMemory);
    };
    for key in keys {
        let Some(number) = table.find(key) else {
            unreachable!()
        };
        if numbers.push(number).is_err() {
            return Err(NoMemory);
        }
    }
    Ok(numbers)
}

impl<S: Counter> Ranged<S> {
    /// The index of a list of keys, each with its range.
    pub fn build(
        alloc: Global,
        keys: &[KeyList],
        ends: &[Ends],
        strategy: Strategy,
    ) -> Result<Ranged<S>, NoMemory>
        requires rows { length keys.now ≤ MOST_ROWS }
        requires same { length ends.now ≡ length keys.now }
        ensures { IfOk result (λ ranged. IsRangedOf keys.now ends.now strategy
            ranged.keys ranged.spans ranged.edges ranged.winners) }
    {
        let table = Complex::build(alloc, keys)?;
        let number_list = numbers_of(alloc, &table, keys)?;
        let numbers = number_list.as_slice();
        let point_list = points_of(alloc, ends)?;
        let points = point_list.as_slice();
        let stretch_list = stretches_of(alloc, points, numbers, ends)?;
        let stretches = stretch_list.as_slice();
        let border_list = borders_of(alloc, stretches, points.len())?;
        let borders = border_list.as_slice();
        let rank_list = ranks_of(alloc, strategy, ends, stretches)?;
        let ranks = rank_list.as_slice();
        let taken = winners_of(alloc, borders, stretches, points.len(), ranks)?;
        let index = index_of(alloc, points, borders, taken.as_slice(), keys.len())?;
        Ok(Ranged {
            keys: table,
            spans: Counted::from_list(index.spans),
            edges: Counted::from_list(index.edges),
            winners: Counted::from_list(index.winners),
        })
    }

    /// The row with the key whose range holds the point, of several the one that no other precedes: in steps of
    /// which two to their number is at most sixteen times the rows with the key, and without taking memory.
    pub fn find(&self, key: &KeyList, point: i128, steps: &mut S) -> Option<u32>
        ensures found { (keys : List (List Value)) (ends : List EndsOf) (strategy : StrategyOf)
            → IsRangedOf keys ends strategy self.now.keys self.now.spans self.now.edges self.now.winners
            → FindsByRange keys ends strategy key.now point result }
        ensures steps { (keys : List (List Value)) (ends : List EndsOf) (strategy : StrategyOf)
            → IsRangedOf keys ends strategy self.now.keys self.now.spans self.now.edges self.now.winners
            → (rows : List ℕ) → AreRowsWith keys key.now rows
            → (s : ℕ) × AreFew (length rows) s × (S.amount steps.new ≤ S.amount steps.old + s) }
    {
        let Some(span) = self.span_of(key, steps) else {
            return None;
        };
        let winner = self.winner_in(span, point_of(point), steps);
        if winner == 0 { None } else { Some(winner - 1) }
    }

    /// The span of a key.
    #[inline(always)]
    fn span_of(&self, key: &KeyList, steps: &mut S) -> Option<Span>
        ensures order { IfSome result (λ span. span.start ≤ span.end) }
        ensures within { IfSome result (λ span. span.end ≤ length self.now.edges) }
        ensures found { (keys : List (List Value)) (ends : List EndsOf) (strategy : StrategyOf)
            → IsRangedOf keys ends strategy self.now.keys self.now.spans self.now.edges self.now.winners
            → MatchOption result ((place : ℕ) → ¬ (HasKeyAt keys key.now place))
            (λ span. ((place : ℕ) × HasKeyAt keys key.now place)
            × IsSpanOf keys ends strategy self.now.edges self.now.winners key.now span) }
        ensures none { result ≡ None → S.amount steps.new ≤ S.amount steps.old }
        ensures steps { S.amount steps.new ≤ S.amount steps.old + 1 }
    {
        let place = self.keys.find(key)? as usize;
        if place < self.spans.len() {
            Some(self.spans.at(place, steps))
        } else {
            None
        }
    }

    /// One more than the row that is taken at a point, or 0.
    #[inline(always)]
    fn winner_in(&self, span: Span, point: u128, steps: &mut S) -> u32
        requires order { span.start ≤ span.end }
        requires within { span.end ≤ length self.now.edges }
        ensures told { Rises self.now.edges span.start span.end
            → TellsIn self.now.edges self.now.winners span point result }
        ensures steps { (s : ℕ) × AreHalves (span.end - span.start) s
            × (S.amount steps.new ≤ S.amount steps.old + (s + 1)) }
    {
        let start = span.start as usize;
        let place = place_behind(&self.edges, start, span.end as usize, point, steps);
        if place == start {
            return 0;
        }
        self.winners.at(place - 1, steps)
    }
}
