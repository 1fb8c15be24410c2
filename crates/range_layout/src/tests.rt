// Ranges of one key and of several.
use crate::{End, Ends, Ranged};
use dict_schema::Strategy;
use dict_value::{KeyList, ListOf, MOST_ROWS, Tally, Uncounted, Value};
use std::alloc::Global;
use std::test::Fail;

/// A row: its key, its start and its end.
type TestRow = (u64, End, End);

/// Prices by date, with an open start and a start above its end.
static PRICES: [TestRow; 4] = [
    (1, End::At(10), End::At(20)),
    (1, End::At(10), End::At(30)),
    (1, End::At(15), End::Free),
    (1, End::At(40), End::At(35)),
];

/// Ends at the edges of the type, negative ones, equal ranges, ranges within ranges, and keys with rows between each
/// other.
static EDGES: [TestRow; 16] = [
    (1, End::At(0), End::At(0)),
    (2, End::Free, End::Free),
    (3, End::At(i128::MIN), End::At(i128::MAX)),
    (1, End::At(-5), End::At(-3)),
    (3, End::Free, End::At(i128::MAX)),
    (3, End::At(i128::MIN), End::Free),
    (1, End::At(-5), End::At(-3)),
    (4, End::At(i128::MAX), End::At(i128::MAX)),
    (4, End::At(i128::MIN), End::At(i128::MIN)),
    (5, End::At(1), End::At(100)),
    (5, End::At(20), End::At(30)),
    (5, End::At(25), End::At(26)),
    (5, End::At(25), End::At(25)),
    (6, End::At(1), End::At(0)),
    (6, End::Free, End::At(7)),
    (6, End::At(7), End::Free),
];

/// A key, a point, and the row by the least start and by the greatest.
type Question = (u64, i128, Option<u32>, Option<u32>);

static ASKED_PRICES: [Question; 10] = [
    (1, 9, None, None),
    (1, 10, Some(0), Some(1)),
    (1, 12, Some(0), Some(1)),
    (1, 20, Some(0), Some(2)),
    (1, 21, Some(1), Some(2)),
    (1, 31, Some(2), Some(2)),
    (1, 37, Some(2), Some(2)),
    (1, i128::MAX, Some(2), Some(2)),
    (1, i128::MIN, None, None),
    (2, 10, None, None),
];

static ASKED_EDGES: [Question; 38] = [
    (1, 0, Some(0), Some(0)),
    (1, 1, None, None),
    (1, -1, None, None),
    (1, -2, None, None),
    (1, -3, Some(3), Some(3)),
    (1, -4, Some(3), Some(3)),
    (1, -5, Some(3), Some(3)),
    (1, -6, None, None),
    (2, 0, Some(1), Some(1)),
    (2, i128::MIN, Some(1), Some(1)),
    (2, i128::MAX, Some(1), Some(1)),
    (3, 0, Some(4), Some(5)),
    (3, i128::MIN, Some(4), Some(5)),
    (3, i128::MAX, Some(4), Some(5)),
    (4, i128::MAX, Some(7), Some(7)),
    (4, i128::MAX - 1, None, None),
    (4, i128::MIN, Some(8), Some(8)),
    (4, i128::MIN + 1, None, None),
    (4, 0, None, None),
    (5, 0, None, None),
    (5, 1, Some(9), Some(9)),
    (5, 19, Some(9), Some(9)),
    (5, 20, Some(9), Some(10)),
    (5, 24, Some(9), Some(10)),
    (5, 25, Some(9), Some(11)),
    (5, 26, Some(9), Some(11)),
    (5, 27, Some(9), Some(10)),
    (5, 31, Some(9), Some(9)),
    (5, 100, Some(9), Some(9)),
    (5, 101, None, None),
    (6, 0, Some(14), Some(14)),
    (6, 1, Some(14), Some(14)),
    (6, 7, Some(14), Some(15)),
    (6, 8, Some(15), Some(15)),
    (6, i128::MIN, Some(14), Some(14)),
    (6, i128::MAX, Some(15), Some(15)),
    (0, 0, None, None),
    (7, 0, None, None),
];

fn key_of(alloc: Global, number: u64) -> Result<KeyList, Fail> {
    let mut key = ListOf::new(alloc);
    key.push(Value::U(number))?;
    Ok(key)
}

/// The keys and the ranges of rows.
fn lists_of(alloc: Global, rows: &[TestRow]) -> Result<(Vec<KeyList>, Vec<Ends>), Fail> {
    let mut keys = Vec::new(alloc);
    let mut ends = Vec::new(alloc);
    for (key, low, high) in rows {
        keys.push(key_of(alloc, *key)?)?;
        ends.push(Ends {
            low: *low,
            high: *high,
        })?;
    }
    if keys.len() > MOST_ROWS || ends.len() != keys.len() {
        return Err("too many".into());
    }
    Ok((keys, ends))
}

/// Both indexes of rows.
fn built(alloc: Global, rows: &[TestRow]) -> Result<(Ranged<Uncounted>, Ranged<Uncounted>), Fail> {
    let (keys, ends) = lists_of(alloc, rows)?;
    if keys.len() > MOST_ROWS || ends.len() != keys.len() {
        return Err("too many".into());
    }
    Ok((
        Ranged::build(alloc, keys.as_slice(), ends.as_slice(), Strategy::Min)?,
        Ranged::build(alloc, keys.as_slice(), ends.as_slice(), Strategy::Max)?,
    ))
}

/// The first question that is answered otherwise, with its answers.
fn other_answer(
    alloc: Global,
    rows: &[TestRow],
    asked: &[Question],
) -> Result<Option<Question>, Fail> {
    let (least, greatest) = built(alloc, rows)?;
    for (number, point, min, max) in asked {
        let key = key_of(alloc, *number)?;
        let least_row = least.find(&key, *point, &mut Uncounted);
        let greatest_row = greatest.find(&key, *point, &mut Uncounted);
        if (least_row, greatest_row) != (*min, *max) {
            return Ok(Some((*number, *point, least_row, greatest_row)));
        }
    }
    Ok(None)
}

#[test]
fn rows(rt: HostRuntime) -> Result<(), Fail> {
    assert_eq!(rt; other_answer(rt.alloc(), &PRICES, &ASKED_PRICES)?, None);
    assert_eq!(rt; other_answer(rt.alloc(), &EDGES, &ASKED_EDGES)?, None);
    assert_eq!(rt; other_answer(rt.alloc(), &[], &[(1, 0, None, None)])?, None);
    Ok(())
}

/// So many rows of one key: each begins at its own number, and all end behind the last of them; or each lies
/// within the one before.
fn nested(alloc: Global, count: u32, within: bool) -> Result<(Vec<KeyList>, Vec<Ends>), Fail> {
    let mut keys = Vec::with_capacity(alloc, count as usize)?;
    let mut ends = Vec::with_capacity(alloc, count as usize)?;
    for row in 0..count {
        let start = i128::from(row);
        let end = i128::from(count);
        keys.push(key_of(alloc, 1)?)?;
        ends.push(Ends {
            low: End::At(start),
            high: End::At(if within { 2 * end - start } else { end }),
        })?;
    }
    Ok((keys, ends))
}

/// The most steps that a find takes at a point among so many rows of one key, and whether each row is taken by
/// the greatest start at its own.
fn steps_of(alloc: Global, count: u32, within: bool) -> Result<(u64, bool), Fail> {
    let (keys, ends) = nested(alloc, count, within)?;
    if keys.len() > MOST_ROWS || ends.len() != keys.len() {
        return Err("too many".into());
    }
    let ranged = Ranged::build(alloc, keys.as_slice(), ends.as_slice(), Strategy::Max)?;
    let key = key_of(alloc, 1)?;
    let mut most = 0;
    let mut each = true;
    for row in 0..count {
        let mut steps = Tally::new();
        let found = ranged.find(&key, i128::from(row), &mut steps);
        each = each && found == Some(row);
        most = most.max(steps.steps());
    }
    Ok((most, each))
}

/// How many rows, whether each lies within the one before, and the most steps of a find.
static STEPS: [(u32, bool, u64); 7] = [
    (1, true, 4),
    (1, false, 4),
    (5, true, 6),
    (1000, true, 13),
    (1000, false, 13),
    (300_000, true, 22),
    (300_000, false, 22),
];

#[test]
fn steps(rt: HostRuntime) -> Result<(), Fail> {
    for (count, within, most) in STEPS {
        let (steps, each) = steps_of(rt.alloc(), count, within)?;
        assert!(rt; each, "at {count}");
        assert!(rt; steps <= most, "{steps} at {count}");
    }
    Ok(())
}
