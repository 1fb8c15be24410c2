// Hierarchies.
ghost use Rattle.std.specs.Prelude.{◌≡◌, ◌≤◌, length};
ghost use Rattle.dict_value.specs.declared.value.TheConstants.{MOST_ROWS};

use crate::{Hier, Parent};
use dict_value::{ListOf, MOST_ROWS, NoMemory};
use std::alloc::Global;
use std::test::Fail;

/// A question, and its answer.
#[derive(Clone, Copy)]
enum Ask {
    Chain(u64),
    Children(u64),
    Descendants(u64, u32),
}

static KEYS: [u64; 12] = [1, 2, 3, 4, 5, 6, 7, 8, 9, 10, 4, 11];

/// The parents: a tree below a key without a row, a cycle of two, one of one, a chain that enters the first
/// cycle, a top, a second row of a key, and a parent without a row that is the greatest key.
static PARENTS: [Parent; 12] = [
    Parent::Of(0),
    Parent::Of(1),
    Parent::Of(1),
    Parent::Of(2),
    Parent::Of(6),
    Parent::Of(5),
    Parent::Of(7),
    Parent::Of(5),
    Parent::Of(8),
    Parent::Top,
    Parent::Of(3),
    Parent::Of(u64::MAX),
];

static ASKED: [(Ask, &[u64]); 31] = [
    (Ask::Chain(4), &[4, 2, 1]),
    (Ask::Chain(0), &[]),
    (Ask::Chain(5), &[5, 6]),
    (Ask::Chain(6), &[6, 5]),
    (Ask::Chain(7), &[7]),
    (Ask::Chain(9), &[9, 8, 5, 6]),
    (Ask::Chain(10), &[10]),
    (Ask::Chain(11), &[11]),
    (Ask::Chain(u64::MAX), &[]),
    (Ask::Chain(12), &[]),
    (Ask::Children(0), &[1]),
    (Ask::Children(1), &[2, 3]),
    (Ask::Children(2), &[4]),
    (Ask::Children(3), &[]),
    (Ask::Children(5), &[6, 8]),
    (Ask::Children(7), &[]),
    (Ask::Children(12), &[]),
    (Ask::Children(u64::MAX), &[11]),
    (Ask::Descendants(1, 0), &[2, 3, 4]),
    (Ask::Descendants(1, 1), &[2, 3]),
    (Ask::Descendants(1, 2), &[4]),
    (Ask::Descendants(1, 3), &[]),
    (Ask::Descendants(1, u32::MAX), &[]),
    (Ask::Descendants(0, 0), &[1, 2, 3, 4]),
    (Ask::Descendants(0, 3), &[4]),
    (Ask::Descendants(5, 0), &[6, 8, 9]),
    (Ask::Descendants(6, 0), &[5, 8, 9]),
    (Ask::Descendants(6, 2), &[8]),
    (Ask::Descendants(7, 0), &[]),
    (Ask::Descendants(8, 0), &[9]),
    (Ask::Descendants(12, 0), &[]),
];

/// Whether the second key is in the chain of the first.
static WITHIN: [(u64, u64, bool); 10] = [
    (4, 1, true),
    (1, 4, false),
    (4, 4, true),
    (4, 0, false),
    (4, 3, false),
    (5, 6, true),
    (9, 6, true),
    (6, 9, false),
    (0, 0, false),
    (7, 7, true),
];

fn answer(alloc: Global, hier: &Hier, ask: Ask) -> Result<ListOf<u64>, NoMemory> {
    match ask {
        Ask::Chain(key) => hier.chain(alloc, key),
        Ask::Children(key) => hier.children(alloc, key),
        Ask::Descendants(key, level) => hier.descendants(alloc, key, level),
    }
}

#[test]
fn small(rt: HostRuntime) -> Result<(), Fail> {
    let hier = Hier::build(rt.alloc(), &KEYS, &PARENTS)?;
    for (place, (ask, want)) in ASKED.iter().enumerate() {
        let got = answer(rt.alloc(), &hier, *ask)?;
        assert_eq!(rt; got.as_slice(), *want, "at {place}");
    }
    for (key, ancestor, want) in WITHIN {
        assert_eq!(rt; hier.is_in(key, ancestor), want, "at {key} and {ancestor}");
    }
    let none = Hier::build(rt.alloc(), &[], &[])?;
    assert!(rt; none.chain(rt.alloc(), 0)?.is_empty());
    assert!(rt; !none.is_in(0, 0));
    Ok(())
}

/// The keys below a count, each with the next one as its parent, or all with the count, or in one ring.
#[derive(Clone, Copy)]
enum Large {
    Chain,
    Star,
    Ring,
}

fn made(alloc: Global, form: Large, count: u64) -> Result<Hier, Fail> {
    let mut keys = Vec::new(alloc);
    let mut parents = Vec::new(alloc);
    for key in 0..count {
        keys.push(key)?;
        parents.push(match form {
            Large::Chain => Parent::Of(key + 1),
            Large::Star => Parent::Of(count),
            Large::Ring if key + 1 == count => Parent::Of(0),
            Large::Ring => Parent::Of(key + 1),
        })?;
    }
    if keys.len() > MOST_ROWS || parents.len() != keys.len() {
        return Err("too many".into());
    }
    Ok(Hier::build(alloc, keys.as_slice(), parents.as_slice())?)
}

/// The lengths of the chain of 0, of the children of the count and of its descendants, and whether the last
/// key is in the chain of 0. They would take hours if members were met again and again.
fn lengths(alloc: Global, form: Large, count: u64) -> Result<(usize, usize, usize, bool), Fail> {
    let hier = made(alloc, form, count)?;
    Ok((
        hier.chain(alloc, 0)?.len(),
        hier.children(alloc, count)?.len(),
        hier.descendants(alloc, count, 0)?.len(),
        hier.is_in(0, count.saturating_sub(1)),
    ))
}

#[test]
fn a_million(rt: HostRuntime) -> Result<(), Fail> {
    let n = 1_000_000;
    for (form, want) in [
        (Large::Chain, (n, 1, n, true)),
        (Large::Star, (1, n, n, false)),
        (Large::Ring, (n, 0, 0, true)),
    ] {
        assert_eq!(rt; lengths(rt.alloc(), form, 1_000_000)?, want);
    }
    Ok(())
}
