// Replies of dictionaries whose rows are fetched by key.
use crate::tests::fetching::{Fetching, first_wrong, keyed_definition, keyed_reply};
use crate::tests::making::{FLAT, NUMBER, Sketch, Sketched, TEXT, is_text, lookup_of};
use dict_schema::{CacheSet, Layout};
use dict_value::{Bytes, ColType, Format};
use packed_rows::Cell;
use std::alloc::Global;
use std::test::Fail;

const CACHED: Sketch = Sketch {
    layout: Layout::Cache(CacheSet {
        cells: 4,
        expired: false,
        queue: 100_000,
    }),
    ..FLAT
};

static SINGLE: Fetching = Fetching {
    sketch: CACHED,
    asked: &[
        (
            100,
            (b"dictGet\td\tx\t1", &[], b"OK\tt100\ta"),
            &[(100, Some(&[Cell::U(1), Cell::S(b"a")]))],
        ),
        (
            109,
            (b"dictGet\td\tx\t1", &[], b"OK\tt100\ta"),
            &[(100, Some(&[Cell::U(1), Cell::S(b"a")]))],
        ),
        (
            110,
            (b"dictGet\td\tx\t2", &[], b"OK\tt110\t"),
            &[(110, None)],
        ),
        (111, (b"dictHas\td\t2", &[], b"OK\tt110\t0"), &[(110, None)]),
        (
            111,
            (b"dictHas\td\t1", &[], b"OK\tt111\t1"),
            &[(111, Some(&[Cell::U(1), Cell::S(b"a")]))],
        ),
        (
            112,
            (b"dictGetOrDefault\td\tx\tzz\t2", &[], b"OK\tt110\tzz"),
            &[(110, None)],
        ),
        (
            112,
            (b"dictGetOrDefault\td\tx\tzz\t1", &[], b"OK\tt111\ta\\tb"),
            &[(111, Some(&[Cell::U(1), Cell::S(b"a\tb")]))],
        ),
        (
            112,
            (b"dictGetOrNull\td\tx\t2", &[], b"OK\tt110\t\\N"),
            &[(110, None)],
        ),
    ],
};

static BLOCKS: Fetching = Fetching {
    sketch: CACHED,
    asked: &[
        (
            100,
            (
                b"many\t3\tdictGet\td\tx",
                &[b"1", b"2", b"3"],
                b"OK\tt100\t3\nt100\ta\nt100\tb\nt100\tc",
            ),
            &[
                (100, Some(&[Cell::U(1), Cell::S(b"a")])),
                (100, Some(&[Cell::U(2), Cell::S(b"b")])),
                (100, Some(&[Cell::U(3), Cell::S(b"c")])),
            ],
        ),
        (
            112,
            (
                b"many\t2\tdictGetOrNull\td\tx",
                &[b"1", b"1"],
                b"OK\tt112\t2\nt100\ta\nt112\t\\N",
            ),
            &[(100, Some(&[Cell::U(1), Cell::S(b"a")])), (112, None)],
        ),
        (
            112,
            (b"many\t1\tdictHas\td", &[b"1"], b"OK\tt112\t1\nt100\t1"),
            &[(100, Some(&[Cell::U(1), Cell::S(b"a")]))],
        ),
        (112, (b"many\t0\tdictGet\td\tx", &[], b"OK\tt112\t0"), &[]),
    ],
};

/// A number behind the key, with another default.
const COUNTED: Sketch = Sketch {
    columns: &[
        Sketched {
            name: b"n",
            default: Cell::U(9),
            ..NUMBER
        },
        NUMBER,
        Sketched {
            nullable: true,
            default: Cell::Null,
            ..TEXT
        },
    ],
    keys: &[1],
    layout: Layout::Direct,
    ..FLAT
};

static REFUSED: Fetching = Fetching {
    sketch: COUNTED,
    asked: &[
        (1, (b"dictGetHierarchy\td\t1", &[], b"ERR\t6"), &[]),
        (1, (b"dictGetDescendants\td\tq\t0", &[], b"ERR\t6"), &[]),
        (1, (b"dictGet\td\tno\tq", &[], b"ERR\t3"), &[]),
        (1, (b"dictGet\td\tid\t1", &[], b"ERR\t3"), &[]),
        (1, (b"dictGetOrDefault\td\tno\tzz\tq", &[], b"ERR\t3"), &[]),
        (
            1,
            (b"dictGetOrDefault\td\tn\tzz\tq", &[], b"ERR\t10\t0"),
            &[],
        ),
        (
            1,
            (b"dictGetOrDefault\td\tn\t\\N\t1", &[], b"ERR\t10\t0"),
            &[],
        ),
        (1, (b"dictGet\td\tn\tq", &[], b"ERR\t4\t1"), &[]),
        (1, (b"dictGet\td\tn\t1\t2", &[], b"ERR\t4\t1"), &[]),
        (1, (b"dictHas\td\t\\N", &[], b"ERR\t4\t1"), &[]),
        (
            1,
            (
                b"many\t3\tdictHas\td",
                &[b"1", b"18446744073709551616", b"q"],
                b"ERR\t4\t2",
            ),
            &[],
        ),
    ],
};

static WITH_KEYS: Fetching = Fetching {
    sketch: COUNTED,
    asked: &[
        (
            1,
            (b"dictGet\td\tn\t7", &[], b"OK\tt1\t5"),
            &[(1, Some(&[Cell::U(7), Cell::U(5), Cell::Null]))],
        ),
        (
            1,
            (b"dictGet\td\tx\t7", &[], b"OK\tt1\t\\N"),
            &[(1, Some(&[Cell::U(7), Cell::U(5), Cell::Null]))],
        ),
        (1, (b"dictGet\td\tn\t8", &[], b"OK\tt1\t9"), &[(1, None)]),
        (1, (b"dictGet\td\tx\t8", &[], b"OK\tt1\t\\N"), &[(1, None)]),
        (
            1,
            (b"dictGetOrDefault\td\tn\t+07\t8", &[], b"OK\tt1\t7"),
            &[(1, None)],
        ),
    ],
};

/// The same, whose fetched rows have no key.
const IMPLICIT: Sketch = Sketch {
    implicit: true,
    ..COUNTED
};

static WITHOUT_KEYS: Fetching = Fetching {
    sketch: IMPLICIT,
    asked: &[
        (
            1,
            (b"dictGet\td\tn\t7", &[], b"OK\tt1\t5"),
            &[(1, Some(&[Cell::U(5), Cell::S(b"f")]))],
        ),
        (
            1,
            (b"dictGet\td\tx\t7", &[], b"OK\tt1\tf"),
            &[(1, Some(&[Cell::U(5), Cell::S(b"f")]))],
        ),
    ],
};

/// Keys of a text and a small number.
const COMPLEX: Sketch = Sketch {
    columns: &[
        Sketched { name: b"a", ..TEXT },
        Sketched {
            name: b"b",
            base: ColType::UInt8,
            ..NUMBER
        },
        TEXT,
    ],
    keys: &[0, 1],
    layout: Layout::ComplexDirect,
    ..FLAT
};

static LISTS: Fetching = Fetching {
    sketch: COMPLEX,
    asked: &[
        (
            1,
            (b"dictGet\td\tx\t\t5", &[], b"OK\tt1\te"),
            &[(1, Some(&[Cell::S(b""), Cell::U(5), Cell::S(b"e")]))],
        ),
        (1, (b"dictGet\td\tx\t5", &[], b"ERR\t4\t1"), &[]),
        (1, (b"dictGet\td\tx\ta\t256", &[], b"ERR\t4\t1"), &[]),
        (1, (b"dictGet\td\tb\t\t5", &[], b"ERR\t3"), &[]),
    ],
};

/// A key that is one text.
const TEXT_KEY: Sketch = Sketch {
    columns: &[Sketched { name: b"a", ..TEXT }, TEXT],
    keys: &[0],
    layout: Layout::ComplexDirect,
    ..FLAT
};

const CSV_KEY: Sketch = Sketch {
    format: Format::Csv,
    ..TEXT_KEY
};

/// A key that is a piece of a request, repeated, and whether it can be sent.
struct Long {
    sketch: Sketch,
    piece: &'static [u8],
    count: usize,
    sent: bool,
}

/// With its line feed a key's row has at most 32,768 bytes.
static LONG: [Long; 6] = [
    Long {
        sketch: TEXT_KEY,
        piece: b"a",
        count: 32_767,
        sent: true,
    },
    Long {
        sketch: TEXT_KEY,
        piece: b"a",
        count: 32_768,
        sent: false,
    },
    Long {
        sketch: TEXT_KEY,
        piece: b"\\t",
        count: 16_383,
        sent: true,
    },
    Long {
        sketch: TEXT_KEY,
        piece: b"\\t",
        count: 16_384,
        sent: false,
    },
    Long {
        sketch: CSV_KEY,
        piece: b"\"",
        count: 16_382,
        sent: true,
    },
    Long {
        sketch: CSV_KEY,
        piece: b"\"",
        count: 16_383,
        sent: false,
    },
];

/// A text and a piece behind it, repeated.
pub(super) fn repeated(
    alloc: Global,
    front: &[u8],
    piece: &[u8],
    count: usize,
) -> Result<Bytes, Fail> {
    let mut text = Bytes::copy_of(alloc, front)?;
    for _ in 0..count {
        text.extend(piece)?;
    }
    Ok(text)
}

/// Whether a long key is refused, or not, as it should be.
fn is_judged(alloc: Global, long: &Long) -> Result<bool, Fail> {
    let d = keyed_definition(alloc, &long.sketch)?;
    let first = repeated(alloc, b"dictHas\td\t", long.piece, long.count)?;
    let asked = lookup_of(alloc, first.as_slice(), &[])?;
    let reply = keyed_reply(alloc, &d, &asked, 1, &[(1, None)])?;
    let wanted: &[u8] = if long.sent { b"OK\tt1\t0" } else { b"ERR\t14" };
    Ok(is_text(alloc, &reply, wanted)?)
}

#[test]
fn single_lookups(rt: HostRuntime) -> Result<(), Fail> {
    assert_eq!(rt; first_wrong(rt.alloc(), &SINGLE)?, None);
    Ok(())
}

#[test]
fn blocks(rt: HostRuntime) -> Result<(), Fail> {
    assert_eq!(rt; first_wrong(rt.alloc(), &BLOCKS)?, None);
    Ok(())
}

#[test]
fn refused_lookups(rt: HostRuntime) -> Result<(), Fail> {
    assert_eq!(rt; first_wrong(rt.alloc(), &REFUSED)?, None);
    Ok(())
}

#[test]
fn rows_with_keys(rt: HostRuntime) -> Result<(), Fail> {
    assert_eq!(rt; first_wrong(rt.alloc(), &WITH_KEYS)?, None);
    Ok(())
}

#[test]
fn rows_without_keys(rt: HostRuntime) -> Result<(), Fail> {
    assert_eq!(rt; first_wrong(rt.alloc(), &WITHOUT_KEYS)?, None);
    Ok(())
}

#[test]
fn lists(rt: HostRuntime) -> Result<(), Fail> {
    assert_eq!(rt; first_wrong(rt.alloc(), &LISTS)?, None);
    Ok(())
}

#[test]
fn long_keys(rt: HostRuntime) -> Result<(), Fail> {
    let alloc = rt.alloc();
    for (place, long) in LONG.iter().enumerate() {
        assert!(rt; is_judged(alloc, long)?, "at {place}");
    }
    Ok(())
}

/// A key that can't be read is told before one that is too long.
#[test]
fn bad_keys_before_long_ones(rt: HostRuntime) -> Result<(), Fail> {
    let alloc = rt.alloc();
    let d = keyed_definition(alloc, &TEXT_KEY)?;
    let long = repeated(alloc, b"", b"a", 40_000)?;
    let asked = lookup_of(alloc, b"many\t2\tdictHas\td", &[long.as_slice(), b"a\tb"])?;
    let reply = keyed_reply(alloc, &d, &asked, 1, &[])?;
    assert!(rt; is_text(alloc, &reply, b"ERR\t4\t2")?);
    Ok(())
}
