// Replies of dictionaries whose keys are in hash tables: numbers, and lists of values.
use crate::tests::making::{Answering, FLAT, NUMBER, Sketch, Sketched, TEXT, first_wrong};
use dict_schema::Layout;
use dict_value::ColType;
use packed_rows::Cell;
use std::test::Fail;

const HASHED: Sketch = Sketch {
    layout: Layout::Hashed,
    ..FLAT
};

static NUMBERS: Answering = Answering {
    sketch: HASHED,
    rows: Some(&[
        &[Cell::U(u64::MAX), Cell::S(b"z")],
        &[Cell::U(7), Cell::S(b"first")],
        &[Cell::U(7), Cell::S(b"second")],
    ]),
    asked: &[
        (b"dictGet\td\tx\t18446744073709551615", &[], b"OK\tv1\tz"),
        (b"dictGet\td\tx\t18446744073709551616", &[], b"ERR\t4\t1"),
        (b"dictGet\td\tx\t7", &[], b"OK\tv1\tfirst"),
        (b"dictGet\td\tx\t8", &[], b"OK\tv1\t"),
        (b"dictGet\td\tx\t7\t7", &[], b"ERR\t4\t1"),
        (b"dictHas\td\t\\N", &[], b"ERR\t4\t1"),
        (b"dictGetOrNull\td\tx\t8", &[], b"OK\tv1\t\\N"),
        (b"dictGetDescendants\td\t7\t0", &[], b"ERR\t6"),
        (
            b"many\t3\tdictGetOrDefault\td\tx\tnone",
            &[b"7", b"8", b"9"],
            b"OK\tv1\t3\nfirst\nnone\nnone",
        ),
    ],
};

const FIRST: Sketched = Sketched { name: b"a", ..TEXT };

const SECOND: Sketched = Sketched {
    name: b"b",
    base: ColType::UInt8,
    ..NUMBER
};

/// Keys of a text and a small number.
const COMPLEX: Sketch = Sketch {
    columns: &[FIRST, SECOND, TEXT],
    keys: &[0, 1],
    layout: Layout::ComplexHashed,
    ..FLAT
};

/// The same the other way round.
const TURNED: Sketch = Sketch {
    keys: &[1, 0],
    ..COMPLEX
};

static LISTS: Answering = Answering {
    sketch: COMPLEX,
    rows: Some(&[
        &[Cell::S(b""), Cell::U(5), Cell::S(b"e")],
        &[Cell::S(b"a\tb"), Cell::U(255), Cell::S(b"f")],
    ]),
    asked: &[
        (b"dictGet\td\tx\t\t5", &[], b"OK\tv1\te"),
        (b"dictGet\td\tx\ta\\tb\t255", &[], b"OK\tv1\tf"),
        (b"dictGet\td\tx\t5", &[], b"ERR\t4\t1"),
        (b"dictGet\td\tx\ta\t256", &[], b"ERR\t4\t1"),
        (b"dictGet\td\tx\ta\t5\tb", &[], b"ERR\t4\t1"),
        (b"dictGet\td\tx\t\\N\t5", &[], b"ERR\t4\t1"),
        (b"dictGet\td\tb\t\t5", &[], b"ERR\t3"),
        (b"dictHas\td\ta\t5", &[], b"OK\tv1\t0"),
        (b"dictGetHierarchy\td\t5", &[], b"ERR\t6"),
        (b"dictGetOrDefault\td\tx\tg\ta\t5", &[], b"OK\tv1\tg"),
        (
            b"many\t2\tdictHas\td",
            &[b"\t5", b"a\\\tb\t255"],
            b"OK\tv1\t2\n1\n1",
        ),
    ],
};

static TURNED_LISTS: Answering = Answering {
    sketch: TURNED,
    rows: Some(&[&[Cell::U(5), Cell::S(b""), Cell::S(b"e")]]),
    asked: &[
        (b"dictGet\td\tx\t5\t", &[], b"OK\tv1\te"),
        (b"dictGet\td\tx\t\t5", &[], b"ERR\t4\t1"),
        (b"dictGet\td\tx\t4\t", &[], b"OK\tv1\t"),
    ],
};

#[test]
fn numbers(rt: HostRuntime) -> Result<(), Fail> {
    assert_eq!(rt; first_wrong(rt.alloc(), &NUMBERS)?, None);
    Ok(())
}

#[test]
fn lists(rt: HostRuntime) -> Result<(), Fail> {
    assert_eq!(rt; first_wrong(rt.alloc(), &LISTS)?, None);
    Ok(())
}

#[test]
fn turned_lists(rt: HostRuntime) -> Result<(), Fail> {
    assert_eq!(rt; first_wrong(rt.alloc(), &TURNED_LISTS)?, None);
    Ok(())
}
