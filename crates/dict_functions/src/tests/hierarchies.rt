// Replies of dictionaries whose keys have parents.
use crate::tests::making::{Answering, FLAT, NUMBER, Sketch, Sketched, first_wrong};
use dict_schema::Layout;
use packed_rows::Cell;
use std::test::Fail;

const UP: Sketched = Sketched {
    name: b"up",
    parent: true,
    ..NUMBER
};

const PARENTS: Sketch = Sketch {
    columns: &[NUMBER, UP],
    layout: Layout::Hashed,
    ..FLAT
};

static CHAINS: Answering = Answering {
    sketch: PARENTS,
    rows: Some(&[
        &[Cell::U(1), Cell::U(0)],
        &[Cell::U(2), Cell::U(1)],
        &[Cell::U(3), Cell::U(1)],
        &[Cell::U(4), Cell::U(2)],
        &[Cell::U(5), Cell::U(6)],
        &[Cell::U(6), Cell::U(5)],
    ]),
    asked: &[
        (b"dictGetHierarchy\td\t4", &[], b"OK\tv1\t[4,2,1]"),
        (b"dictGetHierarchy\td\t0", &[], b"OK\tv1\t[]"),
        (b"dictGetHierarchy\td\t5", &[], b"OK\tv1\t[5,6]"),
        (b"dictGetChildren\td\t0", &[], b"OK\tv1\t[1]"),
        (b"dictGetChildren\td\t1", &[], b"OK\tv1\t[2,3]"),
        (b"dictGetDescendants\td\t1\t0", &[], b"OK\tv1\t[2,3,4]"),
        (b"dictGetDescendants\td\t1\t2", &[], b"OK\tv1\t[4]"),
        (b"dictGetDescendants\td\t5\t0", &[], b"OK\tv1\t[6]"),
        (b"dictIsIn\td\t4\t1", &[], b"OK\tv1\t1"),
        (b"dictIsIn\td\t1\t4", &[], b"OK\tv1\t0"),
        (b"dictIsIn\td\tq\t4", &[], b"ERR\t4\t1"),
        (b"dictIsIn\td\t4\tq", &[], b"ERR\t4\t1"),
        (b"dictGetHierarchy\td\t\\N", &[], b"ERR\t4\t1"),
        (b"dictGet\td\tup\t4", &[], b"OK\tv1\t2"),
        (b"dictGetOrDefault\td\tup\tq\t7", &[], b"ERR\t10\t0"),
    ],
};

/// Parents that may be NULL, in an array.
const OPEN_PARENTS: Sketch = Sketch {
    columns: &[
        NUMBER,
        Sketched {
            nullable: true,
            default: Cell::Null,
            ..UP
        },
    ],
    ..FLAT
};

static OPEN_CHAINS: Answering = Answering {
    sketch: OPEN_PARENTS,
    rows: Some(&[
        &[Cell::U(0), Cell::Null],
        &[Cell::U(1), Cell::U(0)],
        &[Cell::U(2), Cell::U(9)],
    ]),
    asked: &[
        (b"dictGetHierarchy\td\t1", &[], b"OK\tv1\t[1,0]"),
        (b"dictGetHierarchy\td\t2", &[], b"OK\tv1\t[2]"),
        (b"dictGetChildren\td\t9", &[], b"OK\tv1\t[2]"),
        (b"dictIsIn\td\t1\t0", &[], b"OK\tv1\t1"),
        (b"dictGet\td\tup\t0", &[], b"OK\tv1\t\\N"),
    ],
};

#[test]
fn chains(rt: HostRuntime) -> Result<(), Fail> {
    assert_eq!(rt; first_wrong(rt.alloc(), &CHAINS)?, None);
    Ok(())
}

#[test]
fn open_chains(rt: HostRuntime) -> Result<(), Fail> {
    assert_eq!(rt; first_wrong(rt.alloc(), &OPEN_CHAINS)?, None);
    Ok(())
}
