// Replies of dictionaries whose rows count within ranges.
use crate::tests::making::{Answering, Cells, FLAT, NUMBER, Sketch, Sketched, TEXT, first_wrong};
use dict_schema::{Layout, RangeOf, Strategy};
use dict_value::ColType;
use packed_rows::Cell;
use std::test::Fail;

const START: Sketched = Sketched {
    name: b"a",
    base: ColType::UInt32,
    nullable: true,
    default: Cell::Null,
    ..NUMBER
};

const END: Sketched = Sketched {
    name: b"b",
    ..START
};

const VALUE: Sketched = Sketched { name: b"v", ..TEXT };

/// The least start counts.
const MIN: Sketch = Sketch {
    columns: &[NUMBER, START, END, VALUE],
    layout: Layout::RangeHashed(Strategy::Min),
    range: RangeOf::Columns { start: 1, end: 2 },
    ..FLAT
};

/// The greatest start counts.
const MAX: Sketch = Sketch {
    layout: Layout::RangeHashed(Strategy::Max),
    ..MIN
};

const ROWS: &[Cells] = &[
    &[Cell::U(1), Cell::U(10), Cell::U(20), Cell::S(b"p")],
    &[Cell::U(1), Cell::U(10), Cell::U(30), Cell::S(b"q")],
    &[Cell::U(1), Cell::U(15), Cell::Null, Cell::S(b"s")],
    &[Cell::U(1), Cell::U(40), Cell::U(35), Cell::S(b"t")],
];

static LEAST: Answering = Answering {
    sketch: MIN,
    rows: Some(ROWS),
    asked: &[
        (b"dictGet\td\tv\t1\t10", &[], b"OK\tv1\tp"),
        (b"dictGet\td\tv\t1\t20", &[], b"OK\tv1\tp"),
        (b"dictGet\td\tv\t1\t21", &[], b"OK\tv1\tq"),
        (b"dictGet\td\tv\t1\t31", &[], b"OK\tv1\ts"),
        (b"dictGet\td\tv\t1\t37", &[], b"OK\tv1\ts"),
        (b"dictGet\td\tv\t1\t9", &[], b"OK\tv1\t"),
        (b"dictHas\td\t2\t10", &[], b"OK\tv1\t0"),
        (b"dictGet\td\tv\t1", &[], b"ERR\t4\t1"),
        (b"dictGet\td\tv\t1\t10\t10", &[], b"ERR\t4\t1"),
        (b"dictGet\td\tv\t1\t4294967296", &[], b"ERR\t4\t1"),
        (b"dictGet\td\tv\t1\t\\N", &[], b"ERR\t4\t1"),
        (b"dictGet\td\tv\tq\t10", &[], b"ERR\t4\t1"),
        (b"dictGet\td\ta\t1\t10", &[], b"ERR\t3"),
        (b"dictGetChildren\td\t1", &[], b"ERR\t6"),
        (
            b"many\t2\tdictGetOrNull\td\tv",
            &[b"1\t10", b"2\t10"],
            b"OK\tv1\t2\np\n\\N",
        ),
        (
            b"many\t2\tdictGetOrNull\td\tv",
            &[b"1\t10", b"2"],
            b"ERR\t4\t2",
        ),
    ],
};

static GREATEST: Answering = Answering {
    sketch: MAX,
    rows: Some(ROWS),
    asked: &[
        (b"dictGet\td\tv\t1\t20", &[], b"OK\tv1\ts"),
        (b"dictGet\td\tv\t1\t12", &[], b"OK\tv1\tq"),
    ],
};

/// A range of days.
const DAYS: Sketch = Sketch {
    columns: &[
        NUMBER,
        Sketched {
            base: ColType::Date,
            nullable: false,
            default: Cell::Day(0),
            ..START
        },
        Sketched {
            base: ColType::Date,
            nullable: false,
            default: Cell::Day(0),
            ..END
        },
        VALUE,
    ],
    ..MIN
};

static OF_DAYS: Answering = Answering {
    sketch: DAYS,
    rows: Some(&[
        &[Cell::U(1), Cell::Null, Cell::Day(10), Cell::S(b"old")],
        &[Cell::U(1), Cell::Day(31), Cell::Null, Cell::S(b"new")],
    ]),
    asked: &[
        (b"dictGet\td\tv\t1\t1970-01-11", &[], b"OK\tv1\told"),
        (b"dictGet\td\tv\t1\t1970-01-12", &[], b"OK\tv1\t"),
        (b"dictGet\td\tv\t1\t2149-06-06", &[], b"OK\tv1\tnew"),
        (b"dictGet\td\tv\t1\t10", &[], b"ERR\t4\t1"),
    ],
};

#[test]
fn least_starts(rt: HostRuntime) -> Result<(), Fail> {
    assert_eq!(rt; first_wrong(rt.alloc(), &LEAST)?, None);
    Ok(())
}

#[test]
fn greatest_starts(rt: HostRuntime) -> Result<(), Fail> {
    assert_eq!(rt; first_wrong(rt.alloc(), &GREATEST)?, None);
    Ok(())
}

#[test]
fn days(rt: HostRuntime) -> Result<(), Fail> {
    assert_eq!(rt; first_wrong(rt.alloc(), &OF_DAYS)?, None);
    Ok(())
}
