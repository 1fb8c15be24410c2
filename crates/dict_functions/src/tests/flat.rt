// Replies of dictionaries whose keys are small numbers.
use crate::tests::making::{Answering, FLAT, NUMBER, Sketch, Sketched, TEXT, first_wrong};
use dict_value::ColType;
use packed_rows::Cell;
use std::test::Fail;

static TWO_ROWS: Answering = Answering {
    sketch: FLAT,
    rows: Some(&[&[Cell::U(1), Cell::S(b"a")], &[Cell::U(2), Cell::S(b"b")]]),
    asked: &[
        (b"dictGet\td\tx\t2", &[], b"OK\tv1\tb"),
        (b"dictGet\td\tx\t7", &[], b"OK\tv1\t"),
        (b"dictHas\td\t1", &[], b"OK\tv1\t1"),
        (b"dictHas\td\t7", &[], b"OK\tv1\t0"),
        (b"dictGet\td\tno\tq", &[], b"ERR\t3"),
        (b"dictGet\td\tid\t1", &[], b"ERR\t3"),
        (b"dictGet\td\tx\tq", &[], b"ERR\t4\t1"),
        (b"dictGet\td\tx\t1\t2", &[], b"ERR\t4\t1"),
        (b"dictGet\td\tx\t\\N", &[], b"ERR\t4\t1"),
        (b"dictHas\td\t-1", &[], b"ERR\t4\t1"),
        (b"dictGetHierarchy\td\t1", &[], b"ERR\t6"),
        (b"dictIsIn\td\tq\t1", &[], b"ERR\t6"),
        (b"dictGetOrDefault\td\tx\tzz\t7", &[], b"OK\tv1\tzz"),
        (b"dictGetOrDefault\td\tx\tzz\t1", &[], b"OK\tv1\ta"),
        (b"dictGetOrNull\td\tx\t7", &[], b"OK\tv1\t\\N"),
        (b"dictGetOrNull\td\tx\t1", &[], b"OK\tv1\ta"),
    ],
};

static BLOCKS: Answering = Answering {
    sketch: FLAT,
    rows: Some(&[&[Cell::U(1), Cell::S(b"a")], &[Cell::U(2), Cell::S(b"b")]]),
    asked: &[
        (b"many\t2\tdictGet\td\tx", &[b"2", b"7"], b"OK\tv1\t2\nb\n"),
        (b"many\t2\tdictGet\td\tx", &[b"2", b"q"], b"ERR\t4\t2"),
        (b"many\t3\tdictHas\td", &[b"2", b"", b"q"], b"ERR\t4\t2"),
        (b"many\t0\tdictGet\td\tx", &[], b"OK\tv1\t0"),
        (b"many\t1\tdictGet\td\tno", &[b"q"], b"ERR\t3"),
        (
            b"many\t2\tdictGetOrNull\td\tx",
            &[b"7", b"+001"],
            b"OK\tv1\t2\n\\N\na",
        ),
        (
            b"many\t3\tdictHas\td",
            &[b"7", b"2", b"18446744073709551615"],
            b"OK\tv1\t3\n0\n1\n0",
        ),
    ],
};

static NOT_LOADED: Answering = Answering {
    sketch: FLAT,
    rows: None,
    asked: &[
        (b"dictGet\td\tx\t1", &[], b"ERR\t5"),
        (b"dictGetHierarchy\td\tq", &[], b"ERR\t5"),
        (b"many\t1\tdictGet\td\tno", &[b"q"], b"ERR\t5"),
    ],
};

/// A text with another default, a text that may be NULL, and a number with another default.
const DEFAULTS: Sketch = Sketch {
    columns: &[
        NUMBER,
        Sketched {
            name: b"s",
            default: Cell::S(b"q"),
            ..TEXT
        },
        Sketched {
            name: b"m",
            nullable: true,
            default: Cell::Null,
            ..TEXT
        },
        Sketched {
            name: b"n",
            default: Cell::U(9),
            ..NUMBER
        },
    ],
    ..FLAT
};

static WITH_DEFAULTS: Answering = Answering {
    sketch: DEFAULTS,
    rows: Some(&[
        &[Cell::U(1), Cell::S(b"a\tb"), Cell::Null, Cell::U(0)],
        &[Cell::U(2), Cell::S(b"q"), Cell::S(b"A"), Cell::U(u64::MAX)],
    ]),
    asked: &[
        (b"dictGet\td\ts\t1", &[], b"OK\tv1\ta\\tb"),
        (b"dictGet\td\tm\t1", &[], b"OK\tv1\t\\N"),
        (b"dictGet\td\ts\t2", &[], b"OK\tv1\tq"),
        (b"dictGet\td\tm\t2", &[], b"OK\tv1\tA"),
        (b"dictGet\td\tn\t2", &[], b"OK\tv1\t18446744073709551615"),
        (b"dictGet\td\tn\t7", &[], b"OK\tv1\t9"),
        (b"dictGet\td\ts\t7", &[], b"OK\tv1\tq"),
        (b"dictGet\td\tm\t7", &[], b"OK\tv1\t\\N"),
        (b"dictGetOrNull\td\tn\t7", &[], b"OK\tv1\t\\N"),
        (b"dictGetOrDefault\td\tn\tzz\t1", &[], b"ERR\t10\t0"),
        (b"dictGetOrDefault\td\tn\tzz\tq", &[], b"ERR\t10\t0"),
        (b"dictGetOrDefault\td\tn\t\\N\t1", &[], b"ERR\t10\t0"),
        (b"dictGetOrDefault\td\tm\t\\N\t7", &[], b"OK\tv1\t\\N"),
        (b"dictGetOrDefault\td\tn\t+007\t7", &[], b"OK\tv1\t7"),
        (b"dictGetOrDefault\td\ts\ta\\nb\t7", &[], b"OK\tv1\ta\\nb"),
        (b"dictGetOrDefault\td\tno\tzz\tq", &[], b"ERR\t3"),
    ],
};

/// A day, a second, a Decimal and an address.
const TYPED: Sketch = Sketch {
    columns: &[
        NUMBER,
        Sketched {
            name: b"t",
            base: ColType::Date,
            default: Cell::Day(0),
            ..NUMBER
        },
        Sketched {
            name: b"u",
            base: ColType::DateTime,
            default: Cell::Second(0),
            ..NUMBER
        },
        Sketched {
            name: b"p",
            base: ColType::Decimal(5, 2),
            default: Cell::Dec(0),
            ..NUMBER
        },
        Sketched {
            name: b"g",
            base: ColType::Ipv6,
            default: Cell::V6(0),
            ..NUMBER
        },
    ],
    ..FLAT
};

static OF_TYPES: Answering = Answering {
    sketch: TYPED,
    rows: Some(&[&[
        Cell::U(1),
        Cell::Day(65_535),
        Cell::Second(4_294_967_295),
        Cell::Dec(-150),
        Cell::V6(0x2001_0db8 << 96 | 1),
    ]]),
    asked: &[
        (b"dictGet\td\tt\t1", &[], b"OK\tv1\t2149-06-06"),
        (b"dictGet\td\tu\t1", &[], b"OK\tv1\t2106-02-07 06:28:15"),
        (b"dictGet\td\tp\t1", &[], b"OK\tv1\t-1.5"),
        (b"dictGet\td\tg\t1", &[], b"OK\tv1\t2001:db8::1"),
        (b"dictGet\td\tt\t7", &[], b"OK\tv1\t1970-01-01"),
        (b"dictGet\td\tu\t7", &[], b"OK\tv1\t1970-01-01 00:00:00"),
        (b"dictGet\td\tp\t7", &[], b"OK\tv1\t0"),
        (b"dictGet\td\tg\t7", &[], b"OK\tv1\t::"),
        (b"dictGetOrDefault\td\tt\t2149-06-07\t7", &[], b"ERR\t10\t0"),
        (b"dictGetOrDefault\td\tp\t1.239\t7", &[], b"OK\tv1\t1.23"),
        (b"dictGetOrDefault\td\tp\t1000\t7", &[], b"ERR\t10\t0"),
        (
            b"dictGetOrDefault\td\tg\t::FFFF:1.2.3.4\t7",
            &[],
            b"OK\tv1\t::ffff:1.2.3.4",
        ),
    ],
};

#[test]
fn single_lookups(rt: HostRuntime) -> Result<(), Fail> {
    assert_eq!(rt; first_wrong(rt.alloc(), &TWO_ROWS)?, None);
    Ok(())
}

#[test]
fn blocks(rt: HostRuntime) -> Result<(), Fail> {
    assert_eq!(rt; first_wrong(rt.alloc(), &BLOCKS)?, None);
    Ok(())
}

#[test]
fn no_version(rt: HostRuntime) -> Result<(), Fail> {
    assert_eq!(rt; first_wrong(rt.alloc(), &NOT_LOADED)?, None);
    Ok(())
}

#[test]
fn defaults(rt: HostRuntime) -> Result<(), Fail> {
    assert_eq!(rt; first_wrong(rt.alloc(), &WITH_DEFAULTS)?, None);
    Ok(())
}

#[test]
fn types(rt: HostRuntime) -> Result<(), Fail> {
    assert_eq!(rt; first_wrong(rt.alloc(), &OF_TYPES)?, None);
    Ok(())
}
