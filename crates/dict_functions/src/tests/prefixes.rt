// Replies of dictionaries whose keys are prefixes of addresses.
use crate::tests::making::{Answering, FLAT, Sketch, Sketched, TEXT, first_wrong};
use dict_schema::Layout;
use packed_rows::Cell;
use std::test::Fail;

const PREFIXES: Sketch = Sketch {
    columns: &[
        Sketched {
            name: b"prefix",
            ..TEXT
        },
        Sketched { name: b"v", ..TEXT },
    ],
    layout: Layout::IpTrie,
    ..FLAT
};

static LONGEST: Answering = Answering {
    sketch: PREFIXES,
    rows: Some(&[
        &[Cell::S(b"202.79.32.0/20"), Cell::S(b"NP")],
        &[Cell::S(b"202.79.32.2/32"), Cell::S(b"HOST")],
        &[Cell::S(b"0.0.0.0/0"), Cell::S(b"ANY")],
        &[Cell::S(b"2001:db8::/32"), Cell::S(b"DOC")],
    ]),
    asked: &[
        (b"dictGet\td\tv\t202.79.32.2", &[], b"OK\tv1\tHOST"),
        (b"dictGet\td\tv\t202.79.32.10", &[], b"OK\tv1\tNP"),
        (b"dictGet\td\tv\t1.1.1.1", &[], b"OK\tv1\tANY"),
        (b"dictGet\td\tv\t2001:db8::1", &[], b"OK\tv1\tDOC"),
        (b"dictGet\td\tv\t2001:db9::1", &[], b"OK\tv1\t"),
        (b"dictHas\td\t::ffff:1.1.1.1", &[], b"OK\tv1\t0"),
        (b"dictHas\td\t::ca4f:2002", &[], b"OK\tv1\t0"),
        (b"dictGet\td\tv\t1.1.1", &[], b"ERR\t4\t1"),
        (b"dictGet\td\tv\t1.1.1.1/32", &[], b"ERR\t4\t1"),
        (b"dictGet\td\tv\t1.1.1.1\t1.1.1.1", &[], b"ERR\t4\t1"),
        (b"dictGet\td\tv\t\\N", &[], b"ERR\t4\t1"),
        (b"dictGet\td\tprefix\t1.1.1.1", &[], b"ERR\t3"),
        (b"dictIsIn\td\t1\t1", &[], b"ERR\t6"),
        (
            b"many\t2\tdictGetOrDefault\td\tv\tnone",
            &[b"2001:db9::1", b"202.79.47.255"],
            b"OK\tv1\t2\nnone\nNP",
        ),
    ],
};

static FIRST_OF_EQUALS: Answering = Answering {
    sketch: PREFIXES,
    rows: Some(&[
        &[Cell::S(b"10.0.0.0/8"), Cell::S(b"first")],
        &[Cell::S(b"10.1.2.3/8"), Cell::S(b"second")],
    ]),
    asked: &[
        (b"dictGet\td\tv\t10.9.9.9", &[], b"OK\tv1\tfirst"),
        (b"dictGet\td\tv\t11.0.0.0", &[], b"OK\tv1\t"),
    ],
};

#[test]
fn longest_prefixes(rt: HostRuntime) -> Result<(), Fail> {
    assert_eq!(rt; first_wrong(rt.alloc(), &LONGEST)?, None);
    Ok(())
}

#[test]
fn equal_prefixes(rt: HostRuntime) -> Result<(), Fail> {
    assert_eq!(rt; first_wrong(rt.alloc(), &FIRST_OF_EQUALS)?, None);
    Ok(())
}
