use super::*;
use std::test::Fail;

/// First lines, and whether each is one of a block that has a reading.
static HEADS: [(&[u8], bool); 12] = [
    (b"many\t2\tdictGet\td\tx", true),
    (b"many\t0\tdictGetOrDefault\td\tx\t\\N", true),
    (b"many\t5000\tdictGetOrNull\td\tx", true),
    (b"many\t1\tdictHas\td", true),
    (b"many\t1\tcall\tf", true),
    (b"many\t1\tdictGet\td", false),
    (b"many\t1\tdictGet\td\tx\t1", false),
    (b"many\t01\tdictHas\td", false),
    (b"man\\y\t1\tdictHas\td", false),
    (b"many\t1\tdictGetHierarchy\td", false),
    (b"many\t1\tdictHas\t\\N", false),
    (b"dictHas\td\t1", false),
];

#[test]
fn first_lines_of_blocks_are_told(rt: HostRuntime) -> Result<(), Fail> {
    for (line, want) in &HEADS {
        assert_eq!(rt; heads_block(rt.alloc(), line), Ok(*want));
    }
    Ok(())
}

static QUITS: [(&[u8], bool); 10] = [
    (b"quit", true),
    (b"\\quit", true),
    (b"\\x71u\\x69\\x74", true),
    (b"\\x71\\x75\\x69\\x74", true),
    (b"qui", false),
    (b"quits", false),
    (b"quit\t", false),
    (b"qu\\it\\", false),
    (b"qui\\t", false),
    (b"", false),
];

#[test]
fn the_end_of_a_session_is_told(rt: HostRuntime) -> Result<(), Fail> {
    for (line, want) in &QUITS {
        assert_eq!(rt; is_quit(line), *want);
    }
    Ok(())
}
