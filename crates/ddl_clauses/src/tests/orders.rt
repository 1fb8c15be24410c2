// Clauses in any order and any letter case: LIFETIME, RANGE, SETTINGS and COMMENT.
use super::{Among, first_wrong};
use std::test::Fail;

/// The clauses in any order and any letter case, up to what begins none.
static ORDERS: [(Among, &[u8], &[u8]); 14] = [
    (Among::Clauses, b"", b""),
    (Among::Clauses, b";", b" left1"),
    (Among::Clauses, b", LIFETIME(1)", b" left13"),
    (Among::Clauses, b"`COMMENT` 'a'", b" left13"),
    (
        Among::All,
        b"comment 'a' settings(MAX_output_bytes=1)range(min `s` MAX e)Lifetime(2)LAYOUT(Flat)\
          source(`Executable`(FORMAT CSV COMMAND 'd'))",
        b" command d csv flat least2 most2 from s to e output1 comment a output=1",
    ),
    (
        Among::Clauses,
        b"SOURCE(EXECUTABLE(command 'c' format TSV))",
        b" twice 0",
    ),
    (Among::Clauses, b"LAYOUT(FLAT)", b" twice 0"),
    (Among::Clauses, b"LIFETIME(1) LIFETIME(1)", b" twice 12"),
    (
        Among::Clauses,
        b"RANGE(MIN a MAX b) RANGE(MIN a MAX b)",
        b" twice 19",
    ),
    (
        Among::Clauses,
        b"SETTINGS(max_output_bytes = 1) SETTINGS(max_output_bytes = 1)",
        b" twice 31",
    ),
    (Among::Clauses, b"COMMENT '' COMMENT ''", b" twice 11"),
    (Among::All, b"", b" unexpected 0"),
    (Among::All, b"LAYOUT(FLAT);", b" unexpected 12"),
    (
        Among::All,
        b"SOURCE(EXECUTABLE(command 'c' format TSV)) LIFETIME(1)",
        b" unexpected 54",
    ),
];

/// LIFETIME, RANGE, SETTINGS and COMMENT.
static OTHERS: [(Among, &[u8], &[u8]); 17] = [
    (Among::Clauses, b"LIFETIME(7)", b" least7 most7"),
    (Among::Clauses, b"LIFETIME(MIN 1 MAX 2)", b" least1 most2"),
    (Among::Clauses, b"LIFETIME(max 2 min 1)", b" least1 most2"),
    (Among::Clauses, b"LIFETIME(MIN 2 MAX 1)", b" least2 most1"),
    (Among::Clauses, b"LIFETIME(MIN 1)", b" unexpected 14"),
    (Among::Clauses, b"LIFETIME(MIN 1 MIN 2)", b" unexpected 15"),
    (Among::Clauses, b"LIFETIME(4294967296)", b" unexpected 9"),
    (Among::Clauses, b"LIFETIME()", b" unexpected 9"),
    (Among::Clauses, b"RANGE(MIN a MAX `b c`)", b" from a to b c"),
    (Among::Clauses, b"RANGE(MAX a MIN b)", b" unexpected 6"),
    (Among::Clauses, b"RANGE(MIN 'a' MAX b)", b" unexpected 10"),
    (
        Among::Clauses,
        b"SETTINGS(max_output_bytes = 4294967296)",
        b" output4294967295 output=4294967296",
    ),
    (Among::Clauses, b"SETTINGS(max_output = 1)", b" unknown 9"),
    (
        Among::Clauses,
        b"SETTINGS(max_output_bytes 1)",
        b" unexpected 26",
    ),
    (Among::Clauses, b"SETTINGS()", b" unexpected 9"),
    (Among::Clauses, b"COMMENT 'it''s'", b" comment it's"),
    (Among::Clauses, b"COMMENT a", b" unexpected 8"),
];

#[test]
fn orders_are_read(rt: HostRuntime) -> Result<(), Fail> {
    assert_eq!(rt; first_wrong(rt.alloc(), &ORDERS)?, None);
    assert_eq!(rt; first_wrong(rt.alloc(), &OTHERS)?, None);
    Ok(())
}
