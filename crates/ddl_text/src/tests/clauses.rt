// Layouts and the clauses behind the source.
use super::show::{Among, Look, show_among};
use std::test::Fail;

static LAYOUTS: [(&[u8], &[u8]); 30] = [
    (b"FLAT", b" flat 1024 500000 0 0"),
    (b"FLAT()", b" flat 1024 500000 0 0"),
    (b"flat(initial_array_size 7)", b" flat 7 500000 0 0"),
    (b"FLAT(MAX_ARRAY_SIZE 9)", b" flat 1024 9 0 0"),
    (b"FLAT(INITIAL_ARRAY_SIZE 4294967296)", b" 1 24 unexpected"),
    (b"FLAT(MAX_ARRAY_SIZE 0)", b" 1 0 limit array size 0"),
    (
        b"FLAT(MAX_ARRAY_SIZE 4294967296)",
        b" 1 0 limit array size 4294967296",
    ),
    (b"HASHED", b" hashed 0 0"),
    (
        b"`HASHED`(PREALLOCATE 0 SHARDS 10 SHARD_LOAD_QUEUE_BACKLOG 5)",
        b" hashed 0 0",
    ),
    (b"HASHED(SHARDS 1 SHARDS 2)", b" 1 16 given twice"),
    (b"HASHED(SIZE_IN_CELLS 2)", b" 1 7 unknown setting"),
    (b"SPARSE_HASHED()", b" sparse 0 0"),
    (b"HASHED_ARRAY(SHARDS 3)", b" array 0 0"),
    (b"COMPLEX_KEY_HASHED", b" complex hashed 0 0"),
    (b"COMPLEX_KEY_SPARSE_HASHED", b" complex sparse 0 0"),
    (b"COMPLEX_KEY_HASHED_ARRAY()", b" complex array 0 0"),
    (b"RANGE_HASHED", b" 1 0 range missing"),
    (
        b"RANGE_HASHED(range_lookup_strategy 'max')) RANGE(MIN a MAX b",
        b" range max 0 0 from 2 3",
    ),
    (
        b"RANGE_HASHED(range_lookup_strategy 'min')) RANGE(MIN a MAX b",
        b" range 0 0 from 2 3",
    ),
    (
        b"RANGE_HASHED(range_lookup_strategy max)",
        b" 1 35 unexpected",
    ),
    (
        b"COMPLEX_KEY_RANGE_HASHED()) RANGE(MIN b MAX a",
        b" complex range 0 0 from 3 2",
    ),
    (b"IP_TRIE", b" 1 0 simple key type"),
    (b"IP_TRIE(SHARDS 1)", b" 1 8 unknown setting"),
    (b"CACHE(SIZE_IN_CELLS 4)", b" cache 4 100000 0 0"),
    (
        b"COMPLEX_KEY_CACHE(MAX_UPDATE_QUEUE_SIZE 5 SIZE_IN_CELLS 4 ALLOW_READ_EXPIRED_KEYS 0)",
        b" complex cache 4 5 0 0",
    ),
    (
        b"CACHE(SIZE_IN_CELLS 4 ALLOW_READ_EXPIRED_KEYS 1)",
        b" 1 46 unsupported",
    ),
    (b"CACHE(SIZE_IN_CELLS 0)", b" 1 0 limit cells 0"),
    (b"CACHE", b" 1 5 unexpected"),
    (b"CACHE()", b" 1 6 unexpected"),
    (b"TREE", b" 1 0 unsupported"),
];

#[test]
fn layouts(rt: HostRuntime) -> Result<(), Fail> {
    for (text, wanted) in &LAYOUTS {
        let shown = show_among(rt.alloc(), Look::Clauses, Among::Layout, text)?;
        assert_eq!(rt; shown.as_slice(), *wanted);
    }
    Ok(())
}

/// Behind the source.
static CLAUSES: [(&[u8], &[u8]); 36] = [
    (b"LAYOUT(DIRECT)", b" direct 0 0"),
    (b"LAYOUT(COMPLEX_KEY_DIRECT())", b" complex direct 0 0"),
    (b"LIFETIME(5) LAYOUT(HASHED)", b" hashed 5 5"),
    (b"LAYOUT(HASHED) LIFETIME(MIN 3 MAX 4)", b" hashed 3 4"),
    (b"LAYOUT(HASHED) lifetime(max 4 min 3)", b" hashed 3 4"),
    (
        b"LAYOUT(HASHED) LIFETIME(MIN 4 MAX 3)",
        b" 1 0 limit lifetime order 4",
    ),
    (
        b"LAYOUT(HASHED) LIFETIME(MAX 1 MIN 2)",
        b" 1 0 limit lifetime order 2",
    ),
    (
        b"LAYOUT(HASHED) LIFETIME(4294967295)",
        b" hashed 4294967295 4294967295",
    ),
    (b"LAYOUT(HASHED) LIFETIME(4294967296)", b" 1 24 unexpected"),
    (b"LAYOUT(HASHED) LIFETIME(MIN 3)", b" 1 29 unexpected"),
    (b"LAYOUT(HASHED) LIFETIME(MIN 3 MIN 4)", b" 1 30 unexpected"),
    (b"LAYOUT(HASHED) LIFETIME()", b" 1 24 unexpected"),
    (b"LAYOUT(HASHED) RANGE(MIN a MAX b)", b" 1 0 range unused"),
    (b"LAYOUT(HASHED) RANGE(MIN y MAX b)", b" 1 0 range unused"),
    (
        b"LAYOUT(RANGE_HASHED) RANGE(MIN a MAX y)",
        b" 1 0 range missing",
    ),
    (
        b"LAYOUT(RANGE_HASHED) RANGE(MIN a MAX x)",
        b" 1 0 range type",
    ),
    (
        b"LAYOUT(RANGE_HASHED) RANGE(MIN a MAX a)",
        b" 1 0 range type",
    ),
    (
        b"LAYOUT(RANGE_HASHED) RANGE(MAX b MIN a)",
        b" 1 27 unexpected",
    ),
    (
        b"SETTINGS(max_output_bytes = 9) LAYOUT(HASHED)",
        b" hashed 0 0 output 9",
    ),
    (
        b"LAYOUT(HASHED) settings(MAX_OUTPUT_BYTES=134217728)",
        b" hashed 0 0 output 134217728",
    ),
    (
        b"LAYOUT(HASHED) SETTINGS(max_output_bytes = 134217729)",
        b" 1 0 limit output 134217729",
    ),
    (
        b"LAYOUT(HASHED) SETTINGS(max_output_bytes = 99999999999)",
        b" 1 0 limit output 99999999999",
    ),
    (
        b"LAYOUT(HASHED) SETTINGS(max_output_bytes = 0)",
        b" 1 0 limit output 0",
    ),
    (
        b"LAYOUT(HASHED) SETTINGS(max_output_bytes 9)",
        b" 1 41 unexpected",
    ),
    (
        b"LAYOUT(HASHED) SETTINGS(format = 9)",
        b" 1 24 unknown setting",
    ),
    (b"COMMENT 'a b' LAYOUT(HASHED)", b" hashed 0 0 a b"),
    (b"LAYOUT(HASHED) COMMENT ''", b" hashed 0 0"),
    (b"LAYOUT(HASHED) COMMENT b", b" 1 23 unexpected"),
    (
        b"LAYOUT(HASHED) SOURCE(EXECUTABLE(command 'c' format TSV))",
        b" 1 15 given twice",
    ),
    (b"LAYOUT(HASHED) LAYOUT(FLAT)", b" 1 15 given twice"),
    (
        b"LIFETIME(1) LAYOUT(HASHED) LIFETIME(1)",
        b" 1 27 given twice",
    ),
    (
        b"COMMENT 'a' LAYOUT(HASHED) COMMENT 'b'",
        b" 1 27 given twice",
    ),
    (b"", b" 1 0 unexpected"),
    (b"LIFETIME(1);", b" 1 11 unexpected"),
    (b"LAYOUT(HASHED) ENGINE 'x'", b" 1 15 unexpected"),
    (b"LAYOUT(HASHED), COMMENT 'x'", b" 1 14 unexpected"),
];

#[test]
fn clauses(rt: HostRuntime) -> Result<(), Fail> {
    for (text, wanted) in &CLAUSES {
        let shown = show_among(rt.alloc(), Look::Clauses, Among::Clauses, text)?;
        assert_eq!(rt; shown.as_slice(), *wanted);
    }
    Ok(())
}
