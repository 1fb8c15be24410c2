// Layouts and their settings.
use super::{Among, first_wrong};
use std::test::Fail;

/// Layouts.
static LAYOUTS: [(Among, &[u8], &[u8]); 36] = [
    (Among::Layout, b"HASHED", b""),
    (Among::Layout, b"`hashed`()", b""),
    (
        Among::Layout,
        b"HASHED(PREALLOCATE 1 SHARDS 18446744073709551615 SHARD_LOAD_QUEUE_BACKLOG 3)",
        b"",
    ),
    (
        Among::Layout,
        b"HASHED(SHARDS 18446744073709551616)",
        b" unexpected 14",
    ),
    (Among::Layout, b"HASHED(MAX_ARRAY_SIZE 1)", b" unknown 7"),
    (Among::Layout, b"SPARSE_HASHED(SHARDS 1)", b" sparse"),
    (Among::Layout, b"HASHED_ARRAY(SHARDS 1)", b" array"),
    (Among::Layout, b"COMPLEX_KEY_HASHED(SHARDS 1)", b" complex"),
    (
        Among::Layout,
        b"COMPLEX_KEY_SPARSE_HASHED(SHARDS 1)",
        b" complex sparse",
    ),
    (
        Among::Layout,
        b"COMPLEX_KEY_HASHED_ARRAY(SHARDS 1)",
        b" complex array",
    ),
    (Among::Layout, b"FLAT()", b" flat"),
    (
        Among::Layout,
        b"FLAT(INITIAL_ARRAY_SIZE 1 max_array_size 2)",
        b" flat initial1 max2 array=2",
    ),
    (
        Among::Layout,
        b"FLAT(INITIAL_ARRAY_SIZE 4294967296)",
        b" unexpected 24",
    ),
    (
        Among::Layout,
        b"FLAT(MAX_ARRAY_SIZE 4294967296)",
        b" flat max4294967295 array=4294967296",
    ),
    (
        Among::Layout,
        b"FLAT(MAX_ARRAY_SIZE 1 MAX_ARRAY_SIZE 1)",
        b" twice 22",
    ),
    (Among::Layout, b"RANGE_HASHED", b" range"),
    (
        Among::Layout,
        b"RANGE_HASHED(range_lookup_strategy 'max')",
        b" range max",
    ),
    (
        Among::Layout,
        b"RANGE_HASHED(range_lookup_strategy max)",
        b" unexpected 35",
    ),
    (
        Among::Layout,
        b"RANGE_HASHED(range_lookup_strategy 'MAX')",
        b" unexpected 35",
    ),
    (
        Among::Layout,
        b"COMPLEX_KEY_RANGE_HASHED(RANGE_LOOKUP_STRATEGY 'min')",
        b" complex range",
    ),
    (
        Among::Layout,
        b"CACHE(SIZE_IN_CELLS 18446744073709551615)",
        b" cache cells18446744073709551615",
    ),
    (
        Among::Layout,
        b"COMPLEX_KEY_CACHE(MAX_UPDATE_QUEUE_SIZE 5 ALLOW_READ_EXPIRED_KEYS 0 SIZE_IN_CELLS 1)",
        b" complex cache cells1 queue5",
    ),
    (Among::Layout, b"CACHE", b" unexpected 5"),
    (Among::Layout, b"CACHE()", b" unexpected 6"),
    (
        Among::Layout,
        b"CACHE(ALLOW_READ_EXPIRED_KEYS 'false')",
        b" unexpected 37",
    ),
    (
        Among::Layout,
        b"CACHE(ALLOW_READ_EXPIRED_KEYS 1)",
        b" unsupported 30",
    ),
    (
        Among::Layout,
        b"CACHE(ALLOW_READ_EXPIRED_KEYS true)",
        b" unsupported 30",
    ),
    (
        Among::Layout,
        b"CACHE(ALLOW_READ_EXPIRED_KEYS 2)",
        b" unexpected 30",
    ),
    (
        Among::Layout,
        b"CACHE(MAX_UPDATE_QUEUE_SIZE 4294967296",
        b" unexpected 28",
    ),
    (Among::Layout, b"IP_TRIE()", b" trie"),
    (Among::Layout, b"IP_TRIE(SHARDS 1)", b" unknown 8"),
    (Among::Layout, b"DIRECT", b" direct"),
    (Among::Layout, b"COMPLEX_KEY_DIRECT()", b" complex direct"),
    (Among::Layout, b"FLAT()()", b" unexpected 6"),
    (Among::Layout, b"POLYGON", b" unsupported 0"),
    (Among::Layout, b"'FLAT'", b" unexpected 0"),
];

#[test]
fn layouts_are_read(rt: HostRuntime) -> Result<(), Fail> {
    assert_eq!(rt; first_wrong(rt.alloc(), &LAYOUTS)?, None);
    Ok(())
}
