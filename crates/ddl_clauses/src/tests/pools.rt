// Settings of pools and of functions.
use super::{Among, first_wrong};
use std::test::Fail;

/// The settings of a pool, and those of a function.
static POOLS: [(Among, &[u8], &[u8]); 23] = [
    (Among::Pool, b"", b" pool"),
    (Among::Pool, b"pool_size 0", b" pool size0 pool=0"),
    (
        Among::Pool,
        b"pool_size 4294967296",
        b" pool size4294967295 pool=4294967296",
    ),
    (
        Among::Pool,
        b"pool_size 18446744073709551615",
        b" pool size4294967295 pool=18446744073709551615",
    ),
    (
        Among::Pool,
        b"pool_size 18446744073709551616",
        b" unexpected 10",
    ),
    (
        Among::Pool,
        b"max_command_execution_time 3",
        b" pool execution3",
    ),
    (
        Among::Pool,
        b"max_command_execution_time 4294967296",
        b" unexpected 27",
    ),
    (Among::Pool, b"implicit_key 1", b" pool implicit"),
    (Among::Pool, b"update_field at", b" unknown 0"),
    (Among::Pool, b"update_lag 1", b" unknown 0"),
    (Among::Function, b"", b" direct"),
    (Among::Function, b"execute_direct 0", b""),
    (Among::Function, b"send_chunk_header 1", b" direct header"),
    (Among::Function, b"implicit_key 0", b" unknown 0"),
    (Among::Function, b"update_field at", b" unknown 0"),
    (Among::Function, b"pool_size 1", b" unknown 0"),
    (
        Among::FunctionPool,
        b"pool_size 1",
        b" pool direct size1 pool=1",
    ),
    (
        Among::FunctionPool,
        b"max_command_execution_time 2",
        b" pool direct execution2",
    ),
    (Among::FunctionPool, b"implicit_key 0", b" unknown 0"),
    (
        Among::AllOfFunction,
        b"SOURCE(EXECUTABLE(command 'c' format TSV)) SETTINGS(max_output_bytes = 5);",
        b" direct output5 output=5 left1",
    ),
    (
        Among::AllOfFunction,
        b"SOURCE(EXECUTABLE(command 'c' format TSV)) COMMENT 'a'",
        b" direct left11",
    ),
    (
        Among::AllOfFunction,
        b"SETTINGS(max_output_bytes = 5) SOURCE",
        b" unexpected 0",
    ),
    (
        Among::AllOfFunction,
        b"SOURCE(EXECUTABLE(command 'c' format TSV)) SETTINGS(",
        b" unexpected 52",
    ),
];

#[test]
fn pools_are_read(rt: HostRuntime) -> Result<(), Fail> {
    assert_eq!(rt; first_wrong(rt.alloc(), &POOLS)?, None);
    Ok(())
}
