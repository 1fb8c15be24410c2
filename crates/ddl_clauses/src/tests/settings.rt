// Settings of a source: times, flags and updates.
use super::{Among, first_wrong};
use std::test::Fail;

/// The settings of a source of one child for each run.
static SETTINGS: [(Among, &[u8], &[u8]); 39] = [
    (Among::Executable, b"", b""),
    (Among::Executable, b"execute_direct 1", b" direct"),
    (Among::Executable, b"execute_direct 'true'", b" direct"),
    (Among::Executable, b"execute_direct `0`", b""),
    (Among::Executable, b"execute_direct false", b""),
    (Among::Executable, b"execute_direct TRUE", b" unexpected 15"),
    (Among::Executable, b"execute_direct 2", b" unexpected 15"),
    (Among::Executable, b"execute_direct +1", b" unexpected 15"),
    (Among::Executable, b"execute_direct", b" unexpected 14"),
    (Among::Executable, b"`IMPLICIT_KEY` true", b" implicit"),
    (Among::Executable, b"'implicit_key' true", b" unexpected 0"),
    (Among::Executable, b"send_chunk_header \"1\"", b" header"),
    (Among::Executable, b"command_read_timeout 0", b" read0"),
    (
        Among::Executable,
        b"command_read_timeout 4294967295",
        b" read4294967295",
    ),
    (
        Among::Executable,
        b"command_read_timeout 4294967296",
        b" unexpected 21",
    ),
    (
        Among::Executable,
        b"command_read_timeout '1'",
        b" unexpected 21",
    ),
    (Among::Executable, b"command_write_timeout +007", b" write7"),
    (
        Among::Executable,
        b"command_write_timeout -1",
        b" unexpected 22",
    ),
    (
        Among::Executable,
        b"command_write_timeout 4294967296",
        b" unexpected 22",
    ),
    (
        Among::Executable,
        b"command_termination_timeout 1",
        b" end1",
    ),
    (
        Among::Executable,
        b"command_termination_timeout 1.0",
        b" unexpected 28",
    ),
    (Among::Executable, b"pool_size 1", b" unknown 0"),
    (
        Among::Executable,
        b"max_command_execution_time 1",
        b" unknown 0",
    ),
    (Among::Executable, b"SIZE_IN_CELLS 1", b" unknown 0"),
    (Among::Executable, b"command 'd'", b" twice 0"),
    (Among::Executable, b"format CSV", b" twice 0"),
    (
        Among::Executable,
        b"implicit_key 1 Implicit_Key 1",
        b" twice 15",
    ),
    (
        Among::Executable,
        b"implicit_key 1, send_chunk_header 1",
        b" unexpected 14",
    ),
    (Among::Executable, b"commands 'd'", b" unknown 0"),
    (Among::Executable, b"update_field at", b" update at lag1"),
    (
        Among::Executable,
        b"update_lag 7 update_field `at`",
        b" update at lag7",
    ),
    (
        Among::Executable,
        b"update_field '_a9' update_lag 4294967295",
        b" update _a9 lag4294967295",
    ),
    (
        Among::Executable,
        b"update_field \"at\" update_lag 4294967296",
        b" unexpected 29",
    ),
    (Among::Executable, b"update_field 'a b'", b" unexpected 13"),
    (Among::Executable, b"update_field `9`", b" unexpected 13"),
    (Among::Executable, b"update_field ''", b" unexpected 13"),
    (Among::Executable, b"update_field 9", b" unexpected 13"),
    (Among::Executable, b"update_lag 1", b" unexpected 12"),
    (
        Among::All,
        b"SOURCE(EXECUTABLE(update_lag 1))",
        b" unexpected 30",
    ),
];

#[test]
fn settings_are_read(rt: HostRuntime) -> Result<(), Fail> {
    assert_eq!(rt; first_wrong(rt.alloc(), &SETTINGS)?, None);
    Ok(())
}
