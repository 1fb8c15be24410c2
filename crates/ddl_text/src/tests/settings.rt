// The settings of sources.
use super::show::{Among, Look, show_among};
use std::test::Fail;

static SETTINGS: [(Among, &[u8], &[u8]); 46] = [
    (Among::Executable, b"", b" c 10000 10000 10 16 10"),
    (
        Among::Executable,
        b"execute_direct 1",
        b" c direct 10000 10000 10 16 10",
    ),
    (
        Among::Executable,
        b"execute_direct 0",
        b" c 10000 10000 10 16 10",
    ),
    (
        Among::Executable,
        b"execute_direct 'true'",
        b" c direct 10000 10000 10 16 10",
    ),
    (Among::Executable, b"execute_direct 2", b" 1 15 unexpected"),
    (
        Among::Executable,
        b"implicit_key true",
        b" c implicit 10000 10000 10 16 10",
    ),
    (
        Among::Executable,
        b"implicit_key false",
        b" c 10000 10000 10 16 10",
    ),
    (
        Among::Executable,
        b"IMPLICIT_KEY `1`",
        b" c implicit 10000 10000 10 16 10",
    ),
    (
        Among::Executable,
        b"send_chunk_header 1",
        b" c header 10000 10000 10 16 10",
    ),
    (
        Among::Executable,
        b"send_chunk_header false",
        b" c 10000 10000 10 16 10",
    ),
    (
        Among::Executable,
        b"command_read_timeout 1",
        b" c 1 10000 10 16 10",
    ),
    (
        Among::Executable,
        b"command_read_timeout 4294967296",
        b" 1 21 unexpected",
    ),
    (
        Among::Executable,
        b"command_write_timeout +02",
        b" c 10000 2 10 16 10",
    ),
    (
        Among::Executable,
        b"command_write_timeout -2",
        b" 1 22 unexpected",
    ),
    (
        Among::Executable,
        b"command_termination_timeout 3",
        b" c 10000 10000 3 16 10",
    ),
    (
        Among::Executable,
        b"command_termination_timeout '3'",
        b" 1 28 unexpected",
    ),
    (Among::Executable, b"pool_size 4", b" 1 0 unknown setting"),
    (
        Among::Executable,
        b"max_command_execution_time 4",
        b" 1 0 unknown setting",
    ),
    (
        Among::Executable,
        b"SIZE_IN_CELLS 4",
        b" 1 0 unknown setting",
    ),
    (Among::Executable, b"command 'd'", b" 1 0 given twice"),
    (Among::Executable, b"Format CSV", b" 1 0 given twice"),
    (
        Among::Executable,
        b"implicit_key 1 implicit_key 0",
        b" 1 15 given twice",
    ),
    (
        Among::Executable,
        b"update_field at",
        b" c 10000 10000 10 16 10 at 1",
    ),
    (
        Among::Executable,
        b"update_lag 7 update_field 'at'",
        b" c 10000 10000 10 16 10 at 7",
    ),
    (
        Among::Executable,
        b"update_field 'a t'",
        b" 1 13 unexpected",
    ),
    (Among::Executable, b"update_field 4", b" 1 13 unexpected"),
    (Among::Executable, b"update_lag 7", b" 1 12 unexpected"),
    (Among::Executable, b"implicit_key", b" 1 12 unexpected"),
    (Among::Executable, b"'implicit_key' 1", b" 1 0 unexpected"),
    (Among::Executable, b", implicit_key 1", b" 1 0 unexpected"),
    (Among::Pool, b"", b" pool c 10000 10000 10 16 10"),
    (Among::Pool, b"pool_size 2", b" pool c 10000 10000 10 2 10"),
    (Among::Pool, b"pool_size 1025", b" 1 0 limit pool size 1025"),
    (
        Among::Pool,
        b"pool_size 4294967297",
        b" 1 0 limit pool size 4294967297",
    ),
    (
        Among::Pool,
        b"pool_size 18446744073709551616",
        b" 1 10 unexpected",
    ),
    (
        Among::Pool,
        b"max_command_execution_time 5",
        b" pool c 10000 10000 10 16 5",
    ),
    (
        Among::Pool,
        b"implicit_key 1",
        b" pool c implicit 10000 10000 10 16 10",
    ),
    (Among::Pool, b"update_field at", b" 1 0 unknown setting"),
    (Among::Function, b"", b" c direct 10000 10000 10 16 10"),
    (
        Among::Function,
        b"execute_direct 0",
        b" c 10000 10000 10 16 10",
    ),
    (Among::Function, b"implicit_key 1", b" 1 0 unknown setting"),
    (Among::Function, b"update_field at", b" 1 0 unknown setting"),
    (Among::Function, b"pool_size 2", b" 1 0 unknown setting"),
    (
        Among::FunctionPool,
        b"pool_size 2",
        b" pool c direct 10000 10000 10 2 10",
    ),
    (
        Among::FunctionPool,
        b"command_read_timeout 9 send_chunk_header true",
        b" pool c direct header 9 10000 10 16 10",
    ),
    (
        Among::FunctionPool,
        b"implicit_key 1",
        b" 1 0 unknown setting",
    ),
];

#[test]
fn settings(rt: HostRuntime) -> Result<(), Fail> {
    for (among, text, wanted) in &SETTINGS {
        let shown = show_among(rt.alloc(), Look::Source, *among, text)?;
        assert_eq!(rt; shown.as_slice(), *wanted);
    }
    Ok(())
}

/// Behind the columns of a dictionary.
static SOURCES: [(&[u8], &[u8]); 15] = [
    (
        b"PRIMARY KEY id LAYOUT(FLAT) SOURCE(EXECUTABLE(format 'CSV' command 'cat x'))",
        b" cat x csv 10000 10000 10 16 10",
    ),
    (
        b"PRIMARY KEY id LAYOUT(FLAT) SOURCE(executable(COMMAND 'c' FORMAT `TabSeparated`))",
        b" c 10000 10000 10 16 10",
    ),
    (
        b"PRIMARY KEY id LAYOUT(FLAT) SOURCE(EXECUTABLE(command 'c' format tsv))",
        b" 1 65 unsupported",
    ),
    (
        b"PRIMARY KEY id LAYOUT(FLAT) SOURCE(EXECUTABLE(command 'c' format 'JSON'))",
        b" 1 65 unsupported",
    ),
    (
        b"PRIMARY KEY id LAYOUT(FLAT) SOURCE(EXECUTABLE(command c format TSV))",
        b" 1 54 unexpected",
    ),
    (
        b"PRIMARY KEY id LAYOUT(FLAT) SOURCE(EXECUTABLE(command 'c'))",
        b" 1 57 unexpected",
    ),
    (
        b"PRIMARY KEY id LAYOUT(FLAT) SOURCE(EXECUTABLE(format TSV))",
        b" 1 56 unexpected",
    ),
    (
        b"PRIMARY KEY id LAYOUT(FLAT) SOURCE(EXECUTABLE())",
        b" 1 46 unexpected",
    ),
    (
        b"PRIMARY KEY id LAYOUT(FLAT) SOURCE(EXECUTABLE)",
        b" 1 45 unexpected",
    ),
    (
        b"PRIMARY KEY id LAYOUT(FLAT) SOURCE(HTTP(url 'u'))",
        b" 1 35 unsupported",
    ),
    (
        b"PRIMARY KEY id LAYOUT(FLAT) SOURCE(EXECUTABLE(command '' format TSV))",
        b" 1 0 limit command 0",
    ),
    (
        b"PRIMARY KEY id LAYOUT(FLAT) SOURCE(EXECUTABLE(command ' \\t' format TSV))",
        b" 1 0 command",
    ),
    (
        b"PRIMARY KEY id LAYOUT(FLAT) SOURCE(EXECUTABLE(command 'a/b' format TSV execute_direct 1))",
        b" 1 0 command",
    ),
    (
        b"PRIMARY KEY id LAYOUT(FLAT) SOURCE(EXECUTABLE_POOL(command 'c' format TSV))",
        b" 1 0 pool needs keys",
    ),
    (
        b"PRIMARY KEY id LAYOUT(DIRECT) SOURCE(EXECUTABLE(command 'c' format TSV update_field u))",
        b" 1 0 update layout",
    ),
];

#[test]
fn sources(rt: HostRuntime) -> Result<(), Fail> {
    for (text, wanted) in &SOURCES {
        let shown = show_among(rt.alloc(), Look::Source, Among::Behind, text)?;
        assert_eq!(rt; shown.as_slice(), *wanted);
    }
    Ok(())
}
