// Sources: programs, their commands, formats and headers.
use super::{Among, first_wrong};
use std::test::Fail;

/// Sources.
static SOURCES: [(Among, &[u8], &[u8]); 16] = [
    (Among::All, b"SOURCE EXECUTABLE", b" unexpected 7"),
    (Among::All, b"SOURCE(FILE(path 'c'))", b" unsupported 7"),
    (Among::All, b"SOURCE('EXECUTABLE'", b" unexpected 7"),
    (Among::All, b"SOURCE(EXECUTABLE)", b" unexpected 17"),
    (Among::All, b"SOURCE(EXECUTABLE())", b" unexpected 18"),
    (
        Among::All,
        b"SOURCE(EXECUTABLE(command 'c'))",
        b" unexpected 29",
    ),
    (
        Among::All,
        b"SOURCE(EXECUTABLE(format TSV))",
        b" unexpected 28",
    ),
    (
        Among::All,
        b"SOURCE(EXECUTABLE(command 'c' format TSV) LAYOUT",
        b" unexpected 42",
    ),
    (
        Among::All,
        b"SOURCE(EXECUTABLE(command c",
        b" unexpected 26",
    ),
    (
        Among::All,
        b"SOURCE(EXECUTABLE(command \"c\"",
        b" unexpected 26",
    ),
    (
        Among::All,
        b"SOURCE(EXECUTABLE(format JSONEachRow",
        b" unsupported 25",
    ),
    (
        Among::All,
        b"SOURCE(EXECUTABLE(format tsv",
        b" unsupported 25",
    ),
    (
        Among::All,
        b"SOURCE(EXECUTABLE(format 'Csv'",
        b" unsupported 25",
    ),
    (Among::All, b"SOURCE(EXECUTABLE(format 1", b" unexpected 25"),
    (
        Among::All,
        b"SOURCE(EXECUTABLE(format 'TabSeparated' command '')) LAYOUT(HASHED)",
        b" command ",
    ),
    (
        Among::All,
        b"SOURCE(EXECUTABLE(format \"CSV\" command 'c')) LAYOUT(HASHED)",
        b" csv",
    ),
];

#[test]
fn sources_are_read(rt: HostRuntime) -> Result<(), Fail> {
    assert_eq!(rt; first_wrong(rt.alloc(), &SOURCES)?, None);
    Ok(())
}
