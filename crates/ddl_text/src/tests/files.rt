// Statements and whole files.
use super::show::{Among, Look, MOST, push_number, show, show_among};
use dict_value::{Bytes, NoMemory};
use std::alloc::Global;
use std::test::Fail;

static FILES: [(&[u8], &[u8]); 49] = [
    (b"", b""),
    (b" -- nothing\n/* at all */", b""),
    (b"CREATE DICTIONARY d (id Float64)", b" 1 24 unsupported"),
    (
        b"\n\nCREATE DICTIONARY d (id Float64)",
        b" 3 26 unsupported",
    ),
    (b";", b" 1 0 unexpected"),
    (b"\n DROP DICTIONARY d", b" 2 2 unexpected"),
    (b"CREATE TABLE", b" 1 7 unexpected"),
    (b"`CREATE` DICTIONARY", b" 1 0 unexpected"),
    (b"CREATE OR DICTIONARY", b" 1 10 unexpected"),
    (b"OR REPLACE DICTIONARY", b" 1 0 unexpected"),
    (b"CREATE DICTIONARY (", b" 1 18 unexpected"),
    (b"CREATE DICTIONARY 'd' (", b" 1 18 unexpected"),
    (b"CREATE DICTIONARY a. (", b" 1 21 unexpected"),
    (b"CREATE DICTIONARY a.b.c (", b" 1 21 unexpected"),
    (b"CREATE DICTIONARY IF NOT d (", b" 1 25 unexpected"),
    (b"CREATE DICTIONARY IF NOT EXISTS (", b" 1 32 unexpected"),
    (b"CREATE DICTIONARY IF d (", b" 1 21 unexpected"),
    (
        b"CREATE DICTIONARY `IF` NOT EXISTS d (",
        b" 1 23 unexpected",
    ),
    (b"CREATE DICTIONARY d PRIMARY", b" 1 20 unexpected"),
    (b"CREATE DICTIONARY d ()", b" 1 21 unexpected"),
    (b"CREATE DICTIONARY d (id UInt64", b" 1 30 unexpected"),
    (b"CREATE DICTIONARY d (id UInt64 $", b" 1 31 unexpected"),
    (b"CREATE DICTIONARY d (id UInt64 'a", b" 1 31 unexpected"),
    (b"CREATE DICTIONARY d (id /* a", b" 1 24 unexpected"),
    (b"CREATE DICTIONARY d (id `\\x1`", b" 1 25 unexpected"),
    (
        b"create or replace dictionary if not exists d (id UInt64) PRIMARY KEY id SOURCE(EXECUTABLE(command 'c' \
            format TSV)) LAYOUT(FLAT)",
        b" d",
    ),
    (
        b"CREATE DICTIONARY a . `b c` (id UInt64) PRIMARY KEY id SOURCE(EXECUTABLE(command 'c' format TSV)) \
            LAYOUT(FLAT);",
        b" a.b c",
    ),
    (
        b"CREATE DICTIONARY if (id UInt64) PRIMARY KEY id SOURCE(EXECUTABLE(command 'c' format TSV)) LAYOUT(FLAT);",
        b" if",
    ),
    (
        b"CREATE DICTIONARY IF NOT EXISTS if.not (id UInt64) PRIMARY KEY id SOURCE(EXECUTABLE(command 'c' \
            format TSV)) LAYOUT(FLAT);",
        b" if.not",
    ),
    (
        b"CREATE DICTIONARY d (id UInt64) PRIMARY KEY id SOURCE(EXECUTABLE(command 'c' format TSV)) LAYOUT(FLAT);;",
        b" 1 103 unexpected",
    ),
    (
        b"CREATE DICTIONARY d (id UInt64) PRIMARY KEY id SOURCE(EXECUTABLE(command 'c' format TSV)) \
            LAYOUT(FLAT)\nCREATE",
        b" 2 103 unexpected",
    ),
    (
        b"CREATE DICTIONARY d (id UInt64) PRIMARY KEY id SOURCE(EXECUTABLE(command 'c' format TSV)) \
            LAYOUT(FLAT);\nCREATE",
        b" 2 110 unexpected",
    ),
    // a repeated name; a function may have a dictionary's
    (
        b"CREATE DICTIONARY d (id UInt64) PRIMARY KEY id SOURCE(EXECUTABLE(command 'c' format TSV)) \
            LAYOUT(FLAT);\n\nCREATE DICTIONARY `d` (id UInt64) PRIMARY KEY id SOURCE(EXECUTABLE(command 'c' \
            format TSV)) LAYOUT(FLAT)",
        b" 3 105 duplicate name 2",
    ),
    (
        b"CREATE DICTIONARY d (id UInt64) PRIMARY KEY id SOURCE(EXECUTABLE(command 'c' format TSV)) \
            LAYOUT(FLAT);EXECUTABLE FUNCTION d(a UInt8) RETURNS UInt8 SOURCE(EXECUTABLE(command 'c' format TSV))",
        b" d d()",
    ),
    // the fault of a definition comes before those of later statements, and behind its own statement's
    (
        b"CREATE DICTIONARY d (id UInt8) PRIMARY KEY id SOURCE(EXECUTABLE(command 'c' format TSV)) \
            LAYOUT(FLAT); nonsense",
        b" 1 0 simple key type",
    ),
    (
        b"CREATE DICTIONARY d (id UInt8) PRIMARY KEY id SOURCE(EXECUTABLE(command 'c' format TSV)) LAYOUT(FLAT) \
            nonsense",
        b" 1 102 unexpected",
    ),
    (
        b"CREATE DICTIONARY d (id UInt64, x Decimal(50, 2)) PRIMARY KEY id SOURCE(nonsense",
        b" 1 34 unsupported",
    ),
    (
        b"CREATE DICTIONARY `` (id UInt64) PRIMARY KEY id SOURCE(EXECUTABLE(command 'c' format TSV)) LAYOUT(FLAT)",
        b" 1 0 limit name 0",
    ),
    (
        b"CREATE DICTIONARY d (id Nullable(UInt64)) PRIMARY KEY id SOURCE(EXECUTABLE(command 'c' format TSV)) \
            LAYOUT(FLAT)",
        b" 1 0 simple key type",
    ),
    (
        b"CREATE DICTIONARY d (id Nullable(UInt64)) PRIMARY KEY id SOURCE(EXECUTABLE(command 'c' format TSV)) \
            LAYOUT(COMPLEX_KEY_HASHED)",
        b" 1 0 key type 1",
    ),
    (
        b"EXECUTABLE FUNCTION f() RETURNS UInt8 SOURCE(EXECUTABLE(command 'c' format TSV))",
        b" 1 0 no arguments",
    ),
    (
        b"EXECUTABLE FUNCTION f(a UInt8, a String) RETURNS UInt8 SOURCE(EXECUTABLE(command 'c' format TSV))",
        b" 1 0 duplicate name 2",
    ),
    (
        b"EXECUTABLE FUNCTION f(a Date, b Date, c Date, d Date, e Date, f Date, g Date, h Date, i Date, j Date, \
            k Date, l Date, m Date, n Date, o Date, p Date, q Date) RETURNS Date \
            SOURCE(EXECUTABLE(command 'c' format TSV))",
        b" 1 0 limit arguments 17",
    ),
    (
        b"EXECUTABLE FUNCTION f(a UInt8,) RETURNS UInt8",
        b" 1 30 unexpected",
    ),
    (b"EXECUTABLE FUNCTION f.g(a UInt8)", b" 1 21 unexpected"),
    (b"EXECUTABLE DICTIONARY", b" 1 11 unexpected"),
    (
        b"EXECUTABLE FUNCTION f(a UInt8) SOURCE(",
        b" 1 31 unexpected",
    ),
    (
        b"EXECUTABLE FUNCTION f(a UInt8) RETURNS UInt8 SOURCE(EXECUTABLE(command 'c' format TSV)) LAYOUT(FLAT)",
        b" 1 88 unexpected",
    ),
    (
        b"EXECUTABLE FUNCTION f(a UInt8) RETURNS UInt8 SOURCE(EXECUTABLE(command 'c' format TSV)) \
            SETTINGS(max_output_bytes = 200000000)",
        b" 1 0 limit output 200000000",
    ),
];

#[test]
fn files(rt: HostRuntime) -> Result<(), Fail> {
    for (text, wanted) in &FILES {
        let shown = show_among(rt.alloc(), Look::Names, Among::File, text)?;
        assert_eq!(rt; shown.as_slice(), *wanted);
    }
    Ok(())
}

/// What is looked at in a file.
static LOOKS: [(Look, &[u8], &[u8]); 7] = [
    (
        Look::Columns,
        b"EXECUTABLE FUNCTION f(a UInt8, `b` Nullable(Decimal(5, 1))) RETURNS Nullable(String) \
            SOURCE(EXECUTABLE(command 'c' format TSV)) SETTINGS(max_output_bytes = 7)",
        b" a UInt8 b Decimal 5 1 nullable gives String nullable 7",
    ),
    (
        Look::Columns,
        b"EXECUTABLE FUNCTION f(a UInt8) RETURNS DateTime('UTC') SOURCE(EXECUTABLE_POOL(command 'c' format CSV));",
        b" a UInt8 gives DateTime 67108864",
    ),
    // a default of a key or an end of the range has no effect
    (
        Look::Columns,
        b"CREATE DICTIONARY d (id UInt64 DEFAULT 7, a Date DEFAULT '2000-01-01', b Nullable(Date) DEFAULT \
            '2000-01-01', c Date DEFAULT '1970-01-02') PRIMARY KEY id SOURCE(EXECUTABLE(command 'c' format \
            TSV)) LAYOUT(RANGE_HASHED) RANGE(MIN a MAX b)",
        b" id UInt64 0, a Date 0, b Date nullable NULL, c Date 1 by 0",
    ),
    (
        Look::Columns,
        b"CREATE DICTIONARY d (id UInt64 DEFAULT 'q', x String) PRIMARY KEY id SOURCE(EXECUTABLE(command 'c' \
            format TSV)) LAYOUT(FLAT)",
        b" 1 0 bad default 1",
    ),
    // the line of the canonical text
    (Look::Columns, CANONICAL, b" id UInt64 0, x String '' by 0"),
    (Look::Source, CANONICAL, b" c 10000 10000 10 16 10"),
    (Look::Clauses, CANONICAL, b" flat 1024 500000 0 0"),
];

const CANONICAL: &[u8] =
    b"CREATE DICTIONARY `d` (`id` UInt64, `x` String DEFAULT '') PRIMARY KEY `id` SOURCE(EXECUTABLE(command 'c' \
        format 'TabSeparated' execute_direct 0 implicit_key 0 send_chunk_header 0 command_read_timeout 10000 \
        command_write_timeout 10000 command_termination_timeout 10)) LAYOUT(FLAT(INITIAL_ARRAY_SIZE 1024 \
        MAX_ARRAY_SIZE 500000)) LIFETIME(MIN 0 MAX 0) SETTINGS(max_output_bytes = 67108864)";

#[test]
fn looks(rt: HostRuntime) -> Result<(), Fail> {
    for (look, text, wanted) in &LOOKS {
        let shown = show_among(rt.alloc(), *look, Among::File, text)?;
        assert_eq!(rt; shown.as_slice(), *wanted);
    }
    Ok(())
}

/// So many statements of a kind, each with a name of its own.
fn many(alloc: Global, count: u32, front: &[u8], back: &[u8]) -> Result<Bytes, NoMemory> {
    let mut text = Bytes::new(alloc);
    for number in 0..count {
        text.extend(front)?;
        text.push(b'n')?;
        let mut digits = itoa::Buffer::new();
        text.extend(digits.format(number).as_bytes())?;
        text.extend(back)?;
    }
    Ok(text)
}

const DICTIONARY: (&[u8], &[u8]) = (
    b"CREATE DICTIONARY ",
    b" (id UInt64) PRIMARY KEY id SOURCE(EXECUTABLE(command 'c' format TSV)) LAYOUT(FLAT);\n",
);

const FUNCTION: (&[u8], &[u8]) = (
    b"EXECUTABLE FUNCTION ",
    b"(a UInt8) RETURNS UInt8 SOURCE(EXECUTABLE(command 'c' format TSV));\n",
);

/// How many items a text has, or its fault.
fn count(alloc: Global, text: &[u8]) -> Result<Bytes, NoMemory> {
    if text.len() > MOST {
        return Ok(Bytes::new(alloc));
    }
    match crate::parse_definitions(alloc, text) {
        Ok(items) => {
            let mut out = Bytes::new(alloc);
            push_number(items.len() as u64, &mut out)?;
            Ok(out)
        }
        Err(_) => show(alloc, Look::Names, 0, text),
    }
}

#[test]
fn the_129th_of_a_kind_is_too_many(rt: HostRuntime) -> Result<(), Fail> {
    let mut both = many(rt.alloc(), 128, DICTIONARY.0, DICTIONARY.1)?;
    assert_eq!(rt;
        count(rt.alloc(), both.as_slice())?.as_slice(),
        b" 128".as_slice()
    );
    both.extend(many(rt.alloc(), 128, FUNCTION.0, FUNCTION.1)?.as_slice())?;
    assert_eq!(rt;
        count(rt.alloc(), both.as_slice())?.as_slice(),
        b" 256".as_slice()
    );
    let dictionaries = many(rt.alloc(), 129, DICTIONARY.0, DICTIONARY.1)?;
    assert_eq!(rt;
        count(rt.alloc(), dictionaries.as_slice())?.as_slice(),
        b" 129 13586 too many".as_slice()
    );
    let functions = many(rt.alloc(), 129, FUNCTION.0, FUNCTION.1)?;
    assert_eq!(rt;
        count(rt.alloc(), functions.as_slice())?.as_slice(),
        b" 129 11666 too many".as_slice()
    );
    Ok(())
}

/// A dictionary with so many columns and keys, all of one name but the first.
fn wide(alloc: Global, columns: u32, keys: u32) -> Result<Bytes, NoMemory> {
    let mut text = Bytes::copy_of(alloc, b"CREATE DICTIONARY d (id UInt64")?;
    for _ in 0..columns {
        text.extend(b", x String")?;
    }
    text.extend(b") PRIMARY KEY id")?;
    for _ in 0..keys {
        text.extend(b", x")?;
    }
    text.extend(b" SOURCE(EXECUTABLE(command 'c' format TSV)) LAYOUT(FLAT)")?;
    Ok(text)
}

#[test]
fn limits_of_columns_and_keys(rt: HostRuntime) -> Result<(), Fail> {
    let cases: [(u32, u32, &[u8]); 5] = [
        (0, 0, b" 1"),
        (63, 0, b" 1 0 duplicate name 3"),
        (64, 0, b" 1 0 limit columns 65"),
        (9000, 9000, b" 1 0 limit columns 9001"),
        (1, 16, b" 1 0 limit keys 17"),
    ];
    for (columns, keys, wanted) in cases {
        let text = wide(rt.alloc(), columns, keys)?;
        assert_eq!(rt; count(rt.alloc(), text.as_slice())?.as_slice(), wanted);
    }
    Ok(())
}
