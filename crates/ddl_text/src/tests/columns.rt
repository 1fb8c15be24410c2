// Columns, keys and names.
use super::show::{Among, Look, show_among};
use std::test::Fail;

/// Behind `id UInt64, ` in the brackets of the columns.
static COLUMNS: [(&[u8], &[u8]); 58] = [
    (b"x String", b" id UInt64 0, x String '' by 0"),
    (b"x UInt8 DEFAULT 255", b" id UInt64 0, x UInt8 255 by 0"),
    (b"x UInt8 DEFAULT 256", b" 1 0 bad default 2"),
    (b"x UInt16 DEFAULT '7'", b" id UInt64 0, x UInt16 7 by 0"),
    (b"x UInt32 DEFAULT +7", b" id UInt64 0, x UInt32 7 by 0"),
    (
        b"x UInt64 DEFAULT 18446744073709551615",
        b" id UInt64 0, x UInt64 18446744073709551615 by 0",
    ),
    (
        b"x UInt64 DEFAULT 18446744073709551616",
        b" 1 0 bad default 2",
    ),
    (b"x UInt64 DEFAULT -1", b" 1 0 bad default 2"),
    (b"x UInt64 DEFAULT 1.5", b" 1 0 bad default 2"),
    (b"x Int8 DEFAULT -128", b" id UInt64 0, x Int8 -128 by 0"),
    (b"x Int16", b" id UInt64 0, x Int16 0 by 0"),
    (b"x Int32 DEFAULT '-5'", b" id UInt64 0, x Int32 -5 by 0"),
    (b"x Int64 DEFAULT 5", b" id UInt64 0, x Int64 5 by 0"),
    (b"x String DEFAULT 12", b" id UInt64 0, x String '12' by 0"),
    (
        b"x String DEFAULT 99999999999999999999",
        b" id UInt64 0, x String '99999999999999999999' by 0",
    ),
    (b"x String DEFAULT NULL", b" 1 0 bad default 2"),
    (
        b"x String DEFAULT 'it\\'s' ",
        b" id UInt64 0, x String 'it's' by 0",
    ),
    (
        b"x Date DEFAULT '1970-01-03'",
        b" id UInt64 0, x Date 2 by 0",
    ),
    (b"x Date DEFAULT 'soon'", b" 1 0 bad default 2"),
    (
        b"x DateTime DEFAULT '1970-01-01 00:00:09'",
        b" id UInt64 0, x DateTime 9 by 0",
    ),
    (b"x DateTime('UTC')", b" id UInt64 0, x DateTime 0 by 0"),
    (b"x DateTime('CET')", b" 1 11 unsupported"),
    (b"x DateTime(UTC)", b" 1 11 unsupported"),
    (b"x DateTime(0)", b" 1 11 unsupported"),
    (b"x DateTime()", b" 1 11 unexpected"),
    (
        b"x UUID DEFAULT '00000000-0000-0000-0000-000000000007'",
        b" id UInt64 0, x UUID 7 by 0",
    ),
    (
        b"x IPv4 DEFAULT '0.0.1.1'",
        b" id UInt64 0, x IPv4 257 by 0",
    ),
    (b"x IPv6 DEFAULT '::9'", b" id UInt64 0, x IPv6 9 by 0"),
    (
        b"x Decimal(9, 2) DEFAULT 1.25",
        b" id UInt64 0, x Decimal 9 2 125 by 0",
    ),
    (b"x Decimal(5)", b" id UInt64 0, x Decimal 5 0 0 by 0"),
    (b"x Decimal32(4)", b" id UInt64 0, x Decimal 9 4 0 by 0"),
    (b"x Decimal64(18)", b" id UInt64 0, x Decimal 18 18 0 by 0"),
    (
        b"x Decimal128(0) DEFAULT '-7'",
        b" id UInt64 0, x Decimal 38 0 -7 by 0",
    ),
    (b"x Decimal(39, 2)", b" 1 2 unsupported"),
    (b"x Decimal(2, 3)", b" 1 2 unsupported"),
    (b"x Decimal(0)", b" 1 2 unsupported"),
    (b"x Decimal32(10)", b" 1 2 unsupported"),
    (b"x Decimal(39, 2;", b" 1 15 unexpected"),
    (
        b"x Nullable(Int8)",
        b" id UInt64 0, x Int8 nullable NULL by 0",
    ),
    (
        b"x Nullable(Int8) DEFAULT NULL",
        b" id UInt64 0, x Int8 nullable NULL by 0",
    ),
    (
        b"x Nullable(Int8) DEFAULT 3",
        b" id UInt64 0, x Int8 nullable 3 by 0",
    ),
    (
        b"x Nullable(DateTime('UTC')) DEFAULT '9999-99-99'",
        b" 1 0 bad default 2",
    ),
    (b"x Nullable(Nullable(Int8))", b" 1 11 unsupported"),
    (b"x Float64", b" 1 2 unsupported"),
    (b"x string", b" 1 2 unsupported"),
    (b"x 'String'", b" 1 2 unexpected"),
    (b"`x y` \"String\"", b" id UInt64 0, x y String '' by 0"),
    (
        b"up UInt64 HIERARCHICAL",
        b" id UInt64 0, up UInt64 0 hierarchical by 0",
    ),
    (
        b"x String injective Is_Object_Id",
        b" id UInt64 0, x String '' object injective by 0",
    ),
    (
        b"up UInt64 DEFAULT 5 INJECTIVE HIERARCHICAL",
        b" id UInt64 0, up UInt64 5 hierarchical injective by 0",
    ),
    (b"x String INJECTIVE INJECTIVE", b" 1 19 given twice"),
    (b"x String HIERARCHICAL", b" 1 0 hierarchy type 2"),
    (b"x String EXPRESSION f(x)", b" 1 9 unsupported"),
    (b"x String INJECTIVE DEFAULT 'a'", b" 1 19 unexpected"),
    (b"x String DEFAULT 'a' DEFAULT 'b'", b" 1 21 unexpected"),
    (b"x String DEFAULT y", b" 1 17 unexpected"),
    (b"x String, X String, x Date", b" 1 0 duplicate name 4"),
    (b"x String,", b" 1 9 unexpected"),
];

#[test]
fn columns(rt: HostRuntime) -> Result<(), Fail> {
    for (text, wanted) in &COLUMNS {
        let shown = show_among(rt.alloc(), Look::Columns, Among::Columns, text)?;
        assert_eq!(rt; shown.as_slice(), *wanted);
    }
    Ok(())
}

/// Behind the columns `id UInt64, x String, a Date, b Date`.
static KEYS: [(&[u8], &[u8]); 14] = [
    (
        b"PRIMARY KEY id SOURCE(EXECUTABLE(command 'c' format TSV)) LAYOUT(HASHED)",
        b" hashed 0 0",
    ),
    (
        b"primary key (id) SOURCE(EXECUTABLE(command 'c' format TSV)) LAYOUT(HASHED)",
        b" hashed 0 0",
    ),
    (
        b"PRIMARY KEY x, id SOURCE(EXECUTABLE(command 'c' format TSV)) LAYOUT(COMPLEX_KEY_HASHED)",
        b" complex hashed 0 0",
    ),
    (
        b"PRIMARY KEY (x, `id`) SOURCE(EXECUTABLE(command 'c' format TSV)) LAYOUT(COMPLEX_KEY_HASHED)",
        b" complex hashed 0 0",
    ),
    (
        b"PRIMARY KEY x SOURCE(EXECUTABLE(command 'c' format TSV)) LAYOUT(HASHED)",
        b" 1 0 simple key type",
    ),
    (
        b"PRIMARY KEY id, x SOURCE(EXECUTABLE(command 'c' format TSV)) LAYOUT(HASHED)",
        b" 1 0 simple key type",
    ),
    (
        b"PRIMARY KEY id, y SOURCE(EXECUTABLE(command 'c' format TSV)) LAYOUT(COMPLEX_KEY_HASHED)",
        b" 1 0 key missing 2",
    ),
    (
        b"PRIMARY KEY x, x SOURCE(EXECUTABLE(command 'c' format TSV)) LAYOUT(COMPLEX_KEY_HASHED)",
        b" 1 0 duplicate name 2",
    ),
    (b"PRIMARY KEY () SOURCE(", b" 1 13 unexpected"),
    (b"PRIMARY KEY id, SOURCE(", b" 1 22 unexpected"),
    (b"PRIMARY KEY (id), x", b" 1 16 unexpected"),
    (b"PRIMARY KEY id x", b" 1 15 unexpected"),
    (b"PRIMARY id", b" 1 8 unexpected"),
    (b"SOURCE(", b" 1 0 unexpected"),
];

#[test]
fn keys(rt: HostRuntime) -> Result<(), Fail> {
    for (text, wanted) in &KEYS {
        let shown = show_among(rt.alloc(), Look::Clauses, Among::Behind, text)?;
        assert_eq!(rt; shown.as_slice(), *wanted);
    }
    Ok(())
}
