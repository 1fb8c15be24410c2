// Definitions that are written are read again.
ghost use Rattle.std.specs.Prelude.{IsTrue};
ghost use Rattle.ddl_writing.specs.Canonical.{HasNoFault};

use super::damage::SHOP;
use super::show::{Look, MOST, show};
use crate::{parse_definitions, write_definition};
use dict_schema::{Item, check};
use dict_value::{Bytes, NoMemory};
use std::alloc::Global;
use std::test::Fail;

/// Whether no fault of a dictionary stands.
fn stands(item: &Item) -> bool
    ensures { IsTrue result → HasNoFault item.now }
{
    match item {
        Item::Dictionary(d) => check(d).is_ok(),
        Item::Function(_) => true,
    }
}

/// The texts of the items that a file defines, each with a semicolon.
fn written(alloc: Global, text: &[u8]) -> Result<Bytes, NoMemory> {
    let mut out = Bytes::new(alloc);
    if text.len() > MOST {
        return Ok(out);
    }
    let Ok(items) = parse_definitions(alloc, text) else {
        return Ok(out);
    };
    for item in items.as_slice() {
        if stands(item) {
            write_definition(item, &mut out)?;
            out.push(b';')?;
        }
    }
    Ok(out)
}

const PLAIN: &[u8] = b"CREATE DICTIONARY `d` (`id` UInt64, `x` String DEFAULT '') PRIMARY KEY `id` \
    SOURCE(EXECUTABLE(command 'c' format 'TabSeparated' execute_direct 0 implicit_key 0 send_chunk_header 0 \
    command_read_timeout 10000 command_write_timeout 10000 command_termination_timeout 10)) \
    LAYOUT(FLAT(INITIAL_ARRAY_SIZE 1024 MAX_ARRAY_SIZE 500000)) LIFETIME(MIN 0 MAX 0) \
    SETTINGS(max_output_bytes = 67108864);";

/// What is shown of a text, and of what is written of its items.
fn looks_same(alloc: Global, look: Look, text: &[u8]) -> Result<bool, NoMemory> {
    let again = written(alloc, text)?;
    let before = show(alloc, look, 0, text)?;
    let after = show(alloc, look, 0, again.as_slice())?;
    Ok(before.is_same(&after))
}

/// Every look at a file's items.
static LOOKS: [Look; 4] = [Look::Names, Look::Columns, Look::Source, Look::Clauses];

/// Files with what the realistic one lacks: each kind of default, marks, escapes, caches and what changed.
static FILES: [&[u8]; 3] = [
    SHOP,
    b"CREATE DICTIONARY `a\\`b` (id UInt64, up UInt64 DEFAULT 5 INJECTIVE HIERARCHICAL IS_OBJECT_ID, \
        s Nullable(String) DEFAULT NULL, t String DEFAULT 'it''s \\n\\\\', z Int8 DEFAULT -1, \
        p Decimal64(2) DEFAULT 1.5, u UUID, d DateTime('UTC') DEFAULT '2020-01-02 03:04:05', i IPv4, j IPv6) \
        PRIMARY KEY id SOURCE(EXECUTABLE(command 'c' format CSV update_field ts update_lag 7)) \
        LAYOUT(HASHED(SHARDS 3)) COMMENT 'it''s' LIFETIME(5)",
    b"CREATE DICTIONARY e (a UInt8, b Date, v String) PRIMARY KEY (a, b) SOURCE(EXECUTABLE_POOL(format TSV \
        command 'c' max_command_execution_time 3)) LAYOUT(COMPLEX_KEY_CACHE(SIZE_IN_CELLS 9)) SETTINGS(max_output_bytes = 9)",
];

#[test]
fn written_is_read(rt: HostRuntime) -> Result<(), Fail> {
    let again = written(rt.alloc(), PLAIN)?;
    assert_eq!(rt; again.as_slice(), PLAIN);
    for file in &FILES {
        let once = written(rt.alloc(), file)?;
        assert!(rt; !once.is_empty());
        let twice = written(rt.alloc(), once.as_slice())?;
        assert_eq!(rt; once.as_slice(), twice.as_slice());
        for look in &LOOKS {
            assert!(rt; looks_same(rt.alloc(), *look, file)?);
        }
    }
    Ok(())
}
