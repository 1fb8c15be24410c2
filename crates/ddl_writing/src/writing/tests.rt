// Definitions, and the texts that they have.
use crate::write_definition;
use dict_schema::{
    Arg, CacheSet, Column, Definition, Format, FunctionDef, Item, Kind, Layout, Lifetime, RangeOf,
    SourceOf, Strategy, Update, check,
};
use dict_value::{AttrType, Bytes, ColType, ListOf, NoMemory, Value};
use std::alloc::Global;
use std::test::Fail;

/// A default, as plain data.
#[derive(Clone, Copy)]
enum Default {
    Null,
    Number(u64),
    Signed(i64),
    Text(&'static [u8]),
    Day(u16),
    Second(u32),
    Id(u128),
    V4(u32),
    V6(u128),
    Decimal(i128),
}

fn value_of(alloc: Global, default: Default) -> Result<Value, NoMemory> {
    Ok(match default {
        Default::Null => Value::Null,
        Default::Number(n) => Value::U(n),
        Default::Signed(z) => Value::I(z),
        Default::Text(text) => Value::S(Bytes::copy_of(alloc, text)?),
        Default::Day(n) => Value::Day(n),
        Default::Second(n) => Value::Second(n),
        Default::Id(n) => Value::Id(n),
        Default::V4(n) => Value::V4(n),
        Default::V6(n) => Value::V6(n),
        Default::Decimal(z) => Value::Dec(z),
    })
}

fn column(
    alloc: Global,
    name: &[u8],
    base: ColType,
    nullable: bool,
    default: Default,
) -> Result<Column, NoMemory> {
    Ok(Column {
        name: Bytes::copy_of(alloc, name)?,
        ty: AttrType { base, nullable },
        default: value_of(alloc, default)?,
        hierarchical: false,
        object_id: false,
        injective: false,
    })
}

fn source(alloc: Global, command: &[u8]) -> Result<SourceOf, NoMemory> {
    Ok(SourceOf {
        kind: Kind::Executable,
        command: Bytes::copy_of(alloc, command)?,
        format: Format::Tab,
        direct: false,
        implicit: false,
        header: false,
        read_ms: 10_000,
        write_ms: 10_000,
        end_s: 10,
        pool_size: 16,
        execution_s: 10,
        update: Update::None,
    })
}

/// A dictionary of a key and another column.
fn dictionary(alloc: Global, layout: Layout, other: Column) -> Result<Definition, NoMemory> {
    let mut columns = ListOf::new(alloc);
    columns.push(column(alloc, b"id", ColType::UInt64, false, Default::Number(0))?)?;
    columns.push(other)?;
    let mut keys = ListOf::new(alloc);
    keys.push(0)?;
    Ok(Definition {
        name: Bytes::copy_of(alloc, b"d")?,
        columns,
        keys,
        source: source(alloc, b"c")?,
        layout,
        lifetime: Lifetime { min: 0, max: 0 },
        range: RangeOf::None,
        max_output: 67_108_864,
        comment: Bytes::new(alloc),
    })
}

/// The text of a dictionary without a fault, else none.
fn text_of(alloc: Global, d: Definition) -> Result<Bytes, NoMemory> {
    let mut out = Bytes::new(alloc);
    if check(&d).is_ok() {
        write_definition(&Item::Dictionary(d), &mut out)?;
    }
    Ok(out)
}

/// Whether a piece stands in a text.
fn has(text: &[u8], piece: &[u8]) -> bool {
    for place in 0..text.len() {
        if text[place..].starts_with(piece) {
            return true;
        }
    }
    false
}

const FLAT: Layout = Layout::Flat {
    initial: 1024,
    max: 500_000,
};

#[test]
fn a_dictionary(rt: HostRuntime) -> Result<(), Fail> {
    let alloc = rt.alloc();
    let other = column(alloc, b"x", ColType::Str, false, Default::Text(b""))?;
    let written = text_of(alloc, dictionary(alloc, FLAT, other)?)?;
    let wanted: &[u8] =
        b"CREATE DICTIONARY `d` (`id` UInt64, `x` String DEFAULT '') PRIMARY KEY `id` \
        SOURCE(EXECUTABLE(command 'c' format 'TabSeparated' execute_direct 0 implicit_key 0 send_chunk_header 0 \
        command_read_timeout 10000 command_write_timeout 10000 command_termination_timeout 10)) \
        LAYOUT(FLAT(INITIAL_ARRAY_SIZE 1024 MAX_ARRAY_SIZE 500000)) LIFETIME(MIN 0 MAX 0) \
        SETTINGS(max_output_bytes = 67108864)";
    assert_eq!(rt; written.as_slice(), wanted);
    Ok(())
}

/// Types and defaults, and the column that they are written as.
static COLUMNS: [(ColType, bool, Default, &[u8]); 17] = [
    (
        ColType::UInt8,
        false,
        Default::Number(255),
        b"`x` UInt8 DEFAULT 255)",
    ),
    (
        ColType::UInt16,
        false,
        Default::Number(0),
        b"`x` UInt16 DEFAULT 0)",
    ),
    (
        ColType::UInt32,
        true,
        Default::Null,
        b"`x` Nullable(UInt32) DEFAULT NULL)",
    ),
    (
        ColType::UInt64,
        true,
        Default::Number(7),
        b"`x` Nullable(UInt64) DEFAULT 7)",
    ),
    (
        ColType::Int8,
        false,
        Default::Signed(-128),
        b"`x` Int8 DEFAULT -128)",
    ),
    (
        ColType::Int16,
        false,
        Default::Signed(0),
        b"`x` Int16 DEFAULT 0)",
    ),
    (
        ColType::Int32,
        false,
        Default::Signed(1),
        b"`x` Int32 DEFAULT 1)",
    ),
    (
        ColType::Int64,
        false,
        Default::Signed(-1),
        b"`x` Int64 DEFAULT -1)",
    ),
    (
        ColType::Str,
        false,
        Default::Text(b"it's `\\` \x08\x0c\r\n\t\0\x07\""),
        b"`x` String DEFAULT 'it\\'s `\\\\` \\b\\f\\r\\n\\t\\0\x07\"')",
    ),
    (
        ColType::Str,
        true,
        Default::Text(b""),
        b"`x` Nullable(String) DEFAULT '')",
    ),
    (
        ColType::Date,
        false,
        Default::Day(0),
        b"`x` Date DEFAULT '1970-01-01')",
    ),
    (
        ColType::DateTime,
        false,
        Default::Second(1),
        b"`x` DateTime DEFAULT '1970-01-01 00:00:01')",
    ),
    (
        ColType::Uuid,
        false,
        Default::Id(1),
        b"`x` UUID DEFAULT '00000000-0000-0000-0000-000000000001')",
    ),
    (
        ColType::Ipv4,
        false,
        Default::V4(1),
        b"`x` IPv4 DEFAULT '0.0.0.1')",
    ),
    (
        ColType::Ipv6,
        false,
        Default::V6(1),
        b"`x` IPv6 DEFAULT '::1')",
    ),
    (
        ColType::Decimal(9, 2),
        false,
        Default::Decimal(-150),
        b"`x` Decimal(9, 2) DEFAULT -1.5)",
    ),
    (
        ColType::Decimal(38, 0),
        true,
        Default::Null,
        b"`x` Nullable(Decimal(38, 0)) DEFAULT NULL)",
    ),
];

#[test]
fn columns(rt: HostRuntime) -> Result<(), Fail> {
    let alloc = rt.alloc();
    for (base, nullable, default, wanted) in &COLUMNS {
        let other = column(alloc, b"x", *base, *nullable, *default)?;
        let written = text_of(alloc, dictionary(alloc, FLAT, other)?)?;
        assert!(rt; has(written.as_slice(), wanted));
    }
    Ok(())
}

/// Layouts, and the clause that they are written as.
static LAYOUTS: [(Layout, &[u8]); 11] = [
    (
        Layout::Flat { initial: 1, max: 2 },
        b" LAYOUT(FLAT(INITIAL_ARRAY_SIZE 1 MAX_ARRAY_SIZE 2)) ",
    ),
    (Layout::Hashed, b" LAYOUT(HASHED()) "),
    (Layout::SparseHashed, b" LAYOUT(SPARSE_HASHED()) "),
    (Layout::HashedArray, b" LAYOUT(HASHED_ARRAY()) "),
    (Layout::ComplexHashed, b" LAYOUT(COMPLEX_KEY_HASHED()) "),
    (
        Layout::ComplexSparseHashed,
        b" LAYOUT(COMPLEX_KEY_SPARSE_HASHED()) ",
    ),
    (
        Layout::ComplexHashedArray,
        b" LAYOUT(COMPLEX_KEY_HASHED_ARRAY()) ",
    ),
    (
        Layout::Cache(CacheSet {
            cells: 3,
            expired: false,
            queue: 4,
        }),
        b" LAYOUT(CACHE(SIZE_IN_CELLS 3 ALLOW_READ_EXPIRED_KEYS 0 MAX_UPDATE_QUEUE_SIZE 4)) ",
    ),
    (
        Layout::ComplexCache(CacheSet {
            cells: 3,
            expired: true,
            queue: 4,
        }),
        b" LAYOUT(COMPLEX_KEY_CACHE(SIZE_IN_CELLS 3 ALLOW_READ_EXPIRED_KEYS 1 MAX_UPDATE_QUEUE_SIZE 4)) ",
    ),
    (Layout::Direct, b" LAYOUT(DIRECT()) "),
    (Layout::ComplexDirect, b" LAYOUT(COMPLEX_KEY_DIRECT()) "),
];

#[test]
fn layouts(rt: HostRuntime) -> Result<(), Fail> {
    let alloc = rt.alloc();
    for (layout, wanted) in &LAYOUTS {
        let other = column(alloc, b"x", ColType::Str, false, Default::Text(b""))?;
        let written = text_of(alloc, dictionary(alloc, *layout, other)?)?;
        assert!(rt; has(written.as_slice(), wanted));
    }
    Ok(())
}

/// A dictionary with a range, whose columns have no default.
fn ranged(alloc: Global, strategy: Strategy) -> Result<Definition, NoMemory> {
    let other = column(alloc, b"from", ColType::Date, false, Default::Day(0))?;
    let mut d = dictionary(alloc, Layout::RangeHashed(strategy), other)?;
    d.columns
        .push(column(alloc, b"to", ColType::Date, true, Default::Null)?)?;
    d.columns.push(column(alloc, b"p`", ColType::Int8, false, Default::Signed(5))?)?;
    d.range = RangeOf::Columns { start: 1, end: 2 };
    d.lifetime = Lifetime { min: 3, max: 4 };
    d.comment = Bytes::copy_of(alloc, b"it's")?;
    Ok(d)
}

#[test]
fn ranges(rt: HostRuntime) -> Result<(), Fail> {
    let alloc = rt.alloc();
    let written = text_of(alloc, ranged(alloc, Strategy::Min)?)?;
    let text = written.as_slice();
    assert!(rt;
        has(
            text,
            b" (`id` UInt64, `from` Date, `to` Nullable(Date), `p\\`` Int8 DEFAULT 5) PRIMARY KEY"
        )
    );
    assert!(rt;
        has(
            text,
            b" LAYOUT(RANGE_HASHED(range_lookup_strategy 'min')) LIFETIME(MIN 3 MAX 4) RANGE(MIN `from` MAX `to`) \
              SETTINGS(max_output_bytes = 67108864) COMMENT 'it\\'s'"
        )
    );
    let written = text_of(alloc, ranged(alloc, Strategy::Max)?)?;
    assert!(rt;
        has(
            written.as_slice(),
            b"(RANGE_HASHED(range_lookup_strategy 'max'))"
        )
    );
    Ok(())
}

/// A dictionary with two keys, marks, a pool and each setting of its source.
fn pooled(alloc: Global) -> Result<Definition, NoMemory> {
    let other = column(alloc, b"x", ColType::Str, false, Default::Text(b""))?;
    let mut d = dictionary(alloc, Layout::ComplexDirect, other)?;
    d.keys.push(1)?;
    let mut up = column(alloc, b"up", ColType::UInt64, false, Default::Number(0))?;
    up.object_id = true;
    up.injective = true;
    d.columns.push(up)?;
    d.source.kind = Kind::Pool;
    d.source.format = Format::Csv;
    d.source.direct = true;
    d.source.implicit = true;
    d.source.header = true;
    d.source.read_ms = 1;
    d.source.write_ms = 2;
    d.source.end_s = 3;
    d.source.pool_size = 4;
    d.source.execution_s = 5;
    Ok(d)
}

#[test]
fn pools(rt: HostRuntime) -> Result<(), Fail> {
    let alloc = rt.alloc();
    let written = text_of(alloc, pooled(alloc)?)?;
    let text = written.as_slice();
    assert!(rt;
        has(
            text,
            b"`x` String, `up` UInt64 DEFAULT 0 IS_OBJECT_ID INJECTIVE) PRIMARY KEY `id`, `x` SOURCE("
        )
    );
    assert!(rt;
        has(
            text,
            b" SOURCE(EXECUTABLE_POOL(command 'c' format 'CSV' execute_direct 1 implicit_key 1 send_chunk_header 1 \
              command_read_timeout 1 command_write_timeout 2 command_termination_timeout 3 pool_size 4 max_command_execution_time 5)) LAYOUT("
        )
    );
    Ok(())
}

#[test]
fn updates(rt: HostRuntime) -> Result<(), Fail> {
    let alloc = rt.alloc();
    let mut up = column(alloc, b"up", ColType::UInt64, false, Default::Number(0))?;
    up.hierarchical = true;
    let mut d = dictionary(alloc, Layout::Hashed, up)?;
    d.source.update = Update::Field {
        name: Bytes::copy_of(alloc, b"ts")?,
        lag: 5,
    };
    let written = text_of(alloc, d)?;
    let text = written.as_slice();
    assert!(rt; has(text, b"`up` UInt64 DEFAULT 0 HIERARCHICAL) PRIMARY KEY"));
    assert!(rt;
        has(
            text,
            b" command_termination_timeout 10 update_field 'ts' update_lag 5)) LAYOUT("
        )
    );
    Ok(())
}

#[test]
fn a_function(rt: HostRuntime) -> Result<(), Fail> {
    let alloc = rt.alloc();
    let mut args = ListOf::new(alloc);
    args.push(Arg {
        name: Bytes::copy_of(alloc, b"a")?,
        ty: AttrType {
            base: ColType::UInt8,
            nullable: false,
        },
    })?;
    args.push(Arg {
        name: Bytes::copy_of(alloc, b"b")?,
        ty: AttrType {
            base: ColType::Str,
            nullable: true,
        },
    })?;
    let function = Item::Function(FunctionDef {
        name: Bytes::copy_of(alloc, b"f")?,
        args,
        returns: AttrType {
            base: ColType::Date,
            nullable: false,
        },
        source: source(alloc, b"c")?,
        max_output: 9,
    });
    let mut out = Bytes::new(alloc);
    write_definition(&function, &mut out)?;
    let wanted: &[u8] = b"EXECUTABLE FUNCTION `f` (`a` UInt8, `b` Nullable(String)) RETURNS Date \
          SOURCE(EXECUTABLE(command 'c' format 'TabSeparated' execute_direct 0 send_chunk_header 0 \
          command_read_timeout 10000 command_write_timeout 10000 command_termination_timeout 10)) SETTINGS(max_output_bytes = 9)";
    assert_eq!(rt; out.as_slice(), wanted);
    Ok(())
}
