// Versions of each layout: what they find, print and refuse.
ghost use Rattle.std.specs.Prelude.{◌≡◌, ◌<◌, ◌≤◌, ◌∷◌, ◌++◌, All, IfOk, IsTrue, OnOk, Some, [], false, length};
ghost use Rattle.std.specs.Prelude.{slice_get};
ghost use Rattle.std.specs.List.{AllZip};
ghost use Rattle.dict_schema.specs.Parts.{is_keyed_layout};
ghost use Rattle.dict_schema.specs.Sound.{IsSound, IsSoundBase, IsSoundType};
ghost use Rattle.dict_value.specs.Values.{FitsColumn};
ghost use Rattle.dict_value.specs.declared.value.TheConstants.{MOST_ROWS};
ghost use Rattle.dict_version.specs.Rows.{TakesRows};
ghost use Rattle.packed_rows.specs.Cells.{meaning};

use crate::version::cell_types;
use crate::{Key, LayoutFault, Version};
use dict_schema::{
    Column, Definition, Kind, Layout, Lifetime, RangeOf, SourceOf, Strategy, Update, check,
    is_keyed,
};
use dict_value::{
    AttrType, Bytes, ColType, Format, KeyList, ListOf, MOST_ROWS, NoMemory, Tally, default_of,
    fits_column,
};
use packed_rows::{Cell, Rows, RowsBuilder, value_of};
use std::alloc::Global;
use std::test::Fail;

/// What differs between the definitions of tests: the columns with their types, nullable or not, of which one may name
/// a parent, the keys, the layout and the range.
#[derive(Clone, Copy)]
struct Sketch {
    types: &'static [(ColType, bool)],
    parent: Option<usize>,
    keys: &'static [u8],
    layout: Layout,
    range: RangeOf,
}

fn columns_of(alloc: Global, sketch: &Sketch) -> Result<ListOf<Column>, NoMemory> {
    let mut columns = ListOf::new(alloc);
    for (place, (base, nullable)) in sketch.types.iter().enumerate() {
        let ty = AttrType {
            base: *base,
            nullable: *nullable,
        };
        columns.push(Column {
            name: Bytes::copy_of(alloc, &[b'a' + (place % 26) as u8])?,
            ty,
            default: default_of(alloc, &ty),
            hierarchical: sketch.parent == Some(place),
            object_id: false,
            injective: false,
        })?;
    }
    Ok(columns)
}

fn source_of(alloc: Global) -> Result<SourceOf, NoMemory> {
    Ok(SourceOf {
        kind: Kind::Executable,
        command: Bytes::copy_of(alloc, b"cat x")?,
        format: Format::Tab,
        direct: false,
        implicit: false,
        header: false,
        read_ms: 10_000,
        write_ms: 10_000,
        end_s: 10,
        pool_size: 16,
        execution_s: 10,
        update: Update::None,
    })
}

fn definition_of(alloc: Global, sketch: &Sketch) -> Result<Definition, NoMemory> {
    let mut keys = ListOf::new(alloc);
    for key in sketch.keys {
        keys.push(*key)?;
    }
    Ok(Definition {
        name: Bytes::copy_of(alloc, b"d")?,
        columns: columns_of(alloc, sketch)?,
        keys,
        source: source_of(alloc)?,
        layout: sketch.layout,
        lifetime: Lifetime { min: 0, max: 0 },
        range: sketch.range,
        max_output: 67_108_864,
        comment: Bytes::new(alloc),
    })
}

fn is_sound_base(base: ColType) -> bool
    ensures { IsTrue result → IsSoundBase base }
{
    match base {
        ColType::Decimal(digits, scale) => digits >= 1 && digits <= 38 && scale <= digits,
        _ => true,
    }
}

/// Whether no fault stands in a definition.
fn is_sound(d: &Definition) -> bool
    ensures { IsTrue result → IsSound d.now }
{
    match check(d) {
        Ok(()) => has_sound_types(d.columns.as_slice()),
        Err(_) => false,
    }
}

fn has_sound_types(columns: &[Column]) -> bool
    ensures { IsTrue result → All (λ column. IsSoundType column.ty) columns.now }
{
    for place in 0..columns.len() {
        if !is_sound_base(columns[place].ty.base) {
            return false;
        }
    }
    true
}

/// These rows in packed columns; one that doesn't fit its columns is no row.
fn rows_of(alloc: Global, types: &[AttrType], table: &[&[Cell<'static>]]) -> Result<Rows, NoMemory>
    ensures { IfOk result (All (AllZip FitsColumn types.now)) }
{
    let mut rows = RowsBuilder::new(alloc, types)?;
    for cells in table {
        push_row(alloc, &mut rows, types, cells)?;
    }
    Ok(rows.finish())
}

/// Adds a row of cells that fit their columns.
fn push_row(
    alloc: Global,
    rows: &mut RowsBuilder,
    types: &[AttrType],
    cells: &[Cell<'static>],
) -> Result<(), NoMemory>
    requires types { rows.old.types ≡ types.now }
    requires none { rows.old.open_row ≡ [] }
    requires fit { All (AllZip FitsColumn types.now) rows.old.rows }
    ensures types { rows.new.types ≡ types.now }
    ensures none { OnOk result (rows.new.open_row ≡ []) }
    ensures fit { All (AllZip FitsColumn types.now) rows.new.rows }
{
    if rows.row_count() >= MOST_ROWS || cells.len() != types.len() {
        return Err(NoMemory);
    }
    for place in 0..types.len() {
        push_fitting(alloc, rows, &types[place], &cells[place])?;
    }
    rows.end_row();
    Ok(())
}

/// Adds a cell that fits the type of its column.
fn push_fitting(
    alloc: Global,
    rows: &mut RowsBuilder,
    ty: &AttrType,
    cell: &Cell<'static>,
) -> Result<(), NoMemory>
    requires room { length rows.old.open_row < length rows.old.types }
    requires few { length rows.old.rows < 4294967295 }
    requires typed { slice_get rows.old.types (length rows.old.open_row) ≡ Some ty.now }
    ensures types { rows.new.types ≡ rows.old.types }
    ensures rows { rows.new.rows ≡ rows.old.rows }
    ensures open { OnOk result (rows.new.open_row ≡ rows.old.open_row ++ meaning cell.now ∷ []) }
    ensures fits { OnOk result (FitsColumn ty.now (meaning cell.now)) }
{
    let value = value_of(alloc, cell)?;
    if !fits_column(ty, &value) {
        return Err(NoMemory);
    }
    rows.push_cell(cell)
}

/// The version of a sketch and some rows, or why there is none.
fn version_of(
    alloc: Global,
    sketch: &Sketch,
    table: &[&[Cell<'static>]],
) -> Result<Result<Version<Tally>, LayoutFault>, Fail> {
    let d = definition_of(alloc, sketch)?;
    if !is_sound(&d) || is_keyed(&d) {
        return Err("no definition of a version".into());
    }
    let types = cell_types(alloc, &d)?;
    let rows = rows_of(alloc, types.as_slice(), table)?;
    if rows.len() > MOST_ROWS {
        return Err("too many rows".into());
    }
    Ok(Version::build(alloc, d, rows))
}

/// A key of a test.
#[derive(Clone, Copy)]
enum Asked {
    Simple(u64),
    List(&'static [Cell<'static>]),
    Ranged(&'static [Cell<'static>], i128),
    V4(u32),
    V6(u128),
}

fn values_of(alloc: Global, cells: &[Cell<'_>]) -> Result<KeyList, NoMemory> {
    let mut values = ListOf::new(alloc);
    for cell in cells {
        values.push(value_of(alloc, cell)?)?;
    }
    Ok(values)
}

fn key_of(alloc: Global, asked: Asked) -> Result<Key, NoMemory> {
    Ok(match asked {
        Asked::Simple(number) => Key::Simple(number),
        Asked::List(cells) => Key::List(values_of(alloc, cells)?),
        Asked::Ranged(cells, point) => Key::Ranged(values_of(alloc, cells)?, point),
        Asked::V4(bits) => Key::V4(bits),
        Asked::V6(bits) => Key::V6(bits),
    })
}

/// A definition and its rows.
struct Table {
    sketch: Sketch,
    rows: &'static [&'static [Cell<'static>]],
}

/// A definition, its rows, and the places that keys find.
struct Finding {
    sketch: Sketch,
    rows: &'static [&'static [Cell<'static>]],
    asked: &'static [(Asked, Option<u32>)],
}

const TWO: &[(ColType, bool)] = &[(ColType::UInt64, false), (ColType::Str, false)];

const RANGED: &[(ColType, bool)] = &[
    (ColType::UInt64, false),
    (ColType::UInt32, true),
    (ColType::UInt32, true),
    (ColType::Str, false),
];

const PREFIXED: &[(ColType, bool)] = &[(ColType::Str, false), (ColType::Str, false)];

const PAIRS: &[(ColType, bool)] = &[
    (ColType::Str, false),
    (ColType::UInt8, false),
    (ColType::Str, false),
];

const FLAT: Sketch = Sketch {
    types: TWO,
    parent: None,
    keys: &[0],
    layout: Layout::Flat {
        initial: 1024,
        max: 500_000,
    },
    range: RangeOf::None,
};

const HASHED: Sketch = Sketch {
    layout: Layout::Hashed,
    ..FLAT
};

const RANGE_MIN: Sketch = Sketch {
    types: RANGED,
    parent: None,
    keys: &[0],
    layout: Layout::RangeHashed(Strategy::Min),
    range: RangeOf::Columns { start: 1, end: 2 },
};

const RANGE_MAX: Sketch = Sketch {
    layout: Layout::RangeHashed(Strategy::Max),
    ..RANGE_MIN
};

const PREFIXES: Sketch = Sketch {
    types: PREFIXED,
    parent: None,
    keys: &[0],
    layout: Layout::IpTrie,
    range: RangeOf::None,
};

const COMPLEX: Sketch = Sketch {
    types: PAIRS,
    parent: None,
    keys: &[0, 1],
    layout: Layout::ComplexHashed,
    range: RangeOf::None,
};

const FIRST_AND_SECOND: &[&[Cell<'static>]] = &[
    &[Cell::U(7), Cell::S(b"first")],
    &[Cell::U(7), Cell::S(b"second")],
    &[Cell::U(499_999), Cell::S(b"a")],
];

const IN_RANGES: &[&[Cell<'static>]] = &[
    &[Cell::U(1), Cell::U(10), Cell::U(20), Cell::S(b"p")],
    &[Cell::U(1), Cell::U(10), Cell::U(30), Cell::S(b"q")],
    &[Cell::U(1), Cell::U(15), Cell::Null, Cell::S(b"s")],
    &[Cell::U(1), Cell::U(40), Cell::U(35), Cell::S(b"t")],
];

const BY_PREFIX: &[&[Cell<'static>]] = &[
    &[Cell::S(b"202.79.32.0/20"), Cell::S(b"NP")],
    &[Cell::S(b"202.79.32.2/32"), Cell::S(b"HOST")],
    &[Cell::S(b"0.0.0.0/0"), Cell::S(b"ANY")],
    &[Cell::S(b"2001:db8::/32"), Cell::S(b"DOC")],
];

const BY_PAIR: &[&[Cell<'static>]] = &[&[Cell::S(b""), Cell::U(5), Cell::S(b"e")]];

static FINDINGS: [Finding; 6] = [
    Finding {
        sketch: FLAT,
        rows: FIRST_AND_SECOND,
        asked: &[
            (Asked::Simple(7), Some(0)),
            (Asked::Simple(499_999), Some(2)),
            (Asked::Simple(8), None),
            (Asked::Simple(u64::MAX), None),
            (Asked::List(&[Cell::U(7)]), None),
            (Asked::V4(7), None),
        ],
    },
    Finding {
        sketch: HASHED,
        rows: &[
            &[Cell::U(u64::MAX), Cell::S(b"z")],
            &[Cell::U(7), Cell::S(b"first")],
            &[Cell::U(7), Cell::S(b"second")],
        ],
        asked: &[
            (Asked::Simple(u64::MAX), Some(0)),
            (Asked::Simple(7), Some(1)),
            (Asked::Simple(0), None),
            (Asked::Ranged(&[Cell::U(7)], 7), None),
        ],
    },
    Finding {
        sketch: COMPLEX,
        rows: BY_PAIR,
        asked: &[
            (Asked::List(&[Cell::S(b""), Cell::U(5)]), Some(0)),
            (Asked::List(&[Cell::S(b"a"), Cell::U(5)]), None),
            (Asked::List(&[Cell::S(b"")]), None),
            (
                Asked::List(&[Cell::S(b""), Cell::U(5), Cell::S(b"e")]),
                None,
            ),
            (Asked::Simple(5), None),
        ],
    },
    Finding {
        sketch: RANGE_MIN,
        rows: IN_RANGES,
        asked: &[
            (Asked::Ranged(&[Cell::U(1)], 10), Some(0)),
            (Asked::Ranged(&[Cell::U(1)], 20), Some(0)),
            (Asked::Ranged(&[Cell::U(1)], 21), Some(1)),
            (Asked::Ranged(&[Cell::U(1)], 31), Some(2)),
            (Asked::Ranged(&[Cell::U(1)], 37), Some(2)),
            (Asked::Ranged(&[Cell::U(1)], 9), None),
            (Asked::Ranged(&[Cell::U(2)], 10), None),
            (Asked::Simple(1), None),
        ],
    },
    Finding {
        sketch: RANGE_MAX,
        rows: IN_RANGES,
        asked: &[
            (Asked::Ranged(&[Cell::U(1)], 20), Some(2)),
            (Asked::Ranged(&[Cell::U(1)], 12), Some(1)),
        ],
    },
    Finding {
        sketch: PREFIXES,
        rows: BY_PREFIX,
        asked: &[
            (Asked::V4(0xca4f_2002), Some(1)),
            (Asked::V4(0xca4f_200a), Some(0)),
            (Asked::V4(0x0101_0101), Some(2)),
            (Asked::V6(0x2001_0db8 << 96 | 1), Some(3)),
            (Asked::V6(0x2001_0db9 << 96 | 1), None),
            (Asked::Simple(1), None),
        ],
    },
];

#[test]
fn keys_find_their_rows(rt: HostRuntime) -> Result<(), Fail> {
    let alloc = rt.alloc();
    for (table, finding) in FINDINGS.iter().enumerate() {
        let Ok(version) = version_of(alloc, &finding.sketch, finding.rows)? else {
            return Err("no version".into());
        };
        for (line, (asked, place)) in finding.asked.iter().enumerate() {
            let key = key_of(alloc, *asked)?;
            let found = version.find(&key, &mut Tally::new());
            assert_eq!(rt; found, *place, "at {table} and {line}");
        }
    }
    Ok(())
}

/// A list of rows that a layout doesn't take, and why.
struct Refusing {
    sketch: Sketch,
    rows: &'static [&'static [Cell<'static>]],
    fault: LayoutFault,
}

static REFUSALS: [Refusing; 3] = [
    Refusing {
        sketch: FLAT,
        rows: &[
            &[Cell::U(1), Cell::S(b"a")],
            &[Cell::U(500_000), Cell::S(b"b")],
            &[Cell::U(u64::MAX), Cell::S(b"c")],
        ],
        fault: LayoutFault::KeyTooLarge(500_000),
    },
    Refusing {
        sketch: PREFIXES,
        rows: &[&[Cell::S(b"1.2.3.4/33"), Cell::S(b"x")]],
        fault: LayoutFault::BadPrefix(1),
    },
    Refusing {
        sketch: PREFIXES,
        rows: &[
            &[Cell::S(b"::/0"), Cell::S(b"x")],
            &[Cell::S(b""), Cell::S(b"y")],
            &[Cell::S(b"z"), Cell::S(b"z")],
        ],
        fault: LayoutFault::BadPrefix(2),
    },
];

#[test]
fn rows_are_refused(rt: HostRuntime) -> Result<(), Fail> {
    for (table, refusing) in REFUSALS.iter().enumerate() {
        match version_of(rt.alloc(), &refusing.sketch, refusing.rows)? {
            Ok(_) => return Err("a version".into()),
            Err(fault) => assert_eq!(rt; fault, refusing.fault, "at {table}"),
        }
    }
    Ok(())
}

const TYPED: Sketch = Sketch {
    types: &[
        (ColType::UInt64, false),
        (ColType::Date, false),
        (ColType::DateTime, false),
        (ColType::Decimal(5, 2), false),
        (ColType::Ipv6, false),
        (ColType::Str, true),
        (ColType::Uuid, false),
        (ColType::Ipv4, false),
        (ColType::Int8, false),
    ],
    ..HASHED
};

static TYPED_TABLE: Table = Table {
    sketch: TYPED,
    rows: &[
        &[
            Cell::U(1),
            Cell::Day(65_535),
            Cell::Second(4_294_967_295),
            Cell::Dec(-150),
            Cell::V6(0x2001_0db8 << 96 | 1),
            Cell::S(b"a\tb\\'"),
            Cell::Id(0x6120_0000_0000_4000_8000_0000_0000_00ff),
            Cell::V4(0x0102_03ff),
            Cell::I(-128),
        ],
        &[
            Cell::U(2),
            Cell::Day(0),
            Cell::Second(0),
            Cell::Dec(7),
            Cell::V6(0xffff << 32 | 1),
            Cell::Null,
            Cell::Id(0),
            Cell::V4(0),
            Cell::I(0),
        ],
    ],
};

/// The texts of their cells, row by row.
static PRINTED: [[&str; 9]; 2] = [
    [
        "1",
        "2149-06-06",
        "2106-02-07 06:28:15",
        "-1.5",
        "2001:db8::1",
        "a\\tb\\\\\\'",
        "61200000-0000-4000-8000-0000000000ff",
        "1.2.3.255",
        "-128",
    ],
    [
        "2",
        "1970-01-01",
        "1970-01-01 00:00:00",
        "0.07",
        "::ffff:0.0.0.1",
        "\\N",
        "00000000-0000-0000-0000-000000000000",
        "0.0.0.0",
        "0",
    ],
];

/// What is printed of a cell.
fn printed_at(
    alloc: Global,
    version: &Version<Tally>,
    place: u32,
    column: u32,
) -> Result<Bytes, Fail> {
    if place >= version.row_count() || column as usize >= version.column_count() {
        return Err("no cell".into());
    }
    let mut out = Bytes::new(alloc);
    version.write_cell(place, column, &mut out)?;
    Ok(out)
}

#[test]
fn cells_are_printed_where_they_lie(rt: HostRuntime) -> Result<(), Fail> {
    let alloc = rt.alloc();
    let Ok(version) = version_of(alloc, &TYPED_TABLE.sketch, TYPED_TABLE.rows)? else {
        return Err("no version".into());
    };
    for (place, texts) in PRINTED.iter().enumerate() {
        for (column, wanted) in texts.iter().enumerate() {
            let out = printed_at(alloc, &version, place as u32, column as u32)?;
            assert_eq!(rt;
                out.as_slice(),
                wanted.as_bytes(),
                "at {place} and {column}"
            );
        }
    }
    Ok(())
}

/// The rows of a first load.
static FIRST: Table = Table {
    sketch: FLAT,
    rows: &[&[Cell::U(1), Cell::S(b"a")], &[Cell::U(2), Cell::S(b"b")]],
};

#[test]
fn a_version_is_its_parts(rt: HostRuntime) -> Result<(), Fail> {
    let Ok(version) = version_of(rt.alloc(), &FIRST.sketch, FIRST.rows)? else {
        return Err("no version".into());
    };
    assert_eq!(rt; version.moment(), 0);
    let version = version.stamp(100);
    assert_eq!(rt; version.moment(), 100);
    assert_eq!(rt; version.row_count(), 2);
    assert_eq!(rt; version.column_count(), 2);
    assert_eq!(rt; version.stored(), 34);
    assert_eq!(rt; version.definition().name.as_slice(), b"d".as_slice());
    assert!(rt; version.hier().is_none());
    Ok(())
}
