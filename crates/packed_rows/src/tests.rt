ghost use Rattle.std.specs.Prelude.{◌≡◌, ◌<◌, ◌+◌, [], length, IfOk, OnOk, IsTrue};
ghost use Rattle.dict_value.specs.Values.{FitsColumn};
ghost use Rattle.packed_rows.specs.Cells.{meaning};

use crate::{Cell, Rows, RowsBuilder, cell_of, value_of};
use dict_value::{AttrType, ColType, MOST_ROWS, NoMemory, fits_column};
use std::alloc::Global;
use std::test::Fail;

/// The number of types.
const TYPES: usize = 15;

const BASES: [ColType; TYPES] = [
    ColType::UInt8,
    ColType::UInt16,
    ColType::UInt32,
    ColType::UInt64,
    ColType::Int8,
    ColType::Int16,
    ColType::Int32,
    ColType::Int64,
    ColType::Str,
    ColType::Date,
    ColType::DateTime,
    ColType::Uuid,
    ColType::Ipv4,
    ColType::Ipv6,
    ColType::Decimal(38, 3),
];

/// The greatest scaled number of a Decimal, 38 nines.
const NINES: i128 = 99_999_999_999_999_999_999_999_999_999_999_999_999;

const LEAST: [Cell<'static>; TYPES] = [
    Cell::U(0),
    Cell::U(0),
    Cell::U(0),
    Cell::U(0),
    Cell::I(-0x80),
    Cell::I(-0x8000),
    Cell::I(-0x8000_0000),
    Cell::I(-0x8000_0000_0000_0000),
    Cell::S(b""),
    Cell::Day(0),
    Cell::Second(0),
    Cell::Id(0),
    Cell::V4(0),
    Cell::V6(0),
    Cell::Dec(-NINES),
];

const GREATEST: [Cell<'static>; TYPES] = [
    Cell::U(0xff),
    Cell::U(0xffff),
    Cell::U(0xffff_ffff),
    Cell::U(u64::MAX),
    Cell::I(0x7f),
    Cell::I(0x7fff),
    Cell::I(0x7fff_ffff),
    Cell::I(0x7fff_ffff_ffff_ffff),
    Cell::S(b"\x08\x0c\r\n\t\0'\\\x07\x0b\xff"),
    Cell::Day(0xffff),
    Cell::Second(0xffff_ffff),
    Cell::Id(u128::MAX),
    Cell::V4(0xffff_ffff),
    Cell::V6(u128::MAX),
    Cell::Dec(NINES),
];

const NULLS: [Cell<'static>; TYPES] = [Cell::Null; TYPES];

/// Adds a row; one that doesn't fit the types, or is past the greatest number, isn't ended.
fn push_row(
    alloc: Global,
    rows: &mut RowsBuilder,
    types: &[AttrType],
    cells: &[Cell<'_>],
) -> Result<(), NoMemory>
    requires types { rows.old.types ≡ types.now }
    requires none { rows.old.open_row ≡ [] }
    ensures types { rows.new.types ≡ types.now }
    ensures none { OnOk result (rows.new.open_row ≡ []) }
{
    if rows.row_count() >= MOST_ROWS {
        return Err(NoMemory);
    }
    for (place, ty) in types.iter().enumerate() {
        if place >= cells.len() || !fits_column(ty, &value_of(alloc, &cells[place])?) {
            return Err(NoMemory);
        }
        rows.push_cell(&cells[place])?;
    }
    rows.end_row();
    Ok(())
}

/// These rows, one after another.
fn rows_of(
    alloc: Global,
    types: &[AttrType],
    table: &[&[Cell<'_>]],
) -> Result<RowsBuilder, NoMemory>
    ensures { IfOk result (λ rows. (rows.types ≡ types.now) × (rows.open_row ≡ [])) }
{
    let mut rows = RowsBuilder::new(alloc, types)?;
    for cells in table {
        push_row(alloc, &mut rows, types, cells)?;
    }
    Ok(rows)
}

/// The first place, by row and column, where rows aren't this table.
fn first_difference(
    alloc: Global,
    rows: &Rows,
    table: &[&[Cell<'_>]],
) -> Result<Option<(usize, usize)>, NoMemory> {
    for (place, cells) in table.iter().enumerate() {
        for (column, wanted) in cells.iter().enumerate() {
            let Some(found) = rows.get(place, column) else {
                return Ok(Some((place, column)));
            };
            if cell_of(&value_of(alloc, &found)?) != *wanted {
                return Ok(Some((place, column)));
            }
        }
    }
    Ok(None)
}

fn nullable(base: ColType) -> AttrType {
    AttrType {
        base,
        nullable: true,
    }
}

fn plain(base: ColType) -> AttrType {
    AttrType {
        base,
        nullable: false,
    }
}

#[test]
fn each_type_at_its_ends(rt: HostRuntime) -> Result<(), Fail> {
    let types = BASES.map(nullable);
    let table: [&[Cell<'static>]; 6] = [&LEAST, &NULLS, &GREATEST, &GREATEST, &NULLS, &LEAST];
    let mut rows = rows_of(rt.alloc(), &types, &table)?;
    let value = Cell::U(7);
    if rows.row_count() < MOST_ROWS && fits_column(&types[0], &value_of(rt.alloc(), &value)?) {
        rows.push_cell(&value)?;
    }
    rows.drop_open_row();
    push_row(rt.alloc(), &mut rows, &types, &GREATEST)?;
    let rows = rows.finish();
    let more: [&[Cell<'static>]; 7] = [
        &LEAST, &NULLS, &GREATEST, &GREATEST, &NULLS, &LEAST, &GREATEST,
    ];
    assert_eq!(rt; rows.len(), 7);
    assert_eq!(rt; first_difference(rt.alloc(), &rows, &more)?, None);
    assert_eq!(rt; rows.get(7, 0), None);
    assert_eq!(rt; rows.get(0, TYPES), None);
    Ok(())
}

#[test]
fn what_rows_take_is_counted(rt: HostRuntime) -> Result<(), Fail> {
    let types = [plain(ColType::UInt64), plain(ColType::Str)];
    let table: [&[Cell<'static>]; 2] = [&[Cell::U(1), Cell::S(b"a")], &[Cell::U(2), Cell::S(b"b")]];
    let rows = rows_of(rt.alloc(), &types, &table)?.finish();
    assert_eq!(rt; rows.stored(&types), 34);
    let types = BASES.map(nullable);
    let rows = rows_of(rt.alloc(), &types, &[&GREATEST, &NULLS, &LEAST])?.finish();
    // Three rows of 96 bytes, a byte of bits in each column, and eleven bytes of text.
    assert_eq!(rt; rows.stored(&types), 3 * 96 + 15 + 11);
    Ok(())
}

/// The same row so many times.
fn repeated(
    alloc: Global,
    types: &[AttrType],
    cells: &[Cell<'_>],
    count: usize,
) -> Result<RowsBuilder, NoMemory>
    ensures { IfOk result (λ rows. rows.open_row ≡ []) }
{
    let mut rows = RowsBuilder::new(alloc, types)?;
    for _ in 0..count {
        push_row(alloc, &mut rows, types, cells)?;
    }
    Ok(rows)
}

#[test]
fn as_many_rows_as_a_version_may_have(rt: HostRuntime) -> Result<(), Fail> {
    let types = [nullable(ColType::UInt8)];
    let rows = repeated(rt.alloc(), &types, &[Cell::U(255)], MOST_ROWS)?.finish();
    assert_eq!(rt; rows.len(), MOST_ROWS);
    assert_eq!(rt; rows.get(MOST_ROWS - 1, 0), Some(Cell::U(255)));
    assert_eq!(rt; rows.get(MOST_ROWS, 0), None);
    assert_eq!(rt; rows.stored(&types), 4_194_304 + 524_288);
    Ok(())
}

#[test]
fn sixteen_mebibytes_of_text(rt: HostRuntime) -> Result<(), Fail> {
    let types = [plain(ColType::Str)];
    let line = [b'x'; 4096];
    let rows = repeated(rt.alloc(), &types, &[Cell::S(&line)], 4096)?.finish();
    assert_eq!(rt; rows.get(4095, 0), Some(Cell::S(&line)));
    assert_eq!(rt; rows.stored(&types), 4096 * (4096 + 8));
    Ok(())
}
