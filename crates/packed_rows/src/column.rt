// One column: a fixed number of bytes for each row.
ghost use Rattle.std.specs.Prelude.{◌≡◌, ◌≤◌, ◌<◌, ◌+◌, ◌*◌, ◌^◌, ◌++◌, length, OnOk, OnErr};
ghost use Rattle.packed_rows.specs.Widths.{width_bytes, eight_at, kept, limit_of, nat_at, cell_width};

use crate::bits::Bits;
use dict_value::{AttrType, Bytes, ColType, NoMemory};

/// How many bytes a cell takes.
#[derive(Clone, Copy, Debug, PartialEq, Eq)]
pub enum CellWidth {
    One,
    Two,
    Four,
    Eight,
    Sixteen,
}

/// A column.
#[derive(Debug, Drop)]
pub struct Column {
    pub ty: AttrType,
    /// So many bytes for each row: a number, or the end of a String's text.
    pub cells: Bytes,
    /// Whether a row is NULL, where the type allows it.
    pub nulls: Bits,
}

/// How wide the cells of a type are.
#[inline(always)]
pub(crate) fn width_of(t: ColType) -> CellWidth
    ensures { result ≡ cell_width t }
{
    match t {
        ColType::UInt8 | ColType::Int8 => CellWidth::One,
        ColType::UInt16 | ColType::Int16 | ColType::Date => CellWidth::Two,
        ColType::UInt32 | ColType::Int32 | ColType::DateTime | ColType::Ipv4 => CellWidth::Four,
        ColType::UInt64 | ColType::Int64 | ColType::Str => CellWidth::Eight,
        ColType::Uuid | ColType::Ipv6 | ColType::Decimal(_, _) => CellWidth::Sixteen,
    }
}

/// How many bytes a cell of a width takes.
#[inline]
#[tactic(auto, unfolding(crate::specs::Widths::width_bytes))]
pub(crate) fn bytes_in(width: CellWidth) -> usize
    ensures value { result ≡ width_bytes width }
    ensures small { result ≤ 16 }
{
    match width {
        CellWidth::One => 1,
        CellWidth::Two => 2,
        CellWidth::Four => 4,
        CellWidth::Eight => 8,
        CellWidth::Sixteen => 16,
    }
}

/// Appends the bytes of a number; after `NoMemory` they are as they were.
#[inline(always)]
#[tactic(auto, unfolding(crate::specs::Widths::kept, crate::specs::Widths::limit_of))]
pub(crate) fn push_number(cells: &mut Bytes, width: CellWidth, n: u128) -> Result<(), NoMemory>
    requires { n < limit_of width }
    ensures ok { OnOk result (cells.new ≡ cells.old ++ kept width n) }
    ensures err { OnErr result (cells.new ≡ cells.old) }
{
    match width {
        CellWidth::One => cells.push(n as u8),
        CellWidth::Two => cells.extend(&(n as u16).to_le_bytes()),
        CellWidth::Four => cells.extend(&(n as u32).to_le_bytes()),
        CellWidth::Eight => cells.extend(&(n as u64).to_le_bytes()),
        CellWidth::Sixteen => push_halves(cells, n),
    }
}

/// Appends the sixteen bytes of a number, the lower eight of them first.
#[inline]
#[tactic(auto, unfolding(crate::specs::Widths::kept))]
fn push_halves(cells: &mut Bytes, n: u128) -> Result<(), NoMemory>
    ensures ok { OnOk result (cells.new ≡ cells.old ++ kept CellWidth.Sixteen n) }
    ensures err { OnErr result (cells.new ≡ cells.old) }
{
    let before = cells.len();
    cells.extend(&((n % (1 << 64)) as u64).to_le_bytes())?;
    match cells.extend(&((n >> 64) as u64).to_le_bytes()) {
        Ok(()) => Ok(()),
        Err(fault) => {
            cells.truncate(before);
            Err(fault)
        }
    }
}

/// The number of the eight bytes from a place on.
#[inline]
fn eight_at(cells: &[u8], at: usize) -> u64
    requires { at + 8 ≤ length cells.now }
    ensures { result ≡ eight_at cells.now at }
{
    u64::from_le_bytes([
        cells[at],
        cells[at + 1],
        cells[at + 2],
        cells[at + 3],
        cells[at + 4],
        cells[at + 5],
        cells[at + 6],
        cells[at + 7],
    ])
}

/// The number at a place.
#[inline]
#[tactic(auto, unfolding(crate::specs::Widths::nat_at, crate::specs::Widths::width_bytes, crate::specs::Widths::limit_of))]
pub(crate) fn number_at(cells: &[u8], width: CellWidth, place: usize) -> u128
    requires { (place + 1) * width_bytes width ≤ length cells.now }
    ensures value { result ≡ nat_at width cells.now place }
    ensures fits { result < limit_of width }
{
    match width {
        CellWidth::One => u128::from(cells[place]),
        CellWidth::Two => {
            let at = place * 2;
            u128::from(u16::from_le_bytes([cells[at], cells[at + 1]]))
        }
        CellWidth::Four => {
            let at = place * 4;
            u128::from(u32::from_le_bytes([cells[at], cells[at + 1], cells[at + 2], cells[at + 3]]))
        }
        CellWidth::Eight => u128::from(eight_at(cells, place * 8)),
        CellWidth::Sixteen => {
            let low = eight_at(cells, place * 16);
            let high = eight_at(cells, place * 16 + 8);
            u128::from(high) * (1 << 64) + u128::from(low)
        }
    }
}
