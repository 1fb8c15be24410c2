// Whole texts as typed rows.
ghost use Rattle.std.specs.Prelude.{◌≤◌, Err, length};
ghost use Rattle.dict_value.specs.Memory.{UnlessNoMemory};
ghost use Rattle.rows_typed.specs.Fits.{HasFittingDefaults};
ghost use Rattle.rows_typed.specs.Shapes.{Decode};

use crate::columns::ShapeColumns;
use dict_schema::Shape;
use dict_value::Format;
use packed_rows::Rows;
use row_text::{DecodeFault, decode_rows};
use std::alloc::Global;

/// The typed rows of a text; else its first bad row, or that it has more rows than a version may have.
/// A line counts from 1, and so does a column; column 0 is the row as a whole.
pub fn decode(
    alloc: Global,
    shape: &Shape,
    format: Format,
    text: &[u8],
) -> Result<Rows, DecodeFault>
    requires bytes { length text.now ≤ u32.MAX }
    requires columns { length shape.now ≤ u32.MAX }
    // Each column's default is a value of its type.
    requires defaults { HasFittingDefaults shape.now }
    ensures { UnlessNoMemory (Err DecodeFault.NoMemory) result (Decode shape.now format text.now result) }
{
    let columns = ShapeColumns {
        shape: shape.as_slice(),
        format,
    };
    decode_rows(alloc, format, &columns, text)
}

#[cfg(test)]
mod tests;
