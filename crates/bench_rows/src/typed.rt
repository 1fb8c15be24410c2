// All rows of a text as values.
ghost use Rattle.std.specs.Prelude.{IfOk};
ghost use Rattle.rows_typed.specs.Fits.{HasFittingDefaults};

use crate::Figures;
use dict_schema::{Role, Shape, ShapeColumn};
use dict_value::{AttrType, ColType, Format, ListOf, NoMemory, default_of};
use packed_rows::{Cell, Rows};
use rows_typed::decode;
use std::alloc::Global;

/// A column's type, whether it is nullable, and what the column is.
pub type Kind = (ColType, bool, Role);

/// A number and a text.
pub static PAIR: [Kind; 2] = [
    (ColType::UInt64, false, Role::Key),
    (ColType::Str, false, Role::Attribute),
];

/// A column of most kinds that a row has.
pub static WIDE: [Kind; 8] = [
    (ColType::UInt64, false, Role::Key),
    (ColType::Date, false, Role::Attribute),
    (ColType::Decimal(18, 4), false, Role::Attribute),
    (ColType::Ipv4, false, Role::Attribute),
    (ColType::Uuid, false, Role::Attribute),
    (ColType::UInt32, true, Role::Attribute),
    (ColType::Str, false, Role::Attribute),
    (ColType::Str, false, Role::Attribute),
];

fn type_of(kind: &Kind) -> AttrType {
    AttrType {
        base: kind.0,
        nullable: kind.1,
    }
}

fn shape(alloc: Global, kinds: &[Kind]) -> Result<Shape, NoMemory>
    ensures { IfOk result HasFittingDefaults }
{
    let mut shape = ListOf::new(alloc);
    for kind in kinds {
        let ty = type_of(kind);
        let default = default_of(alloc, &ty);
        shape.push(ShapeColumn {
            ty,
            role: kind.2,
            default,
        })?;
    }
    Ok(shape)
}

fn types(alloc: Global, kinds: &[Kind]) -> Option<Vec<AttrType>> {
    let mut types = Vec::new(alloc);
    for kind in kinds {
        types.push(type_of(kind)).ok()?;
    }
    Some(types)
}

/// The figures of a text's rows; those of none where one is bad or the text is too long.
pub fn read(alloc: Global, kinds: &[Kind], format: Format, text: &[u8]) -> Figures {
    match (rows_of(alloc, kinds, format, text), types(alloc, kinds)) {
        (Some(rows), Some(types)) => figures(&rows, types.as_slice()),
        _ => Figures {
            rows: 0,
            fields: 0,
            bytes: 0,
            kept: 0,
        },
    }
}

fn rows_of(alloc: Global, kinds: &[Kind], format: Format, text: &[u8]) -> Option<Rows> {
    if text.len() > u32::MAX as usize {
        return None;
    }
    let shape = shape(alloc, kinds).ok()?;
    // A shape has fewer columns than numbers of 32 bits; this tells the prover so.
    if shape.len() > WIDE.len() {
        return None;
    }
    decode(alloc, &shape, format, text).ok()
}

fn figures(rows: &Rows, types: &[AttrType]) -> Figures {
    let mut found = Figures {
        rows: rows.len(),
        fields: 0,
        bytes: 0,
        kept: rows.stored(types),
    };
    for place in 0..rows.len() {
        for column in 0..types.len() {
            let Some(cell) = rows.get(place, column) else {
                break;
            };
            found.fields = found.fields.saturating_add(1);
            if let Cell::S(text) = cell {
                found.bytes = found.bytes.saturating_add(text.len());
            }
        }
    }
    found
}
