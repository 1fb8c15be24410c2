// The rows of the dictionary that `World::run` loads: a key of type UInt64 and a String.
use dict_value::{AttrType, BadValue, Bytes, ColType, Field, Value, read_text};
use packed_rows::Cell;
use row_text::Columns;
use std::alloc::Global;

/// The key, and the String with the default ''.
pub struct WorldColumns;

impl Columns for WorldColumns {
    ghost use Rattle.load_core.specs.WorldRows.{world_columns};

    ghost columns = { λ it. world_columns };

    ghost use Rattle.load_core.specs.WorldRows.{world_types};

    ghost types = { λ it. world_types };

    fn count(&self) -> usize {
        2
    }

    fn type_at(&self, place: usize) -> AttrType {
        AttrType {
            base: if place == 0 {
                ColType::UInt64
            } else {
                ColType::Str
            },
            nullable: false,
        }
    }

    fn read_cell<'a>(&'a self, _alloc: Global, place: usize, text: &'a [u8]) -> Option<Cell<'a>> {
        if place > 0 { Some(Cell::S(text)) } else { None }
    }

    fn null_cell(&self, place: usize) -> Option<Cell<'_>> {
        if place > 0 { Some(Cell::S(b"")) } else { None }
    }

    fn read(&self, alloc: Global, place: usize, field: Field) -> Result<Value, BadValue> {
        match (place, field) {
            (0, Field::Null) => Err(BadValue::NullNotAllowed),
            (0, Field::Text(text)) => read_text(alloc, ColType::UInt64, text.as_slice()),
            (_, Field::Null) => Ok(Value::S(Bytes::new(alloc))),
            (_, Field::Text(text)) => Ok(Value::S(text)),
        }
    }
}
