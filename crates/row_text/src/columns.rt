// The columns of a table: what each makes of a field.
use dict_value::{AttrType, BadValue, Field, Value};
use packed_rows::Cell;
use std::alloc::Global;

/// The columns of a table.
pub trait Columns {
    ghost use Rattle.std.specs.Prelude.{◌≡◌, ◌<◌, List, Some, Ok, length, slice_get, IfSome};
    ghost use Rattle.dict_value.specs.declared.value.AttrType.{AttrType};
    ghost use Rattle.dict_value.specs.declared.value.Field.TheVariants as field;
    ghost use Rattle.packed_rows.specs.Cells.{meaning};
    ghost use Rattle.row_text.specs.Decoding.{Reader, Reads};

    /// What each column makes of a field.
    ghost columns: { Self → List Reader };

    /// The types of the columns, each of which has the values that its column reads.
    ghost types: { Self → List AttrType };

    /// How many columns there are.
    fn count(&self) -> usize
        ensures { result ≡ length (columns self.now) };

    /// The type of the column at a place.
    fn type_at(&self, place: usize) -> AttrType
        requires { place < length (columns self.now) }
        ensures { slice_get (types self.now) place ≡ Some result };

    /// The value that the column at a place makes of a text, where it lies and without memory. None leaves
    /// the text to `read`.
    fn read_cell<'a>(&'a self, alloc: Global, place: usize, text: &'a [u8]) -> Option<Cell<'a>>
        requires { place < length (columns self.now) }
        ensures { IfSome result (λ cell. (column : Reader) → slice_get (columns self.now) place ≡ Some column
            → column (field.Text text.now) ≡ Ok (meaning cell)) };

    /// The value that the column at a place makes of NULL, where it lies. None leaves it to `read`.
    fn null_cell(&self, place: usize) -> Option<Cell<'_>>
        requires { place < length (columns self.now) }
        ensures { IfSome result (λ cell. (column : Reader) → slice_get (columns self.now) place ≡ Some column
            → column field.Null ≡ Ok (meaning cell)) };

    /// What the column at a place makes of a field.
    fn read(&self, alloc: Global, place: usize, field: Field) -> Result<Value, BadValue>
        requires { place < length (columns self.now) }
        ensures { (column : Reader) → slice_get (columns self.now) place ≡ Some column → Reads column field result };
}
