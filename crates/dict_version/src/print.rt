// The escaped text of a cell.
ghost use Rattle.std.specs.Prelude.{◌≡◌, ◌≢◌, ◌++◌, ℕ, List, OnErr, OnOk};
ghost use Rattle.dict_value.specs.Values.{FitsColumn};
ghost use Rattle.dict_value.specs.declared.value.Value.TheVariants.{Null, S};
ghost use Rattle.row_text.specs.Written.{printed};
ghost use Rattle.packed_rows.specs.Cells.{meaning};

use dict_value::{AttrType, Bytes, NoMemory, Value, write_value};
use packed_rows::Cell;
use row_text::write_text;

/// Appends the text of a value that is neither NULL nor a String; it has no byte that is escaped.
fn print_plain(ty: &AttrType, value: &Value, out: &mut Bytes) -> Result<(), NoMemory>
    requires fits { FitsColumn ty.now value.now }
    requires some { value.now ≢ Null }
    requires plain { (text : List ℕ) → value.now ≢ S text }
    ensures ok { OnOk result (out.new ≡ out.old ++ printed ty.now.base value.now) }
    ensures err { OnErr result (out.new ≡ out.old) }
{
    write_value(ty, value, out)
}

/// Appends the escaped text of a cell, and `\N` for NULL; after `NoMemory` nothing has changed.
#[tactic(auto, unfolding(dict_value::specs::Values::value_text))]
pub fn print_cell(ty: &AttrType, cell: &Cell<'_>, out: &mut Bytes) -> Result<(), NoMemory>
    requires { FitsColumn ty.now (meaning cell.now) }
    ensures ok { OnOk result (out.new ≡ out.old ++ printed ty.now.base (meaning cell.now)) }
    ensures err { OnErr result (out.new ≡ out.old) }
{
    match *cell {
        Cell::Null => out.extend(b"\\N"),
        Cell::S(text) => write_text(text, out),
        Cell::U(n) => print_plain(ty, &Value::U(n), out),
        Cell::I(z) => print_plain(ty, &Value::I(z), out),
        Cell::Day(n) => print_plain(ty, &Value::Day(n), out),
        Cell::Second(n) => print_plain(ty, &Value::Second(n), out),
        Cell::Id(n) => print_plain(ty, &Value::Id(n), out),
        Cell::V4(n) => print_plain(ty, &Value::V4(n), out),
        Cell::V6(n) => print_plain(ty, &Value::V6(n), out),
        Cell::Dec(z) => print_plain(ty, &Value::Dec(z), out),
    }
}
