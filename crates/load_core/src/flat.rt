// The table of a flat layout, from what a child's output decodes to.
ghost use Rattle.std.specs.Prelude.{◌≡◌, ◌≤◌, Some, MatchOption};
ghost use Rattle.std.specs.List.{AllByRecursion};
ghost use Rattle.std.specs.Option.{option_map};
ghost use Rattle.dict_value.specs.declared.value.Value.TheVariants.{U};
ghost use Rattle.packed_rows.specs.Cells.{meaning};
ghost use Rattle.load_core.specs.FlatRows.{HasSmallKey, IsFirstLarge, Makes};
ghost use Rattle.load_core.specs.steps.FlatSteps.{IsSmallCell};

use dict_value::Cause;
use packed_rows::{Cell, Rows};
use row_text::DecodeFault;

/// The least number that is no key of a flat layout.
const KEY_BOUND: u64 = 500_000;

/// Why a text gives no table.
#[derive(Clone, Copy, Debug, PartialEq, Eq)]
pub enum TableFault {
    Refused(Cause),
    NoMemory,
}

/// A row's first value as a key that a flat layout doesn't take.
fn large_key(cell: &Option<Cell<'_>>) -> Option<u64>
    ensures { MatchOption result (IsSmallCell (option_map meaning cell.now))
        (λ key. (option_map meaning cell.now ≡ Some (U key)) × (KEY_BOUND ≤ key)) }
{
    match *cell {
        Some(Cell::U(key)) if key >= KEY_BOUND => Some(key),
        _ => None,
    }
}

/// The first key that a flat layout doesn't take.
fn first_large_key(rows: &Rows) -> Option<u64>
    ensures { MatchOption result (AllByRecursion HasSmallKey rows.now) (IsFirstLarge rows.now) }
{
    for place in 0..rows.len() {
        if let Some(key) = large_key(&rows.get(place, 0)) {
            return Some(key);
        }
    }
    None
}

/// The table that decoded rows are, where a flat layout takes each key; else why there is none.
pub fn accept(decoded: Result<Rows, DecodeFault>) -> Result<Rows, TableFault>
    ensures { Makes decoded result }
{
    let rows = match decoded {
        Ok(rows) => rows,
        Err(DecodeFault::Bad(bad)) => return Err(TableFault::Refused(Cause::Row(bad))),
        Err(DecodeFault::TooMany) => return Err(TableFault::Refused(Cause::Rows)),
        Err(DecodeFault::NoMemory) => return Err(TableFault::NoMemory),
    };
    match first_large_key(&rows) {
        Some(key) => Err(TableFault::Refused(Cause::Key(key))),
        None => Ok(rows),
    }
}
