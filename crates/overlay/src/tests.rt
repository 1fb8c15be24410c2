// Overlays of worked rows.
ghost use Rattle.std.specs.Prelude.{◌≡◌, ◌≤◌, ◌∷◌, [], length, IfOk, OnOk};
ghost use Rattle.std.specs.List.{AllZip};
ghost use Rattle.dict_value.specs.Values.{FitsColumn};
ghost use Rattle.dict_value.specs.declared.value.TheConstants.{MOST_ROWS};
ghost use Rattle.dict_value.specs.declared.value.Value.TheVariants.{U, S};
ghost use Rattle.overlay.specs.Overlays.{HaveTypes};
ghost use Rattle.overlay.specs.steps.Standing.{IsBetween};

use crate::laws::one_overlay;
use crate::{copy_rows, overlay};
use dict_value::{AttrType, ColType, MOST_ROWS, NoMemory};
use packed_rows::{Cell, Rows, RowsBuilder};
use std::alloc::Global;
use std::test::Fail;

/// The columns of the rows below: a number and a text.
const TYPES: [AttrType; 2] = [
    AttrType {
        base: ColType::UInt64,
        nullable: false,
    },
    AttrType {
        base: ColType::Str,
        nullable: false,
    },
];

/// A row, as a table has it.
type Line = (u64, &'static [u8]);

/// Former rows, new ones, how many columns are the key, and what stands.
struct Case {
    former: &'static [Line],
    fresh: &'static [Line],
    keys: u32,
    standing: &'static [Line],
}

static CASES: [Case; 7] = [
    Case {
        former: &[],
        fresh: &[],
        keys: 1,
        standing: &[],
    },
    // New rows win, and stand first.
    Case {
        former: &[(1, b"a"), (2, b"b")],
        fresh: &[(2, b"z"), (3, b"c")],
        keys: 1,
        standing: &[(2, b"z"), (3, b"c"), (1, b"a")],
    },
    Case {
        former: &[(1, b"a"), (2, b"b")],
        fresh: &[],
        keys: 1,
        standing: &[(1, b"a"), (2, b"b")],
    },
    // Of several rows with one key the first stands.
    Case {
        former: &[],
        fresh: &[(7, b"first"), (8, b"x"), (7, b"second")],
        keys: 1,
        standing: &[(7, b"first"), (8, b"x")],
    },
    Case {
        former: &[(7, b"first"), (7, b"second")],
        fresh: &[(8, b"x")],
        keys: 1,
        standing: &[(8, b"x"), (7, b"first")],
    },
    // Both columns are the key.
    Case {
        former: &[(1, b"a"), (1, b""), (2, b"a")],
        fresh: &[(1, b"b"), (1, b"a"), (1, b"b")],
        keys: 2,
        standing: &[(1, b"b"), (1, b"a"), (1, b""), (2, b"a")],
    },
    Case {
        former: &[(18446744073709551615, b"a"), (0, b"")],
        fresh: &[(18446744073709551615, b"b")],
        keys: 1,
        standing: &[(18446744073709551615, b"b"), (0, b"")],
    },
];

/// Adds a row of a number and a text, unless there are as many as a version may have.
fn push_line(
    rows: &mut RowsBuilder,
    types: &[AttrType],
    number: u64,
    text: &[u8],
) -> Result<(), NoMemory>
    requires pair { AllZip FitsColumn types.now (U number ∷ S text.now ∷ []) }
    requires between { IsBetween types.now rows.old }
    requires have { HaveTypes types.now rows.old.rows }
    ensures between { OnOk result (IsBetween types.now rows.new) }
    ensures have { OnOk result (HaveTypes types.now rows.new.rows) }
    ensures few { OnOk result (length rows.new.rows ≤ MOST_ROWS) }
{
    if rows.row_count() >= MOST_ROWS {
        return Err(NoMemory);
    }
    rows.push_cell(&Cell::U(number))?;
    rows.push_cell(&Cell::S(text))?;
    rows.end_row();
    Ok(())
}

fn rows_of(alloc: Global, lines: &[Line]) -> Result<Rows, NoMemory>
    ensures { IfOk result (λ rows. HaveTypes TYPES rows × (length rows ≤ MOST_ROWS)) }
{
    let mut rows = RowsBuilder::new(alloc, &TYPES)?;
    for (number, text) in lines {
        push_line(&mut rows, &TYPES, *number, text)?;
    }
    Ok(rows.finish())
}

#[test]
fn rows_laid_over_former_ones(rt: HostRuntime) -> Result<(), Fail> {
    let alloc = rt.alloc();
    for case in &CASES {
        let former = rows_of(alloc, case.former)?;
        let fresh = rows_of(alloc, case.fresh)?;
        if case.keys == 0 || case.keys > 2 {
            return Err(Fail::from("no such key"));
        }
        let standing = overlay(alloc, &TYPES, case.keys, &former, &fresh)?;
        assert_eq!(rt; standing.len(), case.standing.len());
        for (place, (number, text)) in case.standing.iter().enumerate() {
            assert_eq!(rt; standing.get(place, 0), Some(Cell::U(*number)));
            assert_eq!(rt; standing.get(place, 1), Some(Cell::S(text)));
        }
    }
    one_overlay();
    Ok(())
}

/// So many rows, whose keys begin with this number.
fn numbered(alloc: Global, from: u32, count: u32) -> Result<Rows, NoMemory>
    ensures { IfOk result (λ rows. HaveTypes TYPES rows × (length rows ≤ MOST_ROWS)) }
{
    let mut rows = RowsBuilder::new(alloc, &TYPES)?;
    for number in 0..count {
        push_line(
            &mut rows,
            &TYPES,
            u64::from(from) + u64::from(number),
            b"text",
        )?;
    }
    Ok(rows.finish())
}

/// No row is looked for by passing the others.
#[test]
fn many_rows_are_laid_over_many(rt: HostRuntime) -> Result<(), Fail> {
    let alloc = rt.alloc();
    let former = numbered(alloc, 0, 50_000)?;
    let fresh = numbered(alloc, 40_000, 50_000)?;
    let standing = overlay(alloc, &TYPES, 1, &former, &fresh)?;
    let copy = copy_rows(alloc, &TYPES, &fresh)?;
    assert_eq!(rt;
        (copy.len(), copy.get(7, 0)),
        (50_000, Some(Cell::U(40_007)))
    );
    assert_eq!(rt; standing.len(), 90_000);
    assert_eq!(rt; standing.get(0, 0), Some(Cell::U(40_000)));
    assert_eq!(rt; standing.get(50_000, 0), Some(Cell::U(0)));
    Ok(())
}
