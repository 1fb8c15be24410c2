// The range of a definition.
ghost use Rattle.std.specs.Prelude.{◌≡◌, ◌↔◌, Some, true, false, IsTrue, slice_get};
ghost use Rattle.dict_schema.specs.declared.definition.RangeOf.TheVariants as range;
ghost use Rattle.dict_schema.specs.Judging.{IsJudged};
ghost use Rattle.dict_schema.specs.Parts.{AreBadEnds, is_range_layout, is_range_type};
ghost use Rattle.dict_schema.specs.Table.{ranges};

use crate::definition::{Column, Definition, RangeOf};
use crate::fault::DefFault;
use crate::layout::is_range;
use crate::parts::{column_at, is_key};
use dict_value::ColType;

/// Judges the range.
pub(crate) fn judge_ranges(d: &Definition) -> Result<(), DefFault>
    ensures { IsJudged (ranges d.now) result }
{
    let wanted = is_range(&d.layout);
    match d.range {
        RangeOf::None if wanted => Err(DefFault::RangeMissing),
        RangeOf::None => Ok(()),
        RangeOf::Columns { .. } if !wanted => Err(DefFault::RangeUnused),
        RangeOf::Columns { start, end } => judge_ends(d, start, end),
    }
}

/// Judges the two columns of the range of a range layout.
fn judge_ends(d: &Definition, start: u8, end: u8) -> Result<(), DefFault>
    requires range { d.now.range ≡ range.Columns start end }
    requires layout { is_range_layout d.now.layout ≡ true }
    ensures { IsJudged (ranges d.now) result }
{
    let (start, end) = (usize::from(start), usize::from(end));
    let Some(first) = column_at(d, start) else {
        return Err(DefFault::RangeMissing);
    };
    let Some(last) = column_at(d, end) else {
        return Err(DefFault::RangeMissing);
    };
    if are_bad_ends(d, start, end, first, last) {
        return Err(DefFault::RangeType);
    }
    Ok(())
}

/// Whether something is wrong with the ends of a range, by their places and columns.
fn are_bad_ends(d: &Definition, start: usize, end: usize, first: &Column, last: &Column) -> bool
    ensures { IsTrue result ↔ AreBadEnds d.now start end first.now last.now }
{
    first.ty.base != last.ty.base
        || is_key(d, start)
        || is_key(d, end)
        || start == end
        || is_other(first.ty.base)
}

/// Whether no range may be over a type.
fn is_other(base: ColType) -> bool
    ensures { IsTrue result ↔ (is_range_type base ≡ false) }
{
    !matches!(
        base,
        ColType::UInt8
            | ColType::UInt16
            | ColType::UInt32
            | ColType::UInt64
            | ColType::Int8
            | ColType::Int16
            | ColType::Int32
            | ColType::Int64
            | ColType::Date
            | ColType::DateTime
    )
}
