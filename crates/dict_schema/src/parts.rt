// What a column of a definition is for.
ghost use Rattle.std.specs.Prelude.{◌≡◌, Some, None, MatchOption, slice_get};
ghost use Rattle.dict_schema.specs.Parts.{is_attribute, is_range_end, is_key};

use crate::definition::{Column, Definition, RangeOf};

/// The column at a place, where there is one.
pub fn column_at(d: &Definition, place: usize) -> Option<&Column>
    ensures { MatchOption result (slice_get d.now.columns place ≡ None)
        (λ column. slice_get d.now.columns place ≡ Some column.now) }
{
    d.columns.as_slice().get(place)
}

/// Whether a key column stands at a place.
pub(crate) fn is_key(d: &Definition, place: usize) -> bool
    ensures { result ≡ is_key d.now place }
{
    d.keys
        .as_slice()
        .iter()
        .any(|key| usize::from(*key) == place)
}

/// Whether an end of the range stands at a place.
fn is_range_end(range: &RangeOf, place: usize) -> bool
    ensures { result ≡ is_range_end range.now place }
{
    match range {
        RangeOf::None => false,
        RangeOf::Columns { start, end } => place == usize::from(*start)
            || place == usize::from(*end),
    }
}

/// Whether the column at a place is neither a key nor an end of the range.
pub fn is_attribute(d: &Definition, place: usize) -> bool
    ensures { result ≡ is_attribute d.now place }
{
    !is_key(d, place) && !is_range_end(&d.range, place)
}
