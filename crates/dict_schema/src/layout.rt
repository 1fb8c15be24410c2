// What a layout wants of a definition.
ghost use Rattle.std.specs.Prelude.{◌≡◌};
ghost use Rattle.dict_schema.specs.Parts.{is_keyed_layout, is_range_layout, is_updated_layout, wanted_key};

use crate::definition::{Definition, Layout};
use dict_value::ColType;

/// Whether rows are fetched by key, so that there are no versions.
pub fn is_keyed(d: &Definition) -> bool
    ensures { result ≡ is_keyed_layout d.now.layout }
{
    match d.layout {
        Layout::Cache(_) | Layout::ComplexCache(_) | Layout::Direct | Layout::ComplexDirect => true,
        _ => false,
    }
}

/// Whether rows count within a range.
pub(crate) fn is_range(layout: &Layout) -> bool
    ensures { result ≡ is_range_layout layout.now }
{
    match layout {
        Layout::RangeHashed(_) | Layout::ComplexRangeHashed(_) => true,
        _ => false,
    }
}

/// Whether rows may be loaded by what changed.
pub(crate) fn is_updated(layout: &Layout) -> bool
    ensures { result ≡ is_updated_layout layout.now }
{
    match layout {
        Layout::Flat { .. }
        | Layout::Hashed
        | Layout::SparseHashed
        | Layout::HashedArray
        | Layout::ComplexHashed
        | Layout::ComplexSparseHashed
        | Layout::ComplexHashedArray => true,
        _ => false,
    }
}

/// The type of the one key that a layout wants, where it wants one.
pub(crate) fn key_wanted(layout: &Layout) -> Option<ColType>
    ensures { result ≡ wanted_key layout.now }
{
    match layout {
        Layout::ComplexHashed
        | Layout::ComplexSparseHashed
        | Layout::ComplexHashedArray
        | Layout::ComplexRangeHashed(_)
        | Layout::ComplexCache(_)
        | Layout::ComplexDirect => None,
        Layout::IpTrie => Some(ColType::Str),
        _ => Some(ColType::UInt64),
    }
}
