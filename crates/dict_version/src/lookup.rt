// What layouts look rows up by.
ghost use Rattle.std.specs.Prelude.{◌≡◌};
ghost use Rattle.dict_version.specs.Lookups.{lookup_by};

use dict_schema::{Layout, Strategy};

/// What a layout looks a row up by.
#[derive(Clone, Copy, Debug, PartialEq, Eq)]
pub enum LookupBy {
    /// A number below this limit.
    SmallNumber(u32),
    Number,
    KeyList,
    /// A list of values, and a point in a range.
    Range(Strategy),
    Address,
    /// No version is kept.
    Nothing,
}

/// What a layout looks a row up by.
pub fn lookup_by(layout: &Layout) -> LookupBy
    ensures { result ≡ lookup_by layout.now }
{
    match layout {
        Layout::Flat { max, .. } => LookupBy::SmallNumber(*max),
        Layout::Hashed | Layout::SparseHashed | Layout::HashedArray => LookupBy::Number,
        Layout::ComplexHashed | Layout::ComplexSparseHashed | Layout::ComplexHashedArray => {
            LookupBy::KeyList
        }
        Layout::RangeHashed(strategy) | Layout::ComplexRangeHashed(strategy) => {
            LookupBy::Range(*strategy)
        }
        Layout::IpTrie => LookupBy::Address,
        Layout::Cache(_) | Layout::ComplexCache(_) | Layout::Direct | Layout::ComplexDirect => {
            LookupBy::Nothing
        }
    }
}
