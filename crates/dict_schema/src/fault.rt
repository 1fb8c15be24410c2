// Why a definition is none.

/// A quantity that has bounds.
#[derive(Clone, Copy, Debug, PartialEq, Eq)]
pub enum Which {
    Columns,
    Keys,
    Args,
    Name,
    Command,
    Output,
    ArraySize,
    Cells,
    PoolSize,
    LifetimeOrder,
}

/// What is wrong with a definition; columns, keys and arguments count from 1.
#[derive(Clone, Copy, Debug, PartialEq, Eq)]
pub enum DefFault {
    /// This quantity, which is so large, is outside its bounds. For the order of a lifetime it is its MIN.
    Limit(Which, u64),
    NoKey,
    NoArguments,
    /// This name of PRIMARY KEY is no column.
    KeyMissing(u32),
    /// This column or argument has the name of an earlier one, or a key names the column twice.
    DuplicateName(u32),
    /// The layout takes one key of one type, and the key isn't so.
    SimpleKeyType,
    /// This column is a key that may be NULL.
    KeyType(u32),
    RangeMissing,
    RangeUnused,
    RangeType,
    /// This column names a parent, and can't.
    HierarchyType(u32),
    /// The default of this column is no value of its type.
    BadDefault(u32),
    PoolNeedsKeys,
    Command,
    UpdateLayout,
}
