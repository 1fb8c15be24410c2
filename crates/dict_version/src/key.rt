// What a row is asked for by.
use dict_value::KeyList;

/// A key, in the form that a layout wants.
#[derive(Debug, Drop)]
pub enum Key {
    /// The number of FLAT and the simple hashed layouts.
    Simple(u64),
    /// The values of the hashed layouts with COMPLEX_KEY_, in the order of PRIMARY KEY.
    List(KeyList),
    /// The values of the range layouts, and a point: a number, a day or a second.
    Ranged(KeyList, i128),
    /// An address of IP_TRIE.
    V4(u32),
    V6(u128),
}
