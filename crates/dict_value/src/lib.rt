//! Values of a dictionary, the lists that hold them, and the faults that several layers pass on.
//!
//! It promises that contracts see a [`Bytes`] or a [`ListOf`] as a plain list, that a growth which
//! finds no memory leaves the list as it was, and that no other call takes memory.
//!
//! Each type reads exactly the texts that the definitions of `specs/` name, with the named fault for
//! every other text, and writes one text of each value, which is read as that value again.
#![tactic(auto)]

mod addresses;
#[cfg(test)]
mod addresses_tests;
pub mod bytes;
#[cfg(test)]
mod bytes_tests;
mod counted;
#[cfg(test)]
mod counted_tests;
mod dates;
#[cfg(test)]
mod dates_tests;
mod decimals;
#[cfg(test)]
mod decimals_tests;
pub mod digit_text;
mod escapes;
pub mod fault;
mod fits;
mod identifiers;
#[cfg(test)]
mod identifiers_tests;
mod laws;
pub mod letters;
pub mod list;
mod number_texts;
mod numbers;
#[cfg(test)]
mod numbers_tests;
mod reading;
#[cfg(test)]
mod seen;
pub mod split;
pub mod value;
#[cfg(test)]
mod value_tests;
mod writing;

pub use addresses::{read_address, read_prefix};
pub use bytes::Bytes;
pub use counted::{Counted, Counter, Tally, Uncounted};
pub use digit_text::read_digits;
pub use escapes::{hex_digit, unescaped};
pub use fault::{BadRow, BlockFault, CallFault, Cause, Exit, FetchFault, LineFault, NoMemory, Why};
pub use fits::fits_column;
pub use laws::{
    addresses_by_grammar, each_field_is_read, one_place_is_found, read_is_typed, written_is_read,
};
pub use list::ListOf;
pub use number_texts::push_number;
pub use reading::{default_of, read_text, read_value};
pub use split::split_at_byte;
pub use value::{
    Address, AttrType, BadValue, ColType, Fetched, FetchedRow, Field, Fields, Format, KeyList,
    MOST_ROWS, MaybeRow, Prefix, Row, Value, copy_value, same_value,
};
pub use writing::write_value;
