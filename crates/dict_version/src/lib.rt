//! One version of a fully loaded dictionary: its definition, its rows, and the index that its layout wants.
//!
//! It promises that a [`Version`] is seen as its definition, its row list and its moment; that it keeps the rows as
//! they were packed, without a copy; that [`Version::find`] is the plain lookup of a key in the row list by the
//! layout of the definition, without taking memory; that a cell is read, or written as the escaped text of its value,
//! where it lies; and that rows which a layout doesn't take are refused with the first key that is too large, or the
//! first row whose key is no prefix.
#![tactic(auto)]

mod columns;
mod fault;
mod index;
mod key;
mod lookup;
mod print;
#[cfg(test)]
mod tests;
mod version;

pub use columns::attribute_place;
pub use fault::LayoutFault;
pub use key::Key;
pub use lookup::{LookupBy, lookup_by};
pub use print::print_cell;
pub use version::Version;
