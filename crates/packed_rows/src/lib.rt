//! Rows of values in packed columns: so many bytes of a column for each row, bits for NULLs, and one
//! text for all Strings.
//!
//! It promises that [`Rows`] are seen as the list of rows that was pushed, cell by cell, into a
//! [`RowsBuilder`]; that a row counts once all its cells are there, and not before; that after want of
//! memory the rows and the open row are as they were; and that equal rows of equal types have equal
//! packs. A cell is read where it lies, without a copy.
#![tactic(auto)]

mod bits;
mod builder;
mod cell;
mod column;
pub mod laws;
mod rows;
#[cfg(test)]
mod tests;

pub use bits::Bits;
pub use builder::RowsBuilder;
pub use cell::{Cell, cell_of, value_of};
pub use column::{CellWidth, Column};
pub use laws::{equal_rows_equal_packs, packs_are_read_back, packs_take_stored};
pub use rows::Rows;
