//! The columns of a definition text: types, columns with their defaults and marks, keys, and arguments.
//!
//! It promises that what is read is what the grammar of `specs/Grammar.antt` has, that what the
//! grammar has is read, and as nothing else, and that the fault is the one with the least place; a
//! Decimal out of range, which is found where its bracket closes, is told at its word. After a fault
//! nothing is said of what the reader has left.
#![tactic(auto)]

mod arguments;
mod columns;
mod defaults;
mod keys;
mod laws;
mod marks;
mod numbers;
mod types;

pub use arguments::read_arguments;
pub use columns::read_columns;
pub use keys::read_key;
pub use laws::a_bad_default_fits_no_type;
pub use marks::Mark;
pub use types::{BaseName, TypeName, read_type};

#[cfg(test)]
mod tests;
