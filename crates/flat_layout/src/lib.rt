//! Rows by a small key: an array with a cell for each key.
//!
//! It promises that [`Flat::find`] gives the least place of the row list whose key equals, in at most
//! one step and without taking memory, and that a list with a key that isn't below the limit is refused
//! with its first such key.
#![tactic(auto)]

mod flat;
#[cfg(test)]
mod flat_tests;

pub use flat::{Flat, FlatFault};
