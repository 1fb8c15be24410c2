//! Rows by a key: open-addressing tables over flat arrays.
//!
//! It promises that `find` gives the least place of the row list whose key equals, that `has` tells
//! whether any row has the key, and that neither takes memory.
#![tactic(auto)]

mod complex;
#[cfg(test)]
mod complex_tests;
mod hashed;
#[cfg(test)]
mod hashed_tests;
mod key_bytes;
mod probing;

pub use complex::Complex;
pub use hashed::Hashed;
