//! Rows by prefixes of addresses: a table of the first bits over tries of four bits a level, whose ways end
//! where one row is left.
//!
//! It promises that [`Trie::find`] gives the row with the longest prefix that holds the address, of equal
//! prefixes the first, in at most one step more than the bits that a prefix has in common with the address
//! and without taking memory; and that a list with a text that is no prefix is refused with its first such
//! row.
#![tactic(auto)]

mod build;
mod cells;
mod prune;
#[cfg(test)]
mod tests;
mod trie;

pub use trie::{Trie, TrieFault};
