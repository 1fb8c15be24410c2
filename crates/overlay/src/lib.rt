//! Rows that are laid over former ones, by their keys.
//!
//! It promises that [`overlay`] gives, of the new rows followed by the former ones, those whose key has
//! no earlier row there, in their order, and that this is one list ([`laws`]); a key is found through a
//! table. [`copy_rows`] gives the rows that it is handed.
#![tactic(auto)]

mod keys;
pub mod laws;
mod laying;
#[cfg(test)]
mod tests;

pub use laying::{copy_rows, overlay};
