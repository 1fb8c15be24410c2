//! Rows by a key and a range that holds a point.
//!
//! It promises that [`Ranged::find`] gives, of the rows with the key whose ends hold the point, the one that no
//! other precedes by the strategy, in steps of which two to their number is at most sixteen times the rows with
//! the key, and without taking memory. A build takes the time of a few sorts.
#![tactic(auto)]

mod edges;
mod ends;
mod index;
mod paint;
mod points;
mod ranged;
mod ranks;
mod stretches;
#[cfg(test)]
mod tests;

pub use ends::{End, Ends};
pub use ranged::Ranged;
