//! Keys by the keys of their parents.
//!
//! It promises that the chain of a key, the question whether another key is in it, and the children and
//! descendants of a key are those of the row list, where the first row with a key counts.
#![tactic(auto)]

mod below;
mod hier;
#[cfg(test)]
mod hier_tests;
mod lengths;
mod links;
mod members;

pub use hier::{Hier, Parent};
