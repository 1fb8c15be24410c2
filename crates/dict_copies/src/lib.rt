//! Copies of definitions, and whether two are the same.
//!
//! It promises that a copy is the definition that it was made of, and that two definitions are said to be the same
//! exactly where each of their parts is, a comment and a lifetime included. A comparison takes no memory.
#![tactic(auto)]

mod copy;
mod same;
#[cfg(test)]
mod tests;

pub use copy::copy_definition;
pub use same::same_definition;
