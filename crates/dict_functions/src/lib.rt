//! Answers to lookups and calls.
//!
//! It promises that [`answer_loaded`] gives the one answer that `specs/Answers.antt` has for what was asked, the
//! definition and the rows of the version that it was handed, and nothing else: the text of each line, or the first
//! reason why the lookup is refused. Where rows are fetched by key, [`keys_of`] gives the keys of a lookup or the first
//! refusal, and [`answer_keyed`] the answer from what was fetched for them (`specs/Keyed.antt`); [`rows_of`] and
//! [`answer_function`] do the same of a call (`specs/Calls.antt`). Only want of memory may stand in place of an answer.
//! [`laws`] says that a version gives one answer.
#![tactic(auto)]

mod asking;
mod calls;
mod hierarchies;
mod keyed;
mod keys;
pub mod laws;
mod lines;
mod loaded;
mod replies;
mod sending;
#[cfg(test)]
mod tests;

pub use calls::{answer_function, rows_of};
pub use keyed::{answer_keyed, keys_of};
pub use loaded::answer_loaded;
