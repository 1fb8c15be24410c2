//! Rows that are fetched by key: what a fetch is.
//!
//! It promises nothing yet of its own: [`Fetch`] names what each fetch has to tell of the keys that it is
//! handed and of the rows that it answers, so that replies from fetched rows can say where they come from.
#![tactic(auto)]

pub mod fetch;

pub use fetch::{Fetch, MOST_KEY_BYTES, MOST_KEYS};
