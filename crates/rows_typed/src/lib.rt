//! Typed rows: the output of a child as rows of values, by the columns that a definition wants.
//!
//! It promises that a text decodes to the list of its typed rows, or to its first bad row by line,
//! column and reason, or to too many rows, and that nothing is skipped. Only want of memory may
//! stand in place of an answer.
#![tactic(auto)]

mod columns;
mod decoding;
pub mod laws;

pub use decoding::decode;
pub use laws::decoded_rows_fit;
pub use row_text::DecodeFault;
