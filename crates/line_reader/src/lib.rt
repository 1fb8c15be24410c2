//! The lines of a source, read through one bounded buffer.
//!
//! It promises that what is read is the next line of what is left, at most 65,536 bytes of it; that a line
//! without its line feed is told as the last one exactly at the end of the source; and that nothing is
//! lost, nor read behind an end.
#![tactic(auto)]

pub mod lines;

pub use lines::{Lines, Next, ROOM};
