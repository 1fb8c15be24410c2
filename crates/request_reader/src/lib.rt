//! Whole requests, taken line by line from a link.
//!
//! It promises that the bytes which are taken for a request are just those that the definitions of what is heard of an
//! input have for it, and that what is read in them is what is heard: what it asks for, that it has no reading, or that
//! it is too large. Only want of memory may stand in place of what a request asks for, and then it is still known
//! whether the request ends the session.
#![tactic(auto)]

pub mod further;
pub mod reader;

pub use reader::{Asking, Taken, next_request};
