//! Loads of fully loaded dictionaries: what each comes to, what is told of them, and when they are due.
//!
//! A [`Loader`] loads one dictionary: each load starts at most one child, and publishes what that gives or says why it
//! gives nothing, and posts its begin and its end.
//!
//! It says what a load comes to, by its definition, the former rows and its child's outcome, where the entries of a
//! slot of versions come from, and what a loader keeps; [`laws`] tie that to the world of the pure machine. It promises
//! that a [`BoardState`] tells the counts, the state and the last cause of the loads that were posted, has the last 64
//! ends in their order, and lets a viewer learn the newest token that was posted; and that a [`Schedule`] has the exact
//! deadlines of the loads so far: after a published load one word of the item's own stream picks the seconds from MIN
//! to MAX, and after failed loads the waits double up to ten minutes. A schedule takes no memory, and of a board only
//! its making does.
#![tactic(auto)]

mod answers;
mod board;
#[cfg(test)]
mod board_tests;
mod fault;
pub mod laws;
#[cfg(test)]
mod load_tests;
mod loader;
mod loading;
mod making;
mod origin;
mod reading;
mod schedule;
#[cfg(test)]
mod schedule_tests;

pub use answers::{LoadEnd, StatusRow};
pub use board::{BoardAt, BoardState, KEPT_NOTES, LoadNote, NoteEnd, Posting};
pub use loader::Loader;
pub use origin::{Folder, OriginOf};
pub use schedule::Schedule;
