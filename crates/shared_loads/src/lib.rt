//! Loads whose versions and whose board many threads share.
//!
//! A [`Board`] is a dictionary's board under a lock, and a [`Place`] is where a thread posts on it. It promises that
//! the newest token of a board is of the board's slot, so that a viewer of this slot that is taught has learnt at least
//! the version of the number that it is told; and of a load over a shared slot, [`load_shared`], that it is one load of
//! its loader, and that the number that it published is the publisher's and the loader's. What lies under the lock
//! between two of a thread's own calls is others' doing, so a board that threads share tells no contents.
#![tactic(auto)]

mod board;
mod loads;
#[cfg(test)]
mod tests;

pub use board::{Board, Place, SlotOf};
pub use loads::load_shared;
