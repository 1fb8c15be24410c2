//! A slot: the list of versions that were published, its one publisher, and its viewers.
//!
//! It promises that a publishing appends exactly one entry or leaves the list as it was, that each
//! entry has the slot's fact over the entries before it, and that a viewer's view only grows: an
//! entering gives the newest entry of a view that begins with all that the viewer saw and learnt.
#![tactic(auto)]

pub mod ends;
pub mod fact;
mod held;
pub mod plain;
pub mod seen;
pub mod shared;
#[cfg(test)]
mod tests;

pub use ends::{End, LAST_NUMBER, Publisher, Token, Viewer};
pub use fact::Fact;
pub use held::Entry;
pub use plain::{PlainSlot, PlainToken};
pub use seen::{EnterFault, Seen};
pub use shared::{Flip, SharedPublisher, SharedSlot, SharedToken, SharedViewer, Shown, SlotCopies};
