//! Desks over their parts: a spawner, a clock, the definitions file, and the dictionaries.
//!
//! It promises that [`DeskOver`] is a desk whose calls are those of its parts, one dictionary at a time; that
//! [`read_items`] gives just the items of the text that the shelf answered, or why it has none; and that a
//! [`PlainDict`] is a dictionary of one thread: each load is one of its loader, its list and its board as one whole.
//! [`local_desk`] makes the desk of one thread over these.
#![tactic(auto)]

mod changes;
mod following;
mod items;
mod local;
mod over;
mod parts;
mod plain;
mod reading;
#[cfg(test)]
mod tests;

pub use following::Counts;
pub use items::{Items, are_loaded};
pub use local::{LocalDesk, local_desk, plain_dictionaries};
pub use over::DeskOver;
pub use parts::{DictAt, FileAt};
pub use plain::PlainDict;
pub use reading::{DefinitionsFile, MOST_DEFINITIONS, read_items};
