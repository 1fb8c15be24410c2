//! The one text of a definition, as a definitions file would have it.
//!
//! It promises that [`write_definition`] appends the text that `specs/Canonical.antt` gives an item: one space stands
//! between its parts, names are in backquotes, everything that has a default is written out; and that after want of
//! memory nothing has changed.
#![tactic(auto)]

mod clauses;
mod columns;
mod quoted;
mod sources;
mod types;
pub mod words;
mod writing;

pub use writing::{write_definition, write_dictionary};
