//! The tokens of a definition text with their places, and the laws of reading.
//!
//! It promises that a text is read as its tokens and nothing else, up to its end or to the first
//! byte where no token can be read; and that readers which are put together from others by the laws
//! of `proofs/` read what their grammar has, nothing else, and tell the fault of the least place.
#![tactic(auto)]

mod fault;
mod gaps;
mod letters;
mod lexing;
mod lines;
mod quoted;
mod reader;
mod token;

pub use fault::{ReadFault, SyntaxFault};
pub use letters::LetterCase;
pub use lines::line_of;
pub use reader::Reader;
pub use token::TokenKind;

#[cfg(test)]
mod tests;
