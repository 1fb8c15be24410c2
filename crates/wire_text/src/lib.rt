//! The line protocol as texts: requests are read from their lines, and replies are written.
//!
//! It promises that [`lines_after`] tells from the first line alone how many lines follow it; that
//! [`read_request`] gives the one request that the table of `specs/Requests.antt` has for the fields of
//! the lines, and else that they are none; and that [`write_reply`] appends the one text that
//! `specs/Replies.antt` and `specs/Causes.antt` give a reply, or nothing where memory ran out. Only want
//! of memory may stand in place of an answer. The laws say that an input has one list of requests
//! (`specs/RequestTexts.antt`), and that the text of a value's or a block's reply tells its version or
//! moment and each value.
#![tactic(auto)]

mod causes;
mod decimals;
mod heads;
pub mod laws;
mod lines;
mod pieces;
mod reading;
pub mod reply;
pub mod request;
mod words;
mod writing;

pub use heads::{heads_block, is_quit};
pub use laws::{one_block_of_a_text, one_list_of_requests, one_request, one_value_of_a_text};
pub use lines::{MOST_BLOCK_BYTES, MOST_BLOCK_LINES, MOST_LINE_BYTES, MOST_REQUESTS, lines_after};
pub use reading::read_request;
pub use reply::{Line, Mark, Reply, ReplyFault, StatusLine};
pub use request::{Asked, Request, RequestFault, Verb};
pub use writing::write_reply;

#[cfg(test)]
mod shown;
