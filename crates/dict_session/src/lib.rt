//! Sessions: the requests of a link, answered from the dictionaries and the functions of a desk.
//!
//! [`Desk`] names the calls and what may be said of their answers: each is told as an act that leads from one state of
//! the desk to the next, and each view afterwards begins with the one before. [`ask_of`] gives what a request asks for,
//! the refusals that need no call included, and [`answer_request`] makes that call and gives the reply that follows
//! from its answer. It promises that [`serve_session`] answers the requests of a link one after another, each by just
//! the calls that it asks for and one reply, to an end that has its cause; that what was seen stands in the views at
//! the end; and that the numbers that are seen never fall, nor below one that the session was told of. Laws say of acts
//! that lead on from where others led that they keep what holds of both.
#![tactic(auto)]

pub mod answer;
pub mod ask;
pub mod desk;
mod keyed;
pub mod laws;
pub mod session;

pub use answer::{Answer, answer_request};
pub use ask::{Ask, ask_of};
pub use desk::{ConfigEnd, Desk};
pub use laws::{acts_follow, an_entering_keeps_floors};
pub use session::{SessionEnd, serve_session};
