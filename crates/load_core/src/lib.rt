//! The pure machine of loads, publications and callers, which every thread of the server moves by.
//!
//! It promises that a core steps by its table, that an event which its phase doesn't take is
//! answered Refused and changes nothing, that no step takes memory, that a world runs by the steps
//! of its cores, and, of every list of events and every judge of outputs, the law in [`laws`]:
//! lists only grow, by entries of whole loads that the judge accepts, and no caller goes back.
//! [`accept`] makes a flat table of decoded rows exactly where no key is too large.
#![tactic(auto)]

pub mod caller;
pub mod dictionary;
pub mod flat;
pub mod judge;
pub mod laws;
mod verdict;
pub mod world;
mod world_rows;

pub use caller::{CallerCore, CallerEffect, CallerEvent};
pub use dictionary::{
    DictCore, DictEffect, DictEvent, Ending, LastCause, MOST_LOADS, Phase, State,
};
pub use flat::{TableFault, accept};
pub use judge::{Judge, RowJudge};
pub use world::{Ended, World, WorldCaller, WorldDict, WorldEntry, WorldEvent};
