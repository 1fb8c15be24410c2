// What a load and a board answer: plain data that sessions read.
use dict_value::Cause;
use load_core::{LastCause, State};

/// How a load ended.
#[derive(Clone, Copy, Debug, PartialEq, Eq)]
pub enum LoadEnd {
    /// The number of the version that was published.
    Published(u64),
    /// Why nothing was published; never want of memory.
    Failed(Cause),
    NoMemory,
}

/// What a dictionary's board tells: the number of the newest posted version, the state, the counts of published and of
/// failed loads, and the last cause.
#[derive(Clone, Copy, Debug, PartialEq, Eq)]
pub struct StatusRow {
    pub number: u64,
    pub state: State,
    pub oks: u64,
    pub fails: u64,
    pub cause: LastCause,
}
