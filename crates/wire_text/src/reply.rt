// What a client is answered.
use dict_value::{Bytes, CallFault, Cause, FetchFault, ListOf};
use load_core::{LastCause, State};

/// What an answer comes from: a version, a fetch that began at a moment, or a function.
#[derive(Clone, Copy, Debug, PartialEq, Eq)]
pub enum Mark {
    Version(u64),
    Moment(u64),
    Function,
}

/// One value of a block, its text escaped; the moment is printed only in a block whose mark is a moment.
#[derive(Debug, Drop)]
pub struct Line {
    pub moment: u64,
    pub text: Bytes,
}

/// The state and the counts of a dictionary's loads.
#[derive(Clone, Copy, Debug, PartialEq, Eq)]
pub struct StatusLine {
    pub number: u64,
    pub state: State,
    pub oks: u64,
    pub fails: u64,
    pub cause: LastCause,
}

/// Why a request is refused.
#[derive(Clone, Copy, Debug, PartialEq, Eq)]
pub enum ReplyFault {
    BadRequest,
    UnknownDictionary,
    UnknownAttribute,
    /// The line of this key, from 1.
    BadKey(u32),
    NotLoaded,
    WrongLayout,
    Load(Cause),
    Fetch(FetchFault),
    UnknownFunction,
    /// The line of these arguments, from 1; 0 for a default.
    BadArgument(u32),
    Call(CallFault),
    /// The number of the newest version, which is below the one that was asked for.
    Behind(u64),
    LineTooLong,
    TooLarge,
    ConfigUnread,
    /// Why the definitions file has no reading: its line from 1, its byte from 0, and words.
    ConfigRefused {
        line: u32,
        place: u32,
        words: &'static [u8],
    },
    /// The first item, from 1, that another file can't change so.
    ConfigNames(u32),
    ConfigTooLong,
    Shut,
    NoMemory,
}

/// The answer to one request.
#[derive(Debug, Drop)]
pub enum Reply {
    /// One value, its text escaped.
    One { mark: Mark, text: Bytes },
    /// The values of a block, in order.
    Many { mark: Mark, lines: ListOf<Line> },
    Status(StatusLine),
    /// The number of a version.
    Number(u64),
    /// A definition's text.
    Shown(Bytes),
    /// How many items changed, and how many loads were published.
    Config(u32, u32),
    Bye,
    Refused(ReplyFault),
}
