// What a client asks for.
use dict_value::{Bytes, Field, Fields, ListOf, NoMemory};

/// What is asked of a dictionary or a function.
#[derive(Clone, Copy, Debug, PartialEq, Eq)]
pub enum Verb {
    Get,
    GetOrDefault,
    GetOrNull,
    Has,
    Hierarchy,
    IsIn,
    Children,
    Descendants,
    Call,
}

/// A lookup or a call. What its verb doesn't have is empty, Null or 0.
#[derive(Debug, Drop)]
pub struct Asked {
    pub verb: Verb,
    /// The name of the dictionary, or of the function.
    pub name: Bytes,
    pub attribute: Bytes,
    /// What is answered where no row has the key.
    pub fallback: Field,
    pub level: u32,
    /// Whether the keys stand in lines of their own.
    pub block: bool,
    /// The fields of each key, or of each list of arguments.
    pub lines: ListOf<Fields>,
}

/// What the lines of one request ask for.
#[derive(Debug, Drop)]
pub enum Request {
    Asked(Asked),
    Reload(Bytes),
    Status(Bytes),
    /// Whether the dictionary has a version of this number or a later one.
    After(Bytes, u64),
    Show(Bytes),
    /// The definitions file is to be read again.
    Config,
    Quit,
}

/// Why lines are no request.
#[derive(Clone, Copy, Debug, PartialEq, Eq)]
pub enum RequestFault {
    Bad,
    NoMemory,
}

impl From<NoMemory> for RequestFault {
    ghost use Rattle.std.specs.Prelude.{◌≡◌};

    fn from(_fault: NoMemory) -> RequestFault
        ensures { result ≡ RequestFault.NoMemory }
    {
        RequestFault::NoMemory
    }
}
