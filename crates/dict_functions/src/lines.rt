// What is made of each line of a request, or of what was answered for it.
ghost use Rattle.std.specs.Prelude.{◌≡◌, ◌<◌, ◌∷◌, ◌++◌, ◌+◌, ◌^◌, ℕ, List, All, Err, IfOk, length};
ghost use Rattle.std.specs.List.{AllZip};
ghost use Rattle.dict_functions.specs.Keys.{IsFirstWithout};
ghost use Rattle.dict_functions.specs.steps.Lines.{value_fault};

use dict_value::{BadValue, ListOf};
use std::alloc::Global;

/// Why nothing is made of a line.
#[derive(Clone, Copy, Debug, PartialEq, Eq)]
pub(crate) enum LineFault {
    Unread,
    NoMemory,
}

/// Why nothing is made of a line with a field that has no value.
pub(crate) fn value_fault(fault: BadValue) -> LineFault
    ensures { result ≡ value_fault fault }
{
    match fault {
        BadValue::NoMemory => LineFault::NoMemory,
        _ => LineFault::Unread,
    }
}

/// Why nothing is made of several lines.
#[derive(Clone, Copy, Debug, PartialEq, Eq)]
pub(crate) enum LinesFault {
    /// The first line that can't be read, from 1.
    Unread(u32),
    NoMemory,
}

/// What makes something of a line, or of what was answered for it.
pub(crate) trait OfLine {
    type Item;

    type Made: Drop;

    /// A line that it may be handed.
    ghost takes: { Self → Self.Item → Type 0 };

    /// A line that can be read.
    ghost reads: { Self → Self.Item → Type 0 };

    /// What is made of a line.
    ghost makes: { Self → Self.Item → Self.Made → Type 0 };

    fn make(&self, alloc: Global, line: &Self::Item) -> Result<Self::Made, LineFault>
        requires { takes self.now line.now }
        ensures read { IfOk result (λ _. reads self.now line.now) }
        ensures made { IfOk result (makes self.now line.now) }
        ensures unread { result ≡ Err LineFault.Unread → ¬ (reads self.now line.now) };
}

/// What is made of each line, or the first line that can't be read.
pub(crate) fn each_line<L: OfLine>(
    alloc: Global,
    of: &L,
    lines: &ListOf<L::Item>,
) -> Result<ListOf<L::Made>, LinesFault>
    requires takes { All (L.takes of.now) lines.now }
    requires few { length lines.now < 2 ^ 32 }
    ensures read { IfOk result (λ _. All (L.reads of.now) lines.now) }
    ensures made { IfOk result (AllZip (L.makes of.now) lines.now) }
    ensures unread { (n : ℕ) → result ≡ Err (LinesFault.Unread n) → IsFirstWithout (L.reads of.now) lines.now n }
{
    let Ok(mut made) = ListOf::with_room(alloc, lines.len()) else {
        return Err(LinesFault::NoMemory);
    };
    for place in 0..lines.len() {
        match of.make(alloc, &lines.as_slice()[place]) {
            Ok(one) => {
                if made.push(one).is_err() {
                    return Err(LinesFault::NoMemory);
                }
            }
            Err(LineFault::Unread) => return Err(LinesFault::Unread(place as u32 + 1)),
            Err(LineFault::NoMemory) => return Err(LinesFault::NoMemory),
        }
    }
    Ok(made)
}
