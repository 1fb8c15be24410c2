// Why a definitions file isn't read, and how that is told.
ghost use Rattle.std.specs.Prelude.{◌≡◌, ◌<◌, length};
ghost use Rattle.ddl_tokens.specs.Lines.{line_of};
ghost use Rattle.ddl_text.specs.declared.fault.FileFault.TheVariants as file_fault;
ghost use Rattle.ddl_text.specs.declared.fault.DdlRefusal.TheVariants as refusal;
ghost use Rattle.ddl_text.specs.Faults.{of_syntax, place_of_fault, words_of, words_of_definition, words_of_limit};
ghost use Rattle.ddl_text.specs.Faults.{of_reading};

use ddl_tokens::{ReadFault, SyntaxFault, line_of};
use dict_schema::{DefFault, Which};
use dict_value::NoMemory;

/// What is wrong with a definitions file, at a byte that is counted from 0. A definition that can't be and the 129th of
/// a kind are told at their statement's first byte.
#[derive(Clone, Copy, Debug, PartialEq, Eq)]
pub enum DdlFault {
    Unexpected(u32),
    UnknownSetting(u32),
    Twice(u32),
    Unsupported(u32),
    Def(u32, DefFault),
    TooMany(u32),
}

/// Why a definitions file isn't read; lines count from 1.
#[derive(Clone, Copy, Debug, PartialEq, Eq)]
pub enum DdlRefusal {
    Refused { line: u32, fault: DdlFault },
    NoMemory,
}

/// The same before its line is known.
#[derive(Clone, Copy, Debug, PartialEq, Eq)]
pub(crate) enum FileFault {
    Fault(DdlFault),
    NoMemory,
}

impl From<NoMemory> for FileFault {
    ghost from_gives = { λ _ e. e ≡ file_fault.NoMemory };

    fn from(_e: NoMemory) -> FileFault {
        FileFault::NoMemory
    }
}

impl From<DdlFault> for FileFault {
    ghost from_gives = { λ fault e. e ≡ file_fault.Fault fault };

    fn from(fault: DdlFault) -> FileFault {
        FileFault::Fault(fault)
    }
}

impl From<ReadFault> for FileFault {
    ghost from_gives = { λ fault e. e ≡ of_reading fault };

    fn from(fault: ReadFault) -> FileFault {
        match fault {
            ReadFault::Syntax(fault) => FileFault::Fault(of_syntax(fault)),
            ReadFault::NoMemory => FileFault::NoMemory,
        }
    }
}

fn of_syntax(fault: SyntaxFault) -> DdlFault
    ensures { result ≡ of_syntax fault }
{
    match fault {
        SyntaxFault::Unexpected(place) => DdlFault::Unexpected(place),
        SyntaxFault::UnknownSetting(place) => DdlFault::UnknownSetting(place),
        SyntaxFault::Twice(place) => DdlFault::Twice(place),
        SyntaxFault::Unsupported(place) => DdlFault::Unsupported(place),
    }
}

/// The byte that a fault is told at, from 0.
pub fn place_of(fault: &DdlFault) -> u32
    ensures { result ≡ place_of_fault fault.now }
{
    match fault {
        DdlFault::Unexpected(place) => *place,
        DdlFault::UnknownSetting(place) => *place,
        DdlFault::Twice(place) => *place,
        DdlFault::Unsupported(place) => *place,
        DdlFault::Def(place, _) => *place,
        DdlFault::TooMany(place) => *place,
    }
}

/// A fault with the line of its place.
pub(crate) fn refusal(text: &[u8], fault: DdlFault) -> DdlRefusal
    requires { length text.now < 4294967295 }
    ensures { result ≡ refusal.Refused (line_of text.now (place_of_fault fault)) fault }
{
    // No place lies behind the text's end.
    let place = place_of(&fault);
    let place = if (place as usize) < text.len() {
        place
    } else {
        text.len() as u32
    };
    DdlRefusal::Refused {
        line: line_of(text, place),
        fault,
    }
}

/// A fault in words; that of a limit names the quantity.
pub fn fault_words(fault: &DdlFault) -> &'static [u8]
    ensures { result.now ≡ words_of fault.now }
{
    match fault {
        DdlFault::Unexpected(_) => b"unexpected",
        DdlFault::UnknownSetting(_) => b"unknown setting",
        DdlFault::Twice(_) => b"given twice",
        DdlFault::Unsupported(_) => b"unsupported",
        DdlFault::Def(_, fault) => definition_words(fault),
        DdlFault::TooMany(_) => b"too many",
    }
}

fn definition_words(fault: &DefFault) -> &'static [u8]
    ensures { result.now ≡ words_of_definition fault.now }
{
    match fault {
        DefFault::Limit(which, _) => limit_words(*which),
        DefFault::NoKey => b"no key",
        DefFault::NoArguments => b"no arguments",
        DefFault::KeyMissing(_) => b"key missing",
        DefFault::DuplicateName(_) => b"duplicate name",
        DefFault::SimpleKeyType => b"simple key type",
        DefFault::KeyType(_) => b"key type",
        DefFault::RangeMissing => b"range missing",
        DefFault::RangeUnused => b"range unused",
        DefFault::RangeType => b"range type",
        DefFault::HierarchyType(_) => b"hierarchy type",
        DefFault::BadDefault(_) => b"bad default",
        DefFault::PoolNeedsKeys => b"pool needs keys",
        DefFault::Command => b"command",
        DefFault::UpdateLayout => b"update layout",
    }
}

fn limit_words(which: Which) -> &'static [u8]
    ensures { result.now ≡ words_of_limit which }
{
    match which {
        Which::Columns => b"limit columns",
        Which::Keys => b"limit keys",
        Which::Args => b"limit arguments",
        Which::Name => b"limit name",
        Which::Command => b"limit command",
        Which::Output => b"limit output",
        Which::ArraySize => b"limit array size",
        Which::Cells => b"limit cells",
        Which::PoolSize => b"limit pool size",
        Which::LifetimeOrder => b"limit lifetime order",
    }
}
