// Why a text isn't read.
ghost use Rattle.std.specs.Prelude.{◌≡◌};
ghost use Rattle.ddl_tokens.specs.declared.fault.ReadFault.TheVariants as fault;

use dict_value::NoMemory;

/// What is wrong with a text, at a place that is counted from its start.
#[derive(Clone, Copy, Debug, PartialEq, Eq)]
pub enum SyntaxFault {
    Unexpected(u32),
    UnknownSetting(u32),
    Twice(u32),
    Unsupported(u32),
}

/// Why a text isn't read.
#[derive(Clone, Copy, Debug, PartialEq, Eq)]
pub enum ReadFault {
    Syntax(SyntaxFault),
    NoMemory,
}

impl From<NoMemory> for ReadFault {
    ghost from_gives = { λ _ e. e ≡ fault.NoMemory };

    fn from(_e: NoMemory) -> ReadFault {
        ReadFault::NoMemory
    }
}
