// Why a load has no version.
use dict_value::{Cause, NoMemory};

/// Why a load has no version.
#[derive(Clone, Copy, Debug, PartialEq, Eq)]
pub enum LoadFault {
    Refused(Cause),
    NoMemory,
}

impl From<NoMemory> for LoadFault {
    ghost use Rattle.std.specs.Prelude.{◌≡◌};
    ghost use Rattle.loader.specs.declared.fault.LoadFault.TheVariants as fault;

    ghost from_gives = { λ _ e. e ≡ fault.NoMemory };

    fn from(_e: NoMemory) -> LoadFault {
        LoadFault::NoMemory
    }
}
