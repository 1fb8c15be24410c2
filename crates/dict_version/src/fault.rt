// Why a row list makes no version.
ghost use Rattle.dict_version.specs.declared.fault.LayoutFault.TheVariants as fault;

use dict_value::NoMemory;

/// Why a row list makes no version.
#[derive(Clone, Copy, Debug, PartialEq, Eq)]
pub enum LayoutFault {
    /// The first key that isn't below the limit of FLAT.
    KeyTooLarge(u64),
    /// The first row of IP_TRIE whose key is no prefix, counted from 1.
    BadPrefix(u32),
    NoMemory,
}

impl From<NoMemory> for LayoutFault {
    ghost use Rattle.std.specs.Prelude.{◌≡◌};
    ghost use Rattle.dict_version.specs.declared.fault.LayoutFault.TheVariants as fault;

    ghost from_gives = { λ _ e. e ≡ fault.NoMemory };

    fn from(_e: NoMemory) -> LayoutFault {
        LayoutFault::NoMemory
    }
}
