// What both copies hold.
ghost use Rattle.std.specs.Prelude.{◌≡◌, [], Some, length, IfOk};
ghost use Rattle.version_slot.specs.SharedSlots.{Reached};
ghost use Rattle.version_slot.specs.Views.{entry};

use super::token::SharedToken;
use crate::fact::Fact;
use crate::held::{Entry, Held};
use dict_value::NoMemory;
use left_right::Absorb;
use std::alloc::AllocError;
use std::marker::Model;

/// How far the slot's list had come, and a shared handle of its newest entry.
pub struct Shown<V: Entry, F: Fact<V>> {
    told: SharedToken<V, F>,
    version: Option<Held<V>>,
}

impl<V: Entry, F: Fact<V>> Model for Shown<V, F> {
    ghost use Rattle.std.specs.Prelude.{◌≡◌, length};
    ghost use Rattle.version_slot.specs.SharedSlots.{Reached};
    ghost use Rattle.version_slot.specs.Views.{entry};

    ghost Value = { Reached V };

    ghost view = { λ it. it.told };

    ghost invariant = { λ it. it.version ≡ entry it.told.list (length it.told.list) };
}

impl<V: Entry, F: Fact<V>> Drop for Shown<V, F> {
    fn drop(self) {
        let Self {
            told: _told,
            version: _version,
        } = self;
    }
}

/// Both copies are set whole: what is shown next takes the place of what was shown.
impl<V: Entry, F: Fact<V>> Absorb<Shown<V, F>> for Shown<V, F> {
    type State = Shown<V, F>;

    ghost state = { λ shown. shown };

    ghost applied = { λ _ next. next };

    fn absorb_first(&mut self, next: &Shown<V, F>, _other: &Shown<V, F>) -> Result<(), AllocError> {
        match next.again() {
            Ok(shown) => {
                *self = shown;
                Ok(())
            }
            Err(NoMemory) => Err(AllocError),
        }
    }

    fn absorb_second(
        &mut self,
        next: Shown<V, F>,
        _other: &Shown<V, F>,
    ) -> Result<(), Shown<V, F>> {
        *self = next;
        Ok(())
    }
}

impl<V: Entry, F: Fact<V>> Shown<V, F> {
    /// What is shown before the first entry.
    pub(super) fn nothing(told: SharedToken<V, F>) -> Shown<V, F>
        requires { told.list ≡ [] }
        ensures { result ≡ told }
    {
        Shown {
            told,
            version: None,
        }
    }

    pub(super) fn newest(told: SharedToken<V, F>, version: Held<V>) -> Shown<V, F>
        requires { entry told.list (length told.list) ≡ Some version }
        ensures { result ≡ told }
    {
        Shown {
            told,
            version: Some(version),
        }
    }

    pub(super) fn told(&self) -> &SharedToken<V, F>
        ensures { result.now ≡ self.now }
    {
        &self.told
    }

    pub(super) fn into_parts(self) -> (SharedToken<V, F>, Option<Held<V>>)
        ensures told { result.0 ≡ self }
        ensures version { result.1 ≡ entry self.list (length self.list) }
    {
        let Shown { told, version } = self;
        (told, version)
    }

    /// The same once more. It fails only where the handles of the entry can't be counted any more.
    pub(super) fn again(&self) -> Result<Shown<V, F>, NoMemory>
        ensures { IfOk result (λ shown. shown ≡ self.now) }
    {
        let version = match &self.version {
            None => None,
            Some(held) => Some(held.again()?),
        };
        Ok(Shown {
            told: self.told.again(),
            version,
        })
    }
}
