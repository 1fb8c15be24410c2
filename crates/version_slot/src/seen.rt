// What an entering gives.
ghost use Rattle.std.specs.Prelude.{◌≡◌, ◌<◌, ◌↔◌, Some, None, IsNone, MatchOption};

use crate::held::{Entry, Held};
use std::marker::Model;
use thiserror::Error;

/// Why an entering gave nothing.
#[derive(Clone, Copy, Debug, PartialEq, Eq, Error)]
pub enum EnterFault {
    #[error("the slot is shut")]
    Shut,
    #[error("no memory")]
    NoMemory,
}

/// A number, and a shared handle of the version of that number. It holds no publisher up.
#[derive(Drop)]
pub struct Seen<V: Entry> {
    number: u64,
    version: Option<Held<V>>,
}

impl<V: Entry> Model for Seen<V> {
    ghost use Rattle.std.specs.Prelude.{◌≡◌, ◌↔◌, None};
    ghost use Rattle.version_slot.specs.Views.{Entered};

    ghost Value = { Entered V };

    ghost view = { λ it. record { number = it.number; version = it.version } };

    ghost invariant = { λ it. (it.version ≡ None) ↔ (it.number ≡ 0) };
}

impl<V: Entry> Seen<V> {
    /// What is seen of a slot before its first version.
    pub(crate) fn nothing() -> Seen<V>
        ensures number { result.number ≡ 0 }
        ensures version { result.version ≡ None }
    {
        Seen {
            number: 0,
            version: None,
        }
    }

    pub(crate) fn of(number: u64, version: Held<V>) -> Seen<V>
        requires { 0 < number }
        ensures number { result.number ≡ number }
        ensures version { result.version ≡ Some version }
    {
        Seen {
            number,
            version: Some(version),
        }
    }

    /// The version's number: 0 before the first version.
    pub fn number(&self) -> u64
        ensures number { result ≡ self.now.number }
        ensures none { (self.now.version ≡ None) ↔ (result ≡ 0) }
    {
        self.number
    }

    /// The version: none exactly at number 0.
    pub fn version(&self) -> Option<&V>
        ensures version { MatchOption result (self.now.version ≡ None) (λ v. self.now.version ≡ Some v.now) }
        ensures none { IsNone result ↔ (self.now.number ≡ 0) }
    {
        match &self.version {
            None => None,
            Some(held) => Some(held.get()),
        }
    }
}
