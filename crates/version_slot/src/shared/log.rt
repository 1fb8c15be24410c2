// The list of a slot, which exists in proofs alone, and the word that counts it.
use crate::fact::Fact;
use crate::held::{Entry, Held};
use logbook::{Gain, Plain, Play, Rule};
use std::marker::PhantomData;

/// The rule: a word counts the list, and each entry has the fact.
pub struct ListRule<F> {
    fact: PhantomData<F>,
}

impl<V, F: Fact<V>> Rule<V, u64> for ListRule<F> {
    ghost use Rattle.std.specs.Prelude.{[]};
    ghost use base.Fml.{ftrue};
    ghost use Rattle.version_slot.specs.SharedSlots.{IsSlotList};

    ghost holds = { λ words list. IsSlotList F.allows words list };

    ghost first = { [] };

    ghost hinted = { λ _ _. Unit {0} };

    ghost shows = { λ _. [] };

    ghost keeps = { λ _ _. ftrue };

    ghost moves = { λ _ _ _ _. Unit {0} };
}

/// Callers trade nothing.
pub struct Nothing;

impl<V> Gain<V, u64> for Nothing {
    ghost use base.Fml.{ftrue};

    ghost after = { λ _ _ _. ftrue };
}

/// The step that appends an entry.
pub struct Appending<F> {
    fact: PhantomData<F>,
}

impl<V, F: Fact<V>> Play<V, u64> for Appending<F> {
    ghost use Rattle.version_slot.specs.SharedSlots.{Appends};

    ghost then = { λ asked seen found after. Appends F.allows asked.old asked.ask seen.0 found after.0 };
}

impl<V: Entry, F: Fact<V>> Plain<Held<V>, V, u64> for Appending<F> {
    ghost use Rattle.std.specs.Prelude.{None};

    ghost ask = { λ version. version };

    ghost state = { λ _. None };
}
