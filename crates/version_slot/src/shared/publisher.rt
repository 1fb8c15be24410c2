// The publisher's end of a slot that threads share.
ghost use Rattle.std.specs.Prelude.{◌≡◌, ◌<◌, List, [], ◌∷◌, ◌++◌, length, IfOk, OnErr};
ghost use Rattle.version_slot.specs.SharedSlots.{IsOf, Reached, SlotName};
ghost use Rattle.version_slot.specs.Views.{EachHasFact, KeepsTokens};

use super::copies::Flip;
use super::shown::Shown;
use super::token::{Counter, SharedToken};
use crate::ends::{End, LAST_NUMBER, Publisher, Token};
use crate::fact::Fact;
use crate::held::{Entry, Held};
use dict_value::NoMemory;
use std::alloc::Global;
use std::marker::Model;

/// Appends the slot's entries. Once it is dropped, each entering is shut.
#[derive(Drop)]
pub struct SharedPublisher<V: Entry, F: Fact<V>, W: Flip<Value = Shown<V, F>>> {
    told: SharedToken<V, F>,
    counter: Counter<V, F>,
    copies: W,
}

impl<V: Entry, F: Fact<V>, W: Flip<Value = Shown<V, F>>> Model for SharedPublisher<V, F, W> {
    ghost use Rattle.std.specs.Prelude.{◌≡◌};
    ghost use Rattle.version_slot.specs.SharedSlots.{Reached};

    ghost Value = { Reached V };

    ghost view = { λ it. it.told };

    ghost invariant = { λ it. (it.counter ≡ it.told.slot) × (W.shown it.copies ≡ it.told)
        × ((next : Reached V) → next.slot ≡ it.told.slot → W.may_show it.copies next) };
}

impl<V: Entry, F: Fact<V>, W: Flip<Value = Shown<V, F>>> SharedPublisher<V, F, W> {
    pub(super) fn over(
        told: SharedToken<V, F>,
        counter: Counter<V, F>,
        copies: W,
    ) -> SharedPublisher<V, F, W>
        requires counter { counter ≡ told.slot }
        requires shown { W.shown copies ≡ told }
        requires same_slot { (next : Reached V) → next.slot ≡ told.slot → W.may_show copies next }
        ensures { result ≡ told }
    {
        SharedPublisher {
            told,
            counter,
            copies,
        }
    }

    /// A token of the list so far. It takes no memory.
    pub fn tell(&self) -> SharedToken<V, F>
        ensures { result ≡ self.now }
    {
        self.told.again()
    }
}

impl<V: Entry, F: Fact<V>, W: Flip<Value = Shown<V, F>>> End for SharedPublisher<V, F, W> {
    type V = V;

    type Told = SharedToken<V, F>;

    ghost Slot = { SlotName };

    ghost slot = { λ publisher. publisher.slot };

    ghost list = { λ publisher. publisher.list };

    ghost allows = { F.allows };

    ghost is_of = { λ publisher told. IsOf publisher.slot told };

    ghost told_list = { λ _ told. told.list };
}

impl<V: Entry, F: Fact<V>, W: Flip<Value = Shown<V, F>>> Publisher for SharedPublisher<V, F, W> {
    fn publish(&mut self, alloc: Global, v: V) -> Result<SharedToken<V, F>, NoMemory> {
        let version = Held::new(alloc, v)?;
        let Some(longer) = self.told.append(&self.counter, &version) else {
            return Err(NoMemory);
        };
        self.copies.flip(Shown::newest(longer.again(), version))?;
        self.told = longer.again();
        Ok(longer)
    }

    fn number(&self) -> u64 {
        self.told.number()
    }
}
