// A viewer's end of a slot that threads share.
ghost use Rattle.std.specs.Prelude.{◌≡◌, Some, length, List, IfOk, IsErrOf, OnErr};
ghost use Rattle.dict_io.specs.Outside.{HasCause, count_up};
ghost use Rattle.left_right.specs.Sides.{view as seat_view};
ghost use mathlib.Core.List.{IsPrefix};
ghost use Rattle.version_slot.specs.Copies.{Knows, which};
ghost use Rattle.version_slot.specs.SharedSlots.{IsOf, Reached, SlotName, Viewing};
ghost use Rattle.version_slot.specs.Views.{EachHasFact, IsNewestOf};

use super::copies::SlotReader;
use super::rule::{Entering, Known, OneSlot};
use super::shown::Shown;
use super::token::SharedToken;
use crate::ends::{End, Token, Viewer};
use crate::fact::Fact;
use crate::held::Entry;
use crate::seen::{EnterFault, Seen};
use core::mem::replace_with;
use dict_value::NoMemory;
use left_right::reader::Reader;
use std::marker::Model;

/// Sees the slot's newest entry, and never waits.
pub struct SharedViewer<V: Entry, F: Fact<V>> {
    reader: Reader<Shown<V, F>, Known, OneSlot>,
    known: SharedToken<V, F>,
    refusals: u64,
}

impl<V: Entry, F: Fact<V>> Model for SharedViewer<V, F> {
    ghost use Rattle.std.specs.Prelude.{◌≡◌, Some};
    ghost use Rattle.left_right.specs.Sides.{view as seat_view};
    ghost use Rattle.version_slot.specs.Copies.{which};
    ghost use Rattle.version_slot.specs.SharedSlots.{Viewing};

    ghost Value = { Viewing V };

    ghost view = { λ it. record { list = it.known.list; slot = it.known.slot; refusals = it.refusals } };

    ghost invariant = { λ it. seat_view it.reader.place ≡ Some (which it.known.slot) };
}

impl<V: Entry, F: Fact<V>> Drop for SharedViewer<V, F> {
    fn drop(self) {
        let Self {
            reader: _reader,
            known: _known,
            refusals: _,
        } = self;
    }
}

// Enters, takes a copy of what is shown, and leaves.
fn enter_copy<V: Entry, F: Fact<V>>(
    reader: SlotReader<V, F>,
) -> (SlotReader<V, F>, Result<Shown<V, F>, EnterFault>)
    ensures seat { seat_view result.0.place ≡ seat_view reader.place }
    ensures slot { IfOk result.1 (λ shown. Knows (seat_view reader.place) shown.slot) }
{
    match reader.enter_as::<Entering>() {
        Ok(reading) => {
            let copy = reading.get().again();
            let reader = reading.leave();
            match copy {
                Ok(shown) => (reader, Ok(shown)),
                Err(NoMemory) => (reader, Err(EnterFault::NoMemory)),
            }
        }
        Err(reader) => (reader, Err(EnterFault::Shut)),
    }
}

// The same, in place.
fn copy_shown<V: Entry, F: Fact<V>>(
    reader: &mut SlotReader<V, F>,
) -> Result<Shown<V, F>, EnterFault>
    ensures seat { seat_view reader.new.place ≡ seat_view reader.old.place }
    ensures slot { IfOk result (λ shown. Knows (seat_view reader.old.place) shown.slot) }
{
    replace_with(reader, (), |reader, _| enter_copy(reader))
}

impl<V: Entry, F: Fact<V>> SharedViewer<V, F> {
    pub(super) fn over(reader: SlotReader<V, F>, known: SharedToken<V, F>) -> SharedViewer<V, F>
        requires { seat_view reader.place ≡ Some (which known.slot) }
        ensures { result ≡ record { list = known.list; slot = known.slot; refusals = 0 } }
    {
        SharedViewer {
            reader,
            known,
            refusals: 0,
        }
    }

    /// A token of the view. It takes no memory.
    pub fn tell(&self) -> SharedToken<V, F>
        ensures list { result.list ≡ self.now.list }
        ensures slot { result.slot ≡ self.now.slot }
    {
        self.known.again()
    }

    // Takes what was shown into the view. A list shorter than the view, which no slot shows, is refused.
    fn take_in(&mut self, shown: Shown<V, F>) -> Result<Seen<V>, EnterFault>
        requires { shown.slot ≡ self.old.slot }
        ensures seen { IfOk result (λ s. IsNewestOf self.new.list s) }
        ensures view { IsPrefix self.old.list self.new.list }
        ensures refused { OnErr result (result ≡ Err EnterFault.NoMemory) }
        ensures slot { self.new.slot ≡ self.old.slot }
        ensures refusals { self.new.refusals ≡ self.old.refusals }
    {
        if !self.known.is_within(shown.told()) {
            return Err(EnterFault::NoMemory);
        }
        let (known, version) = shown.into_parts();
        let number = known.number();
        self.known = known;
        match version {
            None => Ok(Seen::nothing()),
            Some(held) => Ok(Seen::of(number, held)),
        }
    }
}

impl<V: Entry, F: Fact<V>> End for SharedViewer<V, F> {
    type V = V;

    type Told = SharedToken<V, F>;

    ghost Slot = { SlotName };

    ghost slot = { λ viewer. viewer.slot };

    ghost list = { λ viewer. viewer.list };

    ghost allows = { F.allows };

    ghost is_of = { λ viewer told. IsOf viewer.slot told };

    ghost told_list = { λ _ told. told.list };
}

impl<V: Entry, F: Fact<V>> Viewer for SharedViewer<V, F> {
    ghost refusals = { λ viewer. viewer.refusals };

    /// Each entering that the copies refuse is counted once.
    fn enter(&mut self) -> Result<Seen<V>, EnterFault>
        ensures view { IsPrefix self.old.list self.new.list }
        ensures seen { IfOk result (λ s. IsNewestOf self.new.list s) }
        ensures fact { EachHasFact F.allows self.new.list }
        ensures shut { HasCause self.old.refusals self.new.refusals (IsErrOf result EnterFault.Shut) }
        ensures once { IsErrOf result EnterFault.Shut → self.new.refusals ≡ count_up self.old.refusals }
        ensures slot { self.new.slot ≡ self.old.slot }
    {
        let seen = match copy_shown(&mut self.reader) {
            Ok(shown) => self.take_in(shown),
            Err(EnterFault::Shut) => {
                self.refusals = self.refusals.saturating_add(1);
                Err(EnterFault::Shut)
            }
            Err(EnterFault::NoMemory) => Err(EnterFault::NoMemory),
        };
        // what reads the view gives the fact of its entries
        let _number = self.known.number();
        seen
    }

    fn learn(&mut self, told: &mut SharedToken<V, F>) {
        if self.known.is_within(told) {
            self.known = told.again();
        }
        // as above
        let _number = self.known.number();
    }
}
