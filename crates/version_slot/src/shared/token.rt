// What is known of how far a slot's list had come.
ghost use Rattle.std.specs.Prelude.{◌≡◌, ◌<◌, ◌≤◌, [], ◌∷◌, ◌++◌, ◌↔◌, length, IfSome, IsTrue};
ghost use Rattle.version_slot.specs.SharedSlots.{AreOfOneList, Reached, length_word, nothing_yet};
ghost use Rattle.version_slot.specs.Views.{EachHasFact};

use super::log::{Appending, ListRule, Nothing};
use crate::ends::{LAST_NUMBER, Token};
use crate::fact::Fact;
use crate::held::{Entry, Held};
use logbook::{Offer, Seen, Start, Word};
use std::marker::{Model, PhantomData};

/// A list that a slot's list had come to. Its only bytes are the list's length.
pub struct SharedToken<V: Entry, F: Fact<V>> {
    number: u64,
    seen: Seen<V, u64, ListRule<F>>,
    fact: PhantomData<F>,
}

impl<V: Entry, F: Fact<V>> Model for SharedToken<V, F> {
    ghost use Rattle.std.specs.Prelude.{◌≡◌, length};
    ghost use Rattle.version_slot.specs.SharedSlots.{Reached};
    ghost use Rattle.version_slot.specs.Views.{EachHasFact};

    ghost Value = { Reached V };

    ghost view = { λ it. record { list = it.seen.log; slot = it.seen.book } };

    ghost invariant = { λ it. (it.number ≡ length it.seen.log) × EachHasFact F.allows it.seen.log };
}

impl<V: Entry, F: Fact<V>> Drop for SharedToken<V, F> {
    fn drop(self) {
        let Self {
            number: _,
            seen: _seen,
            fact: _,
        } = self;
    }
}

impl<V: Entry, F: Fact<V>> Token for SharedToken<V, F> {
    ghost number_of = { λ told. length told.list };

    fn number(&self) -> u64
        ensures number { result ≡ length self.now.list }
        ensures fact { EachHasFact F.allows self.now.list }
    {
        self.number
    }
}

/// The word that counts a slot's list. The slot's publisher has it, and contracts see the slot.
pub struct Counter<V: Entry, F: Fact<V>> {
    word: Word<V, u64, ListRule<F>>,
}

impl<V: Entry, F: Fact<V>> Model for Counter<V, F> {
    ghost use Rattle.std.specs.Prelude.{◌≡◌};
    ghost use Rattle.version_slot.specs.SharedSlots.{SlotName, length_word};

    ghost Value = { SlotName };

    ghost view = { λ it. it.word.book };

    ghost invariant = { λ it. it.word ≡ length_word it.word.book };
}

impl<V: Entry, F: Fact<V>> Drop for Counter<V, F> {
    fn drop(self) {
        let Self { word: _word } = self;
    }
}

impl<V: Entry, F: Fact<V>> SharedToken<V, F> {
    /// A new slot's list, which has no entry, and its counter.
    pub(super) fn open() -> (SharedToken<V, F>, Counter<V, F>)
        ensures { result.0 ≡ nothing_yet result.1 }
    {
        let (seen, mut first, _second) = Seen::open(Start::alone(), 0, 0);
        let word = Word::tracked(0, &mut first);
        (
            SharedToken {
                number: 0,
                seen,
                fact: PhantomData,
            },
            Counter { word },
        )
    }

    /// The same once more. It takes no memory.
    pub fn again(&self) -> SharedToken<V, F>
        ensures { result ≡ self.now }
    {
        SharedToken {
            number: self.number,
            seen: self.seen.again(),
            fact: PhantomData,
        }
    }

    /// Whether the other's list is at least as long.
    pub fn is_within(&self, other: &SharedToken<V, F>) -> bool
        requires { other.now.slot ≡ self.now.slot }
        ensures number { IsTrue result ↔ (length self.now.list ≤ length other.now.list) }
        ensures one_list { AreOfOneList self.now.list other.now.list }
    {
        let mut both = self.seen.again();
        both.learn(&other.seen);
        self.number <= other.number
    }

    /// Appends an entry to the slot's list, if that is this one. It is none where that is longer.
    pub(super) fn append(
        &self,
        counter: &Counter<V, F>,
        version: &Held<V>,
    ) -> Option<SharedToken<V, F>>
        requires slot { counter.now ≡ self.now.slot }
        requires room { length self.now.list < LAST_NUMBER }
        requires fact { F.allows self.now.list version.now }
        ensures slot { IfSome result (λ told. told.slot ≡ self.now.slot) }
        ensures list { IfSome result (λ told. told.list ≡ self.now.list ++ version.now ∷ []) }
    {
        let number = self.number;
        let mut seen = self.seen.again();
        let mut offer: Offer<V, u64, ListRule<F>, Nothing> = seen.plain::<
            Nothing,
            Held<V>,
            Appending<F>,
        >(version);
        let mut pen = seen.no_pen();
        let found = counter
            .word
            .compare_exchange::<Appending<F>, Nothing>(
                number,
                number + 1,
                &mut seen,
                &mut offer,
                &mut pen,
            );
        if found != number {
            return None;
        }
        Some(SharedToken {
            number: number + 1,
            seen,
            fact: PhantomData,
        })
    }
}
