// The rule of the two copies of what a slot shows, which exists in proofs alone.
use super::shown::Shown;
use crate::fact::Fact;
use crate::held::Entry;
use atomic_table::{Join, Split};
use crossbeam_utils::rule::{Outcome, Protocol};

/// Names a slot. No value of it is made.
pub struct Which {
    pub number: u64,
    pub log_name: u64,
    pub cells_name: u64,
}

/// What a viewer knows of which slot the copies are of.
pub type Known = Option<Which>;

/// All that know a slot know the one that the copies are of.
pub struct OneSlot;

impl<V: Entry, F: Fact<V>> Protocol<Shown<V, F>, Known> for OneSlot {
    ghost use Rattle.std.specs.Prelude.{None};
    ghost use Rattle.version_slot.specs.Copies.{AllKnow};

    ghost holds = { λ shown. AllKnow shown.slot };

    ghost first = { None };
}

/// What is entered is of the slot that the viewer knows.
pub struct Entering;

impl<V: Entry, F: Fact<V>> Outcome<Shown<V, F>, Known> for Entering {
    ghost use Rattle.std.specs.Prelude.{◌≡◌};
    ghost use Rattle.version_slot.specs.Copies.{Knows};

    ghost then = { λ known shown _ after. (after ≡ known) × Knows known shown.slot };
}

/// The writer knows the slot of what it shows.
pub struct Showing;

impl<V: Entry, F: Fact<V>> Outcome<Shown<V, F>, Known> for Showing {
    ghost use Rattle.std.specs.Prelude.{◌≡◌, Some};
    ghost use Rattle.version_slot.specs.Copies.{which};

    ghost then = { λ _ _ shown after. after ≡ Some (which shown.slot) };
}

/// The writer tells what it knows, and knows it still.
pub struct Telling;

impl Split<Known> for Telling {
    ghost left = { λ known. known };

    ghost right = { λ known. known };
}

/// A reader knows what it was told.
pub struct Hearing;

impl Join<Known> for Hearing {
    ghost use Rattle.std.specs.Prelude.{None};

    ghost both = { λ _ told. told };

    ghost spent = { None };
}
