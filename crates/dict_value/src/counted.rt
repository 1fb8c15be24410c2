// Lists that are read item by item, each reading under the counter that the list's type names.
ghost use Rattle.std.specs.Prelude.{◌≡◌, ◌+◌, ◌-◌, ◌≤◌, ◌^◌, ◌<◌, ◌↔◌, [], Some, length, min, slice_get, IsTrue};

use crate::list::ListOf;
use std::marker::{Model, PhantomData};

/// What counts the readings of a list.
pub trait Counter {
    ghost use Rattle.std.specs.Prelude.{ℕ};

    /// How many steps were counted, at most.
    ghost amount: { Self → ℕ };

    /// The counter after one step more.
    ghost after_step: { Self → Self };

    /// Counts one step more.
    fn step(&mut self)
        ensures is { self.new ≡ after_step self.old }
        ensures bound { amount self.new ≤ amount self.old + 1 };
}

/// The counter of a caller that counts nothing. It takes no bytes.
#[derive(Drop)]
pub struct Uncounted;

impl Counter for Uncounted {
    ghost amount = { λ _. 0 };

    ghost after_step = { λ s. s };

    fn step(&mut self) {}
}

/// A counter that tells its number, which stands still at its type's end.
#[derive(Drop)]
pub struct Tally {
    steps: u64,
}

impl Model for Tally {
    ghost use Rattle.std.specs.Prelude.{ℕ};

    ghost Value = { ℕ };

    ghost view = { λ t. t.steps };
}

impl Tally {
    /// No step so far.
    pub fn new() -> Tally
        ensures { result ≡ 0 }
    {
        Tally { steps: 0 }
    }

    /// How many steps were counted.
    pub fn steps(&self) -> u64
        ensures { result ≡ self.now }
    {
        self.steps
    }
}

impl Counter for Tally {
    ghost use Rattle.std.specs.Prelude.{◌+◌, ◌-◌, ◌^◌, min};

    ghost amount = { λ t. t };

    ghost after_step = { λ t. min (t + 1) (2 ^ 64 - 1) };

    fn step(&mut self) {
        self.steps = self.steps.saturating_add(1);
    }
}

/// A list whose items are read one by one, each for a step of a counter of type `S`, and in no other way.
#[derive(Drop)]
pub struct Counted<T, S> {
    items: ListOf<T>,
    by: PhantomData<S>,
}

impl<T, S> Model for Counted<T, S> {
    ghost use Rattle.std.specs.Prelude.{List};
    ghost use Rattle.std.specs.Coded.{coded_list};

    ghost Value = { List T };

    ghost coded = { coded_list T.code };

    ghost view = { λ it. it.items };
}

impl<T: Copy, S: Counter> Counted<T, S> {
    /// The items of a list, without a copy.
    pub fn from_list(list: ListOf<T>) -> Counted<T, S>
        ensures { result ≡ list }
    {
        Counted {
            items: list,
            by: PhantomData,
        }
    }

    /// How many items there are, for no step.
    pub fn len(&self) -> usize
        ensures { result ≡ length self.now }
    {
        self.items.len()
    }

    pub fn is_empty(&self) -> bool
        ensures { IsTrue result ↔ (self.now ≡ []) }
    {
        self.items.is_empty()
    }

    /// The item at a place, for one step.
    pub fn at(&self, i: usize, steps: &mut S) -> T
        requires { i < length self.now }
        ensures item { slice_get self.now i ≡ Some result }
        ensures step { steps.new ≡ S.after_step steps.old }
        ensures bound { S.amount steps.new ≤ S.amount steps.old + 1 }
    {
        steps.step();
        self.items.as_slice()[i]
    }
}
