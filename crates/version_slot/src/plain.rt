// The slot of one thread, which is its own publisher and viewer.
ghost use Rattle.std.specs.Prelude.{ℕ, ◌≡◌, ◌<◌, List, [], ◌∷◌, ◌++◌, length, take, IfOk, IsOk, OnErr, IsErrOf};
ghost use mathlib.Core.List.{IsPrefix};
ghost use Rattle.version_slot.specs.Views.{EachHasFact, HasEntries, IsNewestOf, KeepsTokens, first_entries};

use crate::ends::{End, LAST_NUMBER, Publisher, Token, Viewer};
use crate::fact::Fact;
use crate::held::{Entry, Held};
use crate::seen::{EnterFault, Seen};
use dict_value::{ListOf, NoMemory};
use std::alloc::Global;
use std::marker::{Model, PhantomData};

/// A number of entries: it stands for so many of a slot's first ones.
#[derive(Debug, Drop)]
pub struct PlainToken {
    number: u64,
}

impl Model for PlainToken {
    ghost Value = { ℕ };

    ghost view = { λ it. it.number };
}

impl Token for PlainToken {
    ghost number_of = { λ told. told };

    fn number(&self) -> u64 {
        self.number
    }
}

/// A list of entries, of each of which it keeps a shared handle.
#[derive(Drop)]
pub struct PlainSlot<V: Entry, F: Fact<V>> {
    entries: ListOf<Held<V>>,
    fact: PhantomData<F>,
}

impl<V: Entry, F: Fact<V>> Model for PlainSlot<V, F> {
    ghost use Rattle.std.specs.Prelude.{List};
    ghost use Rattle.version_slot.specs.Views.{EachHasFact};

    ghost Value = { List V };

    ghost view = { λ it. it.entries };

    ghost invariant = { λ it. EachHasFact F.allows it.entries };
}

impl<V: Entry, F: Fact<V>> PlainSlot<V, F> {
    /// The slot without an entry, which takes no memory.
    pub fn new(alloc: Global) -> PlainSlot<V, F>
        ensures { result ≡ [] }
    {
        PlainSlot {
            entries: ListOf::new(alloc),
            fact: PhantomData,
        }
    }
}

impl<V: Entry, F: Fact<V>> End for PlainSlot<V, F> {
    type V = V;

    type Told = PlainToken;

    ghost Slot = { Unit {0} };

    ghost slot = { λ _. tt };

    ghost list = { λ slot. slot };

    ghost allows = { F.allows };

    ghost is_of = { HasEntries };

    ghost told_list = { first_entries };
}

impl<V: Entry, F: Fact<V>> Publisher for PlainSlot<V, F> {
    fn publish(&mut self, alloc: Global, v: V) -> Result<PlainToken, NoMemory>
        requires room { length self.old < LAST_NUMBER }
        requires fact { F.allows self.old v }
        ensures ok { IfOk result (λ told. (self.new ≡ self.old ++ v ∷ []) × (told ≡ length self.new)) }
        ensures err { OnErr result (self.new ≡ self.old) }
        ensures tokens { KeepsTokens HasEntries first_entries self.old self.new }
    {
        let version = Held::new(alloc, v)?;
        self.entries.push(version)?;
        Ok(PlainToken {
            number: self.entries.len() as u64,
        })
    }

    fn number(&self) -> u64 {
        self.entries.len() as u64
    }
}

impl<V: Entry, F: Fact<V>> Viewer for PlainSlot<V, F> {
    ghost refusals = { λ _. 0 };

    /// It is never shut, and takes no memory: it lacks only where the handles of an entry can't be counted any more.
    fn enter(&mut self) -> Result<Seen<V>, EnterFault>
        ensures empty { self.old ≡ [] → IsOk result }
        ensures list { self.new ≡ self.old }
        ensures seen { IfOk result (λ s. IsNewestOf self.new s) }
        ensures fact { EachHasFact F.allows self.new }
        ensures open { IsErrOf result EnterFault.Shut → ⊥ }
        ensures tokens { KeepsTokens HasEntries first_entries self.old self.new }
    {
        let Some(newest) = self.entries.as_slice().last() else {
            return Ok(Seen::nothing());
        };
        match newest.again() {
            Ok(version) => Ok(Seen::of(self.entries.len() as u64, version)),
            Err(NoMemory) => Err(EnterFault::NoMemory),
        }
    }

    fn learn(&mut self, told: &mut PlainToken)
        requires { HasEntries self.old told.old }
        ensures list { self.new ≡ self.old }
        ensures learnt { IsPrefix (first_entries self.old told.old) self.new }
        ensures number { length (first_entries self.old told.old) ≡ told.old }
        ensures fact { EachHasFact F.allows self.new }
        ensures told { told.new ≡ told.old }
        ensures tokens { KeepsTokens HasEntries first_entries self.old self.new }
    {
        let _known = self.entries.len();
    }
}
