// A desk over its parts.
ghost use Rattle.std.specs.Prelude.{◌≡◌, ◌≤◌, ℕ, All, length, map};
ghost use Rattle.dict_hub.specs.Changes.{AllStand};
ghost use Rattle.dict_hub.specs.Over.{FollowUpTo, LoadUpTo, OverState, children_of, count_at, item_name, moves_of};
ghost use Rattle.dict_hub.specs.Over.{over_facts, over_state, view_at};
ghost use Rattle.version_slot.specs.Views.{EachHasFact};
ghost use Rattle.dict_io.specs.declared.outside.TheConstants.{LAST_MOMENT};
ghost use Rattle.dict_session.specs.Facts.{Grows};
ghost use Rattle.dict_schema.specs.Sound.{IsSoundItem};

use crate::following::{Counts, follow_one};
use crate::items::Items;
use crate::parts::{DictAt, FileAt};
use child_io::Spawner;
use dict_io::Clock;
use dict_schema::Item;
use dict_session::{ConfigEnd, Desk};
use dict_value::{CallFault, FetchFault, Fetched, KeyList, ListOf, Row, Uncounted, Value};
use dict_version::Version;
use loader::{LoadEnd, StatusRow};
use std::alloc::Global;
use version_slot::{EnterFault, Seen};

/// A spawner, a clock, the definitions file, and a dictionary for each item, each of which is fully loaded. Where it
/// reloads, what is due is loaded before each request.
#[derive(Drop)]
pub struct DeskOver<S: Spawner, K: Clock, C: DictAt<S>, F: FileAt> {
    spawner: S,
    clock: K,
    file: F,
    items: Items,
    dictionaries: Vec<C>,
    reloads: bool,
    ghost many: { length dictionaries.items ≡ length items },
    ghost named: { map (λ c. C.name (C.state c)) dictionaries.items ≡ map item_name items },
}

impl<S: Spawner, K: Clock, C: DictAt<S>, F: FileAt> DeskOver<S, K, C, F> {
    /// The dictionaries stand in the order of their items, and have their names.
    pub fn new(
        spawner: S,
        clock: K,
        file: F,
        items: Items,
        dictionaries: Vec<C>,
        reloads: bool,
    ) -> DeskOver<S, K, C, F>
        requires { map (λ c. C.name (C.state c)) dictionaries.items ≡ map item_name items }
        ensures { ⟦<DeskOver<S, K, C, F> as Desk>⟧.state result ≡ over_state items (F.state file) (K.moments clock)
            (children_of S.scripts S.starts spawner) (map C.state dictionaries.items) reloads }
    {
        DeskOver {
            spawner,
            clock,
            file,
            items,
            dictionaries,
            reloads,
        }
    }

    /// Loads each dictionary once, in the order of the items.
    pub fn first(&mut self, alloc: Global, now: u64)
        requires { now ≤ LAST_MOMENT }
        ensures loads { LoadUpTo (moves_of C.entered C.taught C.loaded C.due C.loaded_as C.judged F.reads) now
            (length self.old.items) (⟦<DeskOver<S, K, C, F> as Desk>⟧.state self.old)
            (⟦<DeskOver<S, K, C, F> as Desk>⟧.state self.new) }
        ensures grows { Grows ⟦<DeskOver<S, K, C, F> as Desk>⟧.facts (⟦<DeskOver<S, K, C, F> as Desk>⟧.state self.old)
            (⟦<DeskOver<S, K, C, F> as Desk>⟧.state self.new) }
    {
        for d in 0..self.dictionaries.len() {
            self.dictionaries[d].load(alloc, &mut self.spawner, now);
        }
    }

    /// Each version that a dictionary's viewer sees is one that its kind allows.
    pub fn origins(&self)
        ensures { (d : ℕ) → EachHasFact C.allows
            (view_at C.view (⟦<DeskOver<S, K, C, F> as Desk>⟧.state self.now).dictionaries d) }
    {
        for d in 0..self.dictionaries.len() {
            self.dictionaries[d].versions();
        }
    }

    /// Hands each dictionary the item that stands in its place now.
    fn follow(&mut self, alloc: Global, items: ListOf<Item>, now: u64) -> Counts
        requires stand { AllStand self.old.items items }
        requires sound { All IsSoundItem items }
        requires bound { now ≤ LAST_MOMENT }
        ensures follows { FollowUpTo (moves_of C.entered C.taught C.loaded C.due C.loaded_as C.judged F.reads) now items
            (length self.old.items) (⟦<DeskOver<S, K, C, F> as Desk>⟧.state self.old) result
            (⟦<DeskOver<S, K, C, F> as Desk>⟧.state self.new) }
        ensures grows { Grows ⟦<DeskOver<S, K, C, F> as Desk>⟧.facts (⟦<DeskOver<S, K, C, F> as Desk>⟧.state self.old)
            (⟦<DeskOver<S, K, C, F> as Desk>⟧.state self.new) }
    {
        // What stands in the place of an item that is fully loaded is so too.
        let _items = self.items.list();
        let mut counts = Counts::none();
        let mut items = items;
        let mut place = 0;
        while let Some(item) = items.pop_front() {
            follow_one(
                alloc,
                &mut self.dictionaries[place],
                &mut self.spawner,
                item,
                now,
                &mut counts,
            );
            place += 1;
        }
        counts
    }
}

impl<S: Spawner, K: Clock, C: DictAt<S> + Drop, F: FileAt> DeskOver<S, K, C, F> {
    /// The spawner, the clock and the file, as the desk leaves them.
    pub fn into_parts(self) -> (S, K, F)
        ensures children { children_of S.scripts S.starts result.0
            ≡ (⟦<DeskOver<S, K, C, F> as Desk>⟧.state self).children }
        ensures moments { K.moments result.1 ≡ (⟦<DeskOver<S, K, C, F> as Desk>⟧.state self).moments }
        ensures file { F.state result.2 ≡ (⟦<DeskOver<S, K, C, F> as Desk>⟧.state self).file }
    {
        let DeskOver {
            spawner,
            clock,
            file,
            items: _items,
            dictionaries: _dictionaries,
            reloads: _reloads,
        } = self;
        (spawner, clock, file)
    }
}

impl<S: Spawner, K: Clock, C: DictAt<S>, F: FileAt> Desk for DeskOver<S, K, C, F> {
    ghost State = { OverState C.State F.State };

    ghost state = { λ s. over_state s.items (F.state s.file) (K.moments s.clock)
        (children_of S.scripts S.starts s.spawner) (map C.state s.dictionaries.items) s.reloads };

    ghost facts = { over_facts C.view (moves_of C.entered C.taught C.loaded C.due C.loaded_as C.judged F.reads) };

    ghost refusals = { λ s d. count_at C.refusals s.dictionaries.items d };

    fn moment(&mut self) -> u64 {
        self.clock.now()
    }

    fn before(&mut self, alloc: Global, now: u64) {
        if self.reloads {
            for d in 0..self.dictionaries.len() {
                self.dictionaries[d].load_due(alloc, &mut self.spawner, now);
            }
        }
    }

    fn items(&self) -> &ListOf<Item> {
        self.items.list()
    }

    fn enter(&mut self, d: u32) -> Result<Seen<Version<Uncounted>>, EnterFault> {
        self.dictionaries[d as usize].enter()
    }

    fn teach(&mut self, d: u32) -> StatusRow {
        self.dictionaries[d as usize].teach()
    }

    fn reload(&mut self, alloc: Global, d: u32, now: u64) -> LoadEnd {
        self.dictionaries[d as usize].load(alloc, &mut self.spawner, now)
    }

    fn keyed(
        &mut self,
        _alloc: Global,
        _d: u32,
        _now: u64,
        _keys: &[KeyList],
    ) -> Result<Fetched, FetchFault> {
        // No item of such a desk has rows that are fetched by key.
        let _items = self.items.list();
        Err(FetchFault::NoMemory)
    }

    fn call(&mut self, _alloc: Global, _f: u32, _rows: &[Row]) -> Result<ListOf<Value>, CallFault> {
        // No item of such a desk is a function.
        let _items = self.items.list();
        Err(CallFault::NoMemory)
    }

    fn config(&mut self, alloc: Global, now: u64) -> ConfigEnd {
        let items = match self.file.read_items(alloc) {
            Ok(items) => items,
            Err(end) => return end,
        };
        match self.items.first_unlike(&items) {
            Some(number) => ConfigEnd::Names(number),
            None => {
                let counts = self.follow(alloc, items, now);
                ConfigEnd::Done {
                    changed: counts.changed,
                    published: counts.published,
                }
            }
        }
    }
}
