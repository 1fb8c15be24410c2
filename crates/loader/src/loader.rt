// Loads of one dictionary, one after another.
ghost use Rattle.std.specs.Prelude.{◌≡◌, ◌↔◌, ◌<◌, ◌≤◌, ◌⊎◌, ◌∷◌, ◌++◌, [], List, IfOk, IsErrOf, IsTrue};
ghost use Rattle.std.specs.Prelude.{false, length, IfSome, IsSome, None, Some};
ghost use Rattle.std.specs.Option.{ForSome};
ghost use Rattle.dict_io.specs.Outside.{HasCause};
ghost use Rattle.dict_io.specs.declared.outside.TheConstants.{LAST_MOMENT};
ghost use Rattle.dict_schema.specs.Parts.{is_keyed_layout};
ghost use Rattle.dict_schema.specs.Sound.{IsSound};
ghost use Rattle.dict_version.specs.Contents.{Contents};
ghost use Rattle.load_core.specs.DictSteps.{stepped};
ghost use Rattle.load_core.specs.declared.dictionary.DictCore.{DictCore as CoreOf};
ghost use Rattle.load_core.specs.declared.dictionary.DictEvent.TheVariants.{Start};
ghost use Rattle.load_core.specs.declared.dictionary.Phase.TheVariants.{Idle, Reading};
ghost use Rattle.version_slot.specs.Views.{KeepsTokens};
ghost use Rattle.loader.specs.Loaders.{IsAt, IsLoad, RunsLoad, RunsOne, StartsNone, new_loader};
ghost use Rattle.loader.specs.Origins.{HasOrigin};
ghost use Rattle.loader.specs.Timing.{IsDue, after_failure};
ghost use Rattle.loader.specs.declared.board.Posting.{Posting as PostingOf};
ghost use Rattle.loader.specs.declared.board.Posting.TheVariants as post;
ghost use Rattle.loader.specs.steps.Kept.{IsOther, after_version, posted_cause, definition_by, fault_end};
ghost use Rattle.loader.specs.steps.Makings.{CanFollow, kept_in};
ghost use Rattle.loader.specs.steps.Publishings.{IsKept, IsNewToken, load_end_of};

use crate::answers::LoadEnd;
use crate::board::{BoardAt, Posting};
use crate::fault::LoadFault;
use crate::loading::{Fresh, run_load};
use crate::schedule::Schedule;
use child_io::{Since, Spawner};
use dict_copies::same_definition;
use dict_schema::Definition;
use dict_value::{Bytes, Cause, Counter, NoMemory};
use dict_version::Version;
#[cfg(test)]
use load_core::MOST_LOADS;
use load_core::{DictCore, DictEffect, DictEvent};
use packed_rows::Rows;
use std::alloc::Global;
use std::marker::Model;
use version_slot::{Publisher, Token};

/// Posts that a load failed.
fn post_failure<T: Token, B: BoardAt<T>>(board: &mut B, cause: Cause, now: u64) -> LoadEnd
    ensures end { result ≡ LoadEnd.Failed cause }
    ensures posts { (first : B) (before : List (PostingOf T)) → B.posts first before board.old
        → B.posts first (before ++ post.Failed cause now ∷ []) board.new }
    ensures takes { (told : T) → B.takes board.old told → B.takes board.new told }
{
    board.post(Posting::Failed { cause, moment: now });
    LoadEnd::Failed(cause)
}

/// Posts why a load has no version.
fn post_fault<T: Token, B: BoardAt<T>>(board: &mut B, fault: LoadFault, now: u64) -> LoadEnd
    ensures end { result ≡ fault_end fault }
    ensures posts { (first : B) (before : List (PostingOf T)) → B.posts first before board.old
        → B.posts first (before ++ post.Failed (posted_cause fault) now ∷ []) board.new }
    ensures takes { (told : T) → B.takes board.old told → B.takes board.new told }
{
    match fault {
        LoadFault::Refused(cause) => post_failure(board, cause, now),
        LoadFault::NoMemory => {
            board.post(Posting::Failed {
                cause: Cause::NoMemory,
                moment: now,
            });
            LoadEnd::NoMemory
        }
    }
}

/// Posts a version.
fn post_version<T: Token, B: BoardAt<T>>(board: &mut B, told: T, number: u64, now: u64) -> LoadEnd
    requires number { number ≡ T.number_of told }
    requires token { B.takes board.old told }
    ensures end { result ≡ LoadEnd.Published number }
    ensures posts { (first : B) (before : List (PostingOf T)) → B.posts first before board.old
        → B.posts first (before ++ post.Published told number now ∷ []) board.new }
    ensures takes { (other : T) → B.takes board.old other → B.takes board.new other }
{
    board.post(Posting::Published {
        told,
        number,
        moment: now,
    });
    LoadEnd::Published(number)
}

/// What loads a dictionary: its current definition, the folder of its programs, and what is known of the loads so far.
#[derive(Drop)]
pub struct Loader {
    definition: Definition,
    folder: Bytes,
    core: DictCore,
    schedule: Schedule,
    since: Since,
    former: Option<Rows>,
}

impl Model for Loader {
    ghost use Rattle.loader.specs.Loaders.{LoaderState};
    ghost use Rattle.loader.specs.steps.Kept.{CanLoad};
    ghost use Rattle.loader.specs.steps.Makings.{kept_in};

    ghost Value = { LoaderState };

    ghost view = { λ it. record {
      definition = it.definition;
      folder = it.folder;
      core = it.core;
      timing = it.schedule;
      since = it.since;
      former = kept_in it.former;
    } };

    ghost invariant = { λ it. CanLoad it.definition it.core it.schedule (kept_in it.former) };
}

impl Loader {
    /// A dictionary of which no load has begun: its definition, the folder of its programs, the seed of the run, and
    /// its number in the definitions file, from 0.
    pub fn new(
        alloc: Global,
        definition: Definition,
        folder: &[u8],
        seed: u64,
        number: u32,
    ) -> Result<Loader, NoMemory>
        requires sound { IsSound definition }
        requires kept { is_keyed_layout definition.layout ≡ false }
        ensures { IfOk result (λ loader. loader ≡ new_loader definition folder.now seed number) }
    {
        let schedule = Schedule::new(definition.lifetime, seed, number);
        Ok(Loader {
            definition,
            folder: Bytes::copy_of(alloc, folder)?,
            core: DictCore::new(),
            schedule,
            since: Since::Whole,
            former: None,
        })
    }

    /// Whether this is the current definition. It takes no memory.
    pub fn is_current(&self, d: &Definition) -> bool
        ensures { IsTrue result ↔ (d.now ≡ self.now.definition) }
    {
        same_definition(d, &self.definition)
    }

    /// The counts, as they stand between two loads.
    fn counts(&self) -> DictCore
        ensures core { result ≡ self.now.core }
        ensures idle { result.phase ≡ Idle }
        ensures fewer { result.published ≤ result.loads }
    {
        self.core
    }

    /// What follows where the loads are used up: the wait after a failure.
    fn put_off(&mut self, now: u64)
        requires { now ≤ LAST_MOMENT }
        ensures { self.new ≡ record self.old { timing = after_failure self.old.timing now } }
    {
        self.schedule.after_failure(now);
    }

    /// What follows a load that published nothing.
    fn leave(&mut self, core: DictCore, now: u64)
        requires idle { core.phase ≡ Idle }
        requires fewer { core.published ≤ core.loads }
        requires moment { now ≤ LAST_MOMENT }
        ensures { self.new ≡ record self.old { core = core; timing = after_failure self.old.timing now } }
    {
        self.schedule.after_failure(now);
        self.core = core;
    }

    /// What follows a load with the current definition that published: its moment, and the rows that are kept.
    fn renew(&mut self, kept: Option<Rows>, core: DictCore, now: u64)
        requires kept { CanFollow self.old.definition (kept_in kept) }
        requires idle { core.phase ≡ Idle }
        requires fewer { core.published ≤ core.loads }
        requires moment { now ≤ LAST_MOMENT }
        ensures { self.new ≡ after_version self.old.definition core (kept_in kept) now self.old }
    {
        self.schedule.after_ok(now);
        self.core = core;
        self.since = Since::From(now);
        self.former = kept;
    }

    /// The same of a load with another definition, which is the current one from then on, with its lifetime.
    fn adopt(&mut self, d: Definition, kept: Option<Rows>, core: DictCore, now: u64)
        requires other { IsOther self.old.definition d }
        requires kept { CanFollow d (kept_in kept) }
        requires idle { core.phase ≡ Idle }
        requires fewer { core.published ≤ core.loads }
        requires moment { now ≤ LAST_MOMENT }
        ensures { self.new ≡ after_version d core (kept_in kept) now self.old }
    {
        self.schedule.set(d.lifetime);
        self.schedule.after_ok(now);
        self.core = core;
        self.since = Since::From(now);
        self.former = kept;
        self.definition = d;
    }

    /// What follows a load that published.
    fn follow(&mut self, other: Option<Definition>, kept: Option<Rows>, core: DictCore, now: u64)
        requires other { ForSome other (IsOther self.old.definition) }
        requires kept { CanFollow (definition_by other self.old.definition) (kept_in kept) }
        requires idle { core.phase ≡ Idle }
        requires fewer { core.published ≤ core.loads }
        requires moment { now ≤ LAST_MOMENT }
        ensures { self.new
            ≡ after_version (definition_by other self.old.definition) core (kept_in kept) now self.old }
    {
        match other {
            Some(d) => self.adopt(d, kept, core, now),
            None => self.renew(kept, core, now),
        }
    }

    /// Runs a load that has begun to its end, with another definition, or with the current one over what is kept.
    fn run<C: Counter, S: Spawner, P: Publisher<V = Version<C>>>(
        &self,
        alloc: Global,
        other: &Option<Definition>,
        spawner: &mut S,
        publisher: &mut P,
        now: u64,
        core: &mut DictCore,
    ) -> Result<Fresh<P::Told>, LoadFault>
        requires other { ForSome other.now (IsOther self.now.definition) }
        requires at { IsAt self.now (P.list publisher.old) }
        requires reading { core.old.phase ≡ Reading }
        requires room { length (P.list publisher.old) < 9223372036854775807 }
        requires fact { (list : List Contents) (v : Contents)
            → HasOrigin S.ran self.now.folder list v → P.allows list v }
        ensures run { let d = definition_by other.now self.now.definition in
            let runs = RunsOne S.scripts S.starts S.started S.C.told S.C.history S.C.faults d spawner.old
            spawner.new in (before : CoreOf) → core.old ≡ (stepped before Start).core →
            RunsLoad runs d now self.now.folder (P.list publisher.old) (P.list publisher.new) before core.new
            (load_end_of result)
            ⊎ StartsNone (spawner.new ≡ spawner.old) d now (P.list publisher.old) (P.list publisher.new)
            before core.new (load_end_of result) }
        ensures cause { HasCause (S.start_faults spawner.old) (S.start_faults spawner.new)
            (IsErrOf result (LoadFault.Refused Cause.Start)) }
        ensures told { IfOk result (λ fresh. IsNewToken (P.is_of publisher.new) (P.told_list publisher.new)
            P.Told.number_of (P.list publisher.new) fresh.told fresh.number) }
        ensures kept { IfOk result (λ fresh. IsKept (definition_by other.now self.now.definition) now
            (P.list publisher.new) (kept_in fresh.kept)) }
        ensures tokens { KeepsTokens P.is_of P.told_list publisher.old publisher.new }
        ensures slot { P.slot publisher.new ≡ P.slot publisher.old }
    {
        let folder = self.folder.as_slice();
        match other {
            Some(d) => run_load(
                alloc,
                spawner,
                publisher,
                d,
                folder,
                Since::Whole,
                &None,
                now,
                core,
            ),
            None => run_load(
                alloc,
                spawner,
                publisher,
                &self.definition,
                folder,
                self.since,
                &self.former,
                now,
                core,
            ),
        }
    }

    /// One load, with another definition or with the current one.
    fn load_by<C: Counter, S: Spawner, P: Publisher<V = Version<C>>, B: BoardAt<P::Told>>(
        &mut self,
        alloc: Global,
        other: Option<Definition>,
        spawner: &mut S,
        publisher: &mut P,
        now: u64,
        board: &mut B,
    ) -> LoadEnd
        requires other { ForSome other (IsOther self.old.definition) }
        requires moment { now ≤ LAST_MOMENT }
        requires at { IsAt self.old (P.list publisher.old) }
        requires fact { (list : List Contents) (v : Contents)
            → HasOrigin S.ran self.old.folder list v → P.allows list v }
        requires slot { (told : P.Told) (end : P) → P.slot end ≡ P.slot publisher.old → P.is_of end told
            → B.takes board.old told }
        ensures load { let d = definition_by other self.old.definition in
            let runs = RunsOne S.scripts S.starts S.started S.C.told S.C.history S.C.faults d spawner.old spawner.new in
            let is_told = (λ (told : P.Told).
            P.is_of publisher.new told × (P.told_list publisher.new told ≡ P.list publisher.new)) in
            let posts = (λ (postings : List (PostingOf P.Told)). (first : B) (before : List (PostingOf P.Told)) →
            B.posts first before board.old → B.posts first (before ++ postings) board.new) in
            IsLoad runs (spawner.new ≡ spawner.old) is_told posts d now result self.old self.new
            (P.list publisher.old) (P.list publisher.new) }
        ensures cause { HasCause (S.start_faults spawner.old) (S.start_faults spawner.new)
            (result ≡ LoadEnd.Failed Cause.Start) }
        ensures takes { (told : P.Told) → B.takes board.old told → B.takes board.new told }
        ensures tokens { KeepsTokens P.is_of P.told_list publisher.old publisher.new }
        ensures slot { P.slot publisher.new ≡ P.slot publisher.old }
    {
        let mut core = self.counts();
        match core.step(DictEvent::Start) {
            DictEffect::Begun(_) => {}
            _ => {
                self.put_off(now);
                return post_failure(board, Cause::Spent, now);
            }
        }
        board.post(Posting::Begun);
        match self.run(alloc, &other, spawner, publisher, now, &mut core) {
            Ok(fresh) => {
                let Fresh { told, number, kept } = fresh;
                self.follow(other, kept, core, now);
                post_version(board, told, number, now)
            }
            Err(fault) => {
                self.leave(core, now);
                post_fault(board, fault, now)
            }
        }
    }

    /// Loads the dictionary once: it starts one child, and publishes what that gives or says why it gives nothing.
    /// What was published before stays in the list. Its begin and its end are posted.
    pub fn load<C: Counter, S: Spawner, P: Publisher<V = Version<C>>, B: BoardAt<P::Told>>(
        &mut self,
        alloc: Global,
        spawner: &mut S,
        publisher: &mut P,
        now: u64,
        board: &mut B,
    ) -> LoadEnd
        requires moment { now ≤ LAST_MOMENT }
        // The loader has the newest version's number, definition and moment, and its rows where they are kept.
        requires at { IsAt self.old (P.list publisher.old) }
        // The slot's fact names the loader's folder.
        requires fact { (list : List Contents) (v : Contents)
            → HasOrigin S.ran self.old.folder list v → P.allows list v }
        // The board is of the publisher's slot.
        requires slot { (told : P.Told) (end : P) → P.slot end ≡ P.slot publisher.old → P.is_of end told
            → B.takes board.old told }
        ensures load { let d = self.old.definition in
            let runs = RunsOne S.scripts S.starts S.started S.C.told S.C.history S.C.faults d spawner.old spawner.new in
            let is_told = (λ (told : P.Told).
            P.is_of publisher.new told × (P.told_list publisher.new told ≡ P.list publisher.new)) in
            let posts = (λ (postings : List (PostingOf P.Told)). (first : B) (before : List (PostingOf P.Told)) →
            B.posts first before board.old → B.posts first (before ++ postings) board.new) in
            IsLoad runs (spawner.new ≡ spawner.old) is_told posts d now result self.old self.new
            (P.list publisher.old) (P.list publisher.new) }
        ensures cause { HasCause (S.start_faults spawner.old) (S.start_faults spawner.new)
            (result ≡ LoadEnd.Failed Cause.Start) }
        ensures takes { (told : P.Told) → B.takes board.old told → B.takes board.new told }
        ensures tokens { KeepsTokens P.is_of P.told_list publisher.old publisher.new }
        ensures slot { P.slot publisher.new ≡ P.slot publisher.old }
    {
        self.load_by(alloc, None, spawner, publisher, now, board)
    }

    /// Loads the dictionary once where that is due at the moment, and else does nothing.
    pub fn load_due<C: Counter, S: Spawner, P: Publisher<V = Version<C>>, B: BoardAt<P::Told>>(
        &mut self,
        alloc: Global,
        spawner: &mut S,
        publisher: &mut P,
        now: u64,
        board: &mut B,
    ) -> Option<LoadEnd>
        requires moment { now ≤ LAST_MOMENT }
        requires at { IsAt self.old (P.list publisher.old) }
        requires fact { (list : List Contents) (v : Contents)
            → HasOrigin S.ran self.old.folder list v → P.allows list v }
        requires slot { (told : P.Told) (end : P) → P.slot end ≡ P.slot publisher.old → P.is_of end told
            → B.takes board.old told }
        ensures due { IsSome result ↔ IsDue self.old.timing now }
        ensures none { result ≡ None → (self.new ≡ self.old) × (spawner.new ≡ spawner.old)
            × (publisher.new ≡ publisher.old) × (board.new ≡ board.old) }
        ensures load { let d = self.old.definition in
            let runs = RunsOne S.scripts S.starts S.started S.C.told S.C.history S.C.faults d spawner.old spawner.new in
            let is_told = (λ (told : P.Told).
            P.is_of publisher.new told × (P.told_list publisher.new told ≡ P.list publisher.new)) in
            let posts = (λ (postings : List (PostingOf P.Told)). (first : B) (before : List (PostingOf P.Told)) →
            B.posts first before board.old → B.posts first (before ++ postings) board.new) in
            IfSome result (λ end. IsLoad runs (spawner.new ≡ spawner.old) is_told posts d now end self.old self.new
            (P.list publisher.old) (P.list publisher.new)) }
        ensures cause { HasCause (S.start_faults spawner.old) (S.start_faults spawner.new)
            (result ≡ Some (LoadEnd.Failed Cause.Start)) }
        ensures takes { (told : P.Told) → B.takes board.old told → B.takes board.new told }
        ensures tokens { KeepsTokens P.is_of P.told_list publisher.old publisher.new }
        ensures slot { P.slot publisher.new ≡ P.slot publisher.old }
    {
        if !self.schedule.due(now) {
            return None;
        }
        Some(self.load_by(alloc, None, spawner, publisher, now, board))
    }

    /// Loads the dictionary once with a definition of its name, which is the current one and has its lifetime counted
    /// once it was published. Rows of another definition are nothing that the load is laid over.
    pub fn load_as<C: Counter, S: Spawner, P: Publisher<V = Version<C>>, B: BoardAt<P::Told>>(
        &mut self,
        alloc: Global,
        d: Definition,
        spawner: &mut S,
        publisher: &mut P,
        now: u64,
        board: &mut B,
    ) -> LoadEnd
        requires sound { IsSound d }
        requires kept { is_keyed_layout d.layout ≡ false }
        requires name { d.name ≡ self.old.definition.name }
        requires moment { now ≤ LAST_MOMENT }
        requires at { IsAt self.old (P.list publisher.old) }
        requires fact { (list : List Contents) (v : Contents)
            → HasOrigin S.ran self.old.folder list v → P.allows list v }
        requires slot { (told : P.Told) (end : P) → P.slot end ≡ P.slot publisher.old → P.is_of end told
            → B.takes board.old told }
        ensures load { let runs = RunsOne S.scripts S.starts S.started S.C.told S.C.history S.C.faults d spawner.old
            spawner.new in
            let is_told = (λ (told : P.Told).
            P.is_of publisher.new told × (P.told_list publisher.new told ≡ P.list publisher.new)) in
            let posts = (λ (postings : List (PostingOf P.Told)). (first : B) (before : List (PostingOf P.Told)) →
            B.posts first before board.old → B.posts first (before ++ postings) board.new) in
            IsLoad runs (spawner.new ≡ spawner.old) is_told posts d now result self.old self.new
            (P.list publisher.old) (P.list publisher.new) }
        ensures cause { HasCause (S.start_faults spawner.old) (S.start_faults spawner.new)
            (result ≡ LoadEnd.Failed Cause.Start) }
        ensures takes { (told : P.Told) → B.takes board.old told → B.takes board.new told }
        ensures tokens { KeepsTokens P.is_of P.told_list publisher.old publisher.new }
        ensures slot { P.slot publisher.new ≡ P.slot publisher.old }
    {
        if self.is_current(&d) {
            return self.load_by(alloc, None, spawner, publisher, now, board);
        }
        self.load_by(alloc, Some(d), spawner, publisher, now, board)
    }
}

#[cfg(test)]
impl Loader {
    /// As after the last load that a dictionary may have.
    pub(crate) fn use_up(&mut self)
        ensures at { (list : List Contents) → IsAt self.old list → IsAt self.new list }
        ensures definition { self.new.definition ≡ self.old.definition }
    {
        if self.core.published <= MOST_LOADS {
            self.core.loads = MOST_LOADS;
        }
    }
}
