// One load that has begun: its child is run, and what it gives is published or is the load's fault.
ghost use Rattle.std.specs.Prelude.{◌≡◌, ◌<◌, ◌∷◌, ◌⊎◌, [], List, IfErr, IfOk, IsErrOf, false, length};
ghost use Rattle.dict_io.specs.Outside.{HasCause};
ghost use Rattle.dict_schema.specs.Parts.{is_keyed_layout};
ghost use Rattle.dict_schema.specs.Sound.{IsSound};
ghost use Rattle.dict_version.specs.Contents.{Contents};
ghost use Rattle.load_core.specs.DictSteps.{stepped};
ghost use Rattle.load_core.specs.declared.dictionary.DictCore.{DictCore as CoreOf};
ghost use Rattle.load_core.specs.declared.dictionary.DictEvent.TheVariants.{Finish, Post, Start};
ghost use Rattle.load_core.specs.declared.dictionary.Ending.TheVariants.{Failed as EndFailed};
ghost use Rattle.load_core.specs.declared.dictionary.Phase.TheVariants.{Reading};
ghost use Rattle.version_slot.specs.Views.{KeepsTokens};
ghost use Rattle.loader.specs.Events.{core_after, end_events};
ghost use Rattle.loader.specs.Loaders.{RunsLoad, RunsOne, StartsNone};
ghost use Rattle.loader.specs.Origins.{HasOrigin, IsSince, asked_since, newest};
ghost use Rattle.loader.specs.steps.Defaults.{ColumnsFit, NoBadDefault};
ghost use Rattle.loader.specs.steps.Kept.{fault_end};
ghost use Rattle.loader.specs.steps.Makings.{CanFollow, IsLoadedBy, kept_in};
ghost use Rattle.loader.specs.steps.Publishings.{IsKept, IsLaidOver, IsNewToken, PublishesAs, load_end_of, stamped};

use crate::fault::LoadFault;
use crate::making::{Made, make};
use crate::reading::read_child;
use child_io::{Since, Spawner, words_since};
use dict_schema::{Column, Definition, shape};
use dict_value::{Cause, Counter, fits_column};
use dict_version::Version;
use load_core::{DictCore, DictEvent, Ending};
use packed_rows::Rows;
use std::alloc::Global;
use version_slot::{Publisher, Token};

/// What a load published: the token and its number, and the rows that the next load is laid over.
#[derive(Drop)]
pub(crate) struct Fresh<T> {
    pub(crate) told: T,
    pub(crate) number: u64,
    pub(crate) kept: Option<Rows>,
}

/// Sees once more that each default is a value of its column, as the judgement of definitions says.
fn see_defaults(columns: &[Column])
    requires { NoBadDefault columns.now }
    ensures { ColumnsFit columns.now }
{
    for column in columns {
        if !fits_column(&column.ty, &column.default) {
            unreachable!();
        }
    }
}

/// Runs a child, and makes the version of what it gives.
fn load_version<C: Counter, S: Spawner>(
    alloc: Global,
    spawner: &mut S,
    d: &Definition,
    folder: &[u8],
    since: Since,
    former: &Option<Rows>,
    core: &mut DictCore,
) -> Result<Made<C>, LoadFault>
    requires sound { IsSound d.now }
    requires kept { is_keyed_layout d.now.layout ≡ false }
    requires former { CanFollow d.now (kept_in former.now) }
    requires reading { core.old.phase ≡ Reading }
    ensures core { core.new ≡ core.old }
    ensures loaded { let runs = RunsOne S.scripts S.starts S.started S.C.told S.C.history S.C.faults d.now spawner.old
        spawner.new in IsLoadedBy runs (spawner.new ≡ spawner.old) S.ran d.now (asked_since d.now folder.now since)
        (kept_in former.now) result }
    ensures cause { HasCause (S.start_faults spawner.old) (S.start_faults spawner.new)
        (IsErrOf result (LoadFault.Refused Cause.Start)) }
{
    let words = words_since(alloc, &d.source, folder, since)?;
    let columns = shape(alloc, d)?;
    see_defaults(d.columns.as_slice());
    let fresh = read_child(alloc, spawner, words.as_slice(), d, &columns, core)?;
    make(alloc, d, &columns, former, fresh)
}

/// Ends a load for a cause.
fn fail(core: &mut DictCore, cause: Cause)
    ensures { core.new ≡ core_after core.old (Finish (EndFailed cause) ∷ Post ∷ []) }
{
    core.step(DictEvent::Finish(Ending::Failed(cause)));
    core.step(DictEvent::Post);
}

/// Ends a load that has no version.
fn end_for(core: &mut DictCore, fault: LoadFault)
    ensures { core.new ≡ core_after core.old (end_events (fault_end fault)) }
{
    match fault {
        LoadFault::Refused(cause) => fail(core, cause),
        LoadFault::NoMemory => fail(core, Cause::NoMemory),
    }
}

/// Publishes a version as of a moment.
fn publish<C: Counter, P: Publisher<V = Version<C>>>(
    alloc: Global,
    publisher: &mut P,
    made: Made<C>,
    now: u64,
    core: &mut DictCore,
) -> Result<Fresh<P::Told>, LoadFault>
    requires reading { core.old.phase ≡ Reading }
    requires room { length (P.list publisher.old) < 9223372036854775807 }
    requires fact { P.allows (P.list publisher.old) (stamped made.version now) }
    ensures core { core.new ≡ core_after core.old (end_events (load_end_of result)) }
    ensures list { PublishesAs (P.list publisher.old) (stamped made.version now) result (P.list publisher.new) }
    ensures kept { IfOk result (λ fresh. fresh.kept ≡ made.kept) }
    ensures told { IfOk result (λ fresh. IsNewToken (P.is_of publisher.new) (P.told_list publisher.new)
        P.Told.number_of (P.list publisher.new) fresh.told fresh.number) }
    ensures fault { IfErr result (λ why. why ≡ LoadFault.NoMemory) }
    ensures tokens { KeepsTokens P.is_of P.told_list publisher.old publisher.new }
    ensures slot { P.slot publisher.new ≡ P.slot publisher.old }
{
    core.step(DictEvent::Finish(Ending::Rows));
    let Made { version, kept } = made;
    match publisher.publish(alloc, version.stamp(now)) {
        Ok(told) => {
            core.step(DictEvent::Publish);
            core.step(DictEvent::Post);
            let number = told.number();
            Ok(Fresh { told, number, kept })
        }
        Err(_) => {
            fail(core, Cause::NoMemory);
            Err(LoadFault::NoMemory)
        }
    }
}

/// Runs a load that has begun to its end.
pub(crate) fn run_load<C: Counter, S: Spawner, P: Publisher<V = Version<C>>>(
    alloc: Global,
    spawner: &mut S,
    publisher: &mut P,
    d: &Definition,
    folder: &[u8],
    since: Since,
    former: &Option<Rows>,
    now: u64,
    core: &mut DictCore,
) -> Result<Fresh<P::Told>, LoadFault>
    requires sound { IsSound d.now }
    requires kept { is_keyed_layout d.now.layout ≡ false }
    requires former { CanFollow d.now (kept_in former.now) }
    requires since { IsSince (newest (P.list publisher.old)) d.now since }
    requires laid { IsLaidOver (newest (P.list publisher.old)) d.now (kept_in former.now) }
    requires reading { core.old.phase ≡ Reading }
    requires room { length (P.list publisher.old) < 9223372036854775807 }
    requires fact { (list : List Contents) (v : Contents) → HasOrigin S.ran folder.now list v → P.allows list v }
    ensures run { let runs = RunsOne S.scripts S.starts S.started S.C.told S.C.history S.C.faults d.now spawner.old
        spawner.new in (before : CoreOf) → core.old ≡ (stepped before Start).core →
        RunsLoad runs d.now now folder.now (P.list publisher.old) (P.list publisher.new) before core.new
        (load_end_of result) ⊎ StartsNone (spawner.new ≡ spawner.old) d.now now (P.list publisher.old)
        (P.list publisher.new) before core.new (load_end_of result) }
    ensures cause { HasCause (S.start_faults spawner.old) (S.start_faults spawner.new)
        (IsErrOf result (LoadFault.Refused Cause.Start)) }
    ensures told { IfOk result (λ fresh. IsNewToken (P.is_of publisher.new) (P.told_list publisher.new)
        P.Told.number_of (P.list publisher.new) fresh.told fresh.number) }
    ensures kept { IfOk result (λ fresh. IsKept d.now now (P.list publisher.new) (kept_in fresh.kept)) }
    ensures tokens { KeepsTokens P.is_of P.told_list publisher.old publisher.new }
    ensures slot { P.slot publisher.new ≡ P.slot publisher.old }
{
    match load_version(alloc, spawner, d, folder, since, former, core) {
        Ok(made) => publish(alloc, publisher, made, now, core),
        Err(fault) => {
            end_for(core, fault);
            Err(fault)
        }
    }
}
