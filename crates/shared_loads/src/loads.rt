// Loads over a shared slot.
ghost use Rattle.std.specs.Prelude.{◌≡◌, ◌≤◌, ◌++◌, ℕ, List, length};
ghost use Rattle.dict_io.specs.Outside.{HasCause};
ghost use Rattle.dict_io.specs.declared.outside.TheConstants.{LAST_MOMENT};
ghost use Rattle.dict_version.specs.Contents.{Contents};
ghost use Rattle.loader.specs.Loaders.{IsAt, IsLoad, RunsOne};
ghost use Rattle.loader.specs.declared.board.Posting.{Posting as PostingOf};
ghost use Rattle.version_slot.specs.SharedSlots.{Reached};

use crate::board::{Place, SlotOf};
use child_io::Spawner;
use dict_value::{Cause, Counter};
use dict_version::Version;
use loader::{Folder, LoadEnd, Loader, OriginOf};
use std::alloc::Global;
use std::sync::Wait;
use version_slot::{Flip, SharedPublisher, Shown};

/// One load of a dictionary whose versions threads share, posted on its board: it publishes what its child gives, or
/// says why that gives nothing. It waits for readers that are entering, and for the board's lock.
pub fn load_shared<
    C: Counter,
    S: Spawner,
    F: Folder,
    W: Flip<Value = Shown<Version<C>, OriginOf<S, F>>>,
    J: SlotOf,
    R: Wait,
>(
    alloc: Global,
    loader: &mut Loader,
    spawner: &mut S,
    publisher: &mut SharedPublisher<Version<C>, OriginOf<S, F>, W>,
    now: u64,
    place: &mut Place<'_, Version<C>, OriginOf<S, F>, J, R>,
) -> LoadEnd
    requires moment { now ≤ LAST_MOMENT }
    requires at { IsAt loader.old publisher.old.list }
    requires folder { loader.old.folder ≡ F.folder }
    requires slot { publisher.old.slot ≡ J.slot }
    ensures load { let d = loader.old.definition in
        let runs = RunsOne S.scripts S.starts S.started S.C.told S.C.history S.C.faults d spawner.old spawner.new in
        let is_told = (λ (told : Reached Contents).
        (told.slot ≡ publisher.new.slot) × (told.list ≡ publisher.new.list)) in
        let posts = (λ (postings : List (PostingOf (Reached Contents))). Unit {0}) in
        IsLoad runs (spawner.new ≡ spawner.old) is_told posts d now result loader.old loader.new publisher.old.list
        publisher.new.list }
    ensures published { (n : ℕ) → result ≡ LoadEnd.Published n
        → (n ≡ length publisher.new.list) × (loader.new.core.published ≡ n) }
    ensures cause { HasCause (S.start_faults spawner.old) (S.start_faults spawner.new)
        (result ≡ LoadEnd.Failed Cause.Start) }
    ensures folder { loader.new.folder ≡ loader.old.folder }
    ensures slot { publisher.new.slot ≡ publisher.old.slot }
{
    loader.load(alloc, spawner, publisher, now, place)
}
