// Loads over a shared slot, and a board on which threads post.
ghost use Rattle.std.specs.Prelude.{◌≡◌, IfSome, []};
ghost use Rattle.dict_schema.specs.Sound.{IsSound};
ghost use Rattle.loader.specs.Loaders.{IsAt};

use crate::{Board, Place, SlotOf, load_shared};
use child_io::{MemorySpawner, Script};
use ddl_text::parse_definitions;
use dict_schema::{Definition, Item, is_keyed};
use dict_value::{Bytes, Cause, Exit, ListOf, NoMemory, Uncounted};
use dict_version::Version;
use load_core::{LastCause, State};
use loader::{BoardAt, Folder, LoadEnd, LoadNote, Loader, NoteEnd, OriginOf, Posting, StatusRow};
use std::alloc::Global;
use std::marker::Brand;
use std::sync::Wait;
use std::test::Fail;
use std::thread::{Threads, join};
use version_slot::{
    Fact, Flip, SharedPublisher, SharedSlot, SharedViewer, Shown, SlotCopies, Viewer,
};

const FILE: &[u8] =
    b"CREATE DICTIONARY d (k UInt64, v UInt64) PRIMARY KEY k SOURCE(EXECUTABLE(command 'c' format \
        'TabSeparated')) LAYOUT(HASHED()) LIFETIME(0);";

/// The dictionary of the file.
fn definition(alloc: Global) -> Option<Definition>
    ensures { IfSome result IsSound }
{
    let Ok(mut items) = parse_definitions(alloc, FILE) else {
        return None;
    };
    match items.pop_front() {
        Some(Item::Dictionary(definition)) => Some(definition),
        _ => None,
    }
}

/// A child that prints this and ends with this status.
fn script(alloc: Global, output: &[u8], status: i32) -> Result<Script, NoMemory> {
    Ok(Script {
        start_fails: false,
        output: Bytes::copy_of(alloc, output)?,
        sizes: ListOf::new(alloc),
        failing_reads: ListOf::new(alloc),
        timed_out_reads: ListOf::new(alloc),
        failing_writes: ListOf::new(alloc),
        wait_fails: false,
        after_close: true,
        exit: Exit::Code(status),
        room: 0,
        accepted: ListOf::new(alloc),
    })
}

/// Three children, the second of which fails.
fn children(alloc: Global) -> Result<MemorySpawner, NoMemory> {
    let mut scripts = ListOf::new(alloc);
    scripts.push(script(alloc, b"1\t10\n", 0)?)?;
    scripts.push(script(alloc, b"1\t11\n", 3)?)?;
    scripts.push(script(alloc, b"1\t12\n2\t20\n", 0)?)?;
    Ok(MemorySpawner::new(alloc, scripts))
}

/// What three loads came to, and what a viewer that entered nothing before is taught and then enters.
#[derive(Drop)]
struct Told {
    ends: [LoadEnd; 3],
    row: StatusRow,
    entered: u64,
    notes: ListOf<LoadNote>,
}

/// Loads three times over a slot, and has a viewer taught.
fn load_three<
    F: Folder,
    J: SlotOf,
    W: Flip<Value = Shown<Version<Uncounted>, OriginOf<MemorySpawner, F>>> + Drop,
    R: Wait,
>(
    rt: &R,
    alloc: Global,
    loader: Loader,
    publisher: SharedPublisher<Version<Uncounted>, OriginOf<MemorySpawner, F>, W>,
    viewer: SharedViewer<Version<Uncounted>, OriginOf<MemorySpawner, F>>,
) -> Result<Told, Fail>
    requires at { IsAt loader publisher.list }
    requires folder { loader.folder ≡ F.folder }
    requires slot { publisher.slot ≡ J.slot }
    requires viewer { viewer.slot ≡ J.slot }
{
    let mut loader = loader;
    let mut publisher = publisher;
    let mut viewer = viewer;
    let mut spawner = children(alloc)?;
    let board: Board<Version<Uncounted>, OriginOf<MemorySpawner, F>, J> = Board::new(alloc)?;
    let mut place = board.place(rt);
    let first = load_shared(
        alloc,
        &mut loader,
        &mut spawner,
        &mut publisher,
        0,
        &mut place,
    );
    let second = load_shared(
        alloc,
        &mut loader,
        &mut spawner,
        &mut publisher,
        5,
        &mut place,
    );
    let third = load_shared(
        alloc,
        &mut loader,
        &mut spawner,
        &mut publisher,
        9,
        &mut place,
    );
    let row = board.teach(rt, &mut viewer);
    let Ok(seen) = viewer.enter() else {
        return Err("no entering".into());
    };
    Ok(Told {
        ends: [first, second, third],
        row,
        entered: seen.number(),
        notes: board.notes(rt, alloc)?,
    })
}

/// The same over a slot of its own, which is named here.
fn load_in_slot<F: Folder, R: Wait>(rt: &R, alloc: Global, loader: Loader) -> Result<Told, Fail>
    requires at { IsAt loader [] }
    requires folder { loader.folder ≡ F.folder }
{
    let Ok((publisher, mut viewers)) = SharedSlot::<
        Version<Uncounted>,
        OriginOf<MemorySpawner, F>,
    >::new(rt, alloc, 1) else {
        return Err(NoMemory.into());
    };
    let Some(viewer) = viewers.pop_front() else {
        return Err("no viewer".into());
    };
    load_three::<F, Brand, SlotCopies<Version<Uncounted>, OriginOf<MemorySpawner, F>, &R>, R>(
        rt, alloc, loader, publisher, viewer,
    )
}

/// The same with the programs where the program was started, which is named here.
fn load_here<R: Wait>(rt: &R, alloc: Global) -> Result<Told, Fail> {
    let Some(definition) = definition(alloc) else {
        return Err("no dictionary".into());
    };
    if is_keyed(&definition) {
        return Err("a keyed dictionary".into());
    }
    let loader = Loader::new(alloc, definition, b".", 1, 0)?;
    load_in_slot::<Brand, R>(rt, alloc, loader)
}

#[test]
fn loads_are_posted_and_learnt(rt: HostRuntime) -> Result<(), Fail> {
    let told = load_here(&rt, rt.alloc())?;
    let failed = Cause::Status(3);
    assert!(rt;
        told.ends
            == [
                LoadEnd::Published(1),
                LoadEnd::Failed(failed),
                LoadEnd::Published(2),
            ]
    );
    let row = StatusRow {
        number: 2,
        state: State::Loaded,
        oks: 2,
        fails: 1,
        cause: LastCause::None,
    };
    assert_eq!(rt; told.row, row);
    assert_eq!(rt; told.entered, 2);
    let notes = [
        (0, NoteEnd::Published(1)),
        (5, NoteEnd::Failed(failed)),
        (9, NoteEnd::Published(2)),
    ];
    assert_eq!(rt; told.notes.len(), notes.len());
    for (note, (moment, end)) in told.notes.as_slice().iter().zip(notes) {
        assert_eq!(rt; *note, LoadNote { moment, end });
    }
    Ok(())
}

/// Each entry may follow each list.
struct Anything;

impl Fact<u64> for Anything {
    ghost allows = { λ _ _. Unit {0} };
}

/// Posts so many failed loads.
fn post_failures<J: SlotOf, R: Wait>(place: Place<'_, u64, Anything, J, R>, count: u64) {
    let mut place = place;
    for moment in 0..count {
        place.post(Posting::Begun);
        place.post(Posting::Failed {
            cause: Cause::Start,
            moment,
        });
    }
}

/// Two threads post a hundred failures each: the row, and how many ends are kept.
fn post_beside<J: SlotOf + Send, R: Threads + Wait + Sync>(
    rt: &R,
    alloc: Global,
    viewer: SharedViewer<u64, Anything>,
) -> Result<(StatusRow, usize), NoMemory>
    requires { viewer.slot ≡ J.slot }
{
    let mut viewer = viewer;
    let board: Board<u64, Anything, J> = Board::new(alloc)?;
    let (one, two) = (board.place(rt), board.place(rt));
    join(
        rt,
        move || post_failures(one, 100),
        move || post_failures(two, 100),
    );
    let row = board.teach(rt, &mut viewer);
    Ok((row, board.notes(rt, alloc)?.len()))
}

/// The same for a slot of its own, which is named here.
fn post_here<R: Threads + Wait + Sync>(
    rt: &R,
    alloc: Global,
) -> Result<(StatusRow, usize), NoMemory> {
    let (_publisher, mut viewers) = SharedSlot::<u64, Anything>::new(rt, alloc, 1)?;
    let Some(viewer) = viewers.pop_front() else {
        return Err(NoMemory);
    };
    post_beside::<Brand, R>(rt, alloc, viewer)
}

#[test]
fn postings_of_two_threads_are_counted(rt: HostRuntime) -> Result<(), Fail> {
    let (row, notes) = post_here(&rt, rt.alloc())?;
    let want = StatusRow {
        number: 0,
        state: State::Failed,
        oks: 0,
        fails: 200,
        cause: LastCause::Of(Cause::Start),
    };
    assert_eq!(rt; row, want);
    assert_eq!(rt; notes, 64);
    Ok(())
}
