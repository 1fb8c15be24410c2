// A dictionary of one thread, over objects in memory.
ghost use Rattle.std.specs.Prelude.{IfOk};
ghost use Rattle.dict_hub.specs.Over.{AreDesks};

use crate::{DictAt, PlainDict, are_loaded, read_items};
use child_io::{MemorySpawner, Script};
use dict_io::{LAST_MOMENT, MemoryShelf, NamedFile};
use dict_schema::Item;
use dict_value::{Bytes, Cause, Exit, ListOf};
use load_core::{LastCause, State};
use loader::{LoadEnd, StatusRow};
use std::alloc::Global;
use std::marker::Brand;
use std::test::Fail;

const FLAT: &[u8] = b"CREATE DICTIONARY d (id UInt64, x String DEFAULT '') PRIMARY KEY id \
    SOURCE(EXECUTABLE(command 'c' format 'TabSeparated')) LAYOUT(FLAT()) LIFETIME(MIN 10 MAX 10);";

fn script(alloc: Global, output: &[u8], status: i32) -> Result<Script, Fail> {
    Ok(Script {
        start_fails: false,
        output: Bytes::copy_of(alloc, output)?,
        sizes: ListOf::new(alloc),
        failing_reads: ListOf::new(alloc),
        timed_out_reads: ListOf::new(alloc),
        failing_writes: ListOf::new(alloc),
        wait_fails: false,
        after_close: true,
        exit: Exit::Code(status),
        room: 0,
        accepted: ListOf::new(alloc),
    })
}

fn spawner(alloc: Global, children: &[(&'static [u8], i32)]) -> Result<MemorySpawner, Fail> {
    let mut scripts = ListOf::new(alloc);
    for (output, status) in children {
        scripts.push(script(alloc, output, *status)?)?;
    }
    Ok(MemorySpawner::new(alloc, scripts))
}

/// The items of a file with this text.
fn items_of(alloc: Global, text: &[u8]) -> Result<ListOf<Item>, Fail>
    ensures { IfOk result AreDesks }
{
    let mut files = ListOf::new(alloc);
    files.push(NamedFile {
        name: Bytes::copy_of(alloc, b"d.sql")?,
        text: Bytes::copy_of(alloc, text)?,
    })?;
    let mut shelf = MemoryShelf::new(alloc, files, ListOf::new(alloc));
    let Ok(items) = read_items(alloc, &mut shelf, "d.sql") else {
        return Err("no items".into());
    };
    if !are_loaded(items.as_slice()) || items.len() >= u32::MAX as usize {
        return Err("an item isn't fully loaded".into());
    }
    Ok(items)
}

// ---- a dictionary

/// A call of a dictionary, and what it answers.
#[derive(Clone, Copy)]
enum Step {
    Load(u64, LoadEnd),
    Due(u64, Option<LoadEnd>),
    /// The number that an entering gives.
    Enter(u64),
    Teach(StatusRow),
}

static CHILDREN: [(&[u8], i32); 3] = [(b"1\ta\n2\tb\n", 0), (b"", 3), (b"1\tz\n", 0)];

static STEPS: [Step; 9] = [
    Step::Enter(0),
    Step::Load(100, LoadEnd::Published(1)),
    Step::Due(109, None),
    Step::Due(110, Some(LoadEnd::Failed(Cause::Status(3)))),
    Step::Enter(1),
    Step::Teach(StatusRow {
        number: 1,
        state: State::Loaded,
        oks: 1,
        fails: 1,
        cause: LastCause::Of(Cause::Status(3)),
    }),
    Step::Due(114, None),
    Step::Due(115, Some(LoadEnd::Published(2))),
    Step::Enter(2),
];

fn dictionary(alloc: Global) -> Result<PlainDict<MemorySpawner, Brand>, Fail> {
    let mut items = items_of(alloc, FLAT)?;
    match items.pop_front() {
        Some(Item::Dictionary(d)) => match PlainDict::new(alloc, d, b"", 1, 0) {
            Ok(dictionary) => Ok(dictionary),
            Err(_) => Err("no memory".into()),
        },
        _ => Err("no dictionary".into()),
    }
}

/// Whether a call answers so.
fn answers(
    alloc: Global,
    dictionary: &mut PlainDict<MemorySpawner, Brand>,
    spawner: &mut MemorySpawner,
    step: Step,
) -> bool {
    match step {
        Step::Load(now, end) => dictionary.load(alloc, spawner, now.min(LAST_MOMENT)) == end,
        Step::Due(now, end) => dictionary.load_due(alloc, spawner, now.min(LAST_MOMENT)) == end,
        Step::Enter(number) => match dictionary.enter() {
            Ok(seen) => seen.number() == number,
            Err(_) => false,
        },
        Step::Teach(row) => dictionary.teach() == row,
    }
}

#[test]
fn a_dictionary_is_loaded_when_it_is_due(rt: HostRuntime) -> Result<(), Fail> {
    let alloc = rt.alloc();
    let mut spawner = spawner(alloc, &CHILDREN)?;
    let mut dictionary = dictionary(alloc)?;
    for (place, step) in STEPS.iter().enumerate() {
        assert!(rt;
            answers(alloc, &mut dictionary, &mut spawner, *step),
            "at {place}"
        );
    }
    Ok(())
}
