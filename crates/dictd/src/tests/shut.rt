// A session over a desk one of whose enterings is refused.
ghost use Rattle.std.specs.Prelude.{◌≡◌, false};

use super::{FIRST, FLAT, clock, shelf, source, spawner};
use dict_hub::{Items, are_loaded, local_desk, plain_dictionaries, read_items};
use dict_io::{Both, Link, MemoryShelf, MemorySink, OpenGate};
use dict_schema::Item;
use dict_session::{ConfigEnd, Desk, SessionEnd, serve_session};
use dict_value::{
    CallFault, FetchFault, Fetched, KeyList, ListOf, NoMemory, Row, Uncounted, Value,
};
use dict_version::Version;
use loader::{Folder, LoadEnd, StatusRow};
use std::alloc::Global;
use std::marker::Brand;
use std::test::Fail;
use version_slot::{EnterFault, Seen};

/// A desk of which the second entering is told that the slot is shut.
#[derive(Drop)]
struct Shutting<D: Desk> {
    desk: D,
    entered: u64,
    refused: u64,
}

impl<D: Desk> Desk for Shutting<D> {
    ghost State = { D.State };

    ghost state = { λ s. D.state s.desk };

    ghost facts = { record D.facts { did = λ s act t. Unit {0} } };

    ghost refusals = { λ s d. s.refused };

    fn moment(&mut self) -> u64 {
        self.desk.moment()
    }

    fn before(&mut self, alloc: Global, now: u64) {
        self.desk.before(alloc, now);
    }

    fn items(&self) -> &ListOf<Item> {
        self.desk.items()
    }

    fn enter(&mut self, d: u32) -> Result<Seen<Version<Uncounted>>, EnterFault> {
        self.entered = self.entered.saturating_add(1);
        let answer = match self.desk.enter(d) {
            Ok(_) if self.entered == 2 => Err(EnterFault::Shut),
            answer => answer,
        };
        if matches!(answer, Err(EnterFault::Shut)) {
            self.refused = self.refused.saturating_add(1);
        }
        answer
    }

    fn teach(&mut self, d: u32) -> StatusRow {
        self.desk.teach(d)
    }

    fn reload(&mut self, alloc: Global, d: u32, now: u64) -> LoadEnd {
        self.desk.reload(alloc, d, now)
    }

    fn keyed(
        &mut self,
        alloc: Global,
        d: u32,
        now: u64,
        keys: &[KeyList],
    ) -> Result<Fetched, FetchFault> {
        self.desk.keyed(alloc, d, now, keys)
    }

    fn call(&mut self, alloc: Global, f: u32, rows: &[Row]) -> Result<ListOf<Value>, CallFault> {
        self.desk.call(alloc, f, rows)
    }

    fn config(&mut self, alloc: Global, now: u64) -> ConfigEnd {
        self.desk.config(alloc, now)
    }
}

/// Serves the items, each loaded once, to a link.
fn serve<P: Folder, L: Link>(
    alloc: Global,
    items: Items,
    folder: &[u8],
    shelf: MemoryShelf,
    link: &mut L,
) -> Result<SessionEnd, Fail>
    requires folder { folder.now ≡ P.folder }
    requires open { (L.ends link.old).reads.ended ≡ false }
{
    let dictionaries = plain_dictionaries::<_, P>(alloc, &items, folder, 1)?;
    let spawner = spawner(alloc, FIRST)?;
    let clock = clock(alloc, &[])?;
    let mut desk = local_desk(items, dictionaries, spawner, clock, shelf, "d.sql");
    let now = desk.moment();
    desk.first(alloc, now);
    let mut desk = Shutting {
        desk,
        entered: 0,
        refused: 0,
    };
    Ok(serve_session(alloc, &mut desk, link, &OpenGate, 0))
}

/// The same with their programs in the folder where the program was started.
fn serve_here<L: Link>(
    alloc: Global,
    items: Items,
    shelf: MemoryShelf,
    link: &mut L,
) -> Result<SessionEnd, Fail>
    requires { (L.ends link.old).reads.ended ≡ false }
{
    serve::<Brand, L>(alloc, items, b"", shelf, link)
}

#[test]
fn an_entering_that_is_refused_is_told(rt: HostRuntime) -> Result<(), Fail> {
    let alloc = rt.alloc();
    let mut shelf = shelf(alloc, FLAT, &[])?;
    let Ok(items) = read_items(alloc, &mut shelf, "d.sql") else {
        return Err(NoMemory.into());
    };
    assert!(rt; are_loaded(items.as_slice()));
    assert_eq!(rt; items.len(), 1);
    let input = source(
        alloc,
        b"dictGet\td\tx\t2\ndictGet\td\tx\t2\ndictGet\td\tx\t2\n",
        &[],
    )?;
    let mut link = Both::new(input, MemorySink::new(alloc, 100, ListOf::new(alloc))?);
    let end = serve_here(alloc, Items::new(items), shelf, &mut link)?;
    assert_eq!(rt; end, SessionEnd::Ended);
    assert!(rt; link.written().as_slice() == b"OK\tv1\tb\nERR\t98\nOK\tv1\tb\n".as_slice());
    Ok(())
}
