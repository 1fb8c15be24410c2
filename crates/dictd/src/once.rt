// The run of `once`.
ghost use Rattle.std.specs.Prelude.{◌≡◌, ℕ, List, IsErrOf, false, map, string_bytes};
ghost use Rattle.child_io.specs.Words.{IsFolder};
ghost use Rattle.dict_hub.specs.Over.{children_of};
ghost use Rattle.dict_io.specs.Outside.{HasCause, Rose};
ghost use Rattle.dictd.specs.OneRun.{IsUnserved, OnceRun, ReadsServed, ServesIn};
ghost use Rattle.dictd.specs.OneRun.{outer, shelf_told, status_for, status_of};
ghost use Rattle.dictd.specs.Statuses.{TellsText, status_text};

use crate::status::{Status, tell};
use crate::words::once_words;
use child_io::{Spawner, folder_of};
use dict_hub::{Items, are_loaded, local_desk, plain_dictionaries, read_items};
use dict_io::{Clock, Link, OpenGate, Shelf, Sink};
use dict_session::{ConfigEnd, Desk, SessionEnd, serve_session};
use loader::Folder;
use std::alloc::Global;
use std::marker::Brand;

/// What a run meets beside its link.
#[derive(Drop)]
pub struct Outside<F: Shelf, S: Spawner, K: Clock> {
    pub shelf: F,
    pub spawner: S,
    pub clock: K,
}

/// How a run ended, and what it met, as it left that.
#[derive(Drop)]
pub struct Ended<F: Shelf, S: Spawner, K: Clock> {
    pub status: Status,
    pub outside: Outside<F, S, K>,
}

/// How a session ended, and what it met, as it left that.
#[derive(Drop)]
struct Served<F: Shelf, S: Spawner, K: Clock> {
    end: SessionEnd,
    outside: Outside<F, S, K>,
}

/// How a file without items is told.
fn status_for(why: ConfigEnd) -> Status
    ensures { result ≡ status_for why }
{
    match why {
        ConfigEnd::Unread => Status::DefsUnread,
        ConfigEnd::TooLong => Status::DefsTooLong,
        ConfigEnd::Refused { line, place, words } => Status::DefsRefused { line, place, words },
        _ => Status::NoMemory,
    }
}

/// How the end of a session is told.
fn status_of(end: SessionEnd) -> Status
    ensures { result ≡ status_of end }
{
    match end {
        SessionEnd::Quit | SessionEnd::Ended => Status::Done,
        SessionEnd::ReadFault => Status::ReadFault,
        SessionEnd::WriteFault => Status::WriteFault,
        SessionEnd::LineTooLong => Status::LineTooLong,
        SessionEnd::Spent => Status::Spent,
        SessionEnd::NoMemory => Status::NoMemory,
    }
}

/// How an item that isn't served yet is told: of the file's first byte.
fn unserved() -> Status
    ensures { IsUnserved result }
{
    Status::DefsRefused {
        line: 1,
        place: 0,
        words: b"unsupported",
    }
}

/// The items of the definitions file, each of which is served, or how the file is told.
fn served_items<F: Shelf>(alloc: Global, shelf: &mut F, name: &str) -> Result<Items, Status>
    ensures read { ReadsServed (shelf_told F.filed F.file F.later) (F.readings shelf.old) name.now result }
    ensures cause { IsErrOf result Status.DefsUnread → Rose (F.shelf_faults shelf.old) (F.shelf_faults shelf.new) }
    ensures later { F.readings shelf.new ≡ F.later (F.readings shelf.old) }
{
    match read_items(alloc, shelf, name) {
        Ok(items) => {
            if !are_loaded(items.as_slice()) {
                return Err(unserved());
            }
            // Items are told by numbers of 32 bits.
            if items.len() >= u32::MAX as usize {
                return Err(Status::NoMemory);
            }
            Ok(Items::new(items))
        }
        Err(why) => Err(status_for(why)),
    }
}

/// Serves the dictionaries of a file, whose programs lie in the folder that P names: loads each once, in the order of
/// the file, and answers the requests of the link.
fn serve_in<P: Folder, F: Shelf, S: Spawner, K: Clock, L: Link>(
    alloc: Global,
    items: Items,
    name: &String,
    folder: &[u8],
    seed: u64,
    outside: Outside<F, S, K>,
    link: &mut L,
) -> Served<F, S, K>
    requires folder { folder.now ≡ P.folder }
    requires open { (L.ends link.old).reads.ended ≡ false }
    ensures { ServesIn (shelf_told F.filed F.file F.later) S.ran items (string_bytes name.now) folder.now seed
        (outer (F.readings outside.shelf) (K.moments outside.clock) (children_of S.scripts S.starts outside.spawner))
        (L.ends link.old) result.end
        (outer (F.readings result.outside.shelf) (K.moments result.outside.clock)
        (children_of S.scripts S.starts result.outside.spawner)) (L.ends link.new) }
{
    let Outside {
        shelf,
        spawner,
        clock,
    } = outside;
    let Ok(dictionaries) = plain_dictionaries::<S, P>(alloc, &items, folder, seed) else {
        return Served {
            end: SessionEnd::NoMemory,
            outside: Outside {
                shelf,
                spawner,
                clock,
            },
        };
    };
    let mut desk = local_desk(items, dictionaries, spawner, clock, shelf, name.as_str());
    let now = desk.moment();
    desk.first(alloc, now);
    let end = serve_session(alloc, &mut desk, link, &OpenGate, 0);
    desk.origins();
    let (spawner, clock, file) = desk.into_parts();
    Served {
        end,
        outside: Outside {
            shelf: file.into_shelf(),
            spawner,
            clock,
        },
    }
}

/// The same with the folder that the definitions file lies in.
fn serve_items<F: Shelf, S: Spawner, K: Clock, L: Link>(
    alloc: Global,
    items: Items,
    name: &String,
    seed: u64,
    outside: Outside<F, S, K>,
    link: &mut L,
) -> Served<F, S, K>
    requires { (L.ends link.old).reads.ended ≡ false }
    ensures { (folder : List ℕ) × IsFolder (string_bytes name.now) folder
        × ServesIn (shelf_told F.filed F.file F.later) S.ran items (string_bytes name.now) folder seed
        (outer (F.readings outside.shelf) (K.moments outside.clock) (children_of S.scripts S.starts outside.spawner))
        (L.ends link.old) result.end
        (outer (F.readings result.outside.shelf) (K.moments result.outside.clock)
        (children_of S.scripts S.starts result.outside.spawner)) (L.ends link.new) }
{
    let folder = folder_of(name.as_bytes());
    serve_in::<Brand, F, S, K, L>(alloc, items, name, folder, seed, outside, link)
}

/// Runs the words, and writes nothing to the error output.
fn run<F: Shelf, S: Spawner, K: Clock, L: Link>(
    alloc: Global,
    words: &[String],
    outside: Outside<F, S, K>,
    link: &mut L,
) -> Ended<F, S, K>
    requires { (L.ends link.old).reads.ended ≡ false }
    ensures run { OnceRun (shelf_told F.filed F.file F.later) S.ran (map string_bytes words.now)
        (outer (F.readings outside.shelf) (K.moments outside.clock) (children_of S.scripts S.starts outside.spawner))
        (L.ends link.old) result.status
        (outer (F.readings result.outside.shelf) (K.moments result.outside.clock)
        (children_of S.scripts S.starts result.outside.spawner)) (L.ends link.new) }
    ensures shelf { result.status ≡ Status.DefsUnread
        → Rose (F.shelf_faults outside.shelf) (F.shelf_faults result.outside.shelf) }
{
    let mut outside = outside;
    let Some((name, seed)) = once_words(words) else {
        return Ended {
            status: Status::Usage,
            outside,
        };
    };
    match served_items(alloc, &mut outside.shelf, name.as_str()) {
        Ok(items) => {
            let Served { end, outside } = serve_items(alloc, items, name, seed, outside, link);
            Ended {
                status: status_of(end),
                outside,
            }
        }
        Err(status) => Ended { status, outside },
    }
}

/// Runs `once DEFS SEED`: reads the definitions file, loads each dictionary once, in the order of the file, and answers
/// the requests of the link, one session. A status other than Done is told on the error output; a write there that
/// fails is passed over.
pub fn once<F: Shelf, S: Spawner, K: Clock, L: Link, E: Sink>(
    alloc: Global,
    words: &[String],
    outside: Outside<F, S, K>,
    link: &mut L,
    err: &mut E,
) -> Ended<F, S, K>
    requires { (L.ends link.old).reads.ended ≡ false }
    ensures run { OnceRun (shelf_told F.filed F.file F.later) S.ran (map string_bytes words.now)
        (outer (F.readings outside.shelf) (K.moments outside.clock) (children_of S.scripts S.starts outside.spawner))
        (L.ends link.old) result.status
        (outer (F.readings result.outside.shelf) (K.moments result.outside.clock)
        (children_of S.scripts S.starts result.outside.spawner)) (L.ends link.new) }
    ensures shelf { result.status ≡ Status.DefsUnread
        → Rose (F.shelf_faults outside.shelf) (F.shelf_faults result.outside.shelf) }
    ensures reads { HasCause (L.ends link.old).reads.faults (L.ends link.new).reads.faults
        (result.status ≡ Status.ReadFault) }
    ensures writes { HasCause (L.ends link.old).writes.faults (L.ends link.new).writes.faults
        (result.status ≡ Status.WriteFault) }
    ensures told { TellsText (E.written err.old) (E.written err.new) (status_text result.status)
        (Rose (E.write_faults err.old) (E.write_faults err.new)) }
{
    let ended = run(alloc, words, outside, link);
    tell(err, ended.status);
    ended
}
