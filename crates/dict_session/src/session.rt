// A session: the requests of a link, answered by a desk.
ghost use Rattle.std.specs.Prelude.{◌≡◌, ◌≢◌, ◌≤◌, ◌<◌, ℕ, [], IfOk, Result, false, length, max, replicate};
ghost use Rattle.dict_io.specs.Links.{Puts};
ghost use Rattle.dict_io.specs.declared.outside.Failed.{Failed as FailedOf};
ghost use Rattle.dict_session.specs.Serving.{OrNoMemory};
ghost use Rattle.dict_session.specs.Session.{SessionEnds, FaultsFor, IsAskedIn, Serves, asks_to_quit, floor_of};
ghost use Rattle.dict_session.specs.Session.{heard_in};
ghost use Rattle.dict_session.specs.Session.{place, too_long_text};
ghost use Rattle.dict_session.specs.Turns.{AnsweredAt, Exchanged, IsRequestTurn, IsTurn, RaisedAt, TurnFaults};
ghost use Rattle.dict_session.specs.Turns.{closed_by, unknown_floor, turn_after};
ghost use Rattle.dict_io.specs.declared.outside.TheConstants.{LAST_MOMENT};
ghost use Rattle.wire_text.specs.Replies.{reply_text};

use crate::answer::{Answer, answer_request, plain};
use crate::desk::Desk;
use dict_io::{Failed, Gate, Link, write_link};
use dict_value::{Bytes, NoMemory};
use line_reader::Lines;
use load_core::{CallerCore, CallerEvent};
use request_reader::{Asking, Taken, next_request};
use std::alloc::Global;
use wire_text::{MOST_REQUESTS, Reply, ReplyFault, Request, write_reply};

/// How a session ended.
#[derive(Clone, Copy, Debug, PartialEq, Eq)]
pub enum SessionEnd {
    /// A request asked for it.
    Quit,
    /// The input was read to its end.
    Ended,
    /// A read failed.
    ReadFault,
    /// A write failed.
    WriteFault,
    /// More bytes without a line feed stand next than a line may have.
    LineTooLong,
    /// As many requests were answered as a session may have.
    Spent,
    /// Memory lacked before the first read.
    NoMemory,
}

/// Whether a session goes on.
#[derive(Clone, Copy, Debug, PartialEq, Eq)]
pub enum Turn {
    More,
    Over(SessionEnd),
}

/// The room that the first replies need no memory for.
const REPLY_ROOM: usize = 256;

/// The text of the reply that memory lacks.
const NO_MEMORY_TEXT: &[u8] = b"ERR\t99\n";

/// The text of the reply to bytes that are no line.
const TOO_LONG_TEXT: &[u8] = b"ERR\t13\n";

/// Whether a request ends the session.
fn asks_to_quit(asking: &Asking) -> bool
    ensures { result ≡ asks_to_quit asking.now }
{
    match asking {
        Asking::Asks(Request::Quit) => true,
        Asking::NoMemory(quits) => *quits,
        _ => false,
    }
}

/// The answer at a moment to what was read in the lines of a request.
fn answer_asking<D: Desk>(alloc: Global, desk: &mut D, asking: &Asking, now: u64) -> Answer
    requires asked { IsAskedIn asking.now }
    requires bound { now ≤ LAST_MOMENT }
    ensures { AnsweredAt D.facts (D.state desk.old) (heard_in asking.now) now result (D.state desk.new) }
{
    match asking {
        Asking::Asks(request) => answer_request(alloc, desk, request, now),
        Asking::Bad => plain(Reply::Refused(ReplyFault::BadRequest)),
        Asking::TooLarge => plain(Reply::Refused(ReplyFault::TooLarge)),
        Asking::NoMemory(_) => plain(Reply::Refused(ReplyFault::NoMemory)),
    }
}

/// The answer to a request, at a moment of its own, once what is due before it was done.
fn exchange<D: Desk, G: Gate>(
    alloc: Global,
    desk: &mut D,
    asking: &Asking,
    gate: &G,
    worker: u32,
    number: u64,
) -> Answer
    requires { IsAskedIn asking.now }
    ensures { Exchanged D.facts (D.state desk.old) (heard_in asking.now) result (D.state desk.new) }
{
    let now = desk.moment();
    desk.before(alloc, now);
    gate.pass(worker, number);
    answer_asking(alloc, desk, asking, now)
}

/// Raises the floor that is kept for an item by what a caller came to know.
fn raise(floors: &mut Vec<CallerCore>, place: u32, event: CallerEvent)
    ensures { RaisedAt floors.old.items place event floors.new.items }
{
    if (place as usize) < floors.len() {
        floors[place as usize].step(event);
    }
}

/// Writes a reply in one piece; where memory lacks for its text, that is the reply.
fn send<L: Link>(link: &mut L, reply: &Reply, out: &mut Bytes) -> Result<(), Failed>
    ensures { (said : Reply) × OrNoMemory reply.now said
        × Puts (L.ends link.old) (reply_text said) result (L.ends link.new) }
{
    out.clear();
    match write_reply(reply, out) {
        Ok(()) => write_link(link, out.as_slice()),
        Err(NoMemory) => write_link(link, NO_MEMORY_TEXT),
    }
}

/// What follows a reply that was written.
fn turn_after(quits: bool, last: bool) -> Turn
    ensures { result ≡ turn_after quits last }
{
    if quits {
        Turn::Over(SessionEnd::Quit)
    } else if last {
        Turn::Over(SessionEnd::Ended)
    } else {
        Turn::More
    }
}

/// What a session holds: its lines, the text of a reply, and the floor of each item.
#[derive(Drop)]
struct Room {
    lines: Lines,
    reply: Bytes,
    floors: Vec<CallerCore>,
}

impl Room {
    /// All the memory that a session takes before its first read.
    fn new(alloc: Global, items: usize) -> Result<Room, NoMemory>
        ensures ahead { IfOk result (λ room. room.lines.ahead ≡ []) }
        ensures floors { IfOk result (λ room. room.floors.items ≡ replicate items unknown_floor) }
    {
        let floors = match Vec::from_elem(alloc, CallerCore::new(), items) {
            Ok(floors) => floors,
            Err(_) => return Err(NoMemory),
        };
        Ok(Room {
            lines: Lines::new(alloc)?,
            reply: Bytes::with_room(alloc, REPLY_ROOM)?,
            floors,
        })
    }
}

/// Answers a request that was taken, behind which the input ended or goes on.
fn serve_request<L: Link, D: Desk, G: Gate>(
    alloc: Global,
    desk: &mut D,
    link: &mut L,
    gate: &G,
    worker: u32,
    number: u64,
    room: &mut Room,
    asking: &Asking,
    last: bool,
) -> Turn
    requires { IsAskedIn asking.now }
    ensures turn { IsRequestTurn D.facts (D.state desk.old) (L.ends link.old) asking.now last result (D.state desk.new)
        (L.ends link.new) room.old.floors.items room.new.floors.items }
    ensures lines { room.new.lines ≡ room.old.lines }
{
    let answer = exchange(alloc, desk, asking, gate, worker, number);
    raise(&mut room.floors, answer.place, answer.event);
    match send(link, &answer.reply, &mut room.reply) {
        Ok(()) => turn_after(asks_to_quit(asking), last),
        Err(Failed) => Turn::Over(SessionEnd::WriteFault),
    }
}

/// Answers bytes that are no line, which ends a session.
fn close<L: Link>(link: &mut L) -> SessionEnd
    ensures { (sent : Result (Unit {0}) FailedOf) × Puts (L.ends link.old) too_long_text sent (L.ends link.new)
        × (result ≡ closed_by sent) }
{
    match write_link(link, TOO_LONG_TEXT) {
        Ok(()) => SessionEnd::LineTooLong,
        Err(Failed) => SessionEnd::WriteFault,
    }
}

/// One turn: takes a request, makes the desk's calls for it, and writes the reply.
fn serve_one<L: Link, D: Desk, G: Gate>(
    alloc: Global,
    desk: &mut D,
    link: &mut L,
    gate: &G,
    worker: u32,
    number: u64,
    room: &mut Room,
) -> Turn
    requires { (L.ends link.old).reads.ended ≡ false }
    ensures turn { IsTurn D.facts (D.state desk.old) (place room.old.lines.ahead (L.ends link.old)) result
        (D.state desk.new) room.new.lines.ahead (L.ends link.new) room.old.floors.items room.new.floors.items }
    ensures faults { TurnFaults (L.ends link.old) result (L.ends link.new) }
{
    match next_request(alloc, &mut room.lines, link) {
        Taken::Request { asking, last } => serve_request(
            alloc, desk, link, gate, worker, number, room, &asking, last,
        ),
        Taken::End => Turn::Over(SessionEnd::Ended),
        Taken::TooLong => Turn::Over(close(link)),
        Taken::Failed => Turn::Over(SessionEnd::ReadFault),
    }
}

/// Serves a link to the end of its session.
fn serve_all<L: Link, D: Desk, G: Gate>(
    alloc: Global,
    desk: &mut D,
    link: &mut L,
    gate: &G,
    worker: u32,
    room: &mut Room,
) -> SessionEnd
    requires { (L.ends link.old).reads.ended ≡ false }
    ensures ending { SessionEnds D.facts (D.state desk.old) (place room.old.lines.ahead (L.ends link.old)) result
        (D.state desk.new) (L.ends link.new) room.old.floors.items room.new.floors.items }
    ensures faults { FaultsFor (L.ends link.old) result (L.ends link.new) }
    ensures before { result ≢ SessionEnd.NoMemory }
{
    for number in 0..MOST_REQUESTS {
        match serve_one(alloc, desk, link, gate, worker, number, room) {
            Turn::More => {}
            Turn::Over(end) => return end,
        }
    }
    SessionEnd::Spent
}

/// Serves a link to the end of its session: each request is answered by one reply, from the desk's calls for it.
pub fn serve_session<L: Link, D: Desk, G: Gate>(
    alloc: Global,
    desk: &mut D,
    link: &mut L,
    gate: &G,
    worker: u32,
) -> SessionEnd
    requires { (L.ends link.old).reads.ended ≡ false }
    ensures { Serves D.facts (D.state desk.old) (L.ends link.old) result (D.state desk.new) (L.ends link.new) }
{
    match Room::new(alloc, desk.items().len()) {
        Ok(mut room) => serve_all(alloc, desk, link, gate, worker, &mut room),
        Err(NoMemory) => SessionEnd::NoMemory,
    }
}
