// The answer to one request: at most one call of the desk.
ghost use Rattle.std.specs.Prelude.{◌≡◌, ◌≢◌, ◌≤◌, All, slice_get};
ghost use Rattle.ddl_writing.specs.Canonical.{definition_text};
ghost use Rattle.dict_functions.specs.Asking.{IsAsked};
ghost use Rattle.dict_io.specs.declared.outside.TheConstants.{LAST_MOMENT};
ghost use Rattle.dict_schema.specs.Sound.{IsSound, IsSoundItem};
ghost use Rattle.dict_session.specs.Answers.{config_reply, entering_refused, shown_item};
ghost use Rattle.dict_session.specs.Asks.{IsLookupAsk, IsRequestAsk};
ghost use Rattle.dict_session.specs.Items.{IsLoadedItem};
ghost use Rattle.dict_session.specs.Serving.{Answered, AskFits, IsAskedRequest, OrNoMemory};
ghost use Rattle.dict_session.specs.declared.ask.Ask.{Ask};
ghost use Rattle.wire_text.specs.RequestTexts.{Heard};
ghost use Rattle.wire_text.specs.declared.reply.Reply.TheVariants.{Shown};
ghost use Rattle.wire_text.specs.declared.request.Request.TheVariants as request;
ghost use Rattle.wire_text.specs.declared.request.Verb.TheVariants as verb;

use crate::ask::{Ask, ask_of, lookup_ask};
use crate::desk::{ConfigEnd, Desk};
use crate::keyed::{apply, fetch};
use ddl_writing::{write_definition, write_dictionary};
use dict_functions::answer_loaded;
use dict_schema::{Definition, Item};
use dict_value::Bytes;
use load_core::CallerEvent;
use loader::LoadEnd;
use std::alloc::Global;
use version_slot::EnterFault;
use wire_text::{Asked, Reply, ReplyFault, Request, StatusLine};

/// A reply, and what it tells of the versions of the dictionary at a place.
#[derive(Drop)]
pub struct Answer {
    pub reply: Reply,
    pub place: u32,
    pub event: CallerEvent,
}

/// A reply that tells of no version.
pub(crate) fn plain(reply: Reply) -> Answer
    ensures reply { result.reply ≡ reply }
    ensures event { result.event ≡ CallerEvent.Told 0 }
{
    Answer {
        reply,
        place: 0,
        event: CallerEvent::Told(0),
    }
}

fn entering_refused(fault: EnterFault) -> Reply
    ensures { result ≡ entering_refused fault }
{
    match fault {
        EnterFault::Shut => Reply::Refused(ReplyFault::Shut),
        EnterFault::NoMemory => Reply::Refused(ReplyFault::NoMemory),
    }
}

/// The answer to a lookup in a dictionary that is fully loaded, from the one version that was entered.
fn look_up<D: Desk>(alloc: Global, desk: &mut D, d: u32, q: &Asked, now: u64) -> Answer
    requires loaded { IsLoadedItem (D.facts.items (D.state desk.old)) d }
    requires asked { IsAsked q.now }
    requires lookup { q.now.verb ≢ verb.Call }
    ensures { Answered D.facts (D.state desk.old) (Heard.asks (request.Asked q.now)) (Ask.Look d) now result
        (D.state desk.new) }
{
    match desk.enter(d) {
        Ok(seen) => Answer {
            reply: answer_loaded(alloc, &seen, q),
            place: d,
            event: CallerEvent::Entered(seen.number()),
        },
        Err(fault) => plain(entering_refused(fault)),
    }
}

/// Whether a dictionary has a version of this number or a later one.
fn reach<D: Desk>(desk: &mut D, d: u32, number: u64, heard: &Request, now: u64) -> Answer
    requires loaded { IsLoadedItem (D.facts.items (D.state desk.old)) d }
    ensures { Answered D.facts (D.state desk.old) (Heard.asks heard.now) (Ask.Reach d number) now result
        (D.state desk.new) }
{
    match desk.enter(d) {
        Ok(seen) => {
            let seen = seen.number();
            Answer {
                reply: if seen < number {
                    Reply::Refused(ReplyFault::Behind(seen))
                } else {
                    Reply::Number(seen)
                },
                place: d,
                event: CallerEvent::Entered(seen),
            }
        }
        Err(fault) => plain(entering_refused(fault)),
    }
}

/// The reply to a load.
fn load<D: Desk>(alloc: Global, desk: &mut D, d: u32, heard: &Request, now: u64) -> Answer
    requires loaded { IsLoadedItem (D.facts.items (D.state desk.old)) d }
    requires bound { now ≤ LAST_MOMENT }
    ensures { Answered D.facts (D.state desk.old) (Heard.asks heard.now) (Ask.Load d) now result (D.state desk.new) }
{
    match desk.reload(alloc, d, now) {
        LoadEnd::Published(number) => Answer {
            reply: Reply::Number(number),
            place: d,
            event: CallerEvent::Told(number),
        },
        LoadEnd::Failed(cause) => plain(Reply::Refused(ReplyFault::Load(cause))),
        LoadEnd::NoMemory => plain(Reply::Refused(ReplyFault::NoMemory)),
    }
}

/// The state of a dictionary's loads, of which the viewer learns.
fn teach<D: Desk>(desk: &mut D, d: u32, heard: &Request, now: u64) -> Answer
    requires loaded { IsLoadedItem (D.facts.items (D.state desk.old)) d }
    ensures { Answered D.facts (D.state desk.old) (Heard.asks heard.now) (Ask.Teach d) now result (D.state desk.new) }
{
    let row = desk.teach(d);
    Answer {
        reply: Reply::Status(StatusLine {
            number: row.number,
            state: row.state,
            oks: row.oks,
            fails: row.fails,
            cause: row.cause,
        }),
        place: d,
        event: CallerEvent::Told(row.number),
    }
}

fn config_reply(end: ConfigEnd) -> Reply
    ensures { result ≡ config_reply end }
{
    match end {
        ConfigEnd::Done { changed, published } => Reply::Config(changed, published),
        ConfigEnd::Unread => Reply::Refused(ReplyFault::ConfigUnread),
        ConfigEnd::TooLong => Reply::Refused(ReplyFault::ConfigTooLong),
        ConfigEnd::Refused { line, place, words } => Reply::Refused(ReplyFault::ConfigRefused {
            line,
            place,
            words,
        }),
        ConfigEnd::Names(item) => Reply::Refused(ReplyFault::ConfigNames(item)),
        ConfigEnd::NoMemory => Reply::Refused(ReplyFault::NoMemory),
    }
}

/// The definitions file is read again.
fn configure<D: Desk>(alloc: Global, desk: &mut D, heard: &Request, now: u64) -> Answer
    requires { now ≤ LAST_MOMENT }
    ensures { Answered D.facts (D.state desk.old) (Heard.asks heard.now) Ask.Configure now result (D.state desk.new) }
{
    plain(config_reply(desk.config(alloc, now)))
}

/// The text of an item's definition.
fn shown(alloc: Global, items: &[Item], place: u32) -> Reply
    requires { All IsSoundItem items.now }
    ensures { OrNoMemory (shown_item (slice_get items.now place)) result }
{
    let Some(item) = items.get(place as usize) else {
        return Reply::Refused(ReplyFault::UnknownDictionary);
    };
    let mut text = Bytes::new(alloc);
    match write_definition(item, &mut text) {
        Ok(()) => Reply::Shown(text),
        Err(_) => Reply::Refused(ReplyFault::NoMemory),
    }
}

/// The text of a definition.
fn shown_definition(alloc: Global, d: &Definition) -> Reply
    requires { IsSound d.now }
    ensures { OrNoMemory (Shown (definition_text d.now)) result }
{
    let mut text = Bytes::new(alloc);
    match write_dictionary(d, &mut text) {
        Ok(()) => Reply::Shown(text),
        Err(_) => Reply::Refused(ReplyFault::NoMemory),
    }
}

/// The current definition of a dictionary that is fully loaded: that of the version that was entered, else the item's.
fn show_entered<D: Desk>(alloc: Global, desk: &mut D, d: u32, heard: &Request, now: u64) -> Answer
    requires loaded { IsLoadedItem (D.facts.items (D.state desk.old)) d }
    ensures { Answered D.facts (D.state desk.old) (Heard.asks heard.now) (Ask.ShowEntered d) now result
        (D.state desk.new) }
{
    match desk.enter(d) {
        Ok(seen) => {
            let reply = match seen.version() {
                Some(version) => shown_definition(alloc, version.definition()),
                None => shown(alloc, desk.items().as_slice(), d),
            };
            Answer {
                reply,
                place: d,
                event: CallerEvent::Entered(seen.number()),
            }
        }
        Err(fault) => plain(entering_refused(fault)),
    }
}

/// The answer to a lookup, or to a call of a function.
fn answer_lookup<D: Desk>(alloc: Global, desk: &mut D, q: &Asked, now: u64) -> Answer
    requires asked { IsAsked q.now }
    requires bound { now ≤ LAST_MOMENT }
    ensures { (ask : Ask) × IsLookupAsk (D.facts.items (D.state desk.old)) q.now.verb q.now.name ask
        × Answered D.facts (D.state desk.old) (Heard.asks (request.Asked q.now)) ask now result (D.state desk.new) }
{
    match lookup_ask(desk.items().as_slice(), q) {
        Ask::Look(d) => look_up(alloc, desk, d, q, now),
        Ask::Fetch(d) => fetch(alloc, desk, d, q, now),
        Ask::Apply(f) => apply(alloc, desk, f, q, now),
        Ask::Refuse(fault) => plain(Reply::Refused(fault)),
        _ => plain(Reply::Refused(ReplyFault::NoMemory)),
    }
}

/// The answer to what a request asks for, lookups aside.
fn answer_ask<D: Desk>(alloc: Global, desk: &mut D, ask: Ask, heard: &Request, now: u64) -> Answer
    requires fits { AskFits (D.facts.items (D.state desk.old)) ask }
    requires bound { now ≤ LAST_MOMENT }
    ensures { Answered D.facts (D.state desk.old) (Heard.asks heard.now) ask now result (D.state desk.new) }
{
    match ask {
        Ask::Refuse(fault) => plain(Reply::Refused(fault)),
        Ask::SayBye => plain(Reply::Bye),
        Ask::Load(d) => load(alloc, desk, d, heard, now),
        Ask::Teach(d) => teach(desk, d, heard, now),
        Ask::Reach(d, number) => reach(desk, d, number, heard, now),
        Ask::ShowEntered(d) => show_entered(alloc, desk, d, heard, now),
        Ask::Show(place) => plain(shown(alloc, desk.items().as_slice(), place)),
        Ask::Configure => configure(alloc, desk, heard, now),
        Ask::Look(_) | Ask::Fetch(_) | Ask::Apply(_) => plain(Reply::Refused(ReplyFault::NoMemory)),
    }
}

/// The answer to a request whose moment was taken.
pub fn answer_request<D: Desk>(alloc: Global, desk: &mut D, heard: &Request, now: u64) -> Answer
    requires asked { IsAskedRequest heard.now }
    requires bound { now ≤ LAST_MOMENT }
    ensures { (ask : Ask) × IsRequestAsk (D.facts.items (D.state desk.old)) heard.now ask
        × Answered D.facts (D.state desk.old) (Heard.asks heard.now) ask now result (D.state desk.new) }
{
    match heard {
        Request::Asked(q) => answer_lookup(alloc, desk, q, now),
        _ => {
            let ask = ask_of(desk.items().as_slice(), heard);
            answer_ask(alloc, desk, ask, heard, now)
        }
    }
}
