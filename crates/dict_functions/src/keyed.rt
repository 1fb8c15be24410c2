// Lookups in a dictionary whose rows are fetched by key.
ghost use Rattle.std.specs.Prelude.{◌≡◌, ◌≢◌, ◌<◌, ◌^◌, All, Err, IfOk, IsTrue, List, MatchResult, Ok, false};
ghost use Rattle.std.specs.Prelude.{length, ⊤};
ghost use Rattle.std.specs.List.{AllZip};
ghost use Rattle.cache_layout.specs.Fetching.{FitsReply};
ghost use Rattle.dict_schema.specs.Parts.{is_keyed_layout};
ghost use Rattle.dict_schema.specs.Sound.{IsSound};
ghost use Rattle.dict_value.specs.Memory.{UnlessNoMemory};
ghost use Rattle.dict_value.specs.declared.value.MaybeRow.TheVariants.{Present};
ghost use Rattle.dict_value.specs.declared.value.Value.{Value as ValueOf};
ghost use Rattle.dict_functions.specs.Asking.{IsLookup, asks_attribute, asks_hierarchy};
ghost use Rattle.dict_functions.specs.Keyed.{AnswersKeyed, AreFetched, AreKeys, IsFetchedAttribute, IsKeyedLine};
ghost use Rattle.dict_functions.specs.Keyed.{fetched_place, is_present, moment_told};
ghost use Rattle.dict_functions.specs.Refusals.{IsFitting, IsUnfitting};
ghost use Rattle.dict_functions.specs.Values.{flag};
ghost use Rattle.dict_functions.specs.steps.Lines.{IsFetchedOf, rows_fault};
ghost use Rattle.wire_text.specs.declared.reply.Reply.TheVariants.{Refused};
ghost use Rattle.wire_text.specs.declared.reply.ReplyFault.TheVariants as fault;
ghost use Rattle.wire_text.specs.declared.request.Verb.TheVariants as verb;

use crate::asking::{Attribute, asks_hierarchy, attribute_of};
use crate::keys::key_types;
use crate::lines::{LineFault, OfLine, each_line};
use crate::replies::{flag, print_value, reply_of};
use crate::sending::{RowsFault, rows_from};
use dict_schema::{Column, Definition};
use dict_value::{Bytes, Fetched, FetchedRow, KeyList, ListOf, MaybeRow, NoMemory, Row};
use dict_version::attribute_place;
use std::alloc::Global;
use wire_text::{Asked, Line, Mark, Reply, ReplyFault, Verb};

/// Whether an attribute is asked for that is there, with a default that fits; else why the lookup is refused.
fn fits_attribute(alloc: Global, d: &Definition, q: &Asked) -> Result<(), ReplyFault>
    requires verb { IsTrue (asks_attribute q.now.verb) }
    requires sound { IsSound d.now }
    ensures { UnlessNoMemory (Err fault.NoMemory) result
        (MatchResult result (λ _. IsFitting d.now q.now) (IsUnfitting d.now q.now)) }
{
    let _attribute = match attribute_of(alloc, d, q) {
        Ok(attribute) => attribute,
        Err(fault) => return Err(fault),
    };
    Ok(())
}

/// Whether a lookup fits a dictionary whose rows are fetched by key; else why it is refused.
fn fits_keyed(alloc: Global, d: &Definition, q: &Asked) -> Result<(), ReplyFault>
    requires lookup { IsLookup q.now }
    requires sound { IsSound d.now }
    requires keyed { IsTrue (is_keyed_layout d.now.layout) }
    ensures { UnlessNoMemory (Err fault.NoMemory) result
        (MatchResult result (λ _. IsFitting d.now q.now) (IsUnfitting d.now q.now)) }
{
    if asks_hierarchy(q.verb) {
        return Err(ReplyFault::WrongLayout);
    }
    match q.verb {
        Verb::Has => Ok(()),
        _ => fits_attribute(alloc, d, q),
    }
}

/// Why a lookup is refused whose lines write no keys that can be fetched.
fn keys_fault(unsent: RowsFault) -> ReplyFault
    ensures { result ≡ rows_fault fault.BadKey unsent }
{
    match unsent {
        RowsFault::Unread(line) => ReplyFault::BadKey(line),
        RowsFault::TooLong => ReplyFault::TooLarge,
        RowsFault::NoMemory => ReplyFault::NoMemory,
    }
}

/// The keys of a lookup in a dictionary whose rows are fetched by key. It is refused where it asks for a hierarchy, for
/// an attribute that isn't there or with a default that is none of its values, then for the first line that writes no
/// key, and then where a key is too long to be sent, in this order.
pub fn keys_of(alloc: Global, d: &Definition, q: &Asked) -> Result<ListOf<KeyList>, ReplyFault>
    requires lookup { IsLookup q.now }
    requires sound { IsSound d.now }
    requires keyed { IsTrue (is_keyed_layout d.now.layout) }
    // Only want of memory may stand in place of the keys, or of the first refusal.
    ensures { UnlessNoMemory (Err fault.NoMemory) result (AreKeys d.now q.now result) }
{
    if let Err(fault) = fits_keyed(alloc, d, q) {
        return Err(fault);
    }
    let Ok(types) = key_types(alloc, d) else {
        return Err(ReplyFault::NoMemory);
    };
    match rows_from(alloc, d.source.format, types.as_slice(), &q.lines) {
        Ok(keys) => Ok(keys),
        Err(fault) => Err(keys_fault(fault)),
    }
}

/// The place in a fetched row of the attribute that is this column.
fn fetched_place(d: &Definition, column: u32) -> u32
    requires sound { IsSound d.now }
    requires within { column < length d.now.columns }
    ensures { result ≡ fetched_place d.now column }
{
    let place = attribute_place(d, column);
    if d.source.implicit {
        (place as usize - d.keys.len()) as u32
    } else {
        place
    }
}

/// What a lookup of an attribute makes of each fetched row.
#[derive(Clone, Copy)]
struct FetchedOf<'a> {
    d: &'a Definition,
    q: &'a Asked,
    attribute: &'a Attribute,
    column: &'a Column,
    /// The attribute's place in a fetched row.
    cell: u32,
}

impl FetchedOf<'_> {
    /// The text of the attribute in a row that was fetched.
    fn cell_text(&self, alloc: Global, row: &Row) -> Result<Bytes, NoMemory>
        requires of { IsFetchedOf self.now.d.now self.now.q.now self.now.attribute.now self.now.column.now
            self.now.cell }
        requires fits { FitsReply self.now.d.now (Present row.now) }
        ensures { IfOk result (IsFetchedAttribute self.now.d.now self.now.q.now (Present row.now)) }
    {
        let mut text = Bytes::new(alloc);
        match print_value(
            &self.column.ty,
            &row.as_slice()[self.cell as usize],
            &mut text,
        ) {
            Ok(()) => Ok(text),
            Err(_) => Err(NoMemory),
        }
    }

    /// The text of the attribute in a row that may have been fetched, or of what stands in for it.
    fn text_of(&self, alloc: Global, row: &MaybeRow) -> Result<Bytes, NoMemory>
        requires of { IsFetchedOf self.now.d.now self.now.q.now self.now.attribute.now self.now.column.now
            self.now.cell }
        requires fits { FitsReply self.now.d.now row.now }
        ensures { IfOk result (IsFetchedAttribute self.now.d.now self.now.q.now row.now) }
    {
        match row {
            MaybeRow::Absent => Bytes::copy_of(alloc, self.attribute.missing.as_slice()),
            MaybeRow::Present(row) => self.cell_text(alloc, row),
        }
    }
}

impl OfLine for FetchedOf<'_> {
    type Item = FetchedRow;

    type Made = Line;

    ghost takes = { λ of fetched. IsFetchedOf of.d.now of.q.now of.attribute.now of.column.now of.cell
        × FitsReply of.d.now fetched.row };

    ghost reads = { λ of fetched. ⊤ };

    ghost makes = { λ of fetched line. (line.moment ≡ fetched.moment)
        × IsFetchedAttribute of.d.now of.q.now fetched.row line.text };

    fn make(&self, alloc: Global, fetched: &FetchedRow) -> Result<Line, LineFault> {
        match self.text_of(alloc, &fetched.row) {
            Ok(text) => Ok(Line {
                moment: fetched.moment,
                text,
            }),
            Err(_) => Err(LineFault::NoMemory),
        }
    }
}

/// What the question whether a row has a key makes of each fetched row.
#[derive(Clone, Copy)]
struct PresentOf;

impl OfLine for PresentOf {
    type Item = FetchedRow;

    type Made = Line;

    ghost takes = { λ of fetched. ⊤ };

    ghost reads = { λ of fetched. ⊤ };

    ghost makes = { λ of fetched line. (line.moment ≡ fetched.moment) × (line.text ≡ flag (is_present fetched.row)) };

    fn make(&self, alloc: Global, fetched: &FetchedRow) -> Result<Line, LineFault> {
        match Bytes::copy_of(alloc, flag(is_present(&fetched.row))) {
            Ok(text) => Ok(Line {
                moment: fetched.moment,
                text,
            }),
            Err(_) => Err(LineFault::NoMemory),
        }
    }
}

/// Whether there is a row.
fn is_present(row: &MaybeRow) -> bool
    ensures { result ≡ is_present row.now }
{
    matches!(row, MaybeRow::Present(_))
}

/// The lines of a lookup of an attribute.
fn fetched_lines(
    alloc: Global,
    d: &Definition,
    q: &Asked,
    rows: &Fetched,
) -> Result<ListOf<Line>, NoMemory>
    requires verb { IsTrue (asks_attribute q.now.verb) }
    requires sound { IsSound d.now }
    requires few { length rows.now < 2 ^ 32 }
    requires fit { All (λ fetched. FitsReply d.now fetched.row) rows.now }
    ensures { IfOk result (AllZip (IsKeyedLine d.now q.now) rows.now) }
{
    // The lookup fits, so it is only memory that can be wanted here.
    let Ok(attribute) = attribute_of(alloc, d, q) else {
        return Err(NoMemory);
    };
    let of = FetchedOf {
        d,
        q,
        attribute: &attribute,
        column: &d.columns.as_slice()[attribute.place as usize],
        cell: fetched_place(d, attribute.place),
    };
    match each_line(alloc, &of, rows) {
        Ok(lines) => Ok(lines),
        Err(_) => Err(NoMemory),
    }
}

/// The lines of the question whether rows have keys.
fn present_lines(
    alloc: Global,
    d: &Definition,
    q: &Asked,
    rows: &Fetched,
) -> Result<ListOf<Line>, NoMemory>
    requires verb { q.now.verb ≡ verb.Has }
    requires few { length rows.now < 2 ^ 32 }
    ensures { IfOk result (AllZip (IsKeyedLine d.now q.now) rows.now) }
{
    match each_line(alloc, &PresentOf, rows) {
        Ok(lines) => Ok(lines),
        Err(_) => Err(NoMemory),
    }
}

/// The lines of a lookup.
fn keyed_lines(
    alloc: Global,
    d: &Definition,
    q: &Asked,
    rows: &Fetched,
) -> Result<ListOf<Line>, NoMemory>
    requires apart { asks_hierarchy q.now.verb ≡ false }
    requires lookup { q.now.verb ≢ verb.Call }
    requires sound { IsSound d.now }
    requires few { length rows.now < 2 ^ 32 }
    requires fit { All (λ fetched. FitsReply d.now fetched.row) rows.now }
    ensures { IfOk result (AllZip (IsKeyedLine d.now q.now) rows.now) }
{
    match q.verb {
        Verb::Has => present_lines(alloc, d, q, rows),
        _ => fetched_lines(alloc, d, q, rows),
    }
}

/// The moment of a reply: that of the request for a block, and that of the one fetch for a single lookup.
fn moment_told(block: bool, now: u64, rows: &Fetched) -> u64
    ensures { result ≡ moment_told block now rows.now }
{
    if !block && rows.len() == 1 {
        return rows.as_slice()[0].moment;
    }
    now
}

/// The answer at a moment to a lookup in a dictionary whose rows are fetched by key, from what was fetched for its
/// keys.
pub fn answer_keyed(alloc: Global, d: &Definition, q: &Asked, now: u64, rows: &Fetched) -> Reply
    requires lookup { IsLookup q.now }
    requires sound { IsSound d.now }
    requires keyed { IsTrue (is_keyed_layout d.now.layout) }
    // The rows are what a fetch promises for the keys of the lookup.
    requires rows { (keys : List (List ValueOf)) × AreKeys d.now q.now (Ok keys)
        × AreFetched d.now keys rows.now }
    // Only want of memory may stand in place of the answer.
    ensures { UnlessNoMemory (Refused fault.NoMemory) result (AnswersKeyed d.now q.now now rows.now result) }
{
    match keyed_lines(alloc, d, q, rows) {
        Ok(lines) => reply_of(
            q.block,
            Mark::Moment(moment_told(q.block, now, rows)),
            lines,
        ),
        Err(_) => Reply::Refused(ReplyFault::NoMemory),
    }
}
