// Lookups in dictionaries whose rows are fetched by key, and calls of functions.
ghost use Rattle.std.specs.Prelude.{◌≡◌, ◌≤◌, All, Err, IfSome, List, Ok};
ghost use Rattle.dict_functions.specs.Asking.{IsLookup};
ghost use Rattle.dict_functions.specs.Calls.{AnswersCall, AreCallArguments, AreGiven, IsCall};
ghost use Rattle.dict_functions.specs.Keyed.{AnswersKeyed, AreFetched, AreKeys};
ghost use Rattle.dict_io.specs.declared.outside.TheConstants.{LAST_MOMENT};
ghost use Rattle.dict_schema.specs.Sound.{IsSound, IsSoundFunction, IsSoundItem};
ghost use Rattle.dict_schema.specs.declared.definition.Definition.{Definition as DefinitionOf};
ghost use Rattle.dict_schema.specs.declared.definition.FunctionDef.{FunctionDef as FunctionOf};
ghost use Rattle.dict_session.specs.Items.{IsFunctionItem, IsKeyedItem};
ghost use Rattle.dict_session.specs.Serving.{Answered};
ghost use Rattle.dict_value.specs.Memory.{UnlessNoMemory};
ghost use Rattle.dict_value.specs.declared.value.Value.{Value as ValueOf};
ghost use Rattle.wire_text.specs.RequestTexts.{Heard};
ghost use Rattle.wire_text.specs.declared.reply.Reply.TheVariants.{Refused};
ghost use Rattle.wire_text.specs.declared.reply.ReplyFault.TheVariants as fault;
ghost use Rattle.wire_text.specs.declared.request.Request.TheVariants as request;

use crate::answer::{Answer, plain};
use crate::ask::Ask;
use crate::desk::Desk;
use dict_functions::{answer_function, answer_keyed, keys_of, rows_of};
use dict_schema::{Definition, FunctionDef, Item, is_keyed};
use dict_value::{Fetched, KeyList, ListOf, Row, Value};
use std::alloc::Global;
use wire_text::{Asked, Reply, ReplyFault};

/// The dictionary at a place, where there is one whose rows are fetched by key.
fn keyed_at(items: &[Item], place: u32) -> Option<&Definition>
    requires sound { All IsSoundItem items.now }
    ensures here { IfSome result (λ d. IsKeyedItem items.now place d.now) }
    ensures sound { IfSome result (λ d. IsSound d.now) }
{
    match items.get(place as usize) {
        Some(Item::Dictionary(d)) if is_keyed(d) => Some(d),
        _ => None,
    }
}

/// The function at a place, where there is one.
fn function_at(items: &[Item], place: u32) -> Option<&FunctionDef>
    requires sound { All IsSoundItem items.now }
    ensures here { IfSome result (λ f. IsFunctionItem items.now place f.now) }
    ensures sound { IfSome result (λ f. IsSoundFunction f.now) }
{
    match items.get(place as usize) {
        Some(Item::Function(f)) => Some(f),
        _ => None,
    }
}

/// The keys of a lookup in the dictionary at a place, or why it is refused.
fn keys_at(
    alloc: Global,
    items: &[Item],
    place: u32,
    q: &Asked,
) -> Result<ListOf<KeyList>, ReplyFault>
    requires sound { All IsSoundItem items.now }
    requires lookup { IsLookup q.now }
    ensures { (d : DefinitionOf) → IsKeyedItem items.now place d
        → UnlessNoMemory (Err fault.NoMemory) result (AreKeys d q.now result) }
{
    match keyed_at(items, place) {
        Some(d) => keys_of(alloc, d, q),
        None => Err(ReplyFault::NoMemory),
    }
}

/// The answer from the rows that were fetched for those keys.
fn answer_rows(
    alloc: Global,
    items: &[Item],
    place: u32,
    q: &Asked,
    now: u64,
    rows: &Fetched,
) -> Reply
    requires sound { All IsSoundItem items.now }
    requires lookup { IsLookup q.now }
    requires rows { (d : DefinitionOf) → IsKeyedItem items.now place d
        → (keys : List (List ValueOf)) × AreKeys d q.now (Ok keys) × AreFetched d keys rows.now }
    ensures { (d : DefinitionOf) → IsKeyedItem items.now place d
        → UnlessNoMemory (Refused fault.NoMemory) result (AnswersKeyed d q.now now rows.now result) }
{
    match keyed_at(items, place) {
        Some(d) => answer_keyed(alloc, d, q, now, rows),
        None => Reply::Refused(ReplyFault::NoMemory),
    }
}

/// The answer to a lookup in a dictionary whose rows are fetched by key.
pub(crate) fn fetch<D: Desk>(alloc: Global, desk: &mut D, d: u32, q: &Asked, now: u64) -> Answer
    requires keyed { (definition : DefinitionOf) × IsKeyedItem (D.facts.items (D.state desk.old)) d definition }
    requires lookup { IsLookup q.now }
    requires bound { now ≤ LAST_MOMENT }
    ensures { Answered D.facts (D.state desk.old) (Heard.asks (request.Asked q.now)) (Ask.Fetch d) now result
        (D.state desk.new) }
{
    let keys = match keys_at(alloc, desk.items().as_slice(), d, q) {
        Ok(keys) => keys,
        Err(fault) => return plain(Reply::Refused(fault)),
    };
    match desk.keyed(alloc, d, now, keys.as_slice()) {
        Ok(rows) => plain(answer_rows(alloc, desk.items().as_slice(), d, q, now, &rows)),
        Err(fault) => plain(Reply::Refused(ReplyFault::Fetch(fault))),
    }
}

/// The rows of arguments of a call of the function at a place, or why it is refused.
fn rows_at(alloc: Global, items: &[Item], place: u32, q: &Asked) -> Result<ListOf<Row>, ReplyFault>
    requires sound { All IsSoundItem items.now }
    requires call { IsCall q.now }
    ensures { (f : FunctionOf) → IsFunctionItem items.now place f
        → UnlessNoMemory (Err fault.NoMemory) result (AreCallArguments f q.now result) }
{
    match function_at(items, place) {
        Some(f) => rows_of(alloc, f, q),
        None => Err(ReplyFault::NoMemory),
    }
}

/// The answer from the values that were given for those rows.
fn answer_values(
    alloc: Global,
    items: &[Item],
    place: u32,
    q: &Asked,
    values: &ListOf<Value>,
) -> Reply
    requires sound { All IsSoundItem items.now }
    requires call { IsCall q.now }
    requires given { (f : FunctionOf) → IsFunctionItem items.now place f
        → (rows : List (List ValueOf)) × AreCallArguments f q.now (Ok rows) × AreGiven f rows values.now }
    ensures { (f : FunctionOf) → IsFunctionItem items.now place f
        → UnlessNoMemory (Refused fault.NoMemory) result (AnswersCall f q.now values.now result) }
{
    match function_at(items, place) {
        Some(f) => answer_function(alloc, f, q, values),
        None => Reply::Refused(ReplyFault::NoMemory),
    }
}

/// The answer to a call of a function.
pub(crate) fn apply<D: Desk>(alloc: Global, desk: &mut D, f: u32, q: &Asked, now: u64) -> Answer
    requires function { (definition : FunctionOf) × IsFunctionItem (D.facts.items (D.state desk.old)) f definition }
    requires call { IsCall q.now }
    ensures { Answered D.facts (D.state desk.old) (Heard.asks (request.Asked q.now)) (Ask.Apply f) now result
        (D.state desk.new) }
{
    let rows = match rows_at(alloc, desk.items().as_slice(), f, q) {
        Ok(rows) => rows,
        Err(fault) => return plain(Reply::Refused(fault)),
    };
    match desk.call(alloc, f, rows.as_slice()) {
        Ok(values) => plain(answer_values(alloc, desk.items().as_slice(), f, q, &values)),
        Err(fault) => plain(Reply::Refused(ReplyFault::Call(fault))),
    }
}
