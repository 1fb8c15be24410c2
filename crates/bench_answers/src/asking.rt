// The lookups that are asked.
ghost use Rattle.std.specs.Prelude.{◌≡◌, ◌≤◌, All, IfOk, IfSome, length};
ghost use Rattle.dict_functions.specs.Asking.{IsLookup};
ghost use Rattle.wire_text.specs.declared.request.Request.TheVariants as Request;

use crate::kinds::Kind;
use crate::rows;
use dict_value::{Bytes, ListOf, NoMemory};
use std::alloc::Global;
use wire_text::{Asked, Request, Verb, read_request};

/// How many keys a batch has, all in one block or each in a request of its own.
pub const BATCH: u32 = 4_096;

/// What is asked: the dictionary, how, and of how many rows.
#[derive(Clone, Copy)]
pub struct Batch {
    pub kind: Kind,
    pub single: bool,
    pub rows: u32,
}

/// A line that may be one of a request; one that is too long is taken for want of memory.
fn line_of(alloc: Global, front: &[u8], key: &[u8]) -> Result<Bytes, NoMemory>
    ensures { IfOk result (λ line. length line ≤ 65536) }
{
    let mut line = Bytes::with_room(alloc, front.len().saturating_add(key.len()))?;
    line.extend(front)?;
    line.extend(key)?;
    if line.len() > 65_536 {
        return Err(NoMemory);
    }
    Ok(line)
}

/// The lines of a batch's keys, scattered over the rows, each behind the same bytes.
fn key_lines(
    alloc: Global,
    batch: Batch,
    number: u32,
    front: &[u8],
) -> Result<ListOf<Bytes>, NoMemory>
    ensures { IfOk result (All (λ line. length line ≤ 65536)) }
{
    let mut lines = ListOf::with_room(alloc, BATCH as usize)?;
    for place in 0..BATCH {
        let drawn = rows::scattered(u64::from(number) << 32 | u64::from(place) | 1 << 63);
        let row = (drawn % u64::from(batch.rows).max(1)) as u32;
        let key = rows::key_line(alloc, batch.kind, row)?;
        lines.push(line_of(alloc, front, key.as_slice())?)?;
    }
    Ok(lines)
}

/// What a request asks, where it is a lookup or a call.
fn asked_in(request: Request) -> Option<Asked>
    ensures { IfSome result (λ asked. request ≡ Request.Asked asked) }
{
    match request {
        Request::Asked(asked) => Some(asked),
        _ => None,
    }
}

/// The lookup that lines ask for.
fn lookup_of(alloc: Global, first: &[u8], more: &[Bytes]) -> Result<Asked, NoMemory>
    requires first { length first.now ≤ 65536 }
    requires more { All (λ line. length line ≤ 65536) more.now }
    ensures { IfOk result IsLookup }
{
    if more.len() > BATCH as usize {
        return Err(NoMemory);
    }
    let Ok(request) = read_request(alloc, first, more) else {
        return Err(NoMemory);
    };
    let Some(asked) = asked_in(request) else {
        return Err(NoMemory);
    };
    match asked.verb {
        Verb::Call => Err(NoMemory),
        _ => Ok(asked),
    }
}

/// A request of each line.
fn each_one(alloc: Global, lines: &ListOf<Bytes>) -> Result<ListOf<Asked>, NoMemory>
    requires { All (λ line. length line ≤ 65536) lines.now }
    ensures { IfOk result (All IsLookup) }
{
    let mut asked = ListOf::with_room(alloc, lines.len())?;
    for place in 0..lines.len() {
        let line = lines.as_slice()[place].as_slice();
        asked.push(lookup_of(alloc, line, &[])?)?;
    }
    Ok(asked)
}

/// The requests of a batch, by its number.
pub fn requests(alloc: Global, batch: Batch, number: u32) -> Result<ListOf<Asked>, NoMemory>
    ensures { IfOk result (All IsLookup) }
{
    if batch.single {
        let lines = key_lines(alloc, batch, number, b"dictGet\td\tx\t")?;
        return each_one(alloc, &lines);
    }
    let lines = key_lines(alloc, batch, number, b"")?;
    let first = line_of(alloc, b"many\t4096\tdictGet\td\tx", b"")?;
    let mut asked = ListOf::with_room(alloc, 1)?;
    asked.push(lookup_of(alloc, first.as_slice(), lines.as_slice())?)?;
    Ok(asked)
}
