// Requests, as they stand next on a link.
ghost use Rattle.std.specs.Prelude.{◌≡◌, ◌<◌, ◌≤◌, ◌++◌, ◌∷◌, [], ℕ, List, All, length, IfOk, false};
ghost use Rattle.dict_value.specs.declared.letters.TheConstants.{LINE_FEED};
ghost use Rattle.line_reader.specs.Reading.{IsLine};
ghost use Rattle.request_reader.specs.Taking.{BlockReads, IsHeardAs, IsLargeAs, TakesRequest};
ghost use Rattle.wire_text.specs.Requests.{LinesAfter};

use crate::further::{Further, More, read_more};
use dict_io::Link;
use dict_value::{Bytes, NoMemory};
use line_reader::{Lines, Next};
use std::alloc::Global;
use wire_text::{
    MOST_BLOCK_BYTES, MOST_BLOCK_LINES, Request, RequestFault, heads_block, is_quit, lines_after,
    read_request,
};

/// What was read in the lines of a request.
#[derive(Debug, Drop)]
pub enum Asking {
    Asks(Request),
    /// They have no reading.
    Bad,
    /// They are more, or have more bytes, than a request may have.
    TooLarge,
    /// Memory lacked for reading them, and whether they end the session.
    NoMemory(bool),
}

/// What stands next.
#[derive(Debug, Drop)]
pub enum Taken {
    /// A request, and whether the input ended with it.
    Request { asking: Asking, last: bool },
    End,
    TooLong,
    Failed,
}

/// What the line of a request that is no block asks for.
fn read_single(alloc: Global, line: &[u8]) -> Asking
    requires { length line.now ≤ 65537 }
    ensures { IsHeardAs line.now [] 0 [] result }
{
    match read_request(alloc, line, &[]) {
        Ok(request) => Asking::Asks(request),
        Err(RequestFault::Bad) => Asking::Bad,
        Err(RequestFault::NoMemory) => Asking::NoMemory(is_quit(line)),
    }
}

/// What the first line of a block that is too large says.
fn read_large(alloc: Global, first: &[u8]) -> Asking
    requires { length first.now ≤ 65537 }
    ensures { IsLargeAs first.now result }
{
    match heads_block(alloc, first) {
        Ok(true) => Asking::TooLarge,
        Ok(false) => Asking::Bad,
        Err(_) => Asking::NoMemory(false),
    }
}

/// What a block asks for, all of whose lines were there or not.
fn read_block(alloc: Global, first: &[u8], count: u32, further: &Further, all: bool) -> Asking
    requires short { length first.now ≤ 65537 }
    requires lines { All (λ line. length line ≤ 65537) further.now.lines }
    requires some { 0 < count }
    ensures { BlockReads first.now count further.now all result }
{
    if count > MOST_BLOCK_LINES || further.bytes > u64::from(MOST_BLOCK_BYTES) {
        return read_large(alloc, first);
    }
    if !all {
        return Asking::Bad;
    }
    if !further.kept {
        return Asking::NoMemory(false);
    }
    match read_request(alloc, first, further.lines.as_slice()) {
        Ok(request) => Asking::Asks(request),
        Err(RequestFault::Bad) => Asking::Bad,
        Err(RequestFault::NoMemory) => Asking::NoMemory(false),
    }
}

/// What a block asks for whose first line was kept, where memory was found for it.
fn read_kept(
    alloc: Global,
    first: &Result<Bytes, NoMemory>,
    count: u32,
    further: &Further,
    all: bool,
) -> Asking
    requires short { IfOk first.now (λ line. length line ≤ 65537) }
    requires lines { All (λ line. length line ≤ 65537) further.now.lines }
    requires some { 0 < count }
    ensures { (line : List ℕ) → IfOk first.now (λ kept. kept ≡ line) → BlockReads line count further.now all result }
{
    match first {
        Ok(first) => read_block(alloc, first.as_slice(), count, further, all),
        Err(_) => Asking::NoMemory(false),
    }
}

/// Takes a block whose first line was taken.
fn take_block<L: Link>(
    alloc: Global,
    lines: &mut Lines,
    link: &mut L,
    first: Result<Bytes, NoMemory>,
    count: u32,
) -> Taken
    requires open { (L.ends link.old).reads.ended ≡ false }
    requires short { IfOk first (λ line. length line ≤ 65537) }
    requires some { 0 < count }
    ensures { (line : List ℕ) → IfOk first (λ kept. kept ≡ line) → IsLine line → LinesAfter line count
        → TakesRequest (line ++ LINE_FEED ∷ lines.old.ahead) (L.ends link.old) result
        lines.new.ahead (L.ends link.new) }
{
    match read_more(alloc, lines, link, count) {
        More::All(further) => Taken::Request {
            asking: read_kept(alloc, &first, count, &further, true),
            last: false,
        },
        More::Closed { further, all } => Taken::Request {
            asking: read_kept(alloc, &first, count, &further, all),
            last: true,
        },
        More::TooLong => Taken::TooLong,
        More::Failed => Taken::Failed,
    }
}

/// What the last line of the input asks for, behind which no line follows.
fn read_last(alloc: Global, line: &[u8], count: u32) -> Asking
    requires short { length line.now ≤ 65537 }
    ensures { IsHeardAs line.now [] count [] result }
{
    if count == 0 {
        read_single(alloc, line)
    } else {
        read_block(alloc, line, count, &Further::new(alloc), false)
    }
}

/// Takes the next request of a link.
pub fn next_request<L: Link>(alloc: Global, lines: &mut Lines, link: &mut L) -> Taken
    requires { (L.ends link.old).reads.ended ≡ false }
    ensures { TakesRequest lines.old.ahead (L.ends link.old) result lines.new.ahead (L.ends link.new) }
{
    match lines.next_of(link) {
        Next::Whole => {
            let count = lines_after(lines.line());
            if count == 0 {
                return Taken::Request {
                    asking: read_single(alloc, lines.line()),
                    last: false,
                };
            }
            let first = Bytes::copy_of(alloc, lines.line());
            take_block(alloc, lines, link, first, count)
        }
        Next::Last => {
            let count = lines_after(lines.line());
            Taken::Request {
                asking: read_last(alloc, lines.line(), count),
                last: true,
            }
        }
        Next::End => Taken::End,
        Next::TooLong => Taken::TooLong,
        Next::Failed => Taken::Failed,
    }
}

#[cfg(test)]
mod tests;
