// One child, from its start to its end.
ghost use Rattle.std.specs.Prelude.{◌≡◌, ◌≢◌, ◌<◌, ◌≤◌, ◌⊎◌, ℕ, List, [], length, false, IsErr, IsTrue};
ghost use Rattle.dict_io.specs.Outside.{HasCause};
ghost use Rattle.child_io.specs.Gathers.{HasWholeOutput};
ghost use Rattle.child_io.specs.Runs.{EndBroke, EndFails, HandsOn, order_of, RanChild, RanToEnd, RunTold};
ghost use Rattle.child_io.specs.Told.{StartsTold};
ghost use Rattle.child_io.specs.declared.child.How.{How};
ghost use Rattle.child_io.specs.declared.pieces.PieceEnd.{PieceEnd as EndOf};
ghost use Rattle.child_io.specs.steps.Fed.{FeedCalls, FeedTold};
ghost use Rattle.child_io.specs.steps.Heard.{HearCalls, HearsPieces, HearTold};

use crate::child::{Child, Heard, Outcome, Spawner, StartFault};
use crate::pieces::{Gathered, PieceEnd, Pieces};
use dict_io::{Failed, Put};
use dict_value::Bytes;
use std::alloc::Global;

#[cfg(test)]
mod tests;

/// The room that each read of a child offers.
pub const READ_ROOM: usize = 65_536;

/// Writes the whole input into a child.
fn feed<C: Child>(child: &mut C, input: &[u8]) -> Result<(), Failed>
    ensures told { FeedTold (C.told child.old) (C.told child.new) input.now result }
    ensures calls { FeedCalls C.history child.old input.now result child.new }
    ensures broke { IsErr result → C.broke How.Write }
    ensures some { IsErr result → input.now ≢ [] }
    ensures ended { C.ended child.new ≡ C.ended child.old }
    ensures cause { HasCause (C.faults child.old) (C.faults child.new) (IsErr result) }
{
    let mut done = 0;
    while done < input.len() {
        match child.write(&input[done..]) {
            Put::Bytes(count) => done += count,
            Put::Failed => return Err(Failed),
        }
    }
    Ok(())
}

/// Reads a child to its end, hands each read's bytes on, and waits for it.
fn hear<C: Child, P: Pieces>(child: &mut C, limit: u32, read_ms: u32, out: &mut P) -> PieceEnd
    requires closed { IsTrue (C.closed child.old) }
    requires open { C.ended child.old ≡ false }
    requires unheard { P.took out.old [] }
    ensures heard { HearsPieces (P.took out.new) limit (HearTold (C.told child.old) limit result)
        (HearCalls C.history child.old limit read_ms result child.new) }
    ensures kept { P.kept out.new ≡ P.kept out.old }
    ensures broke { EndBroke C.broke result }
    ensures cause { HasCause (C.faults child.old) (C.faults child.new) (EndFails result) }
    ensures started { result ≢ PieceEnd.NotStarted }
    ensures written { result ≢ PieceEnd.WriteFailed }
    ensures had_memory { result ≢ PieceEnd.NoMemory }
{
    let limit = limit as usize;
    let mut buf = [0; READ_ROOM];
    let mut total = 0;
    loop {
        match child.read(&mut buf, read_ms) {
            Heard::Bytes(count) => {
                if count > limit - total {
                    return PieceEnd::TooLong;
                }
                out.take(&buf[..count]);
                total += count;
            }
            Heard::End => {
                return match child.wait() {
                    Ok(exit) => PieceEnd::Ended(exit),
                    Err(_) => PieceEnd::WaitFailed,
                };
            }
            Heard::Failed => return PieceEnd::Cut { timed_out: false },
            Heard::TimedOut => return PieceEnd::Cut { timed_out: true },
        }
    }
}

/// Starts a child, writes the input, closes it, reads to the end, hands each read's bytes on in order,
/// and then waits for it. A piece that goes past the limit isn't handed on.
pub fn run_pieces<S: Spawner, P: Pieces>(
    spawner: &mut S,
    words: &[Bytes],
    input: &[u8],
    limit: u32,
    read_ms: u32,
    out: &mut P,
) -> PieceEnd
    requires { P.took out.old [] }
    ensures run { let order = order_of words.now input.now limit read_ms in
        HandsOn (P.took out.new) limit
        (RunTold (S.scripts spawner.old) (S.scripts spawner.new) input.now limit result)
        (RanChild S.started S.C.told S.C.history S.C.faults order spawner.old spawner.new result)
        (RanToEnd S.ran words.now result) }
    ensures kept { P.kept out.new ≡ P.kept out.old }
    ensures starts { StartsTold (S.starts spawner.old) words.now (S.starts spawner.new)
        ((result ≡ PieceEnd.NotStarted) ⊎ (result ≡ PieceEnd.NoMemory)) }
    ensures broke { EndBroke S.C.broke result }
    ensures cause { HasCause (S.start_faults spawner.old) (S.start_faults spawner.new) (result ≡ PieceEnd.NotStarted) }
    ensures written { result ≡ PieceEnd.WriteFailed → input.now ≢ [] }
    ensures not_started { result ≡ PieceEnd.NotStarted → out.new ≡ out.old }
    ensures no_memory { result ≡ PieceEnd.NoMemory → out.new ≡ out.old }
{
    let mut child = match spawner.start(words) {
        Ok(child) => child,
        Err(StartFault::Failed) => return PieceEnd::NotStarted,
        Err(StartFault::NoMemory) => return PieceEnd::NoMemory,
    };
    match feed(&mut child, input) {
        Ok(()) => {}
        Err(_) => return PieceEnd::WriteFailed,
    }
    child.close_input();
    hear(&mut child, limit, read_ms, out)
}

/// Starts a child, writes the input, closes it, reads to the end and then waits.
pub fn run_whole<S: Spawner>(
    alloc: Global,
    spawner: &mut S,
    words: &[Bytes],
    input: &[u8],
    limit: u32,
    read_ms: u32,
) -> Outcome
    ensures run { let order = order_of words.now input.now limit read_ms in
        (end : EndOf) × EndBroke S.C.broke end × HandsOn (HasWholeOutput result end) limit
        (RunTold (S.scripts spawner.old) (S.scripts spawner.new) input.now limit end)
        (RanChild S.started S.C.told S.C.history S.C.faults order spawner.old spawner.new end)
        (RanToEnd S.ran words.now end) }
    ensures starts { StartsTold (S.starts spawner.old) words.now (S.starts spawner.new)
        ((result ≡ Outcome.NotStarted) ⊎ (result ≡ Outcome.NoMemory)) }
    ensures cause { HasCause (S.start_faults spawner.old) (S.start_faults spawner.new) (result ≡ Outcome.NotStarted) }
{
    let mut gathered = Gathered::new(alloc);
    let end = run_pieces(spawner, words, input, limit, read_ms, &mut gathered);
    gathered.outcome(end)
}
