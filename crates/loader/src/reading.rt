// The child of a load: it is started, read to its end, and judged.
ghost use Rattle.std.specs.Prelude.{◌≡◌, ◌≢◌, ◌≤◌, [], false, length, pos, IsErrOf};
ghost use Rattle.dict_io.specs.Outside.{HasCause};
ghost use Rattle.dict_schema.specs.Shapes.{shape_of};
ghost use Rattle.load_core.specs.declared.dictionary.Phase.TheVariants.{Reading};
ghost use Rattle.rows_typed.specs.Fits.{HasFittingDefaults};
ghost use Rattle.loader.specs.Loaders.{RunsOne};
ghost use Rattle.loader.specs.steps.Readings.{IsDecoded, IsChildJudged, ReadsChild};

use crate::fault::LoadFault;
use child_io::{Gathered, PieceEnd, Pieces, Spawner, run_pieces};
use dict_schema::{Definition, Shape};
use dict_value::{Bytes, Cause, Exit};
use load_core::{DictCore, DictEvent};
use packed_rows::Rows;
use rows_typed::{DecodeFault, decode};
use std::alloc::Global;

/// Takes a child's output, and steps the core by one piece for each read.
#[derive(Drop)]
struct LoadPieces {
    core: DictCore,
    gathered: Gathered,
    ghost reading: { core.phase ≡ Reading },
}

impl Pieces for LoadPieces {
    ghost use Rattle.child_io.specs.Gathers.{Gathers};
    ghost use Rattle.load_core.specs.declared.dictionary.DictCore.{DictCore};

    ghost Kept = { DictCore };

    ghost kept = { λ p. p.core };

    ghost took = { λ p pieces. Gathers p.gathered pieces };

    fn take(&mut self, piece: &[u8]) {
        self.core.step(DictEvent::Piece(piece.len() as u32));
        self.gathered.take(piece);
    }
}

/// The rows of a whole output.
fn read_rows(alloc: Global, d: &Definition, shape: &Shape, output: &[u8]) -> Result<Rows, LoadFault>
    requires shape { shape.now ≡ shape_of d.now }
    requires few { length output.now ≤ 4294967295 }
    requires columns { length shape.now ≤ 4294967295 }
    requires defaults { HasFittingDefaults shape.now }
    ensures { IsDecoded d.now output.now result }
{
    match decode(alloc, shape, d.source.format, output) {
        Ok(rows) => Ok(rows),
        Err(DecodeFault::Bad(bad)) => Err(LoadFault::Refused(Cause::Row(bad))),
        Err(DecodeFault::TooMany) => Err(LoadFault::Refused(Cause::Rows)),
        Err(DecodeFault::NoMemory) => Err(LoadFault::NoMemory),
    }
}

/// What a child gives that printed this and ended with status 0.
fn judge_output(
    alloc: Global,
    d: &Definition,
    shape: &Shape,
    gathered: &Gathered,
) -> Result<Rows, LoadFault>
    requires shape { shape.now ≡ shape_of d.now }
    requires few { gathered.now.lost ≡ false → length gathered.now.bytes ≤ 4294967295 }
    requires columns { length shape.now ≤ 4294967295 }
    requires defaults { HasFittingDefaults shape.now }
    ensures { IsChildJudged d.now gathered.now (PieceEnd.Ended (Exit.Code (pos 0))) result }
{
    if gathered.lost {
        return Err(LoadFault::NoMemory);
    }
    read_rows(alloc, d, shape, gathered.bytes.as_slice())
}

/// What a child gives that printed this and had this exit.
fn judge_exit(
    alloc: Global,
    d: &Definition,
    shape: &Shape,
    gathered: &Gathered,
    exit: Exit,
) -> Result<Rows, LoadFault>
    requires shape { shape.now ≡ shape_of d.now }
    requires few { gathered.now.lost ≡ false → length gathered.now.bytes ≤ 4294967295 }
    requires columns { length shape.now ≤ 4294967295 }
    requires defaults { HasFittingDefaults shape.now }
    ensures { IsChildJudged d.now gathered.now (PieceEnd.Ended exit) result }
{
    match exit {
        Exit::Killed => Err(LoadFault::Refused(Cause::Killed)),
        Exit::Code(status) => {
            if status != 0 {
                return Err(LoadFault::Refused(Cause::Status(status)));
            }
            judge_output(alloc, d, shape, gathered)
        }
    }
}

/// What a child gives that printed this and ended so.
fn judge(
    alloc: Global,
    d: &Definition,
    shape: &Shape,
    gathered: &Gathered,
    end: PieceEnd,
) -> Result<Rows, LoadFault>
    requires shape { shape.now ≡ shape_of d.now }
    requires few { gathered.now.lost ≡ false → length gathered.now.bytes ≤ 4294967295 }
    requires columns { length shape.now ≤ 4294967295 }
    requires defaults { HasFittingDefaults shape.now }
    requires written { end ≢ PieceEnd.WriteFailed }
    ensures { IsChildJudged d.now gathered.now end result }
{
    match end {
        PieceEnd::NotStarted => Err(LoadFault::Refused(Cause::Start)),
        PieceEnd::WriteFailed => unreachable!(),
        PieceEnd::Cut { timed_out: true } => Err(LoadFault::Refused(Cause::TimedOut)),
        PieceEnd::Cut { timed_out: false } => Err(LoadFault::Refused(Cause::Read)),
        PieceEnd::TooLong => Err(LoadFault::Refused(Cause::Longer(d.max_output))),
        PieceEnd::WaitFailed => Err(LoadFault::Refused(Cause::Read)),
        PieceEnd::NoMemory => Err(LoadFault::NoMemory),
        PieceEnd::Ended(exit) => judge_exit(alloc, d, shape, gathered, exit),
    }
}

/// Starts a child without input, reads it to its end, and judges what it gives.
pub(crate) fn read_child<S: Spawner>(
    alloc: Global,
    spawner: &mut S,
    words: &[Bytes],
    d: &Definition,
    shape: &Shape,
    core: &mut DictCore,
) -> Result<Rows, LoadFault>
    requires reading { core.old.phase ≡ Reading }
    requires output { d.now.max_output ≤ 134217728 }
    requires shape { shape.now ≡ shape_of d.now }
    requires columns { length shape.now ≤ 4294967295 }
    requires defaults { HasFittingDefaults shape.now }
    ensures core { core.new ≡ core.old }
    ensures read { let runs = RunsOne S.scripts S.starts S.started S.C.told S.C.history S.C.faults d.now spawner.old
        spawner.new in ReadsChild runs S.ran d.now words.now result }
    ensures cause { HasCause (S.start_faults spawner.old) (S.start_faults spawner.new)
        (IsErrOf result (LoadFault.Refused Cause.Start)) }
{
    let mut taken = LoadPieces {
        core: *core,
        gathered: Gathered::new(alloc),
    };
    let end = run_pieces(
        spawner,
        words,
        &[],
        d.max_output,
        d.source.read_ms,
        &mut taken,
    );
    *core = taken.core;
    judge(alloc, d, shape, &taken.gathered, end)
}
