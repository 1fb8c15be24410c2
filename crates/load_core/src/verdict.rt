// How a world asks a judge.
ghost use Rattle.std.specs.Prelude.{◌≤◌, length, IfOk};
ghost use Rattle.load_core.specs.WorldSteps.{Judged, candidate, most_bytes};

use crate::dictionary::Ending;
use crate::flat::{TableFault, accept};
use crate::judge::{Judge, RowJudge};
use crate::world::WorldEntry;
use crate::world_rows::WorldColumns;
use dict_value::{Format, NoMemory};
use row_text::decode_rows;
use std::alloc::Global;

/// A judge whose verdict can be worked out.
pub trait Asked: Judge {
    /// What it says of a whole output, for a definition's number and the entries so far.
    fn ask(
        alloc: Global,
        definition: u32,
        entries: &[WorldEntry],
        text: &[u8],
    ) -> Result<Ending, NoMemory>
        requires { length text.now ≤ most_bytes }
        ensures { IfOk result (Judged Self.judges (candidate definition entries.now text.now)) };
}

impl Asked for RowJudge {
    fn ask(
        alloc: Global,
        _definition: u32,
        _entries: &[WorldEntry],
        text: &[u8],
    ) -> Result<Ending, NoMemory> {
        match accept(decode_rows(alloc, Format::Tab, &WorldColumns, text)) {
            Ok(_) => Ok(Ending::Rows),
            Err(TableFault::Refused(cause)) => Ok(Ending::Failed(cause)),
            Err(TableFault::NoMemory) => Err(NoMemory),
        }
    }
}
