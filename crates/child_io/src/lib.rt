//! Children: programs that are started, written to, read from and waited for.
//!
//! It promises that a run starts one child with exactly the words it is given, writes it the input,
//! closes that, and then reads it with the limit of time that was asked; that its outcome is what the
//! child's script says, where the spawner or the child tells it; that a call which answers a fault
//! raises a count of faults, and that any other leaves it. A real child meets no limit of time yet.
#![tactic(auto)]

pub mod child;
pub mod laws;
pub mod lent;
pub mod memory;
pub mod pieces;
pub mod run;
pub mod system;
pub mod words;

pub use child::{Child, Heard, How, Outcome, Script, Spawner, StartFault};
pub use laws::one_outcome;
pub use memory::{MemoryChild, MemorySpawner};
pub use pieces::{Gathered, PieceEnd, Pieces};
pub use run::{run_pieces, run_whole};
pub use system::{OsChild, OsSpawner};
pub use words::{Since, folder_of, words_of, words_since};
