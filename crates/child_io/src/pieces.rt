// Who is handed a child's output, piece by piece.
ghost use Rattle.std.specs.Prelude.{◌≡◌, ℕ, List, [], ◌∷◌, ◌++◌, if◌then◌else◌, false};
ghost use Rattle.child_io.specs.Pieces.{HasRoomFor};

use crate::child::Outcome;
use dict_value::{Bytes, Exit};
use std::alloc::Global;

/// Who is handed the bytes of each read, in order.
pub trait Pieces {
    /// The type of what a piece leaves as it is.
    ghost Kept: { Type 0 };

    /// What a piece leaves as it is.
    ghost kept: { Self → Kept };

    /// It was handed these pieces.
    ghost took: { Self → List (List ℕ) → Type 0 };

    /// All pieces together have at most 4,294,967,295 bytes.
    fn take(&mut self, piece: &[u8])
        requires { HasRoomFor (took self.old) piece.now }
        ensures took { (pieces : List (List ℕ)) → took self.old pieces → took self.new (pieces ++ piece.now ∷ []) }
        ensures kept { kept self.new ≡ kept self.old };
}

/// How a child ended whose pieces were handed on.
#[derive(Clone, Copy, Debug, PartialEq, Eq)]
pub enum PieceEnd {
    NotStarted,
    WriteFailed,
    Cut { timed_out: bool },
    TooLong,
    WaitFailed,
    Ended(Exit),
    NoMemory,
}

/// All pieces as one list of bytes, and their number.
#[derive(Debug, Drop)]
pub struct Gathered {
    pub bytes: Bytes,
    pub pieces: u64,
    /// A piece found no memory; none is kept from then on.
    pub lost: bool,
}

impl Gathered {
    ghost use Rattle.child_io.specs.Gathers.{Gathers, gathered_outcome};

    pub fn new(alloc: Global) -> Gathered
        ensures none { Gathers result [] }
        ensures kept { result.lost ≡ false }
    {
        Gathered {
            bytes: Bytes::new(alloc),
            pieces: 0,
            lost: false,
        }
    }

    /// The outcome of a child that ended so, with the bytes.
    pub fn outcome(self, end: PieceEnd) -> Outcome
        ensures { result ≡ gathered_outcome self end }
    {
        let Gathered { bytes, lost, .. } = self;
        if lost {
            return Outcome::NoMemory;
        }
        match end {
            PieceEnd::NotStarted => Outcome::NotStarted,
            PieceEnd::WriteFailed => Outcome::WriteFailed,
            PieceEnd::Cut { timed_out } => Outcome::Cut { bytes, timed_out },
            PieceEnd::TooLong => Outcome::TooLong,
            PieceEnd::WaitFailed => Outcome::WaitFailed(bytes),
            PieceEnd::Ended(exit) => Outcome::Ended { bytes, exit },
            PieceEnd::NoMemory => Outcome::NoMemory,
        }
    }
}

impl Pieces for Gathered {
    ghost use Rattle.child_io.specs.Gathers.{Gathers};

    ghost Kept = { Unit {0} };

    ghost kept = { λ _. tt };

    ghost took = { Gathers };

    fn take(&mut self, piece: &[u8]) {
        self.pieces = self.pieces.saturating_add(1);
        if self.lost {
            return;
        }
        match self.bytes.extend(piece) {
            Ok(()) => {}
            Err(_) => self.lost = true,
        }
    }
}
