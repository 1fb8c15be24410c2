// What holds of every script, whatever is called.
ghost use Rattle.std.specs.Prelude.{◌≡◌, ℕ, List};
ghost use Rattle.child_io.specs.Outcomes.{IsOutcome};
ghost use Rattle.child_io.specs.declared.child.Script.{Script};
ghost use Rattle.child_io.specs.declared.pieces.PieceEnd.{PieceEnd};

/// A script has one outcome, whatever input it gets and however many bytes may be read of it.
pub fn one_outcome()
    ensures some { (s : Script) (input : List ℕ) (limit : ℕ)
        → (pieces : List (List ℕ)) × ((end : PieceEnd) × IsOutcome s input limit pieces end) }
    ensures pieces { (s : Script) (input : List ℕ) (limit : ℕ) (pieces others : List (List ℕ)) (end other : PieceEnd)
        → IsOutcome s input limit pieces end → IsOutcome s input limit others other → pieces ≡ others }
    ensures end { (s : Script) (input : List ℕ) (limit : ℕ) (pieces others : List (List ℕ)) (end other : PieceEnd)
        → IsOutcome s input limit pieces end → IsOutcome s input limit others other → end ≡ other }
{}
