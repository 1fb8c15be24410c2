// What holds of the acts of every desk, whatever is called.
ghost use Rattle.std.specs.Prelude.{◌≡◌, ◌++◌, ◌∷◌, [], ℕ, List, IfOk, Result, Some};
ghost use Rattle.dict_io.specs.Links.{Ends};
ghost use Rattle.dict_session.specs.Acts.{DeskCall, Entered};
ghost use Rattle.dict_session.specs.Facts.{Grows};
ghost use Rattle.dict_session.specs.Floors.{Moved};
ghost use Rattle.dict_session.specs.Found.{AllFound, AreFullyLoaded, AreOne, IsByInput, heards};
ghost use Rattle.dict_session.specs.Session.{SessionEnds, all_acts, place};
ghost use Rattle.dict_session.specs.declared.session.SessionEnd.{SessionEnd};
ghost use Rattle.dict_version.specs.Contents.{Contents};
ghost use Rattle.load_core.specs.declared.caller.CallerCore.{CallerCore};
ghost use Rattle.version_slot.specs.Views.{Entered as Seen, IsNewestOf};
ghost use Rattle.version_slot.specs.declared.seen.EnterFault.{EnterFault};

use crate::desk::Desk;

/// Acts that lead on from where others led: what was seen stands in the views at the end, and the numbers never fall
/// along both.
pub fn acts_follow<D: Desk>()
    ensures { (s t u : D.State) (acts later : List DeskCall) → Moved D.facts s acts t → Moved D.facts t later u
        → Moved D.facts s (acts ++ later) u }
{}

/// What an entering sees is not below the numbers that were seen, told or published before it.
pub fn an_entering_keeps_floors<D: Desk>()
    ensures { (s t : D.State) (d : ℕ) (answer : Result (Seen Contents) EnterFault)
        → D.facts.did s (Entered d answer) t → Grows D.facts s t → IfOk answer (IsNewestOf (D.facts.view t d))
        → Moved D.facts s (Entered d answer ∷ []) t }
{}

/// An input that is told makes one list of requests and one end, over whatever desks: of two sessions over it that
/// ended by it, and in which memory was found for each reply, the same was heard, request by request.
pub fn one_list_heard<D: Desk>()
    ensures { (s t u v : D.State) (old new before after : Ends) (ended other : SessionEnd)
        (cores later kept left : List CallerCore) (input : List ℕ)
        (a : SessionEnds D.facts s (place [] old) ended t new cores later)
        (b : SessionEnds D.facts u (place [] before) other v after kept left)
        → old.reads.known ≡ Some input → before.reads.known ≡ Some input → IsByInput ended → IsByInput other
        → AllFound a.run.exchanges → AllFound b.run.exchanges
        → (heards a.run.exchanges ≡ heards b.run.exchanges) × (ended ≡ other) }
{}

/// Two sessions from one state over one input, at a desk of fully loaded dictionaries whose acts are one, that ended by
/// the input and in which memory was found for each reply, end the same, write the same bytes, make the same calls with
/// the same answers, and leave the same state.
pub fn one_session<D: Desk>()
    ensures { AreOne D.facts → (s t v : D.State) (old new before after : Ends) (ended other : SessionEnd)
        (cores later kept left : List CallerCore) (input : List ℕ)
        (a : SessionEnds D.facts s (place [] old) ended t new cores later)
        (b : SessionEnds D.facts s (place [] before) other v after kept left)
        → AreFullyLoaded (D.facts.items s)
        → old.reads.known ≡ Some input → before.reads.known ≡ Some input → IsByInput ended → IsByInput other
        → AllFound a.run.exchanges → AllFound b.run.exchanges
        → (ended ≡ other) × (a.run.out ≡ b.run.out)
        × (all_acts a.run.exchanges ≡ all_acts b.run.exchanges) × (t ≡ v) }
{}
