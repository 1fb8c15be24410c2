// What holds over every list of events.
ghost use Rattle.load_core.specs.Laws.{EachDict, KeepsFronts, HasNumbersInOrder, IsRising, IsBalanced};
ghost use Rattle.load_core.specs.Laws.{IsPostedOnlyOf, OneLoadEach};
ghost use Rattle.load_core.specs.Laws.{CurrentIsNewest, FailingKeeps, PublishedClears, RefusedKeeps};
ghost use Rattle.load_core.specs.Laws.{LengthsAtEnter, NeverFall};
ghost use Rattle.load_core.specs.Laws.{NeverOlder, NeverBelowLearnt};
ghost use Rattle.std.specs.Prelude.{◌≡◌, Option};
ghost use Rattle.dict_value.specs.declared.fault.Cause.{Cause};
ghost use Rattle.load_core.specs.WorldRows.{row_verdicts};
ghost use Rattle.load_core.specs.WorldSteps.{Candidate};

use crate::judge::Judge;

/// For every number of dictionaries, definitions and callers, every judge and every list of events
/// from the empty world: lists only grow, by entries of whole loads that the judge accepts after the
/// entries before them, a dictionary's current definition is that of its last entry, and no caller goes
/// back.
pub fn core_law<J: Judge>()
    ensures grows { KeepsFronts J.judges }
    ensures numbers { EachDict J.judges HasNumbersInOrder }
    ensures one_load_each { OneLoadEach J.judges }
    ensures current { CurrentIsNewest J.judges }
    ensures loads_rise { EachDict J.judges IsRising }
    ensures failing { FailingKeeps J.judges }
    ensures published { PublishedClears J.judges }
    ensures refused { RefusedKeeps J.judges }
    ensures counts { EachDict J.judges IsBalanced }
    ensures posted { EachDict J.judges IsPostedOnlyOf }
    ensures at_enter { LengthsAtEnter J.judges }
    ensures never_fall { NeverFall J.judges }
    ensures never_older { NeverOlder J.judges }
    ensures never_below { NeverBelowLearnt J.judges }
{}

/// The judge of `World::run` gives one verdict on each text, whatever the definition and the entries so
/// far: it is accepted, or refused for one cause.
pub fn one_verdict()
    ensures some { (load : Candidate) → (verdict : Option Cause) × row_verdicts load verdict }
    ensures one { (load : Candidate) (verdict other : Option Cause) → row_verdicts load verdict
        → row_verdicts load other → verdict ≡ other }
{}
