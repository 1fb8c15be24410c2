// What holds of every load and of every output, whatever is called.
ghost use Rattle.std.specs.Prelude.{◌≡◌, ◌≢◌, ◌<◌, ◌≤◌, ◌↔◌, ℕ, List, [], Option, Result, Some, None, Ok, Err, pos};
ghost use Rattle.child_io.specs.Runs.{RunTold};
ghost use Rattle.child_io.specs.declared.child.Outcome.{Outcome};
ghost use Rattle.child_io.specs.declared.child.Outcome.TheVariants.{Ended};
ghost use Rattle.child_io.specs.declared.child.Script.{Script};
ghost use Rattle.child_io.specs.declared.pieces.PieceEnd.{PieceEnd};
ghost use Rattle.dict_schema.specs.declared.definition.Definition.{Definition};
ghost use Rattle.dict_value.specs.declared.fault.Cause.{Cause};
ghost use Rattle.dict_value.specs.declared.fault.Exit.TheVariants.{Code};
ghost use Rattle.dict_version.specs.Contents.{Contents};
ghost use Rattle.load_core.specs.DictSteps.{most_loads};
ghost use Rattle.load_core.specs.WorldRows.{row_verdicts};
ghost use Rattle.load_core.specs.WorldSteps.{Candidate, dict_at, formers};
ghost use Rattle.load_core.specs.declared.dictionary.DictCore.{DictCore};
ghost use Rattle.load_core.specs.declared.dictionary.Phase.TheVariants.{Idle};
ghost use Rattle.load_core.specs.declared.world.World.{World};
ghost use Rattle.load_core.specs.declared.world.WorldDict.{WorldDict};
ghost use Rattle.packed_rows.specs.Columns.{RowList};
ghost use Rattle.loader.specs.Accepts.{Accepts};
ghost use Rattle.loader.specs.Loaders.{ComesTo, IsAfter, IsAt, LoaderState};
ghost use Rattle.loader.specs.Origins.{IsSettled, Loads, newest};
ghost use Rattle.loader.specs.Worlds.{AreVersionsOf, LeadsTo, world_definition, world_events};
ghost use Rattle.loader.specs.declared.answers.LoadEnd.{LoadEnd};
ghost use Rattle.loader.specs.declared.answers.LoadEnd.TheVariants.{NoMemory};

/// The judge of `World::run` is what a load of its dictionary is judged by: it accepts a text exactly where the output
/// of a child that ends with status 0 is accepted, and refuses it for exactly that cause.
pub fn world_judge()
    ensures accepted { (load : Candidate) (former : RowList) → row_verdicts load None
        ↔ ((rows : RowList) × Accepts world_definition former (Ended load.bytes (Code (pos 0))) (Ok rows)) }
    ensures refused { (load : Candidate) (former : RowList) (why : Cause) → row_verdicts load (Some why)
        ↔ Accepts world_definition former (Ended load.bytes (Code (pos 0))) (Err why) }
{}

/// What a load does to its dictionary is a run of the world, with the judge by which a load is judged: it starts with
/// its definition, takes the pieces, finishes, publishes where it published, and posts. So what holds of every run of
/// the world holds of loads.
pub fn loads_run_the_world()
    ensures { (definition_of : ℕ → Definition) (old : World) (place number now : ℕ) (x : WorldDict)
        (list after : List Contents) (new : DictCore) (ending : PieceEnd) (pieces : List (List ℕ)) (end : LoadEnd)
        → dict_at old place ≡ Some x → x.core.phase ≡ Idle → x.core.loads < most_loads → number < old.definitions
        → (definition_of number).max_output ≤ 134217728 → AreVersionsOf definition_of (formers x.entries) list
        → ComesTo (definition_of number) now list after x.core new ending pieces end
        → LeadsTo definition_of old place
        (world_events place number (definition_of number).max_output pieces ending end) new after }
{}

/// What a load comes to is one: an outcome is judged to give one list of rows, or one cause; and where memory is found,
/// a load behind a list whose child ended so and printed these pieces has one end, and leaves one list and one core.
/// So it is where the children of both take their scripts from one list, whatever else is told, and both leave the same
/// of that list; and what a loader keeps is one. That the newest version has the load's definition, or another one, is
/// told by the two definitions.
pub fn one_load()
    ensures accepted { (d : Definition) (former : RowList) (outcome : Outcome) (given other : Result RowList Cause)
        → Accepts d former outcome given → Accepts d former outcome other → given ≡ other }
    ensures judged { (d : Definition) (list : List Contents) (outcome : Outcome) (given other : Result RowList Cause)
        → IsSettled (newest list) d → Loads d list outcome given → Loads d list outcome other → given ≡ other }
    ensures comes { (d : Definition) (now : ℕ) (list after others : List Contents) (old new other : DictCore)
        (ending : PieceEnd) (pieces : List (List ℕ)) (end ended : LoadEnd)
        → IsSettled (newest list) d → end ≢ NoMemory → ended ≢ NoMemory
        → ComesTo d now list after old new ending pieces end → ComesTo d now list others old other ending pieces ended
        → (end ≡ ended) × (after ≡ others) × (new ≡ other) }
    ensures scripted { (d : Definition) (now : ℕ) (list after others : List Contents) (old new other : DictCore)
        (scripts : List Script) (left right : Option (List Script)) (ending last : PieceEnd)
        (pieces heard : List (List ℕ)) (end ended : LoadEnd)
        → IsSettled (newest list) d → end ≢ NoMemory → ended ≢ NoMemory
        → RunTold (Some scripts) left [] d.max_output ending pieces
        → RunTold (Some scripts) right [] d.max_output last heard
        → ComesTo d now list after old new ending pieces end → ComesTo d now list others old other last heard ended
        → (end ≡ ended) × (after ≡ others) × (new ≡ other) × (left ≡ right) }
    ensures leaves { (d : Definition) (now : ℕ) (end : LoadEnd) (old new other : LoaderState) (list : List Contents)
        → new.core ≡ other.core → IsAfter d now end old new → IsAfter d now end old other → IsAt new list
        → IsAt other list → new ≡ other }
{}
