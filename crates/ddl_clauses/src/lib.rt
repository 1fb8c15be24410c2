//! The clauses of a dictionary's definition text, and the source and settings of a function's.
//!
//! The clauses of a dictionary stand behind its PRIMARY KEY, in any order and each at most once: SOURCE and LAYOUT,
//! which are wanted, LIFETIME, RANGE, SETTINGS and COMMENT. Those of a function are SOURCE and optionally SETTINGS. It
//! promises that what is read is what clauses by the grammar (`specs/Grammar.antt`) say (`specs/Parts.antt`), that such
//! clauses are read and as nothing else, and that a fault has the least place, with the kind that the reading
//! (`specs/Reading.antt`) tells.
#![tactic(auto)]

ghost use Rattle.std.specs.Prelude.{◌≡◌, ◌<◌, ◌≤◌, length, IfOk, OnOk};
ghost use Rattle.ddl_tokens.specs.Laws.{IfSyntax, IsLeast};
ghost use Rattle.ddl_tokens.specs.Reading.{Gives};
ghost use Rattle.ddl_clauses.specs.Grammar.{AreDictionaryClauses, NoClauseFollows, IsWrittenFunction, FunctionStops};
ghost use Rattle.ddl_clauses.specs.Grammar.{BeginsSaying, ReadsOnly};
ghost use Rattle.ddl_clauses.specs.Parts.{dictionary_parts, function_parts};
ghost use Rattle.ddl_clauses.specs.Reading.{dictionary_clauses_at, function_clauses_at};

mod choices;
mod clause;
mod layouts;
mod lists;
mod parts;
mod reading;
mod settings;

pub use clause::{Clause, ClauseKind, RangeNames, WrittenLayout, WrittenSource};
use ddl_tokens::{ReadFault, Reader};
pub use layouts::LayoutName;
pub use parts::{DictionaryParts, FunctionParts, Sizes};
pub use settings::{Form, Group, Owner, Section, Setting, SettingName, SettingValue};
use std::alloc::Global;

/// The clauses of a dictionary, up to the token that begins none.
#[tactic(auto, using(crate::proofs::Answers::clauses_found, crate::proofs::Answers::clauses_least))]
pub fn dictionary_clauses(alloc: Global, r: &mut Reader<'_>) -> Result<DictionaryParts, ReadFault>
    // What is read is in the grammar.
    ensures found { IfOk result (BeginsSaying dictionary_parts AreDictionaryClauses NoClauseFollows r.old r.new) }
    // What is in the grammar is read, and as nothing else.
    ensures only { ReadsOnly dictionary_parts AreDictionaryClauses NoClauseFollows r.old r.new result }
    // A fault is the one with the least place.
    ensures least { IfSyntax result (IsLeast AreDictionaryClauses NoClauseFollows r.old) }
    // It is of the kind that the reading tells.
    ensures exact { Gives (λ parts. parts) result r.new (dictionary_clauses_at r.old) }
    ensures shorter { OnOk result (length r.new ≤ length r.old) }
{
    reading::dictionary_clauses(alloc, r)
}

/// The source of a function, and its settings.
#[tactic(auto, using(crate::proofs::Answers::function_found, crate::proofs::Answers::function_least))]
pub fn function_clauses(alloc: Global, r: &mut Reader<'_>) -> Result<FunctionParts, ReadFault>
    // What is read is in the grammar.
    ensures found { IfOk result (BeginsSaying function_parts IsWrittenFunction FunctionStops r.old r.new) }
    // What is in the grammar is read, and as nothing else.
    ensures only { ReadsOnly function_parts IsWrittenFunction FunctionStops r.old r.new result }
    // A fault is the one with the least place.
    ensures least { IfSyntax result (IsLeast IsWrittenFunction FunctionStops r.old) }
    // It is of the kind that the reading tells.
    ensures exact { Gives (λ parts. parts) result r.new (function_clauses_at r.old) }
    ensures shorter { OnOk result (length r.new < length r.old) }
{
    reading::function_clauses(alloc, r)
}

#[cfg(test)]
mod tests;
