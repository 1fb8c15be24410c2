// The arguments of a function.
ghost use Rattle.std.specs.Prelude.{◌≡◌, ◌++◌, ◌<◌, ◌≤◌, length, List, All, IfOk, IsTrue, OnOk, Err};
ghost use Rattle.dict_value.specs.Memory.{UnlessNoMemory};
ghost use Rattle.dict_schema.specs.declared.definition.Arg.{Arg};
ghost use Rattle.dict_schema.specs.Sound.{IsSoundType};
ghost use Rattle.ddl_tokens.specs.declared.fault.ReadFault.TheVariants as fault;
ghost use Rattle.ddl_tokens.specs.Tokens.{Token};
ghost use Rattle.ddl_tokens.specs.Reading.{Gives};
ghost use Rattle.ddl_tokens.specs.Laws.{Anyhow, Begins, IfSyntax, first};
ghost use Rattle.ddl_tokens.specs.Lists.{GivesStep, next_item, repeat, separated_at};
ghost use Rattle.ddl_tokens.specs.Verdicts.{Verdict, IsLeastOrFalls, VerdictStops, answer, stands};
ghost use Rattle.ddl_columns.specs.Grammar.{AreArguments};
ghost use Rattle.ddl_columns.specs.Reading.{argument_at, arguments_at, closed_arguments_at, some_arguments_at};

use crate::types::type_of;
use ddl_tokens::{ReadFault, Reader};
use dict_schema::Arg;
use dict_value::ListOf;
use std::alloc::Global;

#[tactic(auto, unfolding(crate::specs::Reading::argument_at))]
fn argument(alloc: Global, r: &mut Reader<'_>) -> Result<Arg, ReadFault>
    ensures value { Gives (λ argument. argument) result r.new (argument_at r.old) }
    ensures shorter { OnOk result (length r.new < length r.old) }
{
    let name = r.name(alloc)?;
    let ty = type_of(alloc, r)?;
    Ok(Arg { name, ty })
}

#[tactic(auto, unfolding(ddl_tokens::specs::Lists::next_item))]
fn next_argument(
    alloc: Global,
    r: &mut Reader<'_>,
    before: &mut ListOf<Arg>,
) -> Result<bool, ReadFault>
    ensures value { GivesStep (λ arguments. arguments) result before.new r.new
        (next_item 44 argument_at before.old r.old) }
    ensures shorter { IfOk result (λ more. IsTrue more → length r.new < length r.old) }
    ensures no_longer { OnOk result (length r.new ≤ length r.old) }
{
    if !r.sees_sign(b',') {
        return Ok(false);
    }
    r.sign(b',')?;
    before.push(argument(alloc, r)?)?;
    Ok(true)
}

#[tactic(auto, using(ddl_tokens::proofs::Loops::begins, ddl_tokens::proofs::Loops::goes))]
fn more_arguments(
    alloc: Global,
    r: &mut Reader<'_>,
    mut arguments: ListOf<Arg>,
) -> Result<ListOf<Arg>, ReadFault>
    ensures value { Gives (λ arguments. arguments) result r.new (repeat (next_item 44 argument_at) arguments r.old) }
    ensures shorter { OnOk result (length r.new ≤ length r.old) }
{
    while next_argument(alloc, r, &mut arguments)? {}
    Ok(arguments)
}

/// One argument or more, up to the closing bracket.
#[tactic(auto, unfolding(crate::specs::Reading::some_arguments_at, ddl_tokens::specs::Lists::separated_at))]
fn some_arguments(alloc: Global, r: &mut Reader<'_>) -> Result<ListOf<Arg>, ReadFault>
    ensures value { Gives (λ arguments. arguments) result r.new (some_arguments_at r.old) }
    ensures shorter { OnOk result (length r.new < length r.old) }
{
    let first = argument(alloc, r)?;
    let mut arguments = ListOf::new(alloc);
    arguments.push(first)?;
    let arguments = more_arguments(alloc, r, arguments)?;
    r.sign(b')')?;
    Ok(arguments)
}

/// Arguments up to the closing bracket, or none.
#[tactic(auto, unfolding(crate::specs::Reading::closed_arguments_at))]
fn closed_arguments(alloc: Global, r: &mut Reader<'_>) -> Result<ListOf<Arg>, ReadFault>
    ensures value { Gives (λ arguments. arguments) result r.new (closed_arguments_at r.old) }
    ensures shorter { OnOk result (length r.new < length r.old) }
{
    if r.sees_sign(b')') {
        r.sign(b')')?;
        return Ok(ListOf::new(alloc));
    }
    some_arguments(alloc, r)
}

#[tactic(auto, unfolding(crate::specs::Reading::arguments_at))]
fn all_arguments(alloc: Global, r: &mut Reader<'_>) -> Result<ListOf<Arg>, ReadFault>
    ensures value { Gives (λ arguments. arguments) result r.new (arguments_at r.old) }
    ensures shorter { OnOk result (length r.new < length r.old) }
{
    r.sign(b'(')?;
    closed_arguments(alloc, r)
}

/// Arguments in brackets, or none.
pub fn read_arguments(alloc: Global, r: &mut Reader<'_>) -> Result<ListOf<Arg>, ReadFault>
    // The kind of a fault is that of the reading.
    ensures exact { Gives (λ arguments. arguments) result r.new (arguments_at r.old) }
    // What is read is in the grammar.
    ensures found { IfOk result
        (λ arguments. Begins AreArguments (VerdictStops Anyhow) r.old (stands arguments) r.new) }
    // What is in the grammar is read, and as nothing else.
    ensures only { (own rest : List Token) (arguments : Verdict (List Arg)) → r.old ≡ own ++ rest
        → AreArguments arguments own → VerdictStops Anyhow arguments (first rest)
        → UnlessNoMemory (Err fault.NoMemory) result (result ≡ answer arguments) }
    // The types that are read can be.
    ensures sound { IfOk result (λ arguments. All (λ argument. IsSoundType argument.ty) arguments) }
    // A fault is the first.
    ensures first { IfSyntax result (λ e. IsLeastOrFalls AreArguments Anyhow r.old e) }
    ensures shorter { OnOk result (length r.new < length r.old) }
{
    all_arguments(alloc, r)
}
