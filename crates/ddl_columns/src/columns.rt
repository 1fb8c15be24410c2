// Columns.
ghost use Rattle.std.specs.Prelude.{◌≡◌, ◌++◌, ◌<◌, ◌≤◌, length, List, All, IfOk, IsTrue, OnOk, Err};
ghost use Rattle.dict_value.specs.Memory.{UnlessNoMemory};
ghost use Rattle.dict_schema.specs.declared.definition.Column.{Column};
ghost use Rattle.dict_schema.specs.Sound.{IsSoundType};
ghost use Rattle.ddl_tokens.specs.declared.fault.ReadFault.TheVariants as fault;
ghost use Rattle.ddl_tokens.specs.Tokens.{Token};
ghost use Rattle.ddl_tokens.specs.Reading.{Gives};
ghost use Rattle.ddl_tokens.specs.Laws.{Anyhow, Begins, IfSyntax, first};
ghost use Rattle.ddl_tokens.specs.Lists.{GivesStep, next_item, repeat, separated_at};
ghost use Rattle.ddl_tokens.specs.Verdicts.{Verdict, IsLeastOrFalls, VerdictStops, answer, stands};
ghost use Rattle.ddl_columns.specs.Grammar.{AreColumns};
ghost use Rattle.ddl_columns.specs.Reading.{column_at, column_list_at};

use crate::defaults::{default, default_given};
use crate::marks::{Mark, column_marks, has_mark};
use crate::types::type_of;
use ddl_tokens::{ReadFault, Reader};
use dict_schema::Column;
use dict_value::ListOf;
use std::alloc::Global;

/// A name, a type, and what may follow them.
#[tactic(auto, unfolding(crate::specs::Reading::column_at))]
fn column(alloc: Global, r: &mut Reader<'_>) -> Result<Column, ReadFault>
    ensures value { Gives (λ column. column) result r.new (column_at r.old) }
    ensures shorter { OnOk result (length r.new < length r.old) }
{
    let name = r.name(alloc)?;
    let ty = type_of(alloc, r)?;
    let literal = default(alloc, r)?;
    let marks = column_marks(alloc, r)?;
    let default = default_given(alloc, &ty, &literal)?;
    Ok(Column {
        name,
        ty,
        default,
        hierarchical: has_mark(Mark::Hierarchical, marks.as_slice()),
        object_id: has_mark(Mark::ObjectId, marks.as_slice()),
        injective: has_mark(Mark::Injective, marks.as_slice()),
    })
}

#[tactic(auto, unfolding(ddl_tokens::specs::Lists::next_item))]
fn next_column(
    alloc: Global,
    r: &mut Reader<'_>,
    before: &mut ListOf<Column>,
) -> Result<bool, ReadFault>
    ensures value { GivesStep (λ columns. columns) result before.new r.new (next_item 44 column_at before.old r.old) }
    ensures shorter { IfOk result (λ more. IsTrue more → length r.new < length r.old) }
    ensures no_longer { OnOk result (length r.new ≤ length r.old) }
{
    if !r.sees_sign(b',') {
        return Ok(false);
    }
    r.sign(b',')?;
    before.push(column(alloc, r)?)?;
    Ok(true)
}

#[tactic(auto, using(ddl_tokens::proofs::Loops::begins, ddl_tokens::proofs::Loops::goes))]
fn more_columns(
    alloc: Global,
    r: &mut Reader<'_>,
    mut columns: ListOf<Column>,
) -> Result<ListOf<Column>, ReadFault>
    ensures value { Gives (λ columns. columns) result r.new (repeat (next_item 44 column_at) columns r.old) }
    ensures shorter { OnOk result (length r.new ≤ length r.old) }
{
    while next_column(alloc, r, &mut columns)? {}
    Ok(columns)
}

#[tactic(auto, unfolding(ddl_tokens::specs::Lists::separated_at))]
fn some_columns(alloc: Global, r: &mut Reader<'_>) -> Result<ListOf<Column>, ReadFault>
    ensures value { Gives (λ columns. columns) result r.new (separated_at 44 column_at r.old) }
    ensures shorter { OnOk result (length r.new < length r.old) }
{
    let first = column(alloc, r)?;
    let mut columns = ListOf::new(alloc);
    columns.push(first)?;
    more_columns(alloc, r, columns)
}

#[tactic(auto, unfolding(crate::specs::Reading::column_list_at))]
fn all_columns(alloc: Global, r: &mut Reader<'_>) -> Result<ListOf<Column>, ReadFault>
    ensures value { Gives (λ columns. columns) result r.new (column_list_at r.old) }
    ensures shorter { OnOk result (length r.new < length r.old) }
{
    r.sign(b'(')?;
    let columns = some_columns(alloc, r)?;
    r.sign(b')')?;
    Ok(columns)
}

/// Columns in brackets. A default that is no text of its column's type is a value of no type.
pub fn read_columns(alloc: Global, r: &mut Reader<'_>) -> Result<ListOf<Column>, ReadFault>
    // The kind of a fault is that of the reading.
    ensures exact { Gives (λ columns. columns) result r.new (column_list_at r.old) }
    // What is read is in the grammar.
    ensures found { IfOk result (λ columns. Begins AreColumns (VerdictStops Anyhow) r.old (stands columns) r.new) }
    // What is in the grammar is read, and as nothing else.
    ensures only { (own rest : List Token) (columns : Verdict (List Column)) → r.old ≡ own ++ rest
        → AreColumns columns own → VerdictStops Anyhow columns (first rest)
        → UnlessNoMemory (Err fault.NoMemory) result (result ≡ answer columns) }
    // The types that are read can be.
    ensures sound { IfOk result (λ columns. All (λ column. IsSoundType column.ty) columns) }
    // A fault is the first.
    ensures first { IfSyntax result (λ e. IsLeastOrFalls AreColumns Anyhow r.old e) }
    ensures shorter { OnOk result (length r.new < length r.old) }
{
    all_columns(alloc, r)
}
