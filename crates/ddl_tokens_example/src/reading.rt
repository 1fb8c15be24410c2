// The readers of the grammar's parts.
ghost use Rattle.std.specs.Prelude.{◌≡◌, ◌<◌, ◌≤◌, length, IsTrue, IfOk, OnOk};
ghost use Rattle.ddl_tokens.specs.Reading.{Gives};
ghost use Rattle.ddl_tokens.specs.Lists.{GivesStep, has_number, next_item, repeat, separated_at};
ghost use Rattle.ddl_tokens_example.specs.Reading.{times_at, item_at, clause_ahead, clause_at, next_clause, order_at};
ghost use Rattle.ddl_tokens_example.specs.Grammar.{kind_number, number};

use crate::order::{Clause, ClauseKind, Item, Order};
use ddl_tokens::{ReadFault, Reader, SyntaxFault};
use dict_value::{Bytes, ListOf};
use std::alloc::Global;

#[tactic(auto, unfolding(crate::specs::Reading::times_at))]
fn times(alloc: Global, r: &mut Reader<'_>) -> Result<Option<Bytes>, ReadFault>
    ensures value { Gives (λ times. times) result r.new (times_at r.old) }
    ensures shorter { OnOk result (length r.new ≤ length r.old) }
{
    if !r.sees_keyword(b"TIMES") {
        return Ok(None);
    }
    r.keyword(b"TIMES")?;
    let number = r.number()?;
    Ok(Some(Bytes::copy_of(alloc, number)?))
}

#[tactic(auto, unfolding(crate::specs::Reading::item_at))]
fn item(alloc: Global, r: &mut Reader<'_>) -> Result<Item, ReadFault>
    ensures value { Gives (λ item. item) result r.new (item_at r.old) }
    ensures shorter { OnOk result (length r.new < length r.old) }
{
    let name = r.name(alloc)?;
    let times = times(alloc, r)?;
    Ok(Item { name, times })
}

#[tactic(auto, unfolding(ddl_tokens::specs::Lists::next_item))]
fn next_item(
    alloc: Global,
    r: &mut Reader<'_>,
    before: &mut ListOf<Item>,
) -> Result<bool, ReadFault>
    ensures value { GivesStep (λ items. items) result before.new r.new (next_item 44 item_at before.old r.old) }
    ensures shorter { IfOk result (λ more. IsTrue more → length r.new < length r.old) }
    ensures no_longer { OnOk result (length r.new ≤ length r.old) }
{
    if !r.sees_sign(b',') {
        return Ok(false);
    }
    r.sign(b',')?;
    before.push(item(alloc, r)?)?;
    Ok(true)
}

#[tactic(auto, using(ddl_tokens::proofs::Loops::begins, ddl_tokens::proofs::Loops::goes))]
fn more_items(
    alloc: Global,
    r: &mut Reader<'_>,
    mut items: ListOf<Item>,
) -> Result<ListOf<Item>, ReadFault>
    ensures value { Gives (λ items. items) result r.new (repeat (next_item 44 item_at) items r.old) }
    ensures shorter { OnOk result (length r.new ≤ length r.old) }
{
    while next_item(alloc, r, &mut items)? {}
    Ok(items)
}

#[tactic(auto, unfolding(ddl_tokens::specs::Lists::separated_at))]
fn items(alloc: Global, r: &mut Reader<'_>) -> Result<ListOf<Item>, ReadFault>
    ensures value { Gives (λ items. items) result r.new (separated_at 44 item_at r.old) }
    ensures shorter { OnOk result (length r.new < length r.old) }
{
    let first = item(alloc, r)?;
    let mut items = ListOf::new(alloc);
    items.push(first)?;
    more_items(alloc, r, items)
}

fn kind_number(kind: ClauseKind) -> u8
    ensures { result ≡ kind_number kind }
{
    match kind {
        ClauseKind::Price => 0,
        ClauseKind::Note => 1,
        ClauseKind::Due => 2,
    }
}

fn number(clause: &Clause) -> u8
    ensures { result ≡ number clause.now }
{
    match clause {
        Clause::Price(_) => 0,
        Clause::Note(_) => 1,
        Clause::Due(_) => 2,
    }
}

#[tactic(auto, unfolding(ddl_tokens::specs::Lists::has_number))]
fn has_clause(wanted: u8, clauses: &[Clause]) -> bool
    ensures { result ≡ has_number number wanted clauses.now }
{
    let mut rest = clauses;
    while let [clause, others @ ..] = rest {
        if number(clause) == wanted {
            return true;
        }
        rest = others;
    }
    false
}

#[tactic(auto, unfolding(ddl_tokens::specs::Lists::chosen_ahead))]
fn kind(r: &Reader<'_>) -> Option<ClauseKind>
    ensures { result ≡ clause_ahead r.now }
{
    if r.sees_keyword(b"PRICE") {
        Some(ClauseKind::Price)
    } else if r.sees_keyword(b"NOTE") {
        Some(ClauseKind::Note)
    } else if r.sees_keyword(b"DUE") {
        Some(ClauseKind::Due)
    } else {
        None
    }
}

#[tactic(auto, unfolding(crate::specs::Reading::clause_at))]
fn clause(alloc: Global, kind: ClauseKind, r: &mut Reader<'_>) -> Result<Clause, ReadFault>
    ensures value { Gives (λ clause. clause) result r.new (clause_at kind r.old) }
    ensures shorter { OnOk result (length r.new < length r.old) }
{
    match kind {
        ClauseKind::Price => {
            r.keyword(b"PRICE")?;
            let number = r.number()?;
            Ok(Clause::Price(Bytes::copy_of(alloc, number)?))
        }
        ClauseKind::Note => {
            r.keyword(b"NOTE")?;
            Ok(Clause::Note(r.string(alloc)?))
        }
        ClauseKind::Due => {
            r.keyword(b"DUE")?;
            let number = r.number()?;
            Ok(Clause::Due(Bytes::copy_of(alloc, number)?))
        }
    }
}

#[tactic(auto, using(crate::proofs::OrderLaws::next_clause_is), unfolding(ddl_tokens::specs::Lists::has_all))]
fn next_clause(
    alloc: Global,
    r: &mut Reader<'_>,
    before: &mut ListOf<Clause>,
) -> Result<bool, ReadFault>
    ensures value { GivesStep (λ clauses. clauses) result before.new r.new (next_clause before.old r.old) }
    ensures shorter { IfOk result (λ more. IsTrue more → length r.new < length r.old) }
    ensures no_longer { OnOk result (length r.new ≤ length r.old) }
{
    let place = r.place();
    let Some(kind) = kind(r) else {
        if has_clause(0, before.as_slice()) {
            return Ok(false);
        }
        return Err(r.unexpected());
    };
    if has_clause(kind_number(kind), before.as_slice()) {
        return Err(ReadFault::Syntax(SyntaxFault::Twice(place)));
    }
    before.push(clause(alloc, kind, r)?)?;
    Ok(true)
}

#[tactic(auto, using(ddl_tokens::proofs::Loops::begins, ddl_tokens::proofs::Loops::goes))]
fn more_clauses(
    alloc: Global,
    r: &mut Reader<'_>,
    mut clauses: ListOf<Clause>,
) -> Result<ListOf<Clause>, ReadFault>
    ensures value { Gives (λ clauses. clauses) result r.new (repeat next_clause clauses r.old) }
    ensures shorter { OnOk result (length r.new ≤ length r.old) }
{
    while next_clause(alloc, r, &mut clauses)? {}
    Ok(clauses)
}

/// An order, up to the token that begins none of its clauses.
#[tactic(auto, unfolding(crate::specs::Reading::order_at))]
pub(crate) fn order(alloc: Global, r: &mut Reader<'_>) -> Result<Order, ReadFault>
    ensures value { Gives (λ order. order) result r.new (order_at r.old) }
{
    r.keyword(b"ORDER")?;
    let name = r.name(alloc)?;
    r.sign(b'(')?;
    let items = items(alloc, r)?;
    r.sign(b')')?;
    let clauses = more_clauses(alloc, r, ListOf::new(alloc))?;
    Ok(Order {
        name,
        items,
        clauses,
    })
}
