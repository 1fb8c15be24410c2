// Keys.
ghost use Rattle.std.specs.Prelude.{◌≡◌, ◌++◌, ◌<◌, ◌≤◌, length, List, ℕ, IfOk, IsTrue, OnOk, Ok, Err};
ghost use Rattle.dict_value.specs.Memory.{UnlessNoMemory};
ghost use Rattle.ddl_tokens.specs.declared.fault.ReadFault.TheVariants as fault;
ghost use Rattle.ddl_tokens.specs.Tokens.{Token};
ghost use Rattle.ddl_tokens.specs.Reading.{Gives, bytes_at, is_name};
ghost use Rattle.ddl_tokens.specs.Laws.{Begins, IfSyntax, IsLeast, first};
ghost use Rattle.ddl_tokens.specs.Lists.{GivesStep, next_item, repeat};
ghost use Rattle.ddl_columns.specs.Grammar.{IsKey, KeyStops};
ghost use Rattle.ddl_columns.specs.Reading.{in_brackets_at, key_at, key_names_at, last_at, names_at};

use ddl_tokens::{ReadFault, Reader};
use dict_value::{Bytes, ListOf};
use std::alloc::Global;

#[tactic(auto, unfolding(ddl_tokens::specs::Lists::next_item))]
fn next_name(
    alloc: Global,
    r: &mut Reader<'_>,
    before: &mut ListOf<Bytes>,
) -> Result<bool, ReadFault>
    ensures value { GivesStep (λ names. names) result before.new r.new
        (next_item 44 (bytes_at is_name) before.old r.old) }
    ensures shorter { IfOk result (λ more. IsTrue more → length r.new < length r.old) }
    ensures no_longer { OnOk result (length r.new ≤ length r.old) }
{
    if !r.sees_sign(b',') {
        return Ok(false);
    }
    r.sign(b',')?;
    before.push(r.name(alloc)?)?;
    Ok(true)
}

#[tactic(auto, using(ddl_tokens::proofs::Loops::begins, ddl_tokens::proofs::Loops::goes))]
fn more_names(
    alloc: Global,
    r: &mut Reader<'_>,
    mut names: ListOf<Bytes>,
) -> Result<ListOf<Bytes>, ReadFault>
    ensures value { Gives (λ names. names) result r.new (repeat (next_item 44 (bytes_at is_name)) names r.old) }
    ensures shorter { OnOk result (length r.new ≤ length r.old) }
{
    while next_name(alloc, r, &mut names)? {}
    Ok(names)
}

/// One name or more.
#[tactic(auto, unfolding(crate::specs::Reading::names_at, ddl_tokens::specs::Lists::separated_at))]
fn names(alloc: Global, r: &mut Reader<'_>) -> Result<ListOf<Bytes>, ReadFault>
    ensures value { Gives (λ names. names) result r.new (names_at r.old) }
    ensures shorter { OnOk result (length r.new < length r.old) }
{
    let first = r.name(alloc)?;
    let mut names = ListOf::new(alloc);
    names.push(first)?;
    more_names(alloc, r, names)
}

/// No other name follows.
#[tactic(auto, unfolding(crate::specs::Reading::last_at))]
fn last(r: &Reader<'_>) -> Result<(), ReadFault>
    ensures { Gives (λ _. tt) result r.now (last_at r.now) }
{
    if r.sees_sign(b',') {
        return Err(r.unexpected());
    }
    Ok(())
}

#[tactic(auto, unfolding(crate::specs::Reading::in_brackets_at))]
fn in_brackets(alloc: Global, r: &mut Reader<'_>) -> Result<ListOf<Bytes>, ReadFault>
    ensures value { Gives (λ names. names) result r.new (in_brackets_at r.old) }
    ensures shorter { OnOk result (length r.new < length r.old) }
{
    r.sign(b'(')?;
    let names = names(alloc, r)?;
    r.sign(b')')?;
    last(r)?;
    Ok(names)
}

/// The names of the key columns, in brackets or not.
#[tactic(auto, unfolding(crate::specs::Reading::key_names_at))]
fn key_names(alloc: Global, r: &mut Reader<'_>) -> Result<ListOf<Bytes>, ReadFault>
    ensures value { Gives (λ names. names) result r.new (key_names_at r.old) }
    ensures shorter { OnOk result (length r.new < length r.old) }
{
    if r.sees_sign(b'(') {
        in_brackets(alloc, r)
    } else {
        names(alloc, r)
    }
}

#[tactic(auto, unfolding(crate::specs::Reading::key_at))]
fn whole_key(alloc: Global, r: &mut Reader<'_>) -> Result<ListOf<Bytes>, ReadFault>
    ensures value { Gives (λ names. names) result r.new (key_at r.old) }
    ensures shorter { OnOk result (length r.new < length r.old) }
{
    r.keyword(b"PRIMARY")?;
    r.keyword(b"KEY")?;
    key_names(alloc, r)
}

/// PRIMARY KEY and the names of the key columns, in brackets or not.
pub fn read_key(alloc: Global, r: &mut Reader<'_>) -> Result<ListOf<Bytes>, ReadFault>
    // The kind of a fault is that of the reading.
    ensures exact { Gives (λ names. names) result r.new (key_at r.old) }
    // What is read is in the grammar.
    ensures found { IfOk result (λ names. Begins IsKey KeyStops r.old names r.new) }
    // What is in the grammar is read, and as nothing else.
    ensures only { (own rest : List Token) (names : List (List ℕ)) → r.old ≡ own ++ rest → IsKey names own
        → KeyStops names (first rest) → UnlessNoMemory (Err fault.NoMemory) result (result ≡ Ok names) }
    // A fault is the one with the least place.
    ensures least { IfSyntax result (λ e. IsLeast IsKey KeyStops r.old e) }
    ensures shorter { OnOk result (length r.new < length r.old) }
{
    whole_key(alloc, r)
}
