// The readers of the clauses.
ghost use Rattle.std.specs.Prelude.{◌≡◌, ◌<◌, ◌≤◌, length, IfOk, OnOk, IsTrue};
ghost use Rattle.ddl_tokens.specs.Reading.{Gives};
ghost use Rattle.ddl_tokens.specs.Lists.{GivesStep, has_all, has_number, repeat};
ghost use Rattle.ddl_clauses.specs.Settings.{wanted_settings};
ghost use Rattle.ddl_clauses.specs.Clauses.{or_empty, has_some, clause_number, number_of_clause, wanted_clauses};
ghost use Rattle.ddl_clauses.specs.Reading.{short_at, source_at, layout_settings_at, layout_at, min_max_at, max_min_at};
ghost use Rattle.ddl_clauses.specs.Reading.{bounds_at, lifetime_at, range_at, output_settings_at, comment_clause_at};
ghost use Rattle.ddl_clauses.specs.Reading.{output_if_there_at, dictionary_clauses_at, function_clauses_at};
ghost use Rattle.ddl_clauses.specs.Reading.{dictionary_clause_at, clause_kind_ahead, next_dictionary_clause};

use crate::choices::{self, source_kind, whole, word};
use crate::clause::{Clause, ClauseKind, RangeNames, WrittenLayout, WrittenSource};
use crate::layouts::{layout_name, layout_section};
use crate::lists::settings_in_brackets;
use crate::parts::{self, DictionaryParts, FunctionParts};
use crate::settings::{Owner, Section, Setting, source_section};
use ddl_tokens::{ReadFault, Reader, SyntaxFault};
use dict_schema::Lifetime;
use dict_value::{Bytes, ListOf};
use std::alloc::Global;

/// A source with its keyword.
#[tactic(auto, unfolding(crate::specs::Reading::source_at))]
fn source(alloc: Global, owner: Owner, r: &mut Reader<'_>) -> Result<WrittenSource, ReadFault>
    ensures value { Gives (λ source. source) result r.new (source_at owner r.old) }
    ensures shorter { OnOk result (length r.new < length r.old) }
{
    r.keyword(b"SOURCE")?;
    r.sign(b'(')?;
    let kind = source_kind(r)?;
    let settings = settings_in_brackets(alloc, source_section(owner, kind), r)?;
    r.sign(b')')?;
    Ok(WrittenSource { kind, settings })
}

/// Whether a list of settings can't be left out.
fn wants_settings(section: Section) -> bool
    ensures { result ≡ has_some (wanted_settings section) }
{
    match section {
        Section::Flat | Section::Hashed | Section::Range | Section::Bare => false,
        _ => true,
    }
}

/// The settings of a layout, where they stand there.
#[tactic(auto, unfolding(crate::specs::Reading::layout_settings_at))]
fn layout_settings(
    alloc: Global,
    section: Section,
    r: &mut Reader<'_>,
) -> Result<Option<ListOf<Setting>>, ReadFault>
    ensures value { Gives (λ settings. settings) result r.new (layout_settings_at section r.old) }
    ensures shorter { OnOk result (length r.new ≤ length r.old) }
{
    if !wants_settings(section) && !r.sees_sign(b'(') {
        return Ok(None);
    }
    Ok(Some(settings_in_brackets(alloc, section, r)?))
}

fn or_empty(alloc: Global, settings: Option<ListOf<Setting>>) -> ListOf<Setting>
    ensures { result ≡ or_empty settings }
{
    match settings {
        Some(settings) => settings,
        None => ListOf::new(alloc),
    }
}

/// A layout with its keyword.
#[tactic(auto, unfolding(crate::specs::Reading::layout_at))]
fn layout(alloc: Global, r: &mut Reader<'_>) -> Result<WrittenLayout, ReadFault>
    ensures value { Gives (λ layout. layout) result r.new (layout_at r.old) }
    ensures shorter { OnOk result (length r.new < length r.old) }
{
    r.keyword(b"LAYOUT")?;
    r.sign(b'(')?;
    let name = layout_name(r)?;
    let settings = or_empty(alloc, layout_settings(alloc, layout_section(name), r)?);
    r.sign(b')')?;
    Ok(WrittenLayout { name, settings })
}

/// A whole number of 32 bits.
#[tactic(auto, unfolding(crate::specs::Reading::short_at))]
fn short(alloc: Global, r: &mut Reader<'_>) -> Result<u32, ReadFault>
    ensures value { Gives (λ n. n) result r.new (short_at r.old) }
    ensures shorter { OnOk result (length r.new < length r.old) }
{
    choices::short(alloc, r)
}

#[tactic(auto, unfolding(crate::specs::Reading::min_max_at))]
fn min_max(alloc: Global, r: &mut Reader<'_>) -> Result<Lifetime, ReadFault>
    ensures value { Gives (λ lifetime. lifetime) result r.new (min_max_at r.old) }
    ensures shorter { OnOk result (length r.new < length r.old) }
{
    r.keyword(b"MIN")?;
    let min = short(alloc, r)?;
    r.keyword(b"MAX")?;
    let max = short(alloc, r)?;
    Ok(Lifetime { min, max })
}

#[tactic(auto, unfolding(crate::specs::Reading::max_min_at))]
fn max_min(alloc: Global, r: &mut Reader<'_>) -> Result<Lifetime, ReadFault>
    ensures value { Gives (λ lifetime. lifetime) result r.new (max_min_at r.old) }
    ensures shorter { OnOk result (length r.new < length r.old) }
{
    r.keyword(b"MAX")?;
    let max = short(alloc, r)?;
    r.keyword(b"MIN")?;
    let min = short(alloc, r)?;
    Ok(Lifetime { min, max })
}

/// The numbers of a lifetime, in any of their spellings.
#[tactic(auto, unfolding(crate::specs::Reading::bounds_at))]
fn bounds(alloc: Global, r: &mut Reader<'_>) -> Result<Lifetime, ReadFault>
    ensures value { Gives (λ lifetime. lifetime) result r.new (bounds_at r.old) }
    ensures shorter { OnOk result (length r.new < length r.old) }
{
    if r.sees_number() {
        let n = short(alloc, r)?;
        return Ok(Lifetime { min: n, max: n });
    }
    if r.sees_keyword(b"MIN") {
        return min_max(alloc, r);
    }
    max_min(alloc, r)
}

/// A lifetime with its keyword.
#[tactic(auto, unfolding(crate::specs::Reading::lifetime_at))]
fn lifetime(alloc: Global, r: &mut Reader<'_>) -> Result<Lifetime, ReadFault>
    ensures value { Gives (λ lifetime. lifetime) result r.new (lifetime_at r.old) }
    ensures shorter { OnOk result (length r.new < length r.old) }
{
    r.keyword(b"LIFETIME")?;
    r.sign(b'(')?;
    let lifetime = bounds(alloc, r)?;
    r.sign(b')')?;
    Ok(lifetime)
}

/// The columns of a range, with its keyword.
#[tactic(auto, unfolding(crate::specs::Reading::range_at))]
fn range(alloc: Global, r: &mut Reader<'_>) -> Result<RangeNames, ReadFault>
    ensures value { Gives (λ range. range) result r.new (range_at r.old) }
    ensures shorter { OnOk result (length r.new < length r.old) }
{
    r.keyword(b"RANGE")?;
    r.sign(b'(')?;
    r.keyword(b"MIN")?;
    let start = r.name(alloc)?;
    r.keyword(b"MAX")?;
    let end = r.name(alloc)?;
    r.sign(b')')?;
    Ok(RangeNames { start, end })
}

/// The bound on an output, with its keyword.
#[tactic(auto, unfolding(crate::specs::Reading::output_settings_at))]
fn output_settings(alloc: Global, r: &mut Reader<'_>) -> Result<u64, ReadFault>
    ensures value { Gives (λ output. output) result r.new (output_settings_at r.old) }
    ensures shorter { OnOk result (length r.new < length r.old) }
{
    r.keyword(b"SETTINGS")?;
    r.sign(b'(')?;
    word(r, b"max_output_bytes")?;
    r.sign(b'=')?;
    let output = whole(alloc, r)?;
    r.sign(b')')?;
    Ok(output)
}

/// The bound on an output with its keyword, where it stands there.
#[tactic(auto, unfolding(crate::specs::Reading::output_if_there_at))]
fn output_if_there(alloc: Global, r: &mut Reader<'_>) -> Result<Option<u64>, ReadFault>
    ensures value { Gives (λ output. output) result r.new (output_if_there_at r.old) }
    ensures shorter { OnOk result (length r.new ≤ length r.old) }
{
    if !r.sees_keyword(b"SETTINGS") {
        return Ok(None);
    }
    Ok(Some(output_settings(alloc, r)?))
}

/// A comment with its keyword.
#[tactic(auto, unfolding(crate::specs::Reading::comment_clause_at))]
fn comment(alloc: Global, r: &mut Reader<'_>) -> Result<Bytes, ReadFault>
    ensures value { Gives (λ comment. comment) result r.new (comment_clause_at r.old) }
    ensures shorter { OnOk result (length r.new < length r.old) }
{
    r.keyword(b"COMMENT")?;
    r.string(alloc)
}

pub(crate) fn clause_number(kind: ClauseKind) -> u8
    ensures { result ≡ clause_number kind }
{
    match kind {
        ClauseKind::Source => 0,
        ClauseKind::Layout => 1,
        ClauseKind::Lifetime => 2,
        ClauseKind::Range => 3,
        ClauseKind::Settings => 4,
        ClauseKind::Comment => 5,
    }
}

pub(crate) fn number_of_clause(clause: &Clause) -> u8
    ensures { result ≡ number_of_clause clause.now }
{
    match clause {
        Clause::Source(_) => 0,
        Clause::Layout(_) => 1,
        Clause::Lifetime(_) => 2,
        Clause::Range(_) => 3,
        Clause::Settings(_) => 4,
        Clause::Comment(_) => 5,
    }
}

/// Whether one of the clauses has this number.
#[tactic(auto, unfolding(ddl_tokens::specs::Lists::has_number))]
fn has_clause(number: u8, clauses: &[Clause]) -> bool
    ensures { result ≡ has_number number_of_clause number clauses.now }
{
    let mut rest = clauses;
    while let [clause, others @ ..] = rest {
        if number_of_clause(clause) == number {
            return true;
        }
        rest = others;
    }
    false
}

/// The kind of the clause that the token in hand begins.
#[tactic(auto, unfolding(crate::specs::Reading::clause_kind_ahead))]
fn clause_kind(r: &Reader<'_>) -> Option<ClauseKind>
    ensures { result ≡ clause_kind_ahead r.now }
{
    if r.sees_keyword(b"SOURCE") {
        Some(ClauseKind::Source)
    } else if r.sees_keyword(b"LAYOUT") {
        Some(ClauseKind::Layout)
    } else if r.sees_keyword(b"LIFETIME") {
        Some(ClauseKind::Lifetime)
    } else if r.sees_keyword(b"RANGE") {
        Some(ClauseKind::Range)
    } else if r.sees_keyword(b"SETTINGS") {
        Some(ClauseKind::Settings)
    } else if r.sees_keyword(b"COMMENT") {
        Some(ClauseKind::Comment)
    } else {
        None
    }
}

#[tactic(auto, unfolding(crate::specs::Reading::dictionary_clause_at))]
fn clause(alloc: Global, kind: ClauseKind, r: &mut Reader<'_>) -> Result<Clause, ReadFault>
    ensures value { Gives (λ clause. clause) result r.new (dictionary_clause_at kind r.old) }
    ensures shorter { OnOk result (length r.new < length r.old) }
{
    match kind {
        ClauseKind::Source => Ok(Clause::Source(source(alloc, Owner::Dictionary, r)?)),
        ClauseKind::Layout => Ok(Clause::Layout(layout(alloc, r)?)),
        ClauseKind::Lifetime => Ok(Clause::Lifetime(lifetime(alloc, r)?)),
        ClauseKind::Range => Ok(Clause::Range(range(alloc, r)?)),
        ClauseKind::Settings => Ok(Clause::Settings(output_settings(alloc, r)?)),
        ClauseKind::Comment => Ok(Clause::Comment(comment(alloc, r)?)),
    }
}

/// Whether the clauses that are wanted are there.
#[tactic(auto, unfolding(ddl_tokens::specs::Lists::has_all))]
fn has_wanted(clauses: &[Clause]) -> bool
    ensures { result ≡ has_all number_of_clause wanted_clauses clauses.now }
{
    has_clause(0, clauses) && has_clause(1, clauses)
}

#[tactic(auto, unfolding(crate::specs::Reading::next_dictionary_clause))]
fn next_clause(
    alloc: Global,
    r: &mut Reader<'_>,
    before: &mut ListOf<Clause>,
) -> Result<bool, ReadFault>
    ensures value { GivesStep (λ clauses. clauses) result before.new r.new (next_dictionary_clause before.old r.old) }
    ensures shorter { IfOk result (λ more. IsTrue more → length r.new < length r.old) }
    ensures no_longer { OnOk result (length r.new ≤ length r.old) }
{
    let place = r.place();
    let Some(kind) = clause_kind(r) else {
        if has_wanted(before.as_slice()) {
            return Ok(false);
        }
        return Err(r.unexpected());
    };
    if has_clause(clause_number(kind), before.as_slice()) {
        return Err(ReadFault::Syntax(SyntaxFault::Twice(place)));
    }
    before.push(clause(alloc, kind, r)?)?;
    Ok(true)
}

/// The clauses of a dictionary, up to the token that begins none.
#[tactic(auto, using(ddl_tokens::proofs::Loops::begins, ddl_tokens::proofs::Loops::goes))]
fn more_clauses(
    alloc: Global,
    r: &mut Reader<'_>,
    mut clauses: ListOf<Clause>,
) -> Result<ListOf<Clause>, ReadFault>
    ensures value { Gives (λ clauses. clauses) result r.new (repeat next_dictionary_clause clauses r.old) }
    ensures shorter { OnOk result (length r.new ≤ length r.old) }
{
    while next_clause(alloc, r, &mut clauses)? {}
    Ok(clauses)
}

/// The clauses of a dictionary, and what they say.
#[tactic(auto, unfolding(crate::specs::Reading::dictionary_clauses_at))]
pub(crate) fn dictionary_clauses(
    alloc: Global,
    r: &mut Reader<'_>,
) -> Result<DictionaryParts, ReadFault>
    ensures value { Gives (λ parts. parts) result r.new (dictionary_clauses_at r.old) }
    ensures shorter { OnOk result (length r.new ≤ length r.old) }
{
    let clauses = more_clauses(alloc, r, ListOf::new(alloc))?;
    Ok(parts::dictionary_parts(alloc, clauses.as_slice())?)
}

/// The source of a function and its settings, and what they say.
#[tactic(auto, unfolding(crate::specs::Reading::function_clauses_at, crate::specs::Reading::written_function_at))]
pub(crate) fn function_clauses(
    alloc: Global,
    r: &mut Reader<'_>,
) -> Result<FunctionParts, ReadFault>
    ensures value { Gives (λ parts. parts) result r.new (function_clauses_at r.old) }
    ensures shorter { OnOk result (length r.new < length r.old) }
{
    let source = source(alloc, Owner::Function, r)?;
    let output = output_if_there(alloc, r)?;
    Ok(parts::function_parts(alloc, &source, output)?)
}
