// The marks of a column.
ghost use Rattle.std.specs.Prelude.{◌≡◌, ◌<◌, ◌≤◌, [], length, IfOk, IsTrue, OnOk};
ghost use Rattle.ddl_tokens.specs.Lists.{GivesStep, has_number, repeat};
ghost use Rattle.ddl_tokens.specs.Reading.{Gives};
ghost use Rattle.ddl_columns.specs.Marks.{mark_number, word_of};
ghost use Rattle.ddl_columns.specs.Reading.{as_answer, mark_ahead, mark_at, next_mark};

use ddl_tokens::{ReadFault, Reader, SyntaxFault};
use dict_value::ListOf;
use std::alloc::Global;

/// What a column says of itself.
#[derive(Clone, Copy)]
pub enum Mark {
    Hierarchical,
    ObjectId,
    Injective,
}

fn word_of(mark: Mark) -> &'static [u8]
    ensures { result.now ≡ word_of mark }
{
    match mark {
        Mark::Hierarchical => b"HIERARCHICAL",
        Mark::ObjectId => b"IS_OBJECT_ID",
        Mark::Injective => b"INJECTIVE",
    }
}

fn mark_number(mark: Mark) -> u8
    ensures { result ≡ mark_number mark }
{
    match mark {
        Mark::Hierarchical => 0,
        Mark::ObjectId => 1,
        Mark::Injective => 2,
    }
}

/// Whether a mark is among those that were read.
#[tactic(auto, unfolding(ddl_tokens::specs::Lists::has_number))]
pub(crate) fn has_mark(wanted: Mark, marks: &[Mark]) -> bool
    ensures { result ≡ has_number mark_number (mark_number wanted) marks.now }
{
    let number = mark_number(wanted);
    let mut rest = marks;
    while let [mark, others @ ..] = rest {
        if mark_number(*mark) == number {
            return true;
        }
        rest = others;
    }
    false
}

/// The mark that the token in hand begins.
#[tactic(auto, unfolding(crate::specs::Reading::mark_ahead))]
fn mark_ahead(r: &Reader<'_>) -> Result<Option<Mark>, ReadFault>
    ensures { result ≡ as_answer (mark_ahead r.now) }
{
    if r.sees_keyword(b"HIERARCHICAL") {
        Ok(Some(Mark::Hierarchical))
    } else if r.sees_keyword(b"IS_OBJECT_ID") {
        Ok(Some(Mark::ObjectId))
    } else if r.sees_keyword(b"INJECTIVE") {
        Ok(Some(Mark::Injective))
    } else if r.sees_keyword(b"EXPRESSION") {
        Err(ReadFault::Syntax(SyntaxFault::Unsupported(r.place())))
    } else if r.sees_keyword(b"DEFAULT") || r.sees_sign(b'(') {
        Err(r.unexpected())
    } else {
        Ok(None)
    }
}

#[tactic(auto, unfolding(crate::specs::Reading::mark_at))]
fn read_mark(mark: Mark, r: &mut Reader<'_>) -> Result<Mark, ReadFault>
    ensures value { Gives (λ mark. mark) result r.new (mark_at mark r.old) }
    ensures shorter { OnOk result (length r.new < length r.old) }
{
    r.keyword(word_of(mark))?;
    Ok(mark)
}

#[tactic(auto, using(crate::proofs::MarkAhead::next_mark_is), unfolding(ddl_tokens::specs::Lists::has_all))]
fn next_mark(r: &mut Reader<'_>, before: &mut ListOf<Mark>) -> Result<bool, ReadFault>
    ensures value { GivesStep (λ marks. marks) result before.new r.new (next_mark before.old r.old) }
    ensures shorter { IfOk result (λ more. IsTrue more → length r.new < length r.old) }
    ensures no_longer { OnOk result (length r.new ≤ length r.old) }
{
    let place = r.place();
    let Some(kind) = mark_ahead(r)? else {
        return Ok(false);
    };
    if has_mark(kind, before.as_slice()) {
        return Err(ReadFault::Syntax(SyntaxFault::Twice(place)));
    }
    before.push(read_mark(kind, r)?)?;
    Ok(true)
}

#[tactic(auto, using(ddl_tokens::proofs::Loops::begins, ddl_tokens::proofs::Loops::goes))]
fn more_marks(r: &mut Reader<'_>, mut marks: ListOf<Mark>) -> Result<ListOf<Mark>, ReadFault>
    ensures value { Gives (λ marks. marks) result r.new (repeat next_mark marks r.old) }
    ensures shorter { OnOk result (length r.new ≤ length r.old) }
{
    while next_mark(r, &mut marks)? {}
    Ok(marks)
}

/// The marks of a column, up to the token that begins none.
pub(crate) fn column_marks(alloc: Global, r: &mut Reader<'_>) -> Result<ListOf<Mark>, ReadFault>
    ensures value { Gives (λ marks. marks) result r.new (repeat next_mark [] r.old) }
    ensures shorter { OnOk result (length r.new ≤ length r.old) }
{
    more_marks(r, ListOf::new(alloc))
}
