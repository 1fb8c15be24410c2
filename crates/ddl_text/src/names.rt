// The name of a dictionary.
ghost use Rattle.std.specs.Prelude.{◌≡◌, ◌<◌, ◌≤◌, length, OnOk};
ghost use Rattle.ddl_tokens.specs.Reading.{Gives};
ghost use Rattle.ddl_text.specs.Reading.{behind_point_at, behind_word_at, bracket_ahead_at, first_word_at, name_at};
ghost use Rattle.ddl_text.specs.Reading.{name_behind_at, written_name_at, not_exists_at};

use crate::statement::WrittenName;
use ddl_tokens::{ReadFault, Reader};
use dict_value::Bytes;
use std::alloc::Global;

/// A point and the word behind it, where they are there.
#[tactic(auto, unfolding(crate::specs::Reading::behind_point_at))]
fn behind_point(alloc: Global, r: &mut Reader<'_>) -> Result<Option<Bytes>, ReadFault>
    ensures value { Gives (λ second. second) result r.new (behind_point_at r.old) }
    ensures shorter { OnOk result (length r.new ≤ length r.old) }
{
    if !r.sees_sign(b'.') {
        return Ok(None);
    }
    r.sign(b'.')?;
    Ok(Some(r.name(alloc)?))
}

/// What may stand behind a name's first word.
#[tactic(auto, unfolding(crate::specs::Reading::name_behind_at))]
fn name_behind(alloc: Global, first: Bytes, r: &mut Reader<'_>) -> Result<WrittenName, ReadFault>
    ensures value { Gives (λ name. name) result r.new (name_behind_at first r.old) }
    ensures shorter { OnOk result (length r.new ≤ length r.old) }
{
    let second = behind_point(alloc, r)?;
    Ok(WrittenName { first, second })
}

#[tactic(auto, unfolding(crate::specs::Reading::name_at))]
fn name(alloc: Global, r: &mut Reader<'_>) -> Result<WrittenName, ReadFault>
    ensures value { Gives (λ name. name) result r.new (name_at r.old) }
    ensures shorter { OnOk result (length r.new < length r.old) }
{
    let first = r.name(alloc)?;
    name_behind(alloc, first, r)
}

/// NOT EXISTS and a name.
#[tactic(auto, unfolding(crate::specs::Reading::not_exists_at))]
fn not_exists(alloc: Global, r: &mut Reader<'_>) -> Result<WrittenName, ReadFault>
    ensures value { Gives (λ name. name) result r.new (not_exists_at r.old) }
    ensures shorter { OnOk result (length r.new < length r.old) }
{
    r.keyword(b"NOT")?;
    r.keyword(b"EXISTS")?;
    name(alloc, r)
}

/// A word, and whether it is IF without quotes.
#[tactic(auto, unfolding(crate::specs::Reading::first_word_at, ddl_tokens::specs::Reading::bytes_at))]
fn first_word(alloc: Global, r: &mut Reader<'_>) -> Result<(bool, Bytes), ReadFault>
    ensures value { Gives (λ word. word) result r.new (first_word_at r.old) }
    ensures shorter { OnOk result (length r.new < length r.old) }
{
    let is_if = r.sees_keyword(b"IF");
    let word = r.name(alloc)?;
    Ok((is_if, word))
}

/// What stands behind the first word: behind IF either NOT EXISTS and the name, or the rest of a name that IF begins.
#[tactic(auto, unfolding(crate::specs::Reading::behind_word_at))]
fn behind_word(
    alloc: Global,
    is_if: bool,
    word: Bytes,
    r: &mut Reader<'_>,
) -> Result<WrittenName, ReadFault>
    ensures value { Gives (λ name. name) result r.new (behind_word_at is_if word r.old) }
    ensures shorter { OnOk result (length r.new ≤ length r.old) }
{
    if is_if && r.sees_keyword(b"NOT") {
        return not_exists(alloc, r);
    }
    name_behind(alloc, word, r)
}

/// The bracket of the columns follows.
#[tactic(auto, unfolding(crate::specs::Reading::bracket_ahead_at))]
fn bracket_ahead(r: &Reader<'_>) -> Result<(), ReadFault>
    ensures { Gives (λ _. tt) result r.now (bracket_ahead_at r.now) }
{
    if !r.sees_sign(b'(') {
        return Err(r.unexpected());
    }
    Ok(())
}

/// The name of a dictionary, with IF NOT EXISTS before it or not, up to the bracket of the columns.
#[tactic(auto, unfolding(crate::specs::Reading::written_name_at))]
pub(crate) fn named(alloc: Global, r: &mut Reader<'_>) -> Result<WrittenName, ReadFault>
    ensures value { Gives (λ name. name) result r.new (written_name_at r.old) }
    ensures shorter { OnOk result (length r.new < length r.old) }
{
    let (is_if, word) = first_word(alloc, r)?;
    let name = behind_word(alloc, is_if, word, r)?;
    bracket_ahead(r)?;
    Ok(name)
}
