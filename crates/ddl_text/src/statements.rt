// The statements, read.
ghost use Rattle.std.specs.Prelude.{◌≡◌, ◌<◌, ◌≤◌, length, All, IfOk, OnOk};
ghost use Rattle.dict_schema.specs.Sound.{IsSoundType};
ghost use Rattle.ddl_tokens.specs.Reading.{Gives};
ghost use Rattle.ddl_text.specs.Files.{HasSoundTypes};
ghost use Rattle.ddl_text.specs.Reading.{begin_at, behind_columns_at, dictionary_at, ending_at};
ghost use Rattle.ddl_text.specs.Reading.{function_at, or_replace_at, statement_at};

use crate::names::named;
use crate::statement::{DictionaryText, FunctionText, Statement, Written, WrittenName};
use ddl_clauses::{dictionary_clauses, function_clauses};
use ddl_columns::{read_arguments, read_columns, read_key, read_type};
use ddl_tokens::{ReadFault, Reader, TokenKind};
use dict_schema::Column;
use dict_value::ListOf;
use std::alloc::Global;

/// A keyword, and the place of its first byte.
#[tactic(auto, unfolding(crate::specs::Reading::begin_at, ddl_tokens::specs::Reading::keyword_at))]
fn begin(r: &mut Reader<'_>, word: &[u8]) -> Result<u32, ReadFault>
    ensures value { Gives (λ place. place) result r.new (begin_at word.now r.old) }
    ensures shorter { OnOk result (length r.new < length r.old) }
{
    let place = r.place();
    r.keyword(word)?;
    Ok(place)
}

/// OR REPLACE, where it is there.
#[tactic(auto, unfolding(crate::specs::Reading::or_replace_at))]
fn or_replace(r: &mut Reader<'_>) -> Result<Option<()>, ReadFault>
    ensures value { Gives (λ found. found) result r.new (or_replace_at r.old) }
    ensures shorter { OnOk result (length r.new ≤ length r.old) }
{
    if !r.sees_keyword(b"OR") {
        return Ok(None);
    }
    r.keyword(b"OR")?;
    r.keyword(b"REPLACE")?;
    Ok(Some(()))
}

/// The end of a statement: whether a semicolon stands there, or else the text ends.
#[tactic(auto, unfolding(crate::specs::Reading::ending_at, crate::specs::Reading::text_end_at))]
fn ending(r: &mut Reader<'_>) -> Result<bool, ReadFault>
    ensures value { Gives (λ ended. ended) result r.new (ending_at r.old) }
    ensures shorter { OnOk result (length r.new ≤ length r.old) }
{
    if r.sees_sign(b';') {
        r.sign(b';')?;
        return Ok(true);
    }
    let TokenKind::End = r.kind() else {
        return Err(r.unexpected());
    };
    Ok(false)
}

/// What stands behind the columns of a dictionary.
#[tactic(auto, unfolding(crate::specs::Reading::behind_columns_at))]
fn behind_columns(
    alloc: Global,
    place: u32,
    name: WrittenName,
    columns: ListOf<Column>,
    r: &mut Reader<'_>,
) -> Result<Statement, ReadFault>
    ensures value { Gives (λ statement. statement) result r.new (behind_columns_at place name columns r.old) }
    ensures sound { All (λ column. IsSoundType column.ty) columns → IfOk result HasSoundTypes }
    ensures shorter { OnOk result (length r.new < length r.old) }
{
    let keys = read_key(alloc, r)?;
    let parts = dictionary_clauses(alloc, r)?;
    let ended = ending(r)?;
    let text = DictionaryText {
        name,
        columns,
        keys,
        parts,
    };
    Ok(Statement {
        place,
        written: Written::Dictionary(text),
        ended,
    })
}

#[tactic(auto, unfolding(crate::specs::Reading::dictionary_at))]
fn dictionary(alloc: Global, r: &mut Reader<'_>) -> Result<Statement, ReadFault>
    ensures value { Gives (λ statement. statement) result r.new (dictionary_at r.old) }
    ensures sound { IfOk result HasSoundTypes }
    ensures shorter { OnOk result (length r.new < length r.old) }
{
    let place = begin(r, b"CREATE")?;
    or_replace(r)?;
    r.keyword(b"DICTIONARY")?;
    let name = named(alloc, r)?;
    let columns = read_columns(alloc, r)?;
    behind_columns(alloc, place, name, columns, r)
}

#[tactic(auto, unfolding(crate::specs::Reading::function_at))]
fn function(alloc: Global, r: &mut Reader<'_>) -> Result<Statement, ReadFault>
    ensures value { Gives (λ statement. statement) result r.new (function_at r.old) }
    ensures sound { IfOk result HasSoundTypes }
    ensures shorter { OnOk result (length r.new < length r.old) }
{
    let place = begin(r, b"EXECUTABLE")?;
    r.keyword(b"FUNCTION")?;
    let name = r.name(alloc)?;
    let arguments = read_arguments(alloc, r)?;
    r.keyword(b"RETURNS")?;
    let returns = read_type(alloc, r)?;
    let parts = function_clauses(alloc, r)?;
    let ended = ending(r)?;
    let text = FunctionText {
        name,
        arguments,
        returns,
        parts,
    };
    Ok(Statement {
        place,
        written: Written::Function(text),
        ended,
    })
}

/// A statement with its end.
#[tactic(auto, unfolding(crate::specs::Reading::statement_at))]
pub(crate) fn statement(alloc: Global, r: &mut Reader<'_>) -> Result<Statement, ReadFault>
    ensures value { Gives (λ statement. statement) result r.new (statement_at r.old) }
    ensures sound { IfOk result HasSoundTypes }
    ensures shorter { OnOk result (length r.new < length r.old) }
{
    if r.sees_keyword(b"CREATE") {
        dictionary(alloc, r)
    } else {
        function(alloc, r)
    }
}
