// A definitions file, statement by statement.
ghost use Rattle.std.specs.Prelude.{◌≡◌, ◌<◌, ◌≤◌, length, All, IfOk, IsTrue, OnOk};
ghost use Rattle.dict_schema.specs.Sound.{IsSoundItem};
ghost use Rattle.ddl_tokens.specs.Reading.{kind_ahead};
ghost use Rattle.ddl_text.specs.Grammar.{is_last_token};
ghost use Rattle.ddl_text.specs.Files.{FallsFor, FallsHere, GoesOn, IfFault, IsReadWhole};

use crate::fault::FileFault;
use crate::judging::take;
use crate::statements::statement;
use ddl_tokens::{Reader, TokenKind};
use dict_schema::Item;
use dict_value::ListOf;
use std::alloc::Global;

/// Whether the text ends here.
fn is_at_end(r: &Reader<'_>) -> bool
    ensures { result ≡ is_last_token (kind_ahead r.now) }
{
    matches!(r.kind(), TokenKind::End)
}

/// One more item, where the text has one; it answers whether another statement may follow.
fn next_item(alloc: Global, r: &mut Reader<'_>, items: &mut ListOf<Item>) -> Result<bool, FileFault>
    requires { length items.old ≤ 256 }
    ensures value { IfOk result (GoesOn items.old r.old items.new r.new) }
    ensures refused { IfFault result (FallsHere items.old r.old) }
    ensures sound { OnOk result (All IsSoundItem items.old → All IsSoundItem items.new) }
    ensures shorter { IfOk result (λ more. IsTrue more → length r.new < length r.old) }
{
    if is_at_end(r) {
        return Ok(false);
    }
    let statement = statement(alloc, r)?;
    let more = statement.ended;
    let item = take(alloc, items.as_slice(), statement)?;
    items.push(item)?;
    Ok(more)
}

/// The items of a whole text.
pub(crate) fn read_items(alloc: Global, r: &mut Reader<'_>) -> Result<ListOf<Item>, FileFault>
    ensures value { IfOk result (IsReadWhole r.old) }
    ensures refused { IfFault result (FallsFor r.old) }
    ensures sound { IfOk result (All IsSoundItem) }
{
    let mut items = ListOf::new(alloc);
    while next_item(alloc, r, &mut items)? {}
    Ok(items)
}
