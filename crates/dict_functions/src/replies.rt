// Replies from their lines.
ghost use Rattle.std.specs.Prelude.{◌≡◌, ◌++◌, ◌⊎◌, false, length, OnErr, OnOk};
ghost use Rattle.dict_value.specs.Values.{FitsColumn};
ghost use Rattle.dict_value.specs.declared.value.Value.TheVariants.{Null};
ghost use Rattle.row_text.specs.Written.{printed};
ghost use Rattle.dict_functions.specs.Replies.{IsReplyOf};
ghost use Rattle.dict_functions.specs.Values.{flag};

use dict_value::{AttrType, Bytes, ListOf, NoMemory, Value};
use dict_version::print_cell;
use packed_rows::cell_of;
use wire_text::{Line, Mark, Reply};

/// The reply of some lines: a block, or the one line of a single lookup.
pub(crate) fn reply_of(block: bool, mark: Mark, mut lines: ListOf<Line>) -> Reply
    requires { block ≡ false → length lines ≡ 1 }
    ensures { IsReplyOf block mark lines result }
{
    if block {
        return Reply::Many { mark, lines };
    }
    match lines.pop_front() {
        Some(line) => Reply::One {
            mark,
            text: line.text,
        },
        None => unreachable!(),
    }
}

/// Appends the escaped text of a value, and `\N` for NULL; after `NoMemory` nothing has changed.
pub(crate) fn print_value(ty: &AttrType, value: &Value, out: &mut Bytes) -> Result<(), NoMemory>
    requires { (value.now ≡ Null) ⊎ FitsColumn ty.now value.now }
    ensures ok { OnOk result (out.new ≡ out.old ++ printed ty.now.base value.now) }
    ensures err { OnErr result (out.new ≡ out.old) }
{
    match value {
        Value::Null => out.extend(b"\\N"),
        _ => print_cell(ty, &cell_of(value), out),
    }
}

/// Yes or no.
pub(crate) fn flag(yes: bool) -> &'static [u8]
    ensures { result.now ≡ flag yes }
{
    if yes { b"1" } else { b"0" }
}
