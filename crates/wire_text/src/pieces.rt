// Pieces of replies, appended one behind another. After `NoMemory` a front of a piece may stand behind what was there.
ghost use Rattle.std.specs.Prelude.{◌≡◌, ◌++◌, codes, decimal, length, take, OnErr, OnOk};
ghost use Rattle.wire_text.specs.Replies.{then_field};

use dict_value::{Bytes, NoMemory, push_number};
use itoa::Integer;

/// Appends a word and a number behind it.
pub(crate) fn push_numbered<I: Integer>(out: &mut Bytes, word: &[u8], n: I) -> Result<(), NoMemory>
    ensures ok { OnOk result (out.new ≡ out.old ++ (word.now ++ I.text n)) }
    ensures err { OnErr result (take (length out.old) out.new ≡ out.old) }
{
    out.extend(word)?;
    push_number(out, n)
}

/// Appends a word and two numbers behind it.
pub(crate) fn push_pair(
    out: &mut Bytes,
    word: &[u8],
    first: u32,
    second: u32,
) -> Result<(), NoMemory>
    ensures ok { OnOk result (out.new ≡ out.old ++ (word.now ++ (decimal first ++ (codes " " ++ decimal second)))) }
    ensures err { OnErr result (take (length out.old) out.new ≡ out.old) }
{
    push_numbered(out, word, first)?;
    push_numbered(out, b" ", second)
}
