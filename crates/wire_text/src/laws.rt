// What holds of every input and every reply, whatever is called.
ghost use Rattle.std.specs.Prelude.{◌≡◌, ◌<◌, ◌^◌, ℕ, List, Bool, length, map};
ghost use Rattle.std.specs.List.{AllByRecursion};
ghost use Rattle.wire_text.specs.Replies.{IsNumbered, IsWholeLine, reply_text, told_line};
ghost use Rattle.wire_text.specs.RequestTexts.{AreHeard, Heard};
ghost use Rattle.wire_text.specs.Requests.{IsRequest};
ghost use Rattle.wire_text.specs.declared.reply.Line.{Line};
ghost use Rattle.wire_text.specs.declared.reply.Mark.{Mark};
ghost use Rattle.wire_text.specs.declared.reply.Reply.TheVariants as reply;
ghost use Rattle.wire_text.specs.declared.request.Request.{Request};

/// Lines are no two requests.
pub fn one_request()
    ensures { (line : List ℕ) (more : List (List ℕ)) (request other : Request) → IsRequest line more request
        → IsRequest line more other → request ≡ other }
{}

/// An input has one list of requests: it can't have none, and it has no two.
pub fn one_list_of_requests()
    ensures some { (closed : Bool) (text : List ℕ) → ¬ ((heard : List Heard) → ¬ AreHeard closed text heard) }
    ensures one { (closed : Bool) (text : List ℕ) (heard others : List Heard) → AreHeard closed text heard
        → AreHeard closed text others → heard ≡ others }
{}

/// The text of a value's reply tells what the value comes from, and the value.
pub fn one_value_of_a_text()
    ensures { (mark other : Mark) (text written : List ℕ) → IsNumbered mark → IsNumbered other
        → reply_text (reply.One mark text) ≡ reply_text (reply.One other written)
        → (mark ≡ other) × (text ≡ written) }
{}

/// The text of a block's reply tells what its values come from, and each of them.
pub fn one_block_of_a_text()
    ensures { (mark other : Mark) (lines written : List Line) → IsNumbered mark → IsNumbered other
        → length lines < 2 ^ 64 → length written < 2 ^ 64
        → AllByRecursion IsWholeLine lines → AllByRecursion IsWholeLine written
        → reply_text (reply.Many mark lines) ≡ reply_text (reply.Many other written)
        → (mark ≡ other) × (map (told_line mark) lines ≡ map (told_line mark) written) }
{}

#[cfg(test)]
mod tests;
