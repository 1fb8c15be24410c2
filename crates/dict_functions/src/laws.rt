// What holds of every answer, whatever is called.
ghost use Rattle.std.specs.Prelude.{◌≡◌};
ghost use Rattle.std.specs.Option.{ForSome};
ghost use Rattle.dict_functions.specs.Answers.{AnswersSeen};
ghost use Rattle.dict_schema.specs.Sound.{IsSound};
ghost use Rattle.dict_version.specs.Contents.{Contents};
ghost use Rattle.version_slot.specs.Views.{Entered};
ghost use Rattle.wire_text.specs.declared.reply.Reply.{Reply};
ghost use Rattle.wire_text.specs.declared.request.Asked.{Asked};

/// What was seen of a slot gives one answer to a lookup, where the version's definition is sound.
pub fn one_answer()
    ensures { (seen : Entered Contents) (q : Asked) (reply other : Reply)
        → ForSome seen.version (λ (c : Contents). IsSound c.definition) → AnswersSeen seen q reply
        → AnswersSeen seen q other → reply ≡ other }
{}
