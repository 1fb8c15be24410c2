// The first field of a request.
ghost use Rattle.std.specs.Prelude.{◌≡◌};
ghost use Rattle.wire_text.specs.steps.Fields.{lookup_word_in, request_word};

/// The words that a request can begin with, and those that can follow the number of a block.
#[derive(Clone, Copy, Debug, PartialEq, Eq)]
pub(crate) enum Word {
    Get,
    GetOrDefault,
    GetOrNull,
    Has,
    Call,
    Hierarchy,
    Children,
    IsIn,
    Descendants,
    Many,
    Reload,
    Status,
    Show,
    After,
    Config,
    Quit,
}

/// The words of lookups, of which a block has one too.
fn lookup_word(text: &[u8]) -> Option<Word>
    ensures { result ≡ lookup_word_in text.now }
{
    if text == b"dictGet".as_slice() {
        Some(Word::Get)
    } else if text == b"dictGetOrDefault".as_slice() {
        Some(Word::GetOrDefault)
    } else if text == b"dictGetOrNull".as_slice() {
        Some(Word::GetOrNull)
    } else if text == b"dictHas".as_slice() {
        Some(Word::Has)
    } else if text == b"call".as_slice() {
        Some(Word::Call)
    } else if text == b"dictGetHierarchy".as_slice() {
        Some(Word::Hierarchy)
    } else if text == b"dictGetChildren".as_slice() {
        Some(Word::Children)
    } else if text == b"dictIsIn".as_slice() {
        Some(Word::IsIn)
    } else if text == b"dictGetDescendants".as_slice() {
        Some(Word::Descendants)
    } else {
        None
    }
}

/// The word of a request that a text spells.
pub(crate) fn read_word(text: &[u8]) -> Option<Word>
    ensures { result ≡ request_word text.now }
{
    if text == b"many".as_slice() {
        Some(Word::Many)
    } else if text == b"reload".as_slice() {
        Some(Word::Reload)
    } else if text == b"status".as_slice() {
        Some(Word::Status)
    } else if text == b"show".as_slice() {
        Some(Word::Show)
    } else if text == b"after".as_slice() {
        Some(Word::After)
    } else if text == b"reloadConfig".as_slice() {
        Some(Word::Config)
    } else if text == b"quit".as_slice() {
        Some(Word::Quit)
    } else {
        lookup_word(text)
    }
}
