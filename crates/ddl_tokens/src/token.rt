// What a token is.

#[derive(Clone, Copy, Debug, PartialEq, Eq)]
pub enum TokenKind {
    /// Without quotes.
    Word,
    /// In backquotes or double quotes.
    QuotedWord,
    Number,
    /// In single quotes.
    String,
    Sign,
    /// No token can be read here.
    Broken,
    /// The text has no further token.
    End,
}

/// A token that was found, with its bytes in the text.
#[derive(Clone, Copy, Drop)]
pub(crate) struct Lexed<'a> {
    /// Where it begins, from the text's start.
    pub(crate) place: u32,
    pub(crate) kind: TokenKind,
    /// The sign that ends it, where it stands in quotes.
    pub(crate) quote: u8,
    /// Its own bytes; in quotes all that stand behind the first sign.
    pub(crate) text: &'a [u8],
}
