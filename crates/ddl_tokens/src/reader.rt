// A text, token by token.
ghost use Rattle.std.specs.Prelude.{◌≡◌, ◌≢◌, ◌<◌, Err, length, drop, List, IfOk, OnErr, OnOk, IsTrue};
ghost use Rattle.ddl_tokens.specs.declared.fault.ReadFault.TheVariants as fault;
ghost use Rattle.ddl_tokens.specs.declared.fault.SyntaxFault.TheVariants.{Unexpected};
ghost use Rattle.ddl_tokens.specs.Letters.{same_letters};
ghost use Rattle.ddl_tokens.specs.Reading.{Gives, bytes_ahead, bytes_at, goes_on, is_name, is_number, is_string};
ghost use Rattle.ddl_tokens.specs.Reading.{is_keyword, is_the_sign, keyword_at, kind_ahead, of_kind, passes};
ghost use Rattle.ddl_tokens.specs.Reading.{place_ahead, sign_at};
ghost use Rattle.ddl_tokens.specs.Tokens.{Token, AreTokens};

use crate::fault::{ReadFault, SyntaxFault};
use crate::letters::LetterCase;
use crate::lexing::next_token;
use crate::quoted::{is_quoted, is_same, read_quoted};
use crate::token::{Lexed, TokenKind};
use dict_value::{Bytes, NoMemory};
use std::alloc::Global;
use std::marker::Model;

/// Reads a text token by token. A clause sees the tokens that are to come, the one in hand first; the
/// last is the text's end, or where no token can be read.
#[derive(Drop)]
pub struct Reader<'a> {
    token: Lexed<'a>,
    rest: &'a [u8],
    /// How many bytes the whole text has.
    size: u32,
}

impl<'a> Model for Reader<'a> {
    ghost use Rattle.std.specs.Prelude.{◌≤◌, length, List};
    ghost use Rattle.ddl_tokens.specs.Tokens.{Token};
    ghost use Rattle.ddl_tokens.specs.steps.Lexer.{ahead, token_of};

    ghost Value = { List Token };

    ghost view = { λ r. ahead (token_of r.token) r.size r.rest.now };

    ghost invariant = { λ r. length r.rest.now ≤ r.size };
}

impl<'a> Reader<'a> {
    /// Takes no memory.
    pub fn new(text: &'a [u8]) -> Reader<'a>
        requires { length text.now < 4294967295 }
        // The tokens of the text, and nothing else is.
        ensures tokens { AreTokens text.now result }
        ensures only { (tokens : List Token) → AreTokens text.now tokens → result ≡ tokens }
    {
        let size = text.len() as u32;
        let (token, rest) = next_token(size, text);
        Reader { token, rest, size }
    }

    /// Where the token in hand begins, counted from the text's start; at the end the text's length.
    pub fn place(&self) -> u32
        ensures { result ≡ place_ahead self.now }
    {
        self.token.place
    }

    #[tactic(auto, unfolding(crate::specs::Reading::kind_ahead))]
    pub fn kind(&self) -> TokenKind
        ensures { result ≡ kind_ahead self.now }
    {
        self.token.kind
    }

    /// Whether the token in hand is this word without quotes, in any letter case.
    #[tactic(auto, unfolding(crate::specs::Reading::passes, crate::specs::Reading::is_keyword))]
    pub fn sees_keyword(&self, word: &[u8]) -> bool
        ensures { result ≡ passes (is_keyword word.now) self.now }
    {
        matches!(self.token.kind, TokenKind::Word)
            && is_same(LetterCase::Any, self.token.text, word)
    }

    #[tactic(auto, unfolding(crate::specs::Reading::passes, crate::specs::Reading::is_the_sign))]
    pub fn sees_sign(&self, sign: u8) -> bool
        ensures { result ≡ passes (is_the_sign sign) self.now }
    {
        matches!(self.token.kind, TokenKind::Sign)
            && is_same(LetterCase::AsWritten, self.token.text, &[sign])
    }

    /// Whether the token in hand is a word, with or without quotes.
    #[tactic(auto, unfolding(crate::specs::Reading::passes))]
    pub fn sees_name(&self) -> bool
        ensures { result ≡ passes (of_kind is_name) self.now }
    {
        matches!(self.token.kind, TokenKind::Word | TokenKind::QuotedWord)
    }

    #[tactic(auto, unfolding(crate::specs::Reading::passes))]
    pub fn sees_string(&self) -> bool
        ensures { result ≡ passes (of_kind is_string) self.now }
    {
        matches!(self.token.kind, TokenKind::String)
    }

    #[tactic(auto, unfolding(crate::specs::Reading::passes))]
    pub fn sees_number(&self) -> bool
        ensures { result ≡ passes (of_kind is_number) self.now }
    {
        matches!(self.token.kind, TokenKind::Number)
    }

    /// Whether another token follows that in hand.
    #[tactic(auto, unfolding(crate::specs::Reading::passes))]
    pub fn goes_on(&self) -> bool
        ensures { result ≡ passes (of_kind goes_on) self.now }
    {
        !matches!(self.token.kind, TokenKind::Broken | TokenKind::End)
    }

    /// Whether the token in hand stands for this word.
    #[tactic(auto, unfolding(crate::specs::Reading::bytes_ahead))]
    pub fn means(&self, case: LetterCase, word: &[u8]) -> bool
        ensures { result ≡ same_letters case (bytes_ahead self.now) word.now }
    {
        match self.token.kind {
            TokenKind::QuotedWord | TokenKind::String => {
                is_quoted(case, self.token.quote, self.token.text, word)
            }
            _ => is_same(case, self.token.text, word),
        }
    }

    /// The bytes that the token in hand stands for.
    #[tactic(auto, unfolding(crate::specs::Reading::bytes_ahead))]
    pub fn bytes(&self, alloc: Global) -> Result<Bytes, NoMemory>
        ensures { IfOk result (λ bytes. bytes ≡ bytes_ahead self.now) }
    {
        match self.token.kind {
            TokenKind::QuotedWord | TokenKind::String => {
                let own = self.token.text.len().saturating_sub(self.rest.len());
                read_quoted(alloc, self.token.quote, self.token.text, own)
            }
            _ => Bytes::copy_of(alloc, self.token.text),
        }
    }

    /// Leaves the token in hand behind.
    pub fn skip(&mut self)
        requires { IsTrue (passes (of_kind goes_on) self.old) }
        ensures rest { self.new ≡ drop 1 self.old }
        ensures shorter { length self.new < length self.old }
    {
        let (token, rest) = next_token(self.size, self.rest);
        self.token = token;
        self.rest = rest;
    }

    #[tactic(auto, using(crate::proofs::Going::keyword_goes_on), unfolding(crate::specs::Reading::keyword_at))]
    pub fn keyword(&mut self, word: &[u8]) -> Result<(), ReadFault>
        ensures value { Gives (λ _. tt) result self.new (keyword_at word.now self.old) }
        ensures takes_none { result ≢ Err fault.NoMemory }
        ensures shorter { OnOk result (length self.new < length self.old) }
        ensures stays { OnErr result (self.new ≡ self.old) }
    {
        if !self.sees_keyword(word) {
            return Err(self.unexpected());
        }
        self.skip();
        Ok(())
    }

    #[tactic(auto, using(crate::proofs::Going::sign_goes_on), unfolding(crate::specs::Reading::sign_at))]
    pub fn sign(&mut self, sign: u8) -> Result<(), ReadFault>
        ensures value { Gives (λ _. tt) result self.new (sign_at sign self.old) }
        ensures takes_none { result ≢ Err fault.NoMemory }
        ensures shorter { OnOk result (length self.new < length self.old) }
        ensures stays { OnErr result (self.new ≡ self.old) }
    {
        if !self.sees_sign(sign) {
            return Err(self.unexpected());
        }
        self.skip();
        Ok(())
    }

    /// The bytes of a word, with or without quotes.
    #[tactic(auto, using(crate::proofs::Going::name_goes_on), unfolding(crate::specs::Reading::bytes_at))]
    pub fn name(&mut self, alloc: Global) -> Result<Bytes, ReadFault>
        ensures value { Gives (λ bytes. bytes) result self.new (bytes_at is_name self.old) }
        ensures shorter { OnOk result (length self.new < length self.old) }
        ensures stays { OnErr result (self.new ≡ self.old) }
    {
        if !self.sees_name() {
            return Err(self.unexpected());
        }
        let bytes = self.bytes(alloc)?;
        self.skip();
        Ok(bytes)
    }

    #[tactic(auto, using(crate::proofs::Going::string_goes_on), unfolding(crate::specs::Reading::bytes_at))]
    pub fn string(&mut self, alloc: Global) -> Result<Bytes, ReadFault>
        ensures value { Gives (λ bytes. bytes) result self.new (bytes_at is_string self.old) }
        ensures shorter { OnOk result (length self.new < length self.old) }
        ensures stays { OnErr result (self.new ≡ self.old) }
    {
        if !self.sees_string() {
            return Err(self.unexpected());
        }
        let bytes = self.bytes(alloc)?;
        self.skip();
        Ok(bytes)
    }

    /// The text of a number, which stays where it is.
    #[tactic(auto, unfolding(crate::specs::Reading::bytes_at, crate::specs::Reading::bytes_ahead, crate::specs::Reading::passes))]
    pub fn number(&mut self) -> Result<&'a [u8], ReadFault>
        ensures value { Gives (λ text. text.now) result self.new (bytes_at is_number self.old) }
        ensures takes_none { result ≢ Err fault.NoMemory }
        ensures shorter { OnOk result (length self.new < length self.old) }
        ensures stays { OnErr result (self.new ≡ self.old) }
    {
        let TokenKind::Number = self.token.kind else {
            return Err(self.unexpected());
        };
        let text = self.token.text;
        self.skip();
        Ok(text)
    }

    /// The fault of a token that can't stand where it is.
    pub fn unexpected(&self) -> ReadFault
        ensures { result ≡ fault.Syntax (Unexpected (place_ahead self.now)) }
    {
        ReadFault::Syntax(SyntaxFault::Unexpected(self.token.place))
    }
}
