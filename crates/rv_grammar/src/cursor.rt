//! The tokens that are left of a text.

ghost use Rattle.std.specs.Prelude.{◌≡◌, ℕ, length, Option, Some, None};
ghost use Rattle.rv_lex.specs.Lexes.{lexemes};
ghost use Rattle.rv_grammar.specs.Reading as spec;
ghost use Rattle.rv_grammar.specs.Contract.{Reads};

use crate::fault::ParseFault;
use rv_lex::kind::Kind;
use rv_lex::token::Token;
use std::marker::Model;

/// The tokens that are left. Contracts see them as a list.
#[derive(Drop)]
pub struct Cursor<'a> {
    tokens: &'a [Token<'a>],
    // The text's length.
    end: usize,
}

impl<'a> Model for Cursor<'a> {
    ghost use Rattle.std.specs.Prelude.{List};
    ghost use Rattle.rv_lex.specs.Lexes.{Lexeme, lexemes};

    ghost Value = { List Lexeme };

    ghost view = { λ c. lexemes c.tokens.now };
}

impl<'a> Cursor<'a> {
    /// A cursor over all tokens of a text of that length.
    pub fn new(tokens: &'a [Token<'a>], end: usize) -> Cursor<'a>
        ensures { result ≡ lexemes tokens.now }
    {
        Cursor { tokens, end }
    }

    /// How many tokens are left.
    pub fn len(&self) -> usize
        ensures { result ≡ length self.now }
    {
        self.tokens.len()
    }

    /// Where the next token begins, or the text's length.
    pub fn place(&self) -> usize
        ensures { spec.IsPlace self.now result }
    {
        match self.tokens.first() {
            Some(token) => token.place,
            None => self.end,
        }
    }

    /// Where the next token begins, or 0 where there is none.
    pub fn at(&self) -> usize
        ensures { result ≡ spec.place self.now }
    {
        match self.tokens.first() {
            Some(token) => token.place,
            None => 0,
        }
    }

    /// The kind of the next token.
    pub fn kind(&self) -> Option<Kind>
        ensures { result ≡ spec.kind self.now }
    {
        match self.tokens.first() {
            Some(token) => Some(token.kind),
            None => None,
        }
    }

    /// What the next token spells, or nothing.
    pub fn text(&self) -> &'a str
        ensures { result.now ≡ spec.text self.now }
    {
        match self.tokens.first() {
            Some(token) => token.text,
            None => "",
        }
    }

    /// The value of the next token, a literal.
    pub fn value(&self) -> u64
        ensures { result ≡ spec.value self.now }
    {
        match self.tokens.first() {
            Some(token) => token.value(),
            None => 0,
        }
    }

    /// Whether the next token is of that kind.
    pub fn sees(&self, what: Kind) -> bool
        ensures { result ≡ spec.sees what self.now }
    {
        match self.tokens.first() {
            Some(token) => token.kind == what,
            None => false,
        }
    }

    /// Whether the token after the next is of that kind.
    pub fn sees_second(&self, what: Kind) -> bool
        ensures { result ≡ spec.sees what (spec.next self.now) }
    {
        match self.tokens.get(1) {
            Some(token) => token.kind == what,
            None => false,
        }
    }

    /// Takes the next token, if there is one.
    pub fn skip(&mut self)
        ensures { self.new ≡ spec.next self.old }
    {
        if !self.tokens.is_empty() {
            self.tokens = &self.tokens[1..];
        }
    }

    /// Takes the next token, if it is of that kind.
    #[tactic(auto, unfolding(crate::specs::Reading::after))]
    pub fn eat(&mut self, what: Kind) -> bool
        ensures seen { result ≡ spec.sees what self.old }
        ensures after { self.new ≡ spec.after what self.old }
    {
        let seen = self.sees(what);
        if seen {
            self.skip();
        }
        seen
    }

    /// Takes the next token, which must be of that kind, and gives its place.
    #[tactic(auto, using(crate::proofs::Lists::place_is), unfolding(crate::specs::Reading::expect))]
    pub fn expect(&mut self, what: Kind) -> Result<usize, ParseFault>
        ensures { Reads (λ (at : ℕ). at) (spec.expect what self.old) result self.new }
    {
        let at = self.place();
        if !self.eat(what) {
            return Err(ParseFault::Unexpected(at));
        }
        Ok(at)
    }
}
