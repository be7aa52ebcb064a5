//! The words of a text, each with its place.

ghost use Rattle.std.specs.Prelude.{◌≡◌, [], ◌∷◌, ◌++◌, OnOk};
ghost use Rattle.rv_lex.specs.Literals.{value_of};
ghost use Rattle.rv_lex.specs.Lexes.{lexeme, lexemes};

use crate::kind::Kind;
use crate::literal;
use std::alloc::{AllocFailed, Global};
use std::marker::Model;

/// A word of a text.
#[derive(Clone, Copy, Debug)]
pub struct Token<'a> {
    pub kind: Kind,
    /// The word as it stands in the text.
    pub text: &'a str,
    /// The byte offset of its first character, from 0.
    pub place: usize,
}

impl Token<'_> {
    /// The value of a literal, plain or based: at most 2147483647.
    pub fn value(&self) -> u64
        ensures { result ≡ value_of self.now.text.now }
    {
        literal::value_of(self.text.as_bytes())
    }
}

/// The words of a text, in order.
#[derive(Debug, Drop)]
pub struct Tokens<'a> {
    items: Vec<Token<'a>>,
}

impl<'a> Model for Tokens<'a> {
    ghost use Rattle.std.specs.Prelude.{List};
    ghost use Rattle.rv_lex.specs.Lexes.{Lexeme, lexemes};

    ghost Value = { List Lexeme };

    ghost view = { λ tokens. lexemes tokens.items.items };
}

impl<'a> Tokens<'a> {
    pub(crate) fn new(alloc: Global) -> Self
        ensures { result ≡ [] }
    {
        Tokens {
            items: Vec::new(alloc),
        }
    }

    pub(crate) fn push(&mut self, token: Token<'a>) -> Result<(), AllocFailed<Token<'a>>>
        ensures { OnOk result (self.new ≡ self.old ++ lexeme token.entry ∷ []) }
    {
        self.items.push(token)
    }

    /// The words, in the order of the text.
    pub fn as_slice(&self) -> &[Token<'a>]
        ensures { lexemes result.now ≡ self.now }
    {
        self.items.as_slice()
    }
}
