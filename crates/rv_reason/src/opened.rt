//! The constructs that wait for their end behind the words of a text, up to where it can't go on.

use crate::reason::{Crossed, Opener};
use rv_lex::kind::Kind;
use rv_lex::token::Token;
use std::alloc::{AllocError, Global};

// What opened a construct, and its name; empty where it has none.
#[derive(Clone, Copy)]
struct Construct<'a> {
    opener: Opener,
    name: &'a str,
}

/// What is open behind the words that were passed.
#[derive(Drop)]
pub(crate) struct Opened<'a> {
    // From the outermost.
    constructs: Vec<Construct<'a>>,
    // One whose `is` hasn't come yet.
    head: Option<Construct<'a>>,
    parentheses: usize,
    crossed: Option<Crossed>,
}

// The name behind the word that opens a construct, and behind `body` or `type`.
fn name_behind<'a>(words: &[Token<'a>], index: usize) -> Option<Token<'a>> {
    for offset in 1..3usize {
        match words.get(index.saturating_add(offset)) {
            Some(token) => match token.kind {
                Kind::Identifier => return Some(*token),
                Kind::Body | Kind::Type => {}
                _ => return None,
            },
            None => return None,
        }
    }
    None
}

// The construct that a word opens, which has a name.
fn with_name<'a>(words: &[Token<'a>], index: usize, word: &Token<'a>) -> Construct<'a> {
    match name_behind(words, index) {
        Some(name) => Construct {
            opener: Opener {
                word: word.kind,
                at: word.place,
                name: Some(name.place),
            },
            name: name.text,
        },
        None => without_name(word),
    }
}

// The statement that a word opens.
fn without_name<'a>(word: &Token<'a>) -> Construct<'a> {
    Construct {
        opener: Opener {
            word: word.kind,
            at: word.place,
            name: None,
        },
        name: "",
    }
}

impl<'a> Opened<'a> {
    /// Before the first word.
    pub(crate) fn new(alloc: Global) -> Opened<'a> {
        Opened {
            constructs: Vec::new(alloc),
            head: None,
            parentheses: 0,
            crossed: None,
        }
    }

    /// The innermost construct that is open, its head counted.
    pub(crate) fn innermost(&self) -> Option<Opener> {
        if let Some(head) = self.head {
            return Some(head.opener);
        }
        match self.constructs.last() {
            Some(construct) => Some(construct.opener),
            None => None,
        }
    }

    /// The first end with the name of a construct further out.
    pub(crate) fn crossed(&self) -> Option<Crossed> {
        self.crossed
    }

    // Whether a construct that is open has this name.
    fn is_open(&self, name: &str) -> bool {
        for construct in self.constructs.iter() {
            if construct.name.eq_ignore_ascii_case(name) {
                return true;
            }
        }
        false
    }

    // Behind an end, with what may be its name.
    fn end(&mut self, name: &Token<'a>) {
        let Some(ended) = self.constructs.pop() else {
            return;
        };
        if name.kind != Kind::Identifier || name.text.eq_ignore_ascii_case(ended.name) {
            return;
        }
        if self.crossed.is_none() && self.is_open(name.text) {
            self.crossed = Some(Crossed {
                opener: ended.opener,
                at: name.place,
            });
        }
    }

    // Behind the `is` of a head.
    fn begin(&mut self) -> Result<(), AllocError> {
        if let Some(head) = self.head {
            self.constructs.push(head)?;
            self.head = None;
        }
        Ok(())
    }

    // Behind a sign.
    fn sign(&mut self, sign: Kind) {
        match sign {
            Kind::LeftParenthesis => self.parentheses = self.parentheses.saturating_add(1),
            Kind::RightParenthesis => self.parentheses = self.parentheses.saturating_sub(1),
            Kind::Semicolon => {
                if self.parentheses == 0 {
                    self.head = None;
                }
            }
            _ => {}
        }
    }

    // Behind a word that opens a statement, where it doesn't stand behind `end`.
    fn statement(&mut self, word: &Token<'a>, before: Kind) -> Result<(), AllocError> {
        if before != Kind::End {
            self.constructs.push(without_name(word))?;
        }
        Ok(())
    }

    /// Behind the word of a number, from 0, of these. An end that no word follows waits for the next word.
    pub(crate) fn pass(
        &mut self,
        words: &[Token<'a>],
        index: usize,
        before: Kind,
    ) -> Result<(), AllocError> {
        let Some(word) = words.get(index) else {
            return Ok(());
        };
        if before == Kind::End {
            self.end(word);
        }
        match word.kind {
            Kind::If | Kind::Case | Kind::Loop | Kind::Select | Kind::Do => {
                self.statement(word, before)
            }
            Kind::Package
            | Kind::Protected
            | Kind::Task
            | Kind::Function
            | Kind::Procedure
            | Kind::Entry => {
                self.head = Some(with_name(words, index, word));
                Ok(())
            }
            Kind::Is => self.begin(),
            sign => {
                self.sign(sign);
                Ok(())
            }
        }
    }
}
