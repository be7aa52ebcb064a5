//! The words of a unit text around a place.

use crate::cause::Cause;
use rv_lex::kind::Kind;
use rv_lex::token::Token;
use rv_text::{is_identifier, is_same_name};

/// The words of a unit text, seen from one of them.
#[derive(Clone, Copy)]
pub struct Words<'t, 'a> {
    tokens: &'t [Token<'a>],
    // The word that it is seen from, or how many there are.
    here: usize,
}

// The first word that stands at a place or behind it, or how many words there are.
fn index_from(tokens: &[Token<'_>], place: usize) -> usize {
    for (index, token) in tokens.iter().enumerate() {
        if token.place >= place {
            return index;
        }
    }
    tokens.len()
}

/// Whether a word is digits, plain or based.
pub fn is_literal(word: &str) -> bool {
    match word.as_bytes() {
        [first, ..] => first.is_ascii_digit(),
        [] => false,
    }
}

/// Whether a word is one of a pattern's, between which `|` stands.
pub fn is_among(word: &str, pattern: &str) -> bool {
    for one in pattern.split('|') {
        let fits = match one {
            "_" => true,
            "NAME" => is_identifier(word),
            "NUMBER" => is_literal(word),
            _ => is_same_name(one, word),
        };
        if fits {
            return true;
        }
    }
    false
}

impl<'t, 'a> Words<'t, 'a> {
    /// Seen from the word at a place, or the next one.
    pub fn at(tokens: &'t [Token<'a>], place: usize) -> Words<'t, 'a> {
        Words {
            tokens,
            here: index_from(tokens, place),
        }
    }

    /// The same words, seen from the word at a place, or the next one.
    pub fn seen_from(&self, place: usize) -> Words<'t, 'a> {
        Words::at(self.tokens, place)
    }

    /// Seen from the word of a number, from 0.
    pub fn from(tokens: &'t [Token<'a>], here: usize) -> Words<'t, 'a> {
        Words { tokens, here }
    }

    /// The same words, seen from the one that stands so many before.
    pub fn before(&self, count: usize) -> Words<'t, 'a> {
        Words::from(self.tokens, self.here.saturating_sub(count))
    }

    /// The word that stands so many behind, from 0; empty where the text ends before.
    pub fn word(&self, count: usize) -> &'a str {
        match self.tokens.get(self.here.saturating_add(count)) {
            Some(token) => token.text,
            None => "",
        }
    }

    /// The word that stands so many before, from 1; empty where the text begins behind that.
    pub fn back(&self, count: usize) -> &'a str {
        match self.tokens.get(self.here.wrapping_sub(count)) {
            Some(token) if count <= self.here => token.text,
            _ => "",
        }
    }

    /// The place of the word that stands so many behind, from 0; of none the place of the last.
    pub fn place(&self, count: usize) -> usize {
        match self.tokens.get(self.here.saturating_add(count)) {
            Some(token) => token.place,
            None => match self.tokens.last() {
                Some(token) => token.place,
                None => 0,
            },
        }
    }

    /// How many words behind the last part of the name stands that begins here.
    pub fn last_part(&self) -> usize {
        for count in 0..8usize {
            let part = count.saturating_mul(2);
            if !self.is(part.saturating_add(1), ".") {
                return part;
            }
        }
        0
    }

    // The word that stands so many behind, where that is at most the last.
    fn up_to(&self, last: usize, count: usize) -> &'a str {
        if count <= last { self.word(count) } else { "" }
    }

    /// The words of the name that begins here, points among them, of three parts at most; what is left is empty.
    pub fn name(&self) -> [&'a str; 6] {
        let last = self.last_part();
        [
            self.word(0),
            self.up_to(last, 1),
            self.up_to(last, 2),
            self.up_to(last, 3),
            self.up_to(last, 4),
            "",
        ]
    }

    /// What the word is that stands here; `None` where the text ends.
    pub fn kind(&self) -> Option<Kind> {
        match self.tokens.get(self.here) {
            Some(token) => Some(token.kind),
            None => None,
        }
    }

    /// Whether a reserved word stands here.
    pub fn is_reserved(&self) -> bool {
        match self.tokens.get(self.here) {
            Some(token) => token.kind != Kind::Identifier && is_identifier(token.text),
            None => false,
        }
    }

    /// The name of the text's package; empty where there is none.
    pub fn package(&self) -> &'a str {
        for here in 0..self.tokens.len() {
            let words = Words::from(self.tokens, here);
            if words.was(1, "package") {
                return words.word(0);
            }
        }
        ""
    }

    /// Whether so many words behind, from 0, stands this one.
    pub fn is(&self, count: usize, word: &str) -> bool {
        is_same_name(self.word(count), word)
    }

    /// Whether so many words before, from 1, stands this one.
    pub fn was(&self, count: usize, word: &str) -> bool {
        is_same_name(self.back(count), word)
    }

    /// Whether the words around are those of a pattern, with blanks between them, in which `^` stands before this word. Its
    /// words are as `is|begin`, either of these, `NAME`, an identifier, `NUMBER`, digits, and `_`, any or none.
    pub fn fit(&self, pattern: &str) -> bool {
        let Some((before, behind)) = pattern.split_once('^') else {
            return false;
        };
        for (count, word) in behind.split(' ').enumerate() {
            if !is_among(self.word(count), word) {
                return false;
            }
        }
        for (count, word) in before.rsplit(' ').enumerate() {
            if count > 0 && !is_among(self.back(count), word) {
                return false;
            }
        }
        true
    }

    /// What is said of the word that stands so many behind, from 0.
    pub fn cause(&self, count: usize, said: &'static str) -> Cause<'a> {
        Cause::of(self.place(count), said, self.word(count))
    }
}
