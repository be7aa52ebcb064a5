//! How far a text goes on once some of its words are changed.

use crate::reason::Mend;
use rv_grammar::{ParseFault, read_words};
use rv_lex::kind::Kind;
use rv_lex::token::Token;
use std::alloc::{AllocError, Global};

/// The words of a text that can't go on behind so many of them.
#[derive(Clone, Copy)]
pub(crate) struct Stuck<'t, 'a> {
    pub(crate) words: &'t [Token<'a>],
    /// How many words derive the front of a text.
    pub(crate) front: usize,
    /// How many bytes the text has.
    pub(crate) end: usize,
}

/// New words from one of a number up to another, which stays.
#[derive(Clone, Copy)]
pub(crate) struct Change<'k> {
    pub(crate) from: usize,
    pub(crate) to: usize,
    pub(crate) new: &'k [Kind],
}

/// The best change so far, and up to which byte the text goes on with it.
#[derive(Clone, Copy)]
pub(crate) struct Best {
    pub(crate) reached: usize,
    pub(crate) mend: Mend,
}

// What a word of a kind spells where it is tried.
fn spelled(kind: Kind) -> &'static str {
    match kind {
        Kind::Identifier => "x",
        Kind::Literal => "0",
        _ => kind.spelling(),
    }
}

// Adds new words, which stand at a place.
fn push_new(found: &mut Vec<Token<'_>>, new: &[Kind], place: usize) -> Result<(), AllocError> {
    for kind in new {
        found.push(Token {
            kind: *kind,
            text: spelled(*kind),
            place,
        })?;
    }
    Ok(())
}

impl<'a> Stuck<'_, 'a> {
    /// The place of the word of a number, or the text's length.
    pub(crate) fn place(&self, index: usize) -> usize {
        match self.words.get(index) {
            Some(token) => token.place,
            None => self.end,
        }
    }

    /// The kind of the word of a number.
    pub(crate) fn kind(&self, index: usize) -> Option<Kind> {
        match self.words.get(index) {
            Some(token) => Some(token.kind),
            None => None,
        }
    }

    // The words with a change.
    fn changed(&self, alloc: Global, change: Change<'_>) -> Result<Vec<Token<'a>>, AllocError> {
        let mut found = Vec::new(alloc);
        for (index, token) in self.words.iter().enumerate() {
            if index == change.from {
                push_new(&mut found, change.new, token.place)?;
            }
            if index < change.from || index >= change.to {
                found.push(*token)?;
            }
        }
        if change.from >= self.words.len() {
            push_new(&mut found, change.new, self.end)?;
        }
        Ok(found)
    }

    // Up to which byte the words with a change derive the front of a text.
    fn reached(&self, alloc: Global, change: Change<'_>) -> Result<usize, AllocError> {
        let changed = self.changed(alloc, change)?;
        match read_words(alloc, changed.as_slice(), self.end) {
            Ok(_) => Ok(usize::MAX),
            Err(ParseFault::Unexpected(at)) | Err(ParseFault::TooDeep(at)) => Ok(at),
            Err(_) => Ok(0),
        }
    }

    /// The best change, after one more was tried.
    pub(crate) fn tried(
        &self,
        alloc: Global,
        best: Best,
        change: Change<'_>,
        mend: Mend,
    ) -> Result<Best, AllocError> {
        let reached = self.reached(alloc, change)?;
        if reached > best.reached {
            return Ok(Best { reached, mend });
        }
        Ok(best)
    }
}
