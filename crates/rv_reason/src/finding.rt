//! The reason of a fault of the grammar.

use crate::opened::Opened;
use crate::reason::Reason;
use crate::trial::Stuck;
use rv_lex::kind::Kind;
use rv_lex::token::Token;
use std::alloc::{AllocError, Global};

// How many words stand before a place.
fn count_before(words: &[Token<'_>], place: usize) -> usize {
    for (index, token) in words.iter().enumerate() {
        if token.place >= place {
            return index;
        }
    }
    words.len()
}

// What is open behind so many words.
fn opened<'a>(alloc: Global, words: &[Token<'a>], front: usize) -> Result<Opened<'a>, AllocError> {
    let mut opened = Opened::new(alloc);
    let mut before = Kind::Semicolon;
    for (index, token) in words.iter().enumerate() {
        if index >= front {
            return Ok(opened);
        }
        opened.pass(words, index, before)?;
        before = token.kind;
    }
    Ok(opened)
}

/// Why a text of so many bytes, of these words, can't go on at a place, or ends too early there. Nothing is known where memory
/// was refused.
pub fn reason_of(alloc: Global, words: &[Token<'_>], end: usize, place: usize) -> Reason {
    let front = count_before(words, place);
    let Ok(opened) = opened(alloc, words, front) else {
        return Reason::unknown();
    };
    let opener = opened.innermost();
    let crossed = opened.crossed();
    let stuck = Stuck { words, front, end };
    match stuck.mend(alloc, opener) {
        Ok(mend) => Reason {
            opener,
            crossed,
            mend,
        },
        Err(_) => Reason::unknown(),
    }
}
