//! The statement or the declaration that a name stands in.

use rv_cause::words::{Words, is_among};

// How many words a statement or a declaration has at most that is looked at.
const MOST: usize = 512;

// What stands before a statement or a declaration.
const BEFORE: &str = ";|begin|then|else|loop|=>|is|private|exception";

/// How many words before a word the statement or the declaration begins that it stands in.
pub(crate) fn begin_of(words: &Words<'_, '_>) -> usize {
    for count in 1..MOST {
        let word = words.back(count);
        if word.is_empty() || is_among(word, BEFORE) {
            return count.saturating_sub(1);
        }
    }
    0
}

/// How many words behind a word the next `;` stands, parentheses aside.
pub(crate) fn end_of(words: &Words<'_, '_>) -> Option<usize> {
    let mut depth = 0usize;
    for count in 0..MOST {
        match words.word(count) {
            "" => return None,
            "(" => depth = depth.saturating_add(1),
            ")" => depth = depth.saturating_sub(1),
            ";" if depth == 0 => return Some(count),
            _ => {}
        }
    }
    None
}

/// How many words behind a word the closing parenthesis stands of the one that stands so many behind; that, where there is none.
pub(crate) fn closing(words: &Words<'_, '_>, open: usize) -> usize {
    let mut depth = 0usize;
    for count in open..open.saturating_add(MOST) {
        match words.word(count) {
            "(" => depth = depth.saturating_add(1),
            ")" => {
                depth = depth.saturating_sub(1);
                if depth == 0 {
                    return count;
                }
            }
            _ => {}
        }
    }
    open
}

/// Where the word ends that stands so many behind a word.
pub(crate) fn end_place(words: &Words<'_, '_>, count: usize) -> usize {
    words.place(count).saturating_add(words.word(count).len())
}

// How many words before a word the first of a list of names stands that ends so many before it.
fn first_of_list(words: &Words<'_, '_>, last: usize) -> usize {
    let mut first = last;
    for _ in 0..64usize {
        let comma = first.saturating_add(1);
        if !words.was(comma, ",") {
            return first;
        }
        first = comma.saturating_add(1);
    }
    first
}

/// How many words before a word the first name stands that it is to be the type of; 0 where it is of none.
pub(crate) fn declared_before(words: &Words<'_, '_>) -> usize {
    for count in 1..16usize {
        if words.was(count, ":") {
            return first_of_list(words, count.saturating_add(1));
        }
        if words.back(count).is_empty() || is_among(words.back(count), BEFORE) {
            return 0;
        }
    }
    0
}
