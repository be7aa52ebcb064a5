//! The numbers of lines.

use crate::reason::Reason;
use itoa::Buffer;
use rv_text::next_word;

const NO_VALUE: &str =
    "{0} is no number as journals write them: decimal digits that 64 bits hold, with no + and no 0 before others";

const BEHIND: &str = "nothing stands behind {0} there; here {1} does";

const NONE_BEHIND: &str = "a number stands behind {0}";

// Whether a word is a whole number, as it is printed.
fn is_value(word: &str) -> bool {
    let mut buffer = Buffer::new();
    match word.parse::<i64>() {
        Ok(number) => buffer.format(number) == word,
        Err(_) => false,
    }
}

// Whether a word is a natural number, as it is printed.
fn is_natural(word: &str) -> bool {
    let mut buffer = Buffer::new();
    match word.parse::<usize>() {
        Ok(number) => buffer.format(number) == word,
        Err(_) => false,
    }
}

/// Why a word is no whole number, if it is none.
pub(crate) fn of_value<'a>(word: &'a str) -> Option<Reason<'a>> {
    if is_value(word) {
        None
    } else {
        Some(Reason::of(NO_VALUE, word))
    }
}

/// Why a word is no natural number, if it is none.
pub(crate) fn of_natural<'a>(word: &'a str) -> Option<Reason<'a>> {
    if is_natural(word) {
        None
    } else {
        Some(Reason::of(NO_VALUE, word))
    }
}

/// Why words aren't numbers, at most so many, if they aren't; what is told of one too many is this.
pub(crate) fn of_values<'a>(
    text: &'a str,
    most: usize,
    too_many: &'static str,
) -> Option<Reason<'a>> {
    let mut rest = text;
    let mut left = most;
    while let Some((word, behind)) = next_word(rest) {
        if left == 0 {
            return Some(Reason::of(too_many, word));
        }
        if let Some(reason) = of_value(word) {
            return Some(reason);
        }
        left -= 1;
        rest = behind;
    }
    None
}

/// Why there is something behind a word, if there is.
pub(crate) fn of_behind<'a>(word: &'a str, text: &'a str) -> Option<Reason<'a>> {
    match next_word(text) {
        Some((behind, _)) => Some(Reason::pair(BEHIND, word, behind)),
        None => None,
    }
}

/// Why there isn't one number behind a word, if there isn't.
pub(crate) fn of_one<'a>(word: &'a str, text: &'a str) -> Option<Reason<'a>> {
    let Some((value, behind)) = next_word(text) else {
        return Some(Reason::of(NONE_BEHIND, word));
    };
    match of_value(value) {
        Some(reason) => Some(reason),
        None => of_behind(value, behind),
    }
}

/// Why there isn't one natural number behind a word, if there isn't.
pub(crate) fn of_one_natural<'a>(word: &'a str, text: &'a str) -> Option<Reason<'a>> {
    let Some((value, behind)) = next_word(text) else {
        return Some(Reason::of(NONE_BEHIND, word));
    };
    if let Some(reason) = of_value(value) {
        return Some(reason);
    }
    match of_natural(value) {
        Some(reason) => Some(reason),
        None => of_behind(value, behind),
    }
}
