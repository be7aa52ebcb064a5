//! Restrictions that are broken, in the words of the text.

use crate::judged::Judged;
use crate::library;
use crate::unknown::unknown;
use rv_cause::around::Around;
use rv_cause::cause::Cause;
use rv_cause::declared::{Sort, is_a};
use rv_cause::forms::is_listed;
use rv_cause::words::Words;
use std::alloc::{AllocError, Global};

// What is said of a library unit that the profile doesn't allow.
const LIBRARY_UNIT: &str = "{0}{1}{2}{3}{4} can't be used in the profile Ravenscar (D.13)";

/// What is said of priorities that change, or are read.
pub const PRIORITY: &str =
    "priorities stay as declared: the attribute Priority can't be used (D.7)";

/// What is said of a barrier of another form.
pub const BARRIER: &str =
    "a barrier is one Boolean component of its protected unit, or made of constants (D.7)";

// Whether a word is a predefined name.
fn is_predefined(word: &str) -> bool {
    is_listed(&library::NAMES, word) || library::home_of(word).is_some()
}

/// A barrier of another form, or a name alone that nothing is declared by. Err where memory was refused.
pub fn barrier<'a>(
    alloc: Global,
    words: &Words<'_, 'a>,
    around: &Around<'a>,
    judged: &Judged<'_, '_, '_, 'a>,
) -> Result<Cause<'a>, AllocError> {
    if !words.is(1, "is") {
        return Ok(words.cause(0, BARRIER));
    }
    match judged.denoted(words) {
        Some((item, _)) if item.sort != Sort::Component => {
            let behind = "; a barrier is a component of its protected unit, or constants (D.7)";
            Ok(is_a(words.place(0), item, behind))
        }
        None if !is_predefined(words.word(0)) => unknown(alloc, words, around, judged),
        _ => Ok(words.cause(0, BARRIER)),
    }
}

/// A library unit that the profile doesn't allow.
pub fn library_unit<'a>(words: &Words<'_, 'a>, around: &Around<'a>) -> Cause<'a> {
    let [first, point, second, next, third, _] = words.name();
    let name = if around.unit.is_empty() {
        [first, point, second, next, third, ""]
    } else {
        [first, point, second, "", "", ""]
    };
    Cause::full(words.place(0), LIBRARY_UNIT, name)
}

/// Priorities that change, or are read.
pub fn dynamic_priority<'a>(words: &Words<'_, 'a>, around: &Around<'a>) -> Cause<'a> {
    if words.is(2, "Dynamic_Priorities") {
        return library_unit(words, around);
    }
    words.cause(0, PRIORITY)
}
