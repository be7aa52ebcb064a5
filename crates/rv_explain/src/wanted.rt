//! Which type is wanted where another stands, as the compiler itself judges it.

use rv_cause::words::{Words, is_among};
use rv_shape::catalogue::Catalogue;
use rv_static::TypeFault;
use rv_unit::{UnitFault, compile};
use std::alloc::{AllocError, Global};

// A value, with its type.
#[derive(Clone, Copy)]
struct Value {
    word: &'static str,
    name: &'static str,
}

const VALUES: [Value; 4] = [
    Value {
        word: "0",
        name: "Integer",
    },
    Value {
        word: "True",
        name: "Boolean",
    },
    Value {
        word: "Clock",
        name: "Time",
    },
    Value {
        word: "Milliseconds (1)",
        name: "Time_Span",
    },
];

// How many words an expression has at most whose type is sought.
const MOST: usize = 64;

// Where a name, a literal or an expression begins and ends, and where the expression ends that it begins.
#[derive(Clone, Copy)]
struct Span {
    at: usize,
    end: usize,
    whole: usize,
}

// Whether a fault of a text says nothing against an expression that ends at a place.
fn is_behind(fault: UnitFault, end: usize) -> bool {
    match fault {
        UnitFault::Types(TypeFault::Mismatch(place)) => place >= end,
        UnitFault::Types(_) | UnitFault::Shape(_) => true,
        _ => false,
    }
}

// Whether an expression of a text is right with a value in place of a part of it, over the units that are loaded before it.
fn fits(
    alloc: Global,
    text: &str,
    catalogue: &Catalogue,
    span: Span,
    value: &str,
) -> Result<bool, AllocError> {
    let front = text.get(..span.at).unwrap_or("");
    let behind = text.get(span.end..).unwrap_or("");
    let changed = format!(in alloc; "{front}{value}{behind}")?;
    let rest = span.whole.saturating_sub(span.end);
    let end = span.at.saturating_add(value.len()).saturating_add(rest);
    match compile(alloc, changed.as_str(), catalogue) {
        Ok(_) => Ok(true),
        Err(fault) => Ok(is_behind(fault, end)),
    }
}

// Whether an expression outside of parentheses ends before the word that stands so many behind.
fn is_end(words: &Words<'_, '_>, count: usize, is_whole: bool) -> bool {
    let word = words.word(count);
    if word.is_empty() || is_among(word, ";|,|)|then|loop|is") {
        return true;
    }
    !is_whole && word != "(" && count > words.last_part()
}

// The place where the expression ends that begins here, outside of parentheses; or the name or the literal alone, with its arguments.
fn end_of(words: &Words<'_, '_>, is_whole: bool) -> usize {
    let mut depth = 0usize;
    let mut end = words.place(0);
    for count in 0..MOST {
        let word = words.word(count);
        if depth == 0 && is_end(words, count, is_whole) {
            return end;
        }
        if word == "(" {
            depth = depth.saturating_add(1);
        }
        if word == ")" {
            depth = depth.saturating_sub(1);
        }
        end = words.place(count).saturating_add(word.len());
    }
    end
}

// The type of the first value that is right in place of a name or a literal, or of the whole expression that it begins; empty where
// none is.
fn fitting(
    alloc: Global,
    text: &str,
    catalogue: &Catalogue,
    words: &Words<'_, '_>,
    is_whole: bool,
) -> Result<&'static str, AllocError> {
    let span = Span {
        at: words.place(0),
        end: end_of(words, is_whole),
        whole: end_of(words, true),
    };
    for value in &VALUES {
        if fits(alloc, text, catalogue, span, value.word)? {
            return Ok(value.name);
        }
    }
    Ok("")
}

/// The type that is wanted where a name or a literal of another stands, or else where the expression does that it begins, over the units
/// that are loaded before the text; empty where that isn't known. Err where memory was refused.
pub(crate) fn wanted_types(
    alloc: Global,
    text: &str,
    catalogue: &Catalogue,
    words: &Words<'_, '_>,
) -> Result<(&'static str, &'static str), AllocError> {
    match fitting(alloc, text, catalogue, words, false)? {
        "" => {
            let whole = fitting(alloc, text, catalogue, words, true)?;
            Ok(("", whole))
        }
        operand => Ok((operand, "")),
    }
}
