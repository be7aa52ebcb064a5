//! Protected units of a text whose priority is too low for a procedure that is attached to a line of interrupts (C.3.1).

use crate::attached::Attached;
use rv_cause::around::Around;
use rv_cause::cause::Cause;
use rv_cause::words::Words;
use rv_lex::token::Token;
use rv_text::{is_same_name, natural_of};

const TOO_LOW: &str =
    "{0} has the handler {1}, in line {line}, so its priority is 31 .. 40 (C.3.1)";

// How many words behind a word its value stands, if the word is a priority of a protected unit.
fn value_behind(words: &Words<'_, '_>) -> Option<usize> {
    if !words.fit("^Priority|Interrupt_Priority") {
        return None;
    }
    if words.is(1, "=>") || words.was(1, "pragma") {
        Some(2)
    } else {
        None
    }
}

// Whether a word is a number that is no priority of an interrupt.
fn is_low(word: &str) -> bool {
    match natural_of(word) {
        Some(number) => number < 31,
        None => false,
    }
}

// The place of the priority of a protected unit that is too low for a handler, if its number stands there.
fn low_priority(tokens: &[Token<'_>], unit: &str) -> Option<usize> {
    let mut around = Around::nothing();
    for here in 0..tokens.len() {
        let words = Words::from(tokens, here);
        around.pass(&words);
        if is_same_name(around.home, unit) && around.is_specification() {
            if let Some(behind) = value_behind(&words) {
                if is_low(words.word(behind)) {
                    return Some(words.place(behind));
                }
            }
        }
    }
    None
}

/// Which protected unit of a text has too low a priority, where the text attaches these. None where its number doesn't stand there.
pub(crate) fn ceiling_too_low<'a>(
    tokens: &[Token<'_>],
    attached: &[Attached<'a>],
) -> Option<Cause<'a>> {
    for one in attached {
        if let Some(at) = low_priority(tokens, one.home) {
            return Some(Cause::pair(at, TOO_LOW, one.home, one.name).with_other(one.at));
        }
    }
    None
}
