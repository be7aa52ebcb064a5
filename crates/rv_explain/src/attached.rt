//! Procedures that are attached to lines of interrupts (C.3.1), as texts and shapes declare them.

use crate::line::Line;
use rv_cause::around::Around;
use rv_cause::words::Words;
use rv_lex::token::Token;
use std::alloc::{AllocError, Global};

/// A procedure that is attached to a line.
#[derive(Clone, Copy)]
pub(crate) struct Attached<'a> {
    /// The digit of the line.
    pub(crate) line: &'a str,
    /// Its unit.
    pub(crate) unit: &'a str,
    /// Its protected unit.
    pub(crate) home: &'a str,
    pub(crate) name: &'a str,
    /// The byte of the text where the line is named.
    pub(crate) at: usize,
    /// Whether its protected unit is a type, of which there may be several objects.
    pub(crate) is_of_type: bool,
}

/// The first of a list that is attached to a line, among so many.
pub(crate) fn first_of<'l, 'a>(
    attached: &'l [Attached<'a>],
    count: usize,
    line: &str,
) -> Option<&'l Attached<'a>> {
    for (number, one) in attached.iter().enumerate() {
        if number < count && one.line == line {
            return Some(one);
        }
    }
    None
}

// The digit of a line's name.
fn digit_of(name: &str) -> Option<&str> {
    let front = name.get(..4)?;
    let digit = name.get(4..)?;
    if front.eq_ignore_ascii_case("Int_") && digit.len() == 1 {
        Some(digit)
    } else {
        None
    }
}

// The words of an argument, behind its name where it has one.
fn argument<'t, 'a>(tokens: &'t [Token<'a>], here: usize) -> Words<'t, 'a> {
    let words = Words::from(tokens, here);
    if words.is(1, "=>") {
        return Words::from(tokens, here.saturating_add(2));
    }
    words
}

// How many words behind an argument's first word the next argument begins.
fn next_argument(words: &Words<'_, '_>) -> usize {
    for count in 0..64usize {
        if words.is(count, ",") {
            return count.saturating_add(1);
        }
    }
    0
}

// Whether the protected unit of these is declared as a type.
fn is_type(tokens: &[Token<'_>], home: &str) -> bool {
    for here in 0..tokens.len() {
        let words = Words::from(tokens, here);
        if words.fit("protected ^type") && words.is(1, home) {
            return true;
        }
    }
    false
}

// What is attached to the line whose name begins at a word.
fn to_line<'a>(
    tokens: &[Token<'a>],
    around: &Around<'a>,
    name: &'a str,
    line: &Words<'_, 'a>,
) -> Option<Attached<'a>> {
    Some(Attached {
        line: digit_of(line.word(line.last_part()))?,
        unit: around.unit,
        home: around.home,
        name,
        at: line.place(0),
        is_of_type: is_type(tokens, around.home),
    })
}

// What is attached by the word of a number, which is Attach_Handler: as an aspect, or as a pragma.
fn attached_by<'a>(tokens: &[Token<'a>], here: usize, around: &Around<'a>) -> Option<Attached<'a>> {
    let words = Words::from(tokens, here);
    let behind = here.saturating_add(2);
    if words.is(1, "=>") {
        let line = Words::from(tokens, behind);
        return to_line(tokens, around, around.operation, &line);
    }
    if !words.was(1, "pragma") {
        return None;
    }
    let procedure = argument(tokens, behind);
    let second = behind.saturating_add(next_argument(&Words::from(tokens, behind)));
    to_line(tokens, around, procedure.word(0), &argument(tokens, second))
}

/// What the words of a text attach, in order. Err where memory was refused.
pub(crate) fn attached_in<'a>(
    alloc: Global,
    tokens: &[Token<'a>],
) -> Result<Vec<Attached<'a>>, AllocError> {
    let mut found = Vec::new(alloc);
    let mut around = Around::nothing();
    for (here, token) in tokens.iter().enumerate() {
        around.pass(&Words::from(tokens, here));
        if token.text.eq_ignore_ascii_case("Attach_Handler") {
            if let Some(attached) = attached_by(tokens, here, &around) {
                found.push(attached)?;
            }
        }
    }
    Ok(found)
}

/// What the lines of a shape attach, in order. Err where memory was refused.
pub(crate) fn attached_by_shape<'a>(
    alloc: Global,
    lines: &[Line<'a>],
) -> Result<Vec<Attached<'a>>, AllocError> {
    let mut found = Vec::new(alloc);
    let mut unit = "";
    let mut home = "";
    for line in lines {
        if line.is(0, "unit") {
            unit = line.word(1);
        }
        if line.is(0, "protected") {
            home = line.word(1);
        }
        if line.is(0, "handler") {
            found.push(Attached {
                line: line.word(2),
                unit,
                home,
                name: line.word(1),
                at: line.at(2),
                is_of_type: false,
            })?;
        }
    }
    Ok(found)
}
