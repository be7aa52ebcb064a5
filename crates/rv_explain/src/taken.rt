//! Which procedure is attached already to a line of interrupts that another is to be attached to (C.3.1).

use crate::attached::{Attached, attached_by_shape, attached_in, first_of};
use crate::explanation::{Explanation, of_part, of_part_beside};
use crate::line::lines_of;
use crate::parts::{parts_of, unit_text_before};
use rv_cause::cause::Cause;
use rv_cause::known::Known;
use rv_fault::Part;
use rv_lex::lexer::tokens;
use rv_script::Opening;
use rv_script::unit_text::unit_text;
use std::alloc::{AllocError, Global};

const TAKEN: &str = "interrupt line {0} has a handler already: {1} of {2}, in line {line} (C.3.1)";

const TAKEN_BY_UNIT: &str =
    "interrupt line {0} has a handler already: {1} of {2}.{3}, in line {line} (C.3.1)";

const OF_TYPE: &str =
    "each object of the type {2} attaches its {1} to interrupt line {0}, and a line has one handler (C.3.1)";

const NO_MORE: &str = "an interrupt line of this unit has a handler already (C.3.1)";

// That a line has a handler in the same text.
fn in_text<'a>(attached: &[Attached<'a>]) -> Option<Cause<'a>> {
    for (number, one) in attached.iter().enumerate() {
        if let Some(before) = first_of(attached, number, one.line) {
            let words = [one.line, before.name, before.home];
            return Some(Cause::new(one.at, TAKEN, words).with_other(before.at));
        }
    }
    None
}

// That each object of a type would attach a procedure to the same line.
fn of_type<'a>(attached: &[Attached<'a>]) -> Option<Cause<'a>> {
    for one in attached {
        if one.is_of_type {
            return Some(Cause::new(one.at, OF_TYPE, [one.line, one.name, one.home]));
        }
    }
    None
}

// What a part before a line attaches, or the text behind its `load`; places count in the part's text.
fn attached_of<'a>(
    alloc: Global,
    part: &Part<'a>,
    line: usize,
) -> Result<Vec<Attached<'a>>, AllocError> {
    if part.line < line && part.opening == Some(Opening::Shape) {
        let lines = lines_of(alloc, part.text)?;
        return attached_by_shape(alloc, lines.as_slice());
    }
    match unit_text_before(part, line) {
        Some(text) => attached_behind(alloc, part.text.len().saturating_sub(text.len()), text),
        None => Ok(Vec::new(alloc)),
    }
}

// What a text attaches before which so many bytes of its part stand.
fn attached_behind<'a>(
    alloc: Global,
    before: usize,
    text: &'a str,
) -> Result<Vec<Attached<'a>>, AllocError> {
    let Ok(words) = tokens(alloc, text) else {
        return Ok(Vec::new(alloc));
    };
    let mut found = attached_in(alloc, words.as_slice())?;
    for one in &mut found {
        one.at = one.at.saturating_add(before);
    }
    Ok(found)
}

// How many line feeds there are before a byte of a text.
fn line_feeds_before(text: &str, at: usize) -> usize {
    let front = text.get(..at).unwrap_or(text);
    front
        .as_bytes()
        .iter()
        .filter(|byte| **byte == b'\n')
        .count()
}

// A line of interrupts that a procedure of another part takes, and where in the script that names it.
#[derive(Drop)]
struct Elsewhere {
    // The place where the text at hand names the line of interrupts.
    at: usize,
    line: String,
    name: String,
    unit: String,
    home: String,
    // The line of the script where the other part names it.
    number: usize,
}

impl Elsewhere {
    // That this one of a text is taken by that of another part, which the line of this number of the script names.
    fn of(
        alloc: Global,
        one: &Attached<'_>,
        other: &Attached<'_>,
        number: usize,
    ) -> Result<Elsewhere, AllocError> {
        Ok(Elsewhere {
            at: one.at,
            line: String::from_str(alloc, one.line)?,
            name: String::from_str(alloc, other.name)?,
            unit: String::from_str(alloc, other.unit)?,
            home: String::from_str(alloc, other.home)?,
            number,
        })
    }

    // What is said of it.
    fn cause(&self) -> Cause<'_> {
        let words = [
            self.line.as_str(),
            self.name.as_str(),
            self.unit.as_str(),
            self.home.as_str(),
            "",
            "",
        ];
        Cause::full(self.at, TAKEN_BY_UNIT, words)
    }
}

// One of these whose line of interrupts a part before a line takes, and by what.
fn in_part(
    alloc: Global,
    part: &Part<'_>,
    line: usize,
    own: &[Attached<'_>],
) -> Result<Option<Elsewhere>, AllocError> {
    let others = attached_of(alloc, part, line)?;
    for one in own {
        if let Some(other) = first_of(others.as_slice(), others.len(), one.line) {
            let feeds = line_feeds_before(part.text, other.at);
            let number = part.line.saturating_add(1).saturating_add(feeds);
            return Ok(Some(Elsewhere::of(alloc, one, other, number)?));
        }
    }
    Ok(None)
}

// The same of all parts before a line.
fn before(
    alloc: Global,
    script: &str,
    line: usize,
    own: &[Attached<'_>],
) -> Result<Option<Elsewhere>, AllocError> {
    let mut parts = parts_of(script);
    'each: while let Some(part) = parts.next_part() {
        if let Some(found) = in_part(alloc, &part, line, own)? {
            return Ok(Some(found));
        }
    }
    Ok(None)
}

// What is said of one that another part takes.
fn of_elsewhere<'a>(
    alloc: Global,
    part: &Part<'a>,
    elsewhere: &Elsewhere,
) -> Result<Explanation<'a>, AllocError> {
    let known = Known::new(alloc);
    of_part_beside(alloc, part, &elsewhere.cause(), &known, elsewhere.number)
}

// What is said of these where no other part takes one.
fn of_own<'a>(
    alloc: Global,
    part: &Part<'a>,
    own: &[Attached<'_>],
    at: usize,
) -> Result<Explanation<'a>, AllocError> {
    let known = Known::new(alloc);
    match of_type(own) {
        Some(cause) => of_part(alloc, part, &cause, &known),
        None => of_part(alloc, part, &Cause::plain(at, NO_MORE), &known),
    }
}

// What is said of these, of which none stands twice in its text.
fn of_others<'a>(
    alloc: Global,
    script: &'a str,
    part: &Part<'a>,
    own: &[Attached<'_>],
    at: usize,
) -> Result<Explanation<'a>, AllocError> {
    match before(alloc, script, part.line, own)? {
        Some(elsewhere) => of_elsewhere(alloc, part, &elsewhere),
        None => of_own(alloc, part, own, at),
    }
}

/// What is said of a line of interrupts that is taken, where the text of a part attaches these; where nothing more is known, at this place.
pub(crate) fn line_taken<'a>(
    alloc: Global,
    script: &'a str,
    part: &Part<'a>,
    own: &[Attached<'_>],
    at: usize,
) -> Result<Explanation<'a>, AllocError> {
    match in_text(own) {
        Some(cause) => of_part(alloc, part, &cause, &Known::new(alloc)),
        None => of_others(alloc, script, part, own, at),
    }
}

/// The same of the shape of a part.
pub(crate) fn line_taken_by_shape<'a>(
    alloc: Global,
    script: &'a str,
    part: &Part<'a>,
) -> Result<Explanation<'a>, AllocError> {
    let text = unit_text(alloc, part.text)?;
    let lines = lines_of(alloc, text.as_str())?;
    let own = attached_by_shape(alloc, lines.as_slice())?;
    line_taken(alloc, script, part, own.as_slice(), 0)
}
