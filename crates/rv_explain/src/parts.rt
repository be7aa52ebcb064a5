//! The parts of a script, and what those before a line declare.

use crate::shaped::add_shape;
use rv_cause::known::Known;
use rv_fault::{Failure, Part, Parts, shape_of, unit_of};
use rv_lex::lexer::tokens;
use rv_lex::token::Tokens;
use rv_script::Opening;
use rv_shape::catalogue::Catalogue;
use rv_shape::fault::ShapeFault;
use rv_shape::shape::UnitShape;
use rv_text::{next_word, open_script, without_return};
use std::alloc::{AllocError, Global};

/// The parts of a script, its settings among them; of one that is too long none.
#[tactic(auto, using(rv_script::proofs::Numbered::are_numbered))]
pub(crate) fn parts_of(script: &str) -> Parts<'_> {
    if script.len() > 16_777_216 {
        let (_, none) = open_script("");
        return Parts::of(none);
    }
    let (_, sections) = open_script(script);
    Parts::of(sections)
}

/// The part of a script that this line opens.
pub(crate) fn part_at(script: &str, line: usize) -> Option<Part<'_>> {
    let mut parts = parts_of(script);
    'each: while let Some(part) = parts.next_part() {
        if part.line == line {
            return Some(part);
        }
    }
    None
}

/// What the part of a script opens that a line stands in, behind its opening. Behind `@run` commands follow, also what looks like an
/// opening.
pub(crate) fn opening_before(script: &str, line: usize) -> Option<Opening> {
    let mut parts = parts_of(script);
    let mut last = None;
    'each: while let Some(part) = parts.next_part() {
        if part.line >= line || last == Some(Opening::Run) {
            return last;
        }
        last = part.opening.or(last);
    }
    last
}

// The byte of a script, from 0, where the line behind that of a number begins.
fn place_behind(script: &str, number: usize) -> Option<usize> {
    let mut at = 0usize;
    for (count, line) in script.split('\n').enumerate() {
        if count == number {
            return Some(at);
        }
        at = at.saturating_add(line.len()).saturating_add(1);
    }
    None
}

// The byte of a text where its first line `@end` begins; where it has none, its end.
fn end_of_load(text: &str) -> usize {
    let mut at = 0usize;
    for line in text.split('\n') {
        if without_return(line) == "@end" {
            return at;
        }
        at = at.saturating_add(line.len()).saturating_add(1);
    }
    text.len()
}

/// The unit text behind a command `load` of a script at this line, as a part that the line opens.
pub(crate) fn load_at(script: &str, line: usize) -> Option<Part<'_>> {
    if line > 16_777_216 || opening_before(script, line) != Some(Opening::Run) {
        return None;
    }
    let behind = script.get(place_behind(script, line)?..)?;
    let text = behind.get(..end_of_load(behind))?;
    if text.len() > 16_777_216 {
        return None;
    }
    Some(Part {
        line,
        opening: None,
        heading: "load",
        text,
    })
}

// Whether a line is the command `load`.
fn is_load(line: &str) -> bool {
    match next_word(without_return(line)) {
        Some((word, rest)) => word == "load" && next_word(rest).is_none(),
        None => false,
    }
}

// The unit text behind the first command `load` of a part that stands before a line.
fn loaded_before<'a>(part: &Part<'a>, line: usize) -> Option<&'a str> {
    let count = line.saturating_sub(part.line).saturating_sub(1);
    let mut at = 0usize;
    for command in part.text.split('\n').take(count) {
        at = at.saturating_add(command.len()).saturating_add(1);
        if is_load(command) {
            return part.text.get(at..);
        }
    }
    None
}

/// The unit text that a part has before a line: its own, or that of a `load`, whose end opens nothing.
pub(crate) fn unit_text_before<'a>(part: &Part<'a>, line: usize) -> Option<&'a str> {
    if part.line >= line {
        return None;
    }
    match part.opening {
        Some(Opening::UnitText) => Some(part.text),
        Some(Opening::Run) | None => loaded_before(part, line),
        _ => None,
    }
}

/// The words of the unit texts before a line, those of `load` too; of one that has a fault none.
pub(crate) fn texts_before<'a>(
    alloc: Global,
    script: &'a str,
    line: usize,
) -> Result<Vec<Tokens<'a>>, AllocError> {
    let mut texts = Vec::new(alloc);
    let mut parts = parts_of(script);
    'each: while let Some(part) = parts.next_part() {
        if let Some(text) = unit_text_before(&part, line) {
            if let Ok(words) = tokens(alloc, text) {
                texts.push(words)?;
            }
        }
    }
    Ok(texts)
}

// Adds what the shapes before a line declare.
fn add_shapes<'a>(
    alloc: Global,
    script: &'a str,
    line: usize,
    known: &mut Known<'a>,
) -> Result<(), AllocError> {
    let mut parts = parts_of(script);
    'each: while let Some(part) = parts.next_part() {
        if part.line < line && part.opening == Some(Opening::Shape) {
            add_shape(alloc, known, part.text)?;
        }
    }
    Ok(())
}

/// What the unit texts of these words declare.
pub(crate) fn declared_by<'a>(
    alloc: Global,
    texts: &[Tokens<'a>],
) -> Result<Known<'a>, AllocError> {
    let mut known = Known::new(alloc);
    for words in texts {
        known.add_text(words.as_slice(), false)?;
    }
    Ok(known)
}

/// What the parts before a line declare, whose unit texts have these words.
pub(crate) fn known_before<'a>(
    alloc: Global,
    script: &'a str,
    line: usize,
    texts: &[Tokens<'a>],
) -> Result<Known<'a>, AllocError> {
    let mut known = declared_by(alloc, texts)?;
    add_shapes(alloc, script, line, &mut known)?;
    Ok(known)
}

// The unit that a part loads before a line, behind others, if it loads one that is right.
fn unit_before(
    alloc: Global,
    catalogue: &Catalogue,
    part: &Part<'_>,
    line: usize,
) -> Result<Option<UnitShape>, AllocError> {
    let read = match unit_text_before(part, line) {
        Some(text) => match unit_of(alloc, catalogue, part.line, text) {
            Ok(unit) => Ok(unit.shape),
            Err(failure) => Err(failure),
        },
        None if part.line < line && part.opening == Some(Opening::Shape) => {
            shape_of(alloc, part.line, part.text)
        }
        None => return Ok(None),
    };
    match read {
        Ok(shape) => Ok(Some(shape)),
        Err(Failure::Memory) => Err(AllocError),
        Err(_) => Ok(None),
    }
}

/// The units that the parts before a line load, as far as they fit; those of devices aside.
pub(crate) fn catalogue_before(
    alloc: Global,
    script: &str,
    line: usize,
) -> Result<Catalogue, AllocError> {
    let mut catalogue = Catalogue::new(alloc);
    let mut parts = parts_of(script);
    'each: while let Some(part) = parts.next_part() {
        if let Some(shape) = unit_before(alloc, &catalogue, &part, line)? {
            if let Err(ShapeFault::NoMemory) = catalogue.add(&shape) {
                return Err(AllocError);
            }
        }
    }
    Ok(catalogue)
}
