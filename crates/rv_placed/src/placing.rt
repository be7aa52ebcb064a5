//! Puts where the bodies stand beside what is said of their ends.

use crate::places::{place_in, put_place};
use rv_script::{Opening, open, opening_of};
use rv_text::next_line;
use std::alloc::{AllocError, Global};

/// Memory was refused.
#[derive(Clone, Copy, Debug, Drop)]
pub struct NoMemory {}

impl From<AllocError> for NoMemory {
    fn from(_error: AllocError) -> NoMemory {
        NoMemory {}
    }
}

// What a line begins with that names the body that an entry ends.
const ENDS: &str = "it ends the body of ";

// The unit, the object and the operation whose body a line says is ended, if it says so.
fn ended(line: &str) -> Option<(&str, &str, &str)> {
    let named = line.strip_prefix(ENDS)?;
    let (called, behind) = named.split_once(' ')?;
    let (operation, _) = behind.split_once(' ')?;
    let (unit, object) = called.split_once('.')?;
    Some((unit, object, operation))
}

// Puts where the text of a unit has the body of an operation, and whether it has it.
fn put_in(
    alloc: Global,
    text: &mut String,
    unit_text: &str,
    unit: &str,
    object: &str,
    operation: &str,
) -> Result<bool, NoMemory> {
    let Some(place) = place_in(alloc, unit_text, unit, object, operation)? else {
        return Ok(false);
    };
    match unit_text.split_at_checked(place) {
        Some((front, rest)) => {
            put_place(text, unit, front, rest)?;
            Ok(true)
        }
        None => Ok(false),
    }
}

// Puts where the first text of a script that has it has the body of an operation.
fn put_from(
    alloc: Global,
    text: &mut String,
    script: &str,
    unit: &str,
    object: &str,
    operation: &str,
) -> Result<(), NoMemory> {
    let Ok(opened) = open(script) else {
        return Ok(());
    };
    let mut sections = opened.sections;
    'each: while let Some(section) = sections.next_section() {
        if let Some(Opening::UnitText) = opening_of(section.opening) {
            if put_in(alloc, text, section.text, unit, object, operation)? {
                return Ok(());
            }
        }
    }
    Ok(())
}

// Puts a line, and behind one of an end where its body stands.
fn put_line(alloc: Global, text: &mut String, line: &str, script: &str) -> Result<(), NoMemory> {
    text.push_str(line)?;
    text.push_str("\n")?;
    match ended(line) {
        Some((unit, object, operation)) => {
            put_from(alloc, text, script, unit, object, operation)
        }
        None => Ok(()),
    }
}

/// What is said of an entry, lines that each end with a line feed, and behind the line of an end which line of the script's texts has the
/// body that it ends, where one has it. Err where memory was refused.
pub fn placed(alloc: Global, said: &str, script: &str) -> Result<String, NoMemory> {
    let mut text = String::new(alloc);
    let mut rest = said;
    while let Some((line, others)) = next_line(rest) {
        put_line(alloc, &mut text, line, script)?;
        rest = others;
    }
    Ok(text)
}
