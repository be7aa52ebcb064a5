//! What notes tell below the verdict on a journal.

use rv_fault::Failure;
use rv_script::text_of;
use rv_script::unit_text::unit_text;
use rv_unread::{journals_note, why_unread};
use rv_verdict::script_of;
use std::alloc::{AllocError, Global};

// Adds a line, if there is one.
fn add_line(told: &mut String, line: Option<String>) -> Result<(), AllocError> {
    if let Some(line) = line {
        told.push_str(line.as_str())?;
        told.push_str("\n")?;
    }
    Ok(())
}

// What is told of a journal in a file of its own.
fn told_of_file(alloc: Global, script: &[u8], journal: &[u8]) -> Result<String, Failure> {
    let text = text_of(script)?;
    let (limits, given) = script_of(alloc, text, false)?;
    let mut told = String::new(alloc);
    let why = why_unread(alloc, limits, given.units(), journal)?;
    add_line(&mut told, why)?;
    Ok(told)
}

/// What is told of the journal that a script brings, or of the one in a file of its own, each on a line: why it is unreadable, and which
/// sections were passed over.
pub fn told_below(alloc: Global, script: &[u8], file: &Option<Vec<u8>>) -> Result<String, Failure> {
    if let Some(journal) = file {
        return told_of_file(alloc, script, journal.as_slice());
    }
    let text = text_of(script)?;
    let (limits, given) = script_of(alloc, text, true)?;
    let journal = unit_text(alloc, given.journal())?;
    let mut told = String::new(alloc);
    let why = why_unread(alloc, limits, given.units(), journal.as_bytes())?;
    add_line(&mut told, why)?;
    add_line(&mut told, journals_note(alloc, text)?)?;
    Ok(told)
}
