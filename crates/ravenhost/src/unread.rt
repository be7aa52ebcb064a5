//! Why a journal is unreadable, and which sections an audit passed over: notes below its verdict, on standard error.

use crate::colours::tell;
use rv_fault::Failure;
use rv_script::text_of;
use rv_script::unit_text::unit_text;
use rv_unread::{journals_note, why_in, why_unread};
use rv_verdict::script_of;
use std::alloc::Global;
use std::io;
use std::io::{BufReader, Read, Seek};

/// How notes of an audit are told.
#[derive(Clone, Copy)]
pub struct Noting {
    /// Whether they are told at all.
    pub is_shown: bool,
    /// Whether they have colours.
    pub is_coloured: bool,
}

// Tells a note; where there is no memory for its text, nothing.
fn note<R: Eprint>(rt: &R, alloc: Global, noting: Noting, text: &str) {
    if let Ok(line) = format!(in alloc; "note: {text}\n") {
        let _ = tell(rt, noting.is_coloured, line.as_str());
    }
}

// Tells why a line is unreadable, where that is known.
fn note_why<R: Eprint>(rt: &R, alloc: Global, noting: Noting, why: io::Result<Option<String>>) {
    if let Ok(Some(why)) = why {
        note(rt, alloc, noting, why.as_str());
    }
}

// Why the journal that the text of a script brings is unreadable, if it is.
fn why_of_section(alloc: Global, script: &[u8]) -> Result<Option<String>, Failure> {
    let text = text_of(script)?;
    let (limits, given) = script_of(alloc, text, true)?;
    let journal = unit_text(alloc, given.journal())?;
    Ok(why_unread(alloc, limits, given.units(), journal.as_bytes())?)
}

/// Tells why the journal of a script is unreadable, where it is.
pub fn note_section<R: Eprint>(rt: &R, alloc: Global, noting: Noting, script: &[u8]) {
    if !noting.is_shown {
        return;
    }
    if let Ok(why) = why_of_section(alloc, script) {
        note_why(rt, alloc, noting, Ok(why));
    }
}

// Why the line of this number of a file is unreadable, over what the text of a script brings, if it is. The file is read anew.
fn why_of_file<J: Read + Seek>(
    alloc: Global,
    script: &[u8],
    journal: &mut J,
    number: usize,
) -> Result<Option<String>, Failure> {
    let text = text_of(script)?;
    let (_, given) = script_of(alloc, text, false)?;
    journal.rewind()?;
    let mut lines = BufReader::new(alloc, journal)?;
    Ok(why_in(alloc, given.units(), &mut lines, number)?)
}

/// Tells why the line of this number of a file is unreadable, where it is; of what can't be read anew, as a pipe, nothing.
pub fn note_file<R: Eprint, J: Read + Seek>(
    rt: &R,
    alloc: Global,
    noting: Noting,
    script: &[u8],
    journal: &mut J,
    number: usize,
) {
    if !noting.is_shown {
        return;
    }
    if let Ok(why) = why_of_file(alloc, script, journal, number) {
        note_why(rt, alloc, noting, Ok(why));
    }
}

/// Tells that a script that was judged has no section with a journal, or several, where it has.
pub fn note_journals<R: Eprint>(rt: &R, alloc: Global, noting: Noting, script: &[u8]) {
    if !noting.is_shown {
        return;
    }
    let Ok(text) = text_of(script) else {
        return;
    };
    if let Ok(Some(said)) = journals_note(alloc, text) {
        note(rt, alloc, noting, said.as_str());
    }
}
