//! The fronts of a script, which is cut at every byte: what is said of each when it is checked, in lines.

use crate::deeds::{Deed, given};
use row_files::neighbours::Neighbours;
use std::alloc::Global;
use std::io;

// How long the text of the last section is.
fn last_text_len(script: &[u8]) -> usize {
    let script = str::from_utf8(script).unwrap_or("");
    let section = match script.rfind("\n@") {
        Some(place) => script.get(place.saturating_add(1)..).unwrap_or(""),
        None => script,
    };
    match section.split_once('\n') {
        Some((_, text)) => text.len(),
        None => 0,
    }
}

// What is said of a script, in one line. A fault at the end of the last section's text is at `end`.
fn words(alloc: Global, script: &[u8]) -> io::Result<String> {
    let said = given(alloc, script, Deed::Check, false)?;
    let said = str::from_utf8(said.as_slice()).unwrap_or("no text");
    let length = last_text_len(script);
    let at_end = format!(in alloc; " at {length}")?;
    let mut words = String::new(alloc);
    for line in said.lines() {
        if words.len() > 0 {
            words.push_str("; ")?;
        }
        match line.strip_suffix(at_end.as_str()) {
            Some(fault) => {
                words.push_str(fault)?;
                words.push_str(" at end")?;
            }
            None => words.push_str(line)?,
        }
    }
    words.push_str("\n")?;
    Ok(words)
}

/// What is said of each front of a script, by how many bytes it is, from none to all.
pub fn fronts_of(alloc: Global, script: &[u8]) -> io::Result<Neighbours<'static>> {
    let mut fronts = Neighbours::new(alloc, "", 0);
    for end in 0..=script.len() {
        let words = words(alloc, script.get(..end).unwrap_or(script))?;
        fronts.note(alloc, words)?;
    }
    fronts.end(alloc)?;
    Ok(fronts)
}
