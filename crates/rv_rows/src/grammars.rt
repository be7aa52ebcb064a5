//! Unit texts of a file, one a line, and what the grammar says of each. A line is `Tree TEXT`, where the text has a tree, or
//! `Unexpected TEXT` or `TooDeep TEXT`, where that is its fault: then `@` stands in the text where the fault has to be told. A
//! line that begins with `#` is left out.

use crate::deeds::{Deed, given};
use std::alloc::Global;
use std::io;

// How a fault of the grammar is told of the unit text of a script's first section.
const FAULT: &str = "script line 1: parse ";

// What is said of a unit text when it is checked, as the only section of a script.
fn said_of(alloc: Global, front: &str, rest: &str) -> io::Result<Vec<u8>> {
    let script = format!(in alloc; "@unit\n{front}{rest}")?;
    given(alloc, script.as_bytes(), Deed::Check, false)
}

// Whether that is what a line says.
fn is_said(alloc: Global, word: &str, text: &str) -> io::Result<bool> {
    let (front, rest) = text.split_once('@').unwrap_or((text, ""));
    let said = said_of(alloc, front, rest)?;
    if word == "Tree" {
        return Ok(!said.starts_with(FAULT.as_bytes()));
    }
    let place = front.len();
    let due = format!(in alloc; "{FAULT}{word} at {place}\n")?;
    Ok(said.as_slice() == due.as_bytes())
}

/// How many texts a file has, if what is said of each is what has to be said; else the number of the first other line.
pub fn said_of_all(alloc: Global, file: &str) -> io::Result<Result<usize, usize>> {
    let mut count = 0usize;
    for (index, line) in file.lines().enumerate() {
        if line.starts_with('#') {
            continue;
        }
        let (word, text) = line.split_once(' ').unwrap_or((line, ""));
        if !is_said(alloc, word, text)? {
            return Ok(Err(index.saturating_add(1)));
        }
        count = count.saturating_add(1);
    }
    Ok(Ok(count))
}
