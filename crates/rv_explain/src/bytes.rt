//! Scripts that aren't text.

use crate::explanation::{Explanation, of_place};
use crate::spot::Spot;
use std::alloc::{AllocError, Global};

// How many line feeds there are in a text.
fn line_feeds(text: &str) -> usize {
    text.as_bytes()
        .iter()
        .filter(|byte| **byte == b'\n')
        .count()
}

// The text that bytes begin with, and the first byte behind it.
fn text_before(script: &[u8]) -> (&str, u8) {
    let valid = match str::from_utf8(script) {
        Ok(_) => script.len(),
        Err(e) => e.valid_up_to(),
    };
    let front = script.get(..valid).unwrap_or(b"");
    let byte = match script.get(valid) {
        Some(byte) => *byte,
        None => 0,
    };
    match str::from_utf8(front) {
        Ok(text) => (text, byte),
        Err(_) => ("", byte),
    }
}

/// What is said of bytes that are no text: where the first of them stands that is none, behind the line up to there.
pub(crate) fn of_bytes(alloc: Global, script: &[u8]) -> Result<Explanation<'_>, AllocError> {
    let (text, byte) = text_before(script);
    let line = match text.rsplit_once('\n') {
        Some((_, line)) => line,
        None => text,
    };
    let spot = Spot {
        number: line_feeds(text).saturating_add(1),
        line,
        offset: line.len(),
    };
    let at = text.len();
    let sentence = format!(in alloc;
        "a script is UTF-8, and the byte 16#{byte:X}# that stands here, byte {at} of the script from 0, is no part of that"
    )?;
    Ok(of_place(alloc, spot, sentence))
}
