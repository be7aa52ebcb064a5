//! Colours on standard error, for people: the word that says what a line is, and the caret below a place.

use std::alloc::Global;
use std::rt::Env;
use std::{env, io};

// The codes that begin colours, and the one that ends them (ECMA-48, 8.3.117).
const RED: &str = "\x1b[31m";

const GREEN: &str = "\x1b[32m";

const YELLOW: &str = "\x1b[33m";

const CYAN: &str = "\x1b[36m";

const PLAIN: &str = "\x1b[0m";

// What lines begin with, and the colour of that.
const HEADS: [(&str, &str); 9] = [
    ("script line ", RED),
    ("warning:", YELLOW),
    ("note:", CYAN),
    ("journal:", CYAN),
    ("quota:", YELLOW),
    ("task ", CYAN),
    ("handler of ", CYAN),
    ("lost ", RED),
    (" --> ", CYAN),
];

/// Whether NO_COLOR is set, and not empty: then nothing is coloured where that isn't asked for.
pub fn is_refused<R: Env + AllocGlobal>(rt: &R) -> bool {
    match env::var(rt, "NO_COLOR") {
        Ok(value) => !value.is_empty(),
        Err(_) => false,
    }
}

// Whether a line points at a place in the line above.
fn is_caret(line: &str) -> bool {
    line.trim_end().ends_with('^')
}

// Writes a line.
fn put_line<R: Eprint>(rt: &R, line: &str) -> io::Result<()> {
    for i in 0..HEADS.len() {
        let (head, colour) = HEADS[i];
        if let Some(rest) = line.strip_prefix(head) {
            return eprint!(rt; "{colour}{head}{PLAIN}{rest}");
        }
    }
    if is_caret(line) {
        return eprint!(rt; "{GREEN}{line}{PLAIN}");
    }
    eprint!(rt; "{line}")
}

/// Writes a text of whole lines to standard error, in colours where they are shown.
///
/// # Errors
/// As the write that failed.
pub fn tell<R: Eprint>(rt: &R, is_coloured: bool, text: &str) -> io::Result<()> {
    if !is_coloured {
        return eprint!(rt; "{text}");
    }
    for line in text.split_inclusive('\n') {
        put_line(rt, line)?;
    }
    Ok(())
}
