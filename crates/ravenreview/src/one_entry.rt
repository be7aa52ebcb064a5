//! Answers about one entry.

use crate::status::Stop;
use rv_fault::Failure;
use std::io::Write;
use std::str;

// What an answer begins with that no entry has the number.
const MISSING: &[u8] = b"no entry ";

/// Writes what was said about an entry; that no entry has its number is told as an error.
pub fn tell<R: Eprint, W: Write>(rt: &R, writer: &mut W, said: &[u8]) -> Result<(), Stop> {
    if said.starts_with(MISSING) {
        let text = str::from_utf8(said).unwrap_or("no entry has this number\n");
        let _ = eprint!(rt; "ravenreview: {text}");
        return Err(Stop::NoEntry);
    }
    match writer.write_all(said) {
        Ok(()) => Ok(()),
        Err(e) => Err(Stop::Failed(Failure::Io(e))),
    }
}
