//! Steps that go on behind all that a text may ask.

use std::alloc::{AllocError, Global};

// The most requests that a text may ask: the greatest budget that settings take (own).
const MOST_REQUESTS: usize = 1_000_000;

/// What is told of a `go` of so many requests on a line of the script: each is answered, also once its text has asked all that it
/// may, so that a number slipped in takes hours. Nothing is told of as many as a text may ask. Err where memory was refused.
pub(crate) fn go_line(alloc: Global, line: usize, count: usize) -> Result<String, AllocError> {
    if count <= MOST_REQUESTS {
        return Ok(String::new(alloc));
    }
    format!(in alloc;
        "warning: script line {line}, go {count}: no text asks more than 1,000,000 requests, and each that is left is answered too\n"
    )
}
