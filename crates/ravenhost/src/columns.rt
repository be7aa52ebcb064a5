//! How wide a terminal is.

ghost use Rattle.std.specs.Prelude.{◌≡◌};
ghost use Rattle.ravenhost.specs.Columns.{columns_of};

use rv_text::natural_of;
use std::env;
use std::rt::Env;

// How many columns a word says: a whole number above 0. Another word says nothing.
fn columns_of(word: &str) -> Option<usize>
    ensures { result ≡ columns_of word.now }
{
    match natural_of(word) {
        Some(columns) if 0 < columns => Some(columns as usize),
        _ => None,
    }
}

/// How many columns the terminal has, 1 or more, where COLUMNS says so.
pub fn read_columns<R: Env + AllocGlobal>(rt: &R) -> Option<usize> {
    match env::var(rt, "COLUMNS") {
        Ok(word) => columns_of(word.as_str()),
        Err(_) => None,
    }
}
