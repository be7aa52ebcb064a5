//! Rows of how often words were counted.

ghost use Rattle.std.specs.Prelude.{◌≡◌, ◌++◌, OnOk, map, string_bytes};
ghost use Rattle.rv_tallied.specs.Tallies.{kept_for, row_text, rows_text};

use crate::tallies::{Tallies, Tally};
use std::alloc::AllocError;

/// Puts a row behind a text. Err where memory was refused.
pub fn put_row(text: &mut String, how: &str, words: &str, tally: Tally) -> Result<(), AllocError>
    ensures { OnOk result (string_bytes text.new ≡ string_bytes text.old ++ row_text how.now words.now tally) }
{
    let times = tally.times;
    let granted = tally.granted;
    write!(text, "{how} {times} granted {granted}: {words}\n")
}

/// Puts the rows of these words behind a text. Err where memory was refused.
pub fn put_rows(
    text: &mut String,
    how: &str,
    tallies: &Tallies,
    seen: &[String],
) -> Result<(), AllocError>
    ensures { OnOk result (string_bytes text.new ≡ string_bytes text.old
        ++ rows_text how.now (kept_for tallies.now) (map string_bytes seen.now)) }
{
    for words in seen {
        let words = words.as_str();
        put_row(text, how, words, tallies.of(words))?;
    }
    Ok(())
}
