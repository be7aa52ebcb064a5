//! The sections of a script that hold a journal: an audit judges the last of them.

ghost use Rattle.std.specs.Prelude.{◌≡◌, count_by};
ghost use Rattle.std.specs.Str.Lines.{lines};
ghost use Rattle.rv_unread.specs.Journals.{opens_journal};

use rv_script::{Opening, opening_of};
use rv_text::next_line;
use std::alloc::{AllocError, Global};

// Whether a line opens a journal.
fn opens_journal(line: &str) -> bool
    ensures { result ≡ opens_journal line.now }
{
    match opening_of(line) {
        Some(Opening::Journal) => true,
        _ => false,
    }
}

/// How many lines of a script open a journal.
pub fn journals_in(script: &str) -> usize
    ensures { result ≡ count_by opens_journal (lines script.now) }
{
    let mut rest = script;
    let mut count = 0;
    while let Some((line, after)) = next_line(rest) {
        if opens_journal(line) {
            count += 1;
        }
        rest = after;
    }
    count
}

const NO_JOURNAL: &str = "the script has no section @journal, so the empty journal was judged";

/// What is told of the journals of a script that was judged, where it has none or several. Err where memory was refused.
pub fn journals_note(alloc: Global, script: &str) -> Result<Option<String>, AllocError> {
    let count = journals_in(script);
    if count == 1 {
        return Ok(None);
    }
    if count == 0 {
        return Ok(Some(String::from_str(alloc, NO_JOURNAL)?));
    }
    let over = count - 1;
    let told = format!(in alloc;
        "of {count} sections @journal the last was judged, and {over} passed over"
    )?;
    Ok(Some(told))
}
