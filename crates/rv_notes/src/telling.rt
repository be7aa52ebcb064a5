//! Notes as lines for people.

ghost use Rattle.std.specs.Prelude.{◌≡◌, ◌++◌, IfOk, List, OnOk, ℕ, string_bytes};
ghost use Rattle.rv_notes.specs.Telling.{TellsNote, TellsNotes};

use crate::note::Note;
use crate::words::words_of;
use rv_access::AccessList;
use rv_shape::catalogue::Catalogue;
use std::alloc::{AllocError, Global};

// The line that tells a note on a list. Err where memory was refused.
fn note_line(
    alloc: Global,
    catalogue: &Catalogue,
    list: &AccessList,
    note: Note,
) -> Result<String, AllocError>
    ensures { IfOk result (λ line. TellsNote list.now note (string_bytes line)) }
{
    let number = note.line();
    let words = words_of(alloc, catalogue, list, note)?;
    let words = words.as_str();
    format!(in alloc; "warning: list line {number} {words}\n")
}

/// Adds the lines that tell notes on a list. Err where memory was refused.
pub(crate) fn put_notes(
    text: &mut String,
    alloc: Global,
    catalogue: &Catalogue,
    list: &AccessList,
    notes: &[Note],
) -> Result<(), AllocError>
    ensures { OnOk result ((lines : List ℕ) × TellsNotes list.now notes.now lines
        × (string_bytes text.new ≡ string_bytes text.old ++ lines)) }
{
    let Some((note, others)) = notes.split_first() else {
        return Ok(());
    };
    let line = note_line(alloc, catalogue, list, *note)?;
    text.push_str(line.as_str())?;
    put_notes(text, alloc, catalogue, list, others)
}
