//! Notes as lines for people.

ghost use Rattle.std.specs.Prelude.{◌≡◌, ◌++◌, [], IfOk, OnOk, string_bytes};
ghost use Rattle.rv_never.specs.Telling as says;

use crate::note::Never;
use crate::words::{warning, words_of};
use rv_access::AccessList;
use rv_shape::catalogue::Catalogue;
use std::alloc::{AllocError, Global};

// The line that tells a note, with a clause behind it. Err where memory was refused.
fn note_line(
    alloc: Global,
    catalogue: &Catalogue,
    list: &AccessList,
    clock: u64,
    advice: &str,
    note: Never,
) -> Result<String, AllocError>
    ensures { IfOk result (λ text. string_bytes text ≡ says.warning (says.words_of catalogue.now list.now clock note ++ advice.now)) }
{
    let mut words = words_of(alloc, catalogue, list, clock, note)?;
    words.push_str(advice)?;
    warning(alloc, words.as_str())
}

/// Adds the lines that tell notes, with a clause behind each. Err where memory was refused.
pub(crate) fn put_notes(
    text: &mut String,
    alloc: Global,
    catalogue: &Catalogue,
    list: &AccessList,
    clock: u64,
    advice: &str,
    notes: &[Never],
) -> Result<(), AllocError>
    ensures { OnOk result (string_bytes text.new ≡ string_bytes text.old ++ says.notes_text catalogue.now list.now clock advice.now notes.now) }
{
    let Some((note, others)) = notes.split_first() else {
        return Ok(());
    };
    let line = note_line(alloc, catalogue, list, clock, advice, *note)?;
    text.push_str(line.as_str())?;
    put_notes(text, alloc, catalogue, list, clock, advice, others)
}

/// The lines that tell notes, by a list at a tick, as `warning: Loader calls Press.Bin.Put, which no line grants`. Err where
/// memory was refused.
pub fn notes_text(
    alloc: Global,
    catalogue: &Catalogue,
    list: &AccessList,
    clock: u64,
    notes: &[Never],
) -> Result<String, AllocError>
    ensures { IfOk result (λ text. string_bytes text ≡ says.notes_text catalogue.now list.now clock [] notes.now) }
{
    let mut text = String::new(alloc);
    put_notes(&mut text, alloc, catalogue, list, clock, "", notes)?;
    Ok(text)
}
