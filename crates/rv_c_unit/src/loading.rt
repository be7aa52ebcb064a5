//! Loading the unit that a text is.

ghost use Rattle.std.specs.Prelude.{◌≡◌};
ghost use Rattle.rv_c_host.specs.Carried.{TellsWords};
ghost use Rattle.rv_c_unit.specs.Units.{LoadsText, ReadsUnit};

use rv_c_host::{NO_HOST, Read, perform, words_of, words_or_none};
use rv_c_text::{Text, tell};
use rv_fault::{Failure, unit_of};
use rv_handle::Handle;
use rv_shape::catalogue::Catalogue;
use std::alloc::Global;

// Reads a text as the unit that it is over those that are loaded.
fn unit_read(alloc: Global, catalogue: &Catalogue, text: &[u8]) -> Read
    ensures { ReadsUnit catalogue.now text.now result }
{
    let Ok(text) = str::from_utf8(text) else {
        return Read::Bad(words_or_none(alloc, String::from_str(alloc, "NotText")));
    };
    match unit_of(alloc, catalogue, 1, text) {
        Ok(unit) => Read::Bring(unit),
        Err(Failure::Refused(fault)) => {
            Read::Bad(words_or_none(alloc, format!(in alloc; "{}", fault.what)))
        }
        Err(Failure::Memory) | Err(Failure::Io(_)) => Read::Memory,
    }
}

/// Loads the unit that a text is, with its bodies, over those that are loaded, into the host behind a handle. Gives the kind of the
/// answer, or why nothing was asked, and tells the caller words for people where the text is refused.
pub fn load_unit(alloc: Global, handle: &mut Handle, text: &[u8], told: &mut Text<'_>) -> i32
    ensures loads { LoadsText text.now handle.old.value handle.new.value result }
    ensures words { TellsWords told.old told.new }
{
    let Some(mut kept) = handle.take(alloc) else {
        tell(told, b"", 0);
        return NO_HOST;
    };
    let read = unit_read(alloc, kept.host.catalogue(), text);
    let words = words_of(alloc, &kept.host, &read);
    let status = perform(alloc, &mut kept, read);
    handle.put(kept);
    tell(told, words.as_bytes(), 0);
    status
}
