//! Carrying out what texts say, behind a handle.

ghost use Rattle.std.specs.Prelude.{◌≡◌, Some};
ghost use Rattle.rv_access.specs.declared.change.Change.TheVariants as Changes;
ghost use Rattle.rv_c_host.specs.Carried.{Carries, Performs, ReadsLine, ReadsList, ReadsShape, TellsWords};
ghost use Rattle.rv_c_host.specs.declared.reading.Read.{Read};
ghost use Rattle.rv_c_host.specs.declared.reading.Read.TheVariants.{Do};

use crate::numbers::{BAD_TEXT, NO_HOST, NO_MEMORY, kind_of};
use crate::reading::{Read, append_read, list_read, replace_read, shape_read, words_or_none};
use rv_access::Change;
use rv_c_text::{Text, tell};
use rv_handle::Handle;
use rv_host::host::Host;
use rv_kept::Kept;
use std::alloc::Global;

/// Carries out what was read. Gives the kind of the answer, or why there is none.
pub fn perform(alloc: Global, kept: &mut Kept, read: Read) -> i32
    ensures { Performs read kept.old (Some kept.new) result }
{
    match read {
        Read::Bring(unit) => kind_of(&kept.load(alloc, unit)),
        Read::Do(change) => kind_of(&kept.host.change_list(&change)),
        Read::Bad(_) => BAD_TEXT,
        Read::Memory => NO_MEMORY,
    }
}

/// Words for people, where a shape doesn't fit, or a text is none.
pub fn words_of(alloc: Global, host: &Host, read: &Read) -> String {
    let told = match read {
        Read::Bring(unit) => match host.catalogue().shape_fits(&unit.shape) {
            Some(fault) => format!(in alloc; "shape {fault}"),
            None => Ok(String::new(alloc)),
        },
        Read::Bad(told) => String::from_str(alloc, told.as_str()),
        _ => Ok(String::new(alloc)),
    };
    words_or_none(alloc, told)
}

// Carries out what was read, behind a handle, and tells the caller words for people.
fn carry(alloc: Global, handle: &mut Handle, read: Read, told: &mut Text<'_>) -> i32
    ensures carries { Carries read handle.old.value handle.new.value result }
    ensures words { TellsWords told.old told.new }
{
    let Some(mut kept) = handle.take(alloc) else {
        tell(told, b"", 0);
        return NO_HOST;
    };
    let words = words_of(alloc, &kept.host, &read);
    let status = perform(alloc, &mut kept, read);
    handle.put(kept);
    tell(told, words.as_bytes(), 0);
    status
}

/// Loads the shape that a text is.
pub fn load_shape(alloc: Global, handle: &mut Handle, text: &[u8], told: &mut Text<'_>) -> i32
    ensures carries { (read : Read) × ReadsShape text.now read × Carries read handle.old.value handle.new.value result }
    ensures words { TellsWords told.old told.new }
{
    let read = shape_read(alloc, text);
    carry(alloc, handle, read, told)
}

/// Sets the list that a text is.
pub fn set_list(alloc: Global, handle: &mut Handle, text: &[u8], told: &mut Text<'_>) -> i32
    ensures carries { (read : Read) × ReadsList text.now read × Carries read handle.old.value handle.new.value result }
    ensures words { TellsWords told.old told.new }
{
    let read = list_read(alloc, text);
    carry(alloc, handle, read, told)
}

/// Adds the line that a text is at the end of the list.
pub fn append_line(alloc: Global, handle: &mut Handle, text: &[u8], told: &mut Text<'_>) -> i32
    ensures carries { (read : Read) × ReadsLine Changes.Append text.now read × Carries read handle.old.value handle.new.value result }
    ensures words { TellsWords told.old told.new }
{
    let read = append_read(alloc, text);
    carry(alloc, handle, read, told)
}

/// Puts the line that a text is in the place of that of a number, from 1.
pub fn replace_line(
    alloc: Global,
    handle: &mut Handle,
    number: usize,
    text: &[u8],
    told: &mut Text<'_>,
) -> i32
    ensures carries { (read : Read) × ReadsLine (Changes.Replace number) text.now read × Carries read handle.old.value handle.new.value result }
    ensures words { TellsWords told.old told.new }
{
    let read = replace_read(alloc, number, text);
    carry(alloc, handle, read, told)
}

/// Takes the line of a number, from 1, out of the list.
pub fn remove_line(alloc: Global, handle: &mut Handle, number: usize) -> i32
    ensures { Carries (Do (Changes.Remove number)) handle.old.value handle.new.value result }
{
    let Some(mut kept) = handle.take(alloc) else {
        return NO_HOST;
    };
    let status = perform(alloc, &mut kept, Read::Do(Change::Remove(number)));
    handle.put(kept);
    status
}
