//! The subcommands that take a script alone: `play` and `check`.

use crate::colours::tell;
use crate::reading::read;
use crate::status::Stop;
use crate::telling::{Telling, ended, warn};
use rv_check::reading::check_kept;
use rv_check::warnings::{warnings_of, whole_warnings_of};
use rv_fault::Failure;
use rv_play::counts::Counts;
use rv_play::play::play_counted;
use std::alloc::Global;
use std::io::{Read, Write};

// The script that a reader gives, of whose lists was told what is to be told; a whole one may be for another command than `play`.
fn noted<R: Eprint, I: Read>(
    rt: &R,
    alloc: Global,
    telling: Telling,
    is_whole: bool,
    reader: &mut I,
) -> Result<Vec<u8>, Stop> {
    let script = match read(alloc, reader) {
        Ok(script) => script,
        Err(failure) => return Err(Stop::Failed(failure)),
    };
    if !telling.is_shown && !telling.are_errors {
        return Ok(script);
    }
    let found = if is_whole {
        whole_warnings_of(alloc, script.as_slice())
    } else {
        warnings_of(alloc, script.as_slice())
    };
    warn(rt, telling, found)?;
    Ok(script)
}

// Tells which answers the journal doesn't have, if there are some.
fn tell_unrecorded<R: Eprint>(rt: &R, alloc: Global, is_coloured: bool, counts: &Counts) {
    let unrecorded = counts.unrecorded();
    if unrecorded == 0 {
        return;
    }
    let them = if unrecorded == 1 { "it" } else { "them" };
    let _ = match format!(in alloc; "note: {counts}; --all shows {them}\n") {
        Ok(text) => tell(rt, is_coloured, text.as_str()),
        Err(_) => eprintln!(rt; "note: {counts}; --all shows {them}"),
    };
}

/// Carries out a script, after its notes were told; which answers the journal doesn't have is told behind it.
pub fn play_script<R: Eprint, I: Read, W: Write>(
    rt: &R,
    alloc: Global,
    telling: Telling,
    all: bool,
    reader: &mut I,
    writer: &mut W,
) -> Result<(), Stop> {
    let script = noted(rt, alloc, telling, false, reader)?;
    let mut bytes = script.as_slice();
    let mut counts = Counts::new();
    let done = play_counted(alloc, &mut bytes, writer, all, &mut counts);
    if telling.is_shown && !all {
        tell_unrecorded(rt, alloc, telling.is_coloured, &counts);
    }
    ended(rt, alloc, telling, script.as_slice(), done)
}

/// Looks at a script, after its notes were told; a whole one with its steps, its commands or its journal.
pub fn check_script<R: Eprint, I: Read, W: Write>(
    rt: &R,
    alloc: Global,
    telling: Telling,
    is_whole: bool,
    reader: &mut I,
    writer: &mut W,
) -> Result<(), Stop> {
    let script = noted(rt, alloc, telling, is_whole, reader)?;
    let mut bytes = script.as_slice();
    let (kept, done) = check_kept(alloc, &mut bytes, writer, is_whole);
    ended(rt, alloc, telling, kept.as_slice(), done)
}
