//! Why a journal can't be read further, in a sentence.

use crate::front::{front_of, is_unreadable};
use crate::line::reason_of;
use rv_audit::audit::Audit;
use rv_audit::lines::judge_lines;
use rv_audit::observer::Nobody;
use rv_audit::verdict::Verdict;
use rv_history::limits::Limits;
use rv_shape::shape::UnitShape;
use std::alloc::Global;
use std::io;
use std::io::{BufRead, ErrorKind};

/// Why the line of this number of the journal that a reader gives is unreadable, behind the lines before it, which are those of a legal
/// history over the units that are given; none where it can be read, or isn't there.
///
/// # Errors
/// The first read that fails, and want of memory.
pub fn why_in<R: BufRead>(
    alloc: Global,
    given: &[UnitShape],
    journal: &mut R,
    number: usize,
) -> io::Result<Option<String>> {
    let Some(front) = front_of(alloc, given, journal, number)? else {
        return Ok(None);
    };
    if !is_unreadable(alloc, given, &front, number)? {
        return Ok(None);
    }
    let line = front.line.as_slice();
    let reason = reason_of(alloc, &front.loaded, given, number, line, front.has_feed);
    let why = format!(in alloc; "line {number}: {reason}")?;
    Ok(Some(why))
}

// The number of the line that a verdict says to be unreadable, if it says that.
fn line_in(verdict: &Verdict) -> Option<usize> {
    match verdict {
        Verdict::Unreadable(number) => Some(*number),
        _ => None,
    }
}

// The number of the line that an audit finds unreadable, if it finds that.
fn unreadable_line(
    alloc: Global,
    limits: Limits,
    given: &[UnitShape],
    journal: &[u8],
) -> io::Result<Option<usize>> {
    let Ok(mut audit) = Audit::within(alloc, limits) else {
        return Err(io::Error::from(ErrorKind::OutOfMemory));
    };
    let mut reader = journal;
    match judge_lines(
        alloc,
        &mut audit,
        given,
        &mut reader,
        false,
        &mut Nobody {},
        &mut Nobody {},
    ) {
        Ok((verdict, _)) => Ok(line_in(&verdict)),
        Err(e) => Err(e),
    }
}

/// Why a journal is unreadable, over these limits and the units that are given; none where an audit finds something else of it.
///
/// # Errors
/// Want of memory.
pub fn why_unread(
    alloc: Global,
    limits: Limits,
    given: &[UnitShape],
    journal: &[u8],
) -> io::Result<Option<String>> {
    let Some(number) = unreadable_line(alloc, limits, given, journal)? else {
        return Ok(None);
    };
    let mut reader = journal;
    why_in(alloc, given, &mut reader, number)
}
