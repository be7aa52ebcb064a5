//! The subcommands.

use crate::listing::list_of;
use crate::one_entry::tell;
use crate::status::Stop;
use crate::wishing::wish_of;
use rv_access::AccessList;
use rv_fault::Failure;
use rv_inquiry::inquiry::{Inquiry, Question};
use rv_review::{
    AccessWish, Audited, Filter, Nobody, Since, explain, explain_file, export, export_file, hits,
    hits_file, refusals, refusals_file, rights, rights_file, state, state_file, timeline,
    timeline_file, waits, waits_file, what_if, what_if_file,
};
use std::alloc::Global;
use std::fs;
use std::io::{Read, Write};
use std::rt::Files;

// The entries that are asked for, since then.
fn filter_of<'a>(asked: &Inquiry<'a>, since: Since) -> Filter<'a> {
    Filter {
        since,
        by: asked.by,
        of: asked.of,
    }
}

// What is wished of rights, of the calls that are asked for.
fn access_wish_of<'a>(asked: &Inquiry<'_>, filter: Filter<'a>) -> AccessWish<'a> {
    AccessWish {
        filter,
        as_json: asked.is_json,
    }
}

// The number of the entry that is asked about.
fn entry_of(asked: &Inquiry<'_>) -> usize {
    asked.entry.unwrap_or(0) as usize
}

// Tells of the rest of a line that a crash cut off.
fn tell_torn<R: Eprint>(rt: &R, bytes: usize) {
    if bytes > 0 {
        let _ = eprintln!(rt;
            "ravenreview: a last line of {bytes} bytes without its line feed is left out"
        );
    }
}

// What a review came to.
fn ended<R: Eprint>(rt: &R, audited: Result<Audited, Failure>) -> Result<(), Stop> {
    match audited {
        Ok(audited) => {
            tell_torn(rt, audited.torn);
            if audited.is_legal {
                Ok(())
            } else {
                Err(Stop::NotLegal)
            }
        }
        Err(failure) => Err(Stop::Failed(failure)),
    }
}

// The list that is given; `whatif` always is given one.
fn or_empty(alloc: Global, list: Option<AccessList>) -> AccessList {
    match list {
        Some(list) => list,
        None => AccessList::new(alloc),
    }
}

// What is said of the journal that a script brings.
fn said<I: Read, W: Write>(
    alloc: Global,
    asked: &Inquiry<'_>,
    since: Since,
    list: Option<AccessList>,
    reader: &mut I,
    writer: &mut W,
) -> Result<Audited, Failure> {
    let filter = filter_of(asked, since);
    match asked.question {
        Question::Refusals => refusals(alloc, reader, writer, filter),
        Question::Waits => waits(alloc, reader, writer, filter),
        Question::Access | Question::Who => {
            rights(alloc, reader, writer, access_wish_of(asked, filter), list)
        }
        Question::Hits => hits(alloc, reader, writer, filter),
        Question::WhatIf => what_if(alloc, reader, writer, filter, or_empty(alloc, list)),
        Question::State => state(alloc, reader, writer, entry_of(asked)),
        Question::Explain => explain(alloc, reader, writer, entry_of(asked)),
        Question::Timeline => timeline(alloc, reader, writer, wish_of(asked, filter)),
        Question::Export => export(alloc, reader, writer),
    }
}

// What is said of the journal that a reader of its own gives.
fn said_of_file<I: Read, J: Read, W: Write>(
    alloc: Global,
    asked: &Inquiry<'_>,
    since: Since,
    list: Option<AccessList>,
    reader: &mut I,
    journal: &mut J,
    writer: &mut W,
) -> Result<Audited, Failure> {
    let filter = filter_of(asked, since);
    let torn = asked.takes_torn;
    let watch = &mut Nobody {};
    match asked.question {
        Question::Refusals => refusals_file(alloc, reader, journal, torn, watch, writer, filter),
        Question::Waits => waits_file(alloc, reader, journal, torn, watch, writer, filter),
        Question::Access | Question::Who => {
            let wish = access_wish_of(asked, filter);
            rights_file(alloc, reader, journal, torn, watch, writer, wish, list)
        }
        Question::Hits => hits_file(alloc, reader, journal, torn, watch, writer, filter),
        Question::WhatIf => what_if_file(
            alloc,
            reader,
            journal,
            torn,
            watch,
            writer,
            filter,
            or_empty(alloc, list),
        ),
        Question::State => {
            let entry = entry_of(asked);
            state_file(alloc, reader, journal, torn, watch, writer, entry)
        }
        Question::Explain => {
            let entry = entry_of(asked);
            explain_file(alloc, reader, journal, torn, watch, writer, entry)
        }
        Question::Timeline => {
            let wish = wish_of(asked, filter);
            timeline_file(alloc, reader, journal, torn, watch, writer, wish)
        }
        Question::Export => export_file(alloc, reader, journal, torn, watch, writer),
    }
}

// Answers of the journal in a file of this name.
fn answer_of_file<R: Files + Eprint, I: Read, W: Write>(
    rt: &R,
    alloc: Global,
    name: &str,
    asked: &Inquiry<'_>,
    since: Since,
    list: Option<AccessList>,
    reader: &mut I,
    writer: &mut W,
) -> Result<(), Stop> {
    let mut journal = match fs::open(rt, name) {
        Ok(journal) => journal,
        Err(e) => {
            let _ = eprintln!(rt; "ravenreview: {name}: {e}");
            return Err(Stop::BadFile);
        }
    };
    ended(
        rt,
        said_of_file(alloc, asked, since, list, reader, &mut journal, writer),
    )
}

// Answers what is asked of a journal.
fn answer_into<R: Files + Eprint, I: Read, W: Write>(
    rt: &R,
    alloc: Global,
    asked: &Inquiry<'_>,
    since: Since,
    reader: &mut I,
    writer: &mut W,
) -> Result<(), Stop> {
    let list = match asked.list {
        Some(name) => Some(list_of(rt, alloc, name)?),
        None => None,
    };
    match asked.journal {
        Some(name) => answer_of_file(rt, alloc, name, asked, since, list, reader, writer),
        None => ended(rt, said(alloc, asked, since, list, reader, writer)),
    }
}

/// Answers what is asked of a journal, since then. That it has no entry of the number that is asked about is an error.
pub fn answer_since<R: Files + Eprint, I: Read, W: Write>(
    rt: &R,
    alloc: Global,
    asked: &Inquiry<'_>,
    since: Since,
    reader: &mut I,
    writer: &mut W,
) -> Result<(), Stop> {
    if asked.entry.is_none() {
        return answer_into(rt, alloc, asked, since, reader, writer);
    }
    let mut said: Vec<u8> = Vec::new(alloc);
    let outcome = answer_into(rt, alloc, asked, since, reader, &mut said);
    tell(rt, writer, said.as_slice())?;
    outcome
}
