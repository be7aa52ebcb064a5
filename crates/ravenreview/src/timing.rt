//! Answers with the times of entries, where a file has them.

use crate::listing::{bytes_of, told, words_for};
use crate::reviewing::answer_since;
use crate::status::Stop;
use rv_fault::Failure;
use rv_inquiry::inquiry::{From, Inquiry, Question};
use rv_review::Since;
use rv_script::text_of;
use rv_times::fault::TimesFault;
use rv_times::reading::read_times;
use rv_times::telling::timed;
use rv_times::times::Times;
use std::alloc::Global;
use std::io::{Read, Write};
use std::rt::Files;
use std::str;

// Since when entries are taken; an instant is asked for with times alone.
fn since_of(from: From, times: Option<&Times<'_>>) -> Since {
    match (from, times) {
        (From::Entry(number), _) => Since::Entry(number as usize),
        (From::Tick(tick), _) => Since::Tick(tick),
        (From::Instant(at), Some(times)) => {
            Since::Entry((times.last_before(at) as usize).saturating_add(1))
        }
        _ => Since::Start,
    }
}

// The times that a file of this name holds; what stands against it is said.
fn times_of<'t, R: Eprint>(
    rt: &R,
    alloc: Global,
    name: &str,
    bytes: &'t [u8],
) -> Result<Times<'t>, Stop> {
    let text = match text_of(bytes) {
        Ok(text) => text,
        Err(error) => return Err(told(rt, name, &words_for(error), Stop::BadList)),
    };
    match read_times(alloc, text) {
        Ok(times) => Ok(times),
        Err(TimesFault::NoMemory) => Err(Stop::Failed(Failure::Memory)),
        Err(fault) => Err(told(rt, name, &fault, Stop::BadList)),
    }
}

// Writes what was said of a legal journal, with times.
fn put_timed<W: Write>(
    alloc: Global,
    writer: &mut W,
    said: &[u8],
    times: &Times<'_>,
    is_json: bool,
) -> Result<(), Stop> {
    let text = str::from_utf8(said).unwrap_or("");
    let Ok(text) = timed(alloc, text, times, is_json) else {
        return Err(Stop::Failed(Failure::Memory));
    };
    match writer.write_all(text.as_bytes()) {
        Ok(()) => Ok(()),
        Err(e) => Err(Stop::Failed(Failure::Io(e))),
    }
}

// Answers by the times that a file of this name holds.
fn answer_timed<R: Files + Eprint, I: Read, W: Write>(
    rt: &R,
    alloc: Global,
    name: &str,
    asked: &Inquiry<'_>,
    reader: &mut I,
    writer: &mut W,
) -> Result<(), Stop> {
    let bytes = bytes_of(rt, alloc, name)?;
    let times = times_of(rt, alloc, name, bytes.as_slice())?;
    let since = since_of(asked.since, Some(&times));
    let mut said: Vec<u8> = Vec::new(alloc);
    match answer_since(rt, alloc, asked, since, reader, &mut said) {
        Ok(()) => {
            let is_json = matches!(asked.question, Question::Export);
            put_timed(alloc, writer, said.as_slice(), &times, is_json)
        }
        Err(stop) => match writer.write_all(said.as_slice()) {
            Ok(()) => Err(stop),
            Err(e) => Err(Stop::Failed(Failure::Io(e))),
        },
    }
}

/// Answers what is asked of a journal, with times where a file has them.
pub fn answer_with_times<R: Files + Eprint, I: Read, W: Write>(
    rt: &R,
    alloc: Global,
    asked: &Inquiry<'_>,
    reader: &mut I,
    writer: &mut W,
) -> Result<(), Stop> {
    match asked.times {
        Some(name) => answer_timed(rt, alloc, name, asked, reader, writer),
        None => answer_since(
            rt,
            alloc,
            asked,
            since_of(asked.since, None),
            reader,
            writer,
        ),
    }
}
