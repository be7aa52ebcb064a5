//! Answers, and beside an explanation where the texts that are given have what it names.

use crate::status::Stop;
use crate::timing::answer_with_times;
use rv_fault::Failure;
use rv_inquiry::inquiry::{Inquiry, Question};
use rv_placed::placing::placed;
use rv_script::{ReadError, read_script};
use std::alloc::Global;
use std::io::{Read, Write};
use std::rt::Files;
use std::str;

// The script that a reader gives, at most one byte past its greatest length.
fn script_of<I: Read>(alloc: Global, reader: &mut I) -> Result<Vec<u8>, Stop> {
    match read_script(alloc, reader) {
        Ok(bytes) => Ok(bytes),
        Err(ReadError::Io(e)) => Err(Stop::Failed(Failure::Io(e))),
        Err(ReadError::Memory) => Err(Stop::Failed(Failure::Memory)),
    }
}

// Writes bytes.
fn put<W: Write>(writer: &mut W, bytes: &[u8]) -> Result<(), Stop> {
    match writer.write_all(bytes) {
        Ok(()) => Ok(()),
        Err(e) => Err(Stop::Failed(Failure::Io(e))),
    }
}

// Bytes as a text, or none where they are no UTF-8.
fn text_of(bytes: &[u8]) -> &str {
    match str::from_utf8(bytes) {
        Ok(text) => text,
        Err(_) => "",
    }
}

// Writes an explanation, with where the bodies stand that it names.
fn put_placed<W: Write>(
    alloc: Global,
    writer: &mut W,
    said: &[u8],
    script: &[u8],
) -> Result<(), Stop> {
    let said = text_of(said);
    let script = text_of(script);
    match placed(alloc, said, script) {
        Ok(text) => put(writer, text.as_bytes()),
        Err(_) => Err(Stop::Failed(Failure::Memory)),
    }
}

// Explains an entry.
fn explain<R: Files + Eprint, I: Read, W: Write>(
    rt: &R,
    alloc: Global,
    asked: &Inquiry<'_>,
    reader: &mut I,
    writer: &mut W,
) -> Result<(), Stop> {
    let script = script_of(alloc, reader)?;
    let mut lent = script.as_slice();
    let mut said: Vec<u8> = Vec::new(alloc);
    match answer_with_times(rt, alloc, asked, &mut lent, &mut said) {
        Ok(()) => put_placed(alloc, writer, said.as_slice(), script.as_slice()),
        Err(stop) => {
            put(writer, said.as_slice())?;
            Err(stop)
        }
    }
}

/// Answers what is asked of a journal.
pub fn answer<R: Files + Eprint, I: Read, W: Write>(
    rt: &R,
    alloc: Global,
    asked: &Inquiry<'_>,
    reader: &mut I,
    writer: &mut W,
) -> Result<(), Stop> {
    match asked.question {
        Question::Explain => explain(rt, alloc, asked, reader, writer),
        _ => answer_with_times(rt, alloc, asked, reader, writer),
    }
}
