//! The list that a file holds.

use crate::status::Stop;
use rv_access::{AccessList, ListFault, read_list};
use rv_fault::Failure;
use rv_script::{ReadError, TextError, read_script, text_of};
use std::alloc::Global;
use std::rt::Files;
use std::{fmt, fs};

/// Tells what stands against a file, which then ends the program so.
pub fn told<R: Eprint, E: fmt::Display>(rt: &R, name: &str, error: &E, stop: Stop) -> Stop {
    let _ = eprintln!(rt; "ravenreview: {name}: {error}");
    stop
}

/// The bytes of a file, at most one past the greatest length of a script.
pub fn bytes_of<R: Files + Eprint>(rt: &R, alloc: Global, name: &str) -> Result<Vec<u8>, Stop> {
    let mut file = match fs::open(rt, name) {
        Ok(file) => file,
        Err(e) => return Err(told(rt, name, &e, Stop::BadFile)),
    };
    match read_script(alloc, &mut file) {
        Ok(bytes) => Ok(bytes),
        Err(ReadError::Io(e)) => Err(told(rt, name, &e, Stop::BadFile)),
        Err(ReadError::Memory) => Err(Stop::Failed(Failure::Memory)),
    }
}

/// Why bytes are no text.
pub fn words_for(error: TextError) -> &'static str {
    match error {
        TextError::TooLong => "it is longer than 16 MiB",
        TextError::NotText => "it isn't UTF-8",
    }
}

/// The list that a file of this name holds, its lines as in a section `@list`; what stands against it is said.
pub fn list_of<R: Files + Eprint>(rt: &R, alloc: Global, name: &str) -> Result<AccessList, Stop> {
    let bytes = bytes_of(rt, alloc, name)?;
    let text = match text_of(bytes.as_slice()) {
        Ok(text) => text,
        Err(error) => return Err(told(rt, name, &words_for(error), Stop::BadList)),
    };
    match read_list(alloc, text) {
        Ok(list) => Ok(list),
        Err(ListFault::NoMemory) => Err(Stop::Failed(Failure::Memory)),
        Err(fault) => Err(told(rt, name, &fault, Stop::BadList)),
    }
}
