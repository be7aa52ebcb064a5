//! The words of the command line, and what they ask.

use crate::status::Stop;
use clap::Error;
use clap::error::ErrorKind;
use rv_fault::Failure;
use rv_inquiry::inquiry::{Inquiry, Unasked};
use rv_inquiry::read::inquiry;
use std::alloc::Global;
use std::rt::Env;
use std::{env, io};

// What follows behind what is wrong with a line, as `clap` has it.
const HINT: &str = "\n\nFor more information, try '--help'.\n";

// What is told of a line that asks nothing: the version on standard output, and usage or help on standard error.
fn told<R: Print + Eprint>(rt: &R, error: &Error) -> Stop {
    if error.kind() == ErrorKind::DisplayVersion {
        return match print!(rt; "{error}") {
            Ok(()) => Stop::Told,
            Err(e) => Stop::Failed(Failure::Io(e)),
        };
    }
    let _ = eprint!(rt; "{error}");
    Stop::Usage
}

/// The words of the command line.
pub fn words_of<R: Env + AllocGlobal + Eprint>(rt: &R, alloc: Global) -> Result<Vec<String>, Stop> {
    let args = match env::args(rt) {
        Ok(args) => args,
        Err(e) if e.kind() == io::ErrorKind::OutOfMemory => {
            return Err(Stop::Failed(Failure::Memory));
        }
        Err(_) => {
            let _ = eprintln!(rt; "ravenreview: a word of the command line isn't UTF-8");
            return Err(Stop::Usage);
        }
    };
    let mut words: Vec<String> = Vec::new(alloc);
    for word in args {
        if words.push(word).is_err() {
            return Err(Stop::Failed(Failure::Memory));
        }
    }
    Ok(words)
}

/// What the words of the command line ask.
pub fn asked<'a, R: Print + Eprint>(
    rt: &R,
    alloc: Global,
    words: &'a [&'a str],
) -> Result<Inquiry<'a>, Stop> {
    match inquiry(alloc, words) {
        Ok(inquiry) => Ok(inquiry),
        Err(Unasked::NoMemory) => Err(Stop::Failed(Failure::Memory)),
        Err(Unasked::Usage(e)) => Err(told(rt, &e)),
        Err(Unasked::Misused(misuse)) => {
            let _ = eprint!(rt; "error: {misuse}{HINT}");
            Err(Stop::Usage)
        }
        Err(Unasked::Unknown) => {
            let _ = eprint!(rt; "error: no such command{HINT}");
            Err(Stop::Usage)
        }
    }
}
