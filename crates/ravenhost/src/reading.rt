//! What the subcommands read.

ghost use Rattle.std.specs.Prelude.{◌≡◌, ◌+◌, ◌++◌, take, IfOk, IfSome};
ghost use Rattle.std.specs.Io.KnownBytes.{Consumes};
ghost use Rattle.rv_script.specs.Whole.{most_bytes};

use crate::status::Stop;
use crate::telling::Telling;
use rv_fault::Failure;
use rv_input::{Before, Input};
use rv_run::command::of_input;
use rv_script::{ReadError, read_script};
use rv_shown::Shown;
use std::alloc::Global;
use std::io::Read;
use std::rt::Files;
use std::{fs, io};

/// The bytes of the script that a reader gives, at most one past the greatest length, so that its lists are judged before
/// it is carried out or looked at.
pub fn read<R: Read>(alloc: Global, reader: &mut R) -> Result<Vec<u8>, Failure>
    ensures { IfOk result (λ all. IfSome (R.remaining reader.old) (λ input. all.items ≡ take (most_bytes + 1) input)) }
{
    match read_script(alloc, reader) {
        Ok(script) => Ok(script),
        Err(error) => Err(Failure::from(error)),
    }
}

/// What a script is read from: what its file has, and whether standard input goes on behind that.
#[derive(Drop)]
pub struct Given {
    /// The bytes of the file; none where none is named.
    pub bytes: Vec<u8>,
    /// Whether standard input is read.
    pub goes_on: bool,
}

// Tells why a file can't be read.
fn unreadable<R: Eprint>(rt: &R, name: &str, error: &io::Error) -> Stop {
    let name = Shown { text: name };
    let _ = eprintln!(rt; "ravenhost: {name}: {error}");
    Stop::BadFile
}

// The bytes of a file, at most one past the greatest length of a script; what stands against them is said.
fn bytes_of<R: Files + Eprint>(rt: &R, alloc: Global, name: &str) -> Result<Vec<u8>, Stop> {
    let mut file = match fs::open(rt, name) {
        Ok(file) => file,
        Err(e) => return Err(unreadable(rt, name, &e)),
    };
    match read_script(alloc, &mut file) {
        Ok(bytes) => Ok(bytes),
        Err(ReadError::Io(e)) => Err(unreadable(rt, name, &e)),
        Err(ReadError::Memory) => Err(Stop::Failed(Failure::Memory)),
    }
}

// What a file has for `run`: where its line `@run` came, commands go on in standard input, behind its last line.
fn with_commands(alloc: Global, mut bytes: Vec<u8>) -> Result<Given, Stop> {
    let goes_on = match Input::new(alloc).preamble(&mut bytes.as_slice()) {
        Ok(before) => before.runs,
        Err(fault) => return Err(Stop::Failed(of_input(fault))),
    };
    if goes_on && !bytes.ends_with(b"\n") && bytes.push(b'\n').is_err() {
        return Err(Stop::Failed(Failure::Memory));
    }
    Ok(Given { bytes, goes_on })
}

/// What a script is read from, by the file that is named; what stands against that is said.
pub fn source_of<R: Files + Eprint>(
    rt: &R,
    alloc: Global,
    name: Option<&str>,
    is_run: bool,
) -> Result<Given, Stop> {
    let Some(name) = name else {
        return Ok(Given {
            bytes: Vec::new(alloc),
            goes_on: true,
        });
    };
    let bytes = bytes_of(rt, alloc, name)?;
    if is_run {
        return with_commands(alloc, bytes);
    }
    Ok(Given {
        bytes,
        goes_on: false,
    })
}

/// Tells, where notes are told, of a file that has nothing.
pub fn note_empty<R: Eprint>(rt: &R, telling: Telling, name: Option<&str>, given: &Given) {
    let Some(name) = name else {
        return;
    };
    if telling.is_shown && given.bytes.len() == 0 {
        let name = Shown { text: name };
        let _ = eprintln!(rt; "note: {name} is empty");
    }
}

/// What stands before the commands of a script for `run`, and what had to be read with it: with what is left the whole.
pub fn read_before<R: Read>(alloc: Global, reader: &mut R) -> Result<Before, Failure>
    ensures { IfOk result (λ before. Consumes (R.remaining reader.old) (R.remaining reader.new) (before.sections.items ++ before.rest.items)) }
{
    match rv_input::read_before(alloc, reader) {
        Ok(before) => Ok(before),
        Err(fault) => Err(of_input(fault)),
    }
}
