//! The words of the command line, and what they choose.

use crate::status::Stop;
use clap::Error;
use clap::error::ErrorKind;
use rv_choice::actors::{ActorWords, actors_of};
use rv_choice::chosen::{Unchosen, chosen};
use rv_choice::files::{FileWords, files_of, journals_of};
use rv_choice::selection::Selection;
use rv_fault::Failure;
use rv_shown::Shown;
use std::alloc::Global;
use std::rt::Env;
use std::{env, io};

// What stands below what is wrong with a command line, as clap has it.
const HINT: &str = "\n\nFor more information, try '--help'.\n";

// Whether a line tells how a number below 0 could be given, which no flag takes.
fn is_vain_tip(line: &str) -> bool {
    match line.strip_prefix("  tip: to pass '-") {
        Some(rest) => rest
            .as_bytes()
            .first()
            .is_some_and(|byte| byte.is_ascii_digit()),
        None => false,
    }
}

// Writes lines to standard error, as they are shown: words of the command line stand in them.
fn tell_shown<R: Eprint>(rt: &R, text: &str) {
    for line in text.split_inclusive('\n') {
        if is_vain_tip(line) {
            let _ = eprintln!(rt; "  tip: no flag takes a number below 0");
            continue;
        }
        let _ = match line.strip_suffix('\n') {
            Some(front) => {
                let shown = Shown { text: front };
                eprintln!(rt; "{shown}")
            }
            None => {
                let shown = Shown { text: line };
                eprint!(rt; "{shown}")
            }
        };
    }
}

// What is told of a line that chooses no subcommand: the version on standard output, and usage or help
// on standard error.
fn told<R: Print + Eprint>(rt: &R, alloc: Global, error: &Error) -> Stop {
    if error.kind() == ErrorKind::DisplayVersion {
        return match print!(rt; "{error}") {
            Ok(()) => Stop::Told,
            Err(e) => Stop::Failed(Failure::Io(e)),
        };
    }
    match format!(in alloc; "{error}") {
        Ok(text) => tell_shown(rt, text.as_str()),
        Err(_) => {
            let _ = eprint!(rt; "{error}");
        }
    }
    Stop::Usage
}

/// The words of the command line.
pub fn words_of<R: Env + AllocGlobal + Eprint>(rt: &R, alloc: Global) -> Result<Vec<String>, Stop> {
    let args = match env::args(rt) {
        Ok(args) => args,
        Err(e) if e.kind() == io::ErrorKind::OutOfMemory => {
            return Err(Stop::Failed(Failure::Memory));
        }
        Err(_) => {
            let _ = eprintln!(rt; "ravenhost: a word of the command line isn't UTF-8");
            return Err(Stop::Usage);
        }
    };
    let mut words: Vec<String> = Vec::new(alloc);
    for word in args {
        if words.push(word).is_err() {
            return Err(Stop::Failed(Failure::Memory));
        }
    }
    Ok(words)
}

// Tells why the words of the command line choose nothing.
fn unchosen<R: Print + Eprint>(rt: &R, alloc: Global, why: Unchosen<'_>) -> Stop {
    match why {
        Unchosen::NoMemory => Stop::Failed(Failure::Memory),
        Unchosen::Usage(e) => told(rt, alloc, &e),
        Unchosen::NoCommand => {
            let _ = eprint!(rt; "error: no such command{HINT}");
            Stop::Usage
        }
        Unchosen::Misused(misuse) => {
            match format!(in alloc; "error: {misuse}{HINT}") {
                Ok(text) => tell_shown(rt, text.as_str()),
                Err(_) => {
                    let _ = eprint!(rt; "error: {misuse}{HINT}");
                }
            }
            Stop::Usage
        }
    }
}

/// What the words of the command line choose.
pub fn choice<'a, R: Print + Eprint>(
    rt: &R,
    alloc: Global,
    words: &'a [&'a str],
) -> Result<Selection<'a>, Stop> {
    match chosen(alloc, words) {
        Ok(chosen) => Ok(chosen),
        Err(why) => Err(unchosen(rt, alloc, why)),
    }
}

/// The tasks that belong to other processes, by words that `choice` took.
pub fn actors<'a, R: Print + Eprint>(
    rt: &R,
    alloc: Global,
    words: &'a [&'a str],
) -> Result<Vec<ActorWords<'a>>, Stop> {
    match actors_of(alloc, words) {
        Ok(actors) => Ok(actors),
        Err(why) => Err(unchosen(rt, alloc, why)),
    }
}

/// The files that a run writes beside its journal, by words that `choice` took.
pub fn files<'a, R: Print + Eprint>(
    rt: &R,
    alloc: Global,
    words: &'a [&'a str],
) -> Result<FileWords<'a>, Stop> {
    match files_of(alloc, words) {
        Ok(files) => Ok(files),
        Err(why) => Err(unchosen(rt, alloc, why)),
    }
}

/// The files of the journal that is judged, by words that `choice` took.
pub fn journals<'a, R: Print + Eprint>(
    rt: &R,
    alloc: Global,
    words: &'a [&'a str],
) -> Result<Vec<&'a str>, Stop> {
    match journals_of(alloc, words) {
        Ok(names) => Ok(names),
        Err(why) => Err(unchosen(rt, alloc, why)),
    }
}

// Prints help on standard output.
fn printed<R: Print + Eprint>(rt: &R, alloc: Global, error: &Error) -> Result<(), Stop> {
    if error.kind() != ErrorKind::DisplayHelp {
        return Err(told(rt, alloc, error));
    }
    match print!(rt; "{error}") {
        Ok(()) => Ok(()),
        Err(e) => Err(Stop::Failed(Failure::Io(e))),
    }
}

// Prints on standard output the help that words ask for.
fn print_asked<'a, R: Print + Eprint>(
    rt: &R,
    alloc: Global,
    words: &'a [&'a str],
) -> Result<(), Stop> {
    match chosen(alloc, words) {
        Err(Unchosen::Usage(e)) => printed(rt, alloc, &e),
        Err(Unchosen::NoMemory) => Err(Stop::Failed(Failure::Memory)),
        _ => Err(Stop::Usage),
    }
}

/// Prints the help of the program, or of a subcommand, on standard output.
pub fn print_manual<R: Print + Eprint>(
    rt: &R,
    alloc: Global,
    subject: Option<&str>,
) -> Result<(), Stop> {
    match subject {
        Some(name) => print_asked(rt, alloc, &["ravenhost", "help", name]),
        None => print_asked(rt, alloc, &["ravenhost", "help"]),
    }
}
