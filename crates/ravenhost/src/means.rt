//! What the program works by: memory, threads and terminals.

use crate::columns::read_columns;
use crate::errands::Aides;
use crate::status::NO_MEANS;
use std::alloc::Global;
use std::io::IsTerminal;
use std::rt::Env;

/// Which of the standard streams are terminals, and how wide.
#[derive(Clone, Copy)]
pub struct Terminals {
    /// Standard input: somebody types what is read.
    pub input: bool,
    /// How many columns standard output has, where it is a terminal and COLUMNS says so.
    pub columns: Option<usize>,
    /// Standard error: somebody waits there.
    pub errors: bool,
}

impl Terminals {
    /// Those of these streams.
    pub fn of<R, I, O, E>(rt: &R, input: &I, output: &O, errors: &E) -> Terminals
    where
        R: Env + AllocGlobal,
        I: IsTerminal,
        O: IsTerminal,
        E: IsTerminal,
    {
        let columns = if output.is_terminal() {
            read_columns(rt)
        } else {
            None
        };
        Terminals {
            input: input.is_terminal(),
            columns,
            errors: errors.is_terminal(),
        }
    }
}

/// Where memory is taken from, by what threads are started, those of actors and those beside a run, and who is at a terminal.
#[derive(Clone, Copy)]
pub struct Means<'a, H> {
    pub alloc: Global,
    pub hires: &'a H,
    pub aides: &'a Aides,
    pub terminals: Terminals,
}

/// Tells that memory was refused before anything was done, and gives the status.
pub fn without_memory<R: Eprint>(rt: &R) -> u8 {
    let _ = eprintln!(rt; "ravenhost: out of memory");
    NO_MEANS
}

/// Tells that a thread was refused before anything was done, and gives the status.
pub fn without_thread<R: Eprint>(rt: &R) -> u8 {
    let _ = eprintln!(rt; "ravenhost: no thread can be started");
    NO_MEANS
}
