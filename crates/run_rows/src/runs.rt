//! Runs: plays each transcript of the folder that the program is run in at a terminal of its own, and says of each whether
//! the run answered what stands there (`row`).

mod failing;
mod given_up;
mod row;
mod terminal;

use failing::failures_told;
use given_up::named;
use row::{Row, row_of};
use row_files::names_before;
use rv_fault::Failure;
use rv_run::outputs::Outputs;
use rv_run::run::run;
use rv_staff::Hires;
use std::alloc::Global;
use std::cell::RefCell;
use std::fs::Files;
use std::sync::Wait;
use std::thread::Threads;
use std::time::Clock;
use std::{fs, io};
use terminal::{Keyboard, Screen, Terminal};

// What is told of the end of a run on standard error.
fn told(alloc: Global, outcome: Result<(), Failure>) -> io::Result<String> {
    match outcome {
        Ok(()) => Ok(String::new(alloc)),
        Err(Failure::Refused(fault)) => Ok(format!(in alloc; "{fault}")?),
        Err(Failure::Memory) => Ok(String::from_str(alloc, "out of memory")?),
        Err(Failure::Io(_)) => Ok(String::from_str(alloc, "not written")?),
    }
}

// Whether a run gives what a row says, in words.
fn outcome_of<T, H>(rt: &T, hires: &H, name: &str, row: Row) -> io::Result<String>
where
    T: Threads + Wait + Clock + AllocGlobal,
    H: Hires,
{
    let alloc = rt.alloc();
    let Row { turns, fault } = row;
    let terminal = RefCell::new(Terminal::new(alloc, turns));
    let mut keyboard = Keyboard {
        clock: rt,
        terminal: &terminal,
    };
    let mut outputs = Outputs {
        writer: Screen {
            terminal: &terminal,
        },
        errors: Vec::new(alloc),
    };
    let outcome = run(rt, hires, alloc, &mut keyboard, &mut outputs);
    let is_lost = outputs.errors.len() > 0;
    // It borrows the terminal, which is taken apart below.
    drop(outputs);
    if is_lost {
        return Ok(format!(in alloc; "{name}: ports were lost")?);
    }
    let told = told(alloc, outcome)?;
    if let Some(number) = terminal.into_inner().first_wrong() {
        return Ok(format!(in alloc; "{name}: answered otherwise than at line {number}")?);
    }
    if told.as_str() != fault.as_str() {
        return Ok(format!(in alloc; "{name}: ended by {told}")?);
    }
    Ok(format!(in alloc; "{name}: ok")?)
}

// Plays the row of a file, and says what came of it.
fn play<T, H>(rt: &T, hires: &H, name: &str) -> io::Result<()>
where
    T: Threads + Wait + Clock + AllocGlobal + Print + Files + Clone,
    H: Hires,
{
    let text = fs::read_to_string(rt, name)?;
    let row = row_of(rt.alloc(), text.as_str())?;
    let line = outcome_of(rt, hires, name, row)?;
    println!(rt; "{line}")
}

/// Plays all rows, in the order of their names.
pub fn play_all<T, H>(rt: &T, hires: &H) -> io::Result<()>
where
    T: Threads + Wait + Clock + AllocGlobal + Print + Files + Clone,
    H: Hires,
{
    for name in names_before(rt, ".run")? {
        let file = format!(in rt.alloc(); "{name}.run")?;
        play(rt, hires, file.as_str())?;
    }
    let line = failures_told(rt, hires, rt.alloc())?;
    println!(rt; "{line}")?;
    let line = named(rt, rt.alloc());
    println!(rt; "{line}")
}
