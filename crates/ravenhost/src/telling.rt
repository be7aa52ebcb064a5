//! What is told of a script on standard error: notes on its lists, and its fault with what it means.

use crate::colours::tell;
use crate::status::Stop;
use rv_check::warnings::Warnings;
use rv_choice::selection::{Selection, When};
use rv_fault::{Failure, ScriptFault};
use std::alloc::Global;

/// What is told of a script beside its outcome.
#[derive(Clone, Copy)]
pub struct Telling {
    /// Whether notes on its lists are told.
    pub is_shown: bool,
    /// Whether notes on a run are told.
    pub tells: bool,
    /// Whether such a note on a list before the first step ends the program.
    pub are_errors: bool,
    /// Whether its fault is explained, and in a run a command that is refused.
    pub explains: bool,
    /// Whether all that has colours.
    pub is_coloured: bool,
}

// When notes are shown: where that isn't said, to somebody at a terminal, and where they end the program.
fn is_shown(notes: When, are_errors: bool, is_watched: bool) -> bool {
    match notes {
        When::Always => true,
        When::Never => false,
        When::Auto => is_watched || are_errors,
    }
}

// Whether faults are explained: where that isn't said, to somebody at a terminal, unless no notes are to be told.
fn is_explained(faults: When, notes: When, is_watched: bool) -> bool {
    match faults {
        When::Always => true,
        When::Never => false,
        When::Auto => is_watched && notes != When::Never,
    }
}

/// What is told, by what was chosen: unless that says otherwise, notes and explanations where somebody waits at a terminal, and
/// colours where there may be some.
pub fn telling_of(chosen: &Selection<'_>, is_watched: bool, has_colors: bool) -> Telling {
    Telling {
        is_shown: is_shown(chosen.notes, chosen.are_errors, is_watched),
        tells: is_shown(chosen.notes, false, is_watched),
        are_errors: chosen.are_errors,
        explains: is_explained(chosen.faults, chosen.notes, is_watched),
        is_coloured: is_shown(chosen.color, false, has_colors),
    }
}

// Tells notes on lists: those before the first step, and unless they end the program the others.
fn show<R: Eprint>(rt: &R, is_coloured: bool, warnings: &Warnings, is_end: bool) {
    let _ = tell(rt, is_coloured, warnings.first.as_str());
    if !is_end {
        let _ = tell(rt, is_coloured, warnings.later.as_str());
    }
}

/// Tells what is to be told of the lists of a script. Err where that ends the program.
pub fn warn<R: Eprint>(
    rt: &R,
    telling: Telling,
    warnings: Result<Warnings, Failure>,
) -> Result<(), Stop> {
    let warnings = match warnings {
        Ok(warnings) => warnings,
        Err(failure) => return Err(Stop::Failed(failure)),
    };
    let is_end = telling.are_errors && warnings.first.len() > 0;
    if telling.is_shown {
        show(rt, telling.is_coloured, &warnings, is_end);
    }
    if is_end { Err(Stop::Warned) } else { Ok(()) }
}

// Tells a fault with its explanation; where there is no memory for their text, without colours.
fn tell_explained<R: Eprint>(
    rt: &R,
    alloc: Global,
    is_coloured: bool,
    script: &[u8],
    fault: ScriptFault,
) {
    let explanation = rv_explain::explain(alloc, script, fault);
    let _ = match format!(in alloc; "{fault}\n{explanation}") {
        Ok(text) => tell(rt, is_coloured, text.as_str()),
        Err(_) => eprint!(rt; "{fault}\n{explanation}"),
    };
}

// What a run over a script came to.
fn stopped(done: Result<(), Failure>) -> Result<(), Stop> {
    match done {
        Ok(()) => Ok(()),
        Err(failure) => Err(Stop::Failed(failure)),
    }
}

// Explains the fault that was found in a script.
fn explain<R: Eprint>(
    rt: &R,
    alloc: Global,
    is_coloured: bool,
    script: &[u8],
    done: Result<(), Failure>,
) -> Result<(), Stop> {
    match done {
        Err(Failure::Refused(fault)) => {
            tell_explained(rt, alloc, is_coloured, script, fault);
            Err(Stop::Explained)
        }
        done => stopped(done),
    }
}

/// What a run over a script came to, whose fault is explained where that is asked for.
pub fn ended<R: Eprint>(
    rt: &R,
    alloc: Global,
    telling: Telling,
    script: &[u8],
    done: Result<(), Failure>,
) -> Result<(), Stop> {
    if telling.explains {
        explain(rt, alloc, telling.is_coloured, script, done)
    } else {
        stopped(done)
    }
}
