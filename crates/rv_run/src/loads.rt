//! What the sections of a script ask of the host: units and lists.

ghost use Rattle.rv_run.specs.Preparing.{Heard, HeardAnswer, LoadsSection, SetsSection};

use rv_event::entry::Answer;
use rv_fault::{Failure, list_of, unit_of};
use rv_port::control::Control;
use rv_turn::Worn;
use std::alloc::Global;
use std::sync::Wait;

// Want of memory for a request is the end of the run.
#[tactic(auto, using(crate::proofs::Prepared::heard_else))]
fn heard_answer(answer: Answer) -> Result<(), Failure>
    ensures { HeardAnswer answer result }
{
    match answer {
        Answer::OutOfMemory => Err(Failure::Memory),
        _ => Ok(()),
    }
}

// The same, where an act may not have been left.
fn heard(answer: Result<Answer, Worn>) -> Result<(), Failure>
    ensures { Heard answer result }
{
    match answer {
        Ok(answer) => heard_answer(answer),
        Err(_) => Ok(()),
    }
}

/// Loads the unit of a section, which opens at a line.
pub(crate) fn load_section<R: Wait>(
    rt: &R,
    alloc: Global,
    control: &mut Control,
    line: usize,
    text: &str,
) -> Result<(), Failure>
    ensures { LoadsSection control.old control.new line text.now result }
{
    match unit_of(alloc, control.catalogue(), line, text) {
        Ok(unit) => heard(control.load_or_shape(rt, unit)),
        Err(failure) => Err(failure),
    }
}

/// Sets the list of a section, which opens at a line.
pub(crate) fn list_section<R: Wait>(
    rt: &R,
    alloc: Global,
    control: &mut Control,
    line: usize,
    text: &str,
) -> Result<(), Failure>
    ensures { SetsSection control.old control.new line text.now result }
{
    match list_of(alloc, line, text) {
        Ok(list) => heard(control.set_list(rt, list)),
        Err(failure) => Err(failure),
    }
}
