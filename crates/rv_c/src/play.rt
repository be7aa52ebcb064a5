//! Playing a script.

ghost use Rattle.std.specs.Prelude.{[], ℕ, Bool, List, Some};
ghost use Rattle.rv_c.specs.Calls.{SaysRun};
ghost use Rattle.rv_c.specs.Said.{said_of};
ghost use Rattle.rv_fault.specs.Written.{WritesScript};
ghost use Rattle.rv_play.specs.Scripted.{outcome_of};

use crate::saying::{nothing, refused, said};
use crate::told::Told;
use rv_fault::Failure;
use rv_play::play::play;
use std::alloc::Global;

// What is said of a script, by how it ended.
#[tactic(auto, using(crate::proofs::Runs::run_done, crate::proofs::Runs::run_refused, crate::proofs::Runs::run_nothing))]
fn told_of(alloc: Global, text: Vec<u8>, ended: Result<(), Failure>) -> Told
    ensures { (all : Bool) → (script : List ℕ) → WritesScript (Some []) (Some text.items) (outcome_of all) script ended
        → SaysRun all script (said_of result) }
{
    match ended {
        Ok(()) => said(0, text),
        Err(Failure::Refused(fault)) => refused(alloc, text, fault),
        Err(Failure::Memory) | Err(Failure::Io(_)) => nothing(alloc),
    }
}

/// Plays a script, and says what the program prints of it.
pub fn played(alloc: Global, script: &[u8], all: bool) -> Told
    ensures { SaysRun all script.now (said_of result) }
{
    let mut text = Vec::new(alloc);
    let mut bytes = script;
    let ended = play(alloc, &mut bytes, &mut text, all);
    told_of(alloc, text, ended)
}
