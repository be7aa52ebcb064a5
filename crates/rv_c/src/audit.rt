//! Judging the journal of a script.

ghost use Rattle.std.specs.Prelude.{[], true, ℕ, List, Some, Err};
ghost use Rattle.rv_c.specs.Calls.{SaysVerdict};
ghost use Rattle.rv_c.specs.Said.{said_of};
ghost use Rattle.rv_verdict.specs.Audits.{AuditsScript, SaysOfSection};

use crate::saying::{nothing, refused, said};
use crate::told::Told;
use rv_fault::Failure;
use rv_verdict::audit;
use std::alloc::Global;

// What is said of a script whose audit failed.
fn told_failed(alloc: Global, text: Vec<u8>, failure: Failure) -> Told
    ensures { (script : List ℕ) → AuditsScript true SaysOfSection (Some []) (Some text.items) script (Err failure)
        → SaysVerdict script (said_of result) }
{
    match failure {
        Failure::Refused(fault) => refused(alloc, text, fault),
        Failure::Memory | Failure::Io(_) => nothing(alloc),
    }
}

// What is said of a script, by how its audit ended.
#[tactic(auto, using(crate::proofs::Verdicts::verdict_legal, crate::proofs::Verdicts::verdict_other))]
fn told_of(alloc: Global, text: Vec<u8>, ended: Result<bool, Failure>) -> Told
    ensures { (script : List ℕ) → AuditsScript true SaysOfSection (Some []) (Some text.items) script ended
        → SaysVerdict script (said_of result) }
{
    match ended {
        Ok(true) => said(0, text),
        Ok(false) => said(1, text),
        Err(failure) => told_failed(alloc, text, failure),
    }
}

/// Judges the journal that a script brings, and says what the program prints of it.
pub fn audited(alloc: Global, script: &[u8]) -> Told
    ensures { SaysVerdict script.now (said_of result) }
{
    let mut text = Vec::new(alloc);
    let mut bytes = script;
    let ended = audit(alloc, &mut bytes, &mut text);
    told_of(alloc, text, ended)
}
