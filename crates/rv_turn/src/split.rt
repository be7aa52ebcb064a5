//! Passes for other actors, cut off the first pass.
ghost use Rattle.std.specs.Prelude.{◌≡◌, ◌<◌, true, IfOk, IfErr, OnErr};
ghost use Rattle.rv_turn.specs.Histories.{Has};
ghost use Rattle.rv_turn.specs.Passes.{Parted};
ghost use Rattle.rv_turn.specs.Faults.{IsFault};

use crate::counted::Counted;
use crate::pass::Pass;
use crate::steps::{cut_pass, look};
use std::marker::Brand;
use std::sync::Arc;
use thiserror::Error;

/// Why a pass is not split.
#[derive(Debug, Drop, Error)]
pub enum SplitFault {
    /// More acts are asked than are left.
    #[error("fewer acts are left than are asked for")]
    TooFew,
    /// There is no memory.
    #[error("no memory")]
    NoMemory,
}

impl<C: Counted> Pass<C> {
    /// A pass for another actor, with so many of this first pass's acts. The actor isn't 0, and was
    /// given no pass before. The first pass has then seen the history so far, and so has the new
    /// one.
    pub fn split(&mut self, actor: u64, acts: u64) -> Result<Pass<C>, SplitFault>
        requires first { self.old.first ≡ true }
        requires actor { (0 < actor) × (Has actor self.old.given → ⊥) }
        ensures ok { IfOk result (λ p. Parted C.actor_of self.old actor acts self.new p) }
        ensures fault { IfErr result (λ f. IsFault self.old.left acts f) }
        ensures err { OnErr result (self.new ≡ self.old) }
    {
        if acts > self.acts {
            return Err(SplitFault::TooFew);
        }
        let Ok(hall) = Arc::try_clone(&self.hall) else {
            return Err(SplitFault::NoMemory);
        };
        look::<C>(&self.hall.board, &mut self.place);
        let place = cut_pass::<C, Brand>(&self.hall.board, &mut self.place, actor, acts);
        self.acts -= acts;
        Ok(Pass {
            hall,
            place,
            actor,
            acts,
        })
    }
}
