//! A body or none of each actor.

ghost use Rattle.std.specs.Prelude.{◌≡◌, ◌<◌, length, replicate, slice_index_or, slice_set, None, IfOk};
ghost use Rattle.rv_present.specs.Limits.{most_actors};

use crate::stacks::MOST_ACTORS;
use rv_event::entry::Body;
use std::alloc::{AllocError, Global};
use std::marker::Model;

/// By the actor's number a body, or none.
#[derive(Drop)]
pub struct ByActor {
    items: Vec<Option<Body>>,
}

impl Model for ByActor {
    ghost use Rattle.std.specs.Prelude.{List, Option};
    ghost use Rattle.rv_event.specs.declared.entry.Body.{Body};

    ghost Value = { List (Option Body) };

    ghost view = { λ b. b.items.items };
}

impl ByActor {
    /// None of any actor that there can be. Err where memory was refused.
    #[tactic(auto, using(std::proofs::lemmas::List::replicate_more))]
    pub fn new(alloc: Global) -> Result<ByActor, AllocError>
        ensures { IfOk result (λ bodies. bodies ≡ replicate most_actors None) }
    {
        let mut items = Vec::with_capacity(alloc, MOST_ACTORS)?;
        for i in 0..MOST_ACTORS {
            items.push(None)?;
        }
        Ok(ByActor { items })
    }

    /// That of an actor; past the last actor, none.
    #[tactic(auto, using(std::proofs::lemmas::List::get_or_past))]
    pub fn of(&self, actor: usize) -> Option<Body>
        ensures { result ≡ slice_index_or self.now actor None }
    {
        if actor < self.items.len() {
            self.items[actor]
        } else {
            None
        }
    }

    /// Puts that of an actor.
    pub fn put(&mut self, actor: usize, body: Option<Body>)
        requires { actor < length self.old }
        ensures { self.new ≡ slice_set self.old actor body }
    {
        self.items[actor] = body;
    }
}
