//! What each actor holds.

ghost use Rattle.std.specs.Prelude.{◌≡◌, ◌<◌, [], ◌∷◌, length, drop, slice_index_or, slice_set, replicate, IfOk};
ghost use Rattle.rv_present.specs.Limits.{most_actors};

use rv_prio::{Held, Stack};
use std::alloc::{AllocError, Global};
use std::marker::Model;

/// The operator, the lines and the most tasks there can be.
pub const MOST_ACTORS: usize = 75;

/// What each actor holds, by the actor's number.
#[derive(Drop)]
pub struct Stacks {
    items: Vec<Stack>,
    // What an actor past the last holds.
    none: Stack,
}

impl Model for Stacks {
    ghost use Rattle.std.specs.Prelude.{◌≡◌, [], List};
    ghost use Rattle.rv_prio.specs.declared.held.Held.{Held};

    ghost Value = { List (List Held) };

    ghost view = { λ s. s.items.items };

    ghost invariant = { λ s. s.none ≡ [] };
}

impl Stacks {
    /// Nothing held, by any actor that there can be. Err where memory was refused.
    #[tactic(auto, using(std::proofs::lemmas::List::replicate_more))]
    pub fn new(alloc: Global) -> Result<Stacks, AllocError>
        ensures { IfOk result (λ stacks. stacks ≡ replicate most_actors []) }
    {
        let mut items = Vec::with_capacity(alloc, MOST_ACTORS)?;
        for i in 0..MOST_ACTORS {
            items.push(Stack::new())?;
        }
        Ok(Stacks {
            items,
            none: Stack::new(),
        })
    }

    /// What an actor holds; past the last actor, nothing.
    #[tactic(auto, using(std::proofs::lemmas::List::get_or_past))]
    pub fn of(&self, actor: usize) -> &Stack
        ensures { result.now ≡ slice_index_or self.now actor [] }
    {
        if actor < self.items.len() {
            &self.items[actor]
        } else {
            &self.none
        }
    }

    /// An actor starts a body.
    pub fn begin(&mut self, actor: usize, held: Held)
        requires known { actor < length self.old }
        requires room { length (slice_index_or self.old actor []) < 16 }
        ensures { self.new ≡ slice_set self.old actor (held ∷ slice_index_or self.old actor []) }
    {
        self.items[actor].push(held);
    }

    /// An actor ends its innermost body.
    pub fn end(&mut self, actor: usize)
        requires { actor < length self.old }
        ensures { self.new ≡ slice_set self.old actor (drop 1 (slice_index_or self.old actor [])) }
    {
        let _ = self.items[actor].pop();
    }
}
