//! What is afoot behind the entries of a journal: calls that wait, and bodies that are open.

use crate::others::OfActor;
use rv_event::entry::{Answer, Request};
use rv_value::{Args, Scalars};

/// A call that waits in a queue, with the values that it was made with (9.5.3).
#[derive(Clone, Copy, Drop)]
pub struct QueuedCall {
    pub actor: usize,
    pub object: usize,
    pub operation: usize,
    pub values: Args,
}

impl OfActor for QueuedCall {
    ghost actor_of = { λ call. call.actor };

    fn actor(&self) -> usize {
        self.actor
    }
}

/// With what a body started (9.5.1).
#[derive(Clone, Copy, Drop)]
pub struct Start {
    pub actor: usize,
    pub object: usize,
    pub operation: usize,
    /// The values of the call.
    pub values: Args,
    /// The components of the object.
    pub components: Scalars,
    /// How many objects the actor holds, this one with them.
    pub held: usize,
}

/// A body that is open.
#[derive(Drop)]
pub struct OpenBody {
    pub start: Start,
    /// What its actor asked since, with the answers, the oldest first.
    pub asked: Vec<(Request, Answer)>,
}
