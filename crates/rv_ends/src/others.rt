//! What is kept of actors.

ghost use Rattle.std.specs.Prelude.{◌≡◌, ◌==◌, ℕ, not, IfOk};
ghost use Rattle.std.specs.List.{filter};

use std::alloc::{AllocError, Global};

/// What is kept of one actor.
pub trait OfActor: Copy {
    /// The number of the actor.
    ghost actor_of: { Self → ℕ };

    /// The number of the actor.
    fn actor(&self) -> usize
        ensures { result ≡ actor_of self.now };
}

/// What is kept of others than this actor.
pub fn of_others<T: OfActor>(alloc: Global, all: &[T], actor: usize) -> Result<Vec<T>, AllocError>
    ensures { IfOk result (λ others. others.items ≡ filter (λ one. not (T.actor_of one == actor)) all.now) }
{
    let Some((first, rest)) = all.split_first() else {
        return Ok(Vec::new(alloc));
    };
    let mut others = of_others(alloc, rest, actor)?;
    if first.actor() != actor {
        others.insert(0, *first)?;
    }
    Ok(others)
}
