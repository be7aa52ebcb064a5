//! The objects that an actor holds, one within the other.

ghost use Rattle.std.specs.Prelude.{◌≡◌, ◌==◌, ◌<◌, ◌≤◌, [], ◌∷◌, drop, length, nat_lt, slice_get};
ghost use Rattle.std.specs.List.{list_any};
ghost use Rattle.rv_prio.specs.Priority.{active_priority};

use crate::held::Held;
use arrayvec::ArrayVec;
use std::marker::Model;

/// The most objects that an actor holds at once; the limit is our own.
pub const MOST_HELD: usize = 16;

/// The objects that an actor holds, at most 16.
///
/// Contracts see the list of what is held, the innermost first, as the calls of a history are found when one looks
/// back from its end.
#[derive(Drop, Debug)]
pub struct Stack {
    // What is held, the outermost first.
    held: ArrayVec<Held, MOST_HELD>,
}

impl Model for Stack {
    ghost use Rattle.std.specs.Prelude.{List, reverse};
    ghost use Rattle.rv_prio.specs.declared.held.Held.{Held};

    ghost Value = { List Held };

    ghost view = { λ s. reverse s.held.items };
}

impl Stack {
    /// Nothing held.
    pub fn new() -> Stack
        ensures { result ≡ [] }
    {
        Stack {
            held: ArrayVec::new(),
        }
    }

    /// How many objects are held.
    pub fn len(&self) -> usize
        ensures value { result ≡ length self.now }
        ensures within { length self.now ≤ MOST_HELD }
    {
        self.held.len()
    }

    /// Adds an object as the innermost. There must be room.
    pub fn push(&mut self, held: Held)
        requires { length self.old < MOST_HELD }
        ensures { self.new ≡ held ∷ self.old }
    {
        self.held.push(held);
    }

    /// Takes the innermost object, or gives `None` where nothing is held.
    pub fn pop(&mut self) -> Option<Held>
        ensures innermost { result ≡ slice_get self.old 0 }
        ensures rest { self.new ≡ drop 1 self.old }
    {
        self.held.pop()
    }

    /// The innermost object, or `None` where nothing is held.
    pub fn innermost(&self) -> Option<Held>
        ensures { result ≡ slice_get self.now 0 }
    {
        self.held.last().copied()
    }

    /// Whether an object, by its number, is held.
    pub fn holds(&self, object: usize) -> bool
        ensures { result ≡ list_any (λ held. held.object == object) self.now }
    {
        is_among(self.held.as_slice(), object)
    }

    /// The active priority of an actor with this base priority: the greatest of it and the ceilings of what is held
    /// (ISO/IEC 8652:2012, D.3).
    pub fn active(&self, base: usize) -> usize
        ensures { result ≡ active_priority base self.now }
    {
        let mut priority = base;
        for held in self.held.iter() {
            priority = priority.max(held.ceiling);
        }
        priority
    }

    /// Whether the active priority of an actor with this base priority is above a ceiling: then it may not call the
    /// object that has it (ISO/IEC 8652:2012, D.3).
    pub fn above_ceiling(&self, base: usize, ceiling: usize) -> bool
        ensures { result ≡ nat_lt ceiling (active_priority base self.now) }
    {
        ceiling < self.active(base)
    }
}

// Whether one of these is of the object.
fn is_among(all: &[Held], object: usize) -> bool
    ensures { result ≡ list_any (λ held. held.object == object) all.now }
{
    all.iter().any(|held| held.object == object)
}
