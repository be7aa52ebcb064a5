//! The entry queue of a protected object (ISO/IEC 8652:2012, 9.5.3).
#![tactic(auto)]

ghost use Rattle.std.specs.List.{list_any};
ghost use Rattle.std.specs.Prelude.{◌≡◌, ◌==◌, ◌<◌, ◌≤◌, ◌&&◌, [], ◌∷◌, ◌++◌, drop, length, nat_lt, not, slice_get, IsTrue, ◌↔◌};

use arrayvec::ArrayVec;
use std::marker::Model;

/// How many callers may wait in an entry queue under the Ravenscar profile: Max_Entry_Queue_Length
/// (ISO/IEC 8652:2012, D.7 and D.13).
pub const MAX_ENTRY_QUEUE_LENGTH: usize = 1;

/// How many may wait in one where a host leaves the profile, at most (own).
pub const LONGEST_QUEUE: usize = 8;

/// The queue of a protected object's entry. The limit of its host, 1 .. 8, is kept by who lets callers join.
pub type EntryQueue = Queue<LONGEST_QUEUE>;

/// At most `LIMIT` callers that wait on an entry, by their actors' numbers, first in, first out.
///
/// Contracts see the list of the callers, the one that waits longest first, and hold at each limit.
#[derive(Drop, Debug)]
pub struct Queue<const LIMIT: usize> {
    // The callers, the one that waits longest first.
    callers: ArrayVec<usize, LIMIT>,
}

impl<const LIMIT: usize> Model for Queue<LIMIT> {
    ghost use Rattle.std.specs.Prelude.{List, ℕ};

    ghost Value = { List ℕ };

    ghost view = { λ q. q.callers.items };
}

impl<const LIMIT: usize> Queue<LIMIT> {
    /// An empty queue.
    pub fn new() -> Queue<LIMIT>
        ensures { result ≡ [] }
    {
        Queue {
            callers: ArrayVec::new(),
        }
    }

    /// How many callers wait.
    pub fn len(&self) -> usize
        ensures value { result ≡ length self.now }
        ensures within { length self.now ≤ LIMIT }
    {
        self.callers.len()
    }

    /// Whether one more caller would make the queue longer than its limit.
    pub fn is_full(&self) -> bool
        ensures full { IsTrue result ↔ (length self.now ≡ LIMIT) }
        ensures within { length self.now ≤ LIMIT }
    {
        self.callers.is_full()
    }

    /// Puts a caller, by its actor's number, at the back. There must be room.
    pub fn join(&mut self, actor: usize)
        requires { length self.old < LIMIT }
        ensures { self.new ≡ self.old ++ actor ∷ [] }
    {
        self.callers.push(actor);
    }

    /// The callers, the one that waits longest first.
    pub fn callers(&self) -> &[usize]
        ensures { result.now ≡ self.now }
    {
        self.callers.as_slice()
    }

    /// The caller at the front, or `None` where nobody waits.
    pub fn head(&self) -> Option<usize>
        ensures { result ≡ slice_get self.now 0 }
    {
        self.callers.first().copied()
    }

    /// Whether a caller is due to be served where the barrier is open or closed: it is open, and somebody waits
    /// (ISO/IEC 8652:2012, 9.5.3).
    pub fn due(&self, barrier: bool) -> bool
        ensures { result ≡ (barrier && nat_lt 0 (length self.now)) }
    {
        barrier && 0 < self.len()
    }

    /// Whether anybody but this actor waits.
    pub fn has_other(&self, actor: usize) -> bool
        ensures { result ≡ list_any (λ caller. not (caller == actor)) self.now }
    {
        is_other_among(self.callers.as_slice(), actor)
    }

    /// Takes the caller at the front, or gives `None` where nobody waits.
    pub fn leave(&mut self) -> Option<usize>
        ensures caller { result ≡ slice_get self.old 0 }
        ensures rest { self.new ≡ drop 1 self.old }
    {
        self.callers.pop_at(0)
    }
}

// Whether one of these callers isn't the actor.
fn is_other_among(callers: &[usize], actor: usize) -> bool
    ensures { result ≡ list_any (λ caller. not (caller == actor)) callers.now }
{
    callers.iter().any(|caller| *caller != actor)
}
