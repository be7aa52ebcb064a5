//! The states of the suspension objects (D.10).

ghost use Rattle.std.specs.Prelude.{◌≡◌, ◌==◌, ◌&&◌, ◌∷◌, ℕ, [], OnOk, if◌then◌else◌, is_some, not};
ghost use Rattle.rv_event.specs.Lent.{whole};
ghost use Rattle.rv_state.specs.Kept.{KeepsStates, kept_state, put_by};

use rv_event::entry::{EntryRef, Recorded, Request};
use rv_host::host::Host;
use std::alloc::{AllocError, Global};
use std::collections::HashMap;

/// What an entry puts the state of a suspension object to, where nobody waits there.
#[derive(Clone, Copy, Drop)]
pub struct Put {
    /// The object.
    pub object: usize,
    /// Its state.
    pub state: bool,
}

/// The state of each suspension object.
pub struct States {
    items: HashMap<usize, bool>,
}

impl Drop for States {
    // A function of its own: a derived one is written out wherever one is let go, and proved there.
    fn drop(self) {
        let States { items: _ } = self;
    }
}

// What an entry puts a state to: Set_True sets it, and Set_False and Suspend_Until_True clear it.
fn put_by(entry: &EntryRef<'_>) -> Option<Put>
    ensures { result ≡ put_by (whole entry.now) }
{
    match *entry {
        EntryRef::Asked(_, Request::Call(object, _, _), Recorded::Suspended) => Some(Put {
            object: *object,
            state: false,
        }),
        EntryRef::Asked(_, Request::Call(object, 1, _), Recorded::Accepted(_)) => Some(Put {
            object: *object,
            state: true,
        }),
        EntryRef::Asked(_, Request::Call(object, 2 | 4, _), Recorded::Accepted(_)) => Some(Put {
            object: *object,
            state: false,
        }),
        _ => None,
    }
}

// The state that is left, where this is put and this actor waits, if one does: a Set_True releases it, and leaves False.
fn left_at(state: bool, waiter: Option<usize>) -> bool
    ensures { result ≡ (state && not (is_some waiter)) }
{
    if !state {
        return false;
    }
    match waiter {
        Some(_) => false,
        None => true,
    }
}

impl States {
    /// Before the first entry.
    pub fn new(alloc: Global) -> States
        ensures { KeepsStates result [] }
    {
        States {
            items: HashMap::new(alloc),
        }
    }

    /// That of an object.
    pub fn of(&self, object: usize) -> bool
        ensures { result ≡ kept_state self.now object }
    {
        match self.items.get(&object) {
            Some(state) => *state,
            None => false,
        }
    }

    // Puts one.
    fn put(&mut self, object: usize, state: bool) -> Result<(), AllocError>
        ensures { OnOk result ((other : ℕ) → kept_state self.new other ≡ (if object == other then state else kept_state self.old other)) }
    {
        self.items.insert(object, state)?;
        Ok(())
    }

    /// Notes what an entry puts a state to, behind what the host has carried out.
    #[tactic(auto, using(crate::proofs::Moments::none_kept, crate::proofs::Moments::one_kept))]
    pub fn note(&mut self, host: &Host, entry: &EntryRef<'_>) -> Result<(), AllocError>
        ensures { OnOk result (KeepsStates self.old host.now.past → KeepsStates self.new (whole entry.now ∷ host.now.past)) }
    {
        let Some(it) = put_by(entry) else {
            return Ok(());
        };
        let state = left_at(it.state, host.waiter(it.object));
        self.put(it.object, state)
    }
}
