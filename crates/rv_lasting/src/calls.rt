//! The last queued call of each actor.

ghost use Rattle.std.specs.Prelude.{◌≡◌, ◌∷◌, List, [], OnOk};
ghost use Rattle.rv_event.specs.Lent.{whole};
ghost use Rattle.rv_event.specs.Past.{last_queued};
ghost use Rattle.rv_event.specs.declared.entry.Entry.{Entry};
ghost use Rattle.rv_lasting.specs.Calls.{KeepsCalls};

use rv_event::entry::{Body, EntryRef};
use rv_event::one_entry::queued_by;
use std::alloc::{AllocError, Global};
use std::collections::HashMap;

/// The last queued call of each actor (9.5.3).
pub struct Calls {
    items: HashMap<usize, Body>,
}

impl Drop for Calls {
    // A function of its own: a derived one is written out wherever one is let go, and proved there.
    fn drop(self) {
        let Calls { items: _ } = self;
    }
}

impl Calls {
    /// Before the first entry.
    pub fn new(alloc: Global) -> Calls
        ensures { KeepsCalls result [] }
    {
        Calls {
            items: HashMap::new(alloc),
        }
    }

    /// That of an actor.
    pub fn of(&self, actor: usize) -> Option<Body>
        ensures { (past : List Entry) → KeepsCalls self.now past → result ≡ last_queued actor past }
    {
        self.items.get(&actor).copied()
    }

    /// Notes the call that an entry queues.
    pub fn note(&mut self, entry: &EntryRef<'_>) -> Result<(), AllocError>
        ensures { OnOk result ((past : List Entry) → KeepsCalls self.old past → KeepsCalls self.new (whole entry.now ∷ past)) }
    {
        if let Some(call) = queued_by(entry) {
            self.items.insert(call.actor, call)?;
        }
        Ok(())
    }
}
