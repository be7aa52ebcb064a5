//! The newest entry that left each actor waiting: in a queue (9.5.3), on a suspension object (D.10) or in a delay (9.6).

ghost use Rattle.std.specs.HashMap.{get};
ghost use Rattle.std.specs.Prelude.{◌≡◌, ◌∷◌, ℕ, suc, List, [], OnOk, length, nat_eq};
ghost use Rattle.rv_event.specs.Lent.{whole};
ghost use Rattle.rv_event.specs.Past.{clock};
ghost use Rattle.rv_event.specs.declared.entry.Entry.{Entry};
ghost use Rattle.rv_export.specs.Exports.{last_left, left_by, newer};
ghost use Rattle.rv_export.specs.Kept.{KeepsLeft};

use rv_event::entry::{Body, EntryRef, Recorded, Request};
use rv_lasting::entries::{begun_by, waiting_by};
use rv_lasting::track::Begun;
use std::alloc::{AllocError, Global};
use std::collections::HashMap;

/// The newest entry that left each actor waiting.
pub struct Left {
    items: HashMap<usize, Begun>,
}

impl Drop for Left {
    // A function of its own: a derived one is written out wherever one is let go, and proved there.
    fn drop(self) {
        let Left { items: _ } = self;
    }
}

// The call that an entry leaves waiting, or its delay, which is of no object.
fn left_by(entry: &EntryRef<'_>) -> Option<Body>
    ensures { result ≡ left_by (whole entry.now) }
{
    match *entry {
        EntryRef::Asked(actor, Request::DelayUntil(_), Recorded::Delayed) => Some(Body {
            actor,
            object: 0,
            operation: 0,
        }),
        _ => waiting_by(entry),
    }
}

impl Left {
    /// Before the first entry.
    pub fn new(alloc: Global) -> Left
        ensures { KeepsLeft result [] }
    {
        Left {
            items: HashMap::new(alloc),
        }
    }

    /// That of an actor.
    pub fn of(&self, actor: usize) -> Option<Begun>
        ensures { (past : List Entry) → KeepsLeft self.now past → result ≡ last_left actor past }
    {
        self.items.get(&actor).copied()
    }

    // Notes what left an actor waiting, if one was left.
    fn put(&mut self, it: Option<Begun>) -> Result<(), AllocError>
        ensures { OnOk result ((other : ℕ) → get nat_eq self.new.items other ≡ newer other it (get nat_eq self.old.items other)) }
    {
        if let Some(it) = it {
            self.items.insert(it.call.actor, it)?;
        }
        Ok(())
    }

    /// Notes the entry of this number, before which the clock is at this tick. Err where memory was refused.
    pub fn note(&mut self, number: usize, tick: u64, entry: &EntryRef<'_>) -> Result<(), AllocError>
        ensures { OnOk result ((past : List Entry) → KeepsLeft self.old past → number ≡ suc (length past) → tick ≡ clock past →
            KeepsLeft self.new (whole entry.now ∷ past)) }
    {
        self.put(begun_by(left_by(entry), number, tick))
    }
}
