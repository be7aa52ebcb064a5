//! At which version of the list each actor was last spoken of: that of a drop, for one that was
//! dropped.

ghost use Rattle.std.specs.Prelude.{◌≡◌, ◌<◌, [], ◌∷◌, ℕ, List, Some, replicate, slice_set, IfOk};
ghost use Rattle.rv_event.specs.Lent.{whole};
ghost use Rattle.rv_event.specs.Past as past;
ghost use Rattle.rv_event.specs.declared.entry.Entry.{Entry};
ghost use Rattle.rv_event.specs.declared.entry.Next.TheVariants.{Nothing};
ghost use Rattle.rv_history.specs.History.{changes};
ghost use Rattle.rv_waiting.specs.Limits.{most_actors};
ghost use Rattle.rv_waiting.specs.Versions as versions;
ghost use Rattle.rv_waiting.specs.Versions.{AreVersions, version_then, with_version};

use rv_event::entry::EntryRef;
use rv_event::one_entry::named;
use rv_shape::actor::FIRST_TASK;
use rv_shape::catalogue::MOST_TASKS;
use std::alloc::{AllocError, Global};
use std::marker::Model;

// The actor whose request an entry is.
fn asker(entry: &EntryRef) -> Option<usize>
    ensures { result ≡ versions.asker (whole entry.now) }
{
    match *entry {
        EntryRef::Asked(actor, _, _) => Some(actor),
        _ => None,
    }
}

/// The versions by the numbers of actors.
///
/// Contracts see a list with a place for each number of an actor, 0 .. 74.
#[derive(Drop)]
pub struct Versions {
    items: Vec<usize>,
}

impl Model for Versions {
    ghost use Rattle.std.specs.Prelude.{◌≡◌, List, ℕ, length};
    ghost use Rattle.rv_waiting.specs.Limits.{most_actors};

    ghost Value = { List ℕ };

    ghost view = { λ v. v.items.items };

    ghost invariant = { λ v. length v.items.items ≡ most_actors };
}

impl Versions {
    /// Nobody was spoken of.
    pub fn new(alloc: Global) -> Result<Versions, AllocError>
        ensures { IfOk result (λ v. AreVersions [] v) }
    {
        let items = vec![in alloc; 0; FIRST_TASK + MOST_TASKS]?;
        Ok(Versions { items })
    }

    /// The version before the last entry that is the actor's own, or names it.
    pub fn version_then(&self, actor: usize) -> usize
        ensures { (history : List Entry) → AreVersions history self.now →
            result ≡ version_then actor history }
    {
        if actor < self.items.len() {
            self.items[actor]
        } else {
            0
        }
    }

    // One is spoken of now.
    fn tell(&mut self, actor: Option<usize>, version: usize)
        requires { (some : ℕ) → actor ≡ Some some → some < most_actors }
        ensures { self.new ≡ with_version actor version self.old }
    {
        if let Some(actor) = actor {
            self.items[actor] = version;
        }
    }

    /// One entry more of an actor, which names nobody, at this version.
    pub fn note_own(&mut self, actor: usize, version: usize)
        requires { actor < most_actors }
        ensures { (history : List Entry) (entry : Entry) → versions.asker entry ≡ Some actor →
            past.next_of entry ≡ Nothing → version ≡ changes history →
            AreVersions history self.old → AreVersions (entry ∷ history) self.new }
    {
        let _ = &self.items;
        self.tell(Some(actor), version);
    }

    /// One entry more, at this version.
    pub fn note(&mut self, entry: &EntryRef, version: usize)
        requires own { (actor : ℕ) → versions.asker (whole entry.now) ≡ Some actor → actor < most_actors }
        requires named { (actor : ℕ) → past.named_in (past.next_of (whole entry.now)) ≡ Some actor →
            actor < most_actors }
        ensures { (history : List Entry) → version ≡ changes history →
            AreVersions history self.old → AreVersions (whole entry.now ∷ history) self.new }
    {
        let _ = &self.items;
        self.tell(asker(entry), version);
        self.tell(named(entry), version);
    }
}
