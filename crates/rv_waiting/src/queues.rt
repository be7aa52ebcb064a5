//! The queues of the objects' entries, each as the entries so far leave it (9.5.3, D.7).

ghost use Rattle.std.specs.List.{list_any};
ghost use Rattle.std.specs.Prelude.{◌≡◌, ◌==◌, ◌<◌, ◌&&◌, [], ◌∷◌, ℕ, List, Some, length, nat_lt, not, replicate, slice_get};
ghost use Rattle.std.specs.Prelude.{slice_index_or, IfOk};
ghost use Rattle.rv_event.specs.Lent.{whole};
ghost use Rattle.rv_event.specs.Past as past;
ghost use Rattle.rv_event.specs.declared.entry.Body.{Body as Call};
ghost use Rattle.rv_event.specs.declared.entry.Entry.{Entry};
ghost use Rattle.rv_event.specs.declared.entry.Next.{Next};
ghost use Rattle.rv_history.specs.Exclusion.{full_queue};
ghost use Rattle.rv_history.specs.History.{History};
ghost use Rattle.rv_waiting.specs.Limits.{most_places};
ghost use Rattle.rv_waiting.specs.Queues.{AreQueues, CanJoin, Moves, callers, joined_by, left_by};

use rv_event::entry::{Body, EntryRef};
use rv_event::one_entry::queued_by;
use rv_queue::EntryQueue;
use rv_shape::catalogue::MOST_OBJECTS;
use std::alloc::{AllocError, Global};
use std::marker::Model;

// An empty queue for each number of an object.
fn all_empty(alloc: Global) -> Result<Vec<EntryQueue>, AllocError>
    ensures { IfOk result (λ items. items.items ≡ replicate most_places []) }
{
    let mut items = Vec::with_capacity(alloc, MOST_OBJECTS + 1)?;
    for _ in 0..MOST_OBJECTS + 1 {
        items.push(EntryQueue::new())?;
    }
    Ok(items)
}

/// The queues by the numbers of objects; that of an object without an entry stays empty.
///
/// Contracts see a list with a place for each number of an object, 0 .. 256.
#[derive(Drop)]
pub struct Queues {
    items: Vec<EntryQueue>,
}

impl Model for Queues {
    ghost use Rattle.std.specs.Prelude.{◌≡◌, List, ℕ, length};
    ghost use Rattle.rv_waiting.specs.Limits.{most_places};

    ghost Value = { List (List ℕ) };

    ghost view = { λ q. q.items.items };

    ghost invariant = { λ q. length q.items.items ≡ most_places };
}

impl Queues {
    /// Nobody waits.
    #[tactic(auto, using(crate::proofs::Queueing::fresh_long))]
    pub fn new(alloc: Global) -> Result<Queues, AllocError>
        ensures { IfOk result (λ q. AreQueues [] q) }
    {
        let items = all_empty(alloc)?;
        Ok(Queues { items })
    }

    /// The callers that wait on the object, the one that waits longest first.
    pub fn callers(&self, object: usize) -> &[usize]
        ensures { (history : List Entry) → AreQueues history self.now →
            result.now ≡ callers object history }
    {
        match self.items.get(object) {
            Some(queue) => queue.callers(),
            None => &[],
        }
    }

    /// The caller that waits longest on the object.
    pub fn head(&self, object: usize) -> Option<usize>
        ensures { (history : List Entry) → AreQueues history self.now →
            result ≡ slice_get (callers object history) 0 }
    {
        self.items.get(object)?.head()
    }

    /// Whether a caller is due to be served on the object where its barrier is open or closed.
    pub fn is_due(&self, object: usize, barrier: bool) -> bool
        ensures { (history : List Entry) → AreQueues history self.now →
            result ≡ (barrier && nat_lt 0 (length (callers object history))) }
    {
        match self.items.get(object) {
            Some(queue) => queue.due(barrier),
            None => false,
        }
    }

    // Whether anybody but this actor waits on the object.
    fn has_other(&self, object: usize, actor: usize) -> bool
        ensures { result ≡ list_any (λ caller. not (caller == actor)) (slice_index_or self.now object []) }
    {
        match self.items.get(object) {
            Some(queue) => queue.has_other(actor),
            None => false,
        }
    }

    /// Whether others wait on the object once an entry drops this caller.
    pub fn waits_behind(&self, object: usize, caller: usize) -> bool
        ensures { (history : List Entry) (entry : Entry) (line : ℕ) → AreQueues history self.now →
            past.next_of entry ≡ Next.Dropped caller line →
            result ≡ past.leaves_some (past.next_of entry) (past.queue object (entry ∷ history)) }
    {
        self.has_other(object, caller)
    }

    // How many callers wait on the object.
    fn callers_on(&self, object: usize) -> usize
        ensures { result ≡ length (slice_index_or self.now object []) }
    {
        match self.items.get(object) {
            Some(queue) => queue.len(),
            None => 0,
        }
    }

    /// Whether the queue of the object is full, where queues have this limit.
    #[tactic(auto, using(crate::proofs::Queueing::is_full))]
    pub fn is_full(&self, object: usize, limit: usize) -> bool
        ensures { (h : History) → h.limits.queue ≡ limit → AreQueues h.past self.now →
            result ≡ full_queue h object }
    {
        self.callers_on(object) >= limit
    }

    // The first caller on the object of a call leaves.
    fn leave(&mut self, call: Option<Body>)
        requires { (some : Call) → call ≡ Some some → some.object < most_places }
        ensures { self.new ≡ left_by call self.old }
    {
        if let Some(call) = call {
            let _ = self.items[call.object].leave();
        }
    }

    // The caller of a call joins.
    fn join(&mut self, call: Option<Body>)
        requires { (some : Call) → call ≡ Some some → CanJoin some self.old }
        ensures { self.new ≡ joined_by call self.old }
    {
        if let Some(call) = call {
            self.items[call.object].join(call.actor);
        }
    }

    /// One entry more, with the queued call of the actor that it names as handed the object or
    /// dropped: that one leaves. A call that the entry queues joins.
    pub fn note(&mut self, entry: &EntryRef, named: Option<Body>)
        requires { (h : History) × Moves h (whole entry.now) named self.old }
        ensures { (h : History) → Moves h (whole entry.now) named self.old →
            AreQueues (whole entry.now ∷ h.past) self.new }
    {
        let _ = &self.items;
        self.leave(named);
        self.join(queued_by(entry));
    }
}
