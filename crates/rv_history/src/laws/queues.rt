//! What becomes of queued callers.

ghost use Rattle.std.specs.List.{list_any};
ghost use Rattle.std.specs.Prelude.{◌≡◌, ◌↔◌, ◌⊎◌, ◌++◌, ◌∷◌, ℕ, List, [], false, true};
ghost use Rattle.rv_event.specs.Past.{halted, is_own, is_unsettled, queue, under_way};
ghost use Rattle.rv_event.specs.declared.entry.Answer.TheVariants.{Done, Refused};
ghost use Rattle.rv_event.specs.declared.entry.Entry.TheVariants.{Asked};
ghost use Rattle.rv_event.specs.declared.entry.Entry.{Entry};
ghost use Rattle.rv_event.specs.declared.entry.Next.TheVariants.{Dropped, HandedTo, Nothing};
ghost use Rattle.rv_event.specs.declared.entry.Next.{Next};
ghost use Rattle.rv_event.specs.declared.entry.Recorded.TheVariants as recorded;
ghost use Rattle.rv_event.specs.declared.entry.Request.TheVariants.{Resume};
ghost use Rattle.rv_event.specs.declared.entry.Request.{Request};
ghost use Rattle.rv_event.specs.declared.entry.Rule.TheVariants.{Grant};
ghost use Rattle.rv_history.specs.Due.{out};
ghost use Rattle.rv_history.specs.Exclusion.{is_open};
ghost use Rattle.rv_history.specs.HandOver.{IsDropped, IsHanded, IsHandedOver, IsOnlyDropped, serves};
ghost use Rattle.rv_history.specs.History.{History, changes};
ghost use Rattle.rv_history.specs.Legal.{Legal, after};
ghost use Rattle.rv_history.specs.Orderly.{is_exclusive_on};
ghost use Rattle.rv_history.specs.Owed.{IsSolvent};

/// While the host isn't halted, a settled object that nobody holds exclusively, so a free one too,
/// has a closed barrier or an empty queue.
#[tactic(auto, using(crate::proofs::Settled::free_settled))]
pub fn free_objects_are_closed_or_unqueued()
    ensures { (h : History) (object : ℕ) → Legal h → halted h.past ≡ false →
        list_any (is_exclusive_on h.shapes object) (under_way h.shapes h.past) ≡ false →
        is_unsettled h.shapes object h.past ≡ false →
        (is_open h object ≡ false) ⊎ (queue object h.past ≡ []) }
{}

/// At an end or a settle, a queued caller is handed the object exactly where the end is an exclusive
/// body's, the host isn't halted, the barrier is open, the caller is first and the list in force
/// grants its call.
pub fn handed_over_exactly_when_granted()
    ensures { (h : History) (actor : ℕ) (request : Request) (caller : ℕ) →
        Legal h → IsSolvent h →
        (out h actor request ≡ Done (HandedTo caller)) ↔ IsHandedOver h actor request caller }
{}

/// It is dropped exactly where the list doesn't.
pub fn dropped_exactly_when_denied()
    ensures { (h : History) (actor : ℕ) (request : Request) (caller line : ℕ) →
        Legal h → IsSolvent h →
        (out h actor request ≡ Done (Dropped caller line)) ↔ IsDropped h actor request caller line }
{}

/// Nothing but an end or a settle is answered Done, so nothing else hands over or drops.
pub fn only_ends_and_settles_name_queued_callers()
    ensures { (h : History) (actor : ℕ) (request : Request) (next : Next) →
        out h actor request ≡ Done next → serves request ≡ true }
{}

/// A queued call that is found denied leaves its queue, and where others wait behind it the object
/// is left to settle; that is all that the denial changes.
#[tactic(auto, using(crate::proofs::HandOver::only_dropped))]
pub fn denials_only_drop()
    ensures { (h : History) (actor : ℕ) (request : Request) (caller line : ℕ) →
        Legal h → out h actor request ≡ Done (Dropped caller line) →
        IsOnlyDropped h (after h actor request (Done (Dropped caller line)))
        (after h actor request (Done Nothing)) actor caller }
{}

/// Until it asks for anything, the caller whom an end or a settle handed over to holds its queued
/// call's body alone, on that object; it is handed, and is woken with the scalars that it was left.
pub fn handed_callers_hold_their_bodies()
    ensures { (h : History) (later past : List Entry) (actor : ℕ) (request : Request) (caller : ℕ) →
        Legal h → IsSolvent h →
        h.past ≡ later ++ Asked actor request (recorded.Done (HandedTo caller)) ∷ past →
        list_any (is_own caller) later ≡ false → IsHanded h past actor request caller }
{}

/// Whenever it asks, a caller that was dropped is refused by the line of the drop, with the version
/// that the list had then.
pub fn dropped_callers_are_told_of_the_drop()
    ensures { (h : History) (later past : List Entry) (actor : ℕ) (request : Request)
        (caller line : ℕ) →
        Legal h → IsSolvent h →
        h.past ≡ later ++ Asked actor request (recorded.Done (Dropped caller line)) ∷ past →
        list_any (is_own caller) later ≡ false →
        out h caller Resume ≡ Refused Grant line (changes past) }
{}
