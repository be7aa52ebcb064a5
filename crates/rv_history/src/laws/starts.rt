//! When a body starts.

ghost use Rattle.std.specs.Prelude.{◌≡◌, ◌≤◌, ◌∷◌, ℕ, List, Some, true};
ghost use Rattle.rv_shape.specs.Catalogue.{Line, who};
ghost use Rattle.rv_event.specs.Past.{scalars};
ghost use Rattle.rv_event.specs.Recorded.{recorded};
ghost use Rattle.rv_event.specs.declared.entry.Answer.TheVariants as answers;
ghost use Rattle.rv_event.specs.declared.entry.Entry.TheVariants.{Asked};
ghost use Rattle.rv_event.specs.declared.entry.Entry.{Entry};
ghost use Rattle.rv_event.specs.declared.entry.Recorded.TheVariants.{Started};
ghost use Rattle.rv_event.specs.declared.entry.Recorded.{Recorded};
ghost use Rattle.rv_event.specs.declared.entry.Request.TheVariants.{Fire};
ghost use Rattle.rv_event.specs.declared.entry.Request.{Request};
ghost use Rattle.rv_history.specs.Allowance.{may_spend};
ghost use Rattle.rv_history.specs.Due.{out};
ghost use Rattle.rv_history.specs.HandOver.{IsHandedOver};
ghost use Rattle.rv_history.specs.Headline.{Headline, IsAllowed, IsLawful, MayFire};
ghost use Rattle.rv_history.specs.History.{History};
ghost use Rattle.rv_history.specs.Legal.{Legal};
ghost use Rattle.rv_history.specs.Owed.{has_room};
ghost use Rattle.rv_history.specs.Rewound.{rewound, without_newest};

/// A request that is answered Started is allowed, and one that is allowed is answered Started where
/// there is room for it, and the unit that it is charged to hasn't spent its allowance.
#[tactic(auto, using(crate::proofs::Exactly::started_allowed, crate::proofs::Exactly::allowed_recorded))]
pub fn starts_exactly_when_allowed()
    ensures nowhere_else { (h : History) (actor : ℕ) (request : Request) →
        recorded (out h actor request) ≡ Some Started → IsAllowed h actor request }
    ensures allowed { (h : History) (actor : ℕ) (request : Request) →
        may_spend h actor request ≡ true →
        has_room h.limits.capacity h.shapes (Asked actor request Started ∷ h.past) ≡ true →
        IsAllowed h actor request → recorded (out h actor request) ≡ Some Started }
{}

/// The caller of a body that starts gets its object's scalars.
#[tactic(auto, using(crate::proofs::Exactly::allowed_starts))]
pub fn start_gives_the_scalars()
    ensures { (h : History) (actor : ℕ) (request : Request)
        (allowed : IsAllowed h actor request) →
        may_spend h actor request ≡ true →
        has_room h.limits.capacity h.shapes (Asked actor request Started ∷ h.past) ≡ true →
        out h actor request ≡ answers.Started (scalars h.shapes allowed.object h.past) }
{}

/// A fired line that starts its handler is idle and attached, the host isn't halted, the list grants
/// the handler to `Interrupts`, the line's priority isn't above the ceiling, nobody holds the object
/// and it is settled; and where all that is so, there is room for it and the handler's unit hasn't spent its allowance,
/// it starts.
pub fn fired_lines_start_exactly_when_they_may()
    ensures nowhere_else { (h : History) (actor line : ℕ) → who h.shapes actor ≡ Line line →
        recorded (out h actor Fire) ≡ Some Started → MayFire h actor line }
    ensures allowed { (h : History) (actor line : ℕ) → who h.shapes actor ≡ Line line →
        may_spend h actor Fire ≡ true →
        has_room h.limits.capacity h.shapes (Asked actor Fire Started ∷ h.past) ≡ true →
        MayFire h actor line → recorded (out h actor Fire) ≡ Some Started }
{}

/// The queued call of a caller that is handed the object violates no rule at that step, so neither
/// one of those by which it was judged when it joined.
pub fn handed_calls_violate_no_rule()
    ensures { (h : History) (actor : ℕ) (request : Request) (caller : ℕ) → Legal h →
        (over : IsHandedOver h actor request caller) → IsLawful h over.call }
{}

/// The headline holds at each entry of a legal history that answers a request, of the entries before
/// it, however many entries are newer; the history has a capacity for one entry at least, as each
/// host has. Loads and list changes start no body, by what a start is.
pub fn headline_at_each_entry()
    ensures { (h : History) (newer actor : ℕ) (request : Request) (answer : Recorded)
        (past : List Entry) → 1 ≤ h.limits.capacity → Legal h →
        (rewound newer h).past ≡ Asked actor request answer ∷ past →
        Headline (without_newest (rewound newer h)) actor request answer }
{}

/// What a legal history was before its newest entries, however many, is legal too.
#[tactic(auto, using(crate::proofs::Headlined::rewound_legal))]
pub fn each_beginning_is_legal()
    ensures { (newer : ℕ) (h : History) → Legal h → Legal (rewound newer h) }
{}
