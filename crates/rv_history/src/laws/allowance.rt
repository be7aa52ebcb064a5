//! What units spend of an allowance.

ghost use Rattle.std.specs.Prelude.{◌≡◌, ◌≤◌, ℕ, Some, None, false, length};
ghost use Rattle.rv_event.specs.Recorded.{recorded};
ghost use Rattle.rv_event.specs.declared.entry.Answer.TheVariants.{Full};
ghost use Rattle.rv_event.specs.declared.entry.Recorded.{Recorded};
ghost use Rattle.rv_event.specs.declared.entry.Request.{Request};
ghost use Rattle.rv_history.specs.Allowance.{may_spend, spent};
ghost use Rattle.rv_history.specs.Due.{due, out};
ghost use Rattle.rv_history.specs.History.{History};
ghost use Rattle.rv_history.specs.Legal.{Legal};
ghost use Rattle.rv_history.specs.Unbounded.{out_by_room};

/// No unit spends more than its allowance: of the entries of a legal history no more are charged to it.
#[tactic(auto, using(crate::proofs::Spending::never_more))]
pub fn allowances_hold()
    ensures { (h : History) (unit most : ℕ) → Legal h → h.limits.allowance ≡ Some most →
        spent h.shapes unit h.past ≤ most }
{}

/// What would be recorded, and is charged to a unit that has spent its allowance, is answered Full.
#[tactic(auto, using(crate::proofs::Spending::spent_full))]
pub fn spent_allowances_are_full()
    ensures { (h : History) (actor : ℕ) (request : Request) (word : Recorded) →
        may_spend h actor request ≡ false → recorded (due h actor request) ≡ Some word →
        out h actor request ≡ Full }
{}

/// Without an allowance each answer is the one that is due by the room alone.
#[tactic(auto, using(crate::proofs::Spending::unbounded))]
pub fn no_allowance_changes_nothing()
    ensures { (h : History) (actor : ℕ) (request : Request) → h.limits.allowance ≡ None →
        out h actor request ≡ out_by_room h actor request }
{}

/// No more is charged to a unit than there are entries.
#[tactic(auto, using(crate::proofs::Spending::spent_few))]
pub fn entries_bound_what_is_spent()
    ensures { (h : History) (unit : ℕ) → spent h.shapes unit h.past ≤ length h.past }
{}
