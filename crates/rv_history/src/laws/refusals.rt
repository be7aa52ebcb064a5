//! What a refusal names, and what it leaves as it was.

ghost use Rattle.std.specs.Prelude.{◌≡◌, ℕ, false};
ghost use Rattle.rv_event.specs.declared.entry.Answer.TheVariants.{Refused};
ghost use Rattle.rv_event.specs.declared.entry.Request.{Request};
ghost use Rattle.rv_event.specs.declared.entry.Rule.{Rule};
ghost use Rattle.rv_history.specs.Due.{goes_on, out};
ghost use Rattle.rv_history.specs.History.{History};
ghost use Rattle.rv_history.specs.Legal.{after};
ghost use Rattle.rv_history.specs.Refusal.{IsRefusal};
ghost use Rattle.rv_history.specs.Untouched.{Untouched};

/// A refused request names the first rule that it violates, with the deciding line and the version
/// of the list (an end, a settle or a quit is never refused, and a resume tells of a refusal that was).
pub fn refusals_name_the_first_rule()
    ensures { (h : History) (actor : ℕ) (request : Request) (rule : Rule) (line version : ℕ) →
        goes_on request ≡ false → out h actor request ≡ Refused rule line version →
        IsRefusal h actor request rule line version }
{}

/// It changes no scalars, no queue, no barrier, nothing that is held, and nobody's exclusion.
#[tactic(auto, using(crate::proofs::Refused::refused_leaves))]
pub fn refusals_leave_all()
    ensures { (h : History) (actor : ℕ) (request : Request) (rule : Rule) (line version : ℕ) →
        goes_on request ≡ false → Untouched h (after h actor request (Refused rule line version)) }
{}
