//! Objects that an end left unsettled, where queues may have several callers (own).

ghost use Rattle.std.specs.Prelude.{◌≡◌, ◌∷◌, ℕ, List, [], Option, Some, false, true, length};
ghost use Rattle.rv_access.specs.Words.{Words};
ghost use Rattle.rv_shape.specs.Shape.{Shape};
ghost use Rattle.rv_event.specs.Past.{halted, is_unsettled, queue, to_settle, unsettled};
ghost use Rattle.rv_event.specs.declared.entry.Answer.TheVariants.{Done};
ghost use Rattle.rv_event.specs.declared.entry.Body.{Body};
ghost use Rattle.rv_event.specs.declared.entry.Next.TheVariants.{Nothing};
ghost use Rattle.rv_event.specs.declared.entry.Request.TheVariants.{Settle};
ghost use Rattle.rv_event.specs.declared.entry.Request.{Request};
ghost use Rattle.rv_history.specs.Due.{out};
ghost use Rattle.rv_history.specs.History.{History};
ghost use Rattle.rv_history.specs.Fitting.{fits};
ghost use Rattle.rv_history.specs.Legal.{Legal, after, after_list, after_load, out_list, out_load};
ghost use Rattle.rv_history.specs.Owed.{IsSolvent};
ghost use Rattle.rv_history.specs.Settling.{HasToSettle, IsNoSettleOf, IsSettledWithin, ServesFirst, StaysUnsettled};
ghost use Rattle.rv_history.specs.Sentence.{left_waiting};
ghost use Rattle.rv_history.specs.Settling.{settled};

/// An object is unsettled exactly where the last entry that served its queue dropped a caller and left
/// others waiting.
#[tactic(auto, using(crate::proofs::Sentence::unsettled_sentence))]
pub fn unsettled_where_the_last_service_dropped()
    ensures { (h : History) (object : ℕ) → Legal h →
        is_unsettled h.shapes object h.past ≡ left_waiting h.shapes object h.past }
{}

/// An actor with an object to settle may settle it and do nothing else; nobody holds the object, and
/// somebody waits there.
#[tactic(auto, using(crate::proofs::Settling::has_to_settle))]
pub fn unsettled_objects_wait_for_their_actor()
    ensures { (h : History) (actor : ℕ) (body : Body) → Legal h →
        to_settle h.shapes actor h.past ≡ Some body →
        (first : Body) × (behind : List Body) × HasToSettle h actor body first behind }
{}

/// While the host isn't halted, a settle serves the first caller: it is handed the object, or is
/// dropped where the list in force denies its call.
pub fn settles_serve_the_first()
    ensures { (h : History) (actor : ℕ) (body first : Body) (behind : List Body) →
        Legal h → IsSolvent h → halted h.past ≡ false → HasToSettle h actor body first behind →
        ServesFirst h actor body.object first behind }
{}

/// So an object is settled after at most as many settles as callers wait there.
#[tactic(auto, using(crate::proofs::Settling::settled_in_time))]
pub fn objects_are_settled_in_time()
    ensures { (h : History) (actor : ℕ) (body : Body) →
        Legal h → IsSolvent h → halted h.past ≡ false → to_settle h.shapes actor h.past ≡ Some body →
        IsSettledWithin (length (queue body.object h.past)) h actor body.object }
{}

/// On a halted host one settle settles, and names nobody.
pub fn halted_settles_name_nobody()
    ensures { (h : History) (actor : ℕ) (body : Body) →
        Legal h → IsSolvent h → halted h.past ≡ true → to_settle h.shapes actor h.past ≡ Some body →
        (out h actor Settle ≡ Done Nothing)
        × (is_unsettled h.shapes body.object (settled h actor).past ≡ false) }
{}

/// Until its actor settles it, an object stays unsettled with those who wait there, whatever is
/// asked; and nobody is let into it.
pub fn nobody_enters_an_unsettled_object()
    ensures { (h : History) (actor : ℕ) (request : Request) (object : ℕ) → Legal h →
        is_unsettled h.shapes object h.past ≡ true → IsNoSettleOf h actor request object →
        StaysUnsettled h (after h actor request (out h actor request)) object }
{}

/// With queues of one caller no object is ever unsettled.
#[tactic(auto, using(crate::proofs::Settling::nothing_unsettled))]
pub fn queues_of_one_leave_nothing_unsettled()
    ensures { (h : History) → Legal h → h.limits.queue ≡ 1 → unsettled h.shapes h.past ≡ [] }
{}

/// What the operator loads, and each change of the list, leaves an unsettled object so, with those who
/// wait there; and nobody is let into it.
pub fn the_operator_lets_nobody_in()
    ensures loads { (h : History) (shape : Shape) (object : ℕ) → Legal h →
        is_unsettled h.shapes object h.past ≡ true →
        StaysUnsettled h (after_load h shape (out_load h shape)) object }
    ensures lists { (h : History) (list : Option (List Words)) (object : ℕ) → Legal h →
        is_unsettled h.shapes object h.past ≡ true →
        StaysUnsettled h (after_list h list (out_list h list)) object }
{}

/// With queues of one caller no settle fits, so none is ever recorded.
#[tactic(auto, using(crate::proofs::Entering::settle_unfit))]
pub fn queues_of_one_need_no_settle()
    ensures { (h : History) (actor : ℕ) → Legal h → h.limits.queue ≡ 1 → fits h actor Settle ≡ false }
{}
