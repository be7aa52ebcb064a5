//! Bodies, stacks and queues stay in order.

ghost use Rattle.std.specs.List.{filter, list_any};
ghost use Rattle.std.specs.Prelude.{◌≡◌, ℕ, length, true};
ghost use Rattle.rv_event.specs.Past.{under_way};
ghost use Rattle.rv_history.specs.History.{History};
ghost use Rattle.rv_history.specs.Legal.{Legal};
ghost use Rattle.rv_history.specs.Orderly.{IsOrderly, is_exclusive_on, is_on};

/// After each entry of a legal history the bodies on an object all share it or there is one, stacks
/// and queues keep their limits, and bodies and queued calls are of operations that there are.
#[tactic(auto, using(crate::proofs::Orderly::legal_orderly))]
pub fn legal_histories_are_orderly()
    ensures { (h : History) → Legal h → IsOrderly h.limits h.shapes h.past }
{}

/// An object that somebody holds exclusively is held by that one alone.
#[tactic(auto, using(crate::proofs::Alone::exclusive_alone))]
pub fn exclusive_holders_are_alone()
    ensures { (h : History) (object : ℕ) → Legal h →
        list_any (is_exclusive_on h.shapes object) (under_way h.shapes h.past) ≡ true →
        length (filter (is_on object) (under_way h.shapes h.past)) ≡ 1 }
{}
