//! A law of answers, on a function that does nothing.

ghost use Rattle.std.specs.Prelude.{◌≡◌, ℕ, List, Option, pos, int_lt, true};
ghost use Rattle.rv_access.specs.Words.{Words};
ghost use Rattle.rv_event.specs.declared.entry.Answer.{Answer};
ghost use Rattle.rv_event.specs.declared.entry.Request.{Request};
ghost use Rattle.rv_history.specs.History.{History};
ghost use Rattle.rv_history.specs.Legal.{after, after_list, after_load};
ghost use Rattle.rv_shape.specs.Shape.{Shape};
ghost use Rattle.rv_c_host.specs.Numbers.{kind_of};

/// An answer whose number is below 0 leaves the history as it is: of a request, of a load, and of a change of the list.
#[tactic(auto, using(crate::proofs::Unrecorded::request_stays, crate::proofs::Unrecorded::load_stays, crate::proofs::Unrecorded::change_stays))]
pub fn below_zero_nothing_changes()
    ensures requests { (h : History) → (actor : ℕ) → (request : Request) → (answer : Answer) → int_lt (kind_of answer) (pos 0) ≡ true
        → after h actor request answer ≡ h }
    ensures loads { (h : History) → (shape : Shape) → (answer : Answer) → int_lt (kind_of answer) (pos 0) ≡ true
        → after_load h shape answer ≡ h }
    ensures changes { (h : History) → (list : Option (List Words)) → (answer : Answer) → int_lt (kind_of answer) (pos 0) ≡ true
        → after_list h list answer ≡ h }
{}
