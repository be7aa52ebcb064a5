//! The outside of a run.

ghost use Rattle.std.specs.Prelude.{◌≡◌, [], ◌∷◌, ◌++◌, List, false};
ghost use Rattle.rv_event.specs.declared.entry.Answer.{Answer};
ghost use Rattle.rv_event.specs.declared.entry.Request.{Request};
ghost use Rattle.rv_exec.specs.Asking.{stands};

use rv_event::entry::{Answer, Request};

/// What answers the requests of bodies, with a runtime that it may need to wait.
pub trait Outward<R> {
    /// The requests and answers of a trace, in order, lead from one state to the other.
    ghost went: { Self → List (Request × Answer) → Self → Type 0 };

    /// Asks one request. At `Busy`, `Waiting` and `Misuse` the request stands: none of them comes back.
    fn ask(&mut self, runtime: &R, request: Request) -> Answer
        ensures asked { went self.old ((request, result) ∷ []) self.new }
        ensures settled { stands result ≡ false };

    ghost none: { (s : Self) → went s [] s };

    ghost both: { (s t u : Self) (a b : List (Request × Answer)) → went s a t → went t b u → went s (a ++ b) u };
}

/// Whether a request stands behind such an answer, and is asked again (own).
pub fn stands(answer: &Answer) -> bool
    ensures { result ≡ stands answer.now }
{
    match answer {
        Answer::Busy | Answer::Waiting | Answer::Misuse => true,
        _ => false,
    }
}
