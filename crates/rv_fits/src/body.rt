//! Calls in bodies (6.3, 9.1, 9.4).

ghost use Rattle.std.specs.List.{list_all};
ghost use Rattle.std.specs.Prelude.{◌≡◌, Bool, map};
ghost use Rattle.rv_code.specs.BodyView.{declaration_view, handler_view, body_view, maybe_body_view};
ghost use Rattle.rv_code.specs.declared.expression.Callee.{Callee};
ghost use Rattle.rv_fits.specs.Calls.{body_calls, declaration_calls, handler_calls, object_calls, task_calls};
ghost use Rattle.rv_fits.specs.Passing.{passes};

use crate::expression::expression_fits;
use crate::passing::Test;
use crate::statement::statements_fit;
use rv_code::{Body, Declaration, Handler};

// A part of a unit's bodies.
trait Part {
    // Whether each callee that it names is such a one.
    ghost calls: { (Callee → Bool) → Self → Bool };

    // Whether its calls fit these units.
    fn fits(&self, test: &Test<'_>) -> bool
        ensures { result ≡ calls (passes test.now) self.now };
}

// Whether the calls of all of these fit these units.
fn all_fit<T: Part>(parts: &[T], test: &Test<'_>) -> bool
    ensures { result ≡ list_all (T.calls (passes test.now)) parts.now }
{
    for part in parts {
        if !part.fits(test) {
            return false;
        }
    }
    true
}

impl Part for Declaration {
    ghost calls = { λ such d. declaration_calls such (declaration_view d) };

    fn fits(&self, test: &Test<'_>) -> bool {
        expression_fits(&self.initial, test)
    }
}

impl Part for Handler {
    ghost calls = { λ such h. handler_calls such (handler_view h) };

    fn fits(&self, test: &Test<'_>) -> bool {
        statements_fit(&self.statements, test)
    }
}

impl Part for Body {
    ghost calls = { λ such b. body_calls such (body_view b) };

    #[tactic(auto, using(crate::proofs::Parts::mapped))]
    fn fits(&self, test: &Test<'_>) -> bool {
        all_fit(&self.declarations, test)
            && (statements_fit(&self.statements, test) && all_fit(&self.handlers, test))
    }
}

impl Part for Option<Body> {
    ghost calls = { λ such o. task_calls such (maybe_body_view o) };

    fn fits(&self, test: &Test<'_>) -> bool {
        match self {
            Some(body) => body.fits(test),
            None => true,
        }
    }
}

/// Whether the calls of an object's bodies fit.
#[tactic(auto, using(crate::proofs::Parts::mapped))]
pub(crate) fn bodies_fit(bodies: &[Body], test: &Test<'_>) -> bool
    ensures { result ≡ object_calls (passes test.now) (map body_view bodies.now) }
{
    all_fit(bodies, test)
}

/// Whether the calls of tasks' own bodies fit.
#[tactic(auto, using(crate::proofs::Parts::mapped))]
pub(crate) fn tasks_fit(bodies: &[Option<Body>], test: &Test<'_>) -> bool
    ensures { result ≡ list_all (task_calls (passes test.now)) (map maybe_body_view bodies.now) }
{
    all_fit(bodies, test)
}
