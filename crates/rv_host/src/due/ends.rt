//! What is decided of ends of bodies, and where an object is settled.

ghost use Rattle.std.specs.Prelude.{◌≡◌, slice_get, List, ℤ, Option};
ghost use Rattle.rv_event.specs.declared.entry.Body.{Body};
ghost use Rattle.rv_history.specs.Due as due;
ghost use Rattle.rv_history.specs.Exclusion.{barrier_at, opens_on};
ghost use Rattle.rv_host.specs.Decisions.{answer_with};
ghost use Rattle.rv_host.specs.Seen.{IsSeen, history_of};
ghost use Rattle.rv_shape.specs.Catalogue as catalogues;

use crate::decision::Decision;
use crate::due::waits::is_halted;
use crate::rules::exclusion::{opens_among, opens_at, scalars_of};
use crate::rules::grant::decide_call;
use crate::rules::queue::{head_call, is_due};
use crate::seen::Seen;
use rv_event::entry::{Body, Next};
use rv_shape::actor::Callee;
use rv_value::Scalars;

// The head of a queue: handed over where the list in force grants its call, else dropped.
fn serve(seen: &Seen, head: Option<Body>) -> Next
    requires { IsSeen seen.now }
    ensures { (calls : List Body) → head ≡ slice_get calls 0 → result ≡ due.next_of_queue (history_of seen.now) calls }
{
    let Some(call) = head else {
        return Next::Nothing;
    };
    let callee = seen.catalogue.callee(call.object, call.operation);
    let (granted, line) = decide_call(seen, call.actor, call.object, call.operation, &callee);
    if granted {
        Next::HandedTo(call.actor)
    } else {
        Next::Dropped(call.actor, line)
    }
}

// What becomes of the queue of an object at the end of an exclusive body, or where the object is settled: whether its
// entry's barrier is open then was found.
fn after_end(seen: &Seen, object: usize, opens: bool) -> Next
    requires { IsSeen seen.now }
    ensures { (values : List ℤ) → opens ≡ opens_on (barrier_at (catalogues.place seen.now.catalogue.now object)) values
        → result ≡ due.after_end (history_of seen.now) object values }
{
    if is_halted(seen) {
        return Next::Nothing;
    }
    if !is_due(seen, object, opens) {
        return Next::Nothing;
    }
    serve(seen, head_call(seen, object))
}

/// What is decided of the end of a body.
#[tactic(auto, using(crate::proofs::Opening::opens_found))]
pub fn due_end(seen: &Seen, body: Option<Body>, scalars: &Scalars) -> Decision
    requires { IsSeen seen.now }
    ensures { (given : Option (List ℤ)) → answer_with given result ≡ due.due_end (history_of seen.now) scalars.now body }
{
    let Some(body) = body else {
        return Decision::Misuse;
    };
    match seen.catalogue.callee(body.object, body.operation) {
        Callee::Protected(_, object, found) => {
            if found.kind().is_function() {
                return Decision::Done(Next::Nothing);
            }
            let opens = opens_among(object.operations(), scalars);
            Decision::Done(after_end(seen, body.object, opens))
        }
        Callee::Nowhere => Decision::Misuse,
        Callee::Suspension(_, _, _) => Decision::Misuse,
    }
}

/// What is decided of a settle of the object that the end of this body left unsettled (own).
pub fn due_settle(seen: &Seen, body: Option<Body>) -> Decision
    requires { IsSeen seen.now }
    ensures { (given : Option (List ℤ)) → answer_with given result ≡ due.due_settle (history_of seen.now) body }
{
    let Some(body) = body else {
        return Decision::Misuse;
    };
    let scalars = scalars_of(seen, body.object);
    let opens = opens_at(seen.catalogue, body.object, scalars);
    Decision::Done(after_end(seen, body.object, opens))
}
