//! The list in force: for whom an actor calls, and whether that is granted at the clock, by the table of the list.

ghost use Rattle.std.specs.Prelude.{◌≡◌, Some};
ghost use Rattle.rv_event.specs.Past as past;
ghost use Rattle.rv_history.specs.History.{force};
ghost use Rattle.rv_history.specs.Rules as rules;
ghost use Rattle.rv_history.specs.Subject as subjects;
ghost use Rattle.rv_host.specs.Numbered.{IsNumber};
ghost use Rattle.rv_host.specs.Seen.{IsSeen, history_of};
ghost use Rattle.rv_shape.specs.Catalogue as catalogues;
ghost use Rattle.rv_shape.specs.Readers.{target_of};
ghost use Rattle.rv_table.specs.Tables.{decided_at, granted_at};

use crate::rules::clock::ticks;
use crate::rules::fitting::innermost;
use crate::seen::Seen;
use rv_shape::actor::{Callee, FIRST_TASK};
use rv_shape::catalogue::Catalogue;

// The number of the home of an actor: of its unit, or 0 for `Interrupts`; `None` where it has none.
#[tactic(auto, using(crate::proofs::Tabled::operator_number, crate::proofs::Tabled::line_number, crate::proofs::Tabled::task_number))]
fn home(catalogue: &Catalogue, actor: usize) -> Option<usize>
    ensures { IsNumber catalogue.now (subjects.home (catalogues.who catalogue.now actor)) result }
{
    if actor == 0 {
        return None;
    }
    if actor < FIRST_TASK {
        return Some(0);
    }
    catalogue.unit_of_task(actor)
}

// The number of the unit of an object.
#[tactic(auto, using(crate::proofs::Tabled::object_number))]
fn unit_at(catalogue: &Catalogue, object: usize) -> Option<usize>
    ensures { IsNumber catalogue.now (subjects.unit_at (catalogues.place catalogue.now object)) result }
{
    catalogue.unit_of_object(object)
}

// The number of the subject of a call: of the unit of the innermost object that the actor holds, else
// of its home.
fn subject(seen: &Seen, actor: usize) -> Option<usize>
    requires { IsSeen seen.now }
    ensures { IsNumber seen.now.catalogue.now (subjects.subject (history_of seen.now) actor) result }
{
    match innermost(seen, actor) {
        None => home(seen.catalogue, actor),
        Some(body) => unit_at(seen.catalogue, body.object),
    }
}

// What the list in force decides now of a call by an actor, of what there is at these numbers.
#[inline(always)]
fn looked_up(seen: &Seen, actor: usize, object: usize, operation: usize) -> (bool, usize)
    requires { IsSeen seen.now }
    ensures granted { result.0 ≡ granted_at (force (history_of seen.now)) (Some (subjects.subject (history_of seen.now) actor)) (catalogues.target seen.now.catalogue.now object operation) (past.clock (history_of seen.now).past) }
    ensures line { result.1 ≡ decided_at (force (history_of seen.now)) (Some (subjects.subject (history_of seen.now) actor)) (catalogues.target seen.now.catalogue.now object operation) (past.clock (history_of seen.now).past) }
{
    let tick = ticks(seen);
    match subject(seen, actor) {
        Some(unit) => seen.table.look(unit, object, operation, tick),
        None => seen.table.look_nameless(object, operation, tick),
    }
}

/// Whether the list in force grants a call to an actor now, of what there is at these numbers, and by
/// which line.
#[inline(always)]
pub fn decide_call(
    seen: &Seen,
    actor: usize,
    object: usize,
    operation: usize,
    callee: &Callee,
) -> (bool, usize)
    requires seen { IsSeen seen.now }
    requires called { target_of callee.now ≡ catalogues.target seen.now.catalogue.now object operation }
    ensures granted { result.0 ≡ rules.granted (history_of seen.now) (subjects.subject (history_of seen.now) actor) (target_of callee.now) }
    ensures line { result.1 ≡ rules.decided (history_of seen.now) (subjects.subject (history_of seen.now) actor) (target_of callee.now) }
{
    match callee {
        Callee::Nowhere => (true, 0),
        Callee::Protected(_, _, _) => looked_up(seen, actor, object, operation),
        Callee::Suspension(_, _, _) => looked_up(seen, actor, object, operation),
    }
}
