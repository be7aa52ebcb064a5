//! What comes of the calls of a unit that the list in force denies everything. Laws, each on a function that does nothing.

ghost use Rattle.rv_tally.specs.Denied.{CallsAreRefused, LastDenialStands, RecordedCallsAreRefused, TasksAreRefused};

/// With `deny UNIT * *` at its end a list denies the unit everything.
#[tactic(auto, using(crate::proofs::Lists::last_stands))]
pub fn last_denial_stands()
    ensures { LastDenialStands }
{}

/// A call whose subject is a unit that the list in force denies everything adds no entry but its refusal.
#[tactic(auto, using(crate::proofs::Calls::calls_refused))]
pub fn calls_are_refused()
    ensures { CallsAreRefused }
{}

/// So does one of a task of such a unit, outside a body.
pub fn tasks_are_refused()
    ensures { TasksAreRefused }
{}

/// In a legal history each call that was recorded of such a subject is recorded as refused.
pub fn recorded_calls_are_refused()
    ensures { RecordedCallsAreRefused }
{}
