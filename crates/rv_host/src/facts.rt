//! What the answer to a request depends on, and what is decided by it.

ghost use Rattle.std.specs.Prelude.{◌≡◌, None, List, ℤ, Option, if◌then◌else◌};
ghost use Rattle.rv_event.specs.declared.entry.Answer.TheVariants as answers;
ghost use Rattle.rv_history.specs.Due as due;
ghost use Rattle.rv_host.specs.Decisions.{answer_with};
ghost use Rattle.rv_host.specs.Facts.{breaks_as_call, breaks_as_delay, breaks_as_suspension, let_in, resumed, unless_broken};

use crate::decision::Decision;
use rv_event::entry::Rule;
use rv_shape::suspension::SuspensionOperation;

/// Of a call of a protected operation, or of a fired line: the version of the list and the line that
/// decides, and the tests, in the order of the rules. A fired line finds no queue full.
#[derive(Clone, Copy, Drop)]
pub struct CallFacts {
    pub version: usize,
    pub line: usize,
    pub denied: bool,
    pub blocking: bool,
    pub reentry: bool,
    pub above: bool,
    pub busy: bool,
    pub barred: bool,
    pub full: bool,
}

impl CallFacts {
    /// What is decided.
    pub fn decision(&self) -> Decision
        ensures { (given : Option (List ℤ)) → answer_with given result
            ≡ unless_broken self.now.version self.now.line (breaks_as_call self.now) (let_in self.now given) }
    {
        if self.denied {
            return Decision::Refused(Rule::Grant, self.line, self.version);
        }
        if self.blocking {
            return Decision::Refused(Rule::Blocking, 0, self.version);
        }
        if self.reentry {
            return Decision::Refused(Rule::Reentry, 0, self.version);
        }
        if self.above {
            return Decision::Refused(Rule::Ceiling, 0, self.version);
        }
        if self.busy {
            return Decision::Busy;
        }
        if !self.barred {
            return Decision::Started;
        }
        if self.full {
            Decision::Refused(Rule::Queue, 0, self.version)
        } else {
            Decision::Queued
        }
    }
}

/// Of a call of an operation of a suspension object (D.10): only Suspend_Until_True might block, and
/// minds who waits.
#[derive(Clone, Copy, Drop)]
pub struct SuspensionFacts {
    pub version: usize,
    pub line: usize,
    pub denied: bool,
    pub blocking: bool,
    pub waited: bool,
    pub state: bool,
}

impl SuspensionFacts {
    /// What is decided of a call of this operation.
    pub fn decision(&self, operation: SuspensionOperation) -> Decision
        ensures { (given : Option (List ℤ)) → answer_with given result
            ≡ unless_broken self.now.version self.now.line (breaks_as_suspension self.now) (due.performed self.now.state operation) }
    {
        if self.denied {
            return Decision::Refused(Rule::Grant, self.line, self.version);
        }
        if self.blocking {
            return Decision::Refused(Rule::Blocking, 0, self.version);
        }
        if self.waited {
            return Decision::Refused(Rule::Waiter, 0, self.version);
        }
        performed(self.state, operation)
    }
}

// The answer to a call of an operation of a suspension object, by its state, that no rule refuses.
fn performed(state: bool, operation: SuspensionOperation) -> Decision
    ensures { (given : Option (List ℤ)) → answer_with given result ≡ due.performed state operation }
{
    match operation {
        SuspensionOperation::SetTrue => Decision::Accepted(0),
        SuspensionOperation::SetFalse => Decision::Accepted(0),
        SuspensionOperation::CurrentState => Decision::Accepted(one_or_none(state)),
        SuspensionOperation::SuspendUntilTrue => {
            if state {
                Decision::Accepted(0)
            } else {
                Decision::Suspended
            }
        }
    }
}

// A state as a number: 1 for True.
fn one_or_none(state: bool) -> i64
    ensures { result ≡ due.one_or_none state }
{
    if state { 1 } else { 0 }
}

/// Of a delay: the version of the list, whether the actor is inside a protected action, and whether
/// the time is past (9.6, D.9).
#[derive(Clone, Copy, Drop)]
pub struct DelayFacts {
    pub version: usize,
    pub blocking: bool,
    pub over: bool,
}

impl DelayFacts {
    /// What is decided.
    pub fn decision(&self) -> Decision
        ensures { (given : Option (List ℤ)) → answer_with given result
            ≡ unless_broken self.now.version 0 (breaks_as_delay self.now) (due.delayed self.now.over) }
    {
        if self.blocking {
            return Decision::Refused(Rule::Blocking, 0, self.version);
        }
        if self.over {
            Decision::Accepted(0)
        } else {
            Decision::Delayed
        }
    }
}

/// Of a resume.
#[derive(Clone, Copy, Drop)]
pub enum ResumeFacts {
    /// The actor waits for nothing.
    Nothing,
    /// It was handed an object.
    HandedOver,
    /// It was dropped, by this line at this version of the list.
    Dropped(usize, usize),
    /// It waits: whether it is ready, and whether the host is halted.
    Waits(bool, bool),
}

impl ResumeFacts {
    /// What is decided.
    pub fn decision(&self) -> Decision
        ensures { (given : Option (List ℤ)) → answer_with given result ≡ resumed given self.now }
    {
        match *self {
            ResumeFacts::Nothing => Decision::Misuse,
            ResumeFacts::HandedOver => Decision::HandedOver,
            ResumeFacts::Dropped(line, version) => Decision::Refused(Rule::Grant, line, version),
            ResumeFacts::Waits(ready, halted) => or_waiting(ready, halted),
        }
    }
}

// Woken where it is ready; else Waiting, and on a halted host Halted.
fn or_waiting(ready: bool, halted: bool) -> Decision
    ensures { (given : Option (List ℤ)) → answer_with given result
        ≡ (if ready then answers.Woken None else (if halted then answers.Halted else answers.Waiting)) }
{
    if ready {
        return Decision::Woken;
    }
    if halted {
        Decision::Halted
    } else {
        Decision::Waiting
    }
}
