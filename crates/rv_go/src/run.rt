//! A machine that runs an actor's text, and goes on by the actor's answers.

ghost use Rattle.std.specs.Prelude.{◌≡◌, ◌∷◌, ◌++◌, [], IfOk, IsTrue, IsFalse, not, ◌&&◌, ℕ, List, Option, length, get_or, ◌<◌, ◌≤◌, ◌+◌};
ghost use Rattle.rv_event.specs.declared.entry.Answer.{Answer};
ghost use Rattle.rv_event.specs.declared.entry.Request.{Request};
ghost use Rattle.rv_exec.specs.Next.{settling};
ghost use Rattle.rv_flat.specs.FlatUnits.{flat_view};
ghost use Rattle.rv_go.specs.Runs.{asked_by, is_of_task, IsBehind, IsRun};
ghost use Rattle.rv_machine.specs.Machines.{Fits};
ghost use Rattle.rv_machine.specs.Needs.{IsNeed};

use rv_event::entry::{Answer, Request};
use rv_exec::outward::stands;
use rv_flat::unit::FlatUnit;
use rv_machine::machine::Machine;
use rv_machine::needs::Need;
use rv_machine::next::Next;
use std::alloc::{AllocError, Global};

/// The text of an actor: the meaning of one of its bodies.
#[derive(Clone, Copy, Drop)]
pub enum Text {
    /// That of a task's own body, by the number of the actor (9.1).
    Task(usize),
    /// That of a line's handler, by the numbers of the object and of the operation (C.3).
    Handler(usize, usize),
}

/// A machine that runs an actor's text, kept from one `go` to the next.
#[derive(Drop)]
pub struct Run {
    pub text: Text,
    /// How many of the answers that are kept it has looked at.
    pub looked: usize,
    pub machine: Machine,
}

impl Text {
    /// Whether both are the same.
    pub fn is(self, other: Text) -> bool
        ensures yes { IsTrue result → self ≡ other }
        ensures no { IsFalse result → self ≡ other → ⊥ }
    {
        match (self, other) {
            (Text::Task(one), Text::Task(actor)) => one == actor,
            (Text::Handler(one, first), Text::Handler(object, operation)) => {
                one == object && first == operation
            }
            _ => false,
        }
    }

    /// Whether it goes on without the answers that it went on by, unless all are kept: only that of a task's own body does.
    pub fn forgets(self, keeps: bool) -> bool
        ensures { result ≡ (is_of_task self && not keeps) }
    {
        match self {
            Text::Task(_) => !keeps,
            Text::Handler(_, _) => false,
        }
    }

    /// A machine at the start of the text, by the bodies of a table; a task's own body may make so many requests. Err where memory
    /// was refused.
    pub fn begin(
        self,
        alloc: Global,
        table: &FlatUnit,
        need: Need,
        budget: u32,
    ) -> Result<Machine, AllocError>
        requires { IsNeed table.now need }
        ensures fits { IfOk result (Fits table.now) }
        ensures begins { IfOk result (IsBehind table.now (asked_by (flat_view table.now) budget self) []) }
    {
        let stack = Machine::reserve(alloc, table, need)?;
        match self {
            Text::Task(actor) => Ok(Machine::start_task(stack, table, actor, budget)),
            Text::Handler(object, operation) => {
                Ok(Machine::start_line(stack, table, object, operation))
            }
        }
    }
}

// What a machine asks next, or `None` where its text has ended.
fn next_of(machine: &mut Machine, table: &FlatUnit) -> Option<Request>
    requires { Fits table.now machine.old }
    ensures fits { Fits table.now machine.new }
    ensures asked { (asks : List Answer → Option Request) (given : List Answer) → IsBehind table.now asks given machine.old → result ≡ asks given }
    ensures behind { (asks : List Answer → Option Request) (given : List Answer) → IsBehind table.now asks given machine.old → IsBehind table.now asks given machine.new }
{
    match machine.next(table) {
        Next::Asks(request) => Some(request),
        Next::Ended(_) => None,
    }
}

// A machine goes on by an answer to what it asks next; one whose text has ended stays.
fn go_on(machine: &mut Machine, table: &FlatUnit, answer: Answer)
    requires { Fits table.now machine.old }
    ensures fits { Fits table.now machine.new }
    ensures behind { (asks : List Answer → Option Request) (given : List Answer) → IsBehind table.now asks given machine.old → IsBehind table.now asks (given ++ answer ∷ []) machine.new }
{
    match machine.next(table) {
        Next::Asks(_) => machine.answer(table, answer),
        Next::Ended(_) => {}
    }
}

// A machine goes on by an answer that settles its request.
fn settle(machine: &mut Machine, table: &FlatUnit, answer: Answer)
    requires { Fits table.now machine.old }
    ensures fits { Fits table.now machine.new }
    ensures behind { (asks : List Answer → Option Request) (given : List Answer) → IsBehind table.now asks (settling given) machine.old → IsBehind table.now asks (settling (given ++ answer ∷ [])) machine.new }
{
    if stands(&answer) {
        return;
    }
    go_on(machine, table, answer);
}

impl Run {
    /// A machine that has looked at nothing yet. Err where memory was refused.
    pub fn new(
        alloc: Global,
        table: &FlatUnit,
        need: Need,
        budget: u32,
        text: Text,
    ) -> Result<Run, AllocError>
        requires { IsNeed table.now need }
        ensures text { IfOk result (λ run. run.text ≡ text) }
        ensures run { IfOk result (λ run. (kept : List Answer) → IsRun table.now budget [] kept run) }
    {
        let machine = text.begin(alloc, table, need, budget)?;
        Ok(Run {
            text,
            looked: 0,
            machine,
        })
    }

    // Looks at the next of the answers that are kept.
    fn look(&mut self, table: &FlatUnit, answer: &Answer)
        requires fits { Fits table.now self.old.machine }
        requires before { self.old.looked < 18446744073709551615 }
        ensures run { (budget : ℕ) (before kept : List Answer) → self.old.looked < length kept → answer.now ≡ get_or kept self.old.looked answer.now
            → IsRun table.now budget before kept self.old → IsRun table.now budget before kept self.new }
        ensures fits { Fits table.now self.new.machine }
        ensures next { self.new.looked ≡ self.old.looked + 1 }
        ensures text { self.new.text ≡ self.old.text }
    {
        settle(&mut self.machine, table, *answer);
        self.looked += 1;
    }

    // Looks at all answers that are kept.
    fn catch_up(&mut self, table: &FlatUnit, answers: &[Answer])
        requires fits { Fits table.now self.old.machine }
        requires within { self.old.looked ≤ length answers.now }
        ensures run { (budget : ℕ) (before : List Answer) → IsRun table.now budget before answers.now self.old → IsRun table.now budget before answers.now self.new }
        ensures fits { Fits table.now self.new.machine }
        ensures all { self.new.looked ≡ length answers.now }
        ensures text { self.new.text ≡ self.old.text }
    {
        'kept: while self.looked < answers.len() {
            let answer = &answers[self.looked];
            self.look(table, answer);
        }
    }

    /// What the text asks next, behind all answers that are kept.
    pub fn asks(&mut self, table: &FlatUnit, answers: &[Answer]) -> Option<Request>
        requires fits { Fits table.now self.old.machine }
        requires within { self.old.looked ≤ length answers.now }
        ensures run { (budget : ℕ) (before : List Answer) → IsRun table.now budget before answers.now self.old → IsRun table.now budget before answers.now self.new }
        ensures asked { (budget : ℕ) (before : List Answer) → IsRun table.now budget before answers.now self.old
            → result ≡ asked_by (flat_view table.now) budget self.old.text (settling (before ++ answers.now)) }
        ensures all { self.new.looked ≡ length answers.now }
        ensures text { self.new.text ≡ self.old.text }
    {
        self.catch_up(table, answers);
        next_of(&mut self.machine, table)
    }
}
