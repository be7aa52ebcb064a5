//! The text of a port's task, run to its end.

ghost use Rattle.std.specs.Prelude.{◌≡◌, ℕ, Option, Some, IfOk, OnErr};
ghost use Rattle.rv_exec.specs.Bodies.{bodies_view, task_of};
ghost use Rattle.rv_turn.specs.Passes.{Acted, IsWorn};
ghost use Rattle.rv_behind.specs.Acting.{Does};
ghost use Rattle.rv_behind.specs.Events.{by};
ghost use Rattle.rv_behind.specs.declared.event.Lent.{Lent as Brought};
ghost use Rattle.rv_machine.specs.Machines.{IsFor};
ghost use Rattle.rv_port.specs.Traces.{Trace, Went};
ghost use Rattle.rv_port.specs.Calls.{Stays};
ghost use Rattle.rv_port.specs.Endings.{OwnGoes, TextEnded, TextGoes, own_ending};
ghost use Rattle.rv_port.specs.Following.{FollowsUnless};
ghost use Rattle.rv_port.specs.Ports.{pass_of, IsExplained};
ghost use Rattle.rv_port.specs.Texts.{TextRan, TextRuns};

use crate::asker::Asker;
use crate::budget::Budget;
use crate::ended::{Course, Ending};
use crate::port::Port;
use rv_behind::event::{Ask, Lent, Reply};
use rv_event::entry::Exit;
use rv_exec::bodies::Bodies;
use rv_machine::stack::Stack;
use rv_outside::run_text;
use rv_runs::ready::Ready;
use rv_turn::Worn;
use std::sync::Wait;

// How a text ended that exited so, by its run: where its task has a body.
fn ending_by(bodies: &Bodies, actor: usize, exit: &Exit, budget: u32, course: Course) -> Ending
    ensures { result ≡ own_ending (task_of (bodies_view bodies.now) actor) exit.now budget course }
{
    match bodies.task(actor) {
        Some(_) => course.ending(exit, budget),
        None => Ending::NoBodies,
    }
}

impl Asker {
    // The bodies of all units loaded so far. Err where no act is left.
    fn borrow<R: Wait>(&mut self, rt: &R) -> Result<Option<Lent>, Worn>
        ensures borrows { IfOk result (λ lent. Acted by Does self.old.pass Ask.Bodies (Reply.Bodies lent) self.new.pass) }
        ensures worn { OnErr result (IsWorn self.old.pass self.new.pass) }
        ensures mark { self.new.is_refused ≡ self.old.is_refused }
    {
        let Ok(reply) = self.pass.act(rt, Ask::Bodies) else {
            return Err(Worn);
        };
        match reply {
            Reply::Bodies(lent) => Ok(lent),
            _ => unreachable!(),
        }
    }

    // Runs the text of the actor's task, of these bodies.
    fn run_text<R: Wait>(
        &mut self,
        rt: &R,
        ready: &Ready,
        stack: Stack,
        budget: u32,
    ) -> (Exit, Ending)
        requires { IsFor ready.now.table.unit stack }
        ensures runs { (trace : Trace) × TextRuns (Some (bodies_view ready.now.bodies)) self.old.pass.actor budget trace result.0 × Went self.old.pass trace self.new.pass
            × OwnGoes (task_of (bodies_view ready.now.bodies) self.old.pass.actor) budget result.0 self.old.pass trace self.new.pass result.1 }
        ensures mark { self.new.is_refused ≡ self.old.is_refused }
    {
        let actor = self.pass.actor() as usize;
        self.course = Course::fresh(budget);
        let (exit, stack) = run_text(rt, ready, stack, actor, budget, self);
        self.stack.put_back(stack);
        let ending = ending_by(&ready.bodies, actor, &exit, budget, self.course);
        (exit, ending)
    }

    // Runs no text, since the bodies couldn't be had; the port is marked.
    fn run_nothing(&mut self) -> (Exit, Ending)
        ensures { (lent : Option Brought) (budget : ℕ) → TextGoes lent self.old.pass self.old.is_refused budget result.0 result.1 self.new.pass self.new.is_refused }
    {
        self.is_refused = true;
        (Exit::Stopped, Ending::NoBodies)
    }

    // Runs the text of the actor's task by these bodies. Where they couldn't be had, or a stack for their run, it asks nothing.
    fn run_lent<R: Wait>(&mut self, rt: &R, lent: &Option<Lent>, budget: u32) -> (Exit, Ending)
        ensures { TextGoes lent.now self.old.pass self.old.is_refused budget result.0 result.1 self.new.pass self.new.is_refused }
    {
        let Some(lent) = lent else {
            return self.run_nothing();
        };
        let ready = &*lent.bodies;
        match self.stack.taken(rt, &ready.table) {
            Some(stack) => self.run_text(rt, ready, stack, budget),
            None => self.run_nothing(),
        }
    }

    // Runs the text of the actor's task, if it holds nothing.
    fn go_on<R: Wait>(&mut self, rt: &R, budget: u32) -> (Exit, Ending)
        ensures ran { TextRan self.old.pass self.old.is_refused budget result.0 self.new.pass self.new.is_refused }
        ensures ended { TextEnded self.old.pass self.old.is_refused budget result.0 result.1 self.new.pass self.new.is_refused }
    {
        if self.held > 0 {
            return (Exit::Stopped, Ending::LeftInBody);
        }
        let Ok(lent) = self.borrow(rt) else {
            return (Exit::Stopped, Ending::Worn);
        };
        self.run_lent(rt, &lent, budget)
    }
}

impl Port {
    // Runs the text of the port's task to its end, with so many requests of its own.
    fn run_within<R: Wait>(&mut self, rt: &R, budget: u32) -> (Exit, Ending)
        ensures ran { TextRan (pass_of self.old) self.old.refused budget result.0 (pass_of self.new) self.new.refused }
        ensures ended { TextEnded (pass_of self.old) self.old.refused budget result.0 result.1 (pass_of self.new) self.new.refused }
        ensures stays { Stays (pass_of self.old) (pass_of self.new) }
        ensures explained { IsExplained self.new }
        ensures followed { FollowsUnless self.new.refused budget (pass_of self.old) (pass_of self.new) }
    {
        self.asker.go_on(rt, budget)
    }

    /// Runs the text of the port's task to its end (9.2, 9.3), by the bodies of the units loaded so
    /// far: its own body, which may make so many requests, 1 to 4,294,967,295, and each body that starts
    /// for it. The last request is Quit, where the task's mode allows it. Where no act is left, or
    /// the task was left in a body, it is stopped at once; where the bodies have too many holders
    /// too, and the port is marked. The text runs on a stack of the port's own, and takes no memory. It gives how the text
    /// exited, and why it ended.
    pub fn run_text<R: Wait>(&mut self, rt: &R, budget: Budget) -> (Exit, Ending)
        ensures ran { TextRan (pass_of self.old) self.old.refused budget result.0 (pass_of self.new) self.new.refused }
        ensures ended { TextEnded (pass_of self.old) self.old.refused budget result.0 result.1 (pass_of self.new) self.new.refused }
        ensures stays { Stays (pass_of self.old) (pass_of self.new) }
        ensures explained { IsExplained self.new }
        ensures followed { FollowsUnless self.new.refused budget (pass_of self.old) (pass_of self.new) }
    {
        self.run_within(rt, budget.requests())
    }
}
