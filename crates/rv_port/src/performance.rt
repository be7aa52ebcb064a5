//! One performance of a request: its answer, and where a body starts, the body and its end.

ghost use Rattle.std.specs.Prelude.{◌≡◌, ◌==◌, true, is_some, IfSome};
ghost use Rattle.rv_port.specs.Calls.{EndsIf, RanBehind, Waited, Performed, Stays, Tied};
ghost use Rattle.rv_port.specs.Ends.{ExplainedUnless};
ghost use Rattle.rv_port.specs.Reaching.{Performs, arguments_of, start_of};

use crate::asker::Asker;
use crate::body::run;
use crate::gate::Gate;
use crate::reached::{
    Reached, arguments_of, ended_as, is_wait, plain, reads, start_of, waited_for,
};
use rv_behind::event::{Begun, Letter};
use rv_event::entry::{Answer, Exit, Request};
use std::sync::Wait;

impl Asker {
    // Passes the gate, and asks for the end of a body, at whose start so many objects were held; then settles, where others
    // may wait. Where it isn't so many, the actor is left in a body that this one called: the host would take the end for that
    // of the other one.
    fn end_body<R: Wait, G: Gate<R>>(
        &mut self,
        rt: &R,
        gate: &G,
        letter: &mut Letter,
        exit: &Exit,
        held: u64,
    ) -> Reached
        ensures ends { EndsIf (self.old.held == held) self.old.pass letter.old.request exit.now result self.new.pass }
        ensures mark { self.new.is_refused ≡ self.old.is_refused }
    {
        gate.pass(rt);
        if self.held != held {
            return Reached::Stopped;
        }
        let Ok(()) = self.insist(rt, letter) else {
            return Reached::Stopped;
        };
        self.settle(rt, &letter.answer);
        ended_as(&letter.answer, exit)
    }

    // Runs the body of an operation that a letter's answer starts, with the values of a request, and asks for its end.
    fn run_begun<R: Wait, G: Gate<R>>(
        &mut self,
        rt: &R,
        gate: &G,
        letter: &mut Letter,
        begun: Begun,
        request: &Request,
    ) -> Reached
        requires { is_some (start_of letter.old.answer) ≡ true }
        ensures { IfSome (start_of letter.old.answer) (λ scalars. RanBehind letter.old.lent self.old.pass self.old.is_refused begun scalars (arguments_of request.now) result self.new.pass self.new.is_refused) }
    {
        let Some(scalars) = start_of(&letter.answer) else {
            unreachable!()
        };
        let args = arguments_of(request);
        let held = self.held;
        let exit = run(
            rt,
            self,
            &letter.lent,
            &begun,
            scalars,
            &args,
            &mut letter.request,
        );
        self.end_body(rt, gate, letter, &exit, held)
    }

    // Waits for what a request came to.
    fn resume<R: Wait, G: Gate<R>>(&mut self, rt: &R, gate: &G, request: &Request) -> Reached
        ensures { Waited self.old.pass self.old.is_refused request.now result self.new.pass self.new.is_refused }
    {
        let mut letter = Letter::new(&Request::Resume);
        let Ok(()) = self.insist(rt, &mut letter) else {
            return Reached::Stopped;
        };
        if let Answer::Woken(Some(_)) = &letter.answer {
            let begun = waited_for(request);
            return self.run_begun(rt, gate, &mut letter, begun, request);
        }
        plain(false, &letter.answer)
    }

    // One performance, by its parts. Only what rings the bell ends a wait, so a resume before it does
    // would be in vain.
    fn go<R: Wait, G: Gate<R>>(&mut self, rt: &R, gate: &G, request: &Request) -> Reached
        ensures { Performed self.old.pass self.old.is_refused request.now result self.new.pass self.new.is_refused }
    {
        let rings = self.bell.rings();
        let mut letter = Letter::new(request);
        let Ok(()) = self.insist(rt, &mut letter) else {
            return Reached::Stopped;
        };
        if let Answer::Started(_) = &letter.answer {
            let begun = letter.begun;
            return self.run_begun(rt, gate, &mut letter, begun, request);
        }
        if is_wait(&letter.answer) {
            self.bell.wait_past(rt, rings);
            return self.resume(rt, gate, request);
        }
        plain(reads(request), &letter.answer)
    }

    /// One performance of a request.
    pub(crate) fn perform<R: Wait, G: Gate<R>>(
        &mut self,
        rt: &R,
        gate: &G,
        request: &Request,
    ) -> Reached
        requires { Performs request.now }
        ensures performed { Performed self.old.pass self.old.is_refused request.now result self.new.pass self.new.is_refused }
        ensures tied { Tied self.old.pass request.now result self.new.pass }
        ensures stays { Stays self.old.pass self.new.pass }
        ensures explains { ExplainedUnless self.old.is_refused self.old.pass → ExplainedUnless self.new.is_refused self.new.pass }
    {
        self.go(rt, gate, request)
    }
}
