//! The asking part of a port.

ghost use Rattle.std.specs.Coded.{codes};
ghost use Rattle.std.specs.Prelude.{◌≡◌, ◌<◌, ◌+◌, ◌^◌, ℕ, ◌++◌, ◌∷◌, [], MatchResult, true, false, is_some};
ghost use Rattle.rv_turn.specs.Histories.{mine};
ghost use Rattle.rv_turn.specs.Passes.{IsWorn};
ghost use Rattle.rv_port.specs.Held.{held_past};
ghost use Rattle.rv_port.specs.Actors.{HasHandler};
ghost use Rattle.rv_port.specs.Held.{held_by};
ghost use Rattle.rv_behind.specs.Acting.{BodiesFit};
ghost use Rattle.rv_behind.specs.contracts.event.Event as e;
ghost use Rattle.rv_behind.specs.Events.{by, catalogue_of};
ghost use Rattle.rv_port.specs.Composing.{MayGo};
ghost use Rattle.rv_port.specs.Endings.{RunsCourse};
ghost use Rattle.rv_port.specs.Traces.{RepliedOnce, Settled, SettlesBehind, SettlesIf, WoreOut, IsTold, asked_again, told, drops};

use crate::bell::Bell;
use crate::ended::{Course, Ending, stop_of};
use crate::own_pass::OwnPass;
use crate::stacks::PortStack;
use rv_behind::event::Letter;
use rv_event::entry::{Answer, Next, Request};
use rv_exec::outward::Outward;
use rv_turn::Worn;
use std::alloc::Global;
use std::sync::{Arc, Wait};

/// What a body asks of: a pass of one actor, and the bell. It stands inside a port, so that nobody
/// else can ask the end of a body.
#[derive(Drop)]
pub(crate) struct Asker {
    pub(crate) pass: OwnPass,
    pub(crate) bell: Arc<Bell, Global>,
    // Whether bodies that were wanted couldn't be had.
    pub(crate) is_refused: bool,
    // How many objects the actor holds.
    pub(crate) held: u64,
    // What the run of a text has come to. Each request of a body goes on with it; only a text's run begins it anew.
    pub(crate) course: Course,
    // The stack on which its bodies and its text run.
    pub(crate) stack: PortStack,
    pub(crate) ghost given: { pass.first ≡ false },
    pub(crate) ghost fresh: { pass.base ≡ [] } by { Prim.hlevel (codes, e.the_row.coded) },
    pub(crate) ghost limited: { is_some pass.about ≡ true },
    pub(crate) ghost handles: { HasHandler (catalogue_of pass.seen) pass.actor },
    pub(crate) ghost fits: { BodiesFit pass.seen },
    pub(crate) ghost owns: { mine by pass.actor pass.seen ≡ pass.base ++ pass.own } by { Prim.hlevel (codes, e.the_row.coded) },
    pub(crate) ghost counts: { held ≡ held_by pass },
    pub(crate) ghost few: { held + pass.left < 2 ^ 63 },
}

// Whether the request is to be made again: where others hold the object, where the wait isn't over, and where a journal that lasts has
// no room now.
fn is_asked_again(is_lasting: bool, answer: &Answer) -> bool
    ensures { result ≡ asked_again is_lasting answer.now }
{
    match answer {
        Answer::Busy | Answer::Waiting => true,
        Answer::Full => is_lasting,
        _ => false,
    }
}

// What a body is told of an answer.
fn told_of(answer: &Answer) -> Answer
    ensures { result ≡ told answer.now }
{
    match *answer {
        Answer::Misuse => Answer::Full,
        other => other,
    }
}

// Whether a queued caller was dropped: others may wait behind it (9.5.3).
fn drops(answer: &Answer) -> bool
    ensures { result ≡ drops answer.now }
{
    matches!(answer, Answer::Done(Next::Dropped(_, _)))
}

// How many objects are held behind an answer. A settle ends no body.
fn held_past(held: u64, request: &Request, answer: &Answer) -> u64
    requires { held + 1 < 2 ^ 63 }
    ensures { result ≡ held_past request.now held answer.now }
{
    if matches!(request, Request::Settle) {
        return held;
    }
    match answer {
        Answer::Started(_) | Answer::Woken(Some(_)) => held + 1,
        Answer::Done(_) => held.saturating_sub(1),
        _ => held,
    }
}

impl Asker {
    /// Asks once. Err where no act is left.
    pub(crate) fn try_ask<R: Wait>(&mut self, rt: &R, letter: &mut Letter) -> Result<(), Worn>
        ensures reply { MatchResult
            result
            (λ _. RepliedOnce self.old.pass letter.old.request letter.new.answer letter.new.begun letter.new.lent self.new.pass)
            (λ _. IsWorn self.old.pass self.new.pass) }
        ensures request { letter.new.request ≡ letter.old.request }
        ensures mark { self.new.is_refused ≡ self.old.is_refused }
    {
        let Ok(()) = self.pass.send(rt, letter) else {
            return Err(Worn);
        };
        self.held = held_past(self.held, &letter.request, &letter.answer);
        Ok(())
    }

    /// Asks, and again at each ring while the answer is Busy or Waiting, and while it is Full where the journal lasts. Err where no act is
    /// left.
    pub(crate) fn insist<R: Wait>(&mut self, rt: &R, letter: &mut Letter) -> Result<(), Worn>
        ensures reply { MatchResult
            result
            (λ _. Settled self.old.pass letter.old.request letter.new.answer letter.new.begun letter.new.lent self.new.pass)
            (λ _. WoreOut self.old.pass letter.old.request self.new.pass) }
        ensures mark { self.new.is_refused ≡ self.old.is_refused }
    {
        for _ in rt.forever() {
            let rings = self.bell.rings();
            let lasting = self.pass.is_lasting();
            let Ok(()) = self.try_ask(rt, letter) else {
                return Err(Worn);
            };
            if !is_asked_again(lasting, &letter.answer) {
                self.bell.tell(&letter.answer);
                return Ok(());
            }
            self.bell.wait_past(rt, rings);
        }
        unreachable!()
    }

    // Settles the object that dropped a queued caller: while one more is dropped, one more is served (9.5.3).
    fn settle_dropped<R: Wait>(&mut self, rt: &R)
        ensures settles { SettlesIf true self.old.pass self.new.pass }
        ensures mark { self.new.is_refused ≡ self.old.is_refused }
    {
        let mut is_dropped = true;
        for _ in rt.forever() {
            if !is_dropped {
                return;
            }
            let mut letter = Letter::new(&Request::Settle);
            let Ok(()) = self.insist(rt, &mut letter) else {
                return;
            };
            is_dropped = drops(&letter.answer);
        }
        unreachable!()
    }

    /// Settles the object of a body whose end was answered so, where it dropped a queued caller. Where no act is left the object
    /// stays unsettled. The letter is made in a function of its own, so that an end that drops nobody doesn't pay for one.
    #[tactic(auto, using(crate::proofs::Settles::kept_behind, crate::proofs::Settles::dropped_behind))]
    pub(crate) fn settle<R: Wait>(&mut self, rt: &R, answer: &Answer)
        ensures settles { SettlesBehind answer.now self.old.pass self.new.pass }
        ensures mark { self.new.is_refused ≡ self.old.is_refused }
    {
        if drops(answer) {
            self.settle_dropped(rt);
        }
    }

    // Asks for a body, and settles: Full in place of Misuse, and where no act is left.
    fn ask_for_body<R: Wait>(&mut self, rt: &R, request: &Request) -> Answer
        ensures went { MayGo self.old.pass ((request.now, result) ∷ []) self.new.pass }
        ensures told { IsTold result }
        ensures mark { self.new.is_refused ≡ self.old.is_refused }
        ensures course { RunsCourse self.old.course self.old.pass ((request.now, result) ∷ []) self.new.course self.new.pass }
    {
        let course = self.course;
        let held = self.held;
        let mut letter = Letter::new(request);
        let Ok(()) = self.insist(rt, &mut letter) else {
            self.course = course.past(held, request, Some(Ending::Worn));
            return Answer::Full;
        };
        self.settle(rt, &letter.answer);
        self.course = course.past(held, request, stop_of(&letter.answer));
        told_of(&letter.answer)
    }
}

impl<R: Wait> Outward<R> for Asker {
    ghost use Rattle.std.specs.Prelude.{◌≡◌};
    ghost use Rattle.std.proofs.Common.{refl, ◌∙◌};
    ghost use Rattle.rv_port.specs.Composing.{MayGo, may_none, may_both};
    ghost use Rattle.rv_port.specs.Endings.{RunsCourse, course_both};

    ghost went = { λ s trace t. MayGo s.pass trace t.pass × (t.is_refused ≡ s.is_refused) × RunsCourse s.course s.pass trace t.course t.pass };

    #[tactic(auto, using(crate::proofs::Asking::told_stands))]
    fn ask(&mut self, rt: &R, request: Request) -> Answer {
        self.ask_for_body(rt, &request)
    }

    ghost none = { λ s. (may_none s.pass, refl, (refl, refl)) };

    ghost both = { λ s t u a b p q. (may_both s.pass t.pass u.pass a b p.0 q.0, q.1 ∙ p.1, course_both s.course t.course u.course s.pass t.pass u.pass a b p.2 q.2) };
}
