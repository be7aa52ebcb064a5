//! What `go` asks.

ghost use Rattle.std.specs.Prelude.{◌≡◌, ◌<◌, ℕ, IfOk, List, OnErr, Some, option_map};
ghost use Rattle.rv_exec.specs.Bodies.{bodies_view};
ghost use Rattle.rv_go.specs.Texts.{texts_view};
ghost use Rattle.rv_go.specs.declared.texts.Heard.{Heard};
ghost use Rattle.rv_go.specs.Goes.{task_asks, handler_asks, line_asks, asks};
ghost use Rattle.rv_go.specs.Kept.{IsKept};
ghost use Rattle.rv_go.specs.Runs.{asked_by, settled, IsText};

use crate::listening::Listener;
use crate::places::ask;
use crate::run::Text;
use crate::running::Running;
use crate::texts::Texts;
use rv_event::entry::{Mode, Request};
use rv_exec::bodies::Bodies;
use rv_host::host::Host;
use rv_shape::actor::Actor;
use rv_shape::catalogue::Catalogue;
use std::alloc::{AllocError, Global};

// The table of the bodies is taken out; where there is none yet, it is made. Err where memory was refused.
#[tactic(auto, using(crate::proofs::Keeping::table_kept, crate::proofs::Keeping::table_there))]
fn taken(
    alloc: Global,
    running: &mut Option<Running>,
    bodies: &Bodies,
) -> Result<Running, AllocError>
    ensures kept { (budget awaited : ℕ) (heard : List Heard) (listeners : List Listener)
        → IsKept (bodies_view bodies.now) budget awaited heard running.old listeners
        → IfOk result (λ r. IsKept (bodies_view bodies.now) budget awaited heard (Some r) listeners) }
    ensures err { OnErr result (running.new ≡ running.old) }
{
    match running.take() {
        Some(there) => Ok(there),
        None => Running::new(alloc, bodies),
    }
}

impl Texts {
    // What a text of an actor asks next, by its machine.
    fn text_asks(
        &mut self,
        alloc: Global,
        actor: usize,
        text: Text,
    ) -> Result<Option<Request>, AllocError>
        requires { IsText actor text }
        ensures asked { IfOk result (λ asked. asked ≡ asked_by (bodies_view self.old.bodies) self.old.budget text (settled actor self.old.heard.items)) }
        ensures same { texts_view self.new ≡ texts_view self.old }
    {
        let running = taken(alloc, &mut self.running, &self.bodies)?;
        let asked = ask(
            alloc,
            &mut self.listeners,
            &running,
            self.budget,
            &self.heard,
            actor,
            text,
            self.awaited,
        );
        self.running = Some(running);
        asked
    }

    // What a task's text asks next; without a body it asks nothing.
    fn task_asks(&mut self, alloc: Global, actor: usize) -> Result<Option<Request>, AllocError>
        ensures asked { IfOk result (λ asked. asked ≡ task_asks (texts_view self.old) actor) }
        ensures same { texts_view self.new ≡ texts_view self.old }
    {
        if self.bodies.task(actor).is_none() {
            return Ok(None);
        }
        self.text_asks(alloc, actor, Text::Task(actor))
    }

    // What a handler's text asks next for its line; without a body it asks nothing.
    fn handler_asks(
        &mut self,
        alloc: Global,
        actor: usize,
        handler: Option<(usize, usize)>,
    ) -> Result<Option<Request>, AllocError>
        requires { actor < 11 }
        ensures asked { IfOk result (λ asked. asked ≡ handler_asks (texts_view self.old) actor
            (option_map (λ p. record { object = p.0; operation = p.1 }) handler)) }
        ensures same { texts_view self.new ≡ texts_view self.old }
    {
        let Some((object, operation)) = handler else {
            return Ok(None);
        };
        if self.bodies.operation(object, operation).is_none() {
            return Ok(None);
        }
        self.text_asks(alloc, actor, Text::Handler(object, operation))
    }

    // What a line asks next: it fires where it is idle, else what its handler's text asks.
    fn line_asks(
        &mut self,
        alloc: Global,
        catalogue: &Catalogue,
        actor: usize,
        line: usize,
        mode: Mode,
    ) -> Result<Option<Request>, AllocError>
        requires { actor < 11 }
        ensures asked { IfOk result (λ asked. asked ≡ line_asks (texts_view self.old) catalogue.now actor line mode) }
        ensures same { texts_view self.new ≡ texts_view self.old }
    {
        match mode {
            Mode::Idle => Ok(Some(Request::Fire)),
            _ => self.handler_asks(alloc, actor, catalogue.handler(line)),
        }
    }

    /// What `go` asks for an actor, if there is something: a resume where the actor waits, a settle where its end left
    /// callers waiting, a fire for an idle line, else what its text asks next. A machine runs the text from where it stood at the
    /// last `go`. Err where memory was refused, as by the first `go` behind a load, or of an actor.
    pub fn asks(
        &mut self,
        alloc: Global,
        host: &Host,
        actor: usize,
    ) -> Result<Option<Request>, AllocError>
        ensures asked { IfOk result (λ asked. asked ≡ asks (texts_view self.old) host.now actor) }
        ensures same { texts_view self.new ≡ texts_view self.old }
    {
        let Some(mode) = host.mode(actor) else {
            return Ok(None);
        };
        if mode.awaits() {
            return Ok(Some(Request::Resume));
        }
        if mode.is_settling() {
            return Ok(Some(Request::Settle));
        }
        match host.catalogue().who(actor) {
            Actor::Line(line) => self.line_asks(alloc, host.catalogue(), actor, line, mode),
            Actor::Task(_, _) => self.task_asks(alloc, actor),
            Actor::Operator | Actor::Nobody => Ok(None),
        }
    }
}
