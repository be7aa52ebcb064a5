//! Which bodies are under way, and which call each actor had queued last.

ghost use Rattle.std.specs.Prelude.{◌≡◌, ◌==◌, ◌∷◌, [], List, OnOk, slice_get};
ghost use Rattle.std.specs.List.{filter};
ghost use Rattle.rv_shape.specs.Shape.{Shape};
ghost use Rattle.rv_event.specs.Lent.{whole};
ghost use Rattle.rv_event.specs.Past.{begun, closed, innermost, last_queued, without};
ghost use Rattle.rv_event.specs.declared.entry.Entry.{Entry};
ghost use Rattle.rv_history.specs.History.{History};
ghost use Rattle.rv_history.specs.Subject.{subject, home};
ghost use Rattle.rv_shape.specs.Readers.{who_of};
ghost use Rattle.rv_asked.specs.Holding.{Keeps};

use rv_event::entry::{Body, EntryRef};
use rv_event::one_entry::ended;
use rv_lasting::calls::Calls;
use rv_lasting::entries::started_by;
use rv_shape::actor::Actor;
use rv_shape::catalogue::Catalogue;
use std::alloc::{AllocError, Global};

/// The bodies that are under way (9.5.1), the newest first, and the last queued call of each actor (9.5.3).
pub struct Holding {
    calls: Calls,
    bodies: Vec<Body>,
}

impl Drop for Holding {
    // A function of its own: a derived one is written out wherever one is let go, and proved there.
    fn drop(self) {
        let Holding {
            calls: _,
            bodies: _,
        } = self;
    }
}

// The first of these bodies that is an actor's.
fn first_of(bodies: &[Body], actor: usize) -> Option<Body>
    ensures { result ≡ slice_get (filter (λ body. body.actor == actor) bodies.now) 0 }
{
    for body in bodies {
        if body.actor == actor {
            return Some(*body);
        }
    }
    None
}

// Takes the first of an actor out, if it has one.
fn take_out(bodies: &mut Vec<Body>, actor: usize)
    ensures { bodies.new.items ≡ without actor bodies.old.items }
{
    for at in 0..bodies.len() {
        if bodies[at].actor == actor {
            bodies.remove(at);
            return;
        }
    }
}

// The home of an actor: of a task its unit, of a line `Interrupts`.
fn home<'c>(who: &Actor<'c>) -> &'c str
    ensures { result.now ≡ home (who_of who.now) }
{
    match *who {
        Actor::Operator | Actor::Nobody => "",
        Actor::Line(_) => "Interrupts",
        Actor::Task(shape, _) => shape.name(),
    }
}

impl Holding {
    /// Before the first entry.
    pub fn new(alloc: Global) -> Holding
        ensures { (shapes : List Shape) → Keeps result shapes [] }
    {
        Holding {
            calls: Calls::new(alloc),
            bodies: Vec::new(alloc),
        }
    }

    /// The call that an actor had queued last.
    pub fn call(&self, actor: usize) -> Option<Body>
        ensures { (shapes : List Shape) (past : List Entry) → Keeps self.now shapes past → result ≡ last_queued actor past }
    {
        self.calls.of(actor)
    }

    /// The body that an actor is in.
    pub(crate) fn innermost(&self, actor: usize) -> Option<Body>
        ensures { (shapes : List Shape) (past : List Entry) → Keeps self.now shapes past → result ≡ innermost shapes actor past }
    {
        first_of(self.bodies.as_slice(), actor)
    }

    /// The subject of a call by an actor: the unit of the innermost object that it holds, else its home.
    pub fn subject<'c>(&self, catalogue: &'c Catalogue, actor: usize) -> &'c str
        ensures { (h : History) → catalogue.now ≡ h.shapes → Keeps self.now h.shapes h.past → result.now ≡ subject h actor }
    {
        let Some(body) = self.innermost(actor) else {
            return home(&catalogue.who(actor));
        };
        match catalogue.object(body.object) {
            Some((shape, _)) => shape.name(),
            None => "",
        }
    }

    // The body of an actor ends, if one's does.
    fn end(&mut self, actor: Option<usize>)
        ensures bodies { self.new.bodies.items ≡ closed actor self.old.bodies.items }
        ensures calls { self.new.calls ≡ self.old.calls }
    {
        let Some(actor) = actor else {
            return;
        };
        take_out(&mut self.bodies, actor);
    }

    // One begins, if one does.
    fn begin(&mut self, body: Option<Body>) -> Result<(), AllocError>
        ensures bodies { OnOk result (self.new.bodies.items ≡ begun body self.old.bodies.items) }
        ensures calls { self.new.calls ≡ self.old.calls }
    {
        if let Some(body) = body {
            self.bodies.insert(0, body)?;
        }
        Ok(())
    }

    /// Notes an entry. Err where memory was refused.
    pub fn note(&mut self, catalogue: &Catalogue, entry: &EntryRef<'_>) -> Result<(), AllocError>
        ensures { OnOk result ((past : List Entry) → Keeps self.old catalogue.now past → Keeps self.new catalogue.now (whole entry.now ∷ past)) }
    {
        let started = started_by(catalogue, &self.calls, entry);
        self.end(ended(entry));
        self.begin(started)?;
        self.calls.note(entry)
    }
}
