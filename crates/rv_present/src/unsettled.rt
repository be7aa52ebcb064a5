//! The bodies whose ends left their objects unsettled (9.5.3, own).

ghost use Rattle.std.specs.Prelude.{◌≡◌, ◌<◌, ◌≤◌, ◌+◌, ◌-◌, List, Some, None, length, replicate, slice_index_or, slice_set, ◌^◌, IfOk};
ghost use Rattle.rv_event.specs.Past as past;
ghost use Rattle.rv_event.specs.declared.entry.Body.{Body};
ghost use Rattle.rv_object.specs.Actions.{ObjectView};
ghost use Rattle.rv_present.specs.Limits.{most_actors};
ghost use Rattle.rv_present.specs.Unsettled.{AreAlike, AreUnsettled, CanLeave, counted};

use crate::by_actor::ByActor;
use crate::objects::Objects;
use rv_event::entry::Body;
use std::alloc::{AllocError, Global};
use std::marker::Model;

/// By actor the body whose end left its object unsettled, and how many there are.
#[derive(Drop)]
pub struct Unsettled {
    bodies: ByActor,
    number: usize,
}

impl Model for Unsettled {
    ghost use Rattle.rv_present.specs.Unsettled.{Leavers};

    ghost Value = { Leavers };

    ghost view = { λ u. record { bodies = u.bodies; number = u.number } };
}

impl Unsettled {
    /// None. Err where memory was refused.
    pub fn new(alloc: Global) -> Result<Unsettled, AllocError>
        ensures { IfOk result (λ unsettled. unsettled
            ≡ record { bodies = replicate most_actors None; number = 0 }) }
    {
        let bodies = ByActor::new(alloc)?;
        Ok(Unsettled { bodies, number: 0 })
    }

    /// The body whose end left its object unsettled, of an actor.
    pub fn of(&self, actor: usize) -> Option<Body>
        ensures { result ≡ slice_index_or self.now.bodies actor None }
    {
        self.bodies.of(actor)
    }

    /// How many there are.
    pub fn number(&self) -> usize
        ensures { result ≡ self.now.number }
    {
        self.number
    }

    // That of an actor is settled.
    fn take(&mut self, actor: usize)
        requires { actor < length self.old.bodies }
        ensures { self.new ≡ record {
          bodies = slice_set self.old.bodies actor None;
          number = self.old.number - 1;
        } }
    {
        self.bodies.put(actor, None);
        self.number = self.number.saturating_sub(1);
    }

    // One more.
    fn put(&mut self, body: Body)
        requires known { body.actor < length self.old.bodies }
        requires few { self.old.number < usize.MAX }
        ensures { self.new ≡ record {
          bodies = slice_set self.old.bodies body.actor (Some body);
          number = self.old.number + 1;
        } }
    {
        self.bodies.put(body.actor, Some(body));
        self.number += 1;
    }

    /// Whether an actor, if one is named, has an object to settle.
    pub fn has(&self, actor: Option<usize>) -> bool
        ensures { (left : List Body) (objects : List ObjectView) → AreUnsettled left self.now objects →
            self.now.number ≡ length (past.closed actor left) + counted result }
    {
        match actor {
            Some(actor) => self.of(actor).is_some(),
            None => false,
        }
    }
}

// The object that an actor has to settle is settled.
fn settle_of(unsettled: &mut Unsettled, objects: &mut Objects, actor: usize)
    requires { (left : List Body) × AreUnsettled left unsettled.old objects.old }
    ensures kept { (left : List Body) → AreUnsettled left unsettled.old objects.old →
        AreUnsettled (past.without actor left) unsettled.new objects.new }
    ensures same { length unsettled.new.bodies ≡ length unsettled.old.bodies }
    ensures alike { AreAlike objects.old objects.new }
{
    if let Some(body) = unsettled.of(actor) {
        unsettled.take(actor);
        objects.settle(body.object);
    }
}

/// The object that an actor has to settle is settled, if one settles.
pub fn settle(unsettled: &mut Unsettled, objects: &mut Objects, settles: Option<usize>)
    requires { (left : List Body) × AreUnsettled left unsettled.old objects.old }
    ensures kept { (left : List Body) → AreUnsettled left unsettled.old objects.old →
        AreUnsettled (past.closed settles left) unsettled.new objects.new }
    ensures same { length unsettled.new.bodies ≡ length unsettled.old.bodies }
    ensures alike { AreAlike objects.old objects.new }
{
    if let Some(actor) = settles {
        settle_of(unsettled, objects, actor);
    }
}

/// A body leaves its object unsettled, if one does.
pub fn leave(unsettled: &mut Unsettled, objects: &mut Objects, leaver: Option<Body>)
    requires can { (body : Body) → leaver ≡ Some body →
        (left : List Body) × CanLeave left unsettled.old objects.old body }
    requires few { unsettled.old.number < 2 ^ 32 }
    ensures kept { (left : List Body) → AreUnsettled left unsettled.old objects.old →
        AreUnsettled (past.begun leaver left) unsettled.new objects.new }
    ensures same { length unsettled.new.bodies ≡ length unsettled.old.bodies }
    ensures alike { AreAlike objects.old objects.new }
{
    if let Some(body) = leaver {
        unsettled.put(body);
        objects.unsettle(body.object);
    }
}
