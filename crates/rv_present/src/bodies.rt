//! The bodies under way, by actor and by object.

ghost use Rattle.std.specs.Prelude.{◌≡◌, ◌<◌, ◌≤◌, ◌+◌, ◌∷◌, ◌^◌, if◌then◌else◌, List, [], ℕ, Some, false, length, slice_index_or, replicate, IfOk};
ghost use Rattle.rv_event.specs.Lent.{whole};
ghost use Rattle.rv_event.specs.Past as past;
ghost use Rattle.rv_event.specs.declared.entry.Body.{Body};
ghost use Rattle.rv_object.specs.Actions.{excludes};
ghost use Rattle.rv_object.specs.declared.action.Action.TheVariants.{Shared, Exclusive};
ghost use Rattle.rv_present.specs.Bodies.{IsBodies, IsReady};
ghost use Rattle.rv_present.specs.Ends.{left_after, left_by};
ghost use Rattle.rv_present.specs.Holdings.{action_of, idle};
ghost use Rattle.rv_present.specs.Limits.{most_actors, most_places};
ghost use Rattle.rv_present.specs.Unsettled.{counted};
ghost use Rattle.rv_shape.specs.Catalogue as catalogues;
ghost use Rattle.rv_shape.specs.Shape.{Shape};

use crate::objects::Objects;
use crate::stacks::Stacks;
use rv_event::entry::{Body, EntryRef, Request};
use rv_object::Action;
use rv_prio::Held;
use rv_shape::catalogue::Catalogue;
use rv_shape::object::Object as DeclaredObject;
use rv_value::Scalars;
use std::alloc::{AllocError, Global};

// Whether an operation is a function, which shares its object with other functions (9.5.1).
fn is_shared(catalogue: &Catalogue, object: usize, operation: usize) -> bool
    ensures { result ≡ catalogues.shares (catalogues.target catalogue.now object operation) }
{
    match catalogue.operation(object, operation) {
        Some((_, _, found)) => found.kind().is_function(),
        None => false,
    }
}

// The ceiling of an object, 0 where there is none (D.3).
fn ceiling_of(catalogue: &Catalogue, object: usize) -> usize
    ensures { result ≡ catalogues.ceiling catalogue.now object }
{
    match catalogue.object(object) {
        Some((_, DeclaredObject::Protected(found))) => found.ceiling(),
        _ => 0,
    }
}

// The action of an actor's body, which is shared or not.
fn action_as(shared: bool, actor: usize) -> Action
    ensures { result ≡ (if shared then Shared else Exclusive actor) }
{
    if shared {
        Action::Shared
    } else {
        Action::Exclusive(actor)
    }
}

// The action of an actor's body of an operation on its object.
fn action_by(catalogue: &Catalogue, actor: usize, object: usize, operation: usize) -> Action
    ensures { result
        ≡ action_of catalogue.now (record {
          actor = actor;
          object = object;
          operation = operation;
        }) }
{
    action_as(is_shared(catalogue, object, operation), actor)
}

// The action of a body, and the ceiling of its object: both by one look at its operation.
#[tactic(auto, using(crate::proofs::Sites::ceiling_found))]
fn action_under(catalogue: &Catalogue, body: Body) -> (Action, usize)
    ensures action { result.0 ≡ action_of catalogue.now body }
    ensures ceiling { result.1 ≡ catalogues.ceiling catalogue.now body.object }
{
    match catalogue.operation(body.object, body.operation) {
        Some((_, object, found)) => {
            let action = action_as(found.kind().is_function(), body.actor);
            (action, object.ceiling())
        }
        None => (
            Action::Exclusive(body.actor),
            ceiling_of(catalogue, body.object),
        ),
    }
}

/// The bodies under way: the stack of each actor, the actions on each object with its scalars, and
/// how many there are.
#[derive(Drop)]
pub struct Bodies {
    pub stacks: Stacks,
    pub objects: Objects,
    pub number: usize,
}

impl Bodies {
    /// None, in no object that there is. Err where memory was refused.
    pub fn new(alloc: Global) -> Result<Bodies, AllocError>
        ensures { IfOk result (λ bodies. bodies
            ≡ record {
              stacks = replicate most_actors [];
              objects = replicate most_places idle;
              number = 0;
            }) }
    {
        let stacks = Stacks::new(alloc)?;
        let objects = Objects::new(alloc)?;
        Ok(Bodies {
            stacks,
            objects,
            number: 0,
        })
    }

    /// What an entry ends and starts.
    #[inline(always)]
    pub fn note(&mut self, catalogue: &Catalogue, entry: &EntryRef, start: Option<Body>)
        requires ready { (bodies : List Body) × IsReady catalogue.now bodies self.old (whole entry.now) start }
        requires settled { (body : Body) → start ≡ Some body →
            (slice_index_or self.old.objects body.object idle).unsettled ≡ false }
        ensures same { (length self.new.stacks ≡ length self.old.stacks) ×
            (length self.new.objects ≡ length self.old.objects) }
        ensures kept { (bodies : List Body) → IsBodies catalogue.now bodies self.old →
            IsBodies catalogue.now (past.begun start (past.closed (past.ended (whole entry.now)) bodies)) self.new }
        ensures scalars { (bodies : List Body) → IsBodies catalogue.now bodies self.old → (o : ℕ) →
            (slice_index_or self.new.objects o idle).scalars
            ≡ left_after catalogue.now o bodies (whole entry.now) (slice_index_or self.old.objects o idle).scalars }
        ensures unsettled { (o : ℕ) → (slice_index_or self.new.objects o idle).unsettled
            ≡ (slice_index_or self.old.objects o idle).unsettled }
    {
        self.end_if(catalogue, entry);
        if let Some(body) = start {
            self.begin(catalogue, body);
        }
    }

    /// Whether an actor, if one is named, is in a body.
    pub fn has(&self, actor: Option<usize>) -> bool
        ensures { (shapes : List Shape) (bodies : List Body) → IsBodies shapes bodies self.now →
            self.now.number ≡ length (past.closed actor bodies) + counted result }
    {
        match actor {
            Some(actor) => self.stacks.of(actor).innermost().is_some(),
            None => false,
        }
    }

    // What an entry ends.
    #[inline(always)]
    fn end_if(&mut self, catalogue: &Catalogue, entry: &EntryRef)
        requires { (bodies : List Body) × IsBodies catalogue.now bodies self.old }
        ensures same { (length self.new.stacks ≡ length self.old.stacks) ×
            (length self.new.objects ≡ length self.old.objects) }
        ensures kept { (bodies : List Body) → IsBodies catalogue.now bodies self.old →
            IsBodies catalogue.now (past.closed (past.ended (whole entry.now)) bodies) self.new }
        ensures scalars { (bodies : List Body) → IsBodies catalogue.now bodies self.old → (o : ℕ) →
            (slice_index_or self.new.objects o idle).scalars
            ≡ left_after catalogue.now o bodies (whole entry.now) (slice_index_or self.old.objects o idle).scalars }
        ensures unsettled { (o : ℕ) → (slice_index_or self.new.objects o idle).unsettled
            ≡ (slice_index_or self.old.objects o idle).unsettled }
    {
        match entry {
            EntryRef::Asked(actor, Request::Complete(given, _), _) => {
                self.end(catalogue, *actor, given);
            }
            _ => {}
        }
    }

    /// A body starts.
    pub fn begin(&mut self, catalogue: &Catalogue, body: Body)
        requires actor { body.actor < length self.old.stacks }
        requires object { body.object < length self.old.objects }
        requires room { length (slice_index_or self.old.stacks body.actor []) < 16 }
        requires free { excludes (slice_index_or self.old.objects body.object idle).actions
            (action_of catalogue.now body) ≡ false }
        requires settled { (slice_index_or self.old.objects body.object idle).unsettled ≡ false }
        requires few { self.old.number < 2 ^ 32 }
        requires sound { (bodies : List Body) × IsBodies catalogue.now bodies self.old }
        ensures kept { (bodies : List Body) → IsBodies catalogue.now bodies self.old →
            IsBodies catalogue.now (body ∷ bodies) self.new }
        ensures same { (length self.new.stacks ≡ length self.old.stacks) ×
            (length self.new.objects ≡ length self.old.objects) }
        ensures scalars { (o : ℕ) →
            (slice_index_or self.new.objects o idle).scalars
            ≡ (slice_index_or self.old.objects o idle).scalars }
        ensures unsettled { (o : ℕ) → (slice_index_or self.new.objects o idle).unsettled
            ≡ (slice_index_or self.old.objects o idle).unsettled }
    {
        let (action, ceiling) = action_under(catalogue, body);
        self.stacks.begin(
            body.actor,
            Held {
                object: body.object,
                operation: body.operation,
                ceiling,
            },
        );
        self.objects.begin(body.object, action);
        self.number += 1;
    }

    /// An actor ends its innermost body, if it is in one.
    pub fn end(&mut self, catalogue: &Catalogue, actor: usize, given: &Scalars)
        requires { (bodies : List Body) × IsBodies catalogue.now bodies self.old }
        ensures same { (length self.new.stacks ≡ length self.old.stacks) ×
            (length self.new.objects ≡ length self.old.objects) }
        ensures kept { (bodies : List Body) → IsBodies catalogue.now bodies self.old →
            IsBodies catalogue.now (past.without actor bodies) self.new }
        ensures scalars { (bodies : List Body) → IsBodies catalogue.now bodies self.old → (o : ℕ) →
            (slice_index_or self.new.objects o idle).scalars
            ≡ left_by catalogue.now o bodies actor given.now (slice_index_or self.old.objects o idle).scalars }
        ensures unsettled { (o : ℕ) → (slice_index_or self.new.objects o idle).unsettled
            ≡ (slice_index_or self.old.objects o idle).unsettled }
    {
        let Some(held) = self.stacks.of(actor).innermost() else {
            return;
        };
        let action = action_by(catalogue, actor, held.object, held.operation);
        self.stacks.end(actor);
        self.objects.end(held.object, action, given);
        self.number -= 1;
    }
}
