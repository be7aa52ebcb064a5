//! The bodies of all units loaded.

ghost use Rattle.std.specs.Prelude.{◌≡◌, ◌++◌, ◌∷◌, [], IfOk, IfSome, IsNone, OnOk, OnErr, Some, None, slice_get, map};
ghost use Rattle.rv_code.specs.BodyView.{body_view, unit_view, maybe_body_view};
ghost use Rattle.rv_exec.specs.Bodies.{operation_of, task_of, bodies_view, no_bodies, numbered, with_unit, all_of, shared_view, units_of, held};

use rv_code::{Body, UnitBodies};
use std::alloc::{AllocError, Global};
use std::sync::Arc;

/// The number of the first actor that is a task; the lower ones are the operator and the lines.
const FIRST_TASK: usize = 11;

/// The bodies of one unit, which any number of `Bodies` may hold at a time.
#[derive(Drop)]
pub struct SharedUnit {
    unit: Arc<UnitBodies, Global>,
}

impl SharedUnit {
    /// The bodies of a unit, as a text gives them. Err where memory was refused.
    pub fn new(alloc: Global, unit: UnitBodies) -> Result<SharedUnit, AllocError>
        ensures { IfOk result (λ u. held u ≡ unit) }
    {
        match Arc::new(alloc, unit) {
            Ok(unit) => Ok(SharedUnit { unit }),
            Err(_) => Err(AllocError),
        }
    }

    /// The bodies.
    pub fn bodies(&self) -> &UnitBodies
        ensures { result.now ≡ held self.now }
    {
        &self.unit
    }

    /// One more holder of the bodies. Err where there are too many.
    pub fn share(&self) -> Result<SharedUnit, AllocError>
        ensures { IfOk result (λ u. held u ≡ held self.now) }
    {
        match Arc::try_clone(&self.unit) {
            Ok(unit) => Ok(SharedUnit { unit }),
            Err(_) => Err(AllocError),
        }
    }
}

/// The bodies of the units in the order of their loads, so that objects and tasks have the numbers that the catalogue
/// gives them.
pub struct Bodies {
    alloc: Global,
    units: Vec<SharedUnit>,
}

impl Drop for Bodies {
    // A function of its own, as that of the bodies of a unit.
    fn drop(self) {
        let Bodies { alloc: _, units: _ } = self;
    }
}

impl Bodies {
    /// No bodies: nothing is loaded.
    pub fn new(alloc: Global) -> Bodies
        ensures view { bodies_view result ≡ no_bodies }
        ensures units { units_of result ≡ [] }
    {
        Bodies {
            alloc,
            units: Vec::new(alloc),
        }
    }

    /// Adds the bodies of the next unit that is loaded. Where memory is refused nothing is changed.
    pub fn add(&mut self, unit: UnitBodies) -> Result<(), AllocError>
        ensures ok { OnOk result (bodies_view self.new ≡ with_unit (unit_view unit) (bodies_view self.old)) }
        ensures err { OnErr result (bodies_view self.new ≡ bodies_view self.old) }
    {
        let unit = SharedUnit::new(self.alloc, unit)?;
        self.units.push(unit)?;
        Ok(())
    }

    /// These bodies, and those of the next unit that is loaded. Err where memory was refused.
    pub fn with(&self, unit: SharedUnit) -> Result<Bodies, AllocError>
        ensures { IfOk result (λ b. units_of b ≡ units_of self.now ++ held unit ∷ []) }
    {
        let mut units = Vec::new(self.alloc);
        for held in &self.units {
            units.push(held.share()?)?;
        }
        units.push(unit)?;
        Ok(Bodies {
            alloc: self.alloc,
            units,
        })
    }

    /// The bodies of each unit, in the order of their loads.
    pub fn units(&self) -> &[SharedUnit]
        ensures { all_of (map shared_view result.now) ≡ bodies_view self.now }
    {
        self.units.as_slice()
    }

    // The bodies of an object's operations.
    fn object(&self, number: usize) -> Option<&[Body]>
        ensures found { IfSome result (λ bodies. numbered (bodies_view self.now).objects number ≡ Some (map body_view bodies.now)) }
        ensures none { IsNone result → numbered (bodies_view self.now).objects number ≡ None }
    {
        if number < 1 {
            return None;
        }
        object_among(self.units.as_slice(), number - 1)
    }

    /// The body of an operation, by the numbers of its object and of the operation, or `None` where it has none.
    pub fn operation(&self, object: usize, operation: usize) -> Option<&Body>
        ensures found { IfSome result (λ body. operation_of (bodies_view self.now) object operation ≡ Some (body_view body.now)) }
        ensures none { IsNone result → operation_of (bodies_view self.now) object operation ≡ None }
    {
        match self.object(object) {
            Some(bodies) => operation_at(bodies, operation),
            None => None,
        }
    }

    /// The body of a task, by the number of the actor, or `None` where it has none.
    pub fn task(&self, actor: usize) -> Option<&Body>
        ensures found { IfSome result (λ body. task_of (bodies_view self.now) actor ≡ Some (body_view body.now)) }
        ensures none { IsNone result → task_of (bodies_view self.now) actor ≡ None }
    {
        if actor < FIRST_TASK {
            return None;
        }
        match task_among(self.units.as_slice(), actor - FIRST_TASK) {
            Some(body) => body.as_ref(),
            None => None,
        }
    }
}

// The bodies of the object at an index, among those of all units.
#[tactic(auto, using(crate::proofs::Units::found_front, crate::proofs::Units::none_front, crate::proofs::Units::behind))]
fn object_among(units: &[SharedUnit], index: usize) -> Option<&[Body]>
    ensures found { IfSome result (λ bodies. slice_get (all_of (map shared_view units.now)).objects index ≡ Some (map body_view bodies.now)) }
    ensures none { IsNone result → slice_get (all_of (map shared_view units.now)).objects index ≡ None }
{
    let (first, rest) = units.split_first()?;
    let count = first.unit.objects.len();
    if index < count {
        return first.unit.operations(index);
    }
    object_among(rest, index - count)
}

// The task at an index, among those of all units.
#[tactic(auto, using(crate::proofs::Units::front, crate::proofs::Units::behind))]
fn task_among(units: &[SharedUnit], index: usize) -> Option<&Option<Body>>
    ensures found { IfSome result (λ task. slice_get (all_of (map shared_view units.now)).tasks index ≡ Some (maybe_body_view task.now)) }
    ensures none { IsNone result → slice_get (all_of (map shared_view units.now)).tasks index ≡ None }
{
    let (first, rest) = units.split_first()?;
    let tasks = &first.unit.tasks;
    if index < tasks.len() {
        return tasks.get(index);
    }
    task_among(rest, index - tasks.len())
}

fn operation_at(bodies: &[Body], operation: usize) -> Option<&Body>
    ensures found { IfSome result (λ body. numbered (map body_view bodies.now) operation ≡ Some (body_view body.now)) }
    ensures none { IsNone result → numbered (map body_view bodies.now) operation ≡ None }
{
    if operation < 1 {
        return None;
    }
    bodies.get(operation - 1)
}
