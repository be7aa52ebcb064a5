//! Units that are a shape alone.

ghost use Rattle.std.specs.Prelude.{◌≡◌, ◌∷◌, [], map, length, replicate, None, IfOk};
ghost use Rattle.rv_code.specs.Bodies.{bodiless, without_bodies};
ghost use Rattle.rv_code.specs.BodyView.{object_view, maybe_body_view, unit_view};

use crate::body::{Body, ObjectBodies, UnitBodies};
use rv_shape::shape::UnitShape;
use std::alloc::{AllocError, Global};

// The list without bodies.
fn no_list(alloc: Global) -> Result<Vec<ObjectBodies>, AllocError>
    ensures lists { IfOk result (λ lists. map object_view lists.items ≡ [] ∷ []) }
    ensures count { IfOk result (λ lists. length lists.items ≡ 1) }
{
    let mut lists = Vec::new(alloc);
    lists.push(ObjectBodies {
        operations: Vec::new(alloc),
    })?;
    Ok(lists)
}

// So many tasks without a body.
fn tasks_without(alloc: Global, count: usize) -> Result<Vec<Option<Body>>, AllocError>
    ensures { IfOk result (λ tasks. map maybe_body_view tasks.items ≡ replicate count None) }
{
    let mut tasks = Vec::new(alloc);
    for _ in 0..count {
        tasks.push(None)?;
    }
    Ok(tasks)
}

impl UnitBodies {
    #[tactic(auto, using(crate::proofs::Listed::within_first, crate::proofs::Listed::views_first))]
    /// Those of so many objects and tasks, none of which has a body. Err where memory was refused.
    pub fn empty(alloc: Global, objects: usize, tasks: usize) -> Result<UnitBodies, AllocError>
        ensures view { IfOk result (λ bodies. unit_view bodies ≡ bodiless objects tasks) }
        ensures count { IfOk result (λ bodies. length bodies.objects.items ≡ objects) }
    {
        let lists = no_list(alloc)?;
        let objects = vec![in alloc; 0; objects]?;
        let tasks = tasks_without(alloc, tasks)?;
        Ok(UnitBodies {
            lists,
            objects,
            tasks,
        })
    }

    /// The bodies of a unit that is a shape alone: none of its operations and tasks has one. Err where memory was
    /// refused.
    pub fn of_shape(alloc: Global, shape: &UnitShape) -> Result<UnitBodies, AllocError>
        ensures { IfOk result (λ bodies. unit_view bodies ≡ without_bodies shape.now) }
    {
        UnitBodies::empty(alloc, shape.objects().len(), shape.tasks().len())
    }
}
