//! The bodies of a unit over one table.

ghost use Rattle.std.specs.Prelude.{◌≡◌, ◌++◌, ℕ, List, Option, IfOk, OnOk, map, slice_get};
ghost use Rattle.rv_code.specs.Bodies.{Body as Meant};
ghost use Rattle.rv_code.specs.BodyView.{body_view, object_view, maybe_body_view, unit_view};
ghost use Rattle.rv_flat.specs.FlatView.{IsAmong, body_in};
ghost use Rattle.rv_flat.specs.FlatUnits.{Standing, Every, IsObjectAmong, IsTaskAmong, listed_in, object_in, task_in, flat_view};
ghost use Rattle.rv_flat.specs.Tables.{trees};
ghost use Rattle.rv_flat.specs.Trees.{Tree};

use crate::body::FlatBody;
use crate::code::Code;
use rv_code::{Body, ObjectBodies, UnitBodies};
use std::alloc::{AllocError, Global};

/// The bodies of an object's operations, in the order of their numbers.
#[derive(Drop)]
pub struct FlatObject {
    pub operations: Vec<FlatBody>,
}

/// The bodies of a unit, in the order of the numbers of its objects and of its tasks, over one table.
#[derive(Drop)]
pub struct FlatUnit {
    /// The table in which they stand.
    pub code: Code,
    pub objects: Vec<FlatObject>,
    pub tasks: Vec<Option<FlatBody>>,
}

fn add_operations(
    code: &mut Code,
    alloc: Global,
    bodies: &Vec<Body>,
) -> Result<Vec<FlatBody>, AllocError>
    ensures { IfOk result (λ flat. Standing (λ n. Every (IsAmong n)) (λ ts. map (body_in ts)) (trees code.old) (trees code.new) flat.items (map body_view bodies.now.items)) }
{
    let mut flat = Vec::new(alloc);
    for body in bodies {
        let added = FlatBody::of(code, body)?;
        flat.push(added)?;
    }
    Ok(flat)
}

fn add_object(
    code: &mut Code,
    alloc: Global,
    object: &ObjectBodies,
) -> Result<FlatObject, AllocError>
    ensures { IfOk result (λ flat. Standing IsObjectAmong object_in (trees code.old) (trees code.new) flat (object_view object.now)) }
{
    let operations = add_operations(code, alloc, &object.operations)?;
    Ok(FlatObject { operations })
}

// Adds lists of bodies to a table.
fn add_lists(
    code: &mut Code,
    alloc: Global,
    lists: &Vec<ObjectBodies>,
) -> Result<Vec<FlatObject>, AllocError>
    ensures { IfOk result (λ flat. Standing (λ n. Every (IsObjectAmong n)) (λ ts. map (object_in ts)) (trees code.old) (trees code.new) flat.items (map object_view lists.now.items)) }
{
    let mut flat = Vec::new(alloc);
    for list in lists {
        let added = add_object(code, alloc, list)?;
        flat.push(added)?;
    }
    Ok(flat)
}

// The same numbers of bodies once more.
fn copies(alloc: Global, bodies: &Vec<FlatBody>) -> Result<Vec<FlatBody>, AllocError>
    ensures bodies { IfOk result (λ copies. (ts : List Tree) → map (body_in ts) copies.items ≡ map (body_in ts) bodies.now.items) }
    ensures among { IfOk result (λ copies. (n : ℕ) → Every (IsAmong n) bodies.now.items → Every (IsAmong n) copies.items) }
{
    let mut copies = Vec::new(alloc);
    for body in bodies {
        let copy = body.copy()?;
        copies.push(copy)?;
    }
    Ok(copies)
}

// The list of an index once more, or no bodies where there is no such list.
fn copy_of(alloc: Global, lists: &[FlatObject], list: usize) -> Result<FlatObject, AllocError>
    ensures bodies { IfOk result (λ flat. (ts : List Tree) → object_in ts flat ≡ listed_in ts (slice_get lists.now list)) }
    ensures among { IfOk result (λ flat. (n : ℕ) → Every (IsObjectAmong n) lists.now → IsObjectAmong n flat) }
{
    match lists.get(list) {
        Some(object) => {
            let operations = copies(alloc, &object.operations)?;
            Ok(FlatObject { operations })
        }
        None => Ok(FlatObject {
            operations: Vec::new(alloc),
        }),
    }
}

/// Adds the bodies of a unit's objects to a table, each list that they share once, and their numbers behind others that
/// stand in it. Err where memory was refused.
pub fn add_objects(
    code: &mut Code,
    alloc: Global,
    unit: &UnitBodies,
    flat: &mut Vec<FlatObject>,
) -> Result<(), AllocError>
    ensures { OnOk result ((a : List Tree) (xs : List (List Meant)) → Standing (λ n. Every (IsObjectAmong n)) (λ ts. map (object_in ts)) a (trees code.old) flat.old.items xs → Standing (λ n. Every (IsObjectAmong n)) (λ ts. map (object_in ts)) a (trees code.new) flat.new.items (xs ++ (unit_view unit.now).objects)) }
{
    let lists = add_lists(code, alloc, &unit.lists)?;
    for list in &unit.objects {
        let copy = copy_of(alloc, &lists, *list)?;
        flat.push(copy)?;
    }
    Ok(())
}

fn add_task(code: &mut Code, task: &Option<Body>) -> Result<Option<FlatBody>, AllocError>
    ensures { IfOk result (λ flat. Standing IsTaskAmong task_in (trees code.old) (trees code.new) flat (maybe_body_view task.now)) }
{
    match task {
        Some(body) => {
            let flat = FlatBody::of(code, body)?;
            Ok(Some(flat))
        }
        None => Ok(None),
    }
}

/// Adds the bodies of tasks to a table, and their numbers behind others that stand in it. Err where memory was refused.
pub fn add_tasks(
    code: &mut Code,
    tasks: &Vec<Option<Body>>,
    flat: &mut Vec<Option<FlatBody>>,
) -> Result<(), AllocError>
    ensures { OnOk result ((a : List Tree) (xs : List (Option Meant)) → Standing (λ n. Every (IsTaskAmong n)) (λ ts. map (task_in ts)) a (trees code.old) flat.old.items xs → Standing (λ n. Every (IsTaskAmong n)) (λ ts. map (task_in ts)) a (trees code.new) flat.new.items (xs ++ map maybe_body_view tasks.now.items)) }
{
    for task in tasks {
        let added = add_task(code, task)?;
        flat.push(added)?;
    }
    Ok(())
}

impl FlatUnit {
    /// The same bodies over one table. Err where memory was refused.
    pub fn of(alloc: Global, unit: &UnitBodies) -> Result<FlatUnit, AllocError>
        ensures { IfOk result (λ flat. flat_view flat ≡ unit_view unit.now) }
    {
        let mut code = Code::new(alloc);
        let mut objects = Vec::new(alloc);
        let mut tasks = Vec::new(alloc);
        add_objects(&mut code, alloc, unit, &mut objects)?;
        add_tasks(&mut code, &unit.tasks, &mut tasks)?;
        Ok(FlatUnit {
            code,
            objects,
            tasks,
        })
    }
}
