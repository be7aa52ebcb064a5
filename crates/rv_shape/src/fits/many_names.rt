//! Whether a name stands twice among more parts than a unit may have. Those that fit are few, and compared with one another.

ghost use Rattle.std.specs.Prelude.{◌≡◌, ◌++◌, map, IfOk, OnOk};
ghost use Rattle.rv_shape.specs.Fits.{twice, object_name};

use crate::name::Sought;
use crate::object::{Object, Operation};
use crate::shape::UnitShape;
use crate::task::Task;
use indexmap::IndexSet;
use std::alloc::{AllocError, Global};

/// Whether a name stands twice among the tasks and objects of a unit. Err where memory was refused.
pub(crate) fn is_part_again(alloc: Global, shape: &UnitShape) -> Result<bool, AllocError>
    ensures { IfOk result (λ again.
        again ≡ twice (map (λ t. t.name) shape.now.tasks ++ map object_name shape.now.objects)) }
{
    let mut names = Vec::new(alloc);
    put_tasks(shape.tasks(), &mut names)?;
    put_objects(shape.objects(), &mut names)?;
    is_again(alloc, names.as_slice())
}

/// Whether a name stands twice among operations. Err where memory was refused.
pub(crate) fn is_operation_again(
    alloc: Global,
    operations: &[Operation],
) -> Result<bool, AllocError>
    ensures { IfOk result (λ again. again ≡ twice (map (λ p. p.name) operations.now)) }
{
    let mut names = Vec::new(alloc);
    put_operations(operations, &mut names)?;
    is_again(alloc, names.as_slice())
}

// Puts the names of tasks behind others. Err where memory was refused.
fn put_tasks<'a>(tasks: &'a [Task], names: &mut Vec<Sought<'a>>) -> Result<(), AllocError>
    ensures { OnOk result (map (λ n. n.text.now) names.new.items
        ≡ map (λ n. n.text.now) names.old.items ++ map (λ t. t.name) tasks.now) }
{
    for task in tasks {
        names.push(Sought::new(task.name()))?;
    }
    Ok(())
}

// Puts the names of objects behind others. Err where memory was refused.
fn put_objects<'a>(objects: &'a [Object], names: &mut Vec<Sought<'a>>) -> Result<(), AllocError>
    ensures { OnOk result (map (λ n. n.text.now) names.new.items
        ≡ map (λ n. n.text.now) names.old.items ++ map object_name objects.now) }
{
    for object in objects {
        names.push(Sought::new(object.name()))?;
    }
    Ok(())
}

// Puts the names of operations behind others. Err where memory was refused.
fn put_operations<'a>(
    operations: &'a [Operation],
    names: &mut Vec<Sought<'a>>,
) -> Result<(), AllocError>
    ensures { OnOk result (map (λ n. n.text.now) names.new.items
        ≡ map (λ n. n.text.now) names.old.items ++ map (λ p. p.name) operations.now) }
{
    for operation in operations {
        names.push(Sought::new(operation.name()))?;
    }
    Ok(())
}

// Whether a name stands twice among these, by a set of those before each. Err where memory was refused.
#[tactic(auto, using(crate::proofs::Again::again_is_twice))]
fn is_again(alloc: Global, names: &[Sought]) -> Result<bool, AllocError>
    ensures { IfOk result (λ again. again ≡ twice (map (λ n. n.text.now) names.now)) }
{
    let mut before: IndexSet<Sought> = IndexSet::new(alloc);
    for name in names {
        let is_new = before.insert(*name)?;
        if !is_new {
            return Ok(true);
        }
    }
    Ok(false)
}
