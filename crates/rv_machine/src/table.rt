//! The bodies of all units that are loaded, over one table.

ghost use Rattle.std.specs.Prelude.{◌≡◌, IfOk, map};
ghost use Rattle.rv_exec.specs.Bodies.{all_of, bodies_view, shared_view};
ghost use Rattle.rv_flat.specs.FlatUnits.{Standing, Every, IsObjectAmong, IsTaskAmong, object_in, task_in, flat_view};
ghost use Rattle.rv_flat.specs.Tables.{trees};

use rv_exec::bodies::{Bodies, SharedUnit};
use rv_flat::body::FlatBody;
use rv_flat::code::Code;
use rv_flat::unit::{FlatObject, FlatUnit, add_objects, add_tasks};
use std::alloc::{AllocError, Global};

// The objects of all units.
fn all_objects(
    code: &mut Code,
    alloc: Global,
    units: &[SharedUnit],
) -> Result<Vec<FlatObject>, AllocError>
    ensures { IfOk result (λ flat. Standing (λ n. Every (IsObjectAmong n)) (λ ts. map (object_in ts)) (trees code.old) (trees code.new) flat.items (all_of (map shared_view units.now)).objects) }
{
    let mut flat = Vec::new(alloc);
    for unit in units {
        add_objects(code, alloc, unit.bodies(), &mut flat)?;
    }
    Ok(flat)
}

// The tasks of all units.
fn all_tasks(
    code: &mut Code,
    alloc: Global,
    units: &[SharedUnit],
) -> Result<Vec<Option<FlatBody>>, AllocError>
    ensures { IfOk result (λ flat. Standing (λ n. Every (IsTaskAmong n)) (λ ts. map (task_in ts)) (trees code.old) (trees code.new) flat.items (all_of (map shared_view units.now)).tasks) }
{
    let mut flat = Vec::new(alloc);
    for unit in units {
        add_tasks(code, &unit.bodies().tasks, &mut flat)?;
    }
    Ok(flat)
}

/// The bodies of all units over one table, so that a text may call those of another unit's objects. Err where memory was refused.
pub fn table(alloc: Global, bodies: &Bodies) -> Result<FlatUnit, AllocError>
    ensures { IfOk result (λ flat. flat_view flat ≡ bodies_view bodies.now) }
{
    let mut code = Code::new(alloc);
    let units = bodies.units();
    let objects = all_objects(&mut code, alloc, units)?;
    let tasks = all_tasks(&mut code, alloc, units)?;
    Ok(FlatUnit {
        code,
        objects,
        tasks,
    })
}
