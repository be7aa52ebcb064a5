//! Looking up names behind a handle.

ghost use Rattle.std.specs.Prelude.{◌≡◌};
ghost use Rattle.rv_shape.specs.Names.{task_number};
ghost use Rattle.rv_c_host.specs.Carried.{FindsActor, FindsTarget, IsNumberOf, IsTargetOf, Puts};

use crate::numbers::{NO_HOST, UNKNOWN_NAME};
use crate::target::Target;
use rv_handle::Handle;
use rv_host::host::Host;
use std::alloc::Global;

// The number of the task of this name.
fn actor_named(host: &Host, name: &[u8]) -> Option<usize>
    ensures { IsNumberOf (task_number host.now.shapes) name.now result }
{
    match str::from_utf8(name) {
        Ok(name) => host.catalogue().find_task(name),
        Err(_) => None,
    }
}

// Gives the caller a number that was found.
fn put_number(found: Option<usize>, number: &mut usize) -> i32
    ensures { Puts found number.old number.new result }
{
    match found {
        Some(found) => {
            *number = found;
            0
        }
        None => UNKNOWN_NAME,
    }
}

/// Finds the number of a task by its name, `Unit.Task`. Gives 0 where there is one.
pub fn find_actor(alloc: Global, handle: &mut Handle, name: &[u8], number: &mut usize) -> i32
    ensures finds { FindsActor name.now handle.old.value number.old number.new result }
    ensures same { handle.new.value ≡ handle.old.value }
{
    let Some(kept) = handle.take(alloc) else {
        return NO_HOST;
    };
    let found = actor_named(&kept.host, name);
    handle.put(kept);
    put_number(found, number)
}

// The operation of this name of the object of that one.
fn target_named(host: &Host, object: &[u8], operation: &[u8]) -> Option<Target>
    ensures { IsTargetOf host.now object.now operation.now result }
{
    let Ok(object) = str::from_utf8(object) else {
        return None;
    };
    let Ok(operation) = str::from_utf8(operation) else {
        return None;
    };
    let Some(object) = host.catalogue().find_object(object) else {
        return None;
    };
    match host.catalogue().find_operation(object, operation) {
        Some(operation) => Some(Target { object, operation }),
        None => None,
    }
}

// Gives the caller what was found.
fn put_target(found: Option<Target>, target: &mut Target) -> i32
    ensures { Puts found target.old target.new result }
{
    match found {
        Some(found) => {
            *target = found;
            0
        }
        None => UNKNOWN_NAME,
    }
}

/// Finds an operation by its name, and its object by the name `Unit.Object`. Gives 0 where there is one.
pub fn find_target(
    alloc: Global,
    handle: &mut Handle,
    object: &[u8],
    operation: &[u8],
    target: &mut Target,
) -> i32
    ensures finds { FindsTarget object.now operation.now handle.old.value target.old target.new result }
    ensures same { handle.new.value ≡ handle.old.value }
{
    let Some(kept) = handle.take(alloc) else {
        return NO_HOST;
    };
    let found = target_named(&kept.host, object, operation);
    handle.put(kept);
    put_target(found, target)
}
