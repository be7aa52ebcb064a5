//! Making a host, and letting it go.

ghost use Rattle.std.specs.Prelude.{◌≡◌, ◌≢◌, pos, Some, None, IsSome};
ghost use Rattle.rv_c_host.specs.Made.{IsNew};
ghost use Rattle.rv_c_host.specs.Numbers.{has_host};

use crate::numbers::{BAD_LIMIT, HAS_HOST, NO_MEMORY};
use rv_handle::Handle;
use rv_host::host::NewFault;
use rv_kept::Kept;
use std::alloc::Global;

// How many requests a task's own body may make: as many as may be.
const BUDGET: u32 = 1_000_000;

// The status of a host that there isn't.
fn status_of(fault: NewFault) -> i32
    ensures { result ≢ pos 0 }
{
    match fault {
        NewFault::NoMemory => NO_MEMORY,
        NewFault::BadCapacity | NewFault::BadLimit => BAD_LIMIT,
    }
}

// Puts a new host behind a handle that is to none.
fn make(alloc: Global, capacity: usize, limit: usize, handle: &mut Handle) -> i32
    requires { handle.old.value ≡ None }
    ensures made { result ≡ pos 0 → IsNew capacity limit handle.new.value }
    ensures other { result ≢ pos 0 → handle.new.value ≡ None }
{
    let kept = match Kept::new(alloc, capacity, limit, BUDGET) {
        Ok(kept) => kept,
        Err(fault) => return status_of(fault),
    };
    match Box::new(alloc, kept) {
        Ok(kept) => {
            handle.put(kept);
            0
        }
        Err(_) => NO_MEMORY,
    }
}

/// Makes a host that has room for that many entries, 16 .. 1,048,576, and whose queues have room for so many callers, 1 .. 8, and puts
/// it behind a handle that is to none. Gives 0 where it did.
pub fn create(alloc: Global, capacity: usize, limit: usize, handle: &mut Handle) -> i32
    ensures made { result ≡ pos 0 → IsNew capacity limit handle.new.value }
    ensures none { result ≡ pos 0 → handle.old.value ≡ None }
    ensures other { result ≢ pos 0 → handle.new.value ≡ handle.old.value }
    ensures held { IsSome handle.old.value → result ≡ has_host }
{
    match handle.take(alloc) {
        Some(kept) => {
            handle.put(kept);
            HAS_HOST
        }
        None => make(alloc, capacity, limit, handle),
    }
}

/// Lets the host behind a handle go, if there is one.
pub fn free(alloc: Global, handle: &mut Handle)
    ensures { handle.new.value ≡ None }
{
    let _kept = handle.take(alloc);
}
