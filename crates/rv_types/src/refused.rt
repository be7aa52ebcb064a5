//! Why no code is made of a part of a text.

use rv_static::{Faults, TypeFault};
use std::alloc::{AllocError, AllocFailed};

// The fault that is told of it.
#[derive(Clone, Copy, Drop)]
pub(crate) struct Refused(pub TypeFault);

impl From<AllocError> for Refused {
    fn from(_: AllocError) -> Refused {
        Refused(TypeFault::NoMemory)
    }
}

impl<T: Drop> From<AllocFailed<T>> for Refused {
    fn from(_: AllocFailed<T>) -> Refused {
        Refused(TypeFault::NoMemory)
    }
}

// A type, or a number of arguments, doesn't fit at this place.
pub(crate) fn mismatch(at: usize) -> Refused {
    Refused(TypeFault::Mismatch(at))
}

// The fault that was told first, else that a part doesn't fit at this place.
pub(crate) fn told(faults: &Faults, at: usize) -> Refused {
    match faults.first() {
        Some(fault) => Refused(fault),
        None => mismatch(at),
    }
}

// The one of two that is told: want of memory, else that at the lesser place, and at one place the lesser.
pub(crate) fn least(one: Refused, other: Refused) -> Refused {
    let mut faults = Faults::new();
    faults.tell(one.0);
    faults.tell(other.0);
    match faults.first() {
        Some(fault) => Refused(fault),
        None => one,
    }
}
