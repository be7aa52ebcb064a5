//! Faults of names, and their places.

use rv_names::NameFault;

/// The byte of a unit text where a fault of names stands.
pub fn place_of(fault: NameFault) -> Option<usize> {
    match fault {
        NameFault::Unknown(at)
        | NameFault::Duplicate(at)
        | NameFault::NotVisible(at)
        | NameFault::WrongKind(at)
        | NameFault::EndName(at) => Some(at),
        NameFault::NoMemory => None,
    }
}

/// The same fault at another place.
pub(crate) fn moved(fault: NameFault, at: usize) -> NameFault {
    match fault {
        NameFault::Unknown(_) => NameFault::Unknown(at),
        NameFault::Duplicate(_) => NameFault::Duplicate(at),
        NameFault::NotVisible(_) => NameFault::NotVisible(at),
        NameFault::WrongKind(_) => NameFault::WrongKind(at),
        NameFault::EndName(_) => NameFault::EndName(at),
        NameFault::NoMemory => NameFault::NoMemory,
    }
}
