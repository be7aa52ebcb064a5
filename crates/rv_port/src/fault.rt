//! Why something isn't given.

use thiserror::Error;

/// Why there is no port.
#[derive(Clone, Copy, PartialEq, Eq, Debug, Drop, Error)]
pub enum PortFault {
    /// The actor has had a port.
    #[error("Taken")]
    Taken,
    /// The actor is no task, and no line that has a handler.
    #[error("NoActor")]
    NoActor,
    /// A growth was refused.
    #[error("NoMemory")]
    NoMemory,
    /// The control has fewer acts left than a port is given, 2^50.
    #[error("Worn")]
    Worn,
}

/// Why there is no page.
#[derive(Clone, Copy, PartialEq, Eq, Debug, Drop, Error)]
pub enum PageFault {
    /// A growth was refused.
    #[error("NoMemory")]
    NoMemory,
    /// The control has no act left.
    #[error("Worn")]
    Worn,
}

/// Why a unit isn't loaded, though nothing was asked.
#[derive(Clone, Copy, PartialEq, Eq, Debug, Drop, Error)]
pub enum LoadFault {
    /// Its bodies don't fit its shape, or call what isn't there.
    #[error("Unfit")]
    Unfit,
    /// The control has no act left.
    #[error("Worn")]
    Worn,
}
