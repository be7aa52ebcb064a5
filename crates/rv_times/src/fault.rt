//! What can be wrong with a file of times.

ghost use Rattle.std.specs.Prelude.{◌≡◌};
ghost use Rattle.rv_times.specs.declared.fault.TimesFault.TheVariants.{NoMemory};

use std::alloc::AllocError;
use thiserror::Error;

/// Why a text is no file of times.
#[derive(Clone, Copy, Debug, PartialEq, Eq, Error)]
pub enum TimesFault {
    /// Memory was refused.
    #[error("out of memory")]
    NoMemory,
    /// The line of this number, from 1, isn't `ENTRY UTC`, or its entry comes before that of the line before it.
    #[error("line {0} isn't ENTRY UTC, as 17 2026-11-30T14:20:00Z, or its entry comes before that of the line before it")]
    Line(usize),
}

impl From<AllocError> for TimesFault {
    ghost from_gives = { λ _ e. e ≡ NoMemory };

    fn from(_error: AllocError) -> TimesFault {
        TimesFault::NoMemory
    }
}
