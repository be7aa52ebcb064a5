//! What can be wrong with the text of a list.

ghost use Rattle.std.specs.Prelude.{◌≡◌};
ghost use Rattle.rv_access.specs.declared.fault.ListFault.TheVariants.{NoMemory};

use std::alloc::AllocError;
use thiserror::Error;

/// What is wrong with the text of a list, and at which of its lines. All lines count, from 1, blank
/// ones and comments too.
#[derive(Clone, Copy, Debug, PartialEq, Eq, Error)]
pub enum ListFault {
    /// There are neither four nor eight words, the first is neither `allow` nor `deny`, the fifth isn't `from`, or the
    /// seventh isn't `until`.
    #[error("BadWord at line {0}")]
    BadWord(usize),
    /// A word is neither `*` nor a name of its form.
    #[error("BadName at line {0}")]
    BadName(usize),
    /// It is the 513th line of the list.
    #[error("TooMany at line {0}")]
    TooMany(usize),
    /// Memory was refused.
    #[error("NoMemory")]
    NoMemory,
    /// A number of the window isn't of 1 to 18 digits, the second is above 10^15, or the first isn't below the second.
    #[error("BadWindow at line {0}")]
    BadWindow(usize),
}

impl From<AllocError> for ListFault {
    ghost from_gives = { λ _ e. e ≡ NoMemory };

    fn from(_e: AllocError) -> ListFault {
        ListFault::NoMemory
    }
}
