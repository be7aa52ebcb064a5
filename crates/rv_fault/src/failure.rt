//! Why a run over a script ends before its work is done.

ghost use Rattle.std.specs.Prelude.{◌≡◌};
ghost use Rattle.rv_fault.specs.declared.failure.Failure.TheVariants as Failures;
ghost use Rattle.rv_fault.specs.Faults.{fault_of, of_read};

use crate::fault::{ScriptFault, What};
use rv_script::{ReadError, TextError};
use std::alloc::AllocError;
use std::io;

/// Why a run over a script ends before its work is done.
#[derive(Drop)]
pub enum Failure {
    /// The script was refused.
    Refused(ScriptFault),
    /// Memory was refused.
    Memory,
    /// A read or a write failed.
    Io(io::Error),
}

/// A fault of the script at a line.
pub fn refused(line: usize, what: What) -> Failure
    ensures { result ≡ Failure.Refused (record { line = line; what = what }) }
{
    Failure::Refused(ScriptFault { line, what })
}

impl From<AllocError> for Failure {
    ghost from_gives = { λ _ failure. failure ≡ Failures.Memory };

    fn from(_error: AllocError) -> Failure {
        Failure::Memory
    }
}

impl From<ReadError> for Failure {
    ghost from_gives = { λ error failure. failure ≡ of_read error };

    fn from(error: ReadError) -> Failure {
        match error {
            ReadError::Memory => Failure::Memory,
            ReadError::Io(e) => Failure::Io(e),
        }
    }
}

impl From<TextError> for Failure {
    ghost from_gives = { λ error failure. failure ≡ Failures.Refused (fault_of error) };

    fn from(error: TextError) -> Failure {
        refused(1, What::of_bytes(error))
    }
}

impl From<io::Error> for Failure {
    ghost from_gives = { λ error failure. failure ≡ Failures.Io error };

    fn from(error: io::Error) -> Failure {
        Failure::Io(error)
    }
}
