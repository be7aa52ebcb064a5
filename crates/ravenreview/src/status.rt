//! The status that the program ends with.

ghost use Rattle.std.specs.Prelude.{◌≡◌};
ghost use Rattle.ravenreview.specs.Status.{status_of};

use rv_fault::Failure;

/// The status where memory or a thread is refused before anything is done.
pub const NO_MEANS: u8 = 3;

/// Why the program ends before its work is done.
#[derive(Drop)]
pub enum Stop {
    /// The command line is none, or asks for help.
    Usage,
    /// The command line asks for the version, which was told.
    Told,
    /// The review of the script failed.
    Failed(Failure),
    /// A file can't be opened, or that of a list or of times can't be read, which was said.
    BadFile,
    /// The journal isn't that of a legal history, which was said.
    NotLegal,
    /// The journal has no entry of the number that is asked about, which was said.
    NoEntry,
    /// The file of a list or of times holds none, which was said.
    BadList,
}

/// The status of the program: 0 an answer was given, 1 a refused script or list, or a journal that isn't legal, 2 usage, help or a
/// number that no entry has, 3 want of memory, 4 a failed read or write.
pub fn status_of(outcome: &Result<(), Stop>) -> u8
    ensures { result ≡ status_of outcome.now }
{
    match outcome {
        Ok(()) | Err(Stop::Told) => 0,
        Err(Stop::Failed(Failure::Refused(_)) | Stop::NotLegal | Stop::BadList) => 1,
        Err(Stop::Usage | Stop::NoEntry) => 2,
        Err(Stop::Failed(Failure::Memory)) => 3,
        Err(Stop::Failed(Failure::Io(_)) | Stop::BadFile) => 4,
    }
}
