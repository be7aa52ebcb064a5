//! The status that the program ends with.

ghost use Rattle.std.specs.Prelude.{◌≡◌};
ghost use Rattle.ravenhost.specs.Status.{status_of};

use rv_fault::Failure;
use std::io::ErrorKind;

/// The status where memory or a thread is refused before anything is done.
pub const NO_MEANS: u8 = 3;

/// Why the program ends before its work is done.
#[derive(Drop)]
pub enum Stop {
    /// The command line is none, or asks for help.
    Usage,
    /// The command line asks for the version, which was told.
    Told,
    /// The run over the script failed.
    Failed(Failure),
    /// The script was refused, and its fault was explained.
    Explained,
    /// A note on a list was told, and notes are errors.
    Warned,
    /// A file that a flag names can't be opened, read or written, which was said.
    BadFile,
    /// No thread can be started, which was said.
    NoThread,
    /// The input of a run ended before its line `@run`, which was said.
    CutOff,
    /// A run ended by itself, and the status is to say so.
    EndedItself,
    /// Threads of a run didn't end within its grace, and were left behind, which was said.
    LeftBehind,
    /// A journal isn't that of a legal history, or an end in it isn't what its text means, which was said.
    NotLegal,
}

/// The status of the program: 0 done, 1 a refused or cut script, one with notes that are errors or a journal that isn't legal, 2 usage or help, 3 want of
/// memory or of a thread, 4 a failed read or write, 5 a run that ended by itself, 6 one that left threads behind.
pub fn status_of(outcome: &Result<(), Stop>) -> u8
    ensures { result ≡ status_of outcome.now }
{
    match outcome {
        Ok(()) | Err(Stop::Told) => 0,
        Err(
            Stop::Failed(Failure::Refused(_))
            | Stop::Explained
            | Stop::Warned
            | Stop::CutOff
            | Stop::NotLegal,
        ) => 1,
        Err(Stop::Usage) => 2,
        Err(Stop::Failed(Failure::Memory) | Stop::NoThread) => 3,
        Err(Stop::Failed(Failure::Io(_)) | Stop::BadFile) => 4,
        Err(Stop::EndedItself) => 5,
        Err(Stop::LeftBehind) => 6,
    }
}

/// Which standard stream failed, as far as the kind of an error tells.
pub fn stream_of(kind: ErrorKind) -> Option<&'static str> {
    match kind {
        ErrorKind::BrokenPipe
        | ErrorKind::WriteZero
        | ErrorKind::StorageFull
        | ErrorKind::FileTooLarge => Some("standard output"),
        ErrorKind::IsADirectory => Some("standard input"),
        _ => None,
    }
}
