//! Which alternative of a case statement, and which handler of a body, is chosen.

ghost use Rattle.std.specs.Prelude.{◌≡◌};
ghost use Rattle.rv_exec.specs.Choices.{covers, names};

use rv_code::{Choice, ExceptionChoice};
use rv_event::entry::Exception;

/// Whether a choice covers the value (3.8.1).
pub fn covers(choice: Choice, value: i64) -> bool
    ensures { result ≡ covers choice value }
{
    match choice {
        Choice::Values(low, high) => low <= value && value <= high,
        Choice::Others => true,
    }
}

/// Whether a choice of a handler names the exception (11.2).
pub fn names(choice: ExceptionChoice, exception: Exception) -> bool
    ensures { result ≡ names choice exception }
{
    match choice {
        ExceptionChoice::Others => true,
        ExceptionChoice::Named(Exception::ConstraintError) => match exception {
            Exception::ConstraintError => true,
            _ => false,
        },
        ExceptionChoice::Named(Exception::ProgramError) => match exception {
            Exception::ProgramError => true,
            _ => false,
        },
        ExceptionChoice::Named(Exception::AccessDenied) => match exception {
            Exception::AccessDenied => true,
            _ => false,
        },
    }
}
