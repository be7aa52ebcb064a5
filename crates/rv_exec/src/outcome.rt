//! What the end of a body comes to (6.4.1, 6.5, 11.3).

ghost use Rattle.std.specs.Prelude.{◌≡◌};
ghost use Rattle.rv_exec.specs.Blocks.{function_outcome, procedure_outcome, raised};
ghost use Rattle.rv_exec.specs.Statements.{exit_where, raised_again};

use crate::end::{Cause, End};
use crate::operators::is_true;
use rv_event::entry::Exception;
use rv_value::Args;

/// What a function's body comes to: its value. Falling off the end raises Program_Error (6.5).
pub fn function_outcome(end: End) -> Result<Args, Cause>
    ensures { result ≡ function_outcome end }
{
    match end {
        End::Return(Some(value)) => Ok(Args::from_slice(&[value])),
        End::Abandoned(cause) => Err(cause),
        _ => Err(Cause::Raised(Exception::ProgramError)),
    }
}

/// What another body comes to, with the values of its `out` and `in out` parameters (6.4.1).
pub fn procedure_outcome(end: End, values: Args) -> Result<Args, Cause>
    ensures { result ≡ procedure_outcome end values }
{
    match end {
        End::Abandoned(cause) => Err(cause),
        _ => Ok(values),
    }
}

/// The exception that it is abandoned by, if it is (11.4).
pub fn raised(end: End) -> Option<Exception>
    ensures { result ≡ raised end }
{
    match end {
        End::Abandoned(Cause::Raised(exception)) => Some(exception),
        _ => None,
    }
}

/// What `raise;` raises (11.3).
pub fn raised_again(handling: Option<Exception>) -> Cause
    ensures { result ≡ raised_again handling }
{
    match handling {
        Some(exception) => Cause::Raised(exception),
        None => Cause::Raised(Exception::ProgramError),
    }
}

/// How `exit when` ends, whose condition has this value (5.7).
pub fn exit_where(value: i64) -> End
    ensures { result ≡ exit_where value }
{
    if is_true(value) { End::Exit } else { End::Next }
}
