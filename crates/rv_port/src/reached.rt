//! What calls on a port come to.

ghost use Rattle.std.specs.Prelude.{◌≡◌};
ghost use Rattle.std.specs.Option.{option_copied};
ghost use Rattle.rv_port.specs.Reaching.{plain_of, end_of, reached_by, waits_on, arguments_of, reads, start_of, values_of, waited_for};

use rv_behind::event::Begun;
use rv_event::entry::{Answer, Exception, Exit, Request, Rule};
use rv_value::{Args, Scalars};

/// What a call on a port came to.
#[derive(Clone, Copy, PartialEq, Eq, Drop)]
pub enum Reached {
    /// It was carried out: with the values that come back, or the value that was read.
    Returned(Args),
    /// The body ended by this exception, `Program_Error` where it went past its limit of steps.
    Raised(Exception),
    /// It was refused: the rule, the deciding line (0 for the rules other than 1) and the version
    /// of the list.
    Refused(Rule, usize, usize),
    /// The host is halted or has no room, no act is left, or the body was stopped.
    Stopped,
    /// The request doesn't fit the port's actor.
    Misuse,
}

// The value that was read, if any is.
fn values_of(is_read: bool, value: i64) -> Args
    ensures { result ≡ values_of is_read value }
{
    if is_read {
        Args::from_slice(&[value])
    } else {
        Args::new()
    }
}

/// The values of a call (6.4.1).
pub(crate) fn arguments_of(request: &Request) -> Args
    ensures { result ≡ arguments_of request.now }
{
    match *request {
        Request::Call(_, _, args) => args,
        _ => Args::new(),
    }
}

/// Whether the request reads a value: the clock, or the state of a suspension object (D.8, D.10).
pub(crate) fn reads(request: &Request) -> bool
    ensures { result ≡ reads request.now }
{
    match *request {
        Request::Call(_, operation, _) => operation == 3,
        Request::Clock => true,
        _ => false,
    }
}

/// What an answer that starts no body comes to.
pub(crate) fn plain(is_read: bool, answer: &Answer) -> Reached
    ensures { result ≡ plain_of is_read answer.now }
{
    match *answer {
        Answer::Refused(rule, line, version) => Reached::Refused(rule, line, version),
        Answer::Accepted(value) => Reached::Returned(values_of(is_read, value)),
        Answer::Woken(None) => Reached::Returned(Args::new()),
        Answer::Misuse => Reached::Misuse,
        _ => Reached::Stopped,
    }
}

// What an exit comes to (11.4, 6.5).
fn exit_as(exit: &Exit) -> Reached
    ensures { result ≡ reached_by exit.now }
{
    match *exit {
        Exit::Return(args) => Reached::Returned(args),
        Exit::Raise(exception) => Reached::Raised(exception),
        Exit::Overrun => Reached::Raised(Exception::ProgramError),
        Exit::Stopped => Reached::Stopped,
    }
}

/// What the end of a body comes to.
pub(crate) fn ended_as(answer: &Answer, exit: &Exit) -> Reached
    ensures { result ≡ end_of answer.now exit.now }
{
    match *answer {
        Answer::Done(_) => exit_as(exit),
        _ => Reached::Stopped,
    }
}

/// The scalars that a body starts on, by the answer that starts it (9.5.1, 9.5.3).
pub(crate) fn start_of(answer: &Answer) -> Option<&Scalars>
    ensures { option_copied result ≡ start_of answer.now }
{
    match answer {
        Answer::Started(scalars) | Answer::Woken(Some(scalars)) => Some(scalars),
        _ => None,
    }
}

/// Whether an answer is that the actor waits.
pub(crate) fn is_wait(answer: &Answer) -> bool
    ensures { result ≡ waits_on answer.now }
{
    matches!(answer, Answer::Queued | Answer::Suspended | Answer::Delayed)
}

/// The operation that a queued request waits for, which is an entry.
pub(crate) fn waited_for(request: &Request) -> Begun
    ensures { result ≡ waited_for request.now }
{
    match *request {
        Request::Call(object, operation, _) => Begun {
            object,
            operation,
            is_function: false,
        },
        _ => Begun {
            object: 0,
            operation: 0,
            is_function: false,
        },
    }
}
