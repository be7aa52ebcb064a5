//! What is asked of the host, and what its answers come to (9.5.1, 9.5.3, 9.6, D.8, D.10).

ghost use Rattle.std.specs.Prelude.{◌≡◌, ℕ, [], ◌∷◌, Some, None};
ghost use Rattle.rv_exec.specs.Calls.{internal, is_protected, is_past, request_of, refusal, started, queued, suspended, delayed, is_entry, is_suspension, may_block, is_listed, can_refuse, refused, done, state, accepted, replied, woken, dropped, resumed, exit_of, seen, completed, is_stuck, end_of, end_with, stops, gives};

use crate::activation::value_at;
use crate::end::{Asked, Cause, Reply};
use rv_code::Callee;
use rv_event::entry::{Answer, Exception, Exit, Request, Rule};
use rv_value::{Args, Scalars};

/// The operation of the same object, where it is an internal call (9.5).
pub fn internal(callee: Callee) -> Option<usize>
    ensures { result ≡ internal callee }
{
    match callee {
        Callee::Internal(operation) => Some(operation),
        _ => None,
    }
}

fn is_protected(callee: Callee) -> bool
    ensures { result ≡ is_protected callee }
{
    match callee {
        Callee::Function(_, _) | Callee::Procedure(_, _) | Callee::Entry(_, _) => true,
        _ => false,
    }
}

/// Whether a call of a protected operation finds the actor holding all that it may: it may hold so many more objects.
pub fn is_past(held: u32, callee: Callee) -> bool
    ensures { result ≡ is_past held callee }
{
    if held == 0 {
        is_protected(callee)
    } else {
        false
    }
}

/// The request that asks a call, a delay or Clock of the host. The operations of a suspension object have the numbers 1 to 4
/// (D.10). An entry of the same object is asked as one of its object.
pub fn request_of(callee: Callee, values: Args) -> Request
    ensures { result ≡ request_of callee values }
{
    match callee {
        Callee::Function(object, operation)
        | Callee::Procedure(object, operation)
        | Callee::Entry(object, operation) => Request::Call(object, operation, values),
        Callee::SetTrue(object) => Request::Call(object, 1, Args::new()),
        Callee::SetFalse(object) => Request::Call(object, 2, Args::new()),
        Callee::CurrentState(object) => Request::Call(object, 3, Args::new()),
        Callee::SuspendUntilTrue(object) => Request::Call(object, 4, Args::new()),
        Callee::DelayUntil => Request::DelayUntil(value_at(values, 0)),
        Callee::Clock | Callee::Internal(_) | Callee::OwnEntry(_) => Request::Clock,
    }
}

fn refusal(rule: Rule) -> Exception
    ensures { result ≡ refusal rule }
{
    match rule {
        Rule::Grant => Exception::AccessDenied,
        _ => Exception::ProgramError,
    }
}

fn stops(is_idle: bool) -> Reply
    ensures { result ≡ stops is_idle }
{
    Reply::Settled(Asked::Abandoned(Cause::Stopped(is_idle)))
}

fn started(callee: Callee, components: Scalars) -> Reply
    ensures { result ≡ started callee components }
{
    match callee {
        Callee::Function(object, operation) => {
            Reply::Settled(Asked::Started(object, operation, true, components))
        }
        Callee::Procedure(object, operation) | Callee::Entry(object, operation) => {
            Reply::Settled(Asked::Started(object, operation, false, components))
        }
        _ => stops(false),
    }
}

fn queued(callee: Callee) -> Reply
    ensures { result ≡ queued callee }
{
    match callee {
        Callee::Entry(_, _) => Reply::Waits,
        _ => stops(false),
    }
}

fn suspended(callee: Callee) -> Reply
    ensures { result ≡ suspended callee }
{
    match callee {
        Callee::SuspendUntilTrue(_) => Reply::Waits,
        _ => stops(false),
    }
}

fn delayed(callee: Callee) -> Reply
    ensures { result ≡ delayed callee }
{
    match callee {
        Callee::DelayUntil => Reply::Waits,
        _ => stops(false),
    }
}

fn is_entry(callee: Callee) -> bool
    ensures { result ≡ is_entry callee }
{
    match callee {
        Callee::Entry(_, _) => true,
        _ => false,
    }
}

fn is_suspension(callee: Callee) -> bool
    ensures { result ≡ is_suspension callee }
{
    match callee {
        Callee::SuspendUntilTrue(_) => true,
        _ => false,
    }
}

fn may_block(callee: Callee) -> bool
    ensures { result ≡ may_block callee }
{
    match callee {
        Callee::Entry(_, _) | Callee::SuspendUntilTrue(_) | Callee::DelayUntil => true,
        _ => false,
    }
}

fn is_listed(callee: Callee) -> bool
    ensures { result ≡ is_listed callee }
{
    match callee {
        Callee::DelayUntil | Callee::Clock => false,
        _ => true,
    }
}

// Whether the host refuses such a request by that rule.
fn can_refuse(callee: Callee, rule: Rule) -> bool
    ensures { result ≡ can_refuse callee rule }
{
    match rule {
        Rule::Grant => is_listed(callee),
        Rule::Blocking => may_block(callee),
        Rule::Reentry | Rule::Ceiling => is_protected(callee),
        Rule::Queue => is_entry(callee),
        Rule::Waiter => is_suspension(callee),
    }
}

fn refused(callee: Callee, rule: Rule) -> Reply
    ensures { result ≡ refused callee rule }
{
    if can_refuse(callee, rule) {
        Reply::Settled(Asked::Abandoned(Cause::Raised(refusal(rule))))
    } else {
        stops(true)
    }
}

fn gives_one(value: i64) -> Reply
    ensures { result ≡ gives (value ∷ []) }
{
    Reply::Settled(Asked::Given(Args::from_slice(&[value])))
}

fn done(value: i64) -> Reply
    ensures { result ≡ done value }
{
    if value == 0 {
        Reply::Settled(Asked::Given(Args::new()))
    } else {
        stops(true)
    }
}

fn state(value: i64) -> Reply
    ensures { result ≡ state value }
{
    if 0 <= value && value <= 1 {
        gives_one(value)
    } else {
        stops(true)
    }
}

fn accepted(callee: Callee, value: i64) -> Reply
    ensures { result ≡ accepted callee value }
{
    match callee {
        Callee::Clock => gives_one(value),
        Callee::CurrentState(_) => state(value),
        Callee::SetTrue(_)
        | Callee::SetFalse(_)
        | Callee::SuspendUntilTrue(_)
        | Callee::DelayUntil => done(value),
        _ => stops(true),
    }
}

/// What the first answer to a call, a delay or Clock comes to. From one that the host doesn't give to such a request nothing
/// goes on.
pub fn replied(callee: Callee, answer: Answer) -> Reply
    ensures { result ≡ replied callee answer }
{
    match answer {
        Answer::Started(components) => started(callee, components),
        Answer::Queued => queued(callee),
        Answer::Refused(rule, _, _) => refused(callee, rule),
        Answer::Suspended => suspended(callee),
        Answer::Delayed => delayed(callee),
        Answer::Accepted(value) => accepted(callee, value),
        _ => stops(true),
    }
}

fn woken(callee: Callee, components: Option<Scalars>) -> Asked
    ensures { result ≡ woken callee components }
{
    match callee {
        Callee::Entry(object, operation) => match components {
            Some(values) => Asked::Started(object, operation, false, values),
            None => Asked::Abandoned(Cause::Stopped(false)),
        },
        Callee::SuspendUntilTrue(_) | Callee::DelayUntil => match components {
            Some(_) => Asked::Abandoned(Cause::Stopped(false)),
            None => Asked::Given(Args::new()),
        },
        _ => Asked::Abandoned(Cause::Stopped(false)),
    }
}

fn dropped(callee: Callee, rule: Rule) -> Asked
    ensures { result ≡ dropped callee rule }
{
    match callee {
        Callee::Entry(_, _) => match rule {
            Rule::Grant => Asked::Abandoned(Cause::Raised(Exception::AccessDenied)),
            _ => Asked::Abandoned(Cause::Stopped(false)),
        },
        _ => Asked::Abandoned(Cause::Stopped(false)),
    }
}

/// What the answer to the resume of a call or a delay that waits comes to.
pub fn resumed(callee: Callee, answer: Answer) -> Asked
    ensures { result ≡ resumed callee answer }
{
    match answer {
        Answer::Woken(components) => woken(callee, components),
        Answer::Refused(rule, _, _) => dropped(callee, rule),
        _ => Asked::Abandoned(Cause::Stopped(false)),
    }
}

/// How a body ends, for the host.
pub fn exit_of(outcome: &Result<Args, Cause>) -> Exit
    ensures { result ≡ exit_of outcome.now }
{
    match outcome {
        Ok(values) => Exit::Return(*values),
        Err(Cause::Raised(exception)) => Exit::Raise(*exception),
        Err(Cause::Overrun) => Exit::Overrun,
        Err(Cause::Stopped(_)) => Exit::Stopped,
    }
}

fn seen(outcome: Result<Args, Cause>) -> Result<Args, Cause>
    ensures { result ≡ seen outcome }
{
    match outcome {
        Ok(values) => Ok(values),
        Err(Cause::Raised(exception)) => Err(Cause::Raised(exception)),
        Err(Cause::Overrun) => Err(Cause::Raised(Exception::ProgramError)),
        Err(Cause::Stopped(_)) => Err(Cause::Stopped(true)),
    }
}

/// What the answer to the end of a body comes to, for the caller of the body, which has come to this.
pub fn completed(outcome: Result<Args, Cause>, answer: Answer) -> Result<Args, Cause>
    ensures { result ≡ completed outcome answer }
{
    match answer {
        Answer::Done(_) => seen(outcome),
        _ => Err(Cause::Stopped(false)),
    }
}

/// The request that ends a body by this exit, with the components as it leaves them, none for a function (9.5.1).
#[inline(always)]
pub fn end_with(is_function: bool, exit: Exit, components: Scalars) -> Request
    ensures { result ≡ end_with is_function exit components }
{
    if is_function {
        Request::Complete(Scalars::new(), exit)
    } else {
        Request::Complete(components, exit)
    }
}

/// The request that ends a body which comes to this (9.5.1).
pub fn end_of(is_function: bool, outcome: &Result<Args, Cause>, components: Scalars) -> Request
    ensures { result ≡ end_of is_function outcome.now components }
{
    end_with(is_function, exit_of(outcome), components)
}

/// Whether its actor is left waiting, or in a body that it called.
pub fn is_stuck(outcome: &Result<Args, Cause>) -> bool
    ensures { result ≡ is_stuck outcome.now }
{
    match outcome {
        Err(Cause::Stopped(is_idle)) => !*is_idle,
        _ => false,
    }
}
