//! How the text of a task ends.

ghost use Rattle.std.specs.Prelude.{◌≡◌, Some};
ghost use Rattle.rv_port.specs.Endings.{first_of, fresh, is_own, past, past_limits, stop_of, unspent_behind, ending_of, ending_text};

use rv_event::entry::{Answer, Exception, Exit, Request};
use std::fmt;
use std::fmt::Write;

/// How the text of a task ended.
#[derive(Clone, Copy, PartialEq, Eq, Drop)]
pub enum Ending {
    /// Its body returned, or came to its end (6.5).
    Returned,
    /// An exception left its body (11.4).
    Raised(Exception),
    /// Its body took more steps than it may, though it had requests left.
    Overrun,
    /// Its body made all the requests that it may, so many, and went on: it asked for one more, or took more steps
    /// than it may.
    BudgetPassed(u64),
    /// A request was answered Full.
    Full,
    /// A request was answered Halted.
    Halted,
    /// A request was answered Misuse, as where its task was left waiting.
    Misuse,
    /// No act was left.
    Worn,
    /// No body ran: its unit has none, or the bodies had too many holders, or no stack was there for their run.
    NoBodies,
    /// No body ran, since its task was left in a body that it had called.
    LeftInBody,
}

impl fmt::Display for Ending {
    ghost output = { λ e. Some (ending_text e) };

    fn fmt<W: fmt::Write>(&self, f: &mut fmt::Formatter<W>) -> fmt::Result {
        match *self {
            Ending::Returned => f.write_str("return"),
            Ending::Raised(exception) => write!(f, "raise {exception}"),
            Ending::Overrun => f.write_str("overrun"),
            Ending::BudgetPassed(budget) => write!(f, "budget {budget} passed"),
            Ending::Full => f.write_str("full"),
            Ending::Halted => f.write_str("halted"),
            Ending::Misuse => f.write_str("misuse"),
            Ending::Worn => f.write_str("worn"),
            Ending::NoBodies => f.write_str("no bodies"),
            Ending::LeftInBody => f.write_str("left in a body"),
        }
    }
}

/// What a run of a text has come to so far.
#[derive(Clone, Copy, Drop)]
pub(crate) struct Course {
    /// What stopped it first, if it was stopped.
    pub(crate) stop: Option<Ending>,
    /// How many requests its own body may still make.
    pub(crate) unspent: u64,
}

/// How a text ends that is stopped by this answer; none where it goes on.
pub(crate) fn stop_of(answer: &Answer) -> Option<Ending>
    ensures { result ≡ stop_of answer.now }
{
    match answer {
        Answer::Full => Some(Ending::Full),
        Answer::Halted => Some(Ending::Halted),
        Answer::Misuse => Some(Ending::Misuse),
        _ => None,
    }
}

// The first of two, where there is one.
fn first_of(first: Option<Ending>, other: Option<Ending>) -> Option<Ending>
    ensures { result ≡ first_of first other }
{
    match first {
        Some(ending) => Some(ending),
        None => other,
    }
}

// Whether a body makes such a request of its own.
fn is_own(request: &Request) -> bool
    ensures { result ≡ is_own request.now }
{
    match request {
        Request::Call(_, _, _) | Request::DelayUntil(_) | Request::Clock => true,
        _ => false,
    }
}

// How many requests a task's own body may still make behind one, before which the task held so many objects.
fn unspent_behind(held: u64, request: &Request, unspent: u64) -> u64
    ensures { result ≡ unspent_behind held request.now unspent }
{
    if held == 0 && is_own(request) {
        unspent.saturating_sub(1)
    } else {
        unspent
    }
}

// How a text ends past its limits, with so many requests left of its budget.
fn past_limits(budget: u64, unspent: u64) -> Ending
    ensures { result ≡ past_limits budget unspent }
{
    if unspent == 0 {
        Ending::BudgetPassed(budget)
    } else {
        Ending::Overrun
    }
}

impl Course {
    /// A run that asked nothing yet.
    pub(crate) fn fresh(budget: u64) -> Course
        ensures { result ≡ fresh budget }
    {
        Course {
            stop: None,
            unspent: budget,
        }
    }

    /// The run behind a request more, before which so many objects were held, and which stopped it so, or didn't.
    pub(crate) fn past(self, held: u64, request: &Request, stop: Option<Ending>) -> Course
        ensures { result ≡ past self held request.now stop }
    {
        Course {
            stop: first_of(self.stop, stop),
            unspent: unspent_behind(held, request, self.unspent),
        }
    }

    /// How the text ended that exits so. One that was stopped was so by one of its requests.
    pub(crate) fn ending(self, exit: &Exit, budget: u64) -> Ending
        ensures { result ≡ ending_of exit.now budget self }
    {
        match exit {
            Exit::Return(_) => Ending::Returned,
            Exit::Raise(exception) => Ending::Raised(*exception),
            Exit::Overrun => past_limits(budget, self.unspent),
            Exit::Stopped => match self.stop {
                Some(ending) => ending,
                None => Ending::Worn,
            },
        }
    }
}
