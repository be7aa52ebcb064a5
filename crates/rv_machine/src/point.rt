//! Where a run is: what it turns to next, or what comes to the frame on top. What runs within a body has few bytes, for it is written
//! at each move.

use crate::frame::Count;
use rv_code::Callee;
use rv_event::entry::Exit;
use rv_exec::end::{Cause, End};
use rv_value::Args;

/// Where a run is within a body. Expressions, statements and lists of them stand by their numbers in the unit's table.
#[derive(Clone, Copy)]
pub enum Step {
    /// An expression (4.4).
    Evaluates(usize),
    /// The links behind this value (4.5).
    Links(usize, i64),
    /// The arguments behind these values (6.4.1).
    Argues(usize, Args),
    /// A call with these values (6.4).
    Calls(Callee, Args),
    /// A statement (5.1).
    Runs(usize),
    /// Statements (5.1).
    RunsAll(usize),
    /// Branches, before the statements behind `else` (5.3).
    Tries(usize, usize),
    /// The alternatives for a value (5.4).
    Selects(usize, i64),
    /// So many turns of a loop at most: its condition and its statements (5.5).
    Turns(u64, usize, usize),
    /// The values of a loop's range that are left, and the statements (5.5).
    Counts(Count, usize),
    /// Declarations (3.11).
    Declares(usize),
    /// The value of an expression comes.
    Valued(Result<i64, Cause>),
    /// The values of arguments come, or those that a call gives.
    Listed(Result<Args, Cause>),
    /// The end of a statement comes.
    Done(End),
}

/// Where a run is.
#[derive(Clone, Copy)]
pub enum Point {
    /// Within a body.
    At(Step),
    /// The first request of a call of another object, and the resume of one that waits (9.5).
    Asks(Callee, Args),
    Waits(Callee),
    /// The end of a body, a function's or not, that has come to this with the components of the activation (9.5.1).
    Ends(bool, Result<Args, Cause>),
    /// The end of a task that has come to this (9.3).
    Quits(Result<Args, Cause>),
    /// A line that fires, whose handler is this operation of this object (C.3).
    Fires(usize, usize),
    /// What a body comes to, with the components and the steps of the activation.
    Closes(Result<Args, Cause>),
    /// What a request comes to that starts no body.
    Reaches(Result<Args, Cause>),
    /// A request has started the body of this operation of this object, a function's or not, with the components of the activation.
    Starts(usize, usize, bool),
    /// What a call of another object comes to.
    Outside(Result<Args, Cause>),
    /// How the body of an operation exits, with the components of the activation.
    Exited(Exit),
    /// How a task ends.
    Quitted(Exit),
}
