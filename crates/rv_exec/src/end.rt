//! How statements and bodies end.

use rv_event::entry::{Exception, Exit};
use rv_value::{Args, Scalars};

/// Why a construct is abandoned (11.4).
#[derive(Clone, Copy)]
pub enum Cause {
    /// An exception (11.4).
    Raised(Exception),
    /// The limit of steps, of nested calls or of requests is passed; no handler sees it (own).
    Overrun,
    /// The host gave no answer to go on from, and whether that left the actor waiting for nothing (own).
    Stopped(bool),
}

/// How a statement ends.
#[derive(Clone, Copy)]
pub enum End {
    /// The next statement follows.
    Next,
    /// The innermost loop is left (5.7).
    Exit,
    /// The body returns, with a value where it is a function's (6.5).
    Return(Option<i64>),
    /// The statement is abandoned.
    Abandoned(Cause),
}

/// What a request comes to.
#[derive(Clone, Copy)]
pub enum Asked {
    /// It is carried out, with the values that it gives.
    Given(Args),
    /// What asked is abandoned.
    Abandoned(Cause),
    /// The body of an operation has started: the object, the operation, whether it is a function, and the values of
    /// the object's components.
    Started(usize, usize, bool, Scalars),
}

/// What the first answer to a request comes to.
#[derive(Clone, Copy)]
pub enum Reply {
    Settled(Asked),
    /// The actor waits, and resumes.
    Waits,
}

/// How a body ended, with the object's components as it leaves them.
#[derive(Clone, Copy)]
pub struct Ended {
    pub scalars: Scalars,
    pub exit: Exit,
}
