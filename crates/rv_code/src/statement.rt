//! Statements (5.1).

use crate::expression::{Callee, Expression};
use rv_event::entry::Exception;
use rv_shape::kind::Range;

/// Where a value is kept.
#[derive(Clone, Copy)]
pub enum Place {
    /// A variable or a parameter of the body, by its slot.
    Variable(usize),
    /// A component of the protected object, by its index from 0.
    Component(usize),
}

/// A place with the range of its values.
#[derive(Clone, Copy)]
pub struct Target {
    pub place: Place,
    pub range: Range,
}

/// A choice of a case alternative (3.8.1).
#[derive(Clone, Copy)]
pub enum Choice {
    /// The values from the first to the second; one value stands twice.
    Values(i64, i64),
    /// `others`.
    Others,
}

/// A condition and the statements behind `then` (5.3).
#[cycle(statement)]
#[derive(Drop)]
pub struct Branch {
    pub condition: Expression,
    pub statements: Vec<Statement>,
}

/// `when Choice | Choice =>` and its statements (5.4).
#[cycle(statement)]
#[derive(Drop)]
pub struct Alternative {
    pub choices: Vec<Choice>,
    pub statements: Vec<Statement>,
}

/// A statement.
#[cycle(statement)]
#[derive(Drop)]
pub enum Statement {
    /// `null;` (5.1).
    Null,
    /// The target takes the value (5.2).
    Assign(Target, Expression),
    /// The condition of `if` and those of each `elsif`, and what stands behind `else`, if anything (5.3).
    If(Vec<Branch>, Vec<Statement>),
    /// A selector and its alternatives (5.4).
    Case(Expression, Vec<Alternative>),
    /// `while`; a loop without a scheme has the condition True (5.5).
    While(Expression, Vec<Statement>),
    /// `for`: the slot of the loop parameter, whether it goes `reverse`, the two bounds, each of which lies in the
    /// range where the loop turns at all (3.5, 5.5).
    For {
        parameter: usize,
        is_reverse: bool,
        range: Range,
        low: Expression,
        high: Expression,
        statements: Vec<Statement>,
    },
    /// `exit when`; an `exit` without a condition has the condition True (5.7).
    ExitWhen(Expression),
    /// `return;` of a procedure, an entry or a task (6.5).
    Return,
    /// `return` of a function, with its value (6.5).
    ReturnValue(Expression),
    /// `raise` with a name (11.3).
    Raise(Exception),
    /// `raise;` in a handler: the exception that it handles (11.3).
    Reraise,
    /// A call as a statement, or a `delay until`: the values of the `in` and `in out` parameters, and the targets of
    /// the `out` and `in out` ones, each in the order of declaration (6.4.1, 9.5.3, 9.6).
    Call(Callee, Vec<Expression>, Vec<Target>),
}
