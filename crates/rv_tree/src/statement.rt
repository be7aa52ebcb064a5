//! Statements (ISO/IEC 8652:2012, 5.1).

use crate::declaration::Parameter;
use crate::expression::{Expression, RangeConstraint};
use crate::name::{Identifier, Name};

/// A choice of a case alternative (3.8.1).
#[derive(Drop)]
pub enum Choice {
    Others(usize),
    Value(Expression),
    Range(Expression, Expression),
}

/// What a loop parameter goes over (3.6.1): one expression, two bounds, or a subtype with a range.
#[derive(Drop)]
pub enum LoopBounds {
    Whole(Expression),
    Between(Expression, Expression),
    Constrained(Name, RangeConstraint),
}

/// How often a loop turns (5.5).
#[derive(Drop)]
pub enum Iteration {
    Forever,
    While(Expression),
    For {
        parameter: Identifier,
        is_reverse: bool,
        bounds: LoopBounds,
    },
}

/// `when Condition =>` before a select alternative (9.7.1).
#[derive(Drop)]
pub struct Guard {
    pub at: usize,
    pub condition: Expression,
}

/// `elsif Condition then` and its statements (5.3).
#[cycle(statement)]
#[derive(Drop)]
pub struct ElsifPart {
    pub at: usize,
    pub condition: Expression,
    pub statements: Vec<Statement>,
}

/// `when Choice | Choice =>` and its statements (5.4).
#[cycle(statement)]
#[derive(Drop)]
pub struct CaseAlternative {
    pub at: usize,
    pub choices: Vec<Choice>,
    pub statements: Vec<Statement>,
}

/// An alternative of a select statement (9.7).
#[cycle(statement)]
#[derive(Drop)]
pub enum SelectAlternative {
    Statements(Option<Guard>, Vec<Statement>),
    Terminate(Option<Guard>, usize),
}

/// A statement, with the place of its first word where that is a word of its own. A list of statements that stands
/// for a part with a word of its own (`else`, `then abort`, `do`) is empty where that part isn't there.
#[cycle(statement)]
#[derive(Drop)]
pub enum Statement {
    Null(usize),
    Assignment(Name, Expression),
    /// A call of a procedure or an entry; with no arguments it has no parentheses (6.4, 9.5.3).
    Call(Name, Vec<Expression>),
    If {
        at: usize,
        condition: Expression,
        statements: Vec<Statement>,
        elsif_parts: Vec<ElsifPart>,
        else_statements: Vec<Statement>,
    },
    Case {
        at: usize,
        selector: Expression,
        alternatives: Vec<CaseAlternative>,
    },
    /// Its place is that of `while`, `for` or `loop`.
    Loop {
        at: usize,
        iteration: Iteration,
        statements: Vec<Statement>,
    },
    Exit(usize, Option<Expression>),
    Return(usize, Option<Expression>),
    Raise(usize, Option<Name>),
    Delay {
        at: usize,
        is_until: bool,
        time: Expression,
    },
    Abort(usize, Vec<Name>),
    Requeue {
        at: usize,
        target: Name,
        with_abort: bool,
    },
    Accept {
        at: usize,
        entry: Identifier,
        parameters: Vec<Parameter>,
        statements: Vec<Statement>,
        end_name: Option<Identifier>,
    },
    Select {
        at: usize,
        alternatives: Vec<SelectAlternative>,
        else_statements: Vec<Statement>,
        abort_statements: Vec<Statement>,
    },
}
