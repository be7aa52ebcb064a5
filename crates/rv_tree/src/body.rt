//! Blocks, and the bodies of operations, protected units and tasks.

use crate::declaration::{Parameter, Pragma, ProtectedUnit, TaskUnit};
use crate::expression::{Expression, RangeConstraint};
use crate::name::{Identifier, Name};
use crate::statement::Statement;

/// A declaration of a block.
#[derive(Drop)]
pub enum Local {
    Object {
        names: Vec<Identifier>,
        is_constant: bool,
        mark: Name,
        range: Option<RangeConstraint>,
        value: Option<Expression>,
    },
    Pragma(Pragma),
    Protected(ProtectedUnit),
    Task(TaskUnit),
}

/// A choice of an exception handler (11.2).
#[derive(Drop)]
pub enum ExceptionChoice {
    Name(Name),
    Others(usize),
}

/// An exception handler (11.2).
#[derive(Drop)]
pub struct Handler {
    pub at: usize,
    pub choices: Vec<ExceptionChoice>,
    pub statements: Vec<Statement>,
}

/// Declarations, statements and handlers of a body (6.3, 11.2); with no handlers it has no `exception`.
#[derive(Drop)]
pub struct Block {
    pub locals: Vec<Local>,
    pub statements: Vec<Statement>,
    pub handlers: Vec<Handler>,
    pub end_name: Option<Identifier>,
}

/// The body of a protected operation (9.4, 9.5.2).
#[derive(Drop)]
pub enum OperationBody {
    Function {
        at: usize,
        name: Identifier,
        parameters: Vec<Parameter>,
        mark: Name,
        block: Block,
    },
    Procedure {
        at: usize,
        name: Identifier,
        parameters: Vec<Parameter>,
        block: Block,
    },
    Entry {
        at: usize,
        name: Identifier,
        parameters: Vec<Parameter>,
        barrier: Expression,
        block: Block,
    },
}

/// A protected body (9.4).
#[derive(Drop)]
pub struct ProtectedBody {
    pub at: usize,
    pub name: Identifier,
    pub operations: Vec<OperationBody>,
    pub end_name: Option<Identifier>,
}

/// A task body (9.1).
#[derive(Drop)]
pub struct TaskBody {
    pub at: usize,
    pub name: Identifier,
    pub block: Block,
}
