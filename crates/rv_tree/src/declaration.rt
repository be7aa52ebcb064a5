//! Declarations of packages, protected units and tasks.

use crate::expression::{Expression, RangeConstraint};
use crate::name::{Identifier, Name};

/// An argument of a pragma, `value` or `name => value`.
#[derive(Drop)]
pub struct PragmaArgument {
    pub name: Option<Identifier>,
    pub value: Expression,
}

/// A pragma (ISO/IEC 8652:2012, 2.8); with no arguments it has no parentheses.
#[derive(Drop)]
pub struct Pragma {
    pub at: usize,
    pub name: Identifier,
    pub arguments: Vec<PragmaArgument>,
}

/// An aspect of an aspect specification (13.1.1), `name` or `name => value`.
#[derive(Drop)]
pub struct Aspect {
    pub name: Identifier,
    pub value: Option<Expression>,
}

/// How a parameter is passed, as it was written (6.1): a mode that is not written is `in`.
#[derive(Clone, Copy, Debug, PartialEq, Eq)]
pub enum Mode {
    NotWritten,
    In,
    Out,
    InOut,
}

/// A parameter specification (6.1): one or more names of one mode and subtype.
#[derive(Drop)]
pub struct Parameter {
    pub names: Vec<Identifier>,
    pub mode: Mode,
    pub mark: Name,
}

/// An entry declaration (9.5.2).
#[derive(Drop)]
pub struct EntryDeclaration {
    pub at: usize,
    pub name: Identifier,
    pub parameters: Vec<Parameter>,
}

/// A protected operation declaration (9.4), or a pragma among them.
#[derive(Drop)]
pub enum OperationDeclaration {
    Pragma(Pragma),
    Function {
        at: usize,
        name: Identifier,
        parameters: Vec<Parameter>,
        mark: Name,
    },
    Procedure {
        at: usize,
        name: Identifier,
        parameters: Vec<Parameter>,
        aspects: Vec<Aspect>,
    },
    Entry(EntryDeclaration),
}

/// A protected element declaration (9.4), which stands after `private`.
#[derive(Drop)]
pub enum ProtectedElement {
    Operation(OperationDeclaration),
    Component {
        names: Vec<Identifier>,
        mark: Name,
        range: Option<RangeConstraint>,
        value: Option<Expression>,
    },
}

/// A protected type, or a single protected object (9.4).
#[derive(Drop)]
pub struct ProtectedUnit {
    pub at: usize,
    pub is_type: bool,
    pub name: Identifier,
    pub aspects: Vec<Aspect>,
    pub operations: Vec<OperationDeclaration>,
    /// What stands after `private`, or `None` without that word.
    pub private: Option<Vec<ProtectedElement>>,
    pub end_name: Option<Identifier>,
}

/// An item of a task definition (9.1).
#[derive(Drop)]
pub enum TaskItem {
    Pragma(Pragma),
    Entry(EntryDeclaration),
}

/// What stands between a task's `is` and its `end` (9.1).
#[derive(Drop)]
pub struct TaskDefinition {
    pub items: Vec<TaskItem>,
    pub end_name: Option<Identifier>,
}

/// A single task (9.1).
#[derive(Drop)]
pub struct TaskUnit {
    pub at: usize,
    pub name: Identifier,
    pub aspects: Vec<Aspect>,
    pub definition: Option<TaskDefinition>,
}

/// A declaration of a package.
#[derive(Drop)]
pub enum Declaration {
    Pragma(Pragma),
    /// A subtype declaration (3.2.2).
    Subtype {
        at: usize,
        name: Identifier,
        mark: Name,
        range: Option<RangeConstraint>,
    },
    Protected(ProtectedUnit),
    Task(TaskUnit),
    /// Variables, `A, B : Mark;` (3.3.1).
    Variable {
        names: Vec<Identifier>,
        mark: Name,
    },
    /// Constants (3.3.1), and without a mark numbers (3.3.2).
    Constant {
        names: Vec<Identifier>,
        mark: Option<Name>,
        value: Expression,
    },
}
