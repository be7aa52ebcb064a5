//! The tree of a unit text: what the text says, in the terms of ISO/IEC 8652:2012, each node with its place.
#![tactic(auto)]

pub mod body;
pub mod declaration;
mod declared_names;
pub mod expression;
pub mod laws;
pub mod name;
mod operation;
mod place;
mod print_body;
mod print_declaration;
mod print_expression;
mod print_iteration;
mod print_name;
mod print_part;
mod print_simple;
mod print_statement;
mod print_unit;
mod printer;
pub mod statement;
pub mod unit;

pub use body::{Block, ExceptionChoice, Handler, Local, OperationBody, ProtectedBody, TaskBody};
pub use declaration::{
    Aspect, Declaration, EntryDeclaration, Mode, OperationDeclaration, Parameter, Pragma,
    PragmaArgument, ProtectedElement, ProtectedUnit, TaskDefinition, TaskItem, TaskUnit,
};
pub use expression::{
    AddingOperator, Expression, Factor, HighestOperator, LogicalOperator, MultiplyingOperator,
    RangeConstraint, RelationalOperator, Term,
};
pub use name::{Identifier, Name};
pub use print_unit::print;
pub use statement::{
    CaseAlternative, Choice, ElsifPart, Guard, Iteration, LoopBounds, SelectAlternative, Statement,
};
pub use unit::{BodyItem, ContextItem, PackageBody, PackageSpecification, UnitTree};
