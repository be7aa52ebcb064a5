//! The parts of an operation's declaration and of its body.

ghost use Rattle.std.specs.Prelude.{◌≡◌, map};
ghost use Rattle.rv_tree.specs.NameView.{identifier_view, name_view};
ghost use Rattle.rv_tree.specs.DeclarationView.{maybe, parameter_view, operation_view};
ghost use Rattle.rv_tree.specs.BodyView.{block_view, operation_body_view};
ghost use Rattle.rv_tree.specs.Operations as parts;

use crate::body::{Block, OperationBody};
use crate::declaration::{OperationDeclaration, Parameter};
use crate::name::{Identifier, Name};

impl OperationDeclaration {
    /// The name of the operation (9.4). A pragma declares none.
    pub fn name(&self) -> Option<&Identifier>
        ensures { maybe (λ i. identifier_view i.now) result ≡ parts.operation_name (operation_view self.now) }
    {
        match self {
            OperationDeclaration::Pragma(_) => None,
            OperationDeclaration::Function { name, .. }
            | OperationDeclaration::Procedure { name, .. } => Some(name),
            OperationDeclaration::Entry(entry) => Some(&entry.name),
        }
    }

    /// Its formal parameters (6.1, 9.5.2).
    pub fn parameters(&self) -> Option<&Vec<Parameter>>
        ensures { maybe (λ list. map parameter_view list.now.items) result ≡ parts.operation_parameters (operation_view self.now) }
    {
        match self {
            OperationDeclaration::Pragma(_) => None,
            OperationDeclaration::Function { parameters, .. }
            | OperationDeclaration::Procedure { parameters, .. } => Some(parameters),
            OperationDeclaration::Entry(entry) => Some(&entry.parameters),
        }
    }

    /// The subtype mark of a function's result (6.1).
    pub fn mark(&self) -> Option<&Name>
        ensures { maybe (λ mark. name_view mark.now) result ≡ parts.operation_mark (operation_view self.now) }
    {
        match self {
            OperationDeclaration::Function { mark, .. } => Some(mark),
            _ => None,
        }
    }

    /// The place of its first word.
    pub fn place(&self) -> usize
        ensures { result ≡ parts.operation_place (operation_view self.now) }
    {
        match self {
            OperationDeclaration::Pragma(given) => given.at,
            OperationDeclaration::Function { at, .. }
            | OperationDeclaration::Procedure { at, .. } => *at,
            OperationDeclaration::Entry(entry) => entry.at,
        }
    }
}

impl OperationBody {
    /// The name of the operation (9.4, 9.5.2).
    pub fn name(&self) -> &Identifier
        ensures { identifier_view result.now ≡ parts.operation_body_name (operation_body_view self.now) }
    {
        match self {
            OperationBody::Function { name, .. }
            | OperationBody::Procedure { name, .. }
            | OperationBody::Entry { name, .. } => name,
        }
    }

    /// Its formal parameters (6.1, 9.5.2).
    pub fn parameters(&self) -> &Vec<Parameter>
        ensures { map parameter_view result.now.items ≡ parts.operation_body_parameters (operation_body_view self.now) }
    {
        match self {
            OperationBody::Function { parameters, .. }
            | OperationBody::Procedure { parameters, .. }
            | OperationBody::Entry { parameters, .. } => parameters,
        }
    }

    /// The subtype mark of a function's result (6.1).
    pub fn mark(&self) -> Option<&Name>
        ensures { maybe (λ mark. name_view mark.now) result ≡ parts.operation_body_mark (operation_body_view self.now) }
    {
        match self {
            OperationBody::Function { mark, .. } => Some(mark),
            _ => None,
        }
    }

    /// Its declarations, statements and handlers (6.3, 9.5.2).
    pub fn block(&self) -> &Block
        ensures { block_view result.now ≡ parts.operation_body_block (operation_body_view self.now) }
    {
        match self {
            OperationBody::Function { block, .. }
            | OperationBody::Procedure { block, .. }
            | OperationBody::Entry { block, .. } => block,
        }
    }
}
