//! What the text says of an operation (6.1, 9.4, 9.5.2).

ghost use Rattle.std.specs.Prelude.{◌≡◌};
ghost use Rattle.rv_tree.specs.DeclarationView.{operation_view};
ghost use Rattle.rv_scope.specs.Heads.{declared_head as head_of_declaration};

use crate::declared::OperationKind;
use rv_tree::declaration::{OperationDeclaration, Parameter};
use rv_tree::name::{Identifier, Name};
use std::marker::Model;

/// An operation's name and kind, its parameters, and the mark of a function's result.
#[derive(Drop)]
pub struct Head<'a> {
    pub name: &'a Identifier,
    pub kind: OperationKind,
    pub parameters: &'a Vec<Parameter>,
    pub mark: Option<&'a Name>,
}

impl<'a> Model for Head<'a> {
    ghost use Rattle.std.specs.Prelude.{map};
    ghost use Rattle.rv_tree.specs.NameView.{identifier_view, name_view};
    ghost use Rattle.rv_tree.specs.DeclarationView.{maybe, parameter_view};
    ghost use Rattle.rv_scope.specs.Heads.{Head as HeadView};

    ghost Value = { HeadView };

    ghost view = { λ h. record {
      name = identifier_view h.name.now;
      kind = h.kind;
      parameters = map parameter_view h.parameters.now.items;
      mark = maybe (λ n. name_view n.now) h.mark;
    } };
}

/// What its declaration says, if it is none of a pragma.
pub fn declared_head(one: &OperationDeclaration) -> Option<Head<'_>>
    ensures { result ≡ head_of_declaration (operation_view one.now) }
{
    match one {
        OperationDeclaration::Pragma(_) => None,
        OperationDeclaration::Function {
            name,
            parameters,
            mark,
            ..
        } => Some(Head {
            name,
            kind: OperationKind::Function,
            parameters,
            mark: Some(mark),
        }),
        OperationDeclaration::Procedure {
            name,
            parameters,
            ..
        } => Some(Head {
            name,
            kind: OperationKind::Procedure,
            parameters,
            mark: None,
        }),
        OperationDeclaration::Entry(entry) => Some(Head {
            name: &entry.name,
            kind: OperationKind::Entry,
            parameters: &entry.parameters,
            mark: None,
        }),
    }
}
