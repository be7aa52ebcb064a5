//! Places: that of a node is the place of the first word of what derives it (`laws`).

ghost use Rattle.std.specs.Prelude.{◌≡◌};
ghost use Rattle.rv_tree.specs.NameView.{identifiers_view, name_view};
ghost use Rattle.rv_tree.specs.ExpressionView.{expression_view};
ghost use Rattle.rv_tree.specs.StatementView.{statement_view};
ghost use Rattle.rv_tree.specs.DeclarationView.{declaration_view};
ghost use Rattle.rv_tree.specs.BodyView.{local_view};
ghost use Rattle.rv_tree.specs.Places as places;

use crate::body::Local;
use crate::declaration::Declaration;
use crate::expression::Expression;
use crate::name::{Identifier, Name};
use crate::statement::Statement;

impl Name {
    /// The place of its first identifier.
    pub fn place(&self) -> usize
        ensures { result ≡ places.name_place (name_view self.now) }
    {
        self.first.at
    }
}

// The place of the first identifier; 0 where there is none.
fn names_place(names: &[Identifier]) -> usize
    ensures { result ≡ places.names_place (identifiers_view names.now) }
{
    match names.first() {
        Some(name) => name.at,
        None => 0,
    }
}

impl Expression {
    /// The place of its first word.
    pub fn place(&self) -> usize
        ensures { result ≡ places.expression_place (expression_view self.now) }
    {
        match self {
            Expression::Literal(at, _)
            | Expression::Parenthesized(at, _)
            | Expression::Highest(at, _, _)
            | Expression::Signed(at, _, _) => *at,
            Expression::Name(name) | Expression::Attribute(name, _) | Expression::Call(name, _) => {
                name.place()
            }
            Expression::Product(first, _) => first.place(),
            Expression::Sum(first, _) => first.place(),
            Expression::Relation(first, _, _) => first.place(),
            Expression::Logical(_, first, _) => first.place(),
        }
    }
}

impl Statement {
    /// The place of its first word.
    pub fn place(&self) -> usize
        ensures { result ≡ places.statement_place (statement_view self.now) }
    {
        match self {
            Statement::Null(at)
            | Statement::Exit(at, _)
            | Statement::Return(at, _)
            | Statement::Raise(at, _)
            | Statement::Abort(at, _)
            | Statement::If { at, .. }
            | Statement::Case { at, .. }
            | Statement::Loop { at, .. }
            | Statement::Delay { at, .. }
            | Statement::Requeue { at, .. }
            | Statement::Accept { at, .. }
            | Statement::Select { at, .. } => *at,
            Statement::Assignment(name, _) | Statement::Call(name, _) => name.place(),
        }
    }
}

impl Declaration {
    /// The place of its first word.
    pub fn place(&self) -> usize
        ensures { result ≡ places.declaration_place (declaration_view self.now) }
    {
        match self {
            Declaration::Pragma(given) => given.at,
            Declaration::Subtype { at, .. } => *at,
            Declaration::Protected(unit) => unit.at,
            Declaration::Task(unit) => unit.at,
            Declaration::Variable { names, .. } | Declaration::Constant { names, .. } => {
                names_place(names)
            }
        }
    }
}

impl Local {
    /// The place of its first word.
    pub fn place(&self) -> usize
        ensures { result ≡ places.local_place (local_view self.now) }
    {
        match self {
            Local::Object { names, .. } => names_place(names),
            Local::Pragma(given) => given.at,
            Local::Protected(unit) => unit.at,
            Local::Task(unit) => unit.at,
        }
    }
}
