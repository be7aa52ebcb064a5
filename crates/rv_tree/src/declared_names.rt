//! The identifiers that a declaration declares, in the order of the text.

ghost use Rattle.std.specs.Prelude.{◌≡◌};
ghost use Rattle.rv_tree.specs.NameView.{identifiers_view};
ghost use Rattle.rv_tree.specs.DeclarationView.{operation_view, element_view, declaration_view};
ghost use Rattle.rv_tree.specs.BodyView.{local_view};
ghost use Rattle.rv_tree.specs.DeclaredNames as declared;

use crate::body::Local;
use crate::declaration::{Declaration, OperationDeclaration, ProtectedElement};
use crate::name::Identifier;
use std::slice::from_ref;

impl OperationDeclaration {
    /// The name of the operation. A pragma declares none.
    pub fn names(&self) -> &[Identifier]
        ensures { identifiers_view result.now ≡ declared.operation_names (operation_view self.now) }
    {
        match self.name() {
            None => &[],
            Some(name) => from_ref(name),
        }
    }
}

impl ProtectedElement {
    /// The name of an operation, or those of components.
    pub fn names(&self) -> &[Identifier]
        ensures { identifiers_view result.now ≡ declared.element_names (element_view self.now) }
    {
        match self {
            ProtectedElement::Operation(one) => one.names(),
            ProtectedElement::Component { names, .. } => names.as_slice(),
        }
    }
}

impl Declaration {
    /// What a declaration of a package declares.
    pub fn names(&self) -> &[Identifier]
        ensures { identifiers_view result.now ≡ declared.declaration_names (declaration_view self.now) }
    {
        match self {
            Declaration::Pragma(_) => &[],
            Declaration::Subtype { name, .. } => from_ref(name),
            Declaration::Protected(unit) => from_ref(&unit.name),
            Declaration::Task(unit) => from_ref(&unit.name),
            Declaration::Variable { names, .. } | Declaration::Constant { names, .. } => {
                names.as_slice()
            }
        }
    }
}

impl Local {
    /// What a declaration of a block declares.
    pub fn names(&self) -> &[Identifier]
        ensures { identifiers_view result.now ≡ declared.local_names (local_view self.now) }
    {
        match self {
            Local::Object { names, .. } => names.as_slice(),
            Local::Pragma(_) => &[],
            Local::Protected(unit) => from_ref(&unit.name),
            Local::Task(unit) => from_ref(&unit.name),
        }
    }
}
