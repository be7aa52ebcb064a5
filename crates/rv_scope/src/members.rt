//! Points of a text: what a walk through its declarations declares on the way (8.1, 8.3).

ghost use Rattle.std.specs.Prelude.{◌≡◌, OnOk, Some, map};
ghost use Rattle.std.specs.Option.{option_map};
ghost use Rattle.rv_tree.specs.NameView.{identifier_view, identifiers_view, name_view};
ghost use Rattle.rv_tree.specs.DeclarationView.{parameter_view, operation_view, element_view, protected_unit_view};
ghost use Rattle.rv_scope.specs.Scope.{with_meaning, hiding, hiding_all, declaring_all, OnlyDeclares, entered};
ghost use Rattle.rv_scope.specs.Visible.{visible};
ghost use Rattle.rv_scope.specs.DeclarationUses.{declaring_operation, declared_operation as operation_declared, object_form as form_of_objects, with_parameters, with_operation, with_operations, with_element, with_elements, with_members};

use crate::declare::{Form, declare_all};
use crate::declared::{Declared, OperationKind};
use crate::head::declared_head;
use crate::scope::Scope;
use crate::units::object_form;
use rv_tree::declaration::{OperationDeclaration, Parameter, ProtectedElement, ProtectedUnit};
use rv_tree::name::{Identifier, Name};
use std::alloc::AllocError;

/// An identifier inside its own declaration, where it denotes nothing and hides what it denoted (8.3).
pub fn hide(declared: &Identifier, scope: &mut Scope) -> Result<(), AllocError>
    ensures { OnOk result (scope.new ≡ hiding (identifier_view declared.now) scope.old) }
{
    scope.declare(declared, None)
}

/// An identifier: hidden in its declaration, and behind it declared.
pub fn declare_identifier(
    declared: &Identifier,
    meaning: Declared,
    scope: &mut Scope,
) -> Result<(), AllocError>
    ensures { OnOk result (scope.new
        ≡ with_meaning (identifier_view declared.now) (Some meaning) (hiding (identifier_view declared.now) scope.old)) }
{
    hide(declared, scope)?;
    scope.declare(declared, Some(meaning))
}

/// Identifiers inside their own declaration.
pub fn hide_all(declared: &Vec<Identifier>, scope: &mut Scope) -> Result<(), AllocError>
    ensures scope { OnOk result (scope.new ≡ hiding_all (identifiers_view declared.now.items) scope.old) }
    ensures only { OnOk result (OnlyDeclares scope.old scope.new) }
{
    for identifier in declared {
        hide(identifier, scope)?;
    }
    Ok(())
}

/// The identifiers of a declaration: hidden in it, and behind it declared.
pub fn declare_names(
    names: &Vec<Identifier>,
    form: Form,
    scope: &mut Scope,
) -> Result<(), AllocError>
    ensures scope { OnOk result (scope.new
        ≡ declaring_all form (identifiers_view names.now.items) (hiding_all (identifiers_view names.now.items) scope.old)) }
    ensures only { OnOk result (OnlyDeclares scope.old scope.new) }
{
    hide_all(names, scope)?;
    declare_all(names, form, scope)
}

/// The variables of a package, which were hidden in their declaration: what they denote is told by what their mark
/// denotes there (3.3.1).
pub fn declare_variables(
    names: &Vec<Identifier>,
    mark: &Name,
    scope: &mut Scope,
) -> Result<(), AllocError>
    ensures { OnOk result (scope.new
        ≡ declaring_all (form_of_objects (visible scope.old (name_view mark.now))) (identifiers_view names.now.items) scope.old) }
{
    let form = object_form(scope.visible(mark));
    declare_all(names, form, scope)?;
    Ok(())
}

/// The parameters of an operation are declared (6.1).
pub fn declare_parameters(list: &Vec<Parameter>, scope: &mut Scope) -> Result<(), AllocError>
    ensures scope { OnOk result (scope.new ≡ with_parameters (map parameter_view list.now.items) scope.old) }
    ensures only { OnOk result (OnlyDeclares scope.old scope.new) }
{
    for one in list {
        declare_names(&one.names, Form::Parameter, scope)?;
    }
    Ok(())
}

/// An operation's identifier is declared, behind its declaration (9.4).
pub fn declare_operation(
    declared: &Identifier,
    kind: OperationKind,
    scope: &mut Scope,
) -> Result<(), AllocError>
    ensures { OnOk result (scope.new ≡ declaring_operation kind (identifier_view declared.now) scope.old) }
{
    scope.declare(declared, Some(Declared::Operation(declared.at, kind)))
}

/// The identifier that the declaration of an operation declares, and the operation's kind. A pragma declares none.
pub fn declared_operation(one: &OperationDeclaration) -> Option<(&Identifier, OperationKind)>
    ensures { option_map (λ named. (identifier_view named.0.now, named.1)) result ≡ operation_declared (operation_view one.now) }
{
    let head = declared_head(one)?;
    Some((head.name, head.kind))
}

/// The identifier that an operation's declaration declares.
pub fn operation(one: &OperationDeclaration, scope: &mut Scope) -> Result<(), AllocError>
    ensures scope { OnOk result (scope.new ≡ with_operation (operation_view one.now) scope.old) }
    ensures only { OnOk result (OnlyDeclares scope.old scope.new) }
{
    match declared_operation(one) {
        None => Ok(()),
        Some((declared, kind)) => {
            declare_identifier(declared, Declared::Operation(declared.at, kind), scope)
        }
    }
}

fn operations(list: &Vec<OperationDeclaration>, scope: &mut Scope) -> Result<(), AllocError>
    ensures scope { OnOk result (scope.new ≡ with_operations (map operation_view list.now.items) scope.old) }
    ensures only { OnOk result (OnlyDeclares scope.old scope.new) }
{
    for one in list {
        operation(one, scope)?;
    }
    Ok(())
}

/// The identifiers that an element of a protected unit declares.
pub fn element(one: &ProtectedElement, scope: &mut Scope) -> Result<(), AllocError>
    ensures scope { OnOk result (scope.new ≡ with_element (element_view one.now) scope.old) }
    ensures only { OnOk result (OnlyDeclares scope.old scope.new) }
{
    match one {
        ProtectedElement::Operation(one) => operation(one, scope),
        ProtectedElement::Component {
            names,
            mark: _,
            range: _,
            value: _,
        } => declare_names(names, Form::Component, scope),
    }
}

fn elements(list: &Vec<ProtectedElement>, scope: &mut Scope) -> Result<(), AllocError>
    ensures scope { OnOk result (scope.new ≡ with_elements (map element_view list.now.items) scope.old) }
    ensures only { OnOk result (OnlyDeclares scope.old scope.new) }
{
    for one in list {
        element(one, scope)?;
    }
    Ok(())
}

/// A region begins in which all operations and components of a protected unit are declared, as in its body (9.4).
pub fn enter_members(unit: &ProtectedUnit, scope: &mut Scope) -> Result<(), AllocError>
    ensures scope { OnOk result (scope.new ≡ with_members (protected_unit_view unit.now) scope.old) }
    ensures only { OnOk result (OnlyDeclares (entered scope.old) scope.new) }
{
    scope.enter()?;
    operations(&unit.operations, scope)?;
    match &unit.private {
        None => Ok(()),
        Some(list) => elements(list, scope),
    }
}
