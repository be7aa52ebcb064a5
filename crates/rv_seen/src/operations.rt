//! What is declared at a place of a protected unit's declaration (6.1, 9.4).

ghost use Rattle.std.specs.Prelude.{◌≡◌, OnOk, map, nat_le, if◌then◌else◌};
ghost use Rattle.rv_tree.specs.NameView.{identifier_view, name_view};
ghost use Rattle.rv_tree.specs.DeclarationView.{maybe, aspect_view, parameter_view, operation_view, element_view, protected_unit_view};
ghost use Rattle.rv_tree.specs.Places.{name_place};
ghost use Rattle.rv_scope.specs.Scope.{entered, hiding, within_unit};
ghost use Rattle.rv_scope.specs.DeclarationUses.{with_parameters, with_operations, naming_unit};
ghost use Rattle.rv_seen.specs.Begun.{has_begun};
ghost use Rattle.rv_seen.specs.At.{at_parameters, at_operation, at_operations, at_element, at_elements, before_private as at_public, in_parts};

use crate::begun::{
    have_aspects_begun, have_elements_begun, have_operations_begun, have_parameters_begun,
    parameter_place,
};
use rv_scope::declare::Form;
use rv_scope::members::{
    declare_names, declare_parameters, element as declare_element, hide, hide_all,
    operation as declare_operation,
};
use rv_scope::scope::Scope;
use rv_tree::declaration::{
    Aspect, OperationDeclaration, Parameter, ProtectedElement, ProtectedUnit,
};
use rv_tree::name::{Identifier, Name};
use std::alloc::AllocError;

/// Parameters of an operation, in the region that is theirs.
pub(crate) fn parameters(
    list: &[Parameter],
    place: usize,
    scope: &mut Scope,
) -> Result<(), AllocError>
    ensures { OnOk result (scope.new ≡ at_parameters place (map parameter_view list.now) scope.old) }
{
    let mut rest = list;
    while let [one, more @ ..] = rest {
        if !have_parameters_begun(more, place) {
            if parameter_place(one) <= place {
                return hide_all(&one.names, scope);
            }
            return Ok(());
        }
        declare_names(&one.names, Form::Parameter, scope)?;
        rest = more;
    }
    Ok(())
}

// The parameters of a declaration, in a region of their own.
fn profile(list: &Vec<Parameter>, place: usize, scope: &mut Scope) -> Result<(), AllocError>
    ensures { OnOk result (scope.new ≡ at_parameters place (map parameter_view list.now.items) (entered scope.old)) }
{
    scope.enter()?;
    parameters(list.as_slice(), place, scope)
}

fn function(
    list: &Vec<Parameter>,
    mark: &Name,
    place: usize,
    scope: &mut Scope,
) -> Result<(), AllocError>
    ensures { OnOk result (scope.new ≡ (if nat_le (name_place (name_view mark.now)) place then with_parameters (map parameter_view list.now.items) (entered scope.old)
        else at_parameters place (map parameter_view list.now.items) (entered scope.old))) }
{
    if mark.place() <= place {
        scope.enter()?;
        return declare_parameters(list, scope);
    }
    profile(list, place, scope)
}

fn procedure(
    declared: &Identifier,
    list: &Vec<Parameter>,
    aspects: &Vec<Aspect>,
    place: usize,
    scope: &mut Scope,
) -> Result<(), AllocError>
    ensures { OnOk result (scope.new ≡ (if has_begun (λ aspect. aspect.name.at) place (map aspect_view aspects.now.items) then hiding (identifier_view declared.now) scope.old
        else at_parameters place (map parameter_view list.now.items) (entered scope.old))) }
{
    if have_aspects_begun(aspects.as_slice(), place) {
        return hide(declared, scope);
    }
    profile(list, place, scope)
}

fn operation(one: &OperationDeclaration, place: usize, scope: &mut Scope) -> Result<(), AllocError>
    ensures { OnOk result (scope.new ≡ at_operation place (operation_view one.now) scope.old) }
{
    match one {
        OperationDeclaration::Pragma(_) => Ok(()),
        OperationDeclaration::Function {
            parameters: list,
            mark,
            ..
        } => function(list, mark, place, scope),
        OperationDeclaration::Procedure {
            name,
            parameters: list,
            aspects,
            ..
        } => procedure(name, list, aspects, place, scope),
        OperationDeclaration::Entry(entry) => profile(&entry.parameters, place, scope),
    }
}

fn operations(
    list: &[OperationDeclaration],
    place: usize,
    scope: &mut Scope,
) -> Result<(), AllocError>
    ensures { OnOk result (scope.new ≡ at_operations place (map operation_view list.now) scope.old) }
{
    let mut rest = list;
    while let [one, more @ ..] = rest {
        if !have_operations_begun(more, place) {
            return operation(one, place, scope);
        }
        declare_operation(one, scope)?;
        rest = more;
    }
    Ok(())
}

fn element(one: &ProtectedElement, place: usize, scope: &mut Scope) -> Result<(), AllocError>
    ensures { OnOk result (scope.new ≡ at_element place (element_view one.now) scope.old) }
{
    match one {
        ProtectedElement::Operation(one) => operation(one, place, scope),
        ProtectedElement::Component { names, .. } => hide_all(names, scope),
    }
}

fn elements(list: &[ProtectedElement], place: usize, scope: &mut Scope) -> Result<(), AllocError>
    ensures { OnOk result (scope.new ≡ at_elements place (map element_view list.now) scope.old) }
{
    let mut rest = list;
    while let [one, more @ ..] = rest {
        if !have_elements_begun(more, place) {
            return element(one, place, scope);
        }
        declare_element(one, scope)?;
        rest = more;
    }
    Ok(())
}

// All operations before `private` are declared, in a region of their own.
fn enter_operations(list: &Vec<OperationDeclaration>, scope: &mut Scope) -> Result<(), AllocError>
    ensures { OnOk result (scope.new ≡ with_operations (map operation_view list.now.items) (entered scope.old)) }
{
    scope.enter()?;
    for one in list {
        declare_operation(one, scope)?;
    }
    Ok(())
}

// The parts of a unit before `private`.
fn before_private(unit: &ProtectedUnit, place: usize, scope: &mut Scope) -> Result<(), AllocError>
    ensures { OnOk result (scope.new ≡ at_public place (protected_unit_view unit.now) scope.old) }
{
    if have_operations_begun(unit.operations.as_slice(), place) {
        scope.enter()?;
        return operations(unit.operations.as_slice(), place, scope);
    }
    Ok(())
}

// The parts of a unit, those behind `private` too.
fn unit_parts(unit: &ProtectedUnit, place: usize, scope: &mut Scope) -> Result<(), AllocError>
    ensures { OnOk result (scope.new
        ≡ in_parts place (protected_unit_view unit.now) (protected_unit_view unit.now).private scope.old) }
{
    match &unit.private {
        None => before_private(unit, place, scope),
        Some(list) => {
            if have_elements_begun(list.as_slice(), place) {
                enter_operations(&unit.operations, scope)?;
                return elements(list.as_slice(), place, scope);
            }
            before_private(unit, place, scope)
        }
    }
}

/// The declaration of a protected unit.
pub(crate) fn unit_declaration(
    unit: &ProtectedUnit,
    place: usize,
    scope: &mut Scope,
) -> Result<(), AllocError>
    ensures { OnOk result (scope.new ≡ in_parts place (protected_unit_view unit.now) (protected_unit_view unit.now).private
        (within_unit unit.now.name.at (naming_unit (protected_unit_view unit.now) scope.old))) }
{
    scope.enter_declaration(unit)?;
    unit_parts(unit, place, scope)
}
