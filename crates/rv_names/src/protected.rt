//! The names that protected units use, and what they declare.

ghost use Rattle.std.specs.Prelude.{◌≡◌, OnOk, map};
ghost use Rattle.rv_tree.specs.NameView.{identifier_view, identifiers_view, name_view};
ghost use Rattle.rv_tree.specs.DeclarationView.{maybe, aspect_view, parameter_view, operation_view, element_view, protected_unit_view};
ghost use Rattle.rv_scope.specs.Bound.{judged};
ghost use Rattle.rv_scope.specs.Scope.{OnlyDeclares, declaring_all, hiding_all, hiding, entered};
ghost use Rattle.rv_scope.specs.ExpressionUses.{◌▷◌, maybe_uses};
ghost use Rattle.rv_scope.specs.DeclarationUses.{aspects_uses, parameters_uses, with_parameters, declaring_operation, operation_uses, with_operation, operations_uses, with_operations, element_uses, with_element, elements_uses, with_elements, private_uses, with_private, with_members, parts_uses, protected_unit_uses, declaring_protected_unit};

use crate::expression::name;
use crate::fault::Faults;
use crate::object::objects;
use crate::pragma::{aspects, pragma, procedure_rules, protected_rules};
use rv_scope::declare::{Form, declare_all};
use rv_scope::declared::OperationKind;
use rv_scope::members::{declare_operation, hide, hide_all};
use rv_scope::scope::Scope;
use rv_scope::wanted::Wanted;
use rv_tree::declaration::{
    Aspect, OperationDeclaration, Parameter, ProtectedElement, ProtectedUnit,
};
use rv_tree::name::{Identifier, Name};
use std::alloc::AllocError;

// A parameter specification.
fn parameter(part: &Parameter, scope: &mut Scope, faults: &mut Faults) -> Result<(), AllocError>
    ensures faults { OnOk result (faults.new
        ≡ judged (hiding_all (identifiers_view part.now.names.items) scope.old) Wanted.Subtype (name_view part.now.mark) faults.old) }
    ensures scope { OnOk result (scope.new
        ≡ declaring_all Form.Parameter (identifiers_view part.now.names.items) (hiding_all (identifiers_view part.now.names.items) scope.old)) }
    ensures only { OnOk result (OnlyDeclares scope.old scope.new) }
{
    hide_all(&part.names, scope)?;
    name(&part.mark, Wanted::Subtype, scope, faults);
    declare_all(&part.names, Form::Parameter, scope)
}

// Parameter specifications, one after another.
fn parameter_list(
    list: &Vec<Parameter>,
    scope: &mut Scope,
    faults: &mut Faults,
) -> Result<(), AllocError>
    ensures faults { OnOk result (faults.new ≡ parameters_uses judged scope.old (map parameter_view list.now.items) faults.old) }
    ensures scope { OnOk result (scope.new ≡ with_parameters (map parameter_view list.now.items) scope.old) }
    ensures only { OnOk result (OnlyDeclares scope.old scope.new) }
{
    for one in list {
        parameter(one, scope, faults)?;
    }
    Ok(())
}

/// The parameters of an operation, in the innermost region.
pub(crate) fn parameters<'a>(
    list: &'a Vec<Parameter>,
    scope: &mut Scope,
    faults: &mut Faults<'a>,
) -> Result<(), AllocError>
    ensures faults { OnOk result (faults.new ≡ parameters_uses judged scope.old (map parameter_view list.now.items) faults.old) }
    ensures scope { OnOk result (scope.new ≡ with_parameters (map parameter_view list.now.items) scope.old) }
    ensures only { OnOk result (OnlyDeclares scope.old scope.new) }
{
    faults.set_parameters(Some(list));
    parameter_list(list, scope, faults)?;
    faults.set_parameters(None);
    Ok(())
}

// The mark of a result, if there is one.
fn result_mark(mark: Option<&Name>, scope: &Scope, faults: &mut Faults)
    ensures { faults.new
        ≡ maybe_uses (judged scope.now Wanted.Subtype) (maybe (λ n. name_view n.now) mark.entry) faults.old }
{
    match mark {
        None => {}
        Some(mark) => name(mark, Wanted::Subtype, scope, faults),
    }
}

// The parameters of a declaration, which stand in a region of their own, and the mark of a result behind them.
fn profile<'a>(
    list: &'a Vec<Parameter>,
    mark: Option<&Name>,
    scope: &mut Scope,
    faults: &mut Faults<'a>,
) -> Result<(), AllocError>
    ensures faults { OnOk result (faults.new ≡ (parameters_uses judged (entered scope.old) (map parameter_view list.now.items)
        ▷ maybe_uses (judged (with_parameters (map parameter_view list.now.items) (entered scope.old)) Wanted.Subtype)
        (maybe (λ n. name_view n.now) mark.entry)) faults.old) }
    ensures scope { OnOk result (scope.new ≡ scope.old) }
{
    scope.enter()?;
    parameters(list, scope, faults)?;
    result_mark(mark, scope, faults);
    scope.leave();
    Ok(())
}

fn function<'a>(
    declared: &Identifier,
    list: &'a Vec<Parameter>,
    mark: &Name,
    scope: &mut Scope,
    faults: &mut Faults<'a>,
) -> Result<(), AllocError>
    ensures faults { OnOk result (faults.new
        ≡ (parameters_uses judged (entered scope.old) (map parameter_view list.now.items)
        ▷ judged (with_parameters (map parameter_view list.now.items) (entered scope.old)) Wanted.Subtype (name_view mark.now)) faults.old) }
    ensures scope { OnOk result (scope.new
        ≡ declaring_operation OperationKind.Function (identifier_view declared.now) (hiding (identifier_view declared.now) scope.old)) }
{
    profile(list, Some(mark), scope, faults)?;
    hide(declared, scope)?;
    declare_operation(declared, OperationKind::Function, scope)
}

fn procedure<'a>(
    declared: &Identifier,
    list: &'a Vec<Parameter>,
    given: &Vec<Aspect>,
    scope: &mut Scope,
    faults: &mut Faults<'a>,
) -> Result<(), AllocError>
    ensures faults { OnOk result (faults.new
        ≡ (parameters_uses judged (entered scope.old) (map parameter_view list.now.items)
        ▷ aspects_uses judged (hiding (identifier_view declared.now) scope.old) (map aspect_view given.now.items)) faults.old) }
    ensures scope { OnOk result (scope.new
        ≡ declaring_operation OperationKind.Procedure (identifier_view declared.now) (hiding (identifier_view declared.now) scope.old)) }
{
    profile(list, None, scope, faults)?;
    hide(declared, scope)?;
    aspects(given, scope, faults);
    procedure_rules(list, given, faults);
    declare_operation(declared, OperationKind::Procedure, scope)
}

fn entry<'a>(
    declared: &Identifier,
    list: &'a Vec<Parameter>,
    scope: &mut Scope,
    faults: &mut Faults<'a>,
) -> Result<(), AllocError>
    ensures faults { OnOk result (faults.new
        ≡ parameters_uses judged (entered scope.old) (map parameter_view list.now.items) faults.old) }
    ensures scope { OnOk result (scope.new
        ≡ declaring_operation OperationKind.Entry (identifier_view declared.now) (hiding (identifier_view declared.now) scope.old)) }
{
    profile(list, None, scope, faults)?;
    hide(declared, scope)?;
    declare_operation(declared, OperationKind::Entry, scope)
}

fn operation<'a>(
    one: &'a OperationDeclaration,
    scope: &mut Scope,
    faults: &mut Faults<'a>,
) -> Result<(), AllocError>
    ensures faults { OnOk result (faults.new ≡ operation_uses judged scope.old (operation_view one.now) faults.old) }
    ensures scope { OnOk result (scope.new ≡ with_operation (operation_view one.now) scope.old) }
{
    match one {
        OperationDeclaration::Pragma(one) => {
            pragma(one, scope, faults);
            Ok(())
        }
        OperationDeclaration::Function {
            name: declared,
            parameters: list,
            mark,
            ..
        } => function(declared, list, mark, scope, faults),
        OperationDeclaration::Procedure {
            name: declared,
            parameters: list,
            aspects: given,
            ..
        } => procedure(declared, list, given, scope, faults),
        OperationDeclaration::Entry(one) => entry(&one.name, &one.parameters, scope, faults),
    }
}

fn operations<'a>(
    list: &'a Vec<OperationDeclaration>,
    scope: &mut Scope,
    faults: &mut Faults<'a>,
) -> Result<(), AllocError>
    ensures faults { OnOk result (faults.new ≡ operations_uses judged scope.old (map operation_view list.now.items) faults.old) }
    ensures scope { OnOk result (scope.new ≡ with_operations (map operation_view list.now.items) scope.old) }
    ensures only { OnOk result (OnlyDeclares scope.old scope.new) }
{
    for one in list {
        operation(one, scope, faults)?;
    }
    Ok(())
}

fn element<'a>(
    one: &'a ProtectedElement,
    scope: &mut Scope,
    faults: &mut Faults<'a>,
) -> Result<(), AllocError>
    ensures faults { OnOk result (faults.new ≡ element_uses judged scope.old (element_view one.now) faults.old) }
    ensures scope { OnOk result (scope.new ≡ with_element (element_view one.now) scope.old) }
    ensures only { OnOk result (OnlyDeclares scope.old scope.new) }
{
    match one {
        ProtectedElement::Operation(one) => operation(one, scope, faults),
        ProtectedElement::Component {
            names,
            mark,
            range: part,
            value: start,
        } => objects(names, Form::Component, mark, part, start, scope, faults),
    }
}

fn private_part<'a>(
    part: &'a Option<Vec<ProtectedElement>>,
    scope: &mut Scope,
    faults: &mut Faults<'a>,
) -> Result<(), AllocError>
    ensures faults { OnOk result (faults.new ≡ private_uses judged scope.old (maybe (λ v. map element_view v.items) part.now) faults.old) }
    ensures only { OnOk result (OnlyDeclares scope.old scope.new) }
{
    match part {
        None => Ok(()),
        Some(list) => elements(list, scope, faults),
    }
}

// What a protected unit declares, in a region of its own.
fn members<'a>(
    unit: &'a ProtectedUnit,
    scope: &mut Scope,
    faults: &mut Faults<'a>,
) -> Result<(), AllocError>
    ensures faults { OnOk result (faults.new
        ≡ (operations_uses judged (entered scope.old) (map operation_view unit.now.operations.items)
        ▷ private_uses judged (with_operations (map operation_view unit.now.operations.items) (entered scope.old))
        (maybe (λ v. map element_view v.items) unit.now.private)) faults.old) }
    ensures scope { OnOk result (scope.new ≡ scope.old) }
{
    scope.enter()?;
    operations(&unit.operations, scope, faults)?;
    private_part(&unit.private, scope, faults)?;
    scope.leave();
    Ok(())
}

// The parts of a protected unit, at a point within its declaration.
fn parts<'a>(
    unit: &'a ProtectedUnit,
    scope: &mut Scope,
    faults: &mut Faults<'a>,
) -> Result<(), AllocError>
    ensures faults { OnOk result (faults.new ≡ parts_uses judged scope.old (protected_unit_view unit.now) faults.old) }
    ensures scope { OnOk result (scope.new ≡ scope.old) }
{
    faults.set_unit(Some(unit));
    aspects(&unit.aspects, scope, faults);
    protected_rules(unit, faults);
    members(unit, scope, faults)?;
    faults.set_unit(None);
    Ok(())
}

// The operations and components after `private`.
fn elements<'a>(
    list: &'a Vec<ProtectedElement>,
    scope: &mut Scope,
    faults: &mut Faults<'a>,
) -> Result<(), AllocError>
    ensures faults { OnOk result (faults.new ≡ elements_uses judged scope.old (map element_view list.now.items) faults.old) }
    ensures scope { OnOk result (scope.new ≡ with_elements (map element_view list.now.items) scope.old) }
    ensures only { OnOk result (OnlyDeclares scope.old scope.new) }
{
    for one in list {
        element(one, scope, faults)?;
    }
    Ok(())
}

/// A protected unit of the package.
pub(crate) fn protected_unit<'a>(
    unit: &'a ProtectedUnit,
    scope: &mut Scope,
    faults: &mut Faults<'a>,
) -> Result<(), AllocError>
    ensures faults { OnOk result (faults.new ≡ protected_unit_uses judged scope.old (protected_unit_view unit.now) faults.old) }
    ensures scope { OnOk result (scope.new ≡ declaring_protected_unit (protected_unit_view unit.now) scope.old) }
{
    let around = scope.enter_declaration(unit)?;
    parts(unit, scope, faults)?;
    scope.leave_declaration(unit, around)
}
