//! What protected units add to an outline (9.4, C.3.1, D.3).

ghost use Rattle.std.specs.Prelude.{◌≡◌, OnOk, map, length};
ghost use Rattle.rv_tree.specs.NameView.{identifier_view, identifiers_view, name_view};
ghost use Rattle.rv_tree.specs.ExpressionView.{expression_view, range_view};
ghost use Rattle.rv_tree.specs.DeclarationView.{maybe, aspect_view, operation_view, element_view, protected_unit_view};
ghost use Rattle.rv_scope.specs.Scope.{OnlyDeclares, declaring_all, hiding_all};
ghost use Rattle.rv_scope.specs.Statics.{means};
ghost use Rattle.rv_scope.specs.Heads.{declared_head as head_of_declaration};
ghost use Rattle.rv_scope.specs.DeclarationUses.{with_operation, with_operations, with_element, declaring_protected_unit};
ghost use Rattle.rv_static.specs.Told.{told_unless};
ghost use Rattle.rv_outline.specs.Drafts.{noted, started, finished, adding_found, adding_components};
ghost use Rattle.rv_outline.specs.ProtectedUnits.{declared_outlined, operation_outlined, operations_outlined, component_of, element_outlined, elements_outlined, private_outlined, parts_outlined, single_outlined, protected_unit_outlined};

use crate::draft::Draft;
use crate::outline::ObjectType;
use crate::pragma::{aspects, pragma, procedure_aspects};
use crate::profile::operation_declared;
use rv_scope::declare::{Form, declare_all};
use rv_scope::members::{declare_operation, hide, hide_all};
use rv_scope::subtype::constrained_subtype;
use rv_scope::{Point, Scope, declared_head};
use rv_shape::kind::Component;
use rv_shape::object::Operation;
use rv_static::{Faults, Meanings, start};
use rv_tree::{
    Aspect, Expression, Identifier, Name, OperationDeclaration, ProtectedElement, ProtectedUnit,
    RangeConstraint,
};
use std::alloc::AllocError;

// An operation, where it was found.
fn add_operation(
    declared: &Identifier,
    found: Option<Operation>,
    draft: &mut Draft,
) -> Result<(), AllocError>
    ensures { OnOk result (draft.new ≡ adding_found (identifier_view declared.now) found draft.old) }
{
    match found {
        None => Ok(()),
        Some(operation) => draft.add_operation(declared, operation),
    }
}

// An operation with the aspects of a procedure, and its identifier behind it. A pragma declares none.
fn declared(
    one: &OperationDeclaration,
    given: &[Aspect],
    is_visible: bool,
    scope: &mut Scope,
    draft: &mut Draft,
) -> Result<(), AllocError>
    ensures draft { OnOk result (draft.new
        ≡ declared_outlined scope.old is_visible (head_of_declaration (operation_view one.now)) (map aspect_view given.now) draft.old) }
    ensures scope { OnOk result (scope.new ≡ with_operation (operation_view one.now) scope.old) }
    ensures only { OnOk result (OnlyDeclares scope.old scope.new) }
{
    let Some(head) = declared_head(one) else {
        return Ok(());
    };
    let known = &draft.known;
    let found = operation_declared(
        draft.alloc,
        &head,
        is_visible,
        scope,
        known,
        &mut draft.faults,
    )?;
    add_operation(head.name, found, draft)?;
    hide(head.name, scope)?;
    procedure_aspects(head.name, given, scope, draft)?;
    declare_operation(head.name, head.kind, scope)
}

fn operation(
    one: &OperationDeclaration,
    is_visible: bool,
    scope: &mut Scope,
    draft: &mut Draft,
) -> Result<(), AllocError>
    ensures draft { OnOk result (draft.new ≡ operation_outlined scope.old is_visible (operation_view one.now) draft.old) }
    ensures scope { OnOk result (scope.new ≡ with_operation (operation_view one.now) scope.old) }
    ensures only { OnOk result (OnlyDeclares scope.old scope.new) }
{
    match one {
        OperationDeclaration::Pragma(one) => pragma(one, scope, draft),
        OperationDeclaration::Procedure { aspects, .. } => {
            declared(one, aspects.as_slice(), is_visible, scope, draft)
        }
        OperationDeclaration::Function { .. } | OperationDeclaration::Entry(_) => {
            declared(one, &[], is_visible, scope, draft)
        }
    }
}

fn operations(
    list: &Vec<OperationDeclaration>,
    scope: &mut Scope,
    draft: &mut Draft,
) -> Result<(), AllocError>
    ensures draft { OnOk result (draft.new ≡ operations_outlined scope.old (map operation_view list.now.items) draft.old) }
    ensures scope { OnOk result (scope.new ≡ with_operations (map operation_view list.now.items) scope.old) }
    ensures only { OnOk result (OnlyDeclares scope.old scope.new) }
{
    for one in list {
        operation(one, true, scope, draft)?;
    }
    Ok(())
}

// A component; or `None`, where a fault was told.
fn component<N: Meanings>(
    mark: &Name,
    range: &Option<RangeConstraint>,
    initial: &Option<Expression>,
    names: &N,
    faults: &mut Faults,
) -> Option<Component>
    ensures value { result ≡ component_of (N.means names.now) (name_view mark.now) (maybe range_view range.now) (maybe expression_view initial.now) }
    ensures told { faults.new ≡ told_unless result faults.old }
{
    let range = constrained_subtype(mark, range, names, faults)?;
    let start = start(range, initial, names, faults)?;
    Some(Component { range, start })
}

fn components(
    names: &Vec<Identifier>,
    mark: &Name,
    range: &Option<RangeConstraint>,
    initial: &Option<Expression>,
    scope: &mut Scope,
    draft: &mut Draft,
) -> Result<(), AllocError>
    ensures draft { OnOk result (draft.new
        ≡ noted (component_of (means (hiding_all (identifiers_view names.now.items) scope.old) draft.old.known) (name_view mark.now)
        (maybe range_view range.now) (maybe expression_view initial.now)) (adding_components (identifiers_view names.now.items)) draft.old) }
    ensures scope { OnOk result (scope.new
        ≡ declaring_all Form.Component (identifiers_view names.now.items) (hiding_all (identifiers_view names.now.items) scope.old)) }
    ensures only { OnOk result (OnlyDeclares scope.old scope.new) }
{
    hide_all(names, scope)?;
    let point = Point {
        scope,
        known: &draft.known,
    };
    let found = component(mark, range, initial, &point, &mut draft.faults);
    if let Some(component) = found {
        draft.add_components(component, names)?;
    }
    declare_all(names, Form::Component, scope)
}

fn element(one: &ProtectedElement, scope: &mut Scope, draft: &mut Draft) -> Result<(), AllocError>
    ensures draft { OnOk result (draft.new ≡ element_outlined scope.old (element_view one.now) draft.old) }
    ensures scope { OnOk result (scope.new ≡ with_element (element_view one.now) scope.old) }
    ensures only { OnOk result (OnlyDeclares scope.old scope.new) }
{
    match one {
        ProtectedElement::Operation(one) => operation(one, false, scope, draft),
        ProtectedElement::Component {
            names,
            mark,
            range,
            value: initial,
        } => components(names, mark, range, initial, scope, draft),
    }
}

fn elements(
    list: &Vec<ProtectedElement>,
    scope: &mut Scope,
    draft: &mut Draft,
) -> Result<(), AllocError>
    ensures draft { OnOk result (draft.new ≡ elements_outlined scope.old (map element_view list.now.items) draft.old) }
    ensures only { OnOk result (OnlyDeclares scope.old scope.new) }
{
    for one in list {
        element(one, scope, draft)?;
    }
    Ok(())
}

fn private_part(
    part: &Option<Vec<ProtectedElement>>,
    scope: &mut Scope,
    draft: &mut Draft,
) -> Result<(), AllocError>
    ensures draft { OnOk result (draft.new ≡ private_outlined scope.old (maybe (λ v. map element_view v.items) part.now) draft.old) }
    ensures only { OnOk result (OnlyDeclares scope.old scope.new) }
{
    match part {
        None => Ok(()),
        Some(list) => elements(list, scope, draft),
    }
}

// All parts of a protected unit, at a point within its declaration.
fn parts(unit: &ProtectedUnit, scope: &mut Scope, draft: &mut Draft) -> Result<(), AllocError>
    ensures draft { OnOk result (draft.new ≡ parts_outlined scope.old (protected_unit_view unit.now) draft.old) }
    ensures scope { OnOk result (scope.new ≡ scope.old) }
{
    aspects(&unit.aspects, scope, draft);
    scope.enter()?;
    operations(&unit.operations, scope, draft)?;
    private_part(&unit.private, scope, draft)?;
    scope.leave();
    Ok(())
}

// The object that a single protected unit of this number is.
fn single(
    unit: &ProtectedUnit,
    is_visible: bool,
    number: usize,
    draft: &mut Draft,
) -> Result<(), AllocError>
    ensures { OnOk result (draft.new
        ≡ single_outlined unit.now.is_type is_visible number (identifier_view unit.now.name) draft.old) }
{
    if unit.is_type {
        return Ok(());
    }
    draft.add_object(is_visible, ObjectType::Protected(number), &unit.name)
}

// A protected unit, at a point within its declaration.
fn outline_unit(
    unit: &ProtectedUnit,
    is_visible: bool,
    scope: &mut Scope,
    draft: &mut Draft,
) -> Result<(), AllocError>
    ensures draft { OnOk result (draft.new ≡ single_outlined unit.now.is_type is_visible (length draft.old.units) (identifier_view unit.now.name)
        (finished (parts_outlined scope.old (protected_unit_view unit.now) (started (identifier_view unit.now.name) is_visible draft.old)))) }
    ensures scope { OnOk result (scope.new ≡ scope.old) }
{
    let number = draft.units.len();
    draft.start(&unit.name, is_visible)?;
    parts(unit, scope, draft)?;
    draft.finish_unit()?;
    single(unit, is_visible, number, draft)
}

/// A protected unit of the package.
pub(crate) fn protected_unit(
    unit: &ProtectedUnit,
    is_visible: bool,
    scope: &mut Scope,
    draft: &mut Draft,
) -> Result<(), AllocError>
    ensures draft { OnOk result (draft.new ≡ protected_unit_outlined scope.old is_visible (protected_unit_view unit.now) draft.old) }
    ensures scope { OnOk result (scope.new ≡ declaring_protected_unit (protected_unit_view unit.now) scope.old) }
{
    let around = scope.enter_declaration(unit)?;
    outline_unit(unit, is_visible, scope, draft)?;
    scope.leave_declaration(unit, around)
}
