//! What the package body adds to an outline: its declarations (7.2), and the barriers of entries (9.5.2).

ghost use Rattle.std.specs.Prelude.{◌≡◌, OnOk, IfOk, map, false};
ghost use Rattle.rv_tree.specs.NameView.{identifier_view};
ghost use Rattle.rv_tree.specs.ExpressionView.{expression_view};
ghost use Rattle.rv_tree.specs.DeclarationView.{parameter_view, protected_unit_view};
ghost use Rattle.rv_tree.specs.BodyView.{operation_body_view, protected_body_view};
ghost use Rattle.rv_tree.specs.UnitView.{body_item_view};
ghost use Rattle.rv_scope.specs.Scope.{OnlyDeclares, in_body};
ghost use Rattle.rv_scope.specs.ExpressionUses.{simple as simple_name};
ghost use Rattle.rv_scope.specs.Wanted.{denoted};
ghost use Rattle.rv_scope.specs.DeclarationUses.{with_parameters};
ghost use Rattle.rv_scope.specs.UnitUses.{in_protected_unit, unit_of_body, with_body_item};
ghost use Rattle.rv_static.specs.Told.{told_unless};
ghost use Rattle.rv_outline.specs.Barriers.{barrier_of};
ghost use Rattle.rv_outline.specs.Declarations.{entry_barred, operation_body_outlined, operation_bodies_outlined, bodies_outlined, body_item_outlined, body_items_outlined};

use crate::barrier::barrier;
use crate::declaration::declaration;
use crate::draft::Draft;
use rv_scope::members::declare_parameters;
use rv_scope::{Declared, OperationKind, Scope, Table, Wanted};
use rv_shape::kind::{Barrier, Kind};
use rv_static::Faults;
use rv_tree::{
    BodyItem, Expression, Identifier, OperationBody, Parameter, ProtectedBody, ProtectedUnit,
};
use std::alloc::AllocError;

// The barrier of an entry, over its parameters in the innermost region.
fn barrier_inside(
    parameters: &Vec<Parameter>,
    condition: &Expression,
    scope: &mut Scope,
    known: &Table,
    faults: &mut Faults,
) -> Result<Option<Barrier>, AllocError>
    ensures value { IfOk result (λ found. found
        ≡ barrier_of (with_parameters (map parameter_view parameters.now.items) scope.old) known.now (expression_view condition.now)) }
    ensures told { IfOk result (λ found. faults.new ≡ told_unless found faults.old) }
    ensures only { OnOk result (OnlyDeclares scope.old scope.new) }
{
    declare_parameters(parameters, scope)?;
    Ok(barrier(condition, scope, known, faults))
}

// The barrier of an entry; or `None`, where a fault was told.
fn entry_barrier(
    declared: &Identifier,
    parameters: &Vec<Parameter>,
    condition: &Expression,
    scope: &mut Scope,
    known: &Table,
    faults: &mut Faults,
) -> Result<Option<Barrier>, AllocError>
    ensures value { IfOk result (λ found. found
        ≡ barrier_of (with_parameters (map parameter_view parameters.now.items) (in_body (identifier_view declared.now) scope.old)) known.now (expression_view condition.now)) }
    ensures told { IfOk result (λ found. faults.new ≡ told_unless found faults.old) }
    ensures scope { OnOk result (scope.new ≡ scope.old) }
{
    let around = scope.enter_body(declared)?;
    let found = barrier_inside(parameters, condition, scope, known, faults)?;
    scope.leave_body(around);
    Ok(found)
}

fn entry_body(
    declared: &Identifier,
    parameters: &Vec<Parameter>,
    condition: &Expression,
    scope: &mut Scope,
    draft: &mut Draft,
) -> Result<(), AllocError>
    ensures draft { OnOk result (draft.new
        ≡ entry_barred (denoted Wanted.EntryBody scope.old (simple_name (identifier_view declared.now)))
        (barrier_of (with_parameters (map parameter_view parameters.now.items) (in_body (identifier_view declared.now) scope.old)) draft.old.known (expression_view condition.now))
        draft.old) }
    ensures scope { OnOk result (scope.new ≡ scope.old) }
{
    let denoted = scope.denoted_by_body(Wanted::EntryBody, declared);
    let Some(Declared::Operation(at, OperationKind::Entry)) = denoted else {
        return Ok(());
    };
    let known = &draft.known;
    match entry_barrier(
        declared,
        parameters,
        condition,
        scope,
        known,
        &mut draft.faults,
    )? {
        None => Ok(()),
        Some(barrier) => draft.give_kind(at, Kind::Entry(barrier)),
    }
}

fn operation_body(
    body: &OperationBody,
    scope: &mut Scope,
    draft: &mut Draft,
) -> Result<(), AllocError>
    ensures draft { OnOk result (draft.new ≡ operation_body_outlined scope.old (operation_body_view body.now) draft.old) }
    ensures scope { OnOk result (scope.new ≡ scope.old) }
{
    match body {
        OperationBody::Function { .. } => Ok(()),
        OperationBody::Procedure { .. } => Ok(()),
        OperationBody::Entry {
            at: _,
            name,
            parameters,
            barrier: condition,
            block: _,
        } => entry_body(name, parameters, condition, scope, draft),
    }
}

fn operation_bodies(
    list: &Vec<OperationBody>,
    scope: &mut Scope,
    draft: &mut Draft,
) -> Result<(), AllocError>
    ensures draft { OnOk result (draft.new ≡ operation_bodies_outlined scope.old (map operation_body_view list.now.items) draft.old) }
    ensures scope { OnOk result (scope.new ≡ scope.old) }
{
    for body in list {
        operation_body(body, scope, draft)?;
    }
    Ok(())
}

// The bodies of the operations of a protected unit.
fn in_unit(
    unit: &ProtectedUnit,
    body: &ProtectedBody,
    scope: &mut Scope,
    draft: &mut Draft,
) -> Result<(), AllocError>
    ensures draft { OnOk result (draft.new
        ≡ operation_bodies_outlined (in_protected_unit (protected_unit_view unit.now) scope.old) (map operation_body_view body.now.operations.items) draft.old) }
    ensures scope { OnOk result (scope.new ≡ scope.old) }
{
    let around = scope.enter_unit(unit)?;
    operation_bodies(&body.operations, scope, draft)?;
    scope.leave_unit(around);
    Ok(())
}

fn protected_body(
    body: &ProtectedBody,
    units: &[&ProtectedUnit],
    scope: &mut Scope,
    draft: &mut Draft,
) -> Result<(), AllocError>
    ensures draft { OnOk result (draft.new
        ≡ bodies_outlined scope.old (map operation_body_view body.now.operations.items)
        (unit_of_body (map (λ u. protected_unit_view u.now) units.now) scope.old (identifier_view body.now.name)) draft.old) }
    ensures scope { OnOk result (scope.new ≡ scope.old) }
{
    match scope.unit_of_body(&body.name, units) {
        Some((_, unit)) => in_unit(unit, body, scope, draft),
        None => Ok(()),
    }
}

fn body_item(
    item: &BodyItem,
    units: &[&ProtectedUnit],
    scope: &mut Scope,
    draft: &mut Draft,
) -> Result<(), AllocError>
    ensures draft { OnOk result (draft.new
        ≡ body_item_outlined (map (λ u. protected_unit_view u.now) units.now) scope.old (body_item_view item.now) draft.old) }
    ensures scope { OnOk result (scope.new ≡ with_body_item (body_item_view item.now) scope.old) }
{
    match item {
        BodyItem::Declaration(one) => declaration(one, false, scope, draft),
        BodyItem::Protected(body) => protected_body(body, units, scope, draft),
        BodyItem::Task(_) => Ok(()),
    }
}

/// The items of the package body.
pub(crate) fn body_items(
    list: &Vec<BodyItem>,
    units: &[&ProtectedUnit],
    scope: &mut Scope,
    draft: &mut Draft,
) -> Result<(), AllocError>
    ensures draft { OnOk result (draft.new
        ≡ body_items_outlined (map (λ u. protected_unit_view u.now) units.now) scope.old (map body_item_view list.now.items) draft.old) }
{
    for item in list {
        body_item(item, units, scope, draft)?;
    }
    Ok(())
}
