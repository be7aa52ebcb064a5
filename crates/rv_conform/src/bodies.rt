//! The bodies of the operations of protected units, each beside the operations of its unit (9.4).

ghost use Rattle.std.specs.Prelude.{◌≡◌, map, OnOk, IfOk, is_none, slice_get};
ghost use Rattle.std.specs.List.{list_all};
ghost use Rattle.rv_tree.specs.NameView.{identifier_view};
ghost use Rattle.rv_tree.specs.BodyView.{operation_body_view};
ghost use Rattle.rv_tree.specs.DeclarationView.{protected_unit_view};
ghost use Rattle.rv_tree.specs.UnitView.{body_item_view, unit_view};
ghost use Rattle.rv_scope.specs.UnitUses.{in_protected_unit, unit_of_body};
ghost use Rattle.rv_conform.specs.Profiles.{body_operation as operation_of_body};
ghost use Rattle.rv_conform.specs.Conforms.{completes_one, complete_in, complete, item_conforms, behind_item, items_conform, bodies_conform};

use crate::conforms::is_declared;
use crate::operation::{Operation, body_head, profiled};
use crate::package::{Package, UnitOperations, declaration, declarations};
use rv_scope::named::protected_units;
use rv_scope::{Scope, Table};
use rv_shape::catalogue::Catalogue;
use rv_tree::body::{OperationBody, ProtectedBody};
use rv_tree::declaration::ProtectedUnit;
use rv_tree::unit::{BodyItem, UnitTree};
use std::alloc::{AllocError, Global};

// The operation of a body, whose parameters are declared in its region.
fn body_operation<'a>(
    body: &'a OperationBody,
    scope: &mut Scope,
    statics: &Table,
) -> Result<Operation<'a>, AllocError>
    ensures value { IfOk result (λ o. o ≡ operation_of_body statics.now scope.old (operation_body_view body.now)) }
    ensures scope { OnOk result (scope.new ≡ scope.old) }
{
    let head = body_head(body);
    let around = scope.enter_body(head.name)?;
    let found = profiled(&head, scope, statics)?;
    scope.leave_body(around);
    Ok(found)
}

// The place of the name of a body that completes none of the operations.
#[tactic(auto, unfolding(crate::specs::Conforms::completes_one))]
fn mismatch(
    body: &OperationBody,
    operations: &UnitOperations,
    scope: &mut Scope,
    statics: &Table,
) -> Result<Option<usize>, AllocError>
    ensures value { IfOk result (λ at. is_none at ≡ completes_one operations.now statics.now scope.old (operation_body_view body.now)) }
    ensures scope { OnOk result (scope.new ≡ scope.old) }
{
    let found = body_operation(body, scope, statics)?;
    if is_declared(&operations.list, &found) {
        Ok(None)
    } else {
        Ok(Some(found.name.at))
    }
}

// The first such place of these bodies.
fn first_mismatch(
    list: &Vec<OperationBody>,
    operations: &UnitOperations,
    scope: &mut Scope,
    statics: &Table,
) -> Result<Option<usize>, AllocError>
    ensures value { IfOk result (λ at. is_none at
        ≡ list_all (completes_one operations.now statics.now scope.old) (map operation_body_view list.now.items)) }
    ensures scope { OnOk result (scope.new ≡ scope.old) }
{
    for body in list {
        if let Some(at) = mismatch(body, operations, scope, statics)? {
            return Ok(Some(at));
        }
    }
    Ok(None)
}

// The same in the body of a protected unit.
fn in_unit(
    list: &Vec<OperationBody>,
    unit: &ProtectedUnit,
    operations: &UnitOperations,
    scope: &mut Scope,
    statics: &Table,
) -> Result<Option<usize>, AllocError>
    ensures value { IfOk result (λ at. is_none at
        ≡ list_all (completes_one operations.now statics.now (in_protected_unit (protected_unit_view unit.now) scope.old))
        (map operation_body_view list.now.items)) }
    ensures scope { OnOk result (scope.new ≡ scope.old) }
{
    let around = scope.enter_unit(unit)?;
    let found = first_mismatch(list, operations, scope, statics)?;
    scope.leave_unit(around);
    Ok(found)
}

// The same of a protected unit with its number; the place of the protected body's name where its operations aren't known.
fn in_numbered(
    body: &ProtectedBody,
    number: usize,
    unit: &ProtectedUnit,
    seen: &mut Package,
) -> Result<Option<usize>, AllocError>
    ensures value { IfOk result (λ at. is_none at
        ≡ complete_in seen.old (map operation_body_view body.now.operations.items)
        (protected_unit_view unit.now) (slice_get seen.old.units number)) }
    ensures seen { OnOk result (seen.new ≡ seen.old) }
{
    match seen.units.as_slice().get(number) {
        Some(operations) => in_unit(
            &body.operations,
            unit,
            operations,
            &mut seen.scope,
            &seen.statics,
        ),
        None => Ok(Some(body.name.at)),
    }
}

fn protected_body(
    body: &ProtectedBody,
    units: &[&ProtectedUnit],
    seen: &mut Package,
) -> Result<Option<usize>, AllocError>
    ensures value { IfOk result (λ at. is_none at
        ≡ complete seen.old (map operation_body_view body.now.operations.items)
        (unit_of_body (map (λ u. protected_unit_view u.now) units.now) seen.old.scope (identifier_view body.now.name))) }
    ensures seen { OnOk result (seen.new ≡ seen.old) }
{
    match seen.scope.unit_of_body(&body.name, units) {
        Some((number, unit)) => in_numbered(body, number, unit, seen),
        None => Ok(Some(body.name.at)),
    }
}

fn body_item<'a>(
    item: &'a BodyItem,
    units: &[&ProtectedUnit],
    seen: &mut Package<'a>,
) -> Result<Option<usize>, AllocError>
    ensures value { IfOk result (λ at. is_none at ≡ item_conforms (map (λ u. protected_unit_view u.now) units.now) seen.old (body_item_view item.now)) }
    ensures seen { OnOk result (seen.new ≡ behind_item (body_item_view item.now) seen.old) }
{
    match item {
        BodyItem::Declaration(one) => {
            declaration(one, seen)?;
            Ok(None)
        }
        BodyItem::Protected(body) => protected_body(body, units, seen),
        BodyItem::Task(_) => Ok(None),
    }
}

fn body_items<'a>(
    list: &'a Vec<BodyItem>,
    units: &[&ProtectedUnit],
    seen: &mut Package<'a>,
) -> Result<Option<usize>, AllocError>
    ensures { IfOk result (λ at. is_none at ≡ items_conform (map (λ u. protected_unit_view u.now) units.now) seen.old (map body_item_view list.now.items)) }
{
    for item in list {
        if let Some(at) = body_item(item, units, seen)? {
            return Ok(Some(at));
        }
    }
    Ok(None)
}

/// The place of the name of the first body of an operation that conforms to no declaration of its protected unit (6.3.1),
/// or none exactly where each conforms. A protected body that has no protected unit is told by the place of its own name.
/// Err where memory was refused.
pub fn profile_mismatch<'a>(
    alloc: Global,
    tree: &'a UnitTree,
    catalogue: &'a Catalogue,
) -> Result<Option<usize>, AllocError>
    ensures { IfOk result (λ at. is_none at ≡ bodies_conform catalogue.now (unit_view tree.now)) }
{
    let units = protected_units(alloc, tree)?;
    let mut seen = Package::new(alloc, tree, catalogue)?;
    declarations(&tree.specification.declarations, &mut seen)?;
    body_items(&tree.body.items, units.as_slice(), &mut seen)
}
