//! The names that package bodies and whole unit texts use.

ghost use Rattle.std.specs.Prelude.{◌≡◌, true, None, OnOk, IfOk, map};
ghost use Rattle.std.specs.Option.{option_map};
ghost use Rattle.rv_tree.specs.NameView.{identifier_view};
ghost use Rattle.rv_tree.specs.DeclarationView.{declaration_view, protected_unit_view};
ghost use Rattle.rv_tree.specs.BodyView.{operation_body_view, protected_body_view, task_body_view};
ghost use Rattle.rv_tree.specs.UnitView.{body_item_view, unit_view};
ghost use Rattle.rv_scope.specs.Bound.{judged};
ghost use Rattle.rv_scope.specs.ExpressionUses.{◌▷◌, simple as simple_name};
ghost use Rattle.rv_scope.specs.UnitUses.{operation_bodies_uses, in_protected_unit, unit_of_body as unit_of_name, bodies_of_unit, protected_body_uses, task_body_uses, body_item_uses, with_body_item, body_items_uses};

use crate::body::block;
use crate::declaration::declaration;
use crate::fault::Faults;
use crate::operation_body::{body_name, operation_bodies};
use rv_scope::scope::Scope;
use rv_scope::wanted::Wanted;
use rv_tree::body::{OperationBody, ProtectedBody, TaskBody};
use rv_tree::declaration::ProtectedUnit;
use rv_tree::unit::BodyItem;
use std::alloc::AllocError;

// The bodies of the operations of a protected unit.
fn in_unit<'a>(
    unit: &'a ProtectedUnit,
    body: &'a ProtectedBody,
    scope: &mut Scope,
    faults: &mut Faults<'a>,
) -> Result<(), AllocError>
    ensures faults { OnOk result (faults.new
        ≡ operation_bodies_uses judged (in_protected_unit (protected_unit_view unit.now) scope.old) (map operation_body_view body.now.operations.items) faults.old) }
    ensures scope { OnOk result (scope.new ≡ scope.old) }
{
    let around = scope.enter_unit(unit)?;
    faults.set_unit(Some(unit));
    operation_bodies(&body.operations, scope, faults)?;
    faults.set_unit(None);
    scope.leave_unit(around);
    Ok(())
}

fn protected_body<'a>(
    body: &'a ProtectedBody,
    units: &'a [&'a ProtectedUnit],
    scope: &mut Scope,
    faults: &mut Faults<'a>,
) -> Result<(), AllocError>
    ensures faults { OnOk result (faults.new
        ≡ protected_body_uses judged (map (λ u. protected_unit_view u.now) units.now) scope.old (protected_body_view body.now) faults.old) }
    ensures scope { OnOk result (scope.new ≡ scope.old) }
{
    body_name(&body.name, Wanted::ProtectedBody, scope, faults);
    match scope.unit_of_body(&body.name, units) {
        Some((_, unit)) => in_unit(unit, body, scope, faults),
        None => Ok(()),
    }
}

fn task_body<'a>(
    body: &'a TaskBody,
    scope: &mut Scope,
    faults: &mut Faults<'a>,
) -> Result<(), AllocError>
    ensures faults { OnOk result (faults.new ≡ task_body_uses judged scope.old (task_body_view body.now) faults.old) }
    ensures scope { OnOk result (scope.new ≡ scope.old) }
{
    body_name(&body.name, Wanted::TaskBody, scope, faults);
    let around = scope.enter_body(&body.name)?;
    block(&body.block, scope, faults)?;
    scope.leave_body(around);
    Ok(())
}

fn body_item<'a>(
    item: &'a BodyItem,
    units: &'a [&'a ProtectedUnit],
    scope: &mut Scope,
    faults: &mut Faults<'a>,
) -> Result<(), AllocError>
    ensures faults { OnOk result (faults.new
        ≡ body_item_uses judged (map (λ u. protected_unit_view u.now) units.now) scope.old (body_item_view item.now) faults.old) }
    ensures scope { OnOk result (scope.new ≡ with_body_item (body_item_view item.now) scope.old) }
{
    match item {
        BodyItem::Declaration(one) => declaration(one, scope, faults),
        BodyItem::Protected(body) => protected_body(body, units, scope, faults),
        BodyItem::Task(body) => task_body(body, scope, faults),
    }
}

/// The items of the package body.
pub(crate) fn body_items<'a>(
    list: &'a Vec<BodyItem>,
    units: &'a [&'a ProtectedUnit],
    scope: &mut Scope,
    faults: &mut Faults<'a>,
) -> Result<(), AllocError>
    ensures faults { OnOk result (faults.new
        ≡ body_items_uses judged (map (λ u. protected_unit_view u.now) units.now) scope.old (map body_item_view list.now.items) faults.old) }
{
    for item in list {
        body_item(item, units, scope, faults)?;
    }
    Ok(())
}
