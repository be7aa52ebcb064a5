//! What is declared at a place of a unit text.

ghost use Rattle.std.specs.Prelude.{◌≡◌, OnOk, IfOk, map};
ghost use Rattle.rv_tree.specs.DeclarationView.{protected_unit_view};
ghost use Rattle.rv_tree.specs.UnitView.{body_item_view, unit_view};
ghost use Rattle.rv_scope.specs.UnitUses.{with_body_item};
ghost use Rattle.rv_seen.specs.At.{at_item, at_items, in_package_body as within_package_body, scope_at as scope_at_place};

use crate::begun::have_items_begun;
use crate::bodies::{protected_body, task_body};
use crate::declarations::{declaration, in_specification};
use rv_scope::context::package_scope;
use rv_scope::declaration::{declare, declare_each};
use rv_scope::named::protected_units;
use rv_scope::scope::Scope;
use rv_shape::catalogue::Catalogue;
use rv_tree::declaration::ProtectedUnit;
use rv_tree::unit::{BodyItem, UnitTree};
use std::alloc::{AllocError, Global};

fn item(
    one: &BodyItem,
    units: &[&ProtectedUnit],
    place: usize,
    scope: &mut Scope,
) -> Result<(), AllocError>
    ensures { OnOk result (scope.new
        ≡ at_item place (map (λ u. protected_unit_view u.now) units.now) (body_item_view one.now) scope.old) }
{
    match one {
        BodyItem::Declaration(one) => declaration(one, place, scope),
        BodyItem::Protected(body) => protected_body(body, units, place, scope),
        BodyItem::Task(body) => task_body(body, place, scope),
    }
}

// An item of the package body, behind it.
fn declare_item(one: &BodyItem, scope: &mut Scope) -> Result<(), AllocError>
    ensures { OnOk result (scope.new ≡ with_body_item (body_item_view one.now) scope.old) }
{
    match one {
        BodyItem::Declaration(one) => declare(one, scope),
        BodyItem::Protected(_) | BodyItem::Task(_) => Ok(()),
    }
}

fn items(
    list: &[BodyItem],
    units: &[&ProtectedUnit],
    place: usize,
    scope: &mut Scope,
) -> Result<(), AllocError>
    ensures { OnOk result (scope.new
        ≡ at_items place (map (λ u. protected_unit_view u.now) units.now) (map body_item_view list.now) scope.old) }
{
    let mut rest = list;
    while let [one, more @ ..] = rest {
        if !have_items_begun(more, place) {
            return item(one, units, place, scope);
        }
        declare_item(one, scope)?;
        rest = more;
    }
    Ok(())
}

// The items of the package body.
fn in_package_body(
    list: &Vec<BodyItem>,
    units: &[&ProtectedUnit],
    place: usize,
    scope: &mut Scope,
) -> Result<(), AllocError>
    ensures { OnOk result (scope.new
        ≡ within_package_body place (map (λ u. protected_unit_view u.now) units.now) (map body_item_view list.now.items) scope.old) }
{
    if have_items_begun(list.as_slice(), place) {
        return items(list.as_slice(), units, place, scope);
    }
    Ok(())
}

/// What is declared at a place of a text, over the loaded units; in its context clauses all that they make visible. Err where memory was
/// refused.
pub fn scope_at<'a>(
    alloc: Global,
    tree: &'a UnitTree,
    catalogue: &'a Catalogue,
    place: usize,
) -> Result<Scope<'a>, AllocError>
    ensures { IfOk result (λ scope. scope ≡ scope_at_place catalogue.now (unit_view tree.now) place) }
{
    let mut scope = package_scope(alloc, tree, catalogue)?;
    if place < tree.body.at {
        in_specification(&tree.specification.declarations, place, &mut scope)?;
        return Ok(scope);
    }
    declare_each(&tree.specification.declarations, &mut scope)?;
    let units = protected_units(alloc, tree)?;
    in_package_body(&tree.body.items, units.as_slice(), place, &mut scope)?;
    Ok(scope)
}
