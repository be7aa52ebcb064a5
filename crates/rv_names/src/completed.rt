//! Each protected unit, each operation of one and each task of the package has a body (3.11.1, 9.1, 9.4).
//!
//! Declarations are looked at in the order of the text, so that the first fault is the one at the least place.

ghost use Rattle.std.specs.Prelude.{◌≡◌, map, true, None, OnOk, IfOk, [], List};
ghost use Rattle.std.specs.List.{list_all};
ghost use Rattle.rv_tree.specs.NameView.{identifier_view};
ghost use Rattle.rv_tree.specs.DeclarationView.{declaration_view};
ghost use Rattle.rv_tree.specs.UnitView.{body_item_view, unit_view};
ghost use Rattle.rv_names.specs.Completed.{wants_among, item_wants_among, unit_is_completed, operations_are_completed, with_body, with_bodies, is_in};

use crate::completed_operations::missing_operation;
use crate::completion::{Completion, Kind};
use crate::fault::{NameFault, earlier};
use rv_scope::region::Region;
use rv_tree::declaration::Declaration;
use rv_tree::name::Identifier;
use rv_tree::unit::{BodyItem, UnitTree};
use std::alloc::{AllocError, Global};

// The name of a body, beside those before it.
fn add_body(alloc: Global, item: &BodyItem, names: &mut Region) -> Result<(), AllocError>
    ensures { OnOk result (names.new ≡ with_body (body_item_view item.now) names.old) }
{
    match item {
        BodyItem::Declaration(_) => Ok(()),
        BodyItem::Protected(body) => names.declare(alloc, body.name.text.as_str(), None),
        BodyItem::Task(body) => names.declare(alloc, body.name.text.as_str(), None),
    }
}

// The names of the bodies of a package.
fn body_names(alloc: Global, items: &Vec<BodyItem>) -> Result<Region, AllocError>
    ensures { IfOk result (λ names. names ≡ with_bodies (map body_item_view items.now.items) []) }
{
    let mut names = Region::new(alloc);
    for item in items {
        add_body(alloc, item, &mut names)?;
    }
    Ok(names)
}

// What a package declares, beside what it declared before.
fn declare(
    alloc: Global,
    declaration: &Declaration,
    found: &mut Completion,
) -> Result<(), AllocError> {
    match declaration {
        Declaration::Protected(unit) => found.want(alloc, Kind::Protected, &unit.name),
        Declaration::Task(task) => found.want(alloc, Kind::Task, &task.name),
        _ => found.declare_all(alloc, declaration.names()),
    }
}

fn complete(alloc: Global, item: &BodyItem, found: &mut Completion) -> Result<(), AllocError> {
    match item {
        BodyItem::Declaration(declaration) => declare(alloc, declaration, found),
        BodyItem::Protected(body) => found.complete(Kind::Protected, &body.name),
        BodyItem::Task(body) => found.complete(Kind::Task, &body.name),
    }
}

// What the package declares, and which of it has a body.
fn package(alloc: Global, tree: &UnitTree) -> Result<Completion, AllocError> {
    let mut found = Completion::new(alloc);
    for declaration in &tree.specification.declarations {
        declare(alloc, declaration, &mut found)?;
    }
    for item in &tree.body.items {
        complete(alloc, item, &mut found)?;
    }
    Ok(found)
}

/// The fault of a declaration, whose first token stands at this place, without a body. Of a second one of its name no body
/// is asked, but it is a fault by itself.
pub(crate) fn body_fault(
    at: usize,
    declared: &Identifier,
    names: &Region,
    found: &Completion,
) -> Option<NameFault>
    ensures { result ≡ None → is_in names.now (identifier_view declared.now).text ≡ true }
{
    let has_body = names.find(declared.text.as_str()).is_some();
    if !has_body && !found.is_first(declared) {
        return Some(NameFault::Duplicate(declared.at));
    }
    if !has_body || found.lacks_body(declared) {
        return Some(NameFault::WrongKind(at));
    }
    None
}

fn declaration_fault(
    declaration: &Declaration,
    names: &Region,
    found: &Completion,
) -> Option<NameFault>
    ensures { result ≡ None → wants_among (is_in names.now) (declaration_view declaration.now) ≡ true }
{
    match declaration {
        Declaration::Protected(unit) => body_fault(unit.at, &unit.name, names, found),
        Declaration::Task(task) => body_fault(task.at, &task.name, names, found),
        _ => None,
    }
}

fn declarations_fault(
    list: &Vec<Declaration>,
    names: &Region,
    found: &Completion,
) -> Option<NameFault>
    ensures { result ≡ None → list_all (wants_among (is_in names.now)) (map declaration_view list.now.items) ≡ true }
{
    for one in list {
        if let Some(fault) = declaration_fault(one, names, found) {
            return Some(fault);
        }
    }
    None
}

fn item_fault(item: &BodyItem, names: &Region, found: &Completion) -> Option<NameFault>
    ensures { result ≡ None → item_wants_among (is_in names.now) (body_item_view item.now) ≡ true }
{
    match item {
        BodyItem::Declaration(declaration) => declaration_fault(declaration, names, found),
        _ => None,
    }
}

fn items_fault(list: &Vec<BodyItem>, names: &Region, found: &Completion) -> Option<NameFault>
    ensures { result ≡ None → list_all (item_wants_among (is_in names.now)) (map body_item_view list.now.items) ≡ true }
{
    for one in list {
        if let Some(fault) = item_fault(one, names, found) {
            return Some(fault);
        }
    }
    None
}

// The first declaration of the package without a body.
fn bodiless(tree: &UnitTree, names: &Region, found: &Completion) -> Option<NameFault>
    requires { names.now ≡ with_bodies (unit_view tree.now).body.items [] }
    ensures { result ≡ None → unit_is_completed (unit_view tree.now) ≡ true }
{
    match declarations_fault(&tree.specification.declarations, names, found) {
        Some(fault) => Some(fault),
        None => items_fault(&tree.body.items, names, found),
    }
}

/// The fault of the first declaration without a body. Err where memory was refused.
pub(crate) fn missing_body(alloc: Global, tree: &UnitTree) -> Result<Option<NameFault>, AllocError>
    ensures bodies { IfOk result (λ fault. fault ≡ None → unit_is_completed (unit_view tree.now) ≡ true) }
    ensures operations { IfOk result (λ fault. fault ≡ None → operations_are_completed (unit_view tree.now) ≡ true) }
{
    let names = body_names(alloc, &tree.body.items)?;
    let found = package(alloc, tree)?;
    let unit = bodiless(tree, &names, &found);
    Ok(earlier(unit, missing_operation(alloc, tree)?))
}
