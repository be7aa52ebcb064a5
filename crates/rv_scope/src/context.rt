//! What is declared where the package of a text begins (8.4, 10.1.2).

ghost use Rattle.std.specs.Prelude.{◌≡◌, OnOk, IfOk, map};
ghost use Rattle.rv_tree.specs.NameView.{name_view, names_view};
ghost use Rattle.rv_tree.specs.UnitView.{context_item_view, unit_view};
ghost use Rattle.rv_scope.specs.Wanted.{denoted};
ghost use Rattle.rv_scope.specs.UnitUses.{with_parents, withed as scope_withed, used_by as scope_used_by, with_names as scope_with_names, use_names as scope_use_names, with_context_item, with_context, package_scope as scope_of_package};

use crate::declared::Declared;
use crate::predefined::Library;
use crate::scope::Scope;
use crate::wanted::Wanted;
use rv_shape::catalogue::Catalogue;
use rv_tree::name::Name;
use rv_tree::unit::{ContextItem, UnitTree};
use std::alloc::{AllocError, Global};

// The packages that hold a package.
fn add_parents(library: Library, scope: &mut Scope) -> Result<(), AllocError>
    ensures { OnOk result (scope.new ≡ with_parents library scope.old) }
{
    match library {
        Library::RealTime | Library::SynchronousTaskControl | Library::Interrupts => {
            scope.add_library(Library::Ada)
        }
        Library::InterruptNames => {
            scope.add_library(Library::Ada)?;
            scope.add_library(Library::Interrupts)
        }
        _ => Ok(()),
    }
}

// What a `with` names.
fn add_withed(found: Option<Declared>, scope: &mut Scope) -> Result<(), AllocError>
    ensures { OnOk result (scope.new ≡ scope_withed found scope.old) }
{
    match found {
        Some(Declared::Unit(index)) => scope.add_unit(index),
        Some(Declared::LibraryPackage(library)) => {
            add_parents(library, scope)?;
            scope.add_library(library)
        }
        _ => Ok(()),
    }
}

// What a `use` names.
fn add_used(found: Option<Declared>, scope: &mut Scope) -> Result<(), AllocError>
    ensures { OnOk result (scope.new ≡ scope_used_by found scope.old) }
{
    match found {
        Some(Declared::LibraryPackage(library)) => scope.use_library(library),
        _ => Ok(()),
    }
}

// A library unit that a `with` names.
pub fn with_name(one: &Name, scope: &mut Scope) -> Result<(), AllocError>
    ensures { OnOk result (scope.new ≡ scope_withed (denoted Wanted.With scope.old (name_view one.now)) scope.old) }
{
    let found = scope.denoted(Wanted::With, one);
    add_withed(found, scope)
}

fn with_names(list: &Vec<Name>, scope: &mut Scope) -> Result<(), AllocError>
    ensures { OnOk result (scope.new ≡ scope_with_names (names_view list.now.items) scope.old) }
{
    for one in list {
        with_name(one, scope)?;
    }
    Ok(())
}

// A package that a `use` names.
pub fn use_name(one: &Name, scope: &mut Scope) -> Result<(), AllocError>
    ensures { OnOk result (scope.new ≡ scope_used_by (denoted Wanted.Use scope.old (name_view one.now)) scope.old) }
{
    let found = scope.denoted(Wanted::Use, one);
    add_used(found, scope)
}

fn use_names(list: &Vec<Name>, scope: &mut Scope) -> Result<(), AllocError>
    ensures { OnOk result (scope.new ≡ scope_use_names (names_view list.now.items) scope.old) }
{
    for one in list {
        use_name(one, scope)?;
    }
    Ok(())
}

fn context_item(item: &ContextItem, scope: &mut Scope) -> Result<(), AllocError>
    ensures { OnOk result (scope.new ≡ with_context_item (context_item_view item.now) scope.old) }
{
    match item {
        ContextItem::Pragma(_) => Ok(()),
        ContextItem::With(_, names) => with_names(names, scope),
        ContextItem::Use {
            at: _,
            is_type,
            names,
        } => {
            if *is_type {
                return Ok(());
            }
            use_names(names, scope)
        }
    }
}

fn context(list: &Vec<ContextItem>, scope: &mut Scope) -> Result<(), AllocError>
    ensures { OnOk result (scope.new ≡ with_context (map context_item_view list.now.items) scope.old) }
{
    for item in list {
        context_item(item, scope)?;
    }
    Ok(())
}

/// What is declared where the package of a text begins: what its context clauses make visible.
pub fn package_scope<'a>(
    alloc: Global,
    tree: &'a UnitTree,
    catalogue: &'a Catalogue,
) -> Result<Scope<'a>, AllocError>
    ensures { IfOk result (λ scope. scope ≡ scope_of_package catalogue.now (unit_view tree.now)) }
{
    let unit = tree.specification.name.text.as_str();
    let mut scope = Scope::new(alloc, unit, catalogue);
    context(&tree.context, &mut scope)?;
    Ok(scope)
}
