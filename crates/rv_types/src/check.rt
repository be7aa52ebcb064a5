//! Checks the types of a unit text whose names are bound, and compiles its bodies.

ghost use Rattle.std.specs.Prelude.{◌≡◌, IfOk, Some, map};
ghost use Rattle.rv_tree.specs.NameView.{names_view};
ghost use Rattle.rv_tree.specs.UnitView.{context_item_view, unit_view as tree_view};
ghost use Rattle.rv_outline.specs.Shapes.{shape_of, outlined};
ghost use Rattle.rv_code.specs.BodyView.{unit_view};
ghost use Rattle.rv_types.specs.BodiesOf.{is_real_time as is_times, names_times as names_are_times, item_times as item_is_times, context_times as context_is_times, setting_of, bodies_of};
ghost use Rattle.rv_outline.specs.Declarations.{body_scope};

use crate::refused::{Refused, least};
use crate::setting::Setting;
use crate::text_order::look_in_order;
use crate::unit::{items, no_bodies};
use rv_code::{Unit, UnitBodies};
use rv_outline::outline::{Outline, outline_of};
use rv_scope::context::package_scope;
use rv_scope::declaration::declare_each;
use rv_scope::named::{Named, protected_units};
use rv_scope::{Declared, Library, Scope, Wanted};
use rv_static::{Faults, TypeFault};
use rv_tree::name::Name;
use rv_tree::unit::ContextItem;
use std::alloc::Global;

// Whether it is Ada.Real_Time.
fn is_real_time(found: Option<Declared>) -> bool
    ensures { result ≡ is_times found }
{
    match found {
        Some(Declared::LibraryPackage(Library::RealTime)) => true,
        _ => false,
    }
}

// Whether one of these names Ada.Real_Time.
fn names_times(names: &Vec<Name>, scope: &Scope) -> bool
    ensures { result ≡ names_are_times scope.now (names_view names.now.items) }
{
    for name in names {
        if is_real_time(scope.denoted(Wanted::With, name)) {
            return true;
        }
    }
    false
}

fn item_times(item: &ContextItem, scope: &Scope) -> bool
    ensures { result ≡ item_is_times scope.now (context_item_view item.now) }
{
    match item {
        ContextItem::With(_, names) => names_times(names, scope),
        ContextItem::Pragma(_) => false,
        ContextItem::Use {
            at: _,
            is_type: _,
            names: _,
        } => false,
    }
}

// Whether a `with` names Ada.Real_Time.
fn context_times(context: &Vec<ContextItem>, scope: &Scope) -> bool
    ensures { result ≡ context_is_times scope.now (map context_item_view context.now.items) }
{
    for item in context {
        if item_times(item, scope) {
            return true;
        }
    }
    false
}

// What is known of a text before its bodies, and what is declared where the package body begins.
fn start<'a>(
    alloc: Global,
    named: &Named<'a>,
    outline: &'a Outline,
) -> Result<(Setting<'a>, Scope<'a>), Refused>
    requires { outline.now ≡ outlined named.now.catalogue.now (tree_view named.now.tree.now) }
    ensures setting { IfOk result (λ r. r.0 ≡ setting_of named.now.catalogue.now (tree_view named.now.tree.now)) }
    ensures scope { IfOk result (λ r. r.1 ≡ body_scope named.now.catalogue.now (tree_view named.now.tree.now)) }
{
    let mut scope = package_scope(alloc, named.tree, named.catalogue)?;
    let times = context_times(&named.tree.context, &scope);
    let setting = Setting {
        outline,
        catalogue: named.catalogue,
        times,
    };
    declare_each(&named.tree.specification.declarations, &mut scope)?;
    Ok((setting, scope))
}

// The compiled bodies of a text.
fn bodies(alloc: Global, named: &Named, outline: &Outline) -> Result<UnitBodies, Refused>
    requires { outline.now ≡ outlined named.now.catalogue.now (tree_view named.now.tree.now) }
    ensures { IfOk result (λ u. bodies_of named.now.catalogue.now (tree_view named.now.tree.now) ≡ Some (unit_view u)) }
{
    let tree = named.tree;
    let units = protected_units(alloc, tree)?;
    let (setting, scope) = start(alloc, named, outline)?;
    let mut compiled = no_bodies(alloc, outline)?;
    items(
        alloc,
        &setting,
        units.as_slice(),
        &tree.body.items,
        &mut compiled,
        scope,
    )?;
    Ok(compiled)
}

// The fault of the bodies that stands first in the text, where this one was met; want of memory before all.
fn first_of_bodies(alloc: Global, named: &Named, outline: &Outline, met: Refused) -> Refused
    requires { outline.now ≡ outlined named.now.catalogue.now (tree_view named.now.tree.now) }
{
    match look(alloc, named, outline) {
        Ok(()) => met,
        Err(first) => least(met, first),
    }
}

fn look(alloc: Global, named: &Named, outline: &Outline) -> Result<(), Refused>
    requires { outline.now ≡ outlined named.now.catalogue.now (tree_view named.now.tree.now) }
{
    let units = protected_units(alloc, named.tree)?;
    let (setting, scope) = start(alloc, named, outline)?;
    look_in_order(
        alloc,
        &setting,
        units.as_slice(),
        &named.tree.body.items,
        scope,
    )
}

/// Checks the types of a text whose names are bound, and compiles its bodies.
///
/// # Errors
/// The fault at the least place: at one place the first in the order of `TypeFault`. `NoMemory` wherever memory was refused,
/// whatever is wrong besides.
pub fn check_types(alloc: Global, named: &Named) -> Result<Unit, TypeFault>
    ensures shape { IfOk result (λ c. shape_of named.now.catalogue.now (tree_view named.now.tree.now) ≡ Some c.shape) }
    ensures bodies { IfOk result (λ c. bodies_of named.now.catalogue.now (tree_view named.now.tree.now) ≡ Some (unit_view c.bodies)) }
{
    let mut faults = Faults::new();
    let Ok(outline) = outline_of(alloc, named, &mut faults) else {
        return Err(TypeFault::NoMemory);
    };
    match bodies(alloc, named, &outline) {
        Err(met) => {
            let Refused(fault) = first_of_bodies(alloc, named, &outline, met);
            Err(first_of(faults, fault))
        }
        Ok(bodies) => {
            if let Some(fault) = faults.first() {
                return Err(fault);
            }
            let (shape, _known) = outline.into_parts();
            Ok(Unit { shape, bodies })
        }
    }
}

// The first fault, of those of declarations and this one.
fn first_of(declarations: Faults, fault: TypeFault) -> TypeFault {
    let mut faults = declarations;
    faults.tell(fault);
    match faults.first() {
        Some(first) => first,
        None => fault,
    }
}
