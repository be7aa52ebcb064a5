//! Names of whole unit texts.

ghost use Rattle.std.specs.Prelude.{◌≡◌, IfOk, OnOk, map, true};
ghost use Rattle.rv_tree.specs.DeclarationView.{protected_unit_view};
ghost use Rattle.rv_tree.specs.UnitView.{unit_view};
ghost use Rattle.rv_scope.specs.Bound.{judged, AreBound, AllBound, uses};
ghost use Rattle.rv_distinct.specs.Regions.{names_are_distinct};
ghost use Rattle.rv_distinct.specs.BodyNames.{has_one_body_each};
ghost use Rattle.rv_conform.specs.Conforms.{bodies_conform};
ghost use Rattle.rv_names.specs.Completed.{unit_is_completed, operations_are_completed};
ghost use Rattle.rv_names.specs.EndNames.{unit_ends};
ghost use Rattle.rv_names.specs.Jumps.{unit_is_placed};
ghost use Rattle.rv_scope.specs.UnitUses.{unit_uses, protected_units as all_protected_units};

use crate::completed::missing_body;
use crate::context_names::context_names;
use crate::declaration::declarations;
use crate::end_names::end_name_fault;
use crate::fault::{Faults, NameFault, earlier};
use crate::jumps::jump_fault;
use crate::missing::Around;
use crate::nonconforming::nonconforming;
use crate::operation_body::body_name;
use crate::twice::duplicate;
use crate::unit::body_items;
use rv_scope::named::{Named, protected_units};
use rv_scope::scope::Scope;
use rv_scope::wanted::Wanted;
use rv_shape::catalogue::Catalogue;
use rv_tree::declaration::ProtectedUnit;
use rv_tree::unit::UnitTree;
use std::alloc::{AllocError, Global};

// Walks through a whole text.
fn walk<'a>(
    alloc: Global,
    tree: &'a UnitTree,
    units: &'a [&'a ProtectedUnit],
    catalogue: &'a Catalogue,
    faults: &mut Faults<'a>,
) -> Result<(), AllocError>
    requires { map (λ u. protected_unit_view u.now) units.now ≡ all_protected_units (unit_view tree.now) }
    ensures { OnOk result (faults.new ≡ unit_uses judged catalogue.now (unit_view tree.now) faults.old) }
{
    let unit = tree.specification.name.text.as_str();
    let mut scope = Scope::new(alloc, unit, catalogue);
    context_names(&tree.context, &mut scope, faults)?;
    declarations(&tree.specification.declarations, &mut scope, faults)?;
    body_name(&tree.body.name, Wanted::PackageBody, &scope, faults);
    body_items(&tree.body.items, units, &mut scope, faults)
}

// The fault at the least place of those of bindings, or none where each name is bound.
fn least_fault(
    alloc: Global,
    tree: &UnitTree,
    catalogue: &Catalogue,
) -> Result<Option<NameFault>, AllocError>
    ensures { IfOk result (λ fault. fault ≡ None → AreBound catalogue.now (unit_view tree.now)) }
{
    let units = protected_units(alloc, tree)?;
    let around = Around {
        tree,
        units: units.as_slice(),
        unit: None,
        parameters: None,
        block: None,
    };
    let mut faults = Faults::new(around);
    walk(alloc, tree, units.as_slice(), catalogue, &mut faults)?;
    Ok(faults.least())
}

// The fault at the least place, of all that names are looked at for.
fn first_fault(
    alloc: Global,
    tree: &UnitTree,
    catalogue: &Catalogue,
) -> Result<Option<NameFault>, AllocError>
    ensures bound { IfOk result (λ fault. fault ≡ None → AreBound catalogue.now (unit_view tree.now)) }
    ensures bodies { IfOk result (λ fault. fault ≡ None → unit_is_completed (unit_view tree.now) ≡ true) }
    ensures operations { IfOk result (λ fault. fault ≡ None → operations_are_completed (unit_view tree.now) ≡ true) }
    ensures conforms { IfOk result (λ fault. fault ≡ None → bodies_conform catalogue.now (unit_view tree.now) ≡ true) }
    ensures ends { IfOk result (λ fault. fault ≡ None → unit_ends (unit_view tree.now) ≡ true) }
    ensures jumps { IfOk result (λ fault. fault ≡ None → unit_is_placed (unit_view tree.now) ≡ true) }
    ensures distinct { IfOk result (λ fault. fault ≡ None → names_are_distinct (unit_view tree.now) ≡ true) }
    ensures one_body { IfOk result (λ fault. fault ≡ None → has_one_body_each (unit_view tree.now) ≡ true) }
{
    let unbound = least_fault(alloc, tree, catalogue)?;
    let bodiless = missing_body(alloc, tree)?;
    let mismatch = nonconforming(alloc, tree, catalogue)?;
    let twice = duplicate(alloc, tree)?;
    let misplaced = earlier(end_name_fault(tree), jump_fault(tree));
    let in_body = earlier(earlier(bodiless, mismatch), earlier(twice, misplaced));
    Ok(earlier(unbound, in_body))
}

/// Binds each name of a text to the one declaration that is visible, over the loaded units.
///
/// # Errors
/// The fault at the least place: at one place the first in the order of `NameFault`. `NoMemory` where memory was refused.
pub fn resolve<'a>(
    alloc: Global,
    tree: &'a UnitTree,
    catalogue: &'a Catalogue,
) -> Result<Named<'a>, NameFault>
    ensures tree { IfOk result (λ named. named.tree.now ≡ tree.now) }
    ensures catalogue { IfOk result (λ named. named.catalogue.now ≡ catalogue.now) }
    ensures bound { IfOk result (λ named. AllBound (uses catalogue.now (unit_view tree.now))) }
    ensures bodies { IfOk result (λ named. unit_is_completed (unit_view tree.now) ≡ true) }
    ensures operations { IfOk result (λ named. operations_are_completed (unit_view tree.now) ≡ true) }
    ensures conforms { IfOk result (λ named. bodies_conform catalogue.now (unit_view tree.now) ≡ true) }
    ensures ends { IfOk result (λ named. unit_ends (unit_view tree.now) ≡ true) }
    ensures jumps { IfOk result (λ named. unit_is_placed (unit_view tree.now) ≡ true) }
    ensures distinct { IfOk result (λ named. names_are_distinct (unit_view tree.now) ≡ true) }
    ensures one_body { IfOk result (λ named. has_one_body_each (unit_view tree.now) ≡ true) }
{
    match first_fault(alloc, tree, catalogue)? {
        None => Ok(Named::new(tree, catalogue)),
        Some(fault) => Err(fault),
    }
}
