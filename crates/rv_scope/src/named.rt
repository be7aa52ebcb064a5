//! Unit texts whose names are bound, and the protected units of a text.

ghost use Rattle.std.specs.Prelude.{◌≡◌, OnOk, IfOk, map};
ghost use Rattle.rv_tree.specs.DeclarationView.{declaration_view, protected_unit_view};
ghost use Rattle.rv_tree.specs.UnitView.{body_item_view, unit_view};
ghost use Rattle.rv_scope.specs.Bound.{AreBound};
ghost use Rattle.rv_scope.specs.UnitUses.{protected_units as all_protected_units, unit_onto, item_onto};

use rv_shape::catalogue::Catalogue;
use rv_tree::declaration::{Declaration, ProtectedUnit};
use rv_tree::unit::{BodyItem, UnitTree};
use std::alloc::{AllocError, Global};

/// A unit text's tree and the loaded units, over which each name of the text is bound to the one declaration that is
/// visible.
#[derive(Drop)]
pub struct Named<'a> {
    pub tree: &'a UnitTree,
    pub catalogue: &'a Catalogue,
    ghost bound: { AreBound catalogue.now (unit_view tree.now) },
}

impl<'a> Named<'a> {
    /// A text, over the loaded units, over which each of its names is bound.
    pub fn new(tree: &'a UnitTree, catalogue: &'a Catalogue) -> Named<'a>
        requires { AreBound catalogue.now (unit_view tree.now) }
        ensures tree { result.tree.now ≡ tree.now }
        ensures catalogue { result.catalogue.now ≡ catalogue.now }
    {
        Named { tree, catalogue }
    }
}

// A protected unit, behind those before it.
fn push_unit<'a>(
    units: &mut Vec<&'a ProtectedUnit>,
    declaration: &'a Declaration,
) -> Result<(), AllocError>
    ensures { OnOk result (map (λ u. protected_unit_view u.now) units.new.items ≡ unit_onto (map (λ u. protected_unit_view u.now) units.old.items) (declaration_view declaration.now)) }
{
    if let Declaration::Protected(unit) = declaration {
        units.push(unit)?;
    }
    Ok(())
}

// The same, of an item of the package body.
fn push_item<'a>(units: &mut Vec<&'a ProtectedUnit>, item: &'a BodyItem) -> Result<(), AllocError>
    ensures { OnOk result (map (λ u. protected_unit_view u.now) units.new.items ≡ item_onto (map (λ u. protected_unit_view u.now) units.old.items) (body_item_view item.now)) }
{
    match item {
        BodyItem::Declaration(declaration) => push_unit(units, declaration),
        BodyItem::Protected(_) => Ok(()),
        BodyItem::Task(_) => Ok(()),
    }
}

/// The protected units of a text, in the order of their numbers.
pub fn protected_units<'a>(
    alloc: Global,
    tree: &'a UnitTree,
) -> Result<Vec<&'a ProtectedUnit>, AllocError>
    ensures { IfOk result (λ units. map (λ u. protected_unit_view u.now) units.items ≡ all_protected_units (unit_view tree.now)) }
{
    let mut units = Vec::new(alloc);
    for declaration in &tree.specification.declarations {
        push_unit(&mut units, declaration)?;
    }
    for item in &tree.body.items {
        push_item(&mut units, item)?;
    }
    Ok(units)
}
