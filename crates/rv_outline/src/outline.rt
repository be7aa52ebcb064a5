//! The outline of a unit text: what its declarations mean, and the shape of its unit.

ghost use Rattle.std.specs.Prelude.{◌≡◌, ◌≤◌, ◌||◌, IfOk, OnOk, map, false, Some, true};
ghost use Rattle.rv_tree.specs.UnitView.{unit_view};
ghost use Rattle.rv_tree.specs.DeclarationView.{protected_unit_view};
ghost use Rattle.rv_scope.specs.DeclarationUses.{with_declarations};
ghost use Rattle.rv_scope.specs.UnitUses.{protected_units as all_protected_units};
ghost use Rattle.rv_outline.specs.Declarations.{body_items_outlined, declarations_outlined, drafted};
ghost use Rattle.rv_outline.specs.Shapes.{outline_of as outline_of_draft, outlined, shape_of};

use crate::body::body_items;
use crate::declaration::declarations;
use crate::draft::Draft;
use crate::shape::{objects, types, unit_shapes};
use rv_scope::context::package_scope;
use rv_scope::named::{Named, protected_units};
use rv_scope::{Scope, Table};
use rv_shape::object::ProtectedObject;
use rv_shape::shape::UnitShape;
use rv_static::Faults;
use rv_tree::{ProtectedUnit, UnitTree};
use std::alloc::{AllocError, Global};
use std::marker::Model;

/// What an object of a text is an object of.
#[derive(Clone, Copy)]
pub enum ObjectType {
    /// The protected unit of this number, from 0 (9.4).
    Protected(usize),
    /// `Ada.Synchronous_Task_Control.Suspension_Object` (D.10).
    Suspension,
}

/// What the declarations of a unit text mean. A declaration that doesn't fit is left out, and a fault was told of it.
pub struct Outline {
    // Whether a fault was told.
    told: bool,
    known: Table,
    units: Vec<ProtectedObject>,
    objects: Vec<ObjectType>,
    shape: UnitShape,
}

impl Drop for Outline {
    // A function of its own: a derived one is written out wherever a value is let go, and proved there.
    fn drop(self) {
        let Outline {
            told: _,
            known: _,
            units: _,
            objects: _,
            shape: _,
        } = self;
    }
}

impl Model for Outline {
    ghost use Rattle.rv_outline.specs.Shapes.{OutlineView};

    ghost Value = { OutlineView };

    ghost view = { λ o. record {
      told = o.told;
      known = o.known;
      units = o.units.items;
      objects = o.objects.items;
      shape = o.shape;
    } };
}

impl Outline {
    /// What is known of the declarations of the package, its protected units and their members, by the places of their
    /// identifiers.
    pub fn known(&self) -> &Table
        ensures { result.now ≡ self.now.known }
    {
        &self.known
    }

    /// The protected units in the order of their numbers, protected types too, with the ceiling, components and operations
    /// of each (9.4).
    pub fn units(&self) -> &[ProtectedObject]
        ensures { result.now ≡ self.now.units }
    {
        self.units.as_slice()
    }

    /// What the objects of the text are, in the order of their numbers, which follow those of the catalogue.
    pub fn objects(&self) -> &[ObjectType]
        ensures { result.now ≡ self.now.objects }
    {
        self.objects.as_slice()
    }

    /// The shape of the unit.
    pub fn shape(&self) -> &UnitShape
        ensures { result.now ≡ self.now.shape }
    {
        &self.shape
    }

    /// The shape of the unit, and what is known.
    pub fn into_parts(self) -> (UnitShape, Table)
        ensures shape { result.0 ≡ self.shape }
        ensures known { result.1 ≡ self.known }
    {
        let Outline {
            told: _,
            known,
            units: _,
            objects: _,
            shape,
        } = self;
        (shape, known)
    }
}

// The declarations of the package, and behind them the items of its body.
fn declare_all(
    tree: &UnitTree,
    units: &[&ProtectedUnit],
    scope: &mut Scope,
    draft: &mut Draft,
) -> Result<(), AllocError>
    ensures { OnOk result (draft.new
        ≡ body_items_outlined (map (λ u. protected_unit_view u.now) units.now)
        (with_declarations (unit_view tree.now).specification.declarations scope.old) (unit_view tree.now).body.items
        (declarations_outlined scope.old (unit_view tree.now).specification.declarations draft.old)) }
{
    declarations(&tree.specification.declarations, scope, draft)?;
    body_items(&tree.body.items, units, scope, draft)
}

// All that a text declares, over the loaded units.
fn draft(alloc: Global, named: &Named) -> Result<Draft, AllocError>
    ensures { IfOk result (λ draft. draft ≡ drafted named.now.catalogue.now (unit_view named.now.tree.now)) }
{
    let tree = named.tree;
    let units = protected_units(alloc, tree)?;
    let mut scope = package_scope(alloc, tree, named.catalogue)?;
    let mut draft = Draft::new(alloc, named.catalogue.objects());
    declare_all(tree, units.as_slice(), &mut scope, &mut draft)?;
    Ok(draft)
}

// The outline of a unit of this name.
fn outline_named(alloc: Global, name: &str, draft: Draft) -> Result<Outline, AllocError>
    ensures { IfOk result (λ outline. outline ≡ outline_of_draft name.now draft) }
{
    let units = unit_shapes(alloc, &draft)?;
    let all = objects(alloc, draft.objects.as_slice(), units.as_slice())?;
    let objects = types(alloc, &draft.objects)?;
    let name = String::from_str(alloc, name)?;
    let told = draft.faults.first().is_some();
    let (known, tasks) = draft.into_parts();
    Ok(Outline {
        told,
        known,
        units,
        objects,
        shape: UnitShape::new(name, tasks, all),
    })
}

/// The outline of a text whose names are bound. What is wrong with the types of its declarations is told, the fault at the
/// least place.
pub fn outline_of(alloc: Global, named: &Named, faults: &mut Faults) -> Result<Outline, AllocError>
    ensures value { IfOk result (λ outline. outline ≡ outlined named.now.catalogue.now (unit_view named.now.tree.now)) }
    ensures told { IfOk result (λ outline. faults.new ≡ (outline.told || faults.old)) }
    ensures shape { IfOk result (λ outline. faults.new ≡ false
        → shape_of named.now.catalogue.now (unit_view named.now.tree.now) ≡ Some outline.shape) }
{
    let draft = draft(alloc, named)?;
    if let Some(fault) = draft.faults.first() {
        faults.tell(fault);
    }
    outline_named(alloc, named.tree.specification.name.text.as_str(), draft)
}
