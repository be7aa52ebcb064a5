//! A package up to a point of the text: what is declared, what of it is static, and the operations of its protected units.

ghost use Rattle.std.specs.Prelude.{◌≡◌, ◌++◌, ◌∷◌, [], map, OnOk, IfOk};
ghost use Rattle.rv_tree.specs.DeclarationView.{declaration_view, protected_unit_view};
ghost use Rattle.rv_tree.specs.UnitView.{unit_view};
ghost use Rattle.rv_scope.specs.DeclarationUses.{declaring_protected_unit, with_declaration};
ghost use Rattle.rv_conform.specs.Conforms.{package_at, operations_of, with_unit, with_static, behind, behind_all};

use crate::declared::unit_operations;
use crate::operation::Operation;
use rv_scope::context::package_scope;
use rv_scope::declaration::declare as declare_only;
use rv_scope::subtype::{declare_constants, declare_subtype};
use rv_scope::{Scope, Table};
use rv_shape::catalogue::Catalogue;
use rv_static::Faults;
use rv_tree::declaration::{Declaration, ProtectedUnit};
use rv_tree::unit::UnitTree;
use std::alloc::{AllocError, Global};
use std::marker::Model;

/// The operations that a protected unit declares.
pub(crate) struct UnitOperations<'a> {
    pub(crate) list: Vec<Operation<'a>>,
}

impl Drop for UnitOperations<'_> {
    // A function of its own: a derived one is written out wherever a value is let go, and proved there.
    fn drop(self) {
        let UnitOperations { list: _ } = self;
    }
}

impl<'a> Model for UnitOperations<'a> {
    ghost use Rattle.std.specs.Prelude.{List};
    ghost use Rattle.rv_conform.specs.Profiles.{Operation as OperationView};

    ghost Value = { List OperationView };

    ghost view = { λ u. u.list.items };
}

/// A package up to a point of the text.
pub(crate) struct Package<'a> {
    /// What is declared.
    pub(crate) scope: Scope<'a>,
    /// What of it is static.
    pub(crate) statics: Table,
    /// The operations of the protected units that are declared so far, by the numbers of these.
    pub(crate) units: Vec<UnitOperations<'a>>,
}

impl Drop for Package<'_> {
    // A function of its own, likewise.
    fn drop(self) {
        let Package {
            scope: _,
            statics: _,
            units: _,
        } = self;
    }
}

impl<'a> Model for Package<'a> {
    ghost use Rattle.rv_conform.specs.Conforms.{PackageView};

    ghost Value = { PackageView };

    ghost view = { λ p. record { scope = p.scope; statics = p.statics; units = p.units.items } };
}

impl<'a> Package<'a> {
    /// The package of a text where it begins. Err where memory was refused.
    pub(crate) fn new(
        alloc: Global,
        tree: &'a UnitTree,
        catalogue: &'a Catalogue,
    ) -> Result<Package<'a>, AllocError>
        ensures { IfOk result (λ found. found ≡ package_at catalogue.now (unit_view tree.now)) }
    {
        let scope = package_scope(alloc, tree, catalogue)?;
        Ok(Package {
            scope,
            statics: Table::new(alloc),
            units: Vec::new(alloc),
        })
    }
}

fn protected_unit<'a>(
    unit: &'a ProtectedUnit,
    scope: &mut Scope,
    statics: &Table,
    units: &mut Vec<UnitOperations<'a>>,
) -> Result<(), AllocError>
    ensures scope { OnOk result (scope.new ≡ declaring_protected_unit (protected_unit_view unit.now) scope.old) }
    ensures units { OnOk result (units.new.items
        ≡ units.old.items ++ operations_of scope.old statics.now (protected_unit_view unit.now) ∷ []) }
{
    let around = scope.enter_declaration(unit)?;
    let list = unit_operations(unit, scope, statics)?;
    scope.leave_declaration(unit, around)?;
    units.push(UnitOperations { list })?;
    Ok(())
}

fn declare<'a>(
    one: &'a Declaration,
    scope: &mut Scope,
    statics: &mut Table,
    units: &mut Vec<UnitOperations<'a>>,
) -> Result<(), AllocError>
    ensures scope { OnOk result (scope.new ≡ with_declaration (declaration_view one.now) scope.old) }
    ensures statics { OnOk result (statics.new ≡ with_static scope.old (declaration_view one.now) statics.old) }
    ensures units { OnOk result (units.new.items ≡ with_unit scope.old statics.old (declaration_view one.now) units.old.items) }
{
    let mut faults = Faults::new();
    match one {
        Declaration::Subtype {
            at: _,
            name: declared,
            mark,
            range: part,
        } => declare_subtype(declared, mark, part, scope, statics, &mut faults),
        Declaration::Constant {
            names,
            mark,
            value: initial,
        } => declare_constants(names, mark, initial, scope, statics, &mut faults),
        Declaration::Protected(unit) => protected_unit(unit, scope, statics, units),
        Declaration::Pragma(_) | Declaration::Task(_) | Declaration::Variable { .. } => {
            declare_only(one, scope)
        }
    }
}

/// A declaration of the package. Err where memory was refused.
pub(crate) fn declaration<'a>(
    one: &'a Declaration,
    seen: &mut Package<'a>,
) -> Result<(), AllocError>
    ensures { OnOk result (seen.new ≡ behind (declaration_view one.now) seen.old) }
{
    declare(one, &mut seen.scope, &mut seen.statics, &mut seen.units)?;
    Ok(())
}

/// The declarations of the package specification. Err where memory was refused.
pub(crate) fn declarations<'a>(
    list: &'a Vec<Declaration>,
    seen: &mut Package<'a>,
) -> Result<(), AllocError>
    ensures { OnOk result (seen.new ≡ behind_all (map declaration_view list.now.items) seen.old) }
{
    for one in list {
        declaration(one, seen)?;
    }
    Ok(())
}
