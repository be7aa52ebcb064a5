//! What others see of protected units (9.4).

ghost use Rattle.std.specs.Prelude.{◌≡◌, OnOk, IfOk, map, length, []};
ghost use Rattle.rv_tree.specs.NameView.{identifier_view};
ghost use Rattle.rv_tree.specs.DeclarationView.{operation_view, protected_unit_view};
ghost use Rattle.rv_scope.specs.Scope.{declaring, showing, within_unit};
ghost use Rattle.rv_scope.specs.DeclarationUses.{protected_meaning as meaning_of_unit, with_shown, with_all_shown, naming_unit, declaring_protected_unit};

use crate::declared::Declared;
use crate::members::{declared_operation, hide};
use crate::region::Region;
use crate::scope::Scope;
use rv_tree::declaration::{OperationDeclaration, ProtectedUnit};
use std::alloc::{AllocError, Global};

// What a protected unit of this number declares: a type, or a single object.
fn unit_meaning(is_type: bool, number: usize, at: usize) -> Declared
    ensures { result ≡ meaning_of_unit is_type number at }
{
    if is_type {
        Declared::ProtectedType(at, number)
    } else {
        Declared::SingleProtected(at, number)
    }
}

// An operation before `private`, as others see it.
fn show(alloc: Global, one: &OperationDeclaration, region: &mut Region) -> Result<(), AllocError>
    ensures { OnOk result (region.new ≡ with_shown (operation_view one.now) region.old) }
{
    match declared_operation(one) {
        None => Ok(()),
        Some((declared, kind)) => {
            let meaning = Declared::Operation(declared.at, kind);
            region.declare(alloc, declared.text.as_str(), Some(meaning))
        }
    }
}

// All operations before `private`.
fn shown(alloc: Global, list: &Vec<OperationDeclaration>) -> Result<Region, AllocError>
    ensures { IfOk result (λ region. region ≡ with_all_shown (map operation_view list.now.items) []) }
{
    let mut region = Region::new(alloc);
    for one in list {
        show(alloc, one, &mut region)?;
    }
    Ok(region)
}

impl<'a> Scope<'a> {
    /// The identifier of a protected unit is declared, which denotes the unit within its own declaration too (8.3).
    pub fn name_protected_unit(&mut self, unit: &ProtectedUnit) -> Result<(), AllocError>
        ensures { OnOk result (self.new
            ≡ declaring (meaning_of_unit unit.now.is_type (length self.old.shown)) (identifier_view unit.now.name) self.old) }
    {
        let meaning = unit_meaning(unit.is_type, self.shown().len(), unit.name.at);
        self.declare(&unit.name, Some(meaning))
    }

    /// What others see of a protected unit behind its declaration: its operations before `private` (9.4).
    pub fn show_protected_unit(&mut self, unit: &ProtectedUnit) -> Result<(), AllocError>
        ensures { OnOk result (self.new ≡ showing (with_all_shown (map operation_view unit.now.operations.items) []) self.old) }
    {
        let operations = shown(self.allocator(), &unit.operations)?;
        self.show(operations)
    }

    /// A protected unit of the package, of whose parts nothing else is asked.
    pub fn declare_protected_unit(&mut self, unit: &ProtectedUnit) -> Result<(), AllocError>
        ensures { OnOk result (self.new ≡ declaring_protected_unit (protected_unit_view unit.now) self.old) }
    {
        hide(&unit.name, self)?;
        self.name_protected_unit(unit)?;
        self.show_protected_unit(unit)
    }

    /// Begins the declaration of a protected unit, whose identifier denotes the unit there too (8.3).
    /// What it gives is for `leave_declaration`.
    pub fn enter_declaration(&mut self, unit: &ProtectedUnit) -> Result<Option<usize>, AllocError>
        ensures scope { OnOk result (self.new
            ≡ within_unit unit.now.name.at (naming_unit (protected_unit_view unit.now) self.old)) }
        ensures around { IfOk result (λ around. around ≡ self.old.current) }
    {
        let around = self.current();
        hide(&unit.name, self)?;
        self.name_protected_unit(unit)?;
        self.set_current(Some(unit.name.at));
        Ok(around)
    }

    /// Ends the declaration of a protected unit, whose operations before `private` others see behind it (9.4); the point
    /// is then in this one, if in any.
    pub fn leave_declaration(
        &mut self,
        unit: &ProtectedUnit,
        around: Option<usize>,
    ) -> Result<(), AllocError>
        ensures { OnOk result (self.new
            ≡ showing (with_all_shown (map operation_view unit.now.operations.items) []) (record self.old { current = around })) }
    {
        self.set_current(around);
        self.show_protected_unit(unit)
    }
}
