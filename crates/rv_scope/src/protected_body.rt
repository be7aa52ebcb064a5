//! Bodies of protected units: which unit one completes, and what is declared in it (3.11.1, 9.4).

ghost use Rattle.std.specs.Prelude.{◌≡◌, ℕ, Option, OnOk, IfOk, map};
ghost use Rattle.std.specs.Option.{option_map};
ghost use Rattle.rv_tree.specs.Declarations.{ProtectedUnit as ProtectedUnitTree};
ghost use Rattle.rv_tree.specs.NameView.{identifier_view};
ghost use Rattle.rv_tree.specs.DeclarationView.{protected_unit_view};
ghost use Rattle.rv_scope.specs.Scope.{ScopeView};
ghost use Rattle.rv_scope.specs.UnitUses.{in_protected_unit, unit_of_body};

use crate::members::enter_members;
use crate::scope::Scope;
use crate::units::unit_number;
use crate::wanted::Wanted;
use rv_tree::declaration::ProtectedUnit;
use rv_tree::name::Identifier;
use std::alloc::AllocError;

impl<'a> Scope<'a> {
    /// The protected unit that a body of this name completes, with its number, of the units of a text in the order of
    /// their numbers.
    pub fn unit_of_body<'u>(
        &self,
        name: &Identifier,
        units: &[&'u ProtectedUnit],
    ) -> Option<(usize, &'u ProtectedUnit)>
        ensures { option_map (λ found. (found.0, protected_unit_view found.1.now)) result
            ≡ unit_of_body (map (λ u. protected_unit_view u.now) units.now) self.now (identifier_view name.now) }
    {
        let denoted = self.denoted_by_body(Wanted::ProtectedBody, name);
        let number = unit_number(denoted)?;
        let unit = units.get(number)?;
        Some((number, *unit))
    }

    /// Begins the body of a protected unit, in which all its operations and components are declared.
    /// What it gives is for `leave_unit`.
    pub fn enter_unit(&mut self, unit: &ProtectedUnit) -> Result<Option<usize>, AllocError>
        ensures scope { OnOk result (self.new ≡ in_protected_unit (protected_unit_view unit.now) self.old) }
        ensures around { IfOk result (λ around. around ≡ self.old.current) }
    {
        let around = self.current();
        enter_members(unit, self)?;
        self.set_current(Some(unit.name.at));
        Ok(around)
    }

    /// Ends the body of a protected unit; the point is then in this one, if in any.
    pub fn leave_unit(&mut self, around: Option<usize>)
        ensures { (unit : ProtectedUnitTree) (scope : ScopeView) →
            self.old ≡ in_protected_unit unit scope → self.new ≡ record scope { current = around } }
    {
        self.leave();
        self.set_current(around);
    }
}
