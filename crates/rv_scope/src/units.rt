//! What the name of a protected unit, or of a variable's type, denotes.

ghost use Rattle.std.specs.Prelude.{◌≡◌};
ghost use Rattle.rv_scope.specs.UnitUses.{unit_number as unit_number_of};
ghost use Rattle.rv_scope.specs.DeclarationUses.{object_form as form_of_objects};

use crate::declare::Form;
use crate::declared::Declared;

/// The number of the protected unit that is declared, if it is one (9.4).
pub fn unit_number(found: Option<Declared>) -> Option<usize>
    ensures { result ≡ unit_number_of found }
{
    match found {
        Some(Declared::ProtectedType(_, number)) => Some(number),
        Some(Declared::SingleProtected(_, number)) => Some(number),
        _ => None,
    }
}

/// What the variables of a package denote, by what their mark denotes: objects of a protected type,
/// else suspension objects (3.3.1).
pub fn object_form(mark: Option<Declared>) -> Form
    ensures { result ≡ form_of_objects mark }
{
    match mark {
        Some(Declared::ProtectedType(_, number)) => Form::ProtectedObject(number),
        _ => Form::Suspension,
    }
}
