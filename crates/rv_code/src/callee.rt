//! Callees in the body of an object.

ghost use Rattle.std.specs.Prelude.{◌≡◌};
ghost use Rattle.rv_code.specs.Callees.{of_object};

use crate::expression::Callee;

/// What a callee is in the body of the object of this number: an entry of the same object is one of this object's (9.5.3).
/// In a task's own body the number is 0, which no object has.
pub fn of_object(object: usize, callee: Callee) -> Callee
    ensures { result ≡ of_object object callee }
{
    match callee {
        Callee::OwnEntry(operation) => Callee::Entry(object, operation),
        other => other,
    }
}
