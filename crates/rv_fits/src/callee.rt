//! Callees in units.

ghost use Rattle.std.specs.Prelude.{◌≡◌};
ghost use Rattle.rv_shape.specs.Catalogue.{place, target};
ghost use Rattle.rv_fits.specs.Fits.{callee_fits, calls_function, calls_procedure, calls_entry, is_suspension};

use crate::units::Units;
use rv_code::Callee;
use rv_shape::actor::Callee as Called;
use rv_shape::object::Object;

fn calls_function(units: &Units<'_>, object: usize, operation: usize) -> bool
    ensures { result ≡ calls_function (target units.now object operation) }
{
    match units.callee(object, operation) {
        Called::Protected(_, _, operation) => operation.kind().is_function(),
        _ => false,
    }
}

fn calls_procedure(units: &Units<'_>, object: usize, operation: usize) -> bool
    ensures { result ≡ calls_procedure (target units.now object operation) }
{
    match units.callee(object, operation) {
        Called::Protected(_, _, operation) => {
            let kind = operation.kind();
            !(kind.is_function() || kind.is_entry())
        }
        _ => false,
    }
}

/// Whether a call is one of an entry (9.5.3).
pub(crate) fn calls_entry(units: &Units<'_>, object: usize, operation: usize) -> bool
    ensures { result ≡ calls_entry (target units.now object operation) }
{
    match units.callee(object, operation) {
        Called::Protected(_, _, operation) => operation.kind().is_entry(),
        _ => false,
    }
}

fn is_suspension(units: &Units<'_>, object: usize) -> bool
    ensures { result ≡ is_suspension (place units.now object) }
{
    match units.object(object) {
        Some((_, Object::Suspension(_))) => true,
        _ => false,
    }
}

/// Whether what a callee names in these units is what it is called for.
pub(crate) fn callee_fits(callee: &Callee, units: &Units<'_>) -> bool
    ensures { result ≡ callee_fits units.now callee.now }
{
    match *callee {
        Callee::Internal(_) => true,
        Callee::OwnEntry(_) => false,
        Callee::Function(object, operation) => calls_function(units, object, operation),
        Callee::Procedure(object, operation) => calls_procedure(units, object, operation),
        Callee::Entry(object, operation) => calls_entry(units, object, operation),
        Callee::SetTrue(object) => is_suspension(units, object),
        Callee::SetFalse(object) => is_suspension(units, object),
        Callee::CurrentState(object) => is_suspension(units, object),
        Callee::SuspendUntilTrue(object) => is_suspension(units, object),
        Callee::DelayUntil => true,
        Callee::Clock => true,
    }
}
