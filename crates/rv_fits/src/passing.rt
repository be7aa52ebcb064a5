//! What is asked of each callee of a body.

ghost use Rattle.std.specs.Prelude.{◌≡◌};
ghost use Rattle.rv_fits.specs.Passing.{passes};

use crate::callee::callee_fits;
use crate::units::Units;
use rv_code::{Callee, of_object};

/// Whether each callee fits these units, in the bodies of the object of a number; 0 stands for a task's own body.
#[derive(Drop)]
pub(crate) struct Test<'a> {
    pub units: &'a Units<'a>,
    pub object: usize,
}

/// Whether a callee passes.
pub(crate) fn passes(callee: &Callee, test: &Test<'_>) -> bool
    ensures { result ≡ passes test.now callee.now }
{
    callee_fits(&of_object(test.object, *callee), test.units)
}
