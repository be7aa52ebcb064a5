//! What is told of a unit as it is loaded.

ghost use Rattle.std.specs.Prelude.{◌≡◌, ◌++◌, ◌∷◌, [], Some, None, IfOk, string_bytes};
ghost use Rattle.rv_code.specs.BodyView.{unit_view};
ghost use Rattle.rv_shape.specs.Fits.{fault};
ghost use Rattle.rv_never.specs.Telling.{TellsLoad, TellsUnit, TellsUnits};

use crate::calls::{UnitCalls, unit_calls};
use crate::judge::{ceiling_notes, denial_notes};
use crate::telling::put_notes;
use rv_access::AccessList;
use rv_code::Unit;
use rv_shape::catalogue::Catalogue;
use rv_shape::shape::UnitShape;
use std::alloc::{AllocError, Global};

// What can't work of calls that are denied to a unit that is being loaded, unless its lines are appended first.
const ADVICE: &str = "; append its lines, then load";

// What is told of units, by the catalogues before and after they are loaded. Err where memory was refused.
fn units_text(
    alloc: Global,
    before: &Catalogue,
    after: &Catalogue,
    units: &[UnitCalls],
    list: &AccessList,
    clock: u64,
) -> Result<String, AllocError>
    ensures { IfOk result (λ text. TellsUnits before.now after.now units.now list.now clock (string_bytes text)) }
{
    let ceilings = ceiling_notes(alloc, before, after, units)?;
    let denials = denial_notes(alloc, before, after, units, list, clock)?;
    let mut text = String::new(alloc);
    put_notes(
        &mut text,
        alloc,
        after,
        list,
        clock,
        "",
        ceilings.as_slice(),
    )?;
    put_notes(
        &mut text,
        alloc,
        after,
        list,
        clock,
        ADVICE,
        denials.as_slice(),
    )?;
    Ok(text)
}

// The catalogue with a unit more, which fits. Err where memory was refused.
fn with_unit(
    alloc: Global,
    catalogue: &Catalogue,
    shape: &UnitShape,
) -> Result<Catalogue, AllocError>
    requires { fault catalogue.now shape.now ≡ None }
    ensures { IfOk result (λ after. after ≡ catalogue.now ++ shape.now ∷ []) }
{
    let mut after = catalogue.copy(alloc)?;
    after.add_fitting(shape)?;
    Ok(after)
}

// What is told of a unit that fits. Err where memory was refused.
fn unit_text(
    alloc: Global,
    catalogue: &Catalogue,
    unit: &Unit,
    list: &AccessList,
    clock: u64,
) -> Result<String, AllocError>
    requires { fault catalogue.now unit.now.shape ≡ None }
    ensures { IfOk result (λ text. TellsUnit catalogue.now unit.now.shape (unit_view unit.now.bodies) list.now clock (string_bytes text)) }
{
    let after = with_unit(alloc, catalogue, &unit.shape)?;
    let units = [unit_calls(alloc, catalogue, &unit.bodies)?];
    units_text(alloc, catalogue, &after, &units, list, clock)
}

/// What can never work of a unit that is just being loaded, by the list at the clock: a line for each call that a task of it makes
/// in its own body and that is denied or whose ceiling is too low, and for its handlers, as `warning: Scan calls Press.Bin.Put,
/// which no line grants; append its lines, then load`. The catalogue is that of the units before it; where it doesn't fit these,
/// nothing is told. Err where memory was refused.
pub fn load_text(
    alloc: Global,
    catalogue: &Catalogue,
    unit: &Unit,
    list: &AccessList,
    clock: u64,
) -> Result<String, AllocError>
    ensures { IfOk result (λ text. TellsLoad catalogue.now unit.now.shape (unit_view unit.now.bodies) list.now clock (string_bytes text)) }
{
    match catalogue.shape_fits(&unit.shape) {
        Some(_) => Ok(String::new(alloc)),
        None => unit_text(alloc, catalogue, unit, list, clock),
    }
}
