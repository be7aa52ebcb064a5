//! Names of a line that name nothing of what is loaded.

ghost use Rattle.std.specs.Prelude.{◌≡◌, ◌||◌, not, IfOk};
ghost use Rattle.rv_near.specs.Near.{is_near};
ghost use Rattle.rv_notes.specs.Names.{has_somewhere, has_units, interrupts, is_near_unit, is_of_suspension, lacks_caller, lacks_home, lacks_object, lacks_operation, names_caller};

use crate::scene::Scene;
use rv_access::Line;
use rv_near::is_near;
use rv_shape::catalogue::Catalogue;
use rv_text::{dotted_parts, is_same_name};
use std::alloc::{AllocError, Global};

/// The home of the lines, as access lists name it.
pub(crate) const INTERRUPTS: &str = "Interrupts";

// Whether a word is near to the name of a unit that is loaded. Err where memory was refused.
fn is_near_unit(alloc: Global, catalogue: &Catalogue, word: &str) -> Result<bool, AllocError>
    ensures { IfOk result (λ near. near ≡ is_near_unit catalogue.now word.now) }
{
    for shape in catalogue.shapes() {
        if is_near(alloc, word, shape.name())? {
            return Ok(true);
        }
    }
    Ok(false)
}

// Whether a word names all callers, the home of the lines, or a unit that is loaded.
fn names_caller(catalogue: &Catalogue, word: &str) -> bool
    ensures { result ≡ names_caller catalogue.now word.now }
{
    word == "*" || is_same_name(word, INTERRUPTS) || catalogue.find_unit(word).is_some()
}

// Whether it is told of a line that it names no unit, whatever the word is near to.
fn is_told(scene: &Scene<'_>, line: &Line) -> bool
    ensures { result ≡ (not line.now.allow || scene.now.is_closed) }
{
    !line.allows() || scene.is_closed()
}

// Whether there are units to be named.
fn has_units(scene: &Scene<'_>) -> bool
    ensures { result ≡ has_units scene.now }
{
    scene.catalogue().shapes().len() > 0
}

// Whether a word is near to a name that a caller may have. Err where memory was refused.
fn is_near_caller(alloc: Global, catalogue: &Catalogue, word: &str) -> Result<bool, AllocError>
    ensures { IfOk result (λ near. near ≡ (is_near word.now interrupts || is_near_unit catalogue.now word.now)) }
{
    if is_near(alloc, word, INTERRUPTS)? {
        return Ok(true);
    }
    is_near_unit(alloc, catalogue, word)
}

/// Whether the unit of a line that is to call is none that there is, where that is told. Err where memory was refused.
#[tactic(auto, using(crate::proofs::Named::in_any_case, crate::proofs::Named::where_near))]
pub(crate) fn lacks_caller(
    alloc: Global,
    scene: &Scene<'_>,
    line: &Line,
) -> Result<bool, AllocError>
    ensures { IfOk result (λ told. told ≡ lacks_caller scene.now line.now) }
{
    let catalogue = scene.catalogue();
    if !has_units(scene) || names_caller(catalogue, line.unit()) {
        return Ok(false);
    }
    if is_told(scene, line) {
        return Ok(true);
    }
    is_near_caller(alloc, catalogue, line.unit())
}

/// Whether the unit of a line's object is none that there is, where that is told. Err where memory was refused.
#[tactic(auto, using(crate::proofs::Named::in_any_case, crate::proofs::Named::where_near))]
pub(crate) fn lacks_home(alloc: Global, scene: &Scene<'_>, line: &Line) -> Result<bool, AllocError>
    ensures { IfOk result (λ told. told ≡ lacks_home scene.now line.now) }
{
    let catalogue = scene.catalogue();
    let Some((unit, _)) = dotted_parts(line.object()) else {
        return Ok(false);
    };
    if !has_units(scene) || catalogue.find_unit(unit).is_some() {
        return Ok(false);
    }
    if is_told(scene, line) {
        return Ok(true);
    }
    is_near_unit(alloc, catalogue, unit)
}

/// Whether the unit of a line's object is loaded, and has no such object.
pub(crate) fn lacks_object(scene: &Scene<'_>, line: &Line) -> bool
    ensures { result ≡ lacks_object scene.now line.now }
{
    let catalogue = scene.catalogue();
    match dotted_parts(line.object()) {
        Some((unit, _)) => {
            catalogue.find_unit(unit).is_some() && catalogue.find_object(line.object()).is_none()
        }
        None => false,
    }
}

// Whether suspension objects have an operation of this name (D.10).
fn is_of_suspension(name: &str) -> bool
    ensures { result ≡ is_of_suspension name.now }
{
    is_same_name(name, "Set_True")
        || is_same_name(name, "Set_False")
        || is_same_name(name, "Current_State")
        || is_same_name(name, "Suspend_Until_True")
}

// Whether some object that is loaded has an operation of this name, or each suspension object would.
fn has_somewhere(catalogue: &Catalogue, name: &str) -> bool
    ensures { result ≡ has_somewhere catalogue.now name.now }
{
    if is_of_suspension(name) {
        return true;
    }
    for place in 0..catalogue.objects() {
        if catalogue.find_operation(place + 1, name).is_some() {
            return true;
        }
    }
    false
}

/// Whether the object of a line is loaded, and has no operation of the line's name; where the object is `*`, whether some
/// are loaded, and none has it.
pub(crate) fn lacks_operation(scene: &Scene<'_>, line: &Line) -> bool
    ensures { result ≡ lacks_operation scene.now line.now }
{
    let catalogue = scene.catalogue();
    let operation = line.operation();
    if operation == "*" {
        return false;
    }
    if line.object() == "*" {
        return catalogue.objects() > 0 && !has_somewhere(catalogue, operation);
    }
    match catalogue.find_object(line.object()) {
        Some(object) => catalogue.find_operation(object, operation).is_none(),
        None => false,
    }
}
