//! Compiles unit texts.

ghost use Rattle.std.specs.Prelude.{◌≡◌, true, Some, IfOk, IfErr};
ghost use Rattle.rv_tree.specs.UnitView.{unit_view};
ghost use Rattle.rv_tree.specs.Derives.{Derives};
ghost use Rattle.rv_code.specs.BodyView.{unit_view as code_view};
ghost use Rattle.rv_fits.specs.Fits.{are_of};
ghost use Rattle.rv_outline.specs.Shapes.{shape_of as shape_of_tree};
ghost use Rattle.rv_types.specs.BodiesOf.{bodies_of as code_of_tree};
ghost use Rattle.rv_unit.specs.Compiles.{IsBound, IsOfText, IsOfTree, GivesUnit, IsUnit, IsCompiled, IsRefused};

use crate::fault::UnitFault;
use rv_code::Unit;
use rv_fits::may_load;
use rv_names::NameFault;
use rv_names::resolve::resolve;
use rv_parse::{ParseFault, parse};
use rv_restrict::first_violation;
use rv_scope::named::Named;
use rv_shape::catalogue::Catalogue;
use rv_static::TypeFault;
use rv_tree::UnitTree;
use rv_types::check_types;
use std::alloc::Global;

// The tree of a text.
fn tree_of(alloc: Global, text: &str) -> Result<UnitTree, UnitFault>
    ensures tree { IfOk result (λ tree. Derives text.now (unit_view tree)) }
    ensures fault { IfErr result (λ fault. IsOfText text.now fault) }
{
    match parse(alloc, text) {
        Ok(tree) => Ok(tree),
        Err(ParseFault::NoMemory) => Err(UnitFault::NoMemory),
        Err(ParseFault::Lex(fault)) => Err(UnitFault::Lex(fault)),
        Err(fault) => Err(UnitFault::Parse(fault)),
    }
}

// The shape and the bodies of a text whose names are bound.
fn checked(alloc: Global, named: &Named) -> Result<Unit, UnitFault>
    ensures shape { IfOk result (λ checked.
        shape_of_tree named.now.catalogue.now (unit_view named.now.tree.now) ≡ Some checked.shape) }
    ensures bodies { IfOk result (λ checked.
        code_of_tree named.now.catalogue.now (unit_view named.now.tree.now) ≡ Some (code_view checked.bodies)) }
    ensures fault { IfErr result (λ fault. IsBound named.now.catalogue.now (unit_view named.now.tree.now)
        → IsOfTree named.now.catalogue.now (unit_view named.now.tree.now) fault) }
{
    match check_types(alloc, named) {
        Ok(checked) => Ok(checked),
        Err(TypeFault::NoMemory) => Err(UnitFault::NoMemory),
        Err(fault) => Err(UnitFault::Types(fault)),
    }
}

// The unit of a tree.
fn unit_of(alloc: Global, tree: &UnitTree, catalogue: &Catalogue) -> Result<Unit, UnitFault>
    ensures unit { IfOk result (λ unit. GivesUnit catalogue.now (unit_view tree.now) unit.shape) }
    ensures bodies { IfOk result (λ unit. code_of_tree catalogue.now (unit_view tree.now) ≡ Some (code_view unit.bodies)) }
    ensures fault { IfErr result (λ fault. IsOfTree catalogue.now (unit_view tree.now) fault) }
{
    if let Some(violation) = first_violation(tree) {
        return Err(UnitFault::Restriction(violation));
    }
    let named = match resolve(alloc, tree, catalogue) {
        Ok(named) => named,
        Err(NameFault::NoMemory) => return Err(UnitFault::NoMemory),
        Err(fault) => return Err(UnitFault::Names(fault)),
    };
    let Unit { shape, bodies } = checked(alloc, &named)?;
    match catalogue.shape_fits(&shape) {
        None => Ok(Unit { shape, bodies }),
        Some(fault) => Err(UnitFault::Shape(fault)),
    }
}

// A tree's unit, if its calls fit the loaded units and itself, and its values lie in their ranges. So it is wherever names and
// types were found right, since each number in a body was taken from these units, and each value that is given or returned is
// tested as it is computed; but that is looked at here and proved nowhere. A unit of which it weren't so would be a mismatch at
// its name.
#[tactic(auto, using(crate::proofs::Binding::mismatch_of_tree))]
fn with_fitting_calls(
    alloc: Global,
    tree: &UnitTree,
    catalogue: &Catalogue,
    unit: Unit,
) -> Result<Unit, UnitFault>
    requires unit { GivesUnit catalogue.now (unit_view tree.now) unit.shape }
    requires bodies { code_of_tree catalogue.now (unit_view tree.now) ≡ Some (code_view unit.bodies) }
    ensures unit { IfOk result (λ unit. GivesUnit catalogue.now (unit_view tree.now) unit.shape) }
    ensures bodies { IfOk result (λ unit. code_of_tree catalogue.now (unit_view tree.now) ≡ Some (code_view unit.bodies)) }
    ensures fits { IfOk result (λ unit. are_of catalogue.now unit.shape (code_view unit.bodies) ≡ true) }
    ensures fault { IfErr result (λ fault. IsOfTree catalogue.now (unit_view tree.now) fault) }
{
    match may_load(alloc, catalogue, &unit.shape, &unit.bodies) {
        Some(true) => Ok(unit),
        Some(false) => {
            let at = tree.specification.name.at;
            Err(UnitFault::Types(TypeFault::Mismatch(at)))
        }
        None => Err(UnitFault::NoMemory),
    }
}

// The unit of a tree, whose calls fit.
fn fitting_unit_of(alloc: Global, tree: &UnitTree, catalogue: &Catalogue) -> Result<Unit, UnitFault>
    ensures unit { IfOk result (λ unit. GivesUnit catalogue.now (unit_view tree.now) unit.shape) }
    ensures bodies { IfOk result (λ unit. code_of_tree catalogue.now (unit_view tree.now) ≡ Some (code_view unit.bodies)) }
    ensures fits { IfOk result (λ unit. are_of catalogue.now unit.shape (code_view unit.bodies) ≡ true) }
    ensures fault { IfErr result (λ fault. IsOfTree catalogue.now (unit_view tree.now) fault) }
{
    match unit_of(alloc, tree, catalogue) {
        Ok(unit) => with_fitting_calls(alloc, tree, catalogue, unit),
        Err(fault) => Err(fault),
    }
}

/// The unit of a text, over the loaded units. What its bodies call is there, and what they give and keep lies in its range, so
/// that a load over the same units takes them with the shape.
///
/// # Errors
/// The first fault of the first look that finds one: words, grammar, restrictions, names, types, shape. Of the faults of
/// names, and of those of types, the one at the least place. `NoMemory` where memory was refused.
pub fn compile(alloc: Global, text: &str, catalogue: &Catalogue) -> Result<Unit, UnitFault>
    ensures unit { IfOk result (λ unit. IsUnit catalogue.now text.now unit.shape) }
    ensures bodies { IfOk result (λ unit. IsCompiled catalogue.now text.now unit.shape (code_view unit.bodies)) }
    ensures fits { IfOk result (λ unit. are_of catalogue.now unit.shape (code_view unit.bodies) ≡ true) }
    ensures fault { IfErr result (λ fault. IsRefused catalogue.now text.now fault) }
{
    let tree = tree_of(alloc, text)?;
    fitting_unit_of(alloc, &tree, catalogue)
}
