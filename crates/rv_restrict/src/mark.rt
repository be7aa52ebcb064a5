//! Which marks of a block's declarations name protected types.

ghost use Rattle.std.specs.Prelude.{◌≡◌, ◌∷◌, [], map};
ghost use Rattle.std.specs.List.{list_any};
ghost use Rattle.rv_tree.specs.NameView.{identifier_view, identifiers_view, name_view};
ghost use Rattle.rv_tree.specs.DeclarationView.{parameter_view};
ghost use Rattle.rv_tree.specs.BodyView.{local_view};
ghost use Rattle.rv_tree.specs.UnitView.{unit_view};
ghost use Rattle.rv_restrict.specs.Scope.{declared, unit_of, is_among_before, is_among_locals, is_type, is_local_type, is_among_local_types, is_type_before, type_named, names_protected_type};

use crate::declared::{is_hidden, is_package_name, protected_unit};
use rv_text::is_same_name;
use rv_tree::{Identifier, Local, Name, Parameter, UnitTree};

// Whether a name is among these, before a place.
fn is_among_before(at: usize, name: &str, names: &[Identifier]) -> bool
    ensures { result ≡ is_among_before at name.now (identifiers_view names.now) }
{
    names
        .iter()
        .any(|one| one.at < at && is_same_name(one.text.as_str(), name))
}

// Whether a declaration of the block before a place hides the name.
fn is_among_locals(at: usize, name: &str, locals: &Vec<Local>) -> bool
    ensures { result ≡ is_among_locals at name.now (map local_view locals.now.items) }
{
    locals
        .iter()
        .any(|one| is_among_before(at, name, one.names()))
}

// Whether it is a protected type of this name, before a place.
fn is_local_type(at: usize, name: &str, local: &Local) -> bool
    ensures { result ≡ is_local_type at name.now (local_view local.now) }
{
    match local {
        Local::Protected(unit) => {
            unit.is_type && unit.name.at < at && is_same_name(unit.name.text.as_str(), name)
        }
        _ => false,
    }
}

fn is_among_local_types(at: usize, name: &str, locals: &Vec<Local>) -> bool
    ensures { result ≡ is_among_local_types at name.now (map local_view locals.now.items) }
{
    locals.iter().any(|one| is_local_type(at, name, one))
}

// Whether it is a protected type.
fn is_type(local: &Local) -> bool
    ensures { result ≡ is_type (local_view local.now) }
{
    match local {
        Local::Protected(unit) => unit.is_type,
        _ => false,
    }
}

/// Whether a protected type is among the declarations of a block.
pub(crate) fn has_types(locals: &Vec<Local>) -> bool
    ensures { result ≡ list_any is_type (map local_view locals.now.items) }
{
    for one in locals {
        if is_type(one) {
            return true;
        }
    }
    false
}

// Whether a block declares a protected type of this name, before a place; whether any protected type is among its declarations,
// without which they aren't searched.
fn declares_type(at: usize, name: &str, locals: &Vec<Local>, types: bool) -> bool
    requires { types ≡ list_any is_type (map local_view locals.now.items) }
    ensures { result ≡ is_among_local_types at name.now (map local_view locals.now.items) }
{
    if !types {
        return false;
    }
    is_among_local_types(at, name, locals)
}

// Whether the package declares a protected type by this name, before a place.
fn is_type_before(tree: &UnitTree, at: usize, name: &str) -> bool
    ensures { result ≡ is_type_before at (unit_of (declared (unit_view tree.now) name.now)) }
{
    match protected_unit(tree, name) {
        Some(unit) => unit.is_type && unit.name.at < at,
        None => false,
    }
}

// Whether a simple mark names a protected type of its block, or one of the package that nothing hides.
fn is_simple_type(
    tree: &UnitTree,
    unit: &str,
    parameters: &[Parameter],
    locals: &Vec<Local>,
    types: bool,
    mark: &Name,
) -> bool
    requires { types ≡ list_any is_type (map local_view locals.now.items) }
    ensures { result ≡ type_named (unit_view tree.now) unit.now (map parameter_view parameters.now) (map local_view locals.now.items) (name_view mark.now) [] }
{
    let at = mark.first.at;
    let name = mark.first.text.as_str();
    if declares_type(at, name, locals, types) {
        return true;
    }
    is_type_before(tree, at, name)
        && !is_hidden(tree, unit, parameters, name)
        && !is_among_locals(at, name, locals)
}

// Whether a mark behind the name of the package, which nothing hides, names a protected type.
fn is_expanded_type(
    tree: &UnitTree,
    unit: &str,
    parameters: &[Parameter],
    locals: &Vec<Local>,
    mark: &Name,
    inner: &Identifier,
) -> bool
    ensures { result ≡ type_named (unit_view tree.now) unit.now (map parameter_view parameters.now) (map local_view locals.now.items) (name_view mark.now) (identifier_view inner.now ∷ []) }
{
    let at = mark.first.at;
    let name = mark.first.text.as_str();
    is_same_name(name, tree.specification.name.text.as_str())
        && is_type_before(tree, at, inner.text.as_str())
        && is_package_name(tree, unit, parameters, name)
        && !is_among_locals(at, name, locals)
}

// Whether a mark names a protected type of the package or of its block, in the body of an operation with these parameters
// of the protected unit of this name, or of the task of this name; whether the block declares any.
#[tactic(auto, unfolding(crate::specs::Scope::names_protected_type))]
pub(crate) fn names_protected_type(
    tree: &UnitTree,
    unit: &str,
    parameters: &[Parameter],
    locals: &Vec<Local>,
    types: bool,
    mark: &Name,
) -> bool
    requires { types ≡ list_any is_type (map local_view locals.now.items) }
    ensures { result ≡ names_protected_type (unit_view tree.now) unit.now (map parameter_view parameters.now) (map local_view locals.now.items) (name_view mark.now) }
{
    match mark.more.as_slice() {
        [] => is_simple_type(tree, unit, parameters, locals, types, mark),
        [inner] => is_expanded_type(tree, unit, parameters, locals, mark, inner),
        _ => false,
    }
}
