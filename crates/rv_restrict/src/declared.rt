//! What a package and its protected units declare, by name.

ghost use Rattle.std.specs.Prelude.{◌≡◌, Some, map};
ghost use Rattle.rv_tree.specs.NameView.{identifier_view, identifiers_view};
ghost use Rattle.rv_tree.specs.DeclarationView.{maybe, parameter_view, operation_view, element_view, protected_unit_view, declaration_view};
ghost use Rattle.rv_tree.specs.UnitView.{body_item_view, unit_view};
ghost use Rattle.rv_restrict.specs.Scope.{is_among, is_parameter, first_declared, declarations_of, declared, unit_of, is_fixed, is_among_operations, is_among_elements, elements_of, is_component, is_among_components, has_component, declares_inside, is_declaration, is_hidden, is_package_name};

use rv_text::is_same_name;
use rv_tree::{
    BodyItem, Declaration, Identifier, OperationDeclaration, Parameter, ProtectedElement,
    ProtectedUnit, UnitTree,
};

/// Whether a name is among these.
pub fn is_among(name: &str, names: &[Identifier]) -> bool
    ensures { result ≡ is_among name.now (identifiers_view names.now) }
{
    names
        .iter()
        .any(|one| is_same_name(one.text.as_str(), name))
}

// Whether a parameter has the name.
pub(crate) fn is_parameter(name: &str, parameters: &[Parameter]) -> bool
    ensures { result ≡ is_parameter name.now (map parameter_view parameters.now) }
{
    parameters
        .iter()
        .any(|one| is_among(name, one.names.as_slice()))
}

// The first of these that has the name.
fn first_declared<'a>(name: &str, list: &'a Vec<Declaration>) -> Option<&'a Declaration>
    ensures { maybe (λ d. declaration_view d.now) result ≡ first_declared name.now (map declaration_view list.now.items) }
{
    for declaration in list {
        if is_among(name, declaration.names()) {
            return Some(declaration);
        }
    }
    None
}

// The first declaration of a package's body that has the name.
fn first_declared_in_body<'a>(name: &str, items: &'a Vec<BodyItem>) -> Option<&'a Declaration>
    ensures { maybe (λ d. declaration_view d.now) result ≡ first_declared name.now (declarations_of (map body_item_view items.now.items)) }
{
    for item in items {
        if let BodyItem::Declaration(declaration) = item {
            if is_among(name, declaration.names()) {
                return Some(declaration);
            }
        }
    }
    None
}

// What the package declares by this name.
#[tactic(auto, unfolding(crate::specs::Scope::declared))]
pub(crate) fn declared<'a>(tree: &'a UnitTree, name: &str) -> Option<&'a Declaration>
    ensures { maybe (λ d. declaration_view d.now) result ≡ declared (unit_view tree.now) name.now }
{
    match first_declared(name, &tree.specification.declarations) {
        Some(declaration) => Some(declaration),
        None => first_declared_in_body(name, &tree.body.items),
    }
}

/// Whether the package declares this name.
pub fn package_declares(tree: &UnitTree, name: &str) -> bool
    ensures { result ≡ is_declaration (declared (unit_view tree.now) name.now) }
{
    declared(tree, name).is_some()
}

// The protected unit that the package declares by this name.
pub(crate) fn protected_unit<'a>(tree: &'a UnitTree, name: &str) -> Option<&'a ProtectedUnit>
    ensures { maybe (λ u. protected_unit_view u.now) result ≡ unit_of (declared (unit_view tree.now) name.now) }
{
    match declared(tree, name) {
        Some(Declaration::Protected(unit)) => Some(unit),
        _ => None,
    }
}

// Whether the package declares a constant or a subtype by this name.
pub(crate) fn is_fixed(tree: &UnitTree, name: &str) -> bool
    ensures { result ≡ is_fixed (declared (unit_view tree.now) name.now) }
{
    match declared(tree, name) {
        Some(Declaration::Subtype { .. }) => true,
        Some(Declaration::Constant { .. }) => true,
        _ => false,
    }
}

fn is_among_operations(name: &str, list: &Vec<OperationDeclaration>) -> bool
    ensures { result ≡ is_among_operations name.now (map operation_view list.now.items) }
{
    list.iter().any(|one| is_among(name, one.names()))
}

fn is_among_elements(name: &str, list: &Vec<ProtectedElement>) -> bool
    ensures { result ≡ is_among_elements name.now (map element_view list.now.items) }
{
    list.iter().any(|one| is_among(name, one.names()))
}

fn is_component(name: &str, element: &ProtectedElement) -> bool
    ensures { result ≡ is_component name.now (element_view element.now) }
{
    match element {
        ProtectedElement::Operation(_) => false,
        ProtectedElement::Component { names, .. } => is_among(name, names.as_slice()),
    }
}

fn is_among_components(name: &str, list: &Vec<ProtectedElement>) -> bool
    ensures { result ≡ is_among_components name.now (map element_view list.now.items) }
{
    list.iter().any(|one| is_component(name, one))
}

// Whether the protected unit has a component of this name.
pub(crate) fn has_component(tree: &UnitTree, unit: &str, name: &str) -> bool
    ensures { result ≡ has_component (unit_of (declared (unit_view tree.now) unit.now)) name.now }
{
    let Some(unit) = protected_unit(tree, unit) else {
        return false;
    };
    match &unit.private {
        None => false,
        Some(elements) => is_among_components(name, elements),
    }
}

/// Whether a protected unit declares this name after `private`.
pub fn has_private(unit: &ProtectedUnit, name: &str) -> bool
    ensures { result ≡ is_among_elements name.now (elements_of (protected_unit_view unit.now).private) }
{
    match &unit.private {
        None => false,
        Some(elements) => is_among_elements(name, elements),
    }
}

/// Whether a protected unit declares this name.
pub fn has_member(unit: &ProtectedUnit, name: &str) -> bool
    ensures { result ≡ declares_inside (Some (protected_unit_view unit.now)) name.now }
{
    is_among_operations(name, &unit.operations) || has_private(unit, name)
}

// Whether the protected unit declares this name.
pub(crate) fn declares_inside(tree: &UnitTree, unit: &str, name: &str) -> bool
    ensures { result ≡ declares_inside (unit_of (declared (unit_view tree.now) unit.now)) name.now }
{
    match protected_unit(tree, unit) {
        None => false,
        Some(unit) => has_member(unit, name),
    }
}

// Whether a parameter of an operation or a declaration of its protected unit hides this name.
pub(crate) fn is_hidden(tree: &UnitTree, unit: &str, parameters: &[Parameter], name: &str) -> bool
    ensures { result ≡ is_hidden (unit_view tree.now) unit.now (map parameter_view parameters.now) name.now }
{
    is_parameter(name, parameters) || declares_inside(tree, unit, name)
}

// Whether the name is that of a package: nothing in this one hides it.
pub(crate) fn is_package_name(
    tree: &UnitTree,
    unit: &str,
    parameters: &[Parameter],
    name: &str,
) -> bool
    ensures { result ≡ is_package_name (unit_view tree.now) unit.now (map parameter_view parameters.now) name.now }
{
    if is_hidden(tree, unit, parameters, name) {
        return false;
    }
    !package_declares(tree, name)
}
