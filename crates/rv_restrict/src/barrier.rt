//! Simple barriers.

ghost use Rattle.std.specs.Prelude.{◌≡◌, map};
ghost use Rattle.rv_tree.specs.NameView.{identifier_view, name_view};
ghost use Rattle.rv_tree.specs.Expressions.{expressions_of, factors_of, terms_of};
ghost use Rattle.rv_tree.specs.ExpressionView.{expression_view, expressions_view, factors_view, terms_view};
ghost use Rattle.rv_tree.specs.DeclarationView.{parameter_view};
ghost use Rattle.rv_tree.specs.UnitView.{unit_view};
ghost use Rattle.rv_restrict.specs.Scope.{declared};
ghost use Rattle.rv_restrict.specs.Barriers.{component_named, is_of_standard, is_of_system, is_fixed_or_library, is_fixed_of, constant_named, is_constant, never_changes, never_change, factors_never_change, terms_never_change, is_component_name, is_simple_barrier};

use crate::declared::{
    declared, has_component, is_fixed, is_hidden, is_package_name, is_parameter,
};
use rv_text::is_same_name;
use rv_tree::{Expression, Factor, Identifier, Name, Parameter, Term, UnitTree};

// Whether it is `C`, `P.C` or `Unit.P.C` for a component C of the protected unit P.
fn is_component(
    tree: &UnitTree,
    unit: &str,
    parameters: &[Parameter],
    first: &str,
    more: &[Identifier],
) -> bool
    ensures { result ≡ component_named (unit_view tree.now) unit.now (map parameter_view parameters.now) first.now (map identifier_view more.now) }
{
    match more {
        [] => has_component(tree, unit, first) && !is_parameter(first, parameters),
        [component] => {
            is_same_name(first, unit)
                && has_component(tree, unit, component.text.as_str())
                && !is_hidden(tree, unit, parameters, first)
        }
        [inner, component] => {
            is_same_name(first, tree.specification.name.text.as_str())
                && is_same_name(inner.text.as_str(), unit)
                && has_component(tree, unit, component.text.as_str())
                && is_package_name(tree, unit, parameters, first)
        }
        _ => false,
    }
}

// True, False and the subtypes of Standard.
fn is_of_standard(name: &str) -> bool
    ensures { result ≡ is_of_standard name.now }
{
    is_same_name(name, "True")
        || is_same_name(name, "False")
        || is_same_name(name, "Boolean")
        || is_same_name(name, "Integer")
        || is_same_name(name, "Natural")
        || is_same_name(name, "Positive")
}

// The constant and the subtypes of System.
fn is_of_system(name: &str) -> bool
    ensures { result ≡ is_of_system name.now }
{
    is_same_name(name, "Priority")
        || is_same_name(name, "Interrupt_Priority")
        || is_same_name(name, "Any_Priority")
        || is_same_name(name, "Default_Priority")
}

// A constant or subtype of the package, or of Standard or System where the package has no such name.
fn is_fixed_or_library(tree: &UnitTree, name: &str) -> bool
    ensures { result ≡ is_fixed_or_library (declared (unit_view tree.now) name.now) name.now }
{
    if declared(tree, name).is_some() {
        return is_fixed(tree, name);
    }
    is_of_standard(name) || is_of_system(name)
}

// A constant or subtype of the package of this name.
fn is_fixed_of(tree: &UnitTree, prefix: &str, name: &str) -> bool
    ensures { result ≡ is_fixed_of (unit_view tree.now) prefix.now name.now }
{
    if is_same_name(prefix, tree.specification.name.text.as_str()) && is_fixed(tree, name) {
        return true;
    }
    if is_same_name(prefix, "Standard") && is_of_standard(name) {
        return true;
    }
    is_same_name(prefix, "System") && is_of_system(name)
}

// Whether the name is that of True, False, a constant or a subtype.
#[tactic(auto, unfolding(crate::specs::Barriers::is_constant))]
fn is_constant(tree: &UnitTree, unit: &str, parameters: &[Parameter], name: &Name) -> bool
    ensures { result ≡ is_constant (unit_view tree.now) unit.now (map parameter_view parameters.now) (name_view name.now) }
{
    let first = name.first.text.as_str();
    match name.more.as_slice() {
        [] => !is_hidden(tree, unit, parameters, first) && is_fixed_or_library(tree, first),
        [inner] => {
            is_package_name(tree, unit, parameters, first)
                && is_fixed_of(tree, first, inner.text.as_str())
        }
        _ => false,
    }
}

// Whether all names of an expression are such.
#[cycle(never_changes)]
fn never_changes(tree: &UnitTree, unit: &str, parameters: &[Parameter], e: &Expression) -> bool
    ensures { result ≡ never_changes (is_constant (unit_view tree.now) unit.now (map parameter_view parameters.now)) (expression_view e.now) }
{
    match e {
        Expression::Literal(_, _) => true,
        Expression::Name(name) => is_constant(tree, unit, parameters, name),
        Expression::Attribute(prefix, _) => is_constant(tree, unit, parameters, prefix),
        Expression::Call(name, arguments) => {
            is_constant(tree, unit, parameters, name)
                && never_change(tree, unit, parameters, arguments)
        }
        Expression::Parenthesized(_, inner) => never_changes(tree, unit, parameters, inner),
        Expression::Highest(_, _, operand) => never_changes(tree, unit, parameters, operand),
        Expression::Product(operand, more) => {
            never_changes(tree, unit, parameters, operand)
                && factors_never_change(tree, unit, parameters, more)
        }
        Expression::Signed(_, _, term) => never_changes(tree, unit, parameters, term),
        Expression::Sum(operand, more) => {
            never_changes(tree, unit, parameters, operand)
                && terms_never_change(tree, unit, parameters, more)
        }
        Expression::Relation(left, _, right) => {
            never_changes(tree, unit, parameters, left)
                && never_changes(tree, unit, parameters, right)
        }
        Expression::Logical(_, operand, more) => {
            never_changes(tree, unit, parameters, operand)
                && never_change(tree, unit, parameters, more)
        }
    }
}

#[cycle(never_changes)]
fn never_change(tree: &UnitTree, unit: &str, parameters: &[Parameter], es: &Vec<Expression>) -> bool
    ensures { result ≡ never_change (is_constant (unit_view tree.now) unit.now (map parameter_view parameters.now)) (expressions_of (expressions_view es.now.items)) }
{
    for e in es {
        if !never_changes(tree, unit, parameters, e) {
            return false;
        }
    }
    true
}

#[cycle(never_changes)]
fn factors_never_change(
    tree: &UnitTree,
    unit: &str,
    parameters: &[Parameter],
    more: &Vec<Factor>,
) -> bool
    ensures { result ≡ factors_never_change (is_constant (unit_view tree.now) unit.now (map parameter_view parameters.now)) (factors_of (factors_view more.now.items)) }
{
    for factor in more {
        if !never_changes(tree, unit, parameters, &factor.operand) {
            return false;
        }
    }
    true
}

#[cycle(never_changes)]
fn terms_never_change(
    tree: &UnitTree,
    unit: &str,
    parameters: &[Parameter],
    more: &Vec<Term>,
) -> bool
    ensures { result ≡ terms_never_change (is_constant (unit_view tree.now) unit.now (map parameter_view parameters.now)) (terms_of (terms_view more.now.items)) }
{
    for term in more {
        if !never_changes(tree, unit, parameters, &term.operand) {
            return false;
        }
    }
    true
}

// Whether an expression is a component's name.
fn is_component_name(tree: &UnitTree, unit: &str, parameters: &[Parameter], e: &Expression) -> bool
    ensures { result ≡ is_component_name (unit_view tree.now) unit.now (map parameter_view parameters.now) (expression_view e.now) }
{
    match e {
        Expression::Name(name) => is_component(
            tree,
            unit,
            parameters,
            name.first.text.as_str(),
            name.more.as_slice(),
        ),
        _ => false,
    }
}

// Whether it is a simple barrier of an entry with these parameters, in the body of the protected unit of this name.
#[tactic(auto, unfolding(crate::specs::Barriers::is_simple_barrier))]
pub(crate) fn is_simple_barrier(
    tree: &UnitTree,
    unit: &str,
    parameters: &[Parameter],
    e: &Expression,
) -> bool
    ensures { result ≡ is_simple_barrier (unit_view tree.now) unit.now (map parameter_view parameters.now) (expression_view e.now) }
{
    is_component_name(tree, unit, parameters, e) || never_changes(tree, unit, parameters, e)
}
