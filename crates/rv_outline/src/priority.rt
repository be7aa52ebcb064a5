//! The priorities that aspects and pragmas give (D.1, D.3).

ghost use Rattle.std.specs.Prelude.{◌≡◌, map};
ghost use Rattle.rv_tree.specs.DeclarationView.{maybe, pragma_argument_view};
ghost use Rattle.rv_tree.specs.NameView.{identifier_view};
ghost use Rattle.rv_tree.specs.ExpressionView.{expression_view};
ghost use Rattle.rv_static.specs.Told.{told_unless};
ghost use Rattle.rv_outline.specs.Priorities.{range_of_priority, priority_alone, priority_with, aspect_priority as priority_of_aspect, pragma_priority as priority_of_pragma};

use rv_scope::library_meaning::integers;
use rv_shape::kind::Range;
use rv_static::{Faults, Meanings, TypeFault, value_in};
use rv_text::{is_same_name, natural_part};
use rv_tree::{Aspect, Expression, Identifier, Pragma};

// The values that `Priority` or `Interrupt_Priority` takes.
fn range_of(name: &str) -> Range
    ensures { result ≡ range_of_priority name.now }
{
    if is_same_name(name, "Interrupt_Priority") {
        integers(31, 40)
    } else {
        integers(1, 40)
    }
}

// The priority that one of the two gives without a value.
fn alone(name: &Identifier, faults: &mut Faults) -> Option<usize>
    ensures value { result ≡ priority_alone (identifier_view name.now).text }
    ensures told { faults.new ≡ told_unless result faults.old }
{
    if is_same_name(name.text.as_str(), "Interrupt_Priority") {
        return Some(40);
    }
    faults.tell(TypeFault::Mismatch(name.at));
    None
}

// The priority that it gives with a value.
fn with_value<N: Meanings>(
    name: &Identifier,
    e: &Expression,
    names: &N,
    faults: &mut Faults,
) -> Option<usize>
    ensures value { result ≡ priority_with (N.means names.now) (identifier_view name.now).text (expression_view e.now) }
    ensures told { faults.new ≡ told_unless result faults.old }
{
    let value = value_in(range_of(name.text.as_str()), e, names, faults)?;
    Some(natural_part(value))
}

/// The priority that an aspect gives; or `None`, where a fault was told.
pub(crate) fn aspect_priority<N: Meanings>(
    aspect: &Aspect,
    names: &N,
    faults: &mut Faults,
) -> Option<usize>
    ensures value { result ≡ priority_of_aspect (N.means names.now) (identifier_view aspect.now.name).text (maybe expression_view aspect.now.value) }
    ensures told { faults.new ≡ told_unless result faults.old }
{
    match &aspect.value {
        None => alone(&aspect.name, faults),
        Some(e) => with_value(&aspect.name, e, names, faults),
    }
}

/// The priority that a pragma gives; or `None`, where a fault was told.
pub(crate) fn pragma_priority<N: Meanings>(
    pragma: &Pragma,
    names: &N,
    faults: &mut Faults,
) -> Option<usize>
    ensures value { result ≡ priority_of_pragma (N.means names.now) (identifier_view pragma.now.name).text (map pragma_argument_view pragma.now.arguments.items) }
    ensures told { faults.new ≡ told_unless result faults.old }
{
    match pragma.arguments.as_slice() {
        [] => alone(&pragma.name, faults),
        [argument] => with_value(&pragma.name, &argument.value, names, faults),
        [_, _, ..] => {
            faults.tell(TypeFault::Mismatch(pragma.name.at));
            None
        }
    }
}
