//! The barriers that entry bodies give (9.5.2, D.7 Simple_Barriers).

ghost use Rattle.std.specs.Prelude.{◌≡◌};
ghost use Rattle.rv_tree.specs.ExpressionView.{expression_view};
ghost use Rattle.rv_static.specs.Told.{told_unless};
ghost use Rattle.rv_outline.specs.Barriers.{component_place as place_of_component, component_named as component_of_name, component_barrier as barrier_of_component, is_whole_boolean as whole_boolean, fixed_barrier as barrier_of_value, barrier_of};

use rv_scope::library_meaning::whole_range;
use rv_scope::{Declared, Known, Point, Scope, Table};
use rv_shape::kind::{Barrier, Range, ValueType};
use rv_static::{Faults, TypeFault, same_type, static_number};
use rv_tree::Expression;

// The place of the component that a declaration is.
fn component_place(found: Option<Declared>) -> Option<usize>
    ensures { result ≡ place_of_component found }
{
    match found {
        Some(Declared::Component(at)) => Some(at),
        _ => None,
    }
}

// The place of the component that an expression names, if it is such a name.
fn component_named(e: &Expression, scope: &Scope) -> Option<usize>
    ensures { result ≡ component_of_name scope.now (expression_view e.now) }
{
    match e {
        Expression::Name(name) => component_place(scope.visible(name)),
        _ => None,
    }
}

// Whether a component of this subtype is a barrier: it is all of Boolean.
fn is_whole_boolean(range: Range) -> bool
    ensures { result ≡ whole_boolean range }
{
    same_type(range.of, ValueType::Boolean) && range.low == 0 && range.high == 1
}

// The barrier that is a component.
fn component_barrier(known: Option<Known>) -> Option<Barrier>
    ensures { result ≡ barrier_of_component known }
{
    match known {
        Some(Known::Component(index, range)) => {
            if is_whole_boolean(range) && index < 4294967296 {
                Some(Barrier::Component(index + 1))
            } else {
                None
            }
        }
        _ => None,
    }
}

// The barrier that is always the same.
fn fixed_barrier(value: i64) -> Barrier
    ensures { result ≡ barrier_of_value value }
{
    if value != 0 {
        Barrier::AlwaysOpen
    } else {
        Barrier::AlwaysClosed
    }
}

/// The barrier of an expression at a point; or `None`, where a fault was told.
pub(crate) fn barrier(
    e: &Expression,
    scope: &Scope,
    known: &Table,
    faults: &mut Faults,
) -> Option<Barrier>
    ensures value { result ≡ barrier_of scope.now known.now (expression_view e.now) }
    ensures told { faults.new ≡ told_unless result faults.old }
{
    if let Some(at) = component_named(e, scope) {
        let found = component_barrier(known.find(at));
        if found.is_none() {
            faults.tell(TypeFault::Mismatch(e.place()));
        }
        return found;
    }
    let point = Point { scope, known };
    let value = static_number(whole_range(ValueType::Boolean), e, &point, faults)?;
    Some(fixed_barrier(value))
}
