//! What loops go over.

ghost use Rattle.std.specs.Prelude.{◌≡◌, IfOk, Some, true};
ghost use Rattle.rv_tree.specs.NameView.{name_view};
ghost use Rattle.rv_tree.specs.ExpressionView.{expression_view, range_view};
ghost use Rattle.rv_tree.specs.StatementView.{bounds_view as tree_bounds_view};
ghost use Rattle.rv_static.specs.Meanings.{range_in};
ghost use Rattle.rv_static.specs.Ranges.{bounded as bounded_range};
ghost use Rattle.rv_code.specs.ExpressionView.{expression_view as code_view};
ghost use Rattle.rv_types.specs.Points.{static_meaning};
ghost use Rattle.rv_types.specs.Typed.{literal_in as literal_of, typed};
ghost use Rattle.rv_types.specs.Loops.{parameter_range as range_of_parameter, between as bounds_of_codes, discrete as discrete_range, subtype_named as subtype_of_expression, all_values as values_of_subtype, bounds_between as bounds_in_range, bounds_of, two_bounds_of, constrained_bounds_of, whole_bounds_of};
ghost use Rattle.rv_types.specs.LoopView.{bounds_view};
ghost use Rattle.rv_types.specs.TypedView.{typed_view};

use crate::expression::{expression, expression_as};
use crate::point::Point;
use crate::refused::{Refused, least, mismatch};
use crate::typed::{Typed, literal_in};
use rv_code::Expression as Code;
use rv_scope::library_meaning::whole_range;
use rv_shape::kind::{Range, ValueType};
use rv_static::{Meaning, Meanings, TypeFault, is_discrete};
use rv_tree::{Expression, LoopBounds, Name, RangeConstraint};
use std::alloc::Global;

/// What a loop goes over: two bounds that lie in a range, and the subtype of its parameter.
#[derive(Drop)]
pub struct Bounds {
    pub range: Range,
    pub low: Code,
    pub high: Code,
    pub parameter: Range,
}

// A range of a discrete type.
pub(crate) fn discrete(range: Range, at: usize) -> Result<Range, Refused>
    ensures { IfOk result (λ r. discrete_range range ≡ Some r) }
{
    if is_discrete(range.of) {
        Ok(range)
    } else {
        Err(mismatch(at))
    }
}

// The range between two static bounds: a null range, or one in the subtype.
fn bounded(range: Range, low: i64, high: i64, places: (usize, usize)) -> Result<Range, Refused>
    ensures { IfOk result (λ r. bounded_range range low high ≡ Some r) }
{
    let found = Range {
        of: range.of,
        low,
        high,
    };
    if high < low {
        return Ok(found);
    }
    if low < range.low || range.high < low {
        return Err(Refused(TypeFault::TooLarge(places.0)));
    }
    if high < range.low || range.high < high {
        return Err(Refused(TypeFault::TooLarge(places.1)));
    }
    Ok(found)
}

// The subtype of the parameter: where both bounds are static, they are its own; else all values of its type.
fn parameter_range(
    range: Range,
    low: Option<i64>,
    high: Option<i64>,
    places: (usize, usize),
) -> Result<Range, Refused>
    ensures { IfOk result (λ r. range_of_parameter range low high ≡ Some r) }
{
    let Some(first) = low else {
        return Ok(whole_range(range.of));
    };
    match high {
        Some(last) => bounded(range, first, last, places),
        None => Ok(whole_range(range.of)),
    }
}

// Two bounds in a range of a discrete type.
fn between(range: Range, low: Code, high: Code, places: (usize, usize)) -> Result<Bounds, Refused>
    ensures { IfOk result (λ b. bounds_of_codes range (code_view low) (code_view high) ≡ Some (bounds_view b)) }
{
    let parameter = parameter_range(range, literal_in(&low), literal_in(&high), places)?;
    Ok(Bounds {
        range,
        low,
        high,
        parameter,
    })
}

// The subtype that a mark names.
fn subtype_of_mark(mark: &Name, point: &Point) -> Option<Range>
    ensures { result ≡ range_in (static_meaning point.now (name_view mark.now)) }
{
    match point.meaning(mark) {
        Meaning::Subtype(range) => Some(range),
        _ => None,
    }
}

/// The subtype that an expression names.
pub(crate) fn subtype_named(e: &Expression, point: &Point) -> Option<Range>
    ensures { result ≡ subtype_of_expression point.now (expression_view e.now) }
{
    match e {
        Expression::Name(name) => subtype_of_mark(name, point),
        _ => None,
    }
}

// All values of a subtype that an expression names.
fn whole_bounds(e: &Expression, point: &Point) -> Result<Bounds, Refused>
    ensures { IfOk result (λ b. whole_bounds_of point.now (expression_view e.now) ≡ Some (bounds_view b)) }
{
    let Some(found) = subtype_named(e, point) else {
        return Err(mismatch(e.place()));
    };
    let range = discrete(found, e.place())?;
    Ok(Bounds {
        range,
        low: Code::Value(range.low),
        high: Code::Value(range.high),
        parameter: range,
    })
}

// The first of two bounds. Where its value is too large, its type may be the fault that stands before.
fn first_bound(alloc: Global, low: &Expression, point: &Point) -> Result<Typed, Refused>
    ensures { IfOk result (λ t. typed point.now true (expression_view low.now) ≡ Some (typed_view t)) }
{
    match expression(alloc, low, true, point) {
        Ok(first) => Ok(first),
        Err(fault) => match expression(alloc, low, false, point) {
            Ok(found) => match discrete(whole_range(found.of), low.place()) {
                Ok(_) => Err(fault),
                Err(other) => Err(least(fault, other)),
            },
            Err(other) => Err(least(fault, other)),
        },
    }
}

// Two bounds of one type.
fn two_bounds(
    alloc: Global,
    low: &Expression,
    high: &Expression,
    point: &Point,
) -> Result<Bounds, Refused>
    ensures { IfOk result (λ b. two_bounds_of point.now (expression_view low.now) (expression_view high.now) ≡ Some (bounds_view b)) }
{
    let first = first_bound(alloc, low, point)?;
    let range = discrete(whole_range(first.of), low.place())?;
    let last = expression_as(alloc, range.of, high, point)?;
    between(range, first.into_code(), last, (low.place(), high.place()))
}

// Bounds in a range.
fn bounds_between(
    alloc: Global,
    range: Range,
    low: &Expression,
    high: &Expression,
    point: &Point,
) -> Result<Bounds, Refused>
    ensures { IfOk result (λ b. bounds_in_range point.now range (expression_view low.now) (expression_view high.now) ≡ Some (bounds_view b)) }
{
    let first = expression_as(alloc, range.of, low, point)?;
    let last = expression_as(alloc, range.of, high, point)?;
    between(range, first, last, (low.place(), high.place()))
}

// Bounds of a subtype.
fn constrained_bounds(
    alloc: Global,
    mark: &Name,
    constraint: &RangeConstraint,
    point: &Point,
) -> Result<Bounds, Refused>
    ensures { IfOk result (λ b. constrained_bounds_of point.now (name_view mark.now) (range_view constraint.now) ≡ Some (bounds_view b)) }
{
    let Some(found) = subtype_of_mark(mark, point) else {
        return Err(mismatch(mark.first.at));
    };
    let range = discrete(found, mark.first.at)?;
    bounds_between(alloc, range, &constraint.low, &constraint.high, point)
}

/// What a loop goes over.
#[tactic(auto, unfolding(crate::specs::Loops::bounds_of))]
pub(crate) fn loop_bounds(
    alloc: Global,
    bounds: &LoopBounds,
    point: &Point,
) -> Result<Bounds, Refused>
    ensures { IfOk result (λ b. bounds_of point.now (tree_bounds_view bounds.now) ≡ Some (bounds_view b)) }
{
    match bounds {
        LoopBounds::Whole(e) => whole_bounds(e, point),
        LoopBounds::Between(low, high) => two_bounds(alloc, low, high, point),
        LoopBounds::Constrained(mark, constraint) => {
            constrained_bounds(alloc, mark, constraint, point)
        }
    }
}
