//! Choices of case statements.

ghost use Rattle.std.specs.Prelude.{◌≡◌, [], IfOk, Some, map};
ghost use Rattle.rv_tree.specs.ExpressionView.{expression_view};
ghost use Rattle.rv_tree.specs.StatementView.{choice_view};
ghost use Rattle.rv_static.specs.Ranges.{static_number as number_of};
ghost use Rattle.rv_types.specs.Points.{static_meaning};
ghost use Rattle.rv_types.specs.Loops.{values as values_of, subtype_choice as choice_of_subtype, value_choice as choice_of_value, choice_of, choices_onto};
ghost use Rattle.rv_tree.specs.Statements.{value as one_choice};

use crate::bounds::subtype_named;
use crate::point::Point;
use crate::refused::{Refused, mismatch, told};
use rv_code::Choice as Covered;
use rv_shape::kind::Range;
use rv_static::{Faults, TypeFault, same_type, static_number};
use rv_tree::{Choice, Expression};
use std::alloc::Global;

// A static value of a range's type.
fn number(range: Range, e: &Expression, point: &Point) -> Result<i64, Refused>
    ensures { IfOk result (λ z. number_of (static_meaning point.now) range (expression_view e.now) ≡ Some z) }
{
    let mut faults = Faults::new();
    if let Some(value) = static_number(range, e, point, &mut faults) {
        return Ok(value);
    }
    Err(told(&faults, e.place()))
}

// A value, or all values of a subtype.
fn value_choice(range: Range, e: &Expression, point: &Point) -> Result<Covered, Refused>
    ensures { IfOk result (λ c. choice_of point.now range (one_choice (expression_view e.now)) ≡ Some c) }
{
    if let Some(part) = subtype_named(e, point) {
        if same_type(part.of, range.of) {
            return Ok(Covered::Values(part.low, part.high));
        }
        return Err(mismatch(e.place()));
    }
    let value = number(range, e, point)?;
    Ok(Covered::Values(value, value))
}

/// A choice for a selector of a range.
pub(crate) fn choice(range: Range, one: &Choice, point: &Point) -> Result<Covered, Refused>
    ensures { IfOk result (λ c. choice_of point.now range (choice_view one.now) ≡ Some c) }
{
    match one {
        Choice::Others(_) => Ok(Covered::Others),
        Choice::Value(e) => value_choice(range, e, point),
        Choice::Range(low, high) => {
            let first = number(range, low, point)?;
            let last = number(range, high, point)?;
            Ok(Covered::Values(first, last))
        }
    }
}

/// Choices for a selector of a range.
pub(crate) fn choices(
    alloc: Global,
    range: Range,
    list: &Vec<Choice>,
    point: &Point,
) -> Result<Vec<Covered>, Refused>
    ensures { IfOk result (λ v. choices_onto point.now range (map choice_view list.now.items) [] ≡ Some v.items) }
{
    let mut done = Vec::new(alloc);
    for one in list {
        let covered = choice(range, one, point)?;
        done.push(covered)?;
    }
    Ok(done)
}
