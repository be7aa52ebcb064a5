//! Operators on numbers that are evaluated or not.

ghost use Rattle.std.specs.Prelude.{◌≡◌};
ghost use Rattle.rv_static.specs.Operators.{known, signed_number, absolute, adds, multiplies, both as both_of, added, multiplied, truth, is_true, holds, related, negated, joins, decides, joined};
ghost use Rattle.rv_static.specs.Told.{told_unless};

use crate::fault::{Faults, TypeFault};
use crate::meaning::Number;
use rv_tree::{AddingOperator, LogicalOperator, MultiplyingOperator, RelationalOperator};
use rv_value::arithmetic::{Arith, abs, add, div, modulo, mul, neg, rem, sub};

// The number that an operator gives, or else a fault at the place of the expression.
pub(crate) fn known(given: Result<i64, Arith>, at: usize, faults: &mut Faults) -> Option<Number>
    ensures value { result ≡ known given }
    ensures told { faults.new ≡ told_unless result faults.old }
{
    match given {
        Ok(number) => Some(Number::Known(number)),
        Err(_) => {
            faults.tell(TypeFault::TooLarge(at));
            None
        }
    }
}

pub(crate) fn signed(
    sign: AddingOperator,
    number: Number,
    at: usize,
    faults: &mut Faults,
) -> Option<Number>
    ensures value { result ≡ signed_number sign number }
    ensures told { faults.new ≡ told_unless result faults.old }
{
    match number {
        Number::Skipped => Some(Number::Skipped),
        Number::Known(number) => match sign {
            AddingOperator::Plus => Some(Number::Known(number)),
            AddingOperator::Minus => known(neg(number), at, faults),
        },
    }
}

pub(crate) fn absolute(number: Number, at: usize, faults: &mut Faults) -> Option<Number>
    ensures value { result ≡ absolute number }
    ensures told { faults.new ≡ told_unless result faults.old }
{
    match number {
        Number::Skipped => Some(Number::Skipped),
        Number::Known(number) => known(abs(number), at, faults),
    }
}

fn adds(operator: AddingOperator, left: i64, right: i64) -> Result<i64, Arith>
    ensures { result ≡ adds operator left right }
{
    match operator {
        AddingOperator::Plus => add(left, right),
        AddingOperator::Minus => sub(left, right),
    }
}

fn multiplies(operator: MultiplyingOperator, left: i64, right: i64) -> Result<i64, Arith>
    ensures { result ≡ multiplies operator left right }
{
    match operator {
        MultiplyingOperator::Times => mul(left, right),
        MultiplyingOperator::Divide => div(left, right),
        MultiplyingOperator::Mod => modulo(left, right),
        MultiplyingOperator::Rem => rem(left, right),
    }
}

// Two numbers, where both are evaluated.
fn both(left: Number, right: Number) -> Option<(i64, i64)>
    ensures { result ≡ both_of left right }
{
    let Number::Known(first) = left else {
        return None;
    };
    let Number::Known(second) = right else {
        return None;
    };
    Some((first, second))
}

/// What `+` or `-` gives (4.5.3), where both numbers are known; or `None`, where a fault at this place was told.
pub fn added(
    operator: AddingOperator,
    left: Number,
    right: Number,
    at: usize,
    faults: &mut Faults,
) -> Option<Number>
    ensures value { result ≡ added operator left right }
    ensures told { faults.new ≡ told_unless result faults.old }
{
    match both(left, right) {
        None => Some(Number::Skipped),
        Some((left, right)) => known(adds(operator, left, right), at, faults),
    }
}

/// What `*`, `/`, `mod` or `rem` gives (4.5.5), where both numbers are known; or `None`, where a fault at this
/// place was told.
pub fn multiplied(
    operator: MultiplyingOperator,
    left: Number,
    right: Number,
    at: usize,
    faults: &mut Faults,
) -> Option<Number>
    ensures value { result ≡ multiplied operator left right }
    ensures told { faults.new ≡ told_unless result faults.old }
{
    match both(left, right) {
        None => Some(Number::Skipped),
        Some((left, right)) => known(multiplies(operator, left, right), at, faults),
    }
}

fn truth(holds: bool) -> i64
    ensures { result ≡ truth holds }
{
    if holds { 1 } else { 0 }
}

fn is_true(number: i64) -> bool
    ensures { result ≡ is_true number }
{
    number != 0
}

fn holds(operator: RelationalOperator, left: i64, right: i64) -> bool
    ensures { result ≡ holds operator left right }
{
    match operator {
        RelationalOperator::Equal => left <= right && right <= left,
        RelationalOperator::NotEqual => !(left <= right && right <= left),
        RelationalOperator::Less => left < right,
        RelationalOperator::LessEqual => left <= right,
        RelationalOperator::Greater => right < left,
        RelationalOperator::GreaterEqual => right <= left,
    }
}

pub(crate) fn related(operator: RelationalOperator, left: Number, right: Number) -> Number
    ensures { result ≡ related operator left right }
{
    match both(left, right) {
        None => Number::Skipped,
        Some((left, right)) => Number::Known(truth(holds(operator, left, right))),
    }
}

pub(crate) fn negated(number: Number) -> Number
    ensures { result ≡ negated number }
{
    match number {
        Number::Skipped => Number::Skipped,
        Number::Known(number) => Number::Known(truth(!is_true(number))),
    }
}

fn joins(operator: LogicalOperator, left: bool, right: bool) -> bool
    ensures { result ≡ joins operator left right }
{
    match operator {
        LogicalOperator::And => left && right,
        LogicalOperator::Or => left || right,
        LogicalOperator::Xor => (left && !right) || (right && !left),
        LogicalOperator::AndThen => left && right,
        LogicalOperator::OrElse => left || right,
    }
}

// Whether the left operand decides a short-circuit form.
pub(crate) fn decides(operator: LogicalOperator, left: Number) -> bool
    ensures { result ≡ decides operator left }
{
    match (operator, left) {
        (LogicalOperator::AndThen, Number::Known(number)) => !is_true(number),
        (LogicalOperator::OrElse, Number::Known(number)) => is_true(number),
        _ => false,
    }
}

pub(crate) fn joined(operator: LogicalOperator, left: Number, right: Number) -> Number
    ensures { result ≡ joined operator left right }
{
    match left {
        Number::Skipped => Number::Skipped,
        Number::Known(number) => {
            if decides(operator, left) {
                return Number::Known(number);
            }
            match right {
                Number::Skipped => Number::Skipped,
                Number::Known(other) => {
                    Number::Known(truth(joins(operator, is_true(number), is_true(other))))
                }
            }
        }
    }
}
