//! What operators give (4.5).

ghost use Rattle.std.specs.Prelude.{◌≡◌, ◌+ℤ◌};
ghost use Rattle.rv_exec.specs.Operators.{truth, is_true, checked, within, prefix_of, decides, result_of, time as time_of};

use crate::end::Cause;
use rv_code::{Operator, Prefix};
use rv_event::entry::Exception;
use rv_shape::kind::Range;
use rv_value::arithmetic::{Arith, abs, add, div, modulo, mul, neg, rem, sub};

/// The end of an Integer or a Time on each side.
const MOST_TIME: i64 = 1_000_000_000_000_000;

fn truth(value: bool) -> i64
    ensures { result ≡ truth value }
{
    if value { 1 } else { 0 }
}

/// Whether a value of type Boolean is True: True is kept as 1, False as 0.
pub fn is_true(value: i64) -> bool
    ensures { result ≡ is_true value }
{
    value != 0
}

fn checked(number: Result<i64, Arith>) -> Result<i64, Cause>
    ensures { result ≡ checked number }
{
    match number {
        Ok(value) => Ok(value),
        Err(_) => Err(Cause::Raised(Exception::ConstraintError)),
    }
}

/// The value, where it lies in the range (3.5, 4.6).
pub fn within(range: Range, value: i64) -> Result<i64, Cause>
    ensures { result ≡ within range value }
{
    if range.low <= value && value <= range.high {
        Ok(value)
    } else {
        Err(Cause::Raised(Exception::ConstraintError))
    }
}

fn later(time: i64, span: i64) -> Result<i64, Cause>
    ensures { result ≡ time_of (time +ℤ span) }
{
    match time.checked_add(span) {
        Some(sum) => {
            if -MOST_TIME <= sum && sum <= MOST_TIME {
                Ok(sum)
            } else {
                Err(Cause::Raised(Exception::ConstraintError))
            }
        }
        None => Err(Cause::Raised(Exception::ConstraintError)),
    }
}

/// What an operator gives of its operand.
pub fn prefix_of(operator: Prefix, value: i64) -> Result<i64, Cause>
    ensures { result ≡ prefix_of operator value }
{
    match operator {
        Prefix::Negate => checked(neg(value)),
        Prefix::Absolute => checked(abs(value)),
        Prefix::Not => Ok(truth(!is_true(value))),
    }
}

/// Whether the left operand alone decides (4.5.1).
pub fn decides(operator: Operator, value: i64) -> bool
    ensures { result ≡ decides operator value }
{
    match operator {
        Operator::AndThen => !is_true(value),
        Operator::OrElse => is_true(value),
        _ => false,
    }
}

/// What an operator gives of its operands.
pub fn result_of(operator: Operator, left: i64, right: i64) -> Result<i64, Cause>
    ensures { result ≡ result_of operator left right }
{
    match operator {
        Operator::Add => checked(add(left, right)),
        Operator::Subtract => checked(sub(left, right)),
        Operator::Multiply => checked(mul(left, right)),
        Operator::Divide => checked(div(left, right)),
        Operator::Modulo => checked(modulo(left, right)),
        Operator::Remainder => checked(rem(left, right)),
        Operator::AddTime => later(left, right),
        Operator::And => Ok(truth(is_true(left) && is_true(right))),
        Operator::Or => Ok(truth(is_true(left) || is_true(right))),
        Operator::Xor => Ok(truth(is_true(left) != is_true(right))),
        Operator::AndThen | Operator::OrElse => Ok(right),
        Operator::Equal => Ok(truth(left == right)),
        Operator::NotEqual => Ok(truth(left != right)),
        Operator::Less => Ok(truth(left < right)),
        Operator::LessEqual => Ok(truth(left <= right)),
        Operator::Greater => Ok(truth(left > right)),
        Operator::GreaterEqual => Ok(truth(left >= right)),
    }
}
