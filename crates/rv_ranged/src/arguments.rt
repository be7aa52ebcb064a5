//! What calls are given (6.4.1).

ghost use Rattle.std.specs.Prelude.{◌≡◌, Some};
ghost use Rattle.rv_shape.specs.Catalogue.{numbered, target};
ghost use Rattle.rv_code.specs.ExpressionView.{expressions_view};
ghost use Rattle.rv_ranged.specs.Ranged.{all_give, given_ranges, of_operation, of_target, take, suit};

use crate::range::{gives, time_parameter};
use crate::stand::Stand;
use crate::units::{Units, operation_at};
use rv_code::{Callee, Expression};
use rv_shape::actor::Callee as Called;
use rv_shape::kind::Parameter;

/// The most values of a call; the limit is our own.
const MOST_GIVEN: usize = 4;

// Whether expressions give one value of each range that a call gives to these parameters.
fn all_give(parameters: &[Parameter], es: &Vec<Expression>) -> bool
    ensures { result ≡ all_give (given_ranges parameters.now) (expressions_view es.now.items) }
{
    let mut left = es.as_slice();
    for parameter in parameters {
        if !parameter.mode.goes_in() {
            continue;
        }
        let [e, others @ ..] = left else {
            return false;
        };
        if !gives(parameter.range, e) {
            return false;
        }
        left = others;
    }
    left.is_empty()
}

// Whether arguments give such parameters values of their ranges.
fn take(parameters: &[Parameter], es: &Vec<Expression>) -> bool
    ensures { result ≡ take (Some parameters.now) (expressions_view es.now.items) }
{
    parameters.len() <= MOST_GIVEN && all_give(parameters, es)
}

// The same for an operation of the same object.
fn own_take(stand: &Stand<'_>, operation: usize, es: &Vec<Expression>) -> bool
    ensures { result ≡ take (of_operation (numbered stand.now.operations operation)) (expressions_view es.now.items) }
{
    match operation_at(stand.operations, operation) {
        Some(operation) => take(operation.parameters(), es),
        None => false,
    }
}

// The same for an operation of a number.
fn target_takes(units: &Units<'_>, object: usize, operation: usize, es: &Vec<Expression>) -> bool
    ensures { result ≡ take (of_target (target units.now object operation)) (expressions_view es.now.items) }
{
    match units.callee(object, operation) {
        Called::Protected(_, _, operation) => take(operation.parameters(), es),
        _ => false,
    }
}

/// Whether arguments give values of the ranges that a call wants.
pub(crate) fn suit(
    callee: &Callee,
    es: &Vec<Expression>,
    units: &Units<'_>,
    stand: &Stand<'_>,
) -> bool
    ensures { result ≡ suit units.now stand.now.operations callee.now (expressions_view es.now.items) }
{
    match *callee {
        Callee::Internal(operation) | Callee::OwnEntry(operation) => own_take(stand, operation, es),
        Callee::Function(object, operation)
        | Callee::Procedure(object, operation)
        | Callee::Entry(object, operation) => target_takes(units, object, operation, es),
        Callee::DelayUntil => take(&[time_parameter()], es),
        _ => true,
    }
}
