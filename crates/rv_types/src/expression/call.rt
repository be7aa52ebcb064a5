//! Names and calls in expressions: objects, conversions, calls of functions (4.1, 4.6, 6.4).

ghost use Rattle.std.specs.Prelude.{◌≡◌, [], IfOk, Some, map};
ghost use Rattle.rv_tree.specs.NameView.{name_view};
ghost use Rattle.rv_tree.specs.Expressions.{expressions_of, call as call_of_name};
ghost use Rattle.rv_tree.specs.ExpressionView.{expression_view, expressions_view};
ghost use Rattle.rv_code.specs.Expressions.{call as call_code, expressions_of as code_expressions_of};
ghost use Rattle.rv_code.specs.ExpressionView.{expression_view as code_view};
ghost use Rattle.rv_types.specs.Points.{denotes, profile};
ghost use Rattle.rv_types.specs.Typed.{value_of, named as value_named, conversion as conversion_of, function_call as call_of_function, suspension_named, suspension_of, computed as computed_of, first_of, arguments_onto, only_integer};
ghost use Rattle.rv_types.specs.TypedView.{typed_view};

use crate::denoted::Denoted;
use crate::expression::operand;
use crate::operators::within_range;
use crate::point::Point;
use crate::refused::{Refused, mismatch};
use crate::typed::Typed;
use rv_code::{Callee, Expression as Code};
use rv_shape::kind::{Parameter, Range, ValueType};
use rv_static::{Meaning, Meanings, same_type};
use rv_tree::{Expression, Name};
use std::alloc::Global;

// What a call gives.
fn call_of_callee(callee: Callee, of: ValueType, arguments: Vec<Code>) -> Typed
    ensures { typed_view result ≡ value_of of (call_code callee (code_expressions_of (map code_view arguments.items))) }
{
    Typed {
        of,
        code: Code::Call(callee, arguments),
    }
}

/// An object, or a call of a function without parameters.
pub(crate) fn named(alloc: Global, name: &Name, point: &Point) -> Result<Typed, Refused>
    ensures { IfOk result (λ t. value_named (denotes point.now (name_view name.now)) (profile point.now (name_view name.now)) ≡ Some (typed_view t)) }
{
    match point.denoted(name) {
        Denoted::Variable(slot, range, _) => Ok(Typed {
            of: range.of,
            code: Code::Variable(slot),
        }),
        Denoted::Component(index, range) => Ok(Typed {
            of: range.of,
            code: Code::Component(index),
        }),
        Denoted::Function(callee, range) => {
            if point.parameters(name).is_empty() {
                return Ok(call_of_callee(callee, range.of, Vec::new(alloc)));
            }
            Err(mismatch(name.first.at))
        }
        Denoted::Clock => Ok(call_of_callee(Callee::Clock, ValueType::Time, Vec::new(alloc))),
        _ => Err(mismatch(name.first.at)),
    }
}

// The suspension object that an argument names.
fn suspension_named_by(e: &Expression, point: &Point) -> Result<usize, Refused>
    ensures { IfOk result (λ k. suspension_named point.now (expression_view e.now) ≡ Some k) }
{
    if let Expression::Name(name) = e {
        if let Denoted::Suspension(number) = point.denoted(name) {
            return Ok(number);
        }
    }
    Err(mismatch(e.place()))
}

/// The suspension object that is the one argument of a call at a place.
pub(crate) fn suspension_argument(
    arguments: &Vec<Expression>,
    at: usize,
    point: &Point,
) -> Result<usize, Refused>
    ensures { IfOk result (λ k. suspension_of point.now (expressions_of (expressions_view arguments.now.items)) ≡ Some k) }
{
    match arguments.as_slice() {
        [one] => suspension_named_by(one, point),
        _ => Err(mismatch(at)),
    }
}

/// A conversion, `Milliseconds`, or a call with arguments.
#[cycle(expression)]
pub(crate) fn call(
    alloc: Global,
    name: &Name,
    list: &Vec<Expression>,
    is_evaluated: bool,
    point: &Point,
) -> Result<Typed, Refused>
    ensures { IfOk result (λ t. computed_of point.now is_evaluated (call_of_name (name_view name.now) (expressions_of (expressions_view list.now.items))) ≡ Some (typed_view t)) }
{
    match point.meaning(name) {
        Meaning::Subtype(range) => conversion(alloc, range, name, list, is_evaluated, point),
        Meaning::Milliseconds => {
            let code = only_argument(alloc, name, list, is_evaluated, point)?;
            Ok(Typed {
                of: ValueType::TimeSpan,
                code,
            })
        }
        Meaning::Constant(_, _) => Err(mismatch(name.first.at)),
        Meaning::NotStatic => function_call(alloc, name, list, is_evaluated, point),
    }
}

// A conversion to a subtype.
#[cycle(expression)]
fn conversion(
    alloc: Global,
    range: Range,
    name: &Name,
    list: &Vec<Expression>,
    is_evaluated: bool,
    point: &Point,
) -> Result<Typed, Refused>
    ensures { IfOk result (λ t. conversion_of range (first_of point.now is_evaluated (expressions_of (expressions_view list.now.items))) ≡ Some (typed_view t)) }
{
    if !same_type(range.of, ValueType::Integer) {
        return Err(mismatch(name.first.at));
    }
    let value = only_argument(alloc, name, list, is_evaluated, point)?;
    let code = within_range(alloc, range, value)?;
    Ok(Typed {
        of: ValueType::Integer,
        code,
    })
}

// The one argument, an Integer.
#[cycle(expression)]
fn only_argument(
    alloc: Global,
    name: &Name,
    list: &Vec<Expression>,
    is_evaluated: bool,
    point: &Point,
) -> Result<Code, Refused>
    ensures { IfOk result (λ c. only_integer point.now is_evaluated (expressions_of (expressions_view list.now.items)) ≡ Some (code_view c)) }
{
    match list.as_slice() {
        [] => Err(mismatch(name.first.at)),
        [one, others @ ..] => match others {
            [] => operand(alloc, ValueType::Integer, one, is_evaluated, point),
            [_other, _more @ ..] => Err(mismatch(name.first.at)),
        },
    }
}

// A call of a function.
#[cycle(expression)]
fn function_call(
    alloc: Global,
    name: &Name,
    list: &Vec<Expression>,
    is_evaluated: bool,
    point: &Point,
) -> Result<Typed, Refused>
    ensures { IfOk result (λ t. call_of_function (denotes point.now (name_view name.now))
        (arguments_onto point.now is_evaluated (profile point.now (name_view name.now)) (expressions_of (expressions_view list.now.items)) [])
        (suspension_of point.now (expressions_of (expressions_view list.now.items))) ≡ Some (typed_view t)) }
{
    match point.denoted(name) {
        Denoted::Function(callee, range) => {
            let parameters = point.parameters(name);
            if parameters.len() != list.len() {
                return Err(mismatch(name.first.at));
            }
            let given = arguments(alloc, parameters, list, name.first.at, is_evaluated, point)?;
            Ok(call_of_callee(callee, range.of, given))
        }
        Denoted::CurrentState => {
            let object = suspension_argument(list, name.first.at, point)?;
            Ok(call_of_callee(
                Callee::CurrentState(object),
                ValueType::Boolean,
                Vec::new(alloc),
            ))
        }
        _ => Err(mismatch(name.first.at)),
    }
}

// The arguments for parameters, of which there are as many.
#[cycle(expression)]
fn arguments(
    alloc: Global,
    parameters: &[Parameter],
    list: &Vec<Expression>,
    at: usize,
    is_evaluated: bool,
    point: &Point,
) -> Result<Vec<Code>, Refused>
    ensures { IfOk result (λ given. arguments_onto point.now is_evaluated parameters.now (expressions_of (expressions_view list.now.items)) [] ≡ Some (map code_view given.items)) }
{
    let mut given = Vec::new(alloc);
    let mut left = parameters;
    for e in list {
        let [parameter, others @ ..] = left else {
            return Err(mismatch(at));
        };
        let value = operand(alloc, parameter.range.of, e, is_evaluated, point)?;
        let value = within_range(alloc, parameter.range, value)?;
        given.push(value)?;
        left = others;
    }
    match left {
        [] => Ok(given),
        [_parameter, _others @ ..] => Err(mismatch(at)),
    }
}
