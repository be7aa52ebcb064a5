//! Expressions: their types, and the code that gives their values.

ghost use Rattle.std.specs.Prelude.{◌≡◌, [], IfOk, Some, map};
ghost use Rattle.rv_tree.specs.Expressions.{expressions_of, factors_of, terms_of};
ghost use Rattle.rv_tree.specs.ExpressionView.{expression_view, expressions_view, factors_view, terms_view};
ghost use Rattle.rv_static.specs.Static.{static_of};
ghost use Rattle.rv_code.specs.ExpressionView.{expression_view as code_view, link_view};
ghost use Rattle.rv_types.specs.Points.{static_meaning};
ghost use Rattle.rv_types.specs.Typed.{adds as adds_by_types, static_typed, highest_code, computed as computed_of, factors_onto, terms_onto, logic_onto, typed, operand_of, product_of, sum_of, relation_of, logic_of, typed_as as code_typed_as};
ghost use Rattle.rv_types.specs.TypedView.{typed_view, sum_view};

mod call;

use crate::expression::call::{call, named};
use crate::operators::{
    Adder, adder_of, chain_of, is_decided, is_related, joined_value, logical_operator,
    multiplying_operator, pair_of, prefixed_by, push_link, relational_operator, signed_by,
    small_enough, takes_left,
};
use crate::point::Point;
use crate::refused::{Refused, least, mismatch};
use crate::static_form::is_static;
use crate::typed::{Sum, Typed, literal_in, number_of, static_value_code};
pub(crate) use call::suspension_argument;
use rv_code::{Expression as Code, Link, Prefix};
use rv_shape::kind::ValueType;
use rv_static::{Faults, Number, Static, added, multiplied, static_value};
use rv_tree::{Expression, Factor, HighestOperator, LogicalOperator, RelationalOperator, Term};
use std::alloc::Global;

// The value of a static expression.
fn static_result(e: &Expression, is_evaluated: bool, point: &Point) -> Result<Static, Refused>
    ensures { IfOk result (λ v. static_of (static_meaning point.now) is_evaluated (expression_view e.now) ≡ Some v) }
{
    let mut faults = Faults::new();
    if let Some(value) = static_value(e, is_evaluated, point, &mut faults) {
        return Ok(value);
    }
    match faults.first() {
        Some(fault) => Err(Refused(fault)),
        None => unreachable!(),
    }
}

// A static expression.
fn static_expression(e: &Expression, is_evaluated: bool, point: &Point) -> Result<Typed, Refused>
    ensures { IfOk result (λ t. static_typed (static_of (static_meaning point.now) is_evaluated (expression_view e.now)) ≡ Some (typed_view t)) }
{
    let value = static_result(e, is_evaluated, point)?;
    Ok(static_value_code(value))
}

/// The type of an expression and the code that gives its value; whether it is evaluated at all.
#[tactic(auto, unfolding(crate::specs::Typed::unless_static))]
#[cycle(expression)]
pub(crate) fn expression(
    alloc: Global,
    e: &Expression,
    is_evaluated: bool,
    point: &Point,
) -> Result<Typed, Refused>
    ensures { IfOk result (λ t. typed point.now is_evaluated (expression_view e.now) ≡ Some (typed_view t)) }
{
    if is_static(e, true, point) {
        return static_expression(e, is_evaluated, point);
    }
    computed(alloc, e, is_evaluated, point)
}

// The type of a sum of two operands, of which the left one may stand before the operator.
fn adder_for(times: bool, left: ValueType, term: &Term, right: ValueType) -> Result<Adder, Refused>
    ensures { IfOk result (λ adder. adds_by_types times left term.now.operator right ≡ Some adder) }
{
    match adder_of(times, left, term.operator, right) {
        Some(sum) => Ok(sum),
        None => Err(mismatch(term.operand.place())),
    }
}

/// An expression that has to be of a type.
#[cycle(expression)]
pub(crate) fn operand(
    alloc: Global,
    of: ValueType,
    e: &Expression,
    is_evaluated: bool,
    point: &Point,
) -> Result<Code, Refused>
    ensures { IfOk result (λ c. operand_of point.now is_evaluated of (expression_view e.now) ≡ Some (code_view c)) }
{
    let found = expression(alloc, e, is_evaluated, point)?;
    found.of_type(of, e.place())
}

// An expression that isn't static.
#[cycle(expression)]
fn computed(
    alloc: Global,
    e: &Expression,
    is_evaluated: bool,
    point: &Point,
) -> Result<Typed, Refused>
    ensures { IfOk result (λ t. computed_of point.now is_evaluated (expression_view e.now) ≡ Some (typed_view t)) }
{
    match e {
        Expression::Name(name) => named(alloc, name, point),
        Expression::Call(name, arguments) => call(alloc, name, arguments, is_evaluated, point),
        Expression::Parenthesized(_, inner) => expression(alloc, inner, is_evaluated, point),
        Expression::Highest(_, operator, operand) => {
            highest_operand(alloc, *operator, operand, is_evaluated, point)
        }
        Expression::Product(first, more) => {
            let at = first.place();
            let left = operand(alloc, ValueType::Integer, first, is_evaluated, point)?;
            factors(alloc, more, left, at, is_evaluated, point)
        }
        Expression::Signed(_, sign, term) => {
            let term = operand(alloc, ValueType::Integer, term, is_evaluated, point)?;
            signed_by(alloc, *sign, term)
        }
        Expression::Sum(first, more) => {
            let at = first.place();
            let Typed { of, code } = expression(alloc, first, is_evaluated, point)?;
            terms(alloc, more, of, code, at, is_evaluated, point)
        }
        Expression::Relation(left, operator, right) => {
            let at = left.place();
            let first = expression(alloc, left, is_evaluated, point)?;
            relation(alloc, right, *operator, first, at, is_evaluated, point)
        }
        Expression::Logical(operator, first, more) => {
            let left = operand(alloc, ValueType::Boolean, first, is_evaluated, point)?;
            logic(alloc, *operator, more, left, is_evaluated, point)
        }
        Expression::Literal(at, _) => Err(mismatch(*at)),
        Expression::Attribute(prefix, _) => Err(mismatch(prefix.first.at)),
    }
}

// `abs` or `not`.
#[cycle(expression)]
fn highest_operand(
    alloc: Global,
    operator: HighestOperator,
    e: &Expression,
    is_evaluated: bool,
    point: &Point,
) -> Result<Typed, Refused>
    ensures { IfOk result (λ t. highest_code operator (typed point.now is_evaluated (expression_view e.now)) ≡ Some (typed_view t)) }
{
    match operator {
        HighestOperator::Abs => {
            let inner = operand(alloc, ValueType::Integer, e, is_evaluated, point)?;
            prefixed_by(alloc, ValueType::Integer, Prefix::Absolute, inner)
        }
        HighestOperator::Not => {
            let inner = operand(alloc, ValueType::Boolean, e, is_evaluated, point)?;
            prefixed_by(alloc, ValueType::Boolean, Prefix::Not, inner)
        }
    }
}

// A product, behind its first operand, which stands at a place.
#[cycle(expression)]
fn factors(
    alloc: Global,
    more: &Vec<Factor>,
    first: Code,
    at: usize,
    is_evaluated: bool,
    point: &Point,
) -> Result<Typed, Refused>
    ensures { IfOk result (λ t. product_of point.now is_evaluated (code_view first) (factors_of (factors_view more.now.items)) ≡ Some (typed_view t)) }
{
    let left = number_of(&first, is_evaluated);
    let links = factor_links(alloc, more, left, at, is_evaluated, point)?;
    chain_of(alloc, ValueType::Integer, first, links)
}

// The factors behind a first one, of this number where it is static, and at a place.
#[cycle(expression)]
fn factor_links(
    alloc: Global,
    more: &Vec<Factor>,
    first: Number,
    at: usize,
    is_evaluated: bool,
    point: &Point,
) -> Result<Vec<Link>, Refused>
    ensures { IfOk result (λ links. factors_onto point.now is_evaluated first (factors_of (factors_view more.now.items)) [] ≡ Some (map link_view links.items)) }
{
    let mut total = first;
    let mut links = Vec::new(alloc);
    for factor in more {
        let right = operand(
            alloc,
            ValueType::Integer,
            &factor.operand,
            is_evaluated,
            point,
        )?;
        let number = number_of(&right, is_evaluated);
        let mut faults = Faults::new();
        let product = multiplied(factor.operator, total, number, at, &mut faults);
        total = small_enough(product, at)?;
        push_link(&mut links, multiplying_operator(factor.operator), right)?;
    }
    Ok(links)
}

// A sum behind its first operand, which stands at a place.
#[cycle(expression)]
fn terms(
    alloc: Global,
    more: &Vec<Term>,
    of: ValueType,
    first: Code,
    at: usize,
    is_evaluated: bool,
    point: &Point,
) -> Result<Typed, Refused>
    ensures { IfOk result (λ t. sum_of point.now is_evaluated of (code_view first) (terms_of (terms_view more.now.items)) ≡ Some (typed_view t)) }
{
    let left = number_of(&first, is_evaluated);
    let Sum { of, links } = term_links(alloc, more, of, left, at, is_evaluated, point)?;
    chain_of(alloc, of, first, links)
}

// The terms behind a first one, of this type, of this number where it is static, and at a place.
#[cycle(expression)]
fn term_links(
    alloc: Global,
    more: &Vec<Term>,
    of: ValueType,
    first: Number,
    at: usize,
    is_evaluated: bool,
    point: &Point,
) -> Result<Sum, Refused>
    ensures { IfOk result (λ s. terms_onto point.now is_evaluated of first (terms_of (terms_view more.now.items)) [] ≡ Some (sum_view s)) }
{
    let times = point.shows_times();
    let mut sort = of;
    let mut total = first;
    let mut links = Vec::new(alloc);
    for term in more {
        if !takes_left(times, sort, term.operator) {
            return Err(mismatch(at));
        }
        let right = expression(alloc, &term.operand, is_evaluated, point)?;
        let adder = adder_for(times, sort, term, right.of)?;
        let code = right.into_code();
        let number = number_of(&code, is_evaluated);
        let mut faults = Faults::new();
        total = small_enough(added(term.operator, total, number, at, &mut faults), at)?;
        push_link(&mut links, adder.operator, code)?;
        sort = adder.of;
    }
    Ok(Sum { of: sort, links })
}

// A relation, behind its left operand, which stands at a place.
#[cycle(expression)]
fn relation(
    alloc: Global,
    right: &Expression,
    operator: RelationalOperator,
    left: Typed,
    at: usize,
    is_evaluated: bool,
    point: &Point,
) -> Result<Typed, Refused>
    ensures { IfOk result (λ t. relation_of point.now is_evaluated operator (typed_view left) (expression_view right.now) ≡ Some (typed_view t)) }
{
    if !is_related(point.shows_times(), left.of) {
        return Err(mismatch(at));
    }
    let second = operand(alloc, left.of, right, is_evaluated, point)?;
    pair_of(
        alloc,
        left.into_code(),
        relational_operator(operator),
        second,
    )
}

// Relations that one operator joins, behind the first of them.
#[cycle(expression)]
fn logic(
    alloc: Global,
    operator: LogicalOperator,
    more: &Vec<Expression>,
    first: Code,
    is_evaluated: bool,
    point: &Point,
) -> Result<Typed, Refused>
    ensures { IfOk result (λ t. logic_of point.now is_evaluated operator (code_view first) (expressions_of (expressions_view more.now.items)) ≡ Some (typed_view t)) }
{
    let links = logic_links(
        alloc,
        operator,
        literal_in(&first),
        more,
        is_evaluated,
        point,
    )?;
    chain_of(alloc, ValueType::Boolean, first, links)
}

// Relations behind others, whose value is known where they are static.
#[cycle(expression)]
fn logic_links(
    alloc: Global,
    operator: LogicalOperator,
    first: Option<i64>,
    more: &Vec<Expression>,
    is_evaluated: bool,
    point: &Point,
) -> Result<Vec<Link>, Refused>
    ensures { IfOk result (λ links. logic_onto point.now is_evaluated operator first (expressions_of (expressions_view more.now.items)) [] ≡ Some (map link_view links.items)) }
{
    let mut before = first;
    let mut links = Vec::new(alloc);
    for e in more {
        let is_asked = is_evaluated && !is_decided(operator, before);
        let right = operand(alloc, ValueType::Boolean, e, is_asked, point)?;
        before = joined_value(operator, before, literal_in(&right));
        push_link(&mut links, logical_operator(operator), right)?;
    }
    Ok(links)
}

/// The code of an expression that has to be of a type. Where a value is too large, a type that doesn't fit may stand before.
#[tactic(auto, unfolding(crate::specs::Typed::typed_as))]
pub(crate) fn expression_as(
    alloc: Global,
    of: ValueType,
    e: &Expression,
    point: &Point,
) -> Result<Code, Refused>
    ensures { IfOk result (λ c. code_typed_as point.now of (expression_view e.now) ≡ Some (code_view c)) }
{
    match operand(alloc, of, e, true, point) {
        Ok(code) => Ok(code),
        Err(fault) => match operand(alloc, of, e, false, point) {
            Ok(_) => Err(fault),
            Err(other) => Err(least(fault, other)),
        },
    }
}
