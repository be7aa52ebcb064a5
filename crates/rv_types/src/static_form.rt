//! Which expressions are static.

ghost use Rattle.std.specs.Prelude.{◌≡◌};
ghost use Rattle.rv_tree.specs.Expressions.{expressions_of, factors_of, terms_of};
ghost use Rattle.rv_tree.specs.ExpressionView.{expression_view, expressions_view, factors_view, terms_view};
ghost use Rattle.rv_types.specs.Points.{static_meaning};
ghost use Rattle.rv_types.specs.StaticForm.{is_static_constant as is_constant_static, is_static_call as is_call_static, is_static as is_form_static, are_static as are_forms_static, are_factors_static as factors_are_static, are_terms_static as terms_are_static};

use crate::point::Point;
use rv_shape::kind::ValueType;
use rv_static::{Meaning, Meanings};
use rv_tree::{Expression, Factor, Term};

// Whether a constant has a static value; whether that may be a Time_Span.
fn is_static_constant(spans: bool, meaning: Meaning) -> bool
    ensures { result ≡ is_constant_static spans meaning }
{
    match meaning {
        Meaning::Constant(ValueType::TimeSpan, _) => spans,
        Meaning::Constant(_, _) => true,
        _ => false,
    }
}

// Whether what a call names gives a static value of static arguments.
fn is_static_call(spans: bool, meaning: Meaning) -> bool
    ensures { result ≡ is_call_static spans meaning }
{
    match meaning {
        Meaning::Subtype(_) => true,
        Meaning::Milliseconds => spans,
        _ => false,
    }
}

/// Whether an expression is static; whether a static Time_Span may stand there.
#[cycle(static_form)]
pub(crate) fn is_static(e: &Expression, spans: bool, point: &Point) -> bool
    ensures { result ≡ is_form_static (static_meaning point.now) spans (expression_view e.now) }
{
    match e {
        Expression::Literal(_, _) | Expression::Attribute(_, _) => true,
        Expression::Name(name) => is_static_constant(spans, point.meaning(name)),
        Expression::Call(name, arguments) => {
            is_static_call(spans, point.meaning(name)) && are_static(arguments, point)
        }
        Expression::Parenthesized(_, inner) => is_static(inner, spans, point),
        Expression::Highest(_, _, operand) => is_static(operand, false, point),
        Expression::Product(first, more) => {
            is_static(first, false, point) && are_factors_static(more, point)
        }
        Expression::Signed(_, _, term) => is_static(term, false, point),
        Expression::Sum(first, more) => {
            is_static(first, false, point) && are_terms_static(more, point)
        }
        Expression::Relation(left, _, right) => {
            is_static(left, false, point) && is_static(right, false, point)
        }
        Expression::Logical(_, first, more) => {
            is_static(first, false, point) && are_static(more, point)
        }
    }
}

#[cycle(static_form)]
fn are_static(list: &Vec<Expression>, point: &Point) -> bool
    ensures { result ≡ are_forms_static (static_meaning point.now) (expressions_of (expressions_view list.now.items)) }
{
    for e in list {
        if !is_static(e, false, point) {
            return false;
        }
    }
    true
}

#[cycle(static_form)]
fn are_factors_static(list: &Vec<Factor>, point: &Point) -> bool
    ensures { result ≡ factors_are_static (static_meaning point.now) (factors_of (factors_view list.now.items)) }
{
    for factor in list {
        if !is_static(&factor.operand, false, point) {
            return false;
        }
    }
    true
}

#[cycle(static_form)]
fn are_terms_static(list: &Vec<Term>, point: &Point) -> bool
    ensures { result ≡ terms_are_static (static_meaning point.now) (terms_of (terms_view list.now.items)) }
{
    for term in list {
        if !is_static(&term.operand, false, point) {
            return false;
        }
    }
    true
}
