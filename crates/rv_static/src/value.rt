//! The type and the value of a static expression.

ghost use Rattle.std.specs.Prelude.{◌≡◌};
ghost use Rattle.rv_tree.specs.NameView.{name_view};
ghost use Rattle.rv_tree.specs.Expressions.{expressions_of, factors_of, terms_of};
ghost use Rattle.rv_tree.specs.ExpressionView.{expression_view, expressions_view, factors_view, terms_view};
ghost use Rattle.rv_shape.specs.declared.kind.ValueType.TheVariants.{Integer};
ghost use Rattle.rv_static.specs.Static.{number_in, converted, highest_of, comparable, static_of, argument_of, product_of, sum_of, logic_of};
ghost use Rattle.rv_static.specs.Told.{told_unless};

use crate::arithmetic::{absolute, added, decides, joined, multiplied, negated, related, signed};
use crate::fault::{Faults, TypeFault};
use crate::meaning::{Meaning, Meanings, Number, Static};
use crate::primary::{boolean, bound, constant, integer, is_discrete, literal, placed, same_type};
use rv_shape::kind::ValueType;
use rv_tree::{Expression, Factor, HighestOperator, LogicalOperator, Name, Term};

/// The type of a static expression, and its value where it is evaluated; or `None`, where a fault was told.
pub fn static_value<N: Meanings>(
    e: &Expression,
    is_evaluated: bool,
    names: &N,
    faults: &mut Faults,
) -> Option<Static>
    ensures value { result ≡ static_of (N.means names.now) is_evaluated (expression_view e.now) }
    ensures told { faults.new ≡ told_unless result faults.old }
{
    value(e, is_evaluated, names, faults)
}

#[cycle(value)]
fn value<N: Meanings>(
    e: &Expression,
    is_evaluated: bool,
    names: &N,
    faults: &mut Faults,
) -> Option<Static>
    ensures value { result ≡ static_of (N.means names.now) is_evaluated (expression_view e.now) }
    ensures told { faults.new ≡ told_unless result faults.old }
{
    match e {
        Expression::Literal(at, number) => {
            let number = literal(is_evaluated, *number, *at, faults)?;
            Some(integer(number))
        }
        Expression::Name(name) => {
            constant(is_evaluated, names.meaning(name), name.first.at, faults)
        }
        Expression::Attribute(prefix, attribute) => {
            let meaning = names.meaning(prefix);
            let bound = bound(is_evaluated, meaning, attribute, prefix.first.at, faults)?;
            Some(integer(bound))
        }
        Expression::Call(name, arguments) => { call(name, arguments, is_evaluated, names, faults) }
        Expression::Parenthesized(_, inner) => value(inner, is_evaluated, names, faults),
        Expression::Highest(at, operator, operand) => {
            highest(*operator, operand, is_evaluated, *at, names, faults)
        }
        Expression::Product(first, more) => {
            let at = first.place();
            let left = operand(ValueType::Integer, first, is_evaluated, names, faults)?;
            let product = factors(left, more, at, is_evaluated, names, faults)?;
            Some(integer(product))
        }
        Expression::Signed(at, sign, term) => {
            let term = operand(ValueType::Integer, term, is_evaluated, names, faults)?;
            let number = signed(*sign, term, *at, faults)?;
            Some(integer(number))
        }
        Expression::Sum(first, more) => {
            let at = first.place();
            let left = operand(ValueType::Integer, first, is_evaluated, names, faults)?;
            let sum = terms(left, more, at, is_evaluated, names, faults)?;
            Some(integer(sum))
        }
        Expression::Relation(left, operator, right) => {
            let first = compared(left, is_evaluated, names, faults)?;
            let second = value(right, is_evaluated, names, faults)?;
            if !same_type(second.of, first.of) {
                faults.tell(TypeFault::Mismatch(right.place()));
                return None;
            }
            Some(boolean(related(*operator, first.number, second.number)))
        }
        Expression::Logical(operator, first, more) => {
            let left = operand(ValueType::Boolean, first, is_evaluated, names, faults)?;
            let joined = logic(*operator, left, more, is_evaluated, names, faults)?;
            Some(boolean(joined))
        }
    }
}

// An operand of a type.
#[cycle(value)]
pub(crate) fn operand<N: Meanings>(
    of: ValueType,
    e: &Expression,
    is_evaluated: bool,
    names: &N,
    faults: &mut Faults,
) -> Option<Number>
    ensures value { result ≡ number_in of (static_of (N.means names.now) is_evaluated (expression_view e.now)) }
    ensures told { faults.new ≡ told_unless result faults.old }
{
    let found = value(e, is_evaluated, names, faults)?;
    if same_type(found.of, of) {
        return Some(found.number);
    }
    faults.tell(TypeFault::Mismatch(e.place()));
    None
}

// A conversion or `Milliseconds`.
#[cycle(value)]
fn call<N: Meanings>(
    name: &Name,
    arguments: &Vec<Expression>,
    is_evaluated: bool,
    names: &N,
    faults: &mut Faults,
) -> Option<Static>
    ensures value { result ≡ converted (N.means names.now (name_view name.now))
        (number_in Integer (argument_of (N.means names.now) is_evaluated (expressions_of (expressions_view arguments.now.items)))) }
    ensures told { faults.new ≡ told_unless result faults.old }
{
    let at = name.first.at;
    match names.meaning(name) {
        Meaning::Subtype(range) => {
            if !same_type(range.of, ValueType::Integer) {
                faults.tell(TypeFault::Mismatch(at));
                return None;
            }
            let number = argument(arguments, at, is_evaluated, names, faults)?;
            let number = placed(range, number, at, faults)?;
            Some(integer(number))
        }
        Meaning::Milliseconds => {
            let number = argument(arguments, at, is_evaluated, names, faults)?;
            Some(Static {
                of: ValueType::TimeSpan,
                number,
            })
        }
        Meaning::Constant(_, _) => {
            faults.tell(TypeFault::Mismatch(at));
            None
        }
        Meaning::NotStatic => {
            faults.tell(TypeFault::NotStatic(at));
            None
        }
    }
}

// The one argument of a call at a place.
#[cycle(value)]
fn argument<N: Meanings>(
    arguments: &Vec<Expression>,
    at: usize,
    is_evaluated: bool,
    names: &N,
    faults: &mut Faults,
) -> Option<Number>
    ensures value { result ≡ number_in Integer
        (argument_of (N.means names.now) is_evaluated (expressions_of (expressions_view arguments.now.items))) }
    ensures told { faults.new ≡ told_unless result faults.old }
{
    match arguments.as_slice() {
        [] => {
            faults.tell(TypeFault::Mismatch(at));
            None
        }
        [one, others @ ..] => match others {
            [] => operand(ValueType::Integer, one, is_evaluated, names, faults),
            [_other, _more @ ..] => {
                faults.tell(TypeFault::Mismatch(at));
                None
            }
        },
    }
}

#[cycle(value)]
fn highest<N: Meanings>(
    operator: HighestOperator,
    e: &Expression,
    is_evaluated: bool,
    at: usize,
    names: &N,
    faults: &mut Faults,
) -> Option<Static>
    ensures value { result ≡ highest_of operator (static_of (N.means names.now) is_evaluated (expression_view e.now)) }
    ensures told { faults.new ≡ told_unless result faults.old }
{
    match operator {
        HighestOperator::Abs => {
            let number = operand(ValueType::Integer, e, is_evaluated, names, faults)?;
            let number = absolute(number, at, faults)?;
            Some(integer(number))
        }
        HighestOperator::Not => {
            let number = operand(ValueType::Boolean, e, is_evaluated, names, faults)?;
            Some(boolean(negated(number)))
        }
    }
}

// The left operand of a relation.
#[cycle(value)]
fn compared<N: Meanings>(
    e: &Expression,
    is_evaluated: bool,
    names: &N,
    faults: &mut Faults,
) -> Option<Static>
    ensures value { result ≡ comparable (static_of (N.means names.now) is_evaluated (expression_view e.now)) }
    ensures told { faults.new ≡ told_unless result faults.old }
{
    let found = value(e, is_evaluated, names, faults)?;
    if is_discrete(found.of) {
        return Some(found);
    }
    faults.tell(TypeFault::Mismatch(e.place()));
    None
}

// What factors make of the product of those before them.
#[cycle(value)]
fn factors<N: Meanings>(
    left: Number,
    more: &Vec<Factor>,
    at: usize,
    is_evaluated: bool,
    names: &N,
    faults: &mut Faults,
) -> Option<Number>
    ensures value { result ≡ product_of (N.means names.now) is_evaluated left (factors_of (factors_view more.now.items)) }
    ensures told { faults.new ≡ told_unless result faults.old }
{
    let mut total = left;
    for factor in more {
        let e = &factor.operand;
        let right = operand(ValueType::Integer, e, is_evaluated, names, faults)?;
        total = multiplied(factor.operator, total, right, at, faults)?;
    }
    Some(total)
}

// What terms make of the sum of those before them.
#[cycle(value)]
fn terms<N: Meanings>(
    left: Number,
    more: &Vec<Term>,
    at: usize,
    is_evaluated: bool,
    names: &N,
    faults: &mut Faults,
) -> Option<Number>
    ensures value { result ≡ sum_of (N.means names.now) is_evaluated left (terms_of (terms_view more.now.items)) }
    ensures told { faults.new ≡ told_unless result faults.old }
{
    let mut total = left;
    for term in more {
        let e = &term.operand;
        let right = operand(ValueType::Integer, e, is_evaluated, names, faults)?;
        total = added(term.operator, total, right, at, faults)?;
    }
    Some(total)
}

// What relations that one operator joins make of those before them.
#[cycle(value)]
fn logic<N: Meanings>(
    operator: LogicalOperator,
    left: Number,
    more: &Vec<Expression>,
    is_evaluated: bool,
    names: &N,
    faults: &mut Faults,
) -> Option<Number>
    ensures value { result ≡ logic_of (N.means names.now) is_evaluated operator left (expressions_of (expressions_view more.now.items)) }
    ensures told { faults.new ≡ told_unless result faults.old }
{
    let mut total = left;
    for e in more {
        let is_asked = is_evaluated && !decides(operator, total);
        let right = operand(ValueType::Boolean, e, is_asked, names, faults)?;
        total = joined(operator, total, right);
    }
    Some(total)
}
