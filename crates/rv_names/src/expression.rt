//! The names that expressions use.

ghost use Rattle.std.specs.Prelude.{◌≡◌};
ghost use Rattle.rv_tree.specs.NameView.{name_view};
ghost use Rattle.rv_tree.specs.DeclarationView.{maybe};
ghost use Rattle.rv_tree.specs.Expressions.{expressions_of, factors_of, terms_of};
ghost use Rattle.rv_tree.specs.ExpressionView.{expression_view, expressions_view, factors_view, terms_view, range_view};
ghost use Rattle.rv_scope.specs.Bound.{judged};
ghost use Rattle.rv_scope.specs.ExpressionUses.{◌▷◌, refused, expression_uses, expressions_uses, factors_uses, terms_uses, value_uses, maybe_uses, range_uses};

use crate::fault::{Faults, NameFault};
use rv_scope::scope::Scope;
use rv_scope::wanted::Wanted;
use rv_tree::expression::{Expression, Factor, RangeConstraint, Term};
use rv_tree::name::Name;

/// A name where this is wanted.
#[tactic(auto, unfolding(rv_scope::specs::Bound::judged))]
pub(crate) fn name(name: &Name, wanted: Wanted, scope: &Scope, faults: &mut Faults)
    ensures { faults.new ≡ judged scope.now wanted (name_view name.now) faults.old }
{
    match scope.denoted(wanted, name) {
        Some(found) => {
            if !wanted.suits(found.sort()) {
                faults.tell_unbound(NameFault::WrongKind(name.first.at));
            }
        }
        None => {
            let fault = missing(name, wanted, scope, faults);
            faults.tell_unbound(fault);
        }
    }
}

// The fault of a name that denotes nothing here. It is only looked for where it could be the first.
fn missing(name: &Name, wanted: Wanted, scope: &Scope, faults: &Faults) -> NameFault {
    let at = name.first.at;
    if faults.matters(at) {
        faults.around.fault(scope, wanted, name)
    } else {
        NameFault::Unknown(at)
    }
}

/// A part at this place that the profile does not have.
#[tactic(auto, unfolding(rv_scope::specs::Bound::judged))]
pub(crate) fn refuse(at: usize, scope: &Scope, faults: &mut Faults)
    ensures { faults.new ≡ refused judged scope.now at faults.old }
{
    faults.tell_unbound(NameFault::WrongKind(at));
}

/// An expression, of which a name that is all of it may be wanted for something else than a value.
#[cycle(expression)]
pub(crate) fn expression(e: &Expression, wanted: Wanted, scope: &Scope, faults: &mut Faults)
    ensures { faults.new ≡ expression_uses judged scope.now wanted (expression_view e.now) faults.old }
{
    match e {
        Expression::Literal(_, _) => {}
        Expression::Name(used) => name(used, wanted, scope, faults),
        Expression::Attribute(prefix, attribute) => {
            name(prefix, Wanted::Subtype, scope, faults);
            faults.attribute(attribute);
        }
        Expression::Call(called, arguments) => {
            name(called, Wanted::Called, scope, faults);
            expressions(arguments, scope, faults);
        }
        Expression::Parenthesized(_, inner) => expression(inner, Wanted::Value, scope, faults),
        Expression::Highest(_, _, operand) => expression(operand, Wanted::Value, scope, faults),
        Expression::Product(operand, more) => {
            expression(operand, Wanted::Value, scope, faults);
            factors(more, scope, faults);
        }
        Expression::Signed(_, _, term) => expression(term, Wanted::Value, scope, faults),
        Expression::Sum(operand, more) => {
            expression(operand, Wanted::Value, scope, faults);
            terms(more, scope, faults);
        }
        Expression::Relation(left, _, right) => {
            expression(left, Wanted::Value, scope, faults);
            expression(right, Wanted::Value, scope, faults);
        }
        Expression::Logical(_, operand, more) => {
            expression(operand, Wanted::Value, scope, faults);
            expressions(more, scope, faults);
        }
    }
}

#[cycle(expression)]
pub(crate) fn expressions(es: &Vec<Expression>, scope: &Scope, faults: &mut Faults)
    ensures { faults.new
        ≡ expressions_uses judged scope.now (expressions_of (expressions_view es.now.items)) faults.old }
{
    for e in es {
        expression(e, Wanted::Value, scope, faults);
    }
}

#[cycle(expression)]
fn factors(more: &Vec<Factor>, scope: &Scope, faults: &mut Faults)
    ensures { faults.new
        ≡ factors_uses judged scope.now (factors_of (factors_view more.now.items)) faults.old }
{
    for factor in more {
        expression(&factor.operand, Wanted::Value, scope, faults);
    }
}

#[cycle(expression)]
fn terms(more: &Vec<Term>, scope: &Scope, faults: &mut Faults)
    ensures { faults.new
        ≡ terms_uses judged scope.now (terms_of (terms_view more.now.items)) faults.old }
{
    for term in more {
        expression(&term.operand, Wanted::Value, scope, faults);
    }
}

/// An expression that gives a value.
pub(crate) fn value(e: &Expression, scope: &Scope, faults: &mut Faults)
    ensures { faults.new ≡ value_uses judged scope.now (expression_view e.now) faults.old }
{
    expression(e, Wanted::Value, scope, faults);
}

/// An expression that may not be there.
pub(crate) fn maybe_value(e: &Option<Expression>, scope: &Scope, faults: &mut Faults)
    ensures { faults.new
        ≡ maybe_uses (value_uses judged scope.now) (maybe expression_view e.now) faults.old }
{
    match e {
        None => {}
        Some(e) => value(e, scope, faults),
    }
}

/// Two expressions that give values.
pub(crate) fn two_values(left: &Expression, right: &Expression, scope: &Scope, faults: &mut Faults)
    ensures { faults.new
        ≡ (value_uses judged scope.now (expression_view left.now) ▷ value_uses judged scope.now (expression_view right.now)) faults.old }
{
    value(left, scope, faults);
    value(right, scope, faults);
}

/// The two bounds of a range.
pub(crate) fn range(range: &RangeConstraint, scope: &Scope, faults: &mut Faults)
    ensures { faults.new ≡ range_uses judged scope.now (range_view range.now) faults.old }
{
    two_values(&range.low, &range.high, scope, faults);
}

/// A range that may not be there.
pub(crate) fn maybe_range(part: &Option<RangeConstraint>, scope: &Scope, faults: &mut Faults)
    ensures { faults.new
        ≡ maybe_uses (range_uses judged scope.now) (maybe range_view part.now) faults.old }
{
    match part {
        None => {}
        Some(part) => range(part, scope, faults),
    }
}

/// A name that may not be there.
pub(crate) fn maybe_name(used: &Option<Name>, wanted: Wanted, scope: &Scope, faults: &mut Faults)
    ensures { faults.new
        ≡ maybe_uses (judged scope.now wanted) (maybe name_view used.now) faults.old }
{
    match used {
        None => {}
        Some(used) => name(used, wanted, scope, faults),
    }
}
