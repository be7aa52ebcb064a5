//! Violations in expressions.

ghost use Rattle.std.specs.Prelude.{◌≡◌};
ghost use Rattle.rv_tree.specs.Expressions as tree;
ghost use Rattle.rv_tree.specs.NameView.{name_view, identifier_view};
ghost use Rattle.rv_tree.specs.Expressions.{expressions_of, factors_of, terms_of};
ghost use Rattle.rv_tree.specs.ExpressionView.{expression_view, expressions_view, factors_view, terms_view, range_view};
ghost use Rattle.rv_restrict.specs.Found.{earlier};
ghost use Rattle.rv_restrict.specs.ExpressionWalk.{attribute_noted, expression_noted, expressions_noted, factors_noted, terms_noted, range_noted};

use crate::first::{First, Judged};
use crate::violation::Restriction;
use rv_text::is_same_name;
use rv_tree::{Expression, Factor, Identifier, Name, RangeConstraint, Term};

fn attribute(prefix: &Name, attribute: &Identifier, first: &mut First)
    ensures { first.new ≡ attribute_noted earlier (name_view prefix.now) (identifier_view attribute.now) first.old }
{
    if is_same_name(attribute.text.as_str(), "Priority") {
        first.note(Restriction::NoDynamicPriorities, prefix.first.at);
    }
}

#[cycle(expression)]
fn expression(e: &Expression, first: &mut First)
    ensures { first.new ≡ expression_noted earlier (expression_view e.now) first.old }
{
    match e {
        Expression::Literal(_, _) => {}
        Expression::Name(_) => {}
        Expression::Attribute(prefix, name) => attribute(prefix, name, first),
        Expression::Call(_, arguments) => expressions(arguments, first),
        Expression::Parenthesized(_, inner) => expression(inner, first),
        Expression::Highest(_, _, operand) => expression(operand, first),
        Expression::Product(operand, more) => {
            expression(operand, first);
            factors(more, first);
        }
        Expression::Signed(_, _, term) => expression(term, first),
        Expression::Sum(operand, more) => {
            expression(operand, first);
            terms(more, first);
        }
        Expression::Relation(left, _, right) => {
            expression(left, first);
            expression(right, first);
        }
        Expression::Logical(_, operand, more) => {
            expression(operand, first);
            expressions(more, first);
        }
    }
}

#[cycle(expression)]
pub(crate) fn expressions(es: &Vec<Expression>, first: &mut First)
    ensures { first.new ≡ expressions_noted earlier (expressions_of (expressions_view es.now.items)) first.old }
{
    for e in es {
        expression(e, first);
    }
}

#[cycle(expression)]
fn factors(more: &Vec<Factor>, first: &mut First)
    ensures { first.new ≡ factors_noted earlier (factors_of (factors_view more.now.items)) first.old }
{
    for factor in more {
        expression(&factor.operand, first);
    }
}

#[cycle(expression)]
fn terms(more: &Vec<Term>, first: &mut First)
    ensures { first.new ≡ terms_noted earlier (terms_of (terms_view more.now.items)) first.old }
{
    for term in more {
        expression(&term.operand, first);
    }
}

impl Judged for Expression {
    ghost Tree = { tree.Expression };

    ghost view = { expression_view };

    ghost noted = { expression_noted earlier };

    fn judge(&self, first: &mut First) {
        expression(self, first);
    }
}

impl Judged for RangeConstraint {
    ghost Tree = { tree.RangeConstraint };

    ghost view = { range_view };

    ghost noted = { range_noted earlier };

    fn judge(&self, first: &mut First) {
        self.low.judge(first);
        self.high.judge(first);
    }
}
