//! Prints expressions.

ghost use Rattle.std.specs.Prelude.{◌≡◌, OnOk};
ghost use Rattle.rv_tree.specs.Expressions.{expressions_of, factors_of, terms_of};
ghost use Rattle.rv_tree.specs.ExpressionGrammar.{relational, adding, multiplying, highest_word};
ghost use Rattle.rv_tree.specs.ExpressionView.{expression_view, expressions_view, factors_view, terms_view};
ghost use Rattle.rv_tree.specs.NameView.{identifier_view, name_view};
ghost use Rattle.rv_tree.specs.NamePrint.{identifier_onto, name_onto};
ghost use Rattle.rv_tree.specs.Onto.{kind_onto};
ghost use Rattle.rv_lex.specs.declared.kind.Kind.TheVariants as k;
ghost use Rattle.rv_tree.specs.ExpressionPrint.{expression_onto, arguments_onto, factors_onto, terms_onto, relations_onto, logical_onto};

use crate::expression::{
    AddingOperator, Expression, Factor, HighestOperator, LogicalOperator, MultiplyingOperator,
    RangeConstraint, RelationalOperator, Term,
};
use crate::name::{Identifier, Name};
use crate::printer::{Printed, Printer};
use rv_lex::kind::Kind;
use std::alloc::AllocError;

fn relational_kind(operator: RelationalOperator) -> Kind
    ensures { result ≡ relational operator }
{
    match operator {
        RelationalOperator::Equal => Kind::Equal,
        RelationalOperator::NotEqual => Kind::NotEqual,
        RelationalOperator::Less => Kind::Less,
        RelationalOperator::LessEqual => Kind::LessEqual,
        RelationalOperator::Greater => Kind::Greater,
        RelationalOperator::GreaterEqual => Kind::GreaterEqual,
    }
}

fn adding_kind(operator: AddingOperator) -> Kind
    ensures { result ≡ adding operator }
{
    match operator {
        AddingOperator::Plus => Kind::Plus,
        AddingOperator::Minus => Kind::Minus,
    }
}

fn multiplying_kind(operator: MultiplyingOperator) -> Kind
    ensures { result ≡ multiplying operator }
{
    match operator {
        MultiplyingOperator::Times => Kind::Times,
        MultiplyingOperator::Divide => Kind::Divide,
        MultiplyingOperator::Mod => Kind::Mod,
        MultiplyingOperator::Rem => Kind::Rem,
    }
}

fn highest_kind(operator: HighestOperator) -> Kind
    ensures { result ≡ highest_word operator }
{
    match operator {
        HighestOperator::Abs => Kind::Abs,
        HighestOperator::Not => Kind::Not,
    }
}

fn print_logical(operator: LogicalOperator, out: &mut Printer) -> Result<(), AllocError>
    ensures { OnOk result (out.new ≡ logical_onto operator out.old) }
{
    match operator {
        LogicalOperator::And => out.kind(Kind::And),
        LogicalOperator::Or => out.kind(Kind::Or),
        LogicalOperator::Xor => out.kind(Kind::Xor),
        LogicalOperator::AndThen => {
            out.kind(Kind::And)?;
            out.kind(Kind::Then)
        }
        LogicalOperator::OrElse => {
            out.kind(Kind::Or)?;
            out.kind(Kind::Else)
        }
    }
}

fn print_attribute(
    prefix: &Name,
    attribute: &Identifier,
    out: &mut Printer,
) -> Result<(), AllocError>
    ensures { OnOk result
        (out.new ≡ identifier_onto (identifier_view attribute.now) (kind_onto k.Apostrophe (name_onto (name_view prefix.now) out.old))) }
{
    prefix.print(out)?;
    out.kind(Kind::Apostrophe)?;
    attribute.print(out)
}

// An expression behind a word.
#[cycle(print_expression)]
fn print_after(before: Kind, e: &Expression, out: &mut Printer) -> Result<(), AllocError>
    ensures { OnOk result (out.new ≡ expression_onto (expression_view e.now) (kind_onto before out.old)) }
{
    out.kind(before)?;
    print_expression(e, out)
}

#[cycle(print_expression)]
pub(crate) fn print_expression(e: &Expression, out: &mut Printer) -> Result<(), AllocError>
    ensures { OnOk result (out.new ≡ expression_onto (expression_view e.now) out.old) }
{
    match e {
        Expression::Literal(_, value) => out.number(*value),
        Expression::Name(name) => name.print(out),
        Expression::Attribute(prefix, attribute) => print_attribute(prefix, attribute, out),
        Expression::Call(name, arguments) => {
            name.print(out)?;
            print_arguments(arguments, out)
        }
        Expression::Parenthesized(_, inner) => {
            print_after(Kind::LeftParenthesis, inner, out)?;
            out.kind(Kind::RightParenthesis)
        }
        Expression::Highest(_, operator, operand) => {
            print_after(highest_kind(*operator), operand, out)
        }
        Expression::Product(first, factors) => {
            print_expression(first, out)?;
            print_factors(factors, out)
        }
        Expression::Signed(_, sign, term) => print_after(adding_kind(*sign), term, out),
        Expression::Sum(first, terms) => {
            print_expression(first, out)?;
            print_terms(terms, out)
        }
        Expression::Relation(left, operator, right) => {
            print_expression(left, out)?;
            print_after(relational_kind(*operator), right, out)
        }
        Expression::Logical(operator, first, more) => {
            print_expression(first, out)?;
            print_relations(*operator, more, out)
        }
    }
}

#[cycle(print_expression)]
pub(crate) fn print_arguments(es: &Vec<Expression>, out: &mut Printer) -> Result<(), AllocError>
    ensures { OnOk result
        (out.new ≡ arguments_onto (expressions_of (expressions_view es.now.items)) out.old) }
{
    match es.as_slice() {
        [] => Ok(()),
        [first, more @ ..] => {
            print_after(Kind::LeftParenthesis, first, out)?;
            for e in more {
                print_after(Kind::Comma, e, out)?;
            }
            out.kind(Kind::RightParenthesis)
        }
    }
}

#[cycle(print_expression)]
fn print_factors(factors: &Vec<Factor>, out: &mut Printer) -> Result<(), AllocError>
    ensures { OnOk result
        (out.new ≡ factors_onto (factors_of (factors_view factors.now.items)) out.old) }
{
    for factor in factors {
        print_after(multiplying_kind(factor.operator), &factor.operand, out)?;
    }
    Ok(())
}

#[cycle(print_expression)]
fn print_terms(terms: &Vec<Term>, out: &mut Printer) -> Result<(), AllocError>
    ensures { OnOk result (out.new ≡ terms_onto (terms_of (terms_view terms.now.items)) out.old) }
{
    for term in terms {
        print_after(adding_kind(term.operator), &term.operand, out)?;
    }
    Ok(())
}

#[cycle(print_expression)]
fn print_relations(
    operator: LogicalOperator,
    es: &Vec<Expression>,
    out: &mut Printer,
) -> Result<(), AllocError>
    ensures { OnOk result
        (out.new ≡ relations_onto operator (expressions_of (expressions_view es.now.items)) out.old) }
{
    for e in es {
        print_logical(operator, out)?;
        print_expression(e, out)?;
    }
    Ok(())
}

impl Printed for Expression {
    ghost use Rattle.rv_tree.specs.Expressions as tree;
    ghost use Rattle.rv_tree.specs.ExpressionView.{expression_view};
    ghost use Rattle.rv_tree.specs.NameView.{identifier_view, name_view};
    ghost use Rattle.rv_tree.specs.NamePrint.{identifier_onto, name_onto};
    ghost use Rattle.rv_tree.specs.Onto.{kind_onto};
    ghost use Rattle.rv_lex.specs.declared.kind.Kind.TheVariants as k;
    ghost use Rattle.rv_tree.specs.ExpressionPrint.{expression_onto};

    ghost Tree = { tree.Expression };

    ghost view = { expression_view };

    ghost onto = { expression_onto };

    fn print(&self, out: &mut Printer) -> Result<(), AllocError> {
        print_expression(self, out)
    }
}

impl Printed for RangeConstraint {
    ghost use Rattle.rv_tree.specs.Expressions as tree;
    ghost use Rattle.rv_tree.specs.ExpressionView.{range_view};
    ghost use Rattle.rv_tree.specs.NameView.{identifier_view, name_view};
    ghost use Rattle.rv_tree.specs.NamePrint.{identifier_onto, name_onto};
    ghost use Rattle.rv_tree.specs.Onto.{kind_onto};
    ghost use Rattle.rv_lex.specs.declared.kind.Kind.TheVariants as k;
    ghost use Rattle.rv_tree.specs.ExpressionPrint.{range_onto};

    ghost Tree = { tree.RangeConstraint };

    ghost view = { range_view };

    ghost onto = { range_onto };

    fn print(&self, out: &mut Printer) -> Result<(), AllocError> {
        out.kind(Kind::Range)?;
        print_expression(&self.low, out)?;
        out.kind(Kind::DoubleDot)?;
        print_expression(&self.high, out)
    }
}
