//! Expressions, put into a table.

ghost use Rattle.std.specs.Prelude.{◌≡◌, IfOk};
ghost use Rattle.rv_code.specs.ExpressionView.{expression_view, expressions_view, links_view};
ghost use Rattle.rv_flat.specs.Tables.{trees};
ghost use Rattle.rv_flat.specs.Trees.{Stands, as_expression, as_expressions, as_links};

use crate::code::{Code, Kind};
use rv_code::{Expression, Link};
use std::alloc::AllocError;

/// Adds an expression, and gives its number. Err where memory was refused.
#[cycle(expression)]
pub(crate) fn add_expression(code: &mut Code, expression: &Expression) -> Result<usize, AllocError>
    ensures { IfOk result (λ n. Stands as_expression (trees code.old) (trees code.new) n (expression_view expression.now)) }
{
    match expression {
        Expression::Value(value) => Ok(code.leaf(Kind::Value(*value))?),
        Expression::Variable(slot) => Ok(code.leaf(Kind::Variable(*slot))?),
        Expression::Component(index) => Ok(code.leaf(Kind::Component(*index))?),
        Expression::Prefixed(operator, operand) => {
            let first = add_expression(code, operand)?;
            Ok(code.one(Kind::Prefixed(*operator), first)?)
        }
        Expression::Chain(operand, links) => {
            let first = add_expression(code, operand)?;
            let second = add_links(code, links)?;
            Ok(code.two(Kind::Chain, first, second)?)
        }
        Expression::Within(range, operand) => {
            let first = add_expression(code, operand)?;
            Ok(code.one(Kind::Within(*range), first)?)
        }
        Expression::Call(callee, given) => {
            let first = add_expressions(code, given)?;
            Ok(code.one(Kind::Call(*callee), first)?)
        }
    }
}

/// Adds the expressions of a list.
#[cycle(expression)]
pub(crate) fn add_expressions(
    code: &mut Code,
    expressions: &Vec<Expression>,
) -> Result<usize, AllocError>
    ensures { IfOk result (λ n. Stands as_expressions (trees code.old) (trees code.new) n (expressions_view expressions.now.items)) }
{
    let mut rest: usize = 0;
    let mut left = expressions.len();
    while left > 0 {
        left -= 1;
        let first = add_expression(code, &expressions[left])?;
        rest = code.two(Kind::Expressions, first, rest)?;
    }
    Ok(rest)
}

/// Adds links.
#[cycle(expression)]
pub(crate) fn add_links(code: &mut Code, links: &Vec<Link>) -> Result<usize, AllocError>
    ensures { IfOk result (λ n. Stands as_links (trees code.old) (trees code.new) n (links_view links.now.items)) }
{
    let mut rest: usize = 0;
    let mut left = links.len();
    while left > 0 {
        left -= 1;
        let link = &links[left];
        let first = add_expression(code, &link.operand)?;
        rest = code.two(Kind::Links(link.operator), first, rest)?;
    }
    Ok(rest)
}
