//! Calls in expressions (6.4).

ghost use Rattle.std.specs.Prelude.{◌≡◌};
ghost use Rattle.rv_code.specs.ExpressionView.{expression_view, expressions_view, link_view, links_view};
ghost use Rattle.rv_fits.specs.Calls.{expression_calls, expressions_call, links_call};
ghost use Rattle.rv_fits.specs.Passing.{passes};

use crate::passing::{Test, passes};
use rv_code::{Expression, Link};

/// Whether the calls of an expression fit.
#[cycle(expression)]
pub(crate) fn expression_fits(e: &Expression, test: &Test<'_>) -> bool
    ensures { result ≡ expression_calls (passes test.now) (expression_view e.now) }
{
    match e {
        Expression::Value(_) => true,
        Expression::Variable(_) => true,
        Expression::Component(_) => true,
        Expression::Prefixed(_, operand) => expression_fits(operand, test),
        Expression::Chain(first, links) => {
            expression_fits(first, test) && links_fit(links, test)
        }
        Expression::Within(_, operand) => expression_fits(operand, test),
        Expression::Call(callee, given) => { passes(callee, test) && expressions_fit(given, test) }
    }
}

/// Whether the calls of arguments fit.
#[cycle(expression)]
pub(crate) fn expressions_fit(es: &Vec<Expression>, test: &Test<'_>) -> bool
    ensures { result ≡ expressions_call (passes test.now) (expressions_view es.now.items) }
{
    for e in es {
        if !expression_fits(e, test) {
            return false;
        }
    }
    true
}

#[cycle(expression)]
#[tactic(auto, using(crate::proofs::Parts::link_calls))]
fn link_fits(link: &Link, test: &Test<'_>) -> bool
    ensures { result ≡ expression_calls (passes test.now) (link_view link.now).operand }
{
    expression_fits(&link.operand, test)
}

#[cycle(expression)]
fn links_fit(links: &Vec<Link>, test: &Test<'_>) -> bool
    ensures { result ≡ links_call (passes test.now) (links_view links.now.items) }
{
    for link in links {
        if !link_fits(link, test) {
            return false;
        }
    }
    true
}
