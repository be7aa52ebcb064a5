//! Calls in expressions (6.4).

ghost use Rattle.std.specs.Prelude.{◌≡◌};
ghost use Rattle.rv_code.specs.ExpressionView.{expression_view, expressions_view, link_view, links_view};
ghost use Rattle.rv_ranged.specs.Ranged.{expression_ranged, expressions_ranged, links_ranged};

use crate::arguments::suit;
use crate::stand::Stand;
use crate::units::Units;
use rv_code::{Expression, Link};

/// Whether each call in an expression is given values of the ranges that it wants.
#[cycle(expression)]
pub(crate) fn expression_ranged(e: &Expression, units: &Units<'_>, stand: &Stand<'_>) -> bool
    ensures { result ≡ expression_ranged units.now stand.now (expression_view e.now) }
{
    match e {
        Expression::Value(_) => true,
        Expression::Variable(_) => true,
        Expression::Component(_) => true,
        Expression::Prefixed(_, operand) => expression_ranged(operand, units, stand),
        Expression::Chain(first, links) => {
            expression_ranged(first, units, stand) && links_ranged(links, units, stand)
        }
        Expression::Within(_, operand) => expression_ranged(operand, units, stand),
        Expression::Call(callee, given) => {
            suit(callee, given, units, stand) && expressions_ranged(given, units, stand)
        }
    }
}

/// The same of arguments.
#[cycle(expression)]
pub(crate) fn expressions_ranged(es: &Vec<Expression>, units: &Units<'_>, stand: &Stand<'_>) -> bool
    ensures { result ≡ expressions_ranged units.now stand.now (expressions_view es.now.items) }
{
    for e in es {
        if !expression_ranged(e, units, stand) {
            return false;
        }
    }
    true
}

#[cycle(expression)]
#[tactic(auto, using(crate::proofs::Parts::link_ranged))]
fn link_ranged(link: &Link, units: &Units<'_>, stand: &Stand<'_>) -> bool
    ensures { result ≡ expression_ranged units.now stand.now (link_view link.now).operand }
{
    expression_ranged(&link.operand, units, stand)
}

#[cycle(expression)]
fn links_ranged(links: &Vec<Link>, units: &Units<'_>, stand: &Stand<'_>) -> bool
    ensures { result ≡ links_ranged units.now stand.now (links_view links.now.items) }
{
    for link in links {
        if !link_ranged(link, units, stand) {
            return false;
        }
    }
    true
}
