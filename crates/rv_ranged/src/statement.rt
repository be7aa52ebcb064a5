//! Values in statements (5, 6.4, 6.5).

ghost use Rattle.std.specs.Prelude.{◌≡◌, ◌&&◌, nat_le, length};
ghost use Rattle.std.specs.List.{list_all};
ghost use Rattle.rv_code.specs.ExpressionView.{expression_view, expressions_view};
ghost use Rattle.rv_code.specs.StatementView.{statement_view, statements_view, branch_view, branches_view, alternatives_view};
ghost use Rattle.rv_ranged.specs.Ranged.{expression_ranged, expressions_ranged, result_given, statement_ranged, statements_ranged, suit, target_keeps, branches_ranged, alternatives_ranged};

use crate::arguments::suit;
use crate::expression::{expression_ranged, expressions_ranged};
use crate::stand::Stand;
use crate::target::{result_given, target_keeps, targets_keep};
use crate::units::Units;
use rv_code::{Alternative, Branch, Callee, Expression, Statement, Target};

// An assignment (5.2).
fn assignment_ranged(target: &Target, e: &Expression, units: &Units<'_>, stand: &Stand<'_>) -> bool
    ensures { result ≡ (target_keeps stand.now target.now && expression_ranged units.now stand.now (expression_view e.now)) }
{
    target_keeps(target, stand) && expression_ranged(e, units, stand)
}

// A returned value (6.5).
fn return_ranged(e: &Expression, units: &Units<'_>, stand: &Stand<'_>) -> bool
    ensures { result ≡ (result_given stand.now.result (expression_view e.now) && expression_ranged units.now stand.now (expression_view e.now)) }
{
    result_given(e, stand) && expression_ranged(e, units, stand)
}

// A call as a statement (6.4.1).
fn call_ranged(
    callee: &Callee,
    given: &Vec<Expression>,
    targets: &Vec<Target>,
    units: &Units<'_>,
    stand: &Stand<'_>,
) -> bool
    ensures { result ≡ (suit units.now stand.now.operations callee.now (expressions_view given.now.items)
        && (expressions_ranged units.now stand.now (expressions_view given.now.items) && list_all (target_keeps stand.now) targets.now.items)) }
{
    suit(callee, given, units, stand)
        && (expressions_ranged(given, units, stand) && targets_keep(targets, stand))
}

// Whether a loop parameter is no parameter of the body.
fn is_apart(slot: usize, stand: &Stand<'_>) -> bool
    ensures { result ≡ nat_le (length stand.now.parameters) slot }
{
    stand.parameters.len() <= slot
}

#[cycle(statement)]
fn statement_ranged(s: &Statement, units: &Units<'_>, stand: &Stand<'_>) -> bool
    ensures { result ≡ statement_ranged units.now stand.now (statement_view s.now) }
{
    match s {
        Statement::Null => true,
        Statement::Assign(target, e) => assignment_ranged(target, e, units, stand),
        Statement::If(branches, otherwise) => {
            branches_ranged(branches, units, stand) && statements_ranged(otherwise, units, stand)
        }
        Statement::Case(selector, alternatives) => {
            expression_ranged(selector, units, stand)
                && alternatives_ranged(alternatives, units, stand)
        }
        Statement::While(condition, statements) => {
            expression_ranged(condition, units, stand)
                && statements_ranged(statements, units, stand)
        }
        Statement::For {
            parameter,
            is_reverse: _,
            range: _,
            low,
            high,
            statements,
        } => {
            is_apart(*parameter, stand)
                && (expression_ranged(low, units, stand)
                    && (expression_ranged(high, units, stand)
                        && statements_ranged(statements, units, stand)))
        }
        Statement::ExitWhen(condition) => expression_ranged(condition, units, stand),
        Statement::Return => true,
        Statement::ReturnValue(e) => return_ranged(e, units, stand),
        Statement::Raise(_) => true,
        Statement::Reraise => true,
        Statement::Call(callee, given, targets) => {
            call_ranged(callee, given, targets, units, stand)
        }
    }
}

/// Whether the values of statements lie in their ranges.
#[cycle(statement)]
pub(crate) fn statements_ranged(
    statements: &Vec<Statement>,
    units: &Units<'_>,
    stand: &Stand<'_>,
) -> bool
    ensures { result ≡ statements_ranged units.now stand.now (statements_view statements.now.items) }
{
    for s in statements {
        if !statement_ranged(s, units, stand) {
            return false;
        }
    }
    true
}

#[cycle(statement)]
#[tactic(auto, using(crate::proofs::Parts::branch_ranged))]
fn branch_ranged(branch: &Branch, units: &Units<'_>, stand: &Stand<'_>) -> bool
    ensures { result ≡ (expression_ranged units.now stand.now (branch_view branch.now).condition
        && statements_ranged units.now stand.now (branch_view branch.now).statements) }
{
    expression_ranged(&branch.condition, units, stand)
        && statements_ranged(&branch.statements, units, stand)
}

#[cycle(statement)]
fn branches_ranged(branches: &Vec<Branch>, units: &Units<'_>, stand: &Stand<'_>) -> bool
    ensures { result ≡ branches_ranged units.now stand.now (branches_view branches.now.items) }
{
    for branch in branches {
        if !branch_ranged(branch, units, stand) {
            return false;
        }
    }
    true
}

#[cycle(statement)]
fn alternatives_ranged(
    alternatives: &Vec<Alternative>,
    units: &Units<'_>,
    stand: &Stand<'_>,
) -> bool
    ensures { result ≡ alternatives_ranged units.now stand.now (alternatives_view alternatives.now.items) }
{
    for alternative in alternatives {
        if !statements_ranged(&alternative.statements, units, stand) {
            return false;
        }
    }
    true
}
