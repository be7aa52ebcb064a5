//! Calls in statements (5, 6.4).

ghost use Rattle.std.specs.Prelude.{◌≡◌, ◌&&◌};
ghost use Rattle.rv_code.specs.ExpressionView.{expression_view};
ghost use Rattle.rv_code.specs.StatementView.{statement_view, statements_view, branch_view, branches_view, alternatives_view};
ghost use Rattle.rv_fits.specs.Calls.{expression_calls, statement_calls, statements_call, branches_call, alternatives_call};
ghost use Rattle.rv_fits.specs.Passing.{passes};

use crate::expression::{expression_fits, expressions_fit};
use crate::passing::{Test, passes};
use rv_code::{Alternative, Branch, Expression, Statement};

// The calls of a loop's bounds (5.5).
fn bounds_fit(low: &Expression, high: &Expression, test: &Test<'_>) -> bool
    ensures { result ≡ (expression_calls (passes test.now) (expression_view low.now)
        && expression_calls (passes test.now) (expression_view high.now)) }
{
    expression_fits(low, test) && expression_fits(high, test)
}

#[cycle(statement)]
fn statement_fits(s: &Statement, test: &Test<'_>) -> bool
    ensures { result ≡ statement_calls (passes test.now) (statement_view s.now) }
{
    match s {
        Statement::Null => true,
        Statement::Assign(_, e) => expression_fits(e, test),
        Statement::If(branches, otherwise) => {
            branches_fit(branches, test) && statements_fit(otherwise, test)
        }
        Statement::Case(selector, alternatives) => {
            expression_fits(selector, test) && alternatives_fit(alternatives, test)
        }
        Statement::While(condition, statements) => {
            expression_fits(condition, test) && statements_fit(statements, test)
        }
        Statement::For {
            parameter: _,
            is_reverse: _,
            range: _,
            low,
            high,
            statements,
        } => { bounds_fit(low, high, test) && statements_fit(statements, test) }
        Statement::ExitWhen(condition) => expression_fits(condition, test),
        Statement::Return => true,
        Statement::ReturnValue(e) => expression_fits(e, test),
        Statement::Raise(_) => true,
        Statement::Reraise => true,
        Statement::Call(callee, given, _) => {
            passes(callee, test) && expressions_fit(given, test)
        }
    }
}

/// Whether the calls of statements fit.
#[cycle(statement)]
pub(crate) fn statements_fit(statements: &Vec<Statement>, test: &Test<'_>) -> bool
    ensures { result ≡ statements_call (passes test.now) (statements_view statements.now.items) }
{
    for s in statements {
        if !statement_fits(s, test) {
            return false;
        }
    }
    true
}

#[cycle(statement)]
#[tactic(auto, using(crate::proofs::Parts::branch_calls))]
fn branch_fits(branch: &Branch, test: &Test<'_>) -> bool
    ensures { result ≡ (expression_calls (passes test.now) (branch_view branch.now).condition
        && statements_call (passes test.now) (branch_view branch.now).statements) }
{
    expression_fits(&branch.condition, test) && statements_fit(&branch.statements, test)
}

#[cycle(statement)]
fn branches_fit(branches: &Vec<Branch>, test: &Test<'_>) -> bool
    ensures { result ≡ branches_call (passes test.now) (branches_view branches.now.items) }
{
    for branch in branches {
        if !branch_fits(branch, test) {
            return false;
        }
    }
    true
}

#[cycle(statement)]
fn alternatives_fit(alternatives: &Vec<Alternative>, test: &Test<'_>) -> bool
    ensures { result ≡ alternatives_call (passes test.now) (alternatives_view alternatives.now.items) }
{
    for alternative in alternatives {
        if !statements_fit(&alternative.statements, test) {
            return false;
        }
    }
    true
}
