//! Calls in statements (5, 6.4).

ghost use Rattle.std.specs.Prelude.{◌≡◌, ◌++◌, OnOk};
ghost use Rattle.rv_code.specs.ExpressionView.{expression_view};
ghost use Rattle.rv_code.specs.StatementView.{alternative_view, alternatives_view, branch_view, branches_view, statement_view, statements_view};
ghost use Rattle.rv_never.specs.Written.{of_alternatives, of_branches, of_expression, of_statement, of_statements};

use crate::calls::Called;
use crate::expressions::{add_callee, add_expression, add_expressions};
use rv_code::{Alternative, Branch, Expression, Statement};
use std::alloc::AllocError;

// Adds the operations that the bounds of a loop call (5.5).
#[tactic(auto, using(crate::proofs::Joined::joined))]
fn add_bounds(
    calls: &mut Vec<Called>,
    low: &Expression,
    high: &Expression,
) -> Result<(), AllocError>
    ensures { OnOk result (calls.new.items
        ≡ calls.old.items ++ (of_expression (expression_view low.now) ++ of_expression (expression_view high.now))) }
{
    add_expression(calls, low)?;
    add_expression(calls, high)
}

/// Adds the operations that a statement calls, in the order of the text. Err where memory was refused.
#[cycle(statement)]
#[tactic(auto, using(crate::proofs::Joined::joined))]
fn add_statement(calls: &mut Vec<Called>, s: &Statement) -> Result<(), AllocError>
    ensures { OnOk result (calls.new.items ≡ calls.old.items ++ of_statement (statement_view s.now)) }
{
    match s {
        Statement::Null => Ok(()),
        Statement::Assign(_, e) => add_expression(calls, e),
        Statement::If(branches, otherwise) => {
            add_branches(calls, branches)?;
            add_statements(calls, otherwise)
        }
        Statement::Case(selector, alternatives) => {
            add_expression(calls, selector)?;
            add_alternatives(calls, alternatives)
        }
        Statement::While(condition, statements) => {
            add_expression(calls, condition)?;
            add_statements(calls, statements)
        }
        Statement::For {
            parameter: _,
            is_reverse: _,
            range: _,
            low,
            high,
            statements,
        } => {
            add_bounds(calls, low, high)?;
            add_statements(calls, statements)
        }
        Statement::ExitWhen(condition) => add_expression(calls, condition),
        Statement::Return => Ok(()),
        Statement::ReturnValue(e) => add_expression(calls, e),
        Statement::Raise(_) => Ok(()),
        Statement::Reraise => Ok(()),
        Statement::Call(callee, given, _) => {
            add_callee(calls, callee)?;
            add_expressions(calls, given)
        }
    }
}

/// The same of statements.
#[cycle(statement)]
#[tactic(auto, using(crate::proofs::Joined::joined))]
pub(crate) fn add_statements(
    calls: &mut Vec<Called>,
    statements: &Vec<Statement>,
) -> Result<(), AllocError>
    ensures { OnOk result (calls.new.items ≡ calls.old.items ++ of_statements (statements_view statements.now.items)) }
{
    for s in statements {
        add_statement(calls, s)?;
    }
    Ok(())
}

#[cycle(statement)]
#[tactic(auto, using(crate::proofs::Joined::branch_calls))]
fn add_branch(calls: &mut Vec<Called>, branch: &Branch) -> Result<(), AllocError>
    ensures { OnOk result (calls.new.items ≡ calls.old.items ++ (of_expression (branch_view branch.now).condition
        ++ of_statements (branch_view branch.now).statements)) }
{
    add_expression(calls, &branch.condition)?;
    add_statements(calls, &branch.statements)
}

#[cycle(statement)]
#[tactic(auto, using(crate::proofs::Joined::joined))]
fn add_branches(calls: &mut Vec<Called>, branches: &Vec<Branch>) -> Result<(), AllocError>
    ensures { OnOk result (calls.new.items ≡ calls.old.items ++ of_branches (branches_view branches.now.items)) }
{
    for branch in branches {
        add_branch(calls, branch)?;
    }
    Ok(())
}

#[cycle(statement)]
#[tactic(auto, using(crate::proofs::Joined::joined))]
fn add_alternatives(
    calls: &mut Vec<Called>,
    alternatives: &Vec<Alternative>,
) -> Result<(), AllocError>
    ensures { OnOk result (calls.new.items ≡ calls.old.items ++ of_alternatives (alternatives_view alternatives.now.items)) }
{
    for alternative in alternatives {
        add_statements(calls, &alternative.statements)?;
    }
    Ok(())
}
