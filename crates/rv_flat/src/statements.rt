//! Statements, put into a table.

ghost use Rattle.std.specs.Prelude.{◌≡◌, IfOk};
ghost use Rattle.rv_code.specs.StatementView.{statement_view, statements_view, branches_view, alternatives_view};
ghost use Rattle.rv_flat.specs.Tables.{trees};
ghost use Rattle.rv_flat.specs.Trees.{Stands, as_statement, as_statements, as_branches, as_alternatives, as_choices, as_targets};

use crate::code::{Code, Kind};
use crate::expressions::{add_expression, add_expressions};
use rv_code::{Alternative, Branch, Choice, Statement, Target};
use std::alloc::AllocError;

/// Adds choices.
fn add_choices(code: &mut Code, choices: &Vec<Choice>) -> Result<usize, AllocError>
    ensures { IfOk result (λ n. Stands as_choices (trees code.old) (trees code.new) n choices.now.items) }
{
    let mut rest: usize = 0;
    let mut left = choices.len();
    while left > 0 {
        left -= 1;
        rest = code.one(Kind::Choices(choices[left]), rest)?;
    }
    Ok(rest)
}

/// Adds targets.
fn add_targets(code: &mut Code, targets: &Vec<Target>) -> Result<usize, AllocError>
    ensures { IfOk result (λ n. Stands as_targets (trees code.old) (trees code.new) n targets.now.items) }
{
    let mut rest: usize = 0;
    let mut left = targets.len();
    while left > 0 {
        left -= 1;
        rest = code.one(Kind::Targets(targets[left]), rest)?;
    }
    Ok(rest)
}

/// Adds a statement, and gives its number. Err where memory was refused.
#[cycle(statement)]
pub(crate) fn add_statement(code: &mut Code, statement: &Statement) -> Result<usize, AllocError>
    ensures { IfOk result (λ n. Stands as_statement (trees code.old) (trees code.new) n (statement_view statement.now)) }
{
    match statement {
        Statement::Null => Ok(code.leaf(Kind::Null)?),
        Statement::Assign(target, value) => {
            let first = add_expression(code, value)?;
            Ok(code.one(Kind::Assign(*target), first)?)
        }
        Statement::If(branches, otherwise) => {
            let first = add_branches(code, branches)?;
            let second = add_statements(code, otherwise)?;
            Ok(code.two(Kind::If, first, second)?)
        }
        Statement::Case(selector, alternatives) => {
            let first = add_expression(code, selector)?;
            let second = add_alternatives(code, alternatives)?;
            Ok(code.two(Kind::Case, first, second)?)
        }
        Statement::While(condition, statements) => {
            let first = add_expression(code, condition)?;
            let second = add_statements(code, statements)?;
            Ok(code.two(Kind::While, first, second)?)
        }
        Statement::For {
            parameter,
            is_reverse,
            range,
            low,
            high,
            statements,
        } => {
            let first = add_expression(code, low)?;
            let second = add_expression(code, high)?;
            let third = add_statements(code, statements)?;
            Ok(code.three(
                Kind::For(*parameter, *is_reverse, *range),
                first,
                second,
                third,
            )?)
        }
        Statement::ExitWhen(condition) => {
            let first = add_expression(code, condition)?;
            Ok(code.one(Kind::ExitWhen, first)?)
        }
        Statement::Return => Ok(code.leaf(Kind::Return)?),
        Statement::ReturnValue(value) => {
            let first = add_expression(code, value)?;
            Ok(code.one(Kind::ReturnValue, first)?)
        }
        Statement::Raise(exception) => Ok(code.leaf(Kind::Raise(*exception))?),
        Statement::Reraise => Ok(code.leaf(Kind::Reraise)?),
        Statement::Call(callee, given, targets) => {
            let first = add_expressions(code, given)?;
            let second = add_targets(code, targets)?;
            Ok(code.two(Kind::CallStatement(*callee), first, second)?)
        }
    }
}

/// Adds the statements of a list.
#[cycle(statement)]
pub(crate) fn add_statements(
    code: &mut Code,
    statements: &Vec<Statement>,
) -> Result<usize, AllocError>
    ensures { IfOk result (λ n. Stands as_statements (trees code.old) (trees code.new) n (statements_view statements.now.items)) }
{
    let mut rest: usize = 0;
    let mut left = statements.len();
    while left > 0 {
        left -= 1;
        let first = add_statement(code, &statements[left])?;
        rest = code.two(Kind::Statements, first, rest)?;
    }
    Ok(rest)
}

/// Adds branches.
#[cycle(statement)]
fn add_branches(code: &mut Code, branches: &Vec<Branch>) -> Result<usize, AllocError>
    ensures { IfOk result (λ n. Stands as_branches (trees code.old) (trees code.new) n (branches_view branches.now.items)) }
{
    let mut rest: usize = 0;
    let mut left = branches.len();
    while left > 0 {
        left -= 1;
        let branch = &branches[left];
        let first = add_expression(code, &branch.condition)?;
        let second = add_statements(code, &branch.statements)?;
        rest = code.three(Kind::Branches, first, second, rest)?;
    }
    Ok(rest)
}

/// Adds alternatives.
#[cycle(statement)]
fn add_alternatives(code: &mut Code, alternatives: &Vec<Alternative>) -> Result<usize, AllocError>
    ensures { IfOk result (λ n. Stands as_alternatives (trees code.old) (trees code.new) n (alternatives_view alternatives.now.items)) }
{
    let mut rest: usize = 0;
    let mut left = alternatives.len();
    while left > 0 {
        left -= 1;
        let alternative = &alternatives[left];
        let first = add_choices(code, &alternative.choices)?;
        let second = add_statements(code, &alternative.statements)?;
        rest = code.three(Kind::Alternatives, first, second, rest)?;
    }
    Ok(rest)
}
