//! What is declared at a place of statements: the parameters of the loops around it (5.5).

ghost use Rattle.std.specs.Prelude.{◌≡◌, OnOk};
ghost use Rattle.rv_tree.specs.Statements.{statements_of, elsif_parts_of, alternatives_of};
ghost use Rattle.rv_tree.specs.StatementView.{statement_view, statements_view, elsif_parts_view, alternatives_view, iteration_view};
ghost use Rattle.rv_scope.specs.StatementUses.{in_loop};
ghost use Rattle.rv_seen.specs.At.{in_iteration as hidden_in_iteration, at_statement, at_statements, at_parts, at_alternatives};

use crate::begun::{alternatives_are_begun, are_begun, parts_are_begun};
use rv_scope::declared::Declared;
use rv_scope::members::hide;
use rv_scope::scope::Scope;
use rv_tree::statement::{CaseAlternative, ElsifPart, Iteration, Statement};
use std::alloc::AllocError;

// The bounds of a loop begin.
fn in_iteration(iteration: &Iteration, scope: &mut Scope) -> Result<(), AllocError>
    ensures { OnOk result (scope.new ≡ hidden_in_iteration (iteration_view iteration.now) scope.old) }
{
    match iteration {
        Iteration::Forever | Iteration::While(_) => Ok(()),
        Iteration::For { parameter, .. } => {
            scope.enter()?;
            hide(parameter, scope)
        }
    }
}

// The statements of a loop begin.
fn in_turns(iteration: &Iteration, scope: &mut Scope) -> Result<(), AllocError>
    ensures { OnOk result (scope.new ≡ in_loop (iteration_view iteration.now) scope.old) }
{
    in_iteration(iteration, scope)?;
    match iteration {
        Iteration::Forever | Iteration::While(_) => Ok(()),
        Iteration::For { parameter, .. } => {
            let meaning = Declared::LoopParameter(parameter.at);
            scope.declare(parameter, Some(meaning))
        }
    }
}

#[cycle(statement)]
fn statement(one: &Statement, place: usize, scope: &mut Scope) -> Result<(), AllocError>
    ensures { OnOk result (scope.new ≡ at_statement place (statement_view one.now) scope.old) }
{
    match one {
        Statement::If {
            statements: chosen,
            elsif_parts,
            else_statements,
            ..
        } => {
            if are_begun(else_statements.as_slice(), place) {
                return statements(else_statements, place, scope);
            }
            if parts_are_begun(elsif_parts.as_slice(), place) {
                return parts(elsif_parts, place, scope);
            }
            if are_begun(chosen.as_slice(), place) {
                return statements(chosen, place, scope);
            }
            Ok(())
        }
        Statement::Case {
            alternatives: choices,
            ..
        } => {
            if alternatives_are_begun(choices.as_slice(), place) {
                return alternatives(choices, place, scope);
            }
            Ok(())
        }
        Statement::Loop {
            iteration,
            statements: body,
            ..
        } => {
            if are_begun(body.as_slice(), place) {
                in_turns(iteration, scope)?;
                return statements(body, place, scope);
            }
            in_iteration(iteration, scope)
        }
        _ => Ok(()),
    }
}

/// Statements, of which the first begins at the place or before it.
#[cycle(statement)]
pub(crate) fn statements(
    list: &Vec<Statement>,
    place: usize,
    scope: &mut Scope,
) -> Result<(), AllocError>
    ensures { OnOk result (scope.new ≡ at_statements place (statements_of (statements_view list.now.items)) scope.old) }
{
    for (index, one) in list.iter().enumerate() {
        if !are_begun(&list.as_slice()[index + 1..], place) {
            return statement(one, place, scope);
        }
    }
    Ok(())
}

#[cycle(statement)]
fn parts(list: &Vec<ElsifPart>, place: usize, scope: &mut Scope) -> Result<(), AllocError>
    ensures { OnOk result (scope.new ≡ at_parts place (elsif_parts_of (elsif_parts_view list.now.items)) scope.old) }
{
    for (index, one) in list.iter().enumerate() {
        if !parts_are_begun(&list.as_slice()[index + 1..], place) {
            if are_begun(one.statements.as_slice(), place) {
                return statements(&one.statements, place, scope);
            }
            return Ok(());
        }
    }
    Ok(())
}

#[cycle(statement)]
fn alternatives(
    list: &Vec<CaseAlternative>,
    place: usize,
    scope: &mut Scope,
) -> Result<(), AllocError>
    ensures { OnOk result (scope.new ≡ at_alternatives place (alternatives_of (alternatives_view list.now.items)) scope.old) }
{
    for (index, one) in list.iter().enumerate() {
        if !alternatives_are_begun(&list.as_slice()[index + 1..], place) {
            if are_begun(one.statements.as_slice(), place) {
                return statements(&one.statements, place, scope);
            }
            return Ok(());
        }
    }
    Ok(())
}
