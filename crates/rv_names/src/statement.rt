//! The names that statements use.

ghost use Rattle.std.specs.Prelude.{◌≡◌, OnOk, IfOk, map};
ghost use Rattle.rv_tree.specs.NameView.{identifier_view, name_view};
ghost use Rattle.rv_tree.specs.DeclarationView.{maybe};
ghost use Rattle.rv_tree.specs.ExpressionView.{expression_view};
ghost use Rattle.rv_tree.specs.Statements.{statements_of, elsif_parts_of, alternatives_of};
ghost use Rattle.rv_tree.specs.StatementView.{statement_view, statements_view, elsif_parts_view, alternatives_view, choice_view, bounds_view, iteration_view};
ghost use Rattle.rv_scope.specs.Bound.{judged};
ghost use Rattle.rv_scope.specs.ExpressionUses.{◌▷◌, simple as simple_name, value_uses, maybe_uses};
ghost use Rattle.rv_scope.specs.StatementUses.{choice_uses, choices_uses, bounds_uses, statement_uses, iteration_uses, in_loop, statements_uses, elsif_parts_uses, alternatives_uses};

use crate::expression::{
    expression, expressions, maybe_name, maybe_value, name, range, refuse, two_values, value,
};
use crate::fault::{Faults, NameFault};
use rv_scope::declared::Declared;
use rv_scope::members::hide;
use rv_scope::scope::Scope;
use rv_scope::wanted::Wanted;
use rv_tree::name::{Identifier, Name};
use rv_tree::statement::{CaseAlternative, Choice, ElsifPart, Iteration, LoopBounds, Statement};
use std::alloc::AllocError;

fn choice(choice: &Choice, scope: &Scope, faults: &mut Faults)
    ensures { faults.new ≡ choice_uses judged scope.now (choice_view choice.now) faults.old }
{
    match choice {
        Choice::Others(_) => {}
        Choice::Value(e) => expression(e, Wanted::Choice, scope, faults),
        Choice::Range(low, high) => two_values(low, high, scope, faults),
    }
}

fn choices(list: &Vec<Choice>, scope: &Scope, faults: &mut Faults)
    ensures { faults.new
        ≡ choices_uses judged scope.now (map choice_view list.now.items) faults.old }
{
    for one in list {
        choice(one, scope, faults);
    }
}

fn bounds(bounds: &LoopBounds, scope: &Scope, faults: &mut Faults)
    ensures { faults.new ≡ bounds_uses judged scope.now (bounds_view bounds.now) faults.old }
{
    match bounds {
        LoopBounds::Whole(e) => expression(e, Wanted::Subtype, scope, faults),
        LoopBounds::Between(low, high) => two_values(low, high, scope, faults),
        LoopBounds::Constrained(mark, part) => {
            name(mark, Wanted::Subtype, scope, faults);
            range(part, scope, faults);
        }
    }
}

// `accept`, which names an entry of a task, of which the profile has none (9.5.2, D.7).
#[tactic(auto, unfolding(rv_scope::specs::Bound::judged))]
fn accept(entry: &Identifier, scope: &Scope, faults: &mut Faults)
    ensures { faults.new ≡ judged scope.now Wanted.Nothing (simple_name (identifier_view entry.now)) faults.old }
{
    let fault = accepted(entry, scope, faults);
    faults.tell_unbound(fault);
}

// The fault of an `accept`. It is only looked for where it could be the first.
fn accepted(entry: &Identifier, scope: &Scope, faults: &Faults) -> NameFault {
    if faults.matters(entry.at) {
        faults.around.accepted(scope, entry)
    } else {
        NameFault::Unknown(entry.at)
    }
}

#[cycle(statement)]
fn statement(
    statement: &Statement,
    scope: &mut Scope,
    faults: &mut Faults,
) -> Result<(), AllocError>
    ensures faults { OnOk result
        (faults.new ≡ statement_uses judged scope.old (statement_view statement.now) faults.old) }
    ensures scope { OnOk result (scope.new ≡ scope.old) }
{
    match statement {
        Statement::Null(_) => {}
        Statement::Assignment(target, assigned) => {
            name(target, Wanted::Target, scope, faults);
            value(assigned, scope, faults);
        }
        Statement::Call(called, arguments) => {
            name(called, Wanted::Procedure, scope, faults);
            expressions(arguments, scope, faults);
        }
        Statement::If {
            condition,
            statements: chosen,
            elsif_parts: parts,
            else_statements: otherwise,
            ..
        } => {
            value(condition, scope, faults);
            statements(chosen, scope, faults)?;
            elsif_parts(parts, scope, faults)?;
            statements(otherwise, scope, faults)?;
        }
        Statement::Case {
            selector,
            alternatives: choices,
            ..
        } => {
            value(selector, scope, faults);
            alternatives(choices, scope, faults)?;
        }
        Statement::Loop {
            iteration,
            statements: body,
            ..
        } => turns(iteration, body, scope, faults)?,
        Statement::Exit(_, condition) => maybe_value(condition, scope, faults),
        Statement::Return(_, returned) => maybe_value(returned, scope, faults),
        Statement::Raise(_, exception) => maybe_name(exception, Wanted::Exception, scope, faults),
        Statement::Delay { time, .. } => value(time, scope, faults),
        Statement::Abort(at, _) => refuse(*at, scope, faults),
        Statement::Requeue { at, .. } => refuse(*at, scope, faults),
        Statement::Accept { entry, .. } => accept(entry, scope, faults),
        Statement::Select { at, .. } => refuse(*at, scope, faults),
    }
    Ok(())
}

#[cycle(statement)]
fn turns(
    iteration: &Iteration,
    body: &Vec<Statement>,
    scope: &mut Scope,
    faults: &mut Faults,
) -> Result<(), AllocError>
    ensures faults { OnOk result
        (faults.new ≡ (iteration_uses judged scope.old (iteration_view iteration.now) ▷ statements_uses judged (in_loop (iteration_view iteration.now) scope.old) (statements_of (statements_view body.now.items))) faults.old) }
    ensures scope { OnOk result (scope.new ≡ scope.old) }
{
    match iteration {
        Iteration::Forever => statements(body, scope, faults),
        Iteration::While(condition) => {
            value(condition, scope, faults);
            statements(body, scope, faults)
        }
        Iteration::For {
            parameter,
            bounds: over,
            ..
        } => {
            scope.enter()?;
            hide(parameter, scope)?;
            bounds(over, scope, faults);
            scope.declare(parameter, Some(Declared::LoopParameter(parameter.at)))?;
            statements(body, scope, faults)?;
            scope.leave();
            Ok(())
        }
    }
}

#[cycle(statement)]
pub(crate) fn statements(
    list: &Vec<Statement>,
    scope: &mut Scope,
    faults: &mut Faults,
) -> Result<(), AllocError>
    ensures faults { OnOk result
        (faults.new ≡ statements_uses judged scope.old (statements_of (statements_view list.now.items)) faults.old) }
    ensures scope { OnOk result (scope.new ≡ scope.old) }
{
    for one in list {
        statement(one, scope, faults)?;
    }
    Ok(())
}

#[cycle(statement)]
fn elsif_parts(
    list: &Vec<ElsifPart>,
    scope: &mut Scope,
    faults: &mut Faults,
) -> Result<(), AllocError>
    ensures faults { OnOk result
        (faults.new ≡ elsif_parts_uses judged scope.old (elsif_parts_of (elsif_parts_view list.now.items)) faults.old) }
    ensures scope { OnOk result (scope.new ≡ scope.old) }
{
    for part in list {
        value(&part.condition, scope, faults);
        statements(&part.statements, scope, faults)?;
    }
    Ok(())
}

#[cycle(statement)]
fn alternatives(
    list: &Vec<CaseAlternative>,
    scope: &mut Scope,
    faults: &mut Faults,
) -> Result<(), AllocError>
    ensures faults { OnOk result
        (faults.new ≡ alternatives_uses judged scope.old (alternatives_of (alternatives_view list.now.items)) faults.old) }
    ensures scope { OnOk result (scope.new ≡ scope.old) }
{
    for alternative in list {
        choices(&alternative.choices, scope, faults);
        statements(&alternative.statements, scope, faults)?;
    }
    Ok(())
}
