//! Violations in statements.

ghost use Rattle.std.specs.Prelude.{◌≡◌};
ghost use Rattle.rv_tree.specs.Statements as tree;
ghost use Rattle.rv_tree.specs.ExpressionView.{expression_view};
ghost use Rattle.rv_tree.specs.Statements.{statements_of, elsif_parts_of, alternatives_of, selectives_of};
ghost use Rattle.rv_tree.specs.StatementView.{statement_view, statements_view, elsif_parts_view, alternatives_view, selective_view, selectives_view, bounds_view, iteration_view, guard_view, choice_view};
ghost use Rattle.rv_restrict.specs.Found.{earlier, ◌▷◌};
ghost use Rattle.rv_restrict.specs.ExpressionWalk.{expression_noted};
ghost use Rattle.rv_restrict.specs.StatementWalk.{bounds_noted, iteration_noted, delay_noted, statement_noted, statements_noted, elsif_parts_noted, alternatives_noted, selective_noted, selectives_noted, guard_noted, choice_noted};

use crate::expression::expressions;
use crate::first::{First, Judged};
use crate::violation::Restriction;
use rv_tree::{
    CaseAlternative, Choice, ElsifPart, Expression, Guard, Iteration, LoopBounds,
    SelectAlternative, Statement,
};

impl Judged for Guard {
    ghost Tree = { tree.Guard };

    ghost view = { guard_view };

    ghost noted = { guard_noted earlier };

    fn judge(&self, first: &mut First) {
        self.condition.judge(first);
    }
}

impl Judged for Choice {
    ghost Tree = { tree.Choice };

    ghost view = { choice_view };

    ghost noted = { choice_noted earlier };

    fn judge(&self, first: &mut First) {
        match self {
            Choice::Others(_) => {}
            Choice::Value(value) => value.judge(first),
            Choice::Range(low, high) => {
                low.judge(first);
                high.judge(first);
            }
        }
    }
}

fn bounds(bounds: &LoopBounds, first: &mut First)
    ensures { first.new ≡ bounds_noted earlier (bounds_view bounds.now) first.old }
{
    match bounds {
        LoopBounds::Whole(e) => e.judge(first),
        LoopBounds::Between(low, high) => {
            low.judge(first);
            high.judge(first);
        }
        LoopBounds::Constrained(_, range) => range.judge(first),
    }
}

fn iteration(iteration: &Iteration, first: &mut First)
    ensures { first.new ≡ iteration_noted earlier (iteration_view iteration.now) first.old }
{
    match iteration {
        Iteration::Forever => {}
        Iteration::While(condition) => condition.judge(first),
        Iteration::For { bounds: over, .. } => bounds(over, first),
    }
}

fn delay(at: usize, is_until: bool, time: &Expression, first: &mut First)
    ensures { first.new ≡ (delay_noted earlier at is_until ▷ expression_noted earlier (expression_view time.now)) first.old }
{
    if !is_until {
        first.note(Restriction::NoRelativeDelay, at);
    }
    time.judge(first);
}

#[cycle(statement)]
fn statement(statement: &Statement, first: &mut First)
    ensures { first.new ≡ statement_noted earlier (statement_view statement.now) first.old }
{
    match statement {
        Statement::Null(_) => {}
        Statement::Assignment(_, value) => value.judge(first),
        Statement::Call(_, arguments) => expressions(arguments, first),
        Statement::If {
            condition,
            statements: chosen,
            elsif_parts: parts,
            else_statements: otherwise,
            ..
        } => {
            condition.judge(first);
            statements(chosen, first);
            elsif_parts(parts, first);
            statements(otherwise, first);
        }
        Statement::Case {
            selector,
            alternatives: choices,
            ..
        } => {
            selector.judge(first);
            alternatives(choices, first);
        }
        Statement::Loop {
            iteration: turns,
            statements: body,
            ..
        } => {
            iteration(turns, first);
            statements(body, first);
        }
        Statement::Exit(_, condition) => first.maybe(condition),
        Statement::Return(_, value) => first.maybe(value),
        Statement::Raise(_, _) => {}
        Statement::Delay { at, is_until, time } => delay(*at, *is_until, time, first),
        Statement::Abort(at, _) => first.note(Restriction::NoAbortStatements, *at),
        Statement::Requeue { at, .. } => first.note(Restriction::NoRequeueStatements, *at),
        Statement::Accept {
            statements: body,
            ..
        } => statements(body, first),
        Statement::Select {
            at,
            alternatives: choices,
            else_statements: otherwise,
            abort_statements: aborted,
        } => {
            first.note(Restriction::NoSelectStatements, *at);
            selectives(choices, first);
            statements(otherwise, first);
            statements(aborted, first);
        }
    }
}

#[cycle(statement)]
pub(crate) fn statements(list: &Vec<Statement>, first: &mut First)
    ensures { first.new ≡ statements_noted earlier (statements_of (statements_view list.now.items)) first.old }
{
    for one in list {
        statement(one, first);
    }
}

#[cycle(statement)]
fn elsif_parts(list: &Vec<ElsifPart>, first: &mut First)
    ensures { first.new ≡ elsif_parts_noted earlier (elsif_parts_of (elsif_parts_view list.now.items)) first.old }
{
    for part in list {
        part.condition.judge(first);
        statements(&part.statements, first);
    }
}

#[cycle(statement)]
fn alternatives(list: &Vec<CaseAlternative>, first: &mut First)
    ensures { first.new ≡ alternatives_noted earlier (alternatives_of (alternatives_view list.now.items)) first.old }
{
    for alternative in list {
        first.each(alternative.choices.as_slice());
        statements(&alternative.statements, first);
    }
}

#[cycle(statement)]
fn selective(alternative: &SelectAlternative, first: &mut First)
    ensures { first.new ≡ selective_noted earlier (selective_view alternative.now) first.old }
{
    match alternative {
        SelectAlternative::Statements(guard, list) => {
            first.maybe(guard);
            statements(list, first);
        }
        SelectAlternative::Terminate(guard, _) => first.maybe(guard),
    }
}

#[cycle(statement)]
fn selectives(list: &Vec<SelectAlternative>, first: &mut First)
    ensures { first.new ≡ selectives_noted earlier (selectives_of (selectives_view list.now.items)) first.old }
{
    for alternative in list {
        selective(alternative, first);
    }
}
