//! Statements.

ghost use Rattle.std.specs.Prelude.{◌≡◌, ◌++◌, ◌∷◌, [], IfOk, OnOk, Some, map, true};
ghost use Rattle.rv_tree.specs.NameView.{identifier_view, name_view};
ghost use Rattle.rv_tree.specs.DeclarationView.{maybe};
ghost use Rattle.rv_tree.specs.ExpressionView.{expression_view};
ghost use Rattle.rv_tree.specs.Statements.{statements_of, elsif_parts_of, alternatives_of, loop_statement};
ghost use Rattle.rv_tree.specs.StatementView.{statement_view, statements_view, elsif_parts_view, alternatives_view, iteration_view, bounds_view as tree_bounds_view};
ghost use Rattle.rv_code.specs.ExpressionView.{expression_view as code_view};
ghost use Rattle.rv_code.specs.StatementView.{statement_view as action_view, branch_view, alternative_view, alternatives_view as code_alternatives_view};
ghost use Rattle.rv_types.specs.Coverage.{covers as covers_range};
ghost use Rattle.rv_types.specs.Typed.{typed};
ghost use Rattle.rv_types.specs.TypedView.{typed_view};
ghost use Rattle.rv_types.specs.StatementCode.{exit_of, return_of, raise_of, delay_of, branch_with, alternative_with, for_loop_of, statement_of, statements_onto, branches_onto, alternatives_onto};

use crate::bounds::{Bounds, discrete, loop_bounds};
use crate::choice::choices;
use crate::coverage::uncovered;
use crate::covers::covers;
use crate::denoted::Denoted;
use crate::expression::{expression, expression_as};
use crate::operators::within_range;
use crate::point::Point;
use crate::refused::{Refused, least, mismatch};
use crate::selector::selector_subtype;
use crate::target::{assignment, call_statement};
use crate::typed::Typed;
use rv_code::{
    Alternative, Branch, Callee, Choice as Covered, Expression as Code, Statement as Action,
};
use rv_scope::library_meaning::whole_range;
use rv_shape::kind::{Range, ValueType};
use rv_static::TypeFault;
use rv_tree::{
    CaseAlternative, ElsifPart, Expression, Identifier, Iteration, LoopBounds, Name, Statement,
};
use std::alloc::Global;

// An exit, without a condition always.
fn exit(alloc: Global, condition: &Option<Expression>, point: &Point) -> Result<Action, Refused>
    ensures { IfOk result (λ s. exit_of point.now (maybe expression_view condition.now) ≡ Some (action_view s)) }
{
    match condition {
        None => Ok(Action::ExitWhen(Code::Value(1))),
        Some(e) => {
            let condition = expression_as(alloc, ValueType::Boolean, e, point)?;
            Ok(Action::ExitWhen(condition))
        }
    }
}

// A return from a function, with its value.
fn return_value(
    alloc: Global,
    range: Range,
    e: &Expression,
    point: &Point,
) -> Result<Action, Refused>
    ensures { IfOk result (λ s. return_of point.now (Some range) (Some (expression_view e.now)) ≡ Some (action_view s)) }
{
    let value = expression_as(alloc, range.of, e, point)?;
    let value = within_range(alloc, range, value)?;
    Ok(Action::ReturnValue(value))
}

// A return: with a value in a function, and without one elsewhere.
fn return_statement(
    alloc: Global,
    at: usize,
    value: &Option<Expression>,
    point: &Point,
) -> Result<Action, Refused>
    ensures { IfOk result (λ s. return_of point.now point.now.result (maybe expression_view value.now) ≡ Some (action_view s)) }
{
    match (point.result_range(), value) {
        (None, None) => Ok(Action::Return),
        (None, Some(e)) => Err(mismatch(e.place())),
        (Some(_), None) => Err(mismatch(at)),
        (Some(range), Some(e)) => return_value(alloc, range, e, point),
    }
}

// A raise, without a name of the exception that is handled.
fn raise(exception: &Option<Name>, point: &Point) -> Result<Action, Refused>
    ensures { IfOk result (λ s. raise_of point.now (maybe name_view exception.now) ≡ Some (action_view s)) }
{
    let Some(name) = exception else {
        return Ok(Action::Reraise);
    };
    match point.denoted(name) {
        Denoted::Exception(exception) => Ok(Action::Raise(exception)),
        _ => Err(mismatch(name.first.at)),
    }
}

// `delay until` a Time.
fn delay(
    alloc: Global,
    at: usize,
    is_until: bool,
    time: &Expression,
    point: &Point,
) -> Result<Action, Refused>
    ensures { IfOk result (λ s. delay_of point.now is_until (expression_view time.now) ≡ Some (action_view s)) }
{
    if !is_until {
        return Err(mismatch(at));
    }
    let time = expression_as(alloc, ValueType::Time, time, point)?;
    let time = within_range(alloc, whole_range(ValueType::Time), time)?;
    let mut arguments = Vec::new(alloc);
    arguments.push(time)?;
    Ok(Action::Call(Callee::DelayUntil, arguments, Vec::new(alloc)))
}

fn push_statement(done: &mut Vec<Action>, one: Action) -> Result<(), Refused>
    ensures { OnOk result (map action_view done.new.items ≡ map action_view done.old.items ++ action_view one ∷ []) }
{
    done.push(one)?;
    Ok(())
}

#[tactic(auto, using(crate::proofs::Pushed::pushed_branch))]
fn push_branch(
    done: &mut Vec<Branch>,
    condition: Code,
    statements: Vec<Action>,
) -> Result<(), Refused>
    ensures { OnOk result (map branch_view done.new.items
        ≡ map branch_view done.old.items ++ branch_with (code_view condition) (map action_view statements.items) ∷ []) }
{
    done.push(Branch {
        condition,
        statements,
    })?;
    Ok(())
}

#[tactic(auto, using(crate::proofs::Pushed::pushed_alternative))]
fn push_alternative(
    done: &mut Vec<Alternative>,
    choices: Vec<Covered>,
    statements: Vec<Action>,
) -> Result<(), Refused>
    ensures { OnOk result (map alternative_view done.new.items
        ≡ map alternative_view done.old.items ++ alternative_with choices.items (map action_view statements.items) ∷ []) }
{
    done.push(Alternative {
        choices,
        statements,
    })?;
    Ok(())
}

// The selector of a case statement.
fn selected(
    alloc: Global,
    selector: &Expression,
    list: &Vec<CaseAlternative>,
    point: &Point,
) -> Result<Typed, Refused>
    ensures { IfOk result (λ t. typed point.now true (expression_view selector.now) ≡ Some (typed_view t)) }
{
    match expression(alloc, selector, true, point) {
        Ok(value) => Ok(value),
        Err(fault) => match wrong_choices(alloc, selector, list, point) {
            Ok(None) => Err(fault),
            Ok(Some(other)) => Err(least(fault, other)),
            Err(other) => Err(least(fault, other)),
        },
    }
}

// What is wrong with a selector and what its choices cover, whatever its value.
fn wrong_choices(
    alloc: Global,
    selector: &Expression,
    list: &Vec<CaseAlternative>,
    point: &Point,
) -> Result<Option<Refused>, Refused> {
    let value = expression(alloc, selector, false, point)?;
    let whole = discrete(whole_range(value.of), selector.place())?;
    let range = selector_subtype(whole, selector, point);
    uncovered(alloc, range, selector.place(), list, point)
}

// Alternatives of which each value of a range is of exactly one choice.
fn covering(
    alloc: Global,
    range: Range,
    at: usize,
    list: Vec<Alternative>,
) -> Result<Vec<Alternative>, Refused>
    ensures covers { IfOk result (λ v. covers_range range (code_alternatives_view v.items) ≡ true) }
    ensures same { IfOk result (λ v. v.items ≡ list.items) }
{
    if covers(alloc, range, &list)? {
        Ok(list)
    } else {
        Err(Refused(TypeFault::BadChoice(at)))
    }
}

#[cycle(statement)]
fn statement(alloc: Global, one: &Statement, point: &mut Point) -> Result<Action, Refused>
    ensures code { IfOk result (λ s. statement_of point.old (statement_view one.now) ≡ Some (action_view s)) }
    ensures point { OnOk result (point.new ≡ point.old) }
{
    match one {
        Statement::Null(_) => Ok(Action::Null),
        Statement::Assignment(name, e) => assignment(alloc, name, e, point),
        Statement::Call(name, arguments) => call_statement(alloc, name, arguments, point),
        Statement::If {
            at: _,
            condition,
            statements: chosen,
            elsif_parts: parts,
            else_statements: otherwise,
        } => {
            let condition = expression_as(alloc, ValueType::Boolean, condition, point)?;
            let chosen = statements(alloc, chosen, point)?;
            let branches = branches(alloc, parts, condition, chosen, point)?;
            let others = statements(alloc, otherwise, point)?;
            Ok(Action::If(branches, others))
        }
        Statement::Case {
            at: _,
            selector,
            alternatives: list,
        } => {
            let value = selected(alloc, selector, list, point)?;
            let whole = discrete(whole_range(value.of), selector.place())?;
            let range = selector_subtype(whole, selector, point);
            let missing = uncovered(alloc, range, selector.place(), list, point)?;
            let found = judged_alternatives(alloc, whole, list, missing, point)?;
            let alternatives = covering(alloc, range, selector.place(), found)?;
            Ok(Action::Case(value.into_code(), alternatives))
        }
        Statement::Loop {
            at: _,
            iteration,
            statements: body,
        } => turns(alloc, iteration, body, point),
        Statement::Exit(_, condition) => exit(alloc, condition, point),
        Statement::Return(at, value) => return_statement(alloc, *at, value, point),
        Statement::Raise(_, exception) => raise(exception, point),
        Statement::Delay { at, is_until, time } => delay(alloc, *at, *is_until, time, point),
        Statement::Abort(at, _) => Err(mismatch(*at)),
        Statement::Requeue {
            at,
            target: _,
            with_abort: _,
        } => Err(mismatch(*at)),
        Statement::Accept {
            at,
            entry: _,
            parameters: _,
            statements: _,
            end_name: _,
        } => Err(mismatch(*at)),
        Statement::Select {
            at,
            alternatives: _,
            else_statements: _,
            abort_statements: _,
        } => Err(mismatch(*at)),
    }
}

// A loop.
#[cycle(statement)]
fn turns(
    alloc: Global,
    iteration: &Iteration,
    body: &Vec<Statement>,
    point: &mut Point,
) -> Result<Action, Refused>
    ensures code { IfOk result (λ s. statement_of point.old
        (loop_statement 0 (iteration_view iteration.now) (statements_of (statements_view body.now.items))) ≡ Some (action_view s)) }
    ensures point { OnOk result (point.new ≡ point.old) }
{
    match iteration {
        Iteration::Forever => {
            let body = statements(alloc, body, point)?;
            Ok(Action::While(Code::Value(1), body))
        }
        Iteration::While(condition) => {
            let condition = expression_as(alloc, ValueType::Boolean, condition, point)?;
            let body = statements(alloc, body, point)?;
            Ok(Action::While(condition, body))
        }
        Iteration::For {
            parameter,
            is_reverse,
            bounds,
        } => for_loop(alloc, parameter, *is_reverse, bounds, body, point),
    }
}

// A loop with a parameter.
#[cycle(statement)]
fn for_loop(
    alloc: Global,
    parameter: &Identifier,
    is_reverse: bool,
    bounds: &LoopBounds,
    body: &Vec<Statement>,
    point: &mut Point,
) -> Result<Action, Refused>
    ensures code { IfOk result (λ s. for_loop_of point.old (identifier_view parameter.now) is_reverse (tree_bounds_view bounds.now)
        (statements_of (statements_view body.now.items)) ≡ Some (action_view s)) }
    ensures point { OnOk result (point.new ≡ point.old) }
{
    let slot = point.slots();
    point.begin_bounds(parameter)?;
    let Bounds {
        range,
        low,
        high,
        parameter: values,
    } = loop_bounds(alloc, bounds, point)?;
    point.begin_loop(parameter, values)?;
    let statements = statements(alloc, body, point)?;
    point.end_loop();
    Ok(Action::For {
        parameter: slot,
        is_reverse,
        range,
        low,
        high,
        statements,
    })
}

/// Statements, in their order.
#[cycle(statement)]
pub(crate) fn statements(
    alloc: Global,
    list: &Vec<Statement>,
    point: &mut Point,
) -> Result<Vec<Action>, Refused>
    ensures code { IfOk result (λ v. statements_onto point.old (statements_of (statements_view list.now.items)) [] ≡ Some (map action_view v.items)) }
    ensures point { OnOk result (point.new ≡ point.old) }
{
    let mut done = Vec::with_capacity(alloc, list.len())?;
    for one in list {
        let action = statement(alloc, one, point)?;
        push_statement(&mut done, action)?;
    }
    Ok(done)
}

// What stands behind `elsif`, behind a first branch.
#[cycle(statement)]
fn branches(
    alloc: Global,
    parts: &Vec<ElsifPart>,
    condition: Code,
    first: Vec<Action>,
    point: &mut Point,
) -> Result<Vec<Branch>, Refused>
    ensures code { IfOk result (λ v. branches_onto point.old (elsif_parts_of (elsif_parts_view parts.now.items))
        (branch_with (code_view condition) (map action_view first.items) ∷ []) ≡ Some (map branch_view v.items)) }
    ensures point { OnOk result (point.new ≡ point.old) }
{
    let mut done = Vec::new(alloc);
    push_branch(&mut done, condition, first)?;
    for part in parts {
        let condition = expression_as(alloc, ValueType::Boolean, &part.condition, point)?;
        let chosen = statements(alloc, &part.statements, point)?;
        push_branch(&mut done, condition, chosen)?;
    }
    Ok(done)
}

// Alternatives for a selector of a range, of which a fault in their choices may be known.
#[cycle(statement)]
fn judged_alternatives(
    alloc: Global,
    range: Range,
    list: &Vec<CaseAlternative>,
    missing: Option<Refused>,
    point: &mut Point,
) -> Result<Vec<Alternative>, Refused>
    ensures code { IfOk result (λ v. alternatives_onto point.old range (alternatives_of (alternatives_view list.now.items)) [] ≡ Some (map alternative_view v.items)) }
    ensures point { OnOk result (point.new ≡ point.old) }
{
    let found = alternatives(alloc, range, list, point);
    let Some(fault) = missing else {
        return found;
    };
    match found {
        Ok(_) => Err(fault),
        Err(other) => Err(least(fault, other)),
    }
}

#[cycle(statement)]
fn alternatives(
    alloc: Global,
    range: Range,
    list: &Vec<CaseAlternative>,
    point: &mut Point,
) -> Result<Vec<Alternative>, Refused>
    ensures code { IfOk result (λ v. alternatives_onto point.old range (alternatives_of (alternatives_view list.now.items)) [] ≡ Some (map alternative_view v.items)) }
    ensures point { OnOk result (point.new ≡ point.old) }
{
    let mut done = Vec::new(alloc);
    for alternative in list {
        let covered = choices(alloc, range, &alternative.choices, point)?;
        let chosen = statements(alloc, &alternative.statements, point)?;
        push_alternative(&mut done, covered, chosen)?;
    }
    Ok(done)
}
