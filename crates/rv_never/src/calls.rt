//! What tasks call in their own bodies.

ghost use Rattle.std.specs.Prelude.{◌≡◌, ◌<◌, ◌+◌, ◌^◌, ◌++◌, ◌∷◌, [], List, length, map, IfOk, OnOk};
ghost use Rattle.rv_code.specs.BodyView.{body_view, declaration_view, handler_view, maybe_body_view, unit_view};
ghost use Rattle.rv_never.specs.Written.{AreCallsOf, AreOfTasks, AreSame, IsOfTask, is_among, is_same, of_body, of_declarations, of_handlers, of_task};

use crate::expressions::add_expression;
use crate::statements::add_statements;
use rv_code::{Body, Declaration, Handler, UnitBodies};
use rv_shape::actor::FIRST_TASK;
use rv_shape::catalogue::Catalogue;
use std::alloc::{AllocError, Global};

/// An operation that is called, by the number of its object and its own within the object, each from 1.
#[derive(Clone, Copy, Drop)]
pub struct Called {
    pub object: usize,
    pub operation: usize,
}

/// What a task calls in its own body (9.1).
#[derive(Drop)]
pub struct TaskCalls {
    /// The actor that the task is.
    pub actor: usize,
    /// Each operation that its own body calls, once.
    pub calls: Vec<Called>,
}

/// What the tasks of a unit call in their own bodies.
#[derive(Drop)]
pub struct UnitCalls {
    /// The unit's number, from 1.
    pub unit: usize,
    /// Its tasks, in order. One without a body calls nothing.
    pub tasks: Vec<TaskCalls>,
}

// Whether two are one operation.
fn is_same(one: Called, other: Called) -> bool
    ensures { result ≡ is_same one other }
{
    one.object == other.object && one.operation == other.operation
}

// Whether an operation is among these.
fn is_among(calls: &[Called], called: Called) -> bool
    ensures { result ≡ is_among calls.now called }
{
    for other in calls {
        if is_same(called, *other) {
            return true;
        }
    }
    false
}

// Adds an operation, unless it is there. Err where memory was refused.
#[tactic(auto, using(crate::proofs::Same::with_known, crate::proofs::Same::with_new))]
fn add_new(calls: &mut Vec<Called>, called: Called) -> Result<(), AllocError>
    ensures { OnOk result (AreSame calls.new.items (calls.old.items ++ called ∷ [])) }
{
    if !is_among(calls.as_slice(), called) {
        calls.push(called)?;
    }
    Ok(())
}

/// Adds those of some operations that aren't there yet. Err where memory was refused.
pub(crate) fn add_all_new(calls: &mut Vec<Called>, others: &[Called]) -> Result<(), AllocError>
    ensures { OnOk result (AreSame calls.new.items (calls.old.items ++ others.now)) }
{
    for called in others {
        add_new(calls, *called)?;
    }
    Ok(())
}

// Adds what the initial values of declarations call. Err where memory was refused.
#[tactic(auto, using(crate::proofs::Joined::joined))]
fn add_declarations(calls: &mut Vec<Called>, declarations: &[Declaration]) -> Result<(), AllocError>
    ensures { OnOk result (calls.new.items ≡ calls.old.items ++ of_declarations (map declaration_view declarations.now)) }
{
    for declaration in declarations {
        add_expression(calls, &declaration.initial)?;
    }
    Ok(())
}

// Adds what handlers of exceptions call. Err where memory was refused.
#[tactic(auto, using(crate::proofs::Joined::joined))]
fn add_handlers(calls: &mut Vec<Called>, handlers: &[Handler]) -> Result<(), AllocError>
    ensures { OnOk result (calls.new.items ≡ calls.old.items ++ of_handlers (map handler_view handlers.now)) }
{
    for handler in handlers {
        add_statements(calls, &handler.statements)?;
    }
    Ok(())
}

// The operations that a body calls, in the order of the text. Err where memory was refused.
#[tactic(auto, using(crate::proofs::Joined::joined))]
fn calls_of_body(alloc: Global, body: &Body) -> Result<Vec<Called>, AllocError>
    ensures { IfOk result (λ calls. calls.items ≡ of_body (body_view body.now)) }
{
    let mut calls = Vec::new(alloc);
    add_declarations(&mut calls, body.declarations.as_slice())?;
    add_statements(&mut calls, &body.statements)?;
    add_handlers(&mut calls, body.handlers.as_slice())?;
    Ok(calls)
}

// Each operation that a task calls in its own body, once. Err where memory was refused.
fn calls_of_task(alloc: Global, body: &Option<Body>) -> Result<Vec<Called>, AllocError>
    ensures { IfOk result (λ calls. AreSame calls.items (of_task (maybe_body_view body.now))) }
{
    match body {
        Some(body) => {
            let all = calls_of_body(alloc, body)?;
            let mut calls = Vec::new(alloc);
            add_all_new(&mut calls, all.as_slice())?;
            Ok(calls)
        }
        None => Ok(Vec::new(alloc)),
    }
}

// What the task that is an actor calls in its own body. Err where memory was refused.
fn task_calls(alloc: Global, actor: usize, body: &Option<Body>) -> Result<TaskCalls, AllocError>
    ensures { IfOk result (λ task. IsOfTask actor (maybe_body_view body.now) task) }
{
    let calls = calls_of_task(alloc, body)?;
    Ok(TaskCalls { actor, calls })
}

// Adds what tasks with these bodies call, the first of which is this actor. Err where memory was refused.
#[tactic(auto, using(crate::proofs::Joined::tasks_joined))]
fn add_tasks(
    tasks: &mut Vec<TaskCalls>,
    alloc: Global,
    actor: usize,
    bodies: &[Option<Body>],
) -> Result<(), AllocError>
    requires { actor + length bodies.now < 2 ^ 64 }
    ensures { OnOk result ((made : List TaskCalls) × AreOfTasks actor (map maybe_body_view bodies.now) made
        × (tasks.new.items ≡ tasks.old.items ++ made)) }
{
    let Some((body, others)) = bodies.split_first() else {
        return Ok(());
    };
    tasks.push(task_calls(alloc, actor, body)?)?;
    add_tasks(tasks, alloc, actor + 1, others)
}

/// What the tasks of a unit call in their own bodies, where the unit is loaded next, behind those of the catalogue. Err where
/// memory was refused.
pub fn unit_calls(
    alloc: Global,
    catalogue: &Catalogue,
    bodies: &UnitBodies,
) -> Result<UnitCalls, AllocError>
    ensures { IfOk result (λ calls. AreCallsOf catalogue.now (unit_view bodies.now) calls) }
{
    let unit = catalogue.shapes().len() + 1;
    let first = catalogue.tasks() + FIRST_TASK;
    let mut tasks = Vec::new(alloc);
    add_tasks(&mut tasks, alloc, first, bodies.tasks.as_slice())?;
    Ok(UnitCalls { unit, tasks })
}
