//! What the end of a body comes to (6.4.1, 6.5), by the bodies of a unit's table.

ghost use Rattle.std.specs.Prelude.{◌≡◌, IfSome, IsNone, Some, None, []};
ghost use Rattle.rv_exec.specs.Blocks.{outcome_of};
ghost use Rattle.rv_exec.specs.Bodies.{operation_of, task_of};
ghost use Rattle.rv_flat.specs.FlatUnits.{flat_view};
ghost use Rattle.rv_flat.specs.FlatView.{body_in};
ghost use Rattle.rv_flat.specs.Tables.{trees};
ghost use Rattle.rv_machine.specs.Stacks.{body_or};

use rv_exec::activation::Activation;
use rv_exec::end::{Cause, End};
use rv_exec::outcome::{function_outcome, procedure_outcome};
use rv_flat::body::FlatBody;
use rv_flat::unit::FlatUnit;
use rv_value::Args;

// The number of the first task's actor.
const FIRST_TASK: usize = 11;

/// The body of an operation, by the numbers of its object and of the operation, or `None` where it has none.
pub fn operation(unit: &FlatUnit, object: usize, operation: usize) -> Option<&FlatBody>
    ensures found { IfSome result (λ body. operation_of (flat_view unit.now) object operation ≡ Some (body_in (trees unit.now.code) body.now)) }
    ensures none { IsNone result → operation_of (flat_view unit.now) object operation ≡ None }
{
    if object < 1 {
        return None;
    }
    let bodies = unit.objects.get(object - 1)?;
    if operation < 1 {
        return None;
    }
    bodies.operations.get(operation - 1)
}

/// The body of a task, by the number of the actor, or `None` where it has none.
pub fn task(unit: &FlatUnit, actor: usize) -> Option<&FlatBody>
    ensures found { IfSome result (λ body. task_of (flat_view unit.now) actor ≡ Some (body_in (trees unit.now.code) body.now)) }
    ensures none { IsNone result → task_of (flat_view unit.now) actor ≡ None }
{
    if actor < FIRST_TASK {
        return None;
    }
    match unit.tasks.get(actor - FIRST_TASK)? {
        Some(body) => Some(body),
        None => None,
    }
}

/// What the body of an operation comes to, by how its statements end (6.4.1, 6.5).
pub fn operation_outcome(
    unit: &FlatUnit,
    object: usize,
    number: usize,
    end: End,
    activation: &Activation,
) -> Result<Args, Cause>
    ensures { result ≡ outcome_of (body_or (operation_of (flat_view unit.now) object number)) end activation.now }
{
    match operation(unit, object, number) {
        Some(body) => {
            if body.is_function {
                function_outcome(end)
            } else {
                procedure_outcome(end, activation.given_back(&body.parameters))
            }
        }
        None => procedure_outcome(end, Args::new()),
    }
}

/// What the body of a task comes to.
pub fn task_outcome(
    unit: &FlatUnit,
    actor: usize,
    end: End,
    activation: &Activation,
) -> Result<Args, Cause>
    ensures { result ≡ outcome_of (body_or (task_of (flat_view unit.now) actor)) end activation.now }
{
    match task(unit, actor) {
        Some(body) => {
            if body.is_function {
                function_outcome(end)
            } else {
                procedure_outcome(end, activation.given_back(&body.parameters))
            }
        }
        None => procedure_outcome(end, Args::new()),
    }
}
