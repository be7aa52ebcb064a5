//! Values in bodies (6.3, 9.1).

ghost use Rattle.std.specs.List.{list_all};
ghost use Rattle.std.specs.Prelude.{◌≡◌, ◌&&◌, map};
ghost use Rattle.rv_code.specs.BodyView.{declaration_view, handler_view, body_view, maybe_body_view};
ghost use Rattle.rv_ranged.specs.Ranged.{body_ranged, declaration_ranged, handler_ranged, task_ranged};

use crate::expression::expression_ranged;
use crate::stand::Stand;
use crate::statement::statements_ranged;
use crate::target::target_keeps;
use crate::units::Units;
use rv_code::{Body, Declaration, Handler};

fn declaration_ranged(d: &Declaration, units: &Units<'_>, stand: &Stand<'_>) -> bool
    ensures { result ≡ declaration_ranged units.now stand.now (declaration_view d.now) }
{
    target_keeps(&d.target, stand) && expression_ranged(&d.initial, units, stand)
}

#[tactic(auto, using(crate::proofs::Parts::mapped))]
fn declarations_ranged(ds: &Vec<Declaration>, units: &Units<'_>, stand: &Stand<'_>) -> bool
    ensures { result ≡ list_all (declaration_ranged units.now stand.now) (map declaration_view ds.now.items) }
{
    for d in ds {
        if !declaration_ranged(d, units, stand) {
            return false;
        }
    }
    true
}

#[tactic(auto, using(crate::proofs::Parts::mapped))]
fn handlers_ranged(handlers: &Vec<Handler>, units: &Units<'_>, stand: &Stand<'_>) -> bool
    ensures { result ≡ list_all (handler_ranged units.now stand.now) (map handler_view handlers.now.items) }
{
    for handler in handlers {
        if !statements_ranged(&handler.statements, units, stand) {
            return false;
        }
    }
    true
}

/// Whether the values of a body lie in their ranges.
pub(crate) fn body_ranged(b: &Body, units: &Units<'_>, stand: &Stand<'_>) -> bool
    ensures { result ≡ body_ranged units.now stand.now (body_view b.now) }
{
    declarations_ranged(&b.declarations, units, stand)
        && (statements_ranged(&b.statements, units, stand)
            && handlers_ranged(&b.handlers, units, stand))
}

// The same of a task's body, if it has one.
fn task_ranged(task: &Option<Body>, units: &Units<'_>) -> bool
    ensures { result ≡ task_ranged units.now (maybe_body_view task.now) }
{
    match task {
        Some(b) => body_ranged(b, units, &Stand::of_task()),
        None => true,
    }
}

/// The same of the bodies of tasks.
#[tactic(auto, using(crate::proofs::Parts::mapped))]
pub(crate) fn tasks_ranged(tasks: &Vec<Option<Body>>, units: &Units<'_>) -> bool
    ensures { result ≡ list_all (task_ranged units.now) (map maybe_body_view tasks.now.items) }
{
    for task in tasks {
        if !task_ranged(task, units) {
            return false;
        }
    }
    true
}
