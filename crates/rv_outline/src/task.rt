//! What tasks add to an outline (9.1, D.1).

ghost use Rattle.std.specs.Prelude.{◌≡◌, OnOk, map};
ghost use Rattle.rv_tree.specs.DeclarationView.{maybe, task_item_view, task_definition_view, task_view};
ghost use Rattle.rv_scope.specs.DeclarationUses.{declaring_task};
ghost use Rattle.rv_outline.specs.ProtectedUnits.{task_item_outlined, task_items_outlined, definition_outlined, task_outlined};

use crate::draft::Draft;
use crate::pragma::{aspects, pragma};
use rv_scope::members::hide;
use rv_scope::{Declared, Scope};
use rv_tree::{TaskDefinition, TaskItem, TaskUnit};
use std::alloc::AllocError;

fn task_item(item: &TaskItem, scope: &Scope, draft: &mut Draft) -> Result<(), AllocError>
    ensures { OnOk result (draft.new ≡ task_item_outlined scope.now (task_item_view item.now) draft.old) }
{
    match item {
        TaskItem::Pragma(one) => pragma(one, scope, draft),
        TaskItem::Entry(_) => Ok(()),
    }
}

fn task_items(items: &Vec<TaskItem>, scope: &Scope, draft: &mut Draft) -> Result<(), AllocError>
    ensures { OnOk result (draft.new ≡ task_items_outlined scope.now (map task_item_view items.now.items) draft.old) }
{
    for item in items {
        task_item(item, scope, draft)?;
    }
    Ok(())
}

fn definition(
    part: &Option<TaskDefinition>,
    scope: &Scope,
    draft: &mut Draft,
) -> Result<(), AllocError>
    ensures { OnOk result (draft.new ≡ definition_outlined scope.now (maybe task_definition_view part.now) draft.old) }
{
    match part {
        None => Ok(()),
        Some(part) => task_items(&part.items, scope, draft),
    }
}

/// A task of the package.
pub(crate) fn task_unit(
    task: &TaskUnit,
    scope: &mut Scope,
    draft: &mut Draft,
) -> Result<(), AllocError>
    ensures draft { OnOk result (draft.new ≡ task_outlined scope.old (task_view task.now) draft.old) }
    ensures scope { OnOk result (scope.new ≡ declaring_task (task_view task.now) scope.old) }
{
    hide(&task.name, scope)?;
    draft.start(&task.name, true)?;
    aspects(&task.aspects, scope, draft);
    definition(&task.definition, scope, draft)?;
    draft.finish_task()?;
    scope.declare(&task.name, Some(Declared::Task(task.name.at)))
}
