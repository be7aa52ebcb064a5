//! The bodies of a unit.

ghost use Rattle.std.specs.Prelude.{◌≡◌, IfOk, OnOk, Some, map};
ghost use Rattle.rv_tree.specs.DeclarationView.{protected_unit_view};
ghost use Rattle.rv_tree.specs.BodyView.{task_body_view};
ghost use Rattle.rv_tree.specs.UnitView.{body_item_view};
ghost use Rattle.rv_scope.specs.UnitUses.{with_body_item};
ghost use Rattle.rv_code.specs.BodyView.{body_view, unit_view};
ghost use Rattle.rv_types.specs.BodiesOf.{task_index as index_of_task, with_task_body, task_body_compiled, item_compiled, items_compiled, no_bodies as no_bodies_of};

use crate::body::task_body;
use crate::protected::protected_body;
use crate::refused::{Refused, mismatch};
use crate::setting::Setting;
use rv_code::{Body, UnitBodies};
use rv_outline::outline::Outline;
use rv_scope::Scope;
use rv_scope::declaration::declare;
use rv_shape::task::Task;
use rv_text::is_same_name;
use rv_tree::body::TaskBody;
use rv_tree::declaration::ProtectedUnit;
use rv_tree::unit::BodyItem;
use std::alloc::{AllocError, Global};

// Puts the body of a task in its place.
fn put_task(compiled: &mut UnitBodies, index: usize, body: Body, at: usize) -> Result<(), Refused>
    ensures { OnOk result (with_task_body (unit_view compiled.old) index (body_view body) ≡ Some (unit_view compiled.new)) }
{
    if index < compiled.tasks.len() {
        compiled.tasks[index] = Some(body);
        return Ok(());
    }
    Err(mismatch(at))
}

// The index of the task of a name.
fn task_index(tasks: &[Task], name: &str) -> Option<usize>
    ensures { result ≡ index_of_task name.now 0 tasks.now }
{
    for (index, task) in tasks.iter().enumerate() {
        if is_same_name(name, task.name()) {
            return Some(index);
        }
    }
    None
}

// The body of a task.
fn task_part<'a>(
    alloc: Global,
    setting: &Setting<'a>,
    body: &TaskBody,
    compiled: &mut UnitBodies,
    scope: Scope<'a>,
) -> Result<Scope<'a>, Refused>
    ensures code { IfOk result (λ _. task_body_compiled setting.now scope.entry (task_body_view body.now) (unit_view compiled.old) ≡ Some (unit_view compiled.new)) }
    ensures scope { IfOk result (λ s. s ≡ scope.entry) }
{
    let at = body.name.at;
    let Some(index) = task_index(setting.outline.shape().tasks(), body.name.text.as_str()) else {
        return Err(mismatch(at));
    };
    let (code, left) = task_body(alloc, setting, body, scope)?;
    put_task(compiled, index, code, at)?;
    Ok(left)
}

// An item of the package body.
fn item<'a>(
    alloc: Global,
    setting: &Setting<'a>,
    units: &[&ProtectedUnit],
    one: &BodyItem,
    compiled: &mut UnitBodies,
    around: Scope<'a>,
) -> Result<Scope<'a>, Refused>
    ensures code { IfOk result (λ _. item_compiled setting.now (map (λ u. protected_unit_view u.now) units.now) around.entry (body_item_view one.now) (unit_view compiled.old) ≡ Some (unit_view compiled.new)) }
    ensures scope { IfOk result (λ s. s ≡ with_body_item (body_item_view one.now) around.entry) }
{
    match one {
        BodyItem::Declaration(declaration) => {
            let mut scope = around;
            declare(declaration, &mut scope)?;
            Ok(scope)
        }
        BodyItem::Protected(body) => protected_body(alloc, setting, units, body, compiled, around),
        BodyItem::Task(body) => task_part(alloc, setting, body, compiled, around),
    }
}

/// The items of the package body.
pub(crate) fn items<'a>(
    alloc: Global,
    setting: &Setting<'a>,
    units: &[&ProtectedUnit],
    list: &Vec<BodyItem>,
    compiled: &mut UnitBodies,
    around: Scope<'a>,
) -> Result<(), Refused>
    ensures { OnOk result (items_compiled setting.now (map (λ u. protected_unit_view u.now) units.now) around.entry (map body_item_view list.now.items) (unit_view compiled.old) ≡ Some (unit_view compiled.new)) }
{
    let mut scope = around;
    for one in list {
        scope = item(alloc, setting, units, one, compiled, scope)?;
    }
    Ok(())
}

/// No bodies yet.
pub(crate) fn no_bodies(alloc: Global, outline: &Outline) -> Result<UnitBodies, AllocError>
    ensures { IfOk result (λ u. no_bodies_of outline.now ≡ unit_view u) }
{
    UnitBodies::empty(
        alloc,
        outline.objects().len(),
        outline.shape().tasks().len(),
    )
}
