//! What aspects and pragmas add to an outline (2.8, 13.1.1): priorities (D.1, D.3), and procedures with their lines (C.3.1).

ghost use Rattle.std.specs.Prelude.{◌≡◌, OnOk, map};
ghost use Rattle.rv_tree.specs.NameView.{identifier_view};
ghost use Rattle.rv_tree.specs.DeclarationView.{pragma_view, aspect_view};
ghost use Rattle.rv_outline.specs.Drafts.{noted, giving_priority};
ghost use Rattle.rv_outline.specs.ProtectedUnits.{aspect_outlined, aspects_outlined, handling, procedure_aspect_outlined, procedure_aspects_outlined, priority_pragma_outlined, attachment_outlined, pragma_outlined};

use crate::draft::Draft;
use crate::handler::{aspect_line, attached_by};
use crate::priority::{aspect_priority, pragma_priority};
use rv_scope::pragma::{is_attachment, is_priority};
use rv_scope::{Point, Scope};
use rv_shape::kind::Kind;
use rv_tree::{Aspect, Identifier, Pragma};
use std::alloc::AllocError;

// An aspect of a protected unit or a task: a priority, or nothing.
fn aspect(one: &Aspect, scope: &Scope, draft: &mut Draft)
    ensures { draft.new ≡ aspect_outlined scope.now (aspect_view one.now) draft.old }
{
    if !is_priority(one.name.text.as_str()) {
        return;
    }
    let point = Point {
        scope,
        known: &draft.known,
    };
    let found = aspect_priority(one, &point, &mut draft.faults);
    if let Some(priority) = found {
        draft.give_priority(priority);
    }
}

/// The aspects of a protected unit or a task.
pub(crate) fn aspects(list: &Vec<Aspect>, scope: &Scope, draft: &mut Draft)
    ensures { draft.new ≡ aspects_outlined scope.now (map aspect_view list.now.items) draft.old }
{
    for one in list {
        aspect(one, scope, draft);
    }
}

// An aspect of a procedure: a line that it handles, or nothing.
fn procedure_aspect(
    declared: &Identifier,
    one: &Aspect,
    scope: &Scope,
    draft: &mut Draft,
) -> Result<(), AllocError>
    ensures { OnOk result (draft.new
        ≡ procedure_aspect_outlined scope.now (identifier_view declared.now) (aspect_view one.now) draft.old) }
{
    if !is_attachment(one.name.text.as_str()) {
        return Ok(());
    }
    match aspect_line(one, scope, &mut draft.faults) {
        None => Ok(()),
        Some(line) => draft.give_kind(declared.at, Kind::Handler(line)),
    }
}

/// The aspects of a procedure.
pub(crate) fn procedure_aspects(
    declared: &Identifier,
    list: &[Aspect],
    scope: &Scope,
    draft: &mut Draft,
) -> Result<(), AllocError>
    ensures { OnOk result (draft.new
        ≡ procedure_aspects_outlined scope.now (identifier_view declared.now) (map aspect_view list.now) draft.old) }
{
    for one in list {
        procedure_aspect(declared, one, scope, draft)?;
    }
    Ok(())
}

// A pragma of a priority.
fn priority_pragma(one: &Pragma, scope: &Scope, draft: &mut Draft)
    ensures { draft.new ≡ priority_pragma_outlined scope.now (pragma_view one.now) draft.old }
{
    let point = Point {
        scope,
        known: &draft.known,
    };
    let found = pragma_priority(one, &point, &mut draft.faults);
    if let Some(priority) = found {
        draft.give_priority(priority);
    }
}

// A pragma that attaches a procedure to a line.
fn attaching_pragma(one: &Pragma, scope: &Scope, draft: &mut Draft) -> Result<(), AllocError>
    ensures { OnOk result (draft.new ≡ attachment_outlined scope.now (pragma_view one.now) draft.old) }
{
    match attached_by(one, scope, draft) {
        None => Ok(()),
        Some(found) => draft.give_kind(found.at, Kind::Handler(found.line)),
    }
}

/// A pragma of a protected unit or a task.
pub(crate) fn pragma(one: &Pragma, scope: &Scope, draft: &mut Draft) -> Result<(), AllocError>
    ensures { OnOk result (draft.new ≡ pragma_outlined scope.now (pragma_view one.now) draft.old) }
{
    let name = one.name.text.as_str();
    if is_priority(name) {
        priority_pragma(one, scope, draft);
        return Ok(());
    }
    if is_attachment(name) {
        return attaching_pragma(one, scope, draft);
    }
    Ok(())
}
