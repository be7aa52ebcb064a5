//! What is declared at a place of bodies (6.3, 9.1, 9.4, 11.2).

ghost use Rattle.std.specs.Prelude.{◌≡◌, OnOk, map};
ghost use Rattle.rv_tree.specs.BodyView.{local_view, handler_view, block_view, operation_body_view, protected_body_view, task_body_view};
ghost use Rattle.rv_tree.specs.DeclarationView.{parameter_view, protected_unit_view};
ghost use Rattle.rv_scope.specs.UnitUses.{local_form as form_of_local, with_local, with_locals, with_profile};
ghost use Rattle.rv_seen.specs.At.{at_local, at_locals, at_handlers, at_block, is_behind_profile as begins_behind_profile, at_operation_body, at_operation_bodies, at_protected_body, at_task_body};

use crate::begun::{
    are_begun, block_has_begun, have_bodies_begun, have_handlers_begun, have_locals_begun,
    have_parameters_begun,
};
use crate::operations::parameters;
use crate::statements::statements;
use rv_scope::declare::Form;
use rv_scope::members::{declare_names, declare_parameters, hide_all};
use rv_scope::scope::Scope;
use rv_tree::body::{Block, Handler, Local, OperationBody, ProtectedBody, TaskBody};
use rv_tree::declaration::ProtectedUnit;
use std::alloc::AllocError;

fn local_form(is_constant: bool) -> Form
    ensures { result ≡ form_of_local is_constant }
{
    if is_constant {
        Form::Constant
    } else {
        Form::Variable
    }
}

// A declaration of a block, behind it.
fn declare_local(one: &Local, scope: &mut Scope) -> Result<(), AllocError>
    ensures { OnOk result (scope.new ≡ with_local (local_view one.now) scope.old) }
{
    match one {
        Local::Object {
            names,
            is_constant,
            ..
        } => declare_names(names, local_form(*is_constant), scope),
        Local::Pragma(_) | Local::Protected(_) | Local::Task(_) => Ok(()),
    }
}

fn declare_locals(list: &Vec<Local>, scope: &mut Scope) -> Result<(), AllocError>
    ensures { OnOk result (scope.new ≡ with_locals (map local_view list.now.items) scope.old) }
{
    for one in list {
        declare_local(one, scope)?;
    }
    Ok(())
}

// A declaration of a block, within it.
fn local(one: &Local, scope: &mut Scope) -> Result<(), AllocError>
    ensures { OnOk result (scope.new ≡ at_local (local_view one.now) scope.old) }
{
    match one {
        Local::Object { names, .. } => hide_all(names, scope),
        Local::Pragma(_) | Local::Protected(_) | Local::Task(_) => Ok(()),
    }
}

fn locals(list: &[Local], place: usize, scope: &mut Scope) -> Result<(), AllocError>
    ensures { OnOk result (scope.new ≡ at_locals place (map local_view list.now) scope.old) }
{
    let mut rest = list;
    while let [one, more @ ..] = rest {
        if !have_locals_begun(more, place) {
            return local(one, scope);
        }
        declare_local(one, scope)?;
        rest = more;
    }
    Ok(())
}

fn handlers(list: &[Handler], place: usize, scope: &mut Scope) -> Result<(), AllocError>
    ensures { OnOk result (scope.new ≡ at_handlers place (map handler_view list.now) scope.old) }
{
    let mut rest = list;
    while let [one, more @ ..] = rest {
        if !have_handlers_begun(more, place) {
            if are_begun(one.statements.as_slice(), place) {
                return statements(&one.statements, place, scope);
            }
            return Ok(());
        }
        rest = more;
    }
    Ok(())
}

// A block, whose declarations stand in the innermost region.
fn block(block: &Block, place: usize, scope: &mut Scope) -> Result<(), AllocError>
    ensures { OnOk result (scope.new ≡ at_block place (block_view block.now) scope.old) }
{
    if have_handlers_begun(block.handlers.as_slice(), place) {
        declare_locals(&block.locals, scope)?;
        return handlers(block.handlers.as_slice(), place, scope);
    }
    if are_begun(block.statements.as_slice(), place) {
        declare_locals(&block.locals, scope)?;
        return statements(&block.statements, place, scope);
    }
    if have_locals_begun(block.locals.as_slice(), place) {
        return locals(block.locals.as_slice(), place, scope);
    }
    Ok(())
}

// Whether what stands behind the parameters of a body begins at the place or before it.
fn is_behind_profile(body: &OperationBody, place: usize) -> bool
    ensures { result ≡ begins_behind_profile place (operation_body_view body.now) }
{
    match body {
        OperationBody::Function { mark, .. } => mark.place() <= place,
        OperationBody::Procedure { block, .. } => block_has_begun(block, place),
        OperationBody::Entry { barrier, .. } => barrier.place() <= place,
    }
}

// The body of an operation begins, with its parameters.
fn enter_profile(body: &OperationBody, scope: &mut Scope) -> Result<(), AllocError>
    ensures { OnOk result (scope.new ≡ with_profile (operation_body_view body.now) scope.old) }
{
    scope.enter_body(body.name())?;
    declare_parameters(body.parameters(), scope)
}

fn operation_body(body: &OperationBody, place: usize, scope: &mut Scope) -> Result<(), AllocError>
    ensures { OnOk result (scope.new ≡ at_operation_body place (operation_body_view body.now) scope.old) }
{
    if is_behind_profile(body, place) {
        enter_profile(body, scope)?;
        return block(body.block(), place, scope);
    }
    let list = body.parameters().as_slice();
    if have_parameters_begun(list, place) {
        scope.enter_body(body.name())?;
        return parameters(list, place, scope);
    }
    Ok(())
}

fn operation_bodies(
    list: &[OperationBody],
    place: usize,
    scope: &mut Scope,
) -> Result<(), AllocError>
    ensures { OnOk result (scope.new ≡ at_operation_bodies place (map operation_body_view list.now) scope.old) }
{
    let mut rest = list;
    while let [one, more @ ..] = rest {
        if !have_bodies_begun(more, place) {
            return operation_body(one, place, scope);
        }
        rest = more;
    }
    Ok(())
}

/// The body of one of these protected units.
pub(crate) fn protected_body(
    body: &ProtectedBody,
    units: &[&ProtectedUnit],
    place: usize,
    scope: &mut Scope,
) -> Result<(), AllocError>
    ensures { OnOk result (scope.new
        ≡ at_protected_body place (map (λ u. protected_unit_view u.now) units.now) (protected_body_view body.now) scope.old) }
{
    if !have_bodies_begun(body.operations.as_slice(), place) {
        return Ok(());
    }
    match scope.unit_of_body(&body.name, units) {
        Some((_, unit)) => {
            scope.enter_unit(unit)?;
            operation_bodies(body.operations.as_slice(), place, scope)
        }
        None => Ok(()),
    }
}

/// The body of a task.
pub(crate) fn task_body(body: &TaskBody, place: usize, scope: &mut Scope) -> Result<(), AllocError>
    ensures { OnOk result (scope.new ≡ at_task_body place (task_body_view body.now) scope.old) }
{
    if block_has_begun(&body.block, place) {
        scope.enter_body(&body.name)?;
        return block(&body.block, place, scope);
    }
    Ok(())
}
