//! The names that blocks and bodies use.

ghost use Rattle.std.specs.Prelude.{◌≡◌, OnOk, map};
ghost use Rattle.rv_tree.specs.BodyView.{local_view, exception_choice_view, handler_view, block_view};
ghost use Rattle.rv_scope.specs.Bound.{judged};
ghost use Rattle.rv_scope.specs.Scope.{OnlyDeclares};
ghost use Rattle.rv_scope.specs.UnitUses.{local_form as form_of_local, local_uses, with_local, locals_uses, with_locals, exception_uses, exceptions_uses, handlers_uses, block_uses};

use crate::expression::{name, refuse};
use crate::fault::Faults;
use crate::object::objects;
use crate::pragma::stray_pragma;
use crate::statement::statements;
use rv_scope::declare::Form;
use rv_scope::scope::Scope;
use rv_scope::wanted::Wanted;
use rv_tree::body::{Block, ExceptionChoice, Handler, Local};
use std::alloc::AllocError;

fn local_form(is_constant: bool) -> Form
    ensures { result ≡ form_of_local is_constant }
{
    if is_constant {
        Form::Constant
    } else {
        Form::Variable
    }
}

fn local(one: &Local, scope: &mut Scope, faults: &mut Faults) -> Result<(), AllocError>
    ensures faults { OnOk result (faults.new ≡ local_uses judged scope.old (local_view one.now) faults.old) }
    ensures scope { OnOk result (scope.new ≡ with_local (local_view one.now) scope.old) }
    ensures only { OnOk result (OnlyDeclares scope.old scope.new) }
{
    match one {
        Local::Object {
            names,
            is_constant,
            mark,
            range: part,
            value: initial,
        } => objects(
            names,
            local_form(*is_constant),
            mark,
            part,
            initial,
            scope,
            faults,
        ),
        Local::Pragma(pragma) => {
            stray_pragma(pragma, faults);
            Ok(())
        }
        Local::Protected(unit) => {
            refuse(unit.at, scope, faults);
            Ok(())
        }
        Local::Task(task) => {
            refuse(task.at, scope, faults);
            Ok(())
        }
    }
}

fn locals(list: &Vec<Local>, scope: &mut Scope, faults: &mut Faults) -> Result<(), AllocError>
    ensures faults { OnOk result (faults.new ≡ locals_uses judged scope.old (map local_view list.now.items) faults.old) }
    ensures scope { OnOk result (scope.new ≡ with_locals (map local_view list.now.items) scope.old) }
    ensures only { OnOk result (OnlyDeclares scope.old scope.new) }
{
    for one in list {
        local(one, scope, faults)?;
    }
    Ok(())
}

fn exception(choice: &ExceptionChoice, scope: &Scope, faults: &mut Faults)
    ensures { faults.new ≡ exception_uses judged scope.now (exception_choice_view choice.now) faults.old }
{
    match choice {
        ExceptionChoice::Name(used) => name(used, Wanted::Exception, scope, faults),
        ExceptionChoice::Others(_) => {}
    }
}

fn exceptions(list: &Vec<ExceptionChoice>, scope: &Scope, faults: &mut Faults)
    ensures { faults.new ≡ exceptions_uses judged scope.now (map exception_choice_view list.now.items) faults.old }
{
    for choice in list {
        exception(choice, scope, faults);
    }
}

fn handlers(list: &Vec<Handler>, scope: &mut Scope, faults: &mut Faults) -> Result<(), AllocError>
    ensures faults { OnOk result (faults.new ≡ handlers_uses judged scope.old (map handler_view list.now.items) faults.old) }
    ensures scope { OnOk result (scope.new ≡ scope.old) }
{
    for handler in list {
        exceptions(&handler.choices, scope, faults);
        statements(&handler.statements, scope, faults)?;
    }
    Ok(())
}

/// A block: its declarations stand in the innermost region.
pub(crate) fn block<'a>(
    block: &'a Block,
    scope: &mut Scope,
    faults: &mut Faults<'a>,
) -> Result<(), AllocError>
    ensures faults { OnOk result (faults.new ≡ block_uses judged scope.old (block_view block.now) faults.old) }
    ensures only { OnOk result (OnlyDeclares scope.old scope.new) }
{
    faults.set_block(Some(block));
    locals(&block.locals, scope, faults)?;
    statements(&block.statements, scope, faults)?;
    handlers(&block.handlers, scope, faults)?;
    faults.set_block(None);
    Ok(())
}
