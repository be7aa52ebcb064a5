//! The names that declarations of packages use, and what these declare.

ghost use Rattle.std.specs.Prelude.{◌≡◌, OnOk, IfOk, map, length};
ghost use Rattle.rv_tree.specs.NameView.{identifier_view, identifiers_view, name_view};
ghost use Rattle.rv_tree.specs.ExpressionView.{expression_view, range_view};
ghost use Rattle.rv_tree.specs.DeclarationView.{maybe, declaration_view, task_view, task_item_view, task_definition_view};
ghost use Rattle.rv_scope.specs.Bound.{judged};
ghost use Rattle.rv_scope.specs.Scope.{declaring, declaring_all, hiding, hiding_all};
ghost use Rattle.rv_scope.specs.Visible.{visible};
ghost use Rattle.rv_scope.specs.ExpressionUses.{◌▷◌, value_uses, maybe_uses, range_uses};
ghost use Rattle.rv_scope.specs.DeclarationUses.{task_item_uses, task_items_uses, definition_uses, task_uses, declaring_task, object_form as form_of_objects, declaration_uses, with_declaration, declarations_uses, with_declarations};

use crate::expression::{maybe_name, maybe_range, name, refuse, value};
use crate::fault::Faults;
use crate::pragma::{aspects, pragma, stray_pragma, task_rules};
use crate::protected::protected_unit;
use rv_scope::declare::{Form, declare_all};
use rv_scope::declared::Declared;
use rv_scope::members::{declare_variables, hide, hide_all};
use rv_scope::scope::Scope;
use rv_scope::wanted::Wanted;
use rv_tree::declaration::{Declaration, TaskDefinition, TaskItem, TaskUnit};
use rv_tree::expression::{Expression, RangeConstraint};
use rv_tree::name::{Identifier, Name};
use std::alloc::AllocError;

fn task_item(item: &TaskItem, scope: &Scope, faults: &mut Faults)
    ensures { faults.new ≡ task_item_uses judged scope.now (task_item_view item.now) faults.old }
{
    match item {
        TaskItem::Pragma(one) => pragma(one, scope, faults),
        TaskItem::Entry(entry) => refuse(entry.at, scope, faults),
    }
}

fn task_items(items: &Vec<TaskItem>, scope: &Scope, faults: &mut Faults)
    ensures { faults.new ≡ task_items_uses judged scope.now (map task_item_view items.now.items) faults.old }
{
    for item in items {
        task_item(item, scope, faults);
    }
}

fn definition(part: &Option<TaskDefinition>, scope: &Scope, faults: &mut Faults)
    ensures { faults.new ≡ definition_uses judged scope.now (maybe task_definition_view part.now) faults.old }
{
    match part {
        None => {}
        Some(part) => task_items(&part.items, scope, faults),
    }
}

fn task_unit(task: &TaskUnit, scope: &mut Scope, faults: &mut Faults) -> Result<(), AllocError>
    ensures faults { OnOk result (faults.new ≡ task_uses judged scope.old (task_view task.now) faults.old) }
    ensures scope { OnOk result (scope.new ≡ declaring_task (task_view task.now) scope.old) }
{
    hide(&task.name, scope)?;
    aspects(&task.aspects, scope, faults);
    definition(&task.definition, scope, faults);
    task_rules(task, faults);
    scope.declare(&task.name, Some(Declared::Task(task.name.at)))
}

fn subtype(
    declared: &Identifier,
    mark: &Name,
    part: &Option<RangeConstraint>,
    scope: &mut Scope,
    faults: &mut Faults,
) -> Result<(), AllocError>
    ensures faults { OnOk result (faults.new
        ≡ (judged (hiding (identifier_view declared.now) scope.old) Wanted.Subtype (name_view mark.now)
        ▷ maybe_uses (range_uses judged (hiding (identifier_view declared.now) scope.old)) (maybe range_view part.now)) faults.old) }
    ensures scope { OnOk result (scope.new
        ≡ declaring Declared.Subtype (identifier_view declared.now) (hiding (identifier_view declared.now) scope.old)) }
{
    hide(declared, scope)?;
    name(mark, Wanted::Subtype, scope, faults);
    maybe_range(part, scope, faults);
    scope.declare(declared, Some(Declared::Subtype(declared.at)))
}

fn variables(
    names: &Vec<Identifier>,
    mark: &Name,
    scope: &mut Scope,
    faults: &mut Faults,
) -> Result<(), AllocError>
    ensures faults { OnOk result (faults.new
        ≡ judged (hiding_all (identifiers_view names.now.items) scope.old) Wanted.ObjectType (name_view mark.now) faults.old) }
    ensures scope { OnOk result (scope.new
        ≡ declaring_all (form_of_objects (visible (hiding_all (identifiers_view names.now.items) scope.old) (name_view mark.now)))
        (identifiers_view names.now.items) (hiding_all (identifiers_view names.now.items) scope.old)) }
{
    hide_all(names, scope)?;
    name(mark, Wanted::ObjectType, scope, faults);
    declare_variables(names, mark, scope)?;
    Ok(())
}

fn constants(
    names: &Vec<Identifier>,
    mark: &Option<Name>,
    initial: &Expression,
    scope: &mut Scope,
    faults: &mut Faults,
) -> Result<(), AllocError>
    ensures faults { OnOk result (faults.new
        ≡ (maybe_uses (judged (hiding_all (identifiers_view names.now.items) scope.old) Wanted.Subtype) (maybe name_view mark.now)
        ▷ value_uses judged (hiding_all (identifiers_view names.now.items) scope.old) (expression_view initial.now)) faults.old) }
    ensures scope { OnOk result (scope.new
        ≡ declaring_all Form.Constant (identifiers_view names.now.items) (hiding_all (identifiers_view names.now.items) scope.old)) }
{
    hide_all(names, scope)?;
    maybe_name(mark, Wanted::Subtype, scope, faults);
    value(initial, scope, faults);
    declare_all(names, Form::Constant, scope)
}

/// A declaration of the package.
pub(crate) fn declaration<'a>(
    one: &'a Declaration,
    scope: &mut Scope,
    faults: &mut Faults<'a>,
) -> Result<(), AllocError>
    ensures faults { OnOk result (faults.new ≡ declaration_uses judged scope.old (declaration_view one.now) faults.old) }
    ensures scope { OnOk result (scope.new ≡ with_declaration (declaration_view one.now) scope.old) }
{
    match one {
        Declaration::Pragma(pragma) => {
            stray_pragma(pragma, faults);
            Ok(())
        }
        Declaration::Subtype {
            name: declared,
            mark,
            range: part,
            ..
        } => subtype(declared, mark, part, scope, faults),
        Declaration::Protected(unit) => protected_unit(unit, scope, faults),
        Declaration::Task(task) => task_unit(task, scope, faults),
        Declaration::Variable { names, mark } => variables(names, mark, scope, faults),
        Declaration::Constant {
            names,
            mark,
            value: initial,
        } => constants(names, mark, initial, scope, faults),
    }
}

/// The declarations of the package specification.
pub(crate) fn declarations<'a>(
    list: &'a Vec<Declaration>,
    scope: &mut Scope,
    faults: &mut Faults<'a>,
) -> Result<(), AllocError>
    ensures faults { OnOk result (faults.new ≡ declarations_uses judged scope.old (map declaration_view list.now.items) faults.old) }
    ensures scope { OnOk result (scope.new ≡ with_declarations (map declaration_view list.now.items) scope.old) }
{
    for one in list {
        declaration(one, scope, faults)?;
    }
    Ok(())
}
