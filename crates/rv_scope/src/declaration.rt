//! What the declarations of a package declare, of whose parts nothing else is asked.

ghost use Rattle.std.specs.Prelude.{◌≡◌, OnOk, Some, map};
ghost use Rattle.rv_tree.specs.NameView.{identifier_view, identifiers_view, name_view};
ghost use Rattle.rv_tree.specs.DeclarationView.{declaration_view, protected_unit_view};
ghost use Rattle.rv_scope.specs.Scope.{declaring_all, hiding, hiding_all, with_meaning};
ghost use Rattle.rv_scope.specs.Visible.{visible};
ghost use Rattle.rv_scope.specs.DeclarationUses.{declaring_protected_unit, object_form as form_of_objects, with_declaration, with_declarations};

use crate::declare::Form;
use crate::declared::Declared;
use crate::members::{declare_identifier, declare_names, declare_variables, hide_all};
use crate::scope::Scope;
use rv_tree::declaration::Declaration;
use rv_tree::name::{Identifier, Name};
use std::alloc::AllocError;

// The objects of the package that a variable declares (3.3.1).
fn variable(names: &Vec<Identifier>, mark: &Name, scope: &mut Scope) -> Result<(), AllocError>
    ensures { OnOk result (scope.new ≡ declaring_all (form_of_objects (visible (hiding_all (identifiers_view names.now.items) scope.old) (name_view mark.now)))
        (identifiers_view names.now.items) (hiding_all (identifiers_view names.now.items) scope.old)) }
{
    hide_all(names, scope)?;
    declare_variables(names, mark, scope)?;
    Ok(())
}

/// A declaration of the package.
pub fn declare(one: &Declaration, scope: &mut Scope) -> Result<(), AllocError>
    ensures { OnOk result (scope.new ≡ with_declaration (declaration_view one.now) scope.old) }
{
    match one {
        Declaration::Pragma(_) => Ok(()),
        Declaration::Subtype {
            at: _,
            name,
            mark: _,
            range: _,
        } => declare_identifier(name, Declared::Subtype(name.at), scope),
        Declaration::Protected(unit) => scope.declare_protected_unit(unit),
        Declaration::Task(task) => declare_identifier(
            &task.name,
            Declared::Task(task.name.at),
            scope,
        ),
        Declaration::Variable { names, mark } => variable(names, mark, scope),
        Declaration::Constant {
            names,
            mark: _,
            value: _,
        } => declare_names(names, Form::Constant, scope),
    }
}

/// The declarations of the package's specification.
pub fn declare_each(list: &Vec<Declaration>, scope: &mut Scope) -> Result<(), AllocError>
    ensures { OnOk result (scope.new ≡ with_declarations (map declaration_view list.now.items) scope.old) }
{
    for one in list {
        declare(one, scope)?;
    }
    Ok(())
}
