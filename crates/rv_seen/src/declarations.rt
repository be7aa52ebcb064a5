//! What is declared at a place of a package's declarations (3.2, 3.3, 9.1, 9.4).

ghost use Rattle.std.specs.Prelude.{◌≡◌, OnOk, map};
ghost use Rattle.rv_tree.specs.DeclarationView.{declaration_view};
ghost use Rattle.rv_seen.specs.At.{at_declaration, at_declarations, in_specification as within_specification};

use crate::begun::have_declarations_begun;
use crate::operations::unit_declaration;
use rv_scope::declaration::declare;
use rv_scope::members::{hide, hide_all};
use rv_scope::scope::Scope;
use rv_tree::declaration::Declaration;
use std::alloc::AllocError;

/// One declaration, which begins at the place or before it.
pub(crate) fn declaration(
    one: &Declaration,
    place: usize,
    scope: &mut Scope,
) -> Result<(), AllocError>
    ensures { OnOk result (scope.new ≡ at_declaration place (declaration_view one.now) scope.old) }
{
    match one {
        Declaration::Pragma(_) => Ok(()),
        Declaration::Subtype { name, .. } => hide(name, scope),
        Declaration::Protected(unit) => unit_declaration(unit, place, scope),
        Declaration::Task(task) => hide(&task.name, scope),
        Declaration::Variable { names, .. } => hide_all(names, scope),
        Declaration::Constant { names, .. } => hide_all(names, scope),
    }
}

fn declarations(list: &[Declaration], place: usize, scope: &mut Scope) -> Result<(), AllocError>
    ensures { OnOk result (scope.new ≡ at_declarations place (map declaration_view list.now) scope.old) }
{
    let mut rest = list;
    while let [one, more @ ..] = rest {
        if !have_declarations_begun(more, place) {
            return declaration(one, place, scope);
        }
        declare(one, scope)?;
        rest = more;
    }
    Ok(())
}

/// The declarations of the package's specification.
pub(crate) fn in_specification(
    list: &Vec<Declaration>,
    place: usize,
    scope: &mut Scope,
) -> Result<(), AllocError>
    ensures { OnOk result (scope.new ≡ within_specification place (map declaration_view list.now.items) scope.old) }
{
    if have_declarations_begun(list.as_slice(), place) {
        return declarations(list.as_slice(), place, scope);
    }
    Ok(())
}
