//! What the declarations of a package add to an outline (3.2.2, 3.3.1, 3.3.2, 7.1).

ghost use Rattle.std.specs.Prelude.{◌≡◌, OnOk, map, true, false};
ghost use Rattle.rv_tree.specs.NameView.{identifiers_view, name_view};
ghost use Rattle.rv_tree.specs.DeclarationView.{declaration_view};
ghost use Rattle.rv_scope.specs.Scope.{declaring_all, hiding_all};
ghost use Rattle.rv_scope.specs.Visible.{visible};
ghost use Rattle.rv_scope.specs.DeclarationUses.{object_form as form_of_objects, with_declaration, with_declarations};
ghost use Rattle.rv_outline.specs.Drafts.{adding_objects};
ghost use Rattle.rv_outline.specs.Declarations.{object_type as type_of_objects, declaration_outlined, declarations_outlined};

use crate::draft::Draft;
use crate::outline::ObjectType;
use crate::protected::protected_unit;
use crate::task::task_unit;
use rv_scope::members::{declare_variables, hide_all};
use rv_scope::subtype::{declare_constants, declare_subtype};
use rv_scope::{Declared, Scope};
use rv_tree::{Declaration, Identifier, Name};
use std::alloc::AllocError;

// What the objects of a mark are.
fn object_type(mark: Option<Declared>) -> ObjectType
    ensures { result ≡ type_of_objects mark }
{
    match mark {
        Some(Declared::ProtectedType(_, number)) => ObjectType::Protected(number),
        _ => ObjectType::Suspension,
    }
}

fn objects(
    names: &Vec<Identifier>,
    mark: &Name,
    is_visible: bool,
    scope: &mut Scope,
    draft: &mut Draft,
) -> Result<(), AllocError>
    ensures draft { OnOk result (draft.new
        ≡ adding_objects is_visible (type_of_objects (visible (hiding_all (identifiers_view names.now.items) scope.old) (name_view mark.now)))
        (identifiers_view names.now.items) draft.old) }
    ensures scope { OnOk result (scope.new
        ≡ declaring_all (form_of_objects (visible (hiding_all (identifiers_view names.now.items) scope.old) (name_view mark.now)))
        (identifiers_view names.now.items) (hiding_all (identifiers_view names.now.items) scope.old)) }
{
    hide_all(names, scope)?;
    let found = scope.visible(mark);
    let of = object_type(found);
    draft.add_objects(is_visible, of, names)?;
    declare_variables(names, mark, scope)?;
    Ok(())
}

/// A declaration of the package.
pub(crate) fn declaration(
    one: &Declaration,
    is_visible: bool,
    scope: &mut Scope,
    draft: &mut Draft,
) -> Result<(), AllocError>
    ensures draft { OnOk result (draft.new ≡ declaration_outlined scope.old is_visible (declaration_view one.now) draft.old) }
    ensures scope { OnOk result (scope.new ≡ with_declaration (declaration_view one.now) scope.old) }
{
    match one {
        Declaration::Pragma(_) => Ok(()),
        Declaration::Subtype {
            at: _,
            name: declared,
            mark,
            range,
        } => declare_subtype(
            declared,
            mark,
            range,
            scope,
            &mut draft.known,
            &mut draft.faults,
        ),
        Declaration::Protected(unit) => protected_unit(unit, is_visible, scope, draft),
        Declaration::Task(task) => task_unit(task, scope, draft),
        Declaration::Variable { names, mark } => objects(names, mark, is_visible, scope, draft),
        Declaration::Constant {
            names,
            mark,
            value: initial,
        } => declare_constants(
            names,
            mark,
            initial,
            scope,
            &mut draft.known,
            &mut draft.faults,
        ),
    }
}

/// The declarations of the package specification.
pub(crate) fn declarations(
    list: &Vec<Declaration>,
    scope: &mut Scope,
    draft: &mut Draft,
) -> Result<(), AllocError>
    ensures draft { OnOk result (draft.new ≡ declarations_outlined scope.old (map declaration_view list.now.items) draft.old) }
    ensures scope { OnOk result (scope.new ≡ with_declarations (map declaration_view list.now.items) scope.old) }
{
    for one in list {
        declaration(one, true, scope, draft)?;
    }
    Ok(())
}
