//! The operations that a protected unit declares (9.4).

ghost use Rattle.std.specs.Prelude.{◌≡◌, ◌++◌, [], map, OnOk, IfOk};
ghost use Rattle.rv_tree.specs.DeclarationView.{maybe, operation_view, element_view, protected_unit_view};
ghost use Rattle.rv_scope.specs.Scope.{OnlyDeclares, entered};
ghost use Rattle.rv_scope.specs.DeclarationUses.{with_operations, with_element};
ghost use Rattle.rv_scope.specs.Heads.{declared_head as head_of_declaration};
ghost use Rattle.rv_conform.specs.Profiles.{operation_in, outer_operations, operations_declared, element_declared, elements_declared, private_declared, unit_declared};

use crate::operation::{Operation, profiled};
use rv_scope::{Head, Scope, Table, declared_head, members};
use rv_tree::declaration::{OperationDeclaration, ProtectedElement, ProtectedUnit};
use std::alloc::AllocError;

// The operation of a head whose parameters stand in a region of their own.
fn outer_operation<'a>(
    head: &Head<'a>,
    scope: &mut Scope,
    statics: &Table,
) -> Result<Operation<'a>, AllocError>
    ensures value { IfOk result (λ o. o ≡ operation_in statics.now (entered scope.old) head.now) }
    ensures scope { OnOk result (scope.new ≡ scope.old) }
{
    scope.enter()?;
    let found = profiled(head, scope, statics)?;
    scope.leave();
    Ok(found)
}

// The operation of a declaration, behind those that are there.
fn add_operation<'a>(
    one: &'a OperationDeclaration,
    scope: &mut Scope,
    statics: &Table,
    done: &mut Vec<Operation<'a>>,
) -> Result<(), AllocError>
    ensures done { OnOk result (done.new.items
        ≡ done.old.items ++ outer_operations statics.now scope.old (head_of_declaration (operation_view one.now))) }
    ensures scope { OnOk result (scope.new ≡ scope.old) }
{
    match declared_head(one) {
        None => Ok(()),
        Some(head) => {
            let found = outer_operation(&head, scope, statics)?;
            done.push(found)?;
            Ok(())
        }
    }
}

fn operations<'a>(
    list: &'a Vec<OperationDeclaration>,
    scope: &mut Scope,
    statics: &Table,
    done: &mut Vec<Operation<'a>>,
) -> Result<(), AllocError>
    ensures done { OnOk result (done.new.items
        ≡ done.old.items ++ operations_declared statics.now scope.old (map operation_view list.now.items)) }
    ensures scope { OnOk result (scope.new ≡ with_operations (map operation_view list.now.items) scope.old) }
    ensures only { OnOk result (OnlyDeclares scope.old scope.new) }
{
    for one in list {
        add_operation(one, scope, statics, done)?;
        members::operation(one, scope)?;
    }
    Ok(())
}

fn add_element<'a>(
    one: &'a ProtectedElement,
    scope: &mut Scope,
    statics: &Table,
    done: &mut Vec<Operation<'a>>,
) -> Result<(), AllocError>
    ensures done { OnOk result (done.new.items ≡ done.old.items ++ element_declared statics.now scope.old (element_view one.now)) }
    ensures scope { OnOk result (scope.new ≡ scope.old) }
{
    match one {
        ProtectedElement::Operation(one) => add_operation(one, scope, statics, done),
        ProtectedElement::Component {
            names: _,
            mark: _,
            range: _,
            value: _,
        } => Ok(()),
    }
}

fn elements<'a>(
    list: &'a Vec<ProtectedElement>,
    scope: &mut Scope,
    statics: &Table,
    done: &mut Vec<Operation<'a>>,
) -> Result<(), AllocError>
    ensures done { OnOk result (done.new.items
        ≡ done.old.items ++ elements_declared statics.now scope.old (map element_view list.now.items)) }
    ensures only { OnOk result (OnlyDeclares scope.old scope.new) }
{
    for one in list {
        add_element(one, scope, statics, done)?;
        members::element(one, scope)?;
    }
    Ok(())
}

fn private_part<'a>(
    part: &'a Option<Vec<ProtectedElement>>,
    scope: &mut Scope,
    statics: &Table,
    done: &mut Vec<Operation<'a>>,
) -> Result<(), AllocError>
    ensures done { OnOk result (done.new.items
        ≡ done.old.items ++ private_declared statics.now scope.old (maybe (λ v. map element_view v.items) part.now)) }
    ensures only { OnOk result (OnlyDeclares scope.old scope.new) }
{
    match part {
        None => Ok(()),
        Some(list) => elements(list, scope, statics, done),
    }
}

/// All operations of a protected unit, at a point within its declaration. Err where memory was refused.
pub(crate) fn unit_operations<'a>(
    unit: &'a ProtectedUnit,
    scope: &mut Scope,
    statics: &Table,
) -> Result<Vec<Operation<'a>>, AllocError>
    ensures value { IfOk result (λ all. all.items ≡ unit_declared statics.now scope.old (protected_unit_view unit.now)) }
    ensures scope { OnOk result (scope.new ≡ scope.old) }
{
    let mut done = Vec::new(scope.allocator());
    scope.enter()?;
    operations(&unit.operations, scope, statics, &mut done)?;
    private_part(&unit.private, scope, statics, &mut done)?;
    scope.leave();
    Ok(done)
}
