//! The names that bodies of operations use.

ghost use Rattle.std.specs.Prelude.{◌≡◌, true, OnOk, map};
ghost use Rattle.rv_tree.specs.NameView.{identifier_view};
ghost use Rattle.rv_tree.specs.BodyView.{operation_body_view};
ghost use Rattle.rv_scope.specs.Bound.{judged};
ghost use Rattle.rv_scope.specs.Wanted.{is_body};
ghost use Rattle.rv_scope.specs.ExpressionUses.{simple as simple_name};
ghost use Rattle.rv_scope.specs.UnitUses.{body_wanted as wanted_by_body, mark_or_barrier_uses, operation_body_uses, operation_bodies_uses};

use crate::body::block;
use crate::expression::{name, value};
use crate::fault::{Faults, NameFault};
use crate::protected::parameters;
use rv_scope::scope::Scope;
use rv_scope::wanted::Wanted;
use rv_tree::body::OperationBody;
use rv_tree::name::Identifier;
use std::alloc::AllocError;

/// The name of a body: a declaration of it must stand in the innermost region.
#[tactic(auto, unfolding(rv_scope::specs::Bound::judged))]
pub(crate) fn body_name(declared: &Identifier, wanted: Wanted, scope: &Scope, faults: &mut Faults)
    requires { is_body wanted ≡ true }
    ensures { faults.new ≡ judged scope.now wanted (simple_name (identifier_view declared.now)) faults.old }
{
    match scope.denoted_by_body(wanted, declared) {
        Some(found) => {
            if !wanted.suits(found.sort()) {
                faults.tell_unbound(NameFault::WrongKind(declared.at));
            }
        }
        None => {
            let fault = undeclared(declared, wanted, faults);
            faults.tell_unbound(fault);
        }
    }
}

// The fault of a body that no declaration stands before. It is only looked for where it could be the first.
fn undeclared(declared: &Identifier, wanted: Wanted, faults: &Faults) -> NameFault {
    if faults.matters(declared.at) {
        faults.around.undeclared(wanted, declared)
    } else {
        NameFault::Unknown(declared.at)
    }
}

// What a body of an operation wants to be declared.
fn body_wanted(body: &OperationBody) -> Wanted
    ensures wanted { result ≡ wanted_by_body (operation_body_view body.now) }
    ensures is_body { is_body result ≡ true }
{
    match body {
        OperationBody::Function { .. } => Wanted::FunctionBody,
        OperationBody::Procedure { .. } => Wanted::ProcedureBody,
        OperationBody::Entry { .. } => Wanted::EntryBody,
    }
}

// The mark of a function's result, or the barrier of an entry.
fn mark_or_barrier(body: &OperationBody, scope: &Scope, faults: &mut Faults)
    ensures { faults.new ≡ mark_or_barrier_uses judged scope.now (operation_body_view body.now) faults.old }
{
    match body {
        OperationBody::Function { mark, .. } => name(mark, Wanted::Subtype, scope, faults),
        OperationBody::Procedure { .. } => {}
        OperationBody::Entry { barrier, .. } => value(barrier, scope, faults),
    }
}

fn operation_body<'a>(
    body: &'a OperationBody,
    scope: &mut Scope,
    faults: &mut Faults<'a>,
) -> Result<(), AllocError>
    ensures faults { OnOk result (faults.new ≡ operation_body_uses judged scope.old (operation_body_view body.now) faults.old) }
    ensures scope { OnOk result (scope.new ≡ scope.old) }
{
    let declared = body.name();
    let list = body.parameters();
    let part = body.block();
    body_name(declared, body_wanted(body), scope, faults);
    let around = scope.enter_body(declared)?;
    parameters(list, scope, faults)?;
    mark_or_barrier(body, scope, faults);
    block(part, scope, faults)?;
    scope.leave_body(around);
    Ok(())
}

/// The bodies of a protected unit's operations.
pub(crate) fn operation_bodies<'a>(
    list: &'a Vec<OperationBody>,
    scope: &mut Scope,
    faults: &mut Faults<'a>,
) -> Result<(), AllocError>
    ensures faults { OnOk result (faults.new ≡ operation_bodies_uses judged scope.old (map operation_body_view list.now.items) faults.old) }
    ensures scope { OnOk result (scope.new ≡ scope.old) }
{
    for body in list {
        operation_body(body, scope, faults)?;
    }
    Ok(())
}
