//! Which fault of the bodies stands first in the text.
//!
//! Operations are compiled in the order of their declarations, and their bodies may stand in another order.

use crate::body::{operation_body, task_body};
use crate::refused::{Refused, mismatch};
use crate::setting::Setting;
use rv_scope::Scope;
use rv_scope::declaration::declare;
use rv_shape::object::Operation;
use rv_text::is_same_name;
use rv_tree::body::{OperationBody, ProtectedBody};
use rv_tree::declaration::ProtectedUnit;
use rv_tree::unit::BodyItem;
use std::alloc::Global;

// The operation that a body is of.
fn operation_of<'o>(body: &OperationBody, operations: &'o [Operation]) -> Option<&'o Operation> {
    let name = body.name().text.as_str();
    for operation in operations {
        if is_same_name(name, operation.name()) {
            return Some(operation);
        }
    }
    None
}

// The bodies of operations of the protected unit of a number.
fn operations<'a>(
    alloc: Global,
    setting: &Setting<'a>,
    number: usize,
    body: &ProtectedBody,
    around: Scope<'a>,
) -> Result<Scope<'a>, Refused> {
    let Some(unit) = setting.outline.units().get(number) else {
        return Err(mismatch(body.name.at));
    };
    let mut scope = around;
    for one in &body.operations {
        let Some(operation) = operation_of(one, unit.operations()) else {
            return Err(mismatch(body.name.at));
        };
        let (_, left) = operation_body(alloc, setting, operation, one, scope)?;
        scope = left;
    }
    Ok(scope)
}

// A protected body.
fn protected<'a>(
    alloc: Global,
    setting: &Setting<'a>,
    units: &[&ProtectedUnit],
    body: &ProtectedBody,
    around: Scope<'a>,
) -> Result<Scope<'a>, Refused> {
    let Some((number, unit)) = around.unit_of_body(&body.name, units) else {
        return Err(mismatch(body.name.at));
    };
    let mut scope = around;
    let outer = scope.enter_unit(unit)?;
    let mut left = operations(alloc, setting, number, body, scope)?;
    left.leave_unit(outer);
    Ok(left)
}

// An item of the package body.
fn item<'a>(
    alloc: Global,
    setting: &Setting<'a>,
    units: &[&ProtectedUnit],
    one: &BodyItem,
    around: Scope<'a>,
) -> Result<Scope<'a>, Refused> {
    match one {
        BodyItem::Declaration(declaration) => {
            let mut scope = around;
            declare(declaration, &mut scope)?;
            Ok(scope)
        }
        BodyItem::Protected(body) => protected(alloc, setting, units, body, around),
        BodyItem::Task(body) => {
            let (_, left) = task_body(alloc, setting, body, around)?;
            Ok(left)
        }
    }
}

/// Looks for the fault of the package body's items that stands first in the text.
pub(crate) fn look_in_order<'a>(
    alloc: Global,
    setting: &Setting<'a>,
    units: &[&ProtectedUnit],
    list: &Vec<BodyItem>,
    around: Scope<'a>,
) -> Result<(), Refused> {
    let mut scope = around;
    for one in list {
        scope = item(alloc, setting, units, one, scope)?;
    }
    Ok(())
}
