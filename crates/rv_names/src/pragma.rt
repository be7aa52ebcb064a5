//! The names that pragmas and aspects use, of which those of priorities and of lines have effect.

ghost use Rattle.std.specs.Prelude.{◌≡◌, map};
ghost use Rattle.rv_tree.specs.DeclarationView.{pragma_view, pragma_argument_view, aspect_view};
ghost use Rattle.rv_scope.specs.Bound.{judged};
ghost use Rattle.rv_scope.specs.DeclarationUses.{arguments_uses, pragma_uses, aspects_uses};

use crate::expression::{expression, maybe_value};
use crate::fault::{Faults, NameFault};
use rv_scope::pragma::{is_attachment, is_priority};
use rv_scope::scope::Scope;
use rv_scope::wanted::Wanted;
use rv_tree::declaration::{
    Aspect, OperationDeclaration, Parameter, Pragma, PragmaArgument, ProtectedElement,
    ProtectedUnit, TaskItem, TaskUnit,
};
use rv_tree::expression::Expression;
use rv_tree::name::Identifier;

// The arguments of a pragma, all but the first being values.
fn arguments(list: &Vec<PragmaArgument>, first: Wanted, scope: &Scope, faults: &mut Faults)
    ensures { faults.new ≡ arguments_uses judged scope.now first (map pragma_argument_view list.now.items) faults.old }
{
    let mut wanted = first;
    for argument in list {
        expression(&argument.value, wanted, scope, faults);
        wanted = Wanted::Value;
    }
}

/// A pragma of a protected unit or a task.
pub(crate) fn pragma(pragma: &Pragma, scope: &Scope, faults: &mut Faults)
    ensures { faults.new ≡ pragma_uses judged scope.now (pragma_view pragma.now) faults.old }
{
    let name = pragma.name.text.as_str();
    if is_priority(name) {
        arguments(&pragma.arguments, Wanted::Value, scope, faults);
    } else if is_attachment(name) {
        arguments(&pragma.arguments, Wanted::Handler, scope, faults);
    }
}

/// The aspects of a declaration.
pub(crate) fn aspects(list: &Vec<Aspect>, scope: &Scope, faults: &mut Faults)
    ensures { faults.new ≡ aspects_uses judged scope.now (map aspect_view list.now.items) faults.old }
{
    for aspect in list {
        maybe_value(&aspect.value, scope, faults);
    }
}

// An aspect that has no effect here.
fn unknown(aspect: &Aspect, faults: &mut Faults)
    ensures { faults.new ≡ faults.old }
{
    faults.tell(NameFault::Unknown(aspect.name.at));
}

// A priority or a line that is given, of which there were some before.
fn given(name: &Identifier, before: bool, faults: &mut Faults)
    ensures { faults.new ≡ faults.old }
{
    if before {
        faults.tell(NameFault::Duplicate(name.at));
    }
}

/// The aspects of a procedure: one without parameters may be attached to a line (C.3.1).
pub(crate) fn procedure_rules(parameters: &Vec<Parameter>, list: &Vec<Aspect>, faults: &mut Faults)
    ensures { faults.new ≡ faults.old }
{
    let mut is_given = false;
    for aspect in list {
        if is_attachment(aspect.name.text.as_str()) {
            if !parameters.is_empty() {
                faults.tell(NameFault::WrongKind(aspect.name.at));
            }
            given(&aspect.name, is_given, faults);
            is_given = true;
        } else {
            unknown(aspect, faults);
        }
    }
}

// The aspects of a protected unit or a task, which may have a priority (D.1, D.3): whether one is given.
fn priority_aspects(list: &Vec<Aspect>, faults: &mut Faults) -> bool
    ensures { faults.new ≡ faults.old }
{
    let mut is_given = false;
    for aspect in list {
        if is_priority(aspect.name.text.as_str()) {
            given(&aspect.name, is_given, faults);
            is_given = true;
        } else {
            unknown(aspect, faults);
        }
    }
    is_given
}

// A pragma of a protected unit or a task, behind which a priority is given or not.
fn priority_pragma(pragma: &Pragma, is_given: bool, faults: &mut Faults) -> bool
    ensures { faults.new ≡ faults.old }
{
    if is_priority(pragma.name.text.as_str()) {
        given(&pragma.name, is_given, faults);
        return true;
    }
    is_given
}

// An `Attach_Handler` has a procedure and a line (C.3.1).
fn attachment(pragma: &Pragma, faults: &mut Faults)
    ensures { faults.new ≡ faults.old }
{
    if !is_attachment(pragma.name.text.as_str()) {
        return;
    }
    match pragma.arguments.as_slice() {
        [first, _] => {
            if !is_name(&first.value) {
                faults.tell(NameFault::WrongKind(pragma.name.at));
            }
        }
        _ => faults.tell(NameFault::WrongKind(pragma.name.at)),
    }
}

fn is_name(e: &Expression) -> bool {
    match e {
        Expression::Name(_) => true,
        _ => false,
    }
}

/// The aspects and pragmas of a protected unit.
pub(crate) fn protected_rules(unit: &ProtectedUnit, faults: &mut Faults)
    ensures { faults.new ≡ faults.old }
{
    let mut is_given = priority_aspects(&unit.aspects, faults);
    for operation in &unit.operations {
        if let OperationDeclaration::Pragma(pragma) = operation {
            is_given = priority_pragma(pragma, is_given, faults);
            attachment(pragma, faults);
        }
    }
    if let Some(elements) = &unit.private {
        for element in elements {
            if let ProtectedElement::Operation(OperationDeclaration::Pragma(pragma)) = element {
                is_given = priority_pragma(pragma, is_given, faults);
                attachment(pragma, faults);
            }
        }
    }
}

/// The aspects and pragmas of a task.
pub(crate) fn task_rules(task: &TaskUnit, faults: &mut Faults)
    ensures { faults.new ≡ faults.old }
{
    let mut is_given = priority_aspects(&task.aspects, faults);
    if let Some(definition) = &task.definition {
        for item in &definition.items {
            if let TaskItem::Pragma(pragma) = item {
                is_given = priority_pragma(pragma, is_given, faults);
                if is_attachment(pragma.name.text.as_str()) {
                    faults.tell(NameFault::WrongKind(pragma.name.at));
                }
            }
        }
    }
}

/// A pragma that stands in no protected unit and no task, where one of a priority or of a line has no place.
pub(crate) fn stray_pragma(pragma: &Pragma, faults: &mut Faults)
    ensures { faults.new ≡ faults.old }
{
    let name = pragma.name.text.as_str();
    if is_priority(name) || is_attachment(name) {
        faults.tell(NameFault::WrongKind(pragma.name.at));
    }
}
