//! Violations in declarations.

ghost use Rattle.std.specs.Prelude.{◌≡◌, false, map};
ghost use Rattle.rv_tree.specs.Declarations as tree;
ghost use Rattle.rv_tree.specs.DeclarationView.{pragma_view, operation_view, element_view, protected_unit_view, task_view, maybe, pragma_argument_view, aspect_view, task_item_view, task_definition_view, declaration_view};
ghost use Rattle.rv_restrict.specs.Scope.{elements_of};
ghost use Rattle.rv_restrict.specs.Found.{earlier};
ghost use Rattle.rv_restrict.specs.DeclarationWalk.{is_entry, had_entry, is_entry_element, operation_noted, operations_noted, element_noted, elements_noted, argument_noted, pragma_noted, aspect_noted, protected_noted, task_item_noted, definition_noted, task_noted, declaration_noted};

use crate::first::{First, Judged};
use crate::violation::Restriction;
use rv_tree::{
    Aspect, Declaration, OperationDeclaration, Pragma, PragmaArgument, ProtectedElement,
    ProtectedUnit, TaskDefinition, TaskItem, TaskUnit,
};

impl Judged for PragmaArgument {
    ghost Tree = { tree.PragmaArgument };

    ghost view = { pragma_argument_view };

    ghost noted = { argument_noted earlier };

    fn judge(&self, first: &mut First) {
        self.value.judge(first);
    }
}

impl Judged for Pragma {
    ghost Tree = { tree.Pragma };

    ghost view = { pragma_view };

    ghost noted = { pragma_noted earlier };

    fn judge(&self, first: &mut First) {
        first.each(self.arguments.as_slice());
    }
}

impl Judged for Aspect {
    ghost Tree = { tree.Aspect };

    ghost view = { aspect_view };

    ghost noted = { aspect_noted earlier };

    fn judge(&self, first: &mut First) {
        first.maybe(&self.value);
    }
}

// Whether it declares an entry.
fn is_entry(operation: &OperationDeclaration) -> bool
    ensures { result ≡ is_entry (operation_view operation.now) }
{
    match operation {
        OperationDeclaration::Entry(_) => true,
        _ => false,
    }
}

// An operation; its protected unit has `had` an entry before it, or not.
fn operation(operation: &OperationDeclaration, had: bool, first: &mut First)
    ensures { first.new ≡ operation_noted earlier had (operation_view operation.now) first.old }
{
    match operation {
        OperationDeclaration::Pragma(pragma) => pragma.judge(first),
        OperationDeclaration::Function { .. } => {}
        OperationDeclaration::Procedure { aspects, .. } => first.each(aspects.as_slice()),
        OperationDeclaration::Entry(entry) => {
            first.note_unless(!had, Restriction::MaxProtectedEntries, entry.at);
        }
    }
}

// The operations before `private`, and whether there is an entry among them.
fn operations(list: &Vec<OperationDeclaration>, first: &mut First) -> bool
    ensures noted { first.new ≡ operations_noted earlier false (map operation_view list.now.items) first.old }
    ensures had { result ≡ had_entry false (map operation_view list.now.items) }
{
    let mut had = false;
    for one in list {
        operation(one, had, first);
        had = had || is_entry(one);
    }
    had
}

// Whether it declares an entry.
fn is_entry_element(element: &ProtectedElement) -> bool
    ensures { result ≡ is_entry_element (element_view element.now) }
{
    match element {
        ProtectedElement::Operation(operation) => is_entry(operation),
        ProtectedElement::Component { .. } => false,
    }
}

fn element(element: &ProtectedElement, had: bool, first: &mut First)
    ensures { first.new ≡ element_noted earlier had (element_view element.now) first.old }
{
    match element {
        ProtectedElement::Operation(one) => operation(one, had, first),
        ProtectedElement::Component { range, value, .. } => {
            first.maybe(range);
            first.maybe(value);
        }
    }
}

// What stands after `private`.
fn elements(list: &[ProtectedElement], had_before: bool, first: &mut First)
    ensures { first.new ≡ elements_noted earlier had_before (map element_view list.now) first.old }
{
    let mut had = had_before;
    for one in list {
        element(one, had, first);
        had = had || is_entry_element(one);
    }
}

impl Judged for ProtectedUnit {
    ghost Tree = { tree.ProtectedUnit };

    ghost view = { protected_unit_view };

    ghost noted = { protected_noted earlier };

    fn judge(&self, first: &mut First) {
        first.each(self.aspects.as_slice());
        let had = operations(&self.operations, first);
        match &self.private {
            None => {}
            Some(list) => elements(list.as_slice(), had, first),
        }
    }
}

impl Judged for TaskItem {
    ghost Tree = { tree.TaskItem };

    ghost view = { task_item_view };

    ghost noted = { task_item_noted earlier };

    fn judge(&self, first: &mut First) {
        match self {
            TaskItem::Pragma(pragma) => pragma.judge(first),
            TaskItem::Entry(entry) => first.note(Restriction::MaxTaskEntries, entry.at),
        }
    }
}

impl Judged for TaskDefinition {
    ghost Tree = { tree.TaskDefinition };

    ghost view = { task_definition_view };

    ghost noted = { definition_noted earlier };

    fn judge(&self, first: &mut First) {
        first.each(self.items.as_slice());
    }
}

impl Judged for TaskUnit {
    ghost Tree = { tree.TaskUnit };

    ghost view = { task_view };

    ghost noted = { task_noted earlier };

    fn judge(&self, first: &mut First) {
        first.each(self.aspects.as_slice());
        first.maybe(&self.definition);
    }
}

impl Judged for Declaration {
    ghost Tree = { tree.Declaration };

    ghost view = { declaration_view };

    ghost noted = { declaration_noted earlier };

    fn judge(&self, first: &mut First) {
        match self {
            Declaration::Pragma(pragma) => pragma.judge(first),
            Declaration::Subtype { range, .. } => first.maybe(range),
            Declaration::Protected(unit) => unit.judge(first),
            Declaration::Task(task) => task.judge(first),
            Declaration::Variable { .. } => {}
            Declaration::Constant { value, .. } => value.judge(first),
        }
    }
}
