//! The names after `end`, each of which is the opening one (6.3, 7.1, 7.2, 9.1, 9.4, 9.5.2).
//!
//! They are looked at in the order of the text, so that the first fault is the one at the least place.

ghost use Rattle.std.specs.Prelude.{◌≡◌, map, true, None};
ghost use Rattle.std.specs.List.{list_all};
ghost use Rattle.rv_tree.specs.NameView.{identifier_view};
ghost use Rattle.rv_tree.specs.DeclarationView.{maybe, declaration_view, task_definition_view};
ghost use Rattle.rv_tree.specs.BodyView.{operation_body_view, protected_body_view};
ghost use Rattle.rv_tree.specs.UnitView.{body_item_view, unit_view};
ghost use Rattle.rv_names.specs.EndNames.{ends, definition_ends, declaration_ends, operation_body_ends, body_item_ends, unit_ends};

use crate::fault::NameFault;
use rv_text::is_same_name;
use rv_tree::body::{OperationBody, ProtectedBody};
use rv_tree::declaration::{Declaration, TaskDefinition};
use rv_tree::name::Identifier;
use rv_tree::unit::{BodyItem, UnitTree};

// The fault of a name after `end`.
fn end_fault(opening: &Identifier, end: &Option<Identifier>) -> Option<NameFault>
    ensures { result ≡ None → ends (identifier_view opening.now) (maybe identifier_view end.now) ≡ true }
{
    match end {
        None => None,
        Some(end) => {
            if is_same_name(opening.text.as_str(), end.text.as_str()) {
                None
            } else {
                Some(NameFault::EndName(end.at))
            }
        }
    }
}

fn definition_fault(opening: &Identifier, definition: &Option<TaskDefinition>) -> Option<NameFault>
    ensures { result ≡ None → definition_ends (identifier_view opening.now) (maybe task_definition_view definition.now) ≡ true }
{
    match definition {
        None => None,
        Some(definition) => end_fault(opening, &definition.end_name),
    }
}

fn declaration_fault(declaration: &Declaration) -> Option<NameFault>
    ensures { result ≡ None → declaration_ends (declaration_view declaration.now) ≡ true }
{
    match declaration {
        Declaration::Protected(unit) => end_fault(&unit.name, &unit.end_name),
        Declaration::Task(task) => definition_fault(&task.name, &task.definition),
        _ => None,
    }
}

fn declarations_fault(list: &Vec<Declaration>) -> Option<NameFault>
    ensures { result ≡ None → list_all declaration_ends (map declaration_view list.now.items) ≡ true }
{
    for one in list {
        if let Some(fault) = declaration_fault(one) {
            return Some(fault);
        }
    }
    None
}

fn operation_fault(body: &OperationBody) -> Option<NameFault>
    ensures { result ≡ None → operation_body_ends (operation_body_view body.now) ≡ true }
{
    end_fault(body.name(), &body.block().end_name)
}

fn operations_fault(list: &Vec<OperationBody>) -> Option<NameFault>
    ensures { result ≡ None → list_all operation_body_ends (map operation_body_view list.now.items) ≡ true }
{
    for one in list {
        if let Some(fault) = operation_fault(one) {
            return Some(fault);
        }
    }
    None
}

fn item_fault(item: &BodyItem) -> Option<NameFault>
    ensures { result ≡ None → body_item_ends (body_item_view item.now) ≡ true }
{
    match item {
        BodyItem::Declaration(declaration) => declaration_fault(declaration),
        BodyItem::Protected(body) => {
            if let Some(fault) = operations_fault(&body.operations) {
                return Some(fault);
            }
            end_fault(&body.name, &body.end_name)
        }
        BodyItem::Task(body) => end_fault(&body.name, &body.block.end_name),
    }
}

fn items_fault(list: &Vec<BodyItem>) -> Option<NameFault>
    ensures { result ≡ None → list_all body_item_ends (map body_item_view list.now.items) ≡ true }
{
    for one in list {
        if let Some(fault) = item_fault(one) {
            return Some(fault);
        }
    }
    None
}

/// The first fault of the names after `end`. Without one each of them is the opening one.
pub(crate) fn end_name_fault(tree: &UnitTree) -> Option<NameFault>
    ensures { result ≡ None → unit_ends (unit_view tree.now) ≡ true }
{
    let specification = &tree.specification;
    if let Some(fault) = declarations_fault(&specification.declarations) {
        return Some(fault);
    }
    if let Some(fault) = end_fault(&specification.name, &specification.end_name) {
        return Some(fault);
    }
    if let Some(fault) = items_fault(&tree.body.items) {
        return Some(fault);
    }
    end_fault(&tree.body.name, &tree.body.end_name)
}
