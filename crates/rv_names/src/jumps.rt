//! Each `exit` stands in a loop, and each `raise` without a name in an exception handler (5.7, 11.3).
//!
//! They are looked at in the order of the text, so that the first fault is the one at the least place.

ghost use Rattle.std.specs.Prelude.{◌≡◌, map, true, false, None};
ghost use Rattle.std.specs.List.{list_all};
ghost use Rattle.rv_tree.specs.Statements.{statements_of, elsif_parts_of, alternatives_of};
ghost use Rattle.rv_tree.specs.StatementView.{statement_view, statements_view, elsif_parts_view, alternatives_view};
ghost use Rattle.rv_tree.specs.BodyView.{handler_view, block_view, operation_body_view};
ghost use Rattle.rv_tree.specs.UnitView.{body_item_view, unit_view};
ghost use Rattle.rv_names.specs.Jumps.{is_placed, are_placed, parts_are_placed, alternatives_are_placed, handler_is_placed, block_is_placed, operation_is_placed, item_is_placed, unit_is_placed};

use crate::fault::NameFault;
use rv_tree::body::{Block, Handler, OperationBody};
use rv_tree::statement::{CaseAlternative, ElsifPart, Statement};
use rv_tree::unit::{BodyItem, UnitTree};

// The fault of a statement at this place, which stands where it may, or doesn't.
fn fault_unless(stands: bool, at: usize) -> Option<NameFault>
    ensures { result ≡ None → stands ≡ true }
{
    if stands {
        None
    } else {
        Some(NameFault::WrongKind(at))
    }
}

#[cycle(statement)]
fn statement_fault(statement: &Statement, in_loop: bool, in_handler: bool) -> Option<NameFault>
    ensures { result ≡ None → is_placed in_loop in_handler (statement_view statement.now) ≡ true }
{
    match statement {
        Statement::Exit(at, _) => fault_unless(in_loop, *at),
        Statement::Raise(at, exception) => fault_unless(exception.is_some() || in_handler, *at),
        Statement::Loop { statements, .. } => statements_fault(statements, true, in_handler),
        Statement::If {
            statements,
            elsif_parts,
            else_statements,
            ..
        } => {
            if let Some(fault) = statements_fault(statements, in_loop, in_handler) {
                return Some(fault);
            }
            if let Some(fault) = elsif_parts_fault(elsif_parts, in_loop, in_handler) {
                return Some(fault);
            }
            statements_fault(else_statements, in_loop, in_handler)
        }
        Statement::Case { alternatives, .. } => alternatives_fault(
            alternatives,
            in_loop,
            in_handler,
        ),
        _ => None,
    }
}

#[cycle(statement)]
fn statements_fault(list: &Vec<Statement>, in_loop: bool, in_handler: bool) -> Option<NameFault>
    ensures { result ≡ None
        → are_placed in_loop in_handler (statements_of (statements_view list.now.items)) ≡ true }
{
    for one in list {
        if let Some(fault) = statement_fault(one, in_loop, in_handler) {
            return Some(fault);
        }
    }
    None
}

#[cycle(statement)]
fn elsif_parts_fault(list: &Vec<ElsifPart>, in_loop: bool, in_handler: bool) -> Option<NameFault>
    ensures { result ≡ None
        → parts_are_placed in_loop in_handler (elsif_parts_of (elsif_parts_view list.now.items)) ≡ true }
{
    for part in list {
        if let Some(fault) = statements_fault(&part.statements, in_loop, in_handler) {
            return Some(fault);
        }
    }
    None
}

#[cycle(statement)]
fn alternatives_fault(
    list: &Vec<CaseAlternative>,
    in_loop: bool,
    in_handler: bool,
) -> Option<NameFault>
    ensures { result ≡ None
        → alternatives_are_placed in_loop in_handler (alternatives_of (alternatives_view list.now.items)) ≡ true }
{
    for alternative in list {
        if let Some(fault) = statements_fault(&alternative.statements, in_loop, in_handler) {
            return Some(fault);
        }
    }
    None
}

fn handlers_fault(list: &Vec<Handler>) -> Option<NameFault>
    ensures { result ≡ None → list_all handler_is_placed (map handler_view list.now.items) ≡ true }
{
    for handler in list {
        if let Some(fault) = statements_fault(&handler.statements, false, true) {
            return Some(fault);
        }
    }
    None
}

fn block_fault(block: &Block) -> Option<NameFault>
    ensures { result ≡ None → block_is_placed (block_view block.now) ≡ true }
{
    if let Some(fault) = statements_fault(&block.statements, false, false) {
        return Some(fault);
    }
    handlers_fault(&block.handlers)
}

fn operation_fault(body: &OperationBody) -> Option<NameFault>
    ensures { result ≡ None → operation_is_placed (operation_body_view body.now) ≡ true }
{
    block_fault(body.block())
}

fn operations_fault(list: &Vec<OperationBody>) -> Option<NameFault>
    ensures { result ≡ None → list_all operation_is_placed (map operation_body_view list.now.items) ≡ true }
{
    for one in list {
        if let Some(fault) = operation_fault(one) {
            return Some(fault);
        }
    }
    None
}

fn item_fault(item: &BodyItem) -> Option<NameFault>
    ensures { result ≡ None → item_is_placed (body_item_view item.now) ≡ true }
{
    match item {
        BodyItem::Declaration(_) => None,
        BodyItem::Protected(body) => operations_fault(&body.operations),
        BodyItem::Task(body) => block_fault(&body.block),
    }
}

fn items_fault(list: &Vec<BodyItem>) -> Option<NameFault>
    ensures { result ≡ None → list_all item_is_placed (map body_item_view list.now.items) ≡ true }
{
    for one in list {
        if let Some(fault) = item_fault(one) {
            return Some(fault);
        }
    }
    None
}

/// The first fault of an `exit` or a `raise`. Without one each of them stands where it may.
pub(crate) fn jump_fault(tree: &UnitTree) -> Option<NameFault>
    ensures { result ≡ None → unit_is_placed (unit_view tree.now) ≡ true }
{
    items_fault(&tree.body.items)
}
