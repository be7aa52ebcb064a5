//! Whether the first of a list begins at a place of the text or before it.

ghost use Rattle.std.specs.Prelude.{◌≡◌, map};
ghost use Rattle.rv_tree.specs.NameView.{identifiers_view};
ghost use Rattle.rv_tree.specs.Statements.{statements_of, elsif_parts_of, alternatives_of};
ghost use Rattle.rv_tree.specs.StatementView.{statements_view, elsif_parts_view, alternatives_view};
ghost use Rattle.rv_tree.specs.DeclarationView.{aspect_view, parameter_view, operation_view, element_view, declaration_view};
ghost use Rattle.rv_tree.specs.BodyView.{local_view, handler_view, block_view, operation_body_view};
ghost use Rattle.rv_tree.specs.UnitView.{body_item_view};
ghost use Rattle.rv_tree.specs.Operations.{operation_place};
ghost use Rattle.rv_tree.specs.Places.{declaration_place, local_place, names_place as place_of_names};
ghost use Rattle.rv_seen.specs.Begun.{has_begun, are_begun as statements_are_begun, parts_are_begun as elsif_parts_are_begun, alternatives_are_begun as cases_are_begun, parameter_place as place_of_parameter, element_place as place_of_element, operation_body_place as place_of_body, item_place as place_of_item};
ghost use Rattle.rv_seen.specs.At.{block_has_begun as a_block_has_begun};

use rv_tree::body::{Block, Handler, Local, OperationBody};
use rv_tree::declaration::{
    Aspect, Declaration, OperationDeclaration, Parameter, ProtectedElement,
};
use rv_tree::name::Identifier;
use rv_tree::statement::{CaseAlternative, ElsifPart, Statement};
use rv_tree::unit::BodyItem;

pub(crate) fn are_begun(list: &[Statement], place: usize) -> bool
    ensures { result ≡ statements_are_begun place (statements_of (statements_view list.now)) }
{
    match list {
        [first, ..] => first.place() <= place,
        [] => false,
    }
}

pub(crate) fn parts_are_begun(list: &[ElsifPart], place: usize) -> bool
    ensures { result ≡ elsif_parts_are_begun place (elsif_parts_of (elsif_parts_view list.now)) }
{
    match list {
        [first, ..] => first.at <= place,
        [] => false,
    }
}

pub(crate) fn alternatives_are_begun(list: &[CaseAlternative], place: usize) -> bool
    ensures { result ≡ cases_are_begun place (alternatives_of (alternatives_view list.now)) }
{
    match list {
        [first, ..] => first.at <= place,
        [] => false,
    }
}

// The place of the first of some identifiers; 0 where there is none.
fn names_place(names: &[Identifier]) -> usize
    ensures { result ≡ place_of_names (identifiers_view names.now) }
{
    match names {
        [first, ..] => first.at,
        [] => 0,
    }
}

/// The place of a parameter specification.
pub(crate) fn parameter_place(one: &Parameter) -> usize
    ensures { result ≡ place_of_parameter (parameter_view one.now) }
{
    names_place(one.names.as_slice())
}

pub(crate) fn have_parameters_begun(list: &[Parameter], place: usize) -> bool
    ensures { result ≡ has_begun place_of_parameter place (map parameter_view list.now) }
{
    match list {
        [first, ..] => parameter_place(first) <= place,
        [] => false,
    }
}

pub(crate) fn have_aspects_begun(list: &[Aspect], place: usize) -> bool
    ensures { result ≡ has_begun (λ aspect. aspect.name.at) place (map aspect_view list.now) }
{
    match list {
        [first, ..] => first.name.at <= place,
        [] => false,
    }
}

pub(crate) fn have_operations_begun(list: &[OperationDeclaration], place: usize) -> bool
    ensures { result ≡ has_begun operation_place place (map operation_view list.now) }
{
    match list {
        [first, ..] => first.place() <= place,
        [] => false,
    }
}

// The place of an element of a protected unit.
fn element_place(one: &ProtectedElement) -> usize
    ensures { result ≡ place_of_element (element_view one.now) }
{
    match one {
        ProtectedElement::Operation(one) => one.place(),
        ProtectedElement::Component { names, .. } => names_place(names.as_slice()),
    }
}

pub(crate) fn have_elements_begun(list: &[ProtectedElement], place: usize) -> bool
    ensures { result ≡ has_begun place_of_element place (map element_view list.now) }
{
    match list {
        [first, ..] => element_place(first) <= place,
        [] => false,
    }
}

pub(crate) fn have_declarations_begun(list: &[Declaration], place: usize) -> bool
    ensures { result ≡ has_begun declaration_place place (map declaration_view list.now) }
{
    match list {
        [first, ..] => first.place() <= place,
        [] => false,
    }
}

pub(crate) fn have_locals_begun(list: &[Local], place: usize) -> bool
    ensures { result ≡ has_begun local_place place (map local_view list.now) }
{
    match list {
        [first, ..] => first.place() <= place,
        [] => false,
    }
}

pub(crate) fn have_handlers_begun(list: &[Handler], place: usize) -> bool
    ensures { result ≡ has_begun (λ handler. handler.at) place (map handler_view list.now) }
{
    match list {
        [first, ..] => first.at <= place,
        [] => false,
    }
}

/// Whether a part of a block begins there.
pub(crate) fn block_has_begun(block: &Block, place: usize) -> bool
    ensures { result ≡ a_block_has_begun place (block_view block.now) }
{
    have_locals_begun(block.locals.as_slice(), place)
        || are_begun(block.statements.as_slice(), place)
}

// The place of the body of an operation.
fn body_place(body: &OperationBody) -> usize
    ensures { result ≡ place_of_body (operation_body_view body.now) }
{
    match body {
        OperationBody::Function { at, .. }
        | OperationBody::Procedure { at, .. }
        | OperationBody::Entry { at, .. } => *at,
    }
}

pub(crate) fn have_bodies_begun(list: &[OperationBody], place: usize) -> bool
    ensures { result ≡ has_begun place_of_body place (map operation_body_view list.now) }
{
    match list {
        [first, ..] => body_place(first) <= place,
        [] => false,
    }
}

// The place of an item of the package body.
fn item_place(item: &BodyItem) -> usize
    ensures { result ≡ place_of_item (body_item_view item.now) }
{
    match item {
        BodyItem::Declaration(one) => one.place(),
        BodyItem::Protected(body) => body.at,
        BodyItem::Task(body) => body.at,
    }
}

pub(crate) fn have_items_begun(list: &[BodyItem], place: usize) -> bool
    ensures { result ≡ has_begun place_of_item place (map body_item_view list.now) }
{
    match list {
        [first, ..] => item_place(first) <= place,
        [] => false,
    }
}
