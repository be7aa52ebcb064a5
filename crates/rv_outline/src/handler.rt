//! The lines that handlers are attached to (C.3.1, C.3.2).

ghost use Rattle.std.specs.Prelude.{◌≡◌, map, is_some};
ghost use Rattle.rv_tree.specs.DeclarationView.{maybe, pragma_view, pragma_argument_view};
ghost use Rattle.rv_tree.specs.ExpressionView.{expression_view};
ghost use Rattle.rv_shape.specs.Forms.{are_none};
ghost use Rattle.rv_static.specs.Told.{told_unless};
ghost use Rattle.rv_outline.specs.Handlers.{line_in, line_of, aspect_line as line_of_aspect, procedure_in, procedure_named as procedure_of_name, operation_index, operation_at as operation_of_place, unattached as unattached_of, handler_named as handler_of_name, attachment as attachment_of};

use crate::draft::{Draft, OperationDraft};
use rv_scope::{Declared, Known, OperationKind, Predefined, Scope};
use rv_static::{Faults, TypeFault};
use rv_tree::{Aspect, Expression, Pragma};

/// A procedure, by the place of its identifier, and the line 0 .. 9 that it is attached to.
#[derive(Clone, Copy)]
pub(crate) struct Attachment {
    pub(crate) at: usize,
    pub(crate) line: usize,
}

// The line that a declaration is.
fn line_declared(found: Option<Declared>) -> Option<usize>
    ensures { result ≡ line_in found }
{
    match found {
        Some(Declared::Predefined(Predefined::Line(line))) => Some(line),
        _ => None,
    }
}

// The line of an expression.
fn line_named(e: &Expression, scope: &Scope) -> Option<usize>
    ensures { result ≡ line_of scope.now (expression_view e.now) }
{
    match e {
        Expression::Name(name) => line_declared(scope.visible(name)),
        Expression::Parenthesized(_, inner) => line_named(inner, scope),
        _ => None,
    }
}

// The line of an expression; or `None`, where a fault was told.
fn line(e: &Expression, scope: &Scope, faults: &mut Faults) -> Option<usize>
    ensures value { result ≡ line_of scope.now (expression_view e.now) }
    ensures told { faults.new ≡ told_unless result faults.old }
{
    let found = line_named(e, scope);
    if found.is_none() {
        faults.tell(TypeFault::Mismatch(e.place()));
    }
    found
}

/// The line that an aspect gives; or `None`, where a fault was told.
pub(crate) fn aspect_line(aspect: &Aspect, scope: &Scope, faults: &mut Faults) -> Option<usize>
    ensures value { result ≡ line_of_aspect scope.now (maybe expression_view aspect.now.value) }
    ensures told { faults.new ≡ told_unless result faults.old }
{
    match &aspect.value {
        None => {
            faults.tell(TypeFault::Mismatch(aspect.name.at));
            None
        }
        Some(e) => line(e, scope, faults),
    }
}

// The place of a procedure of the protected unit around the point.
fn procedure_declared(found: Option<Declared>) -> Option<usize>
    ensures { result ≡ procedure_in found }
{
    match found {
        Some(Declared::Operation(at, OperationKind::Procedure)) => Some(at),
        _ => None,
    }
}

fn procedure_named(e: &Expression, scope: &Scope) -> Option<usize>
    ensures { result ≡ procedure_of_name scope.now (expression_view e.now) }
{
    match e {
        Expression::Name(name) => procedure_declared(scope.visible(name)),
        _ => None,
    }
}

fn index_of(known: Option<Known>) -> Option<usize>
    ensures { result ≡ operation_index known }
{
    match known {
        Some(Known::Operation(_, index)) => Some(index),
        _ => None,
    }
}

// A procedure without parameters that handles no line yet: its place.
fn unattached(draft: &Draft, at: usize, found: &OperationDraft) -> Option<usize>
    ensures { result ≡ unattached_of draft.now at found.now }
{
    if found.operation.parameters().is_empty() && draft.kinds.find(at).is_none() {
        Some(at)
    } else {
        None
    }
}

// The procedure that an expression names, if a line can be given to it: its place.
fn handler_named(e: &Expression, scope: &Scope, draft: &Draft) -> Option<usize>
    ensures { result ≡ handler_of_name scope.now draft.now (expression_view e.now) }
{
    let at = procedure_named(e, scope)?;
    let index = index_of(draft.known.find(at))?;
    let found = draft.current.operations.get(index)?;
    unattached(draft, at, found)
}

// The same; or `None`, where a fault was told.
fn handler(e: &Expression, scope: &Scope, draft: &mut Draft) -> Option<usize>
    ensures value { result ≡ handler_of_name scope.now draft.old (expression_view e.now) }
    ensures told { draft.new ≡ record draft.old { told = told_unless result draft.old.told } }
{
    let found = handler_named(e, scope, draft);
    if found.is_none() {
        draft.faults.tell(TypeFault::Mismatch(e.place()));
    }
    found
}

/// What `Attach_Handler (Procedure, Line)` attaches; or `None`, where a fault was told.
pub(crate) fn attached_by(pragma: &Pragma, scope: &Scope, draft: &mut Draft) -> Option<Attachment>
    ensures value { result ≡ attachment_of scope.now draft.old (map pragma_argument_view pragma.now.arguments.items) }
    ensures told { draft.new ≡ record draft.old { told = told_unless result draft.old.told } }
{
    match pragma.arguments.as_slice() {
        [procedure, number] => {
            let at = handler(&procedure.value, scope, draft)?;
            let line = line(&number.value, scope, &mut draft.faults)?;
            Some(Attachment { at, line })
        }
        _ => {
            draft.faults.tell(TypeFault::Mismatch(pragma.name.at));
            None
        }
    }
}
