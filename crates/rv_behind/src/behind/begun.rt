//! The operation whose body an answer starts.

ghost use Rattle.std.specs.Prelude.{◌≡◌};
ghost use Rattle.rv_behind.specs.Events.{called, begun_at};
ghost use Rattle.rv_behind.specs.Acting.{begun_by};

use crate::event::{Begun, NONE};
use rv_event::entry::{Answer, Request};
use rv_shape::actor::Callee;
use rv_shape::catalogue::Catalogue;

// An operation by its numbers, and whether it is a function.
fn begun_at(catalogue: &Catalogue, object: usize, operation: usize) -> Begun
    ensures { result ≡ begun_at catalogue.now object operation }
{
    let is_function = match catalogue.callee(object, operation) {
        Callee::Protected(_, _, called) => called.kind().is_function(),
        _ => false,
    };
    Begun {
        object,
        operation,
        is_function,
    }
}

// The operation that a request calls: of a fired line its handler (C.3.1).
fn called(catalogue: &Catalogue, actor: usize, request: &Request) -> Begun
    ensures { result ≡ called catalogue.now actor request.now }
{
    match request {
        Request::Call(object, operation, _) => begun_at(catalogue, *object, *operation),
        Request::Fire => match catalogue.handler(actor.saturating_sub(1)) {
            Some((object, operation)) => begun_at(catalogue, object, operation),
            None => NONE,
        },
        _ => NONE,
    }
}

/// The operation whose body the answer starts.
pub(crate) fn begun_by(
    catalogue: &Catalogue,
    actor: usize,
    request: &Request,
    answer: &Answer,
) -> Begun
    ensures { result ≡ begun_by catalogue.now actor request.now answer.now }
{
    match answer {
        Answer::Started(_) => called(catalogue, actor, request),
        _ => NONE,
    }
}
