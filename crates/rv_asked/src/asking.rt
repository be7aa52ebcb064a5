//! About which call the list is asked at an entry.

ghost use Rattle.std.specs.Prelude.{◌≡◌, ◌-◌, List, IfOk};
ghost use Rattle.rv_shape.specs.Catalogue.{handler};
ghost use Rattle.rv_event.specs.Lent.{whole};
ghost use Rattle.rv_event.specs.Past.{fired};
ghost use Rattle.rv_event.specs.declared.entry.Entry.{Entry};
ghost use Rattle.rv_asked.specs.Asked.{asked_at, asking_text, served_call, takes};
ghost use Rattle.rv_asked.specs.Holding.{Keeps};

use crate::holding::Holding;
use rv_event::entry::{Body, EntryRef, Request};
use rv_event::one_entry::named;
use rv_host::host::Host;
use rv_refused::Filter;
use rv_shape::catalogue::Catalogue;
use std::alloc::{AllocError, Global};

// The queued call of the caller that is handed the object or dropped, if one is.
fn served_call(holding: &Holding, actor: Option<usize>) -> Option<Body>
    ensures { (shapes : List _) (past : List Entry) → Keeps holding.now shapes past → result ≡ served_call past actor }
{
    match actor {
        Some(actor) => holding.call(actor),
        None => None,
    }
}

// The call of its handler by a fired line, if it has one (C.3).
fn fired_by(catalogue: &Catalogue, actor: usize) -> Option<Body>
    ensures { result ≡ fired actor (handler catalogue.now (actor - 1)) }
{
    match catalogue.handler(actor.saturating_sub(1)) {
        Some((object, operation)) => Some(Body {
            actor,
            object,
            operation,
        }),
        None => None,
    }
}

/// The call about which the list is asked at the next entry, if it is asked.
pub fn asked_at(catalogue: &Catalogue, holding: &Holding, entry: &EntryRef<'_>) -> Option<Body>
    ensures { (past : List Entry) → Keeps holding.now catalogue.now past → result ≡ asked_at catalogue.now past (whole entry.now) }
{
    match *entry {
        EntryRef::Asked(actor, Request::Call(object, operation, _), _) => Some(Body {
            actor,
            object: *object,
            operation: *operation,
        }),
        EntryRef::Asked(actor, Request::Fire, _) => fired_by(catalogue, actor),
        _ => served_call(holding, named(entry)),
    }
}

/// Whether a filter takes the next entry, of this number, by the call about which the list is asked at it. Err where memory was refused.
pub fn takes(
    alloc: Global,
    filter: &Filter<'_>,
    host: &Host,
    number: usize,
    call: &Body,
) -> Result<bool, AllocError>
    ensures { IfOk result (λ taken. taken ≡ takes filter.now host.now number call.now) }
{
    if !filter.is_since(number, host.clock()) {
        return Ok(false);
    }
    let catalogue = host.catalogue();
    if !filter.takes_by(alloc, &catalogue.who(call.actor))? {
        return Ok(false);
    }
    filter.takes_of(alloc, &catalogue.callee(call.object, call.operation))
}

/// How the list is asked at an entry: `call `, `fire ` or `hand-over `.
pub fn asking_text(entry: &EntryRef<'_>) -> &'static str
    ensures { result.now ≡ asking_text (whole entry.now) }
{
    match *entry {
        EntryRef::Asked(_, Request::Call(_, _, _), _) => "call ",
        EntryRef::Asked(_, Request::Fire, _) => "fire ",
        _ => "hand-over ",
    }
}
