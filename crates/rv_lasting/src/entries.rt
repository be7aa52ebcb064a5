//! What an entry begins and ends.

ghost use Rattle.std.specs.Prelude.{◌≡◌, ◌-◌, List, option_map};
ghost use Rattle.rv_event.specs.Lent.{whole};
ghost use Rattle.rv_event.specs.Past.{fired, handed, started, ticks_in};
ghost use Rattle.rv_event.specs.declared.entry.Entry.{Entry};
ghost use Rattle.rv_shape.specs.Catalogue.{handler};
ghost use Rattle.rv_lasting.specs.Calls.{KeepsCalls};
ghost use Rattle.rv_lasting.specs.Lasting.{delay_by, set_on, since, waiting_by, woken_by};

use crate::calls::Calls;
use crate::track::Begun;
use rv_event::entry::{Body, EntryRef, Next, Recorded, Request};
use rv_shape::catalogue::Catalogue;

/// What began by an entry of this number, at this tick, if this call did.
pub fn begun_by(call: Option<Body>, number: usize, tick: u64) -> Option<Begun>
    ensures { result ≡ option_map (since number tick) call }
{
    match call {
        Some(call) => Some(Begun { call, number, tick }),
        None => None,
    }
}

/// The call that an entry leaves waiting, in a queue (9.5.3) or on a suspension object (D.10).
pub fn waiting_by(entry: &EntryRef<'_>) -> Option<Body>
    ensures { result ≡ waiting_by (whole entry.now) }
{
    match *entry {
        EntryRef::Asked(
            actor,
            Request::Call(object, operation, _),
            Recorded::Queued | Recorded::Suspended,
        ) => Some(Body {
            actor,
            object: *object,
            operation: *operation,
        }),
        _ => None,
    }
}

/// The suspension object that an entry sets to True (D.10).
pub fn set_on(entry: &EntryRef<'_>) -> Option<usize>
    ensures { result ≡ set_on (whole entry.now) }
{
    match *entry {
        EntryRef::Asked(_, Request::Call(object, 1, _), Recorded::Accepted(_)) => Some(*object),
        _ => None,
    }
}

// The body that a fired line starts, if it has a handler (C.3).
fn fired_by(catalogue: &Catalogue, actor: usize) -> Option<Body>
    ensures { result ≡ fired actor (handler catalogue.now (actor - 1)) }
{
    match catalogue.handler(actor.saturating_sub(1)) {
        Some((object, operation)) => Some(Body {
            actor,
            object,
            operation,
        }),
        None => None,
    }
}

// The queued call that is handed the object, if one is.
fn handed_by(calls: &Calls, next: Next) -> Option<Body>
    ensures { (past : List Entry) → KeepsCalls calls.now past → result ≡ handed past next }
{
    match next {
        Next::HandedTo(actor) => calls.of(actor),
        Next::Nothing | Next::Dropped(_, _) => None,
    }
}

/// The body that an entry starts: of a call, of a fired line, or of a queued call that is handed the object.
pub fn started_by(catalogue: &Catalogue, calls: &Calls, entry: &EntryRef<'_>) -> Option<Body>
    ensures { (past : List Entry) → KeepsCalls calls.now past → result ≡ started catalogue.now past (whole entry.now) }
{
    match *entry {
        EntryRef::Asked(actor, Request::Call(object, operation, _), Recorded::Started) => Some(
            Body {
                actor,
                object: *object,
                operation: *operation,
            },
        ),
        EntryRef::Asked(actor, Request::Fire, Recorded::Started) => fired_by(catalogue, actor),
        EntryRef::Asked(_, Request::Complete(_, _) | Request::Settle, Recorded::Done(next)) => {
            handed_by(calls, next)
        }
        _ => None,
    }
}

// A time as a number of ticks; before 0 it is 0.
fn ticks_in(time: i64) -> u64
    ensures { result ≡ ticks_in time }
{
    if time < 0 { 0 } else { time as u64 }
}

/// The delay that an entry of this number begins, counted since its time (9.6).
pub fn delay_by(entry: &EntryRef<'_>, number: usize) -> Option<Begun>
    ensures { result ≡ delay_by (whole entry.now) number }
{
    match *entry {
        EntryRef::Asked(actor, Request::DelayUntil(time), Recorded::Delayed) => Some(Begun {
            call: Body {
                actor,
                object: 0,
                operation: 0,
            },
            number,
            tick: ticks_in(*time),
        }),
        _ => None,
    }
}

/// The actor that an entry wakes, by its own resume.
pub fn woken_by(entry: &EntryRef<'_>) -> Option<usize>
    ensures { result ≡ woken_by (whole entry.now) }
{
    match *entry {
        EntryRef::Asked(actor, Request::Resume, Recorded::Woken) => Some(actor),
        _ => None,
    }
}
