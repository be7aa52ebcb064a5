//! What a request line asks is performed.

ghost use Rattle.rv_port.specs.Calls.{Stays};
ghost use Rattle.rv_port.specs.Ports.{pass_of};
ghost use Rattle.rv_text.specs.Words.{words};
ghost use Rattle.std.specs.Prelude.{◌≡◌, option_map};
ghost use Rattle.rv_actor.specs.Asking.{asked_of, behind_until};
ghost use Rattle.rv_actor.specs.Outcomes.{Does, DoesAsked};

use crate::outcome::Outcome;
use rv_event::entry::Request;
use rv_event::reading::requests::{one_number, request_of};
use rv_port::port::Port;
use rv_shape::catalogue::Catalogue;
use rv_text::next_word;
use std::sync::Wait;

// Performs a request, where a task may ask it.
fn perform<R: Wait>(rt: &R, port: &mut Port, request: Request) -> Outcome
    ensures does { DoesAsked request port.old result port.new }
    ensures stays { Stays (pass_of port.old) (pass_of port.new) }
{
    match request {
        Request::Call(object, operation, values) => {
            Outcome::Reached(port.call(rt, object, operation, values))
        }
        Request::DelayUntil(time) => Outcome::Reached(port.delay_until(rt, time)),
        Request::Clock => Outcome::Reached(port.clock(rt)),
        Request::Quit => Outcome::Finished,
        _ => Outcome::NotATasks,
    }
}

// Performs a request, if there is one.
fn perform_if<R: Wait>(rt: &R, port: &mut Port, request: Option<Request>) -> Outcome
    ensures does { Does request port.old result port.new }
    ensures stays { Stays (pass_of port.old) (pass_of port.new) }
{
    match request {
        Some(request) => perform(rt, port, request),
        None => Outcome::Unread,
    }
}

// What stands behind `delay until`, if a line begins so.
fn behind_until(line: &str) -> Option<&str>
    ensures { option_map (λ rest. words rest.now) result ≡ behind_until (words line.now) }
{
    let Some((key, rest)) = next_word(line) else {
        return None;
    };
    let Some((next, rest)) = next_word(rest) else {
        return None;
    };
    if key == "delay" && next == "until" {
        return Some(rest);
    }
    None
}

// The request that a line asks, if it asks one.
fn asked_of(catalogue: &Catalogue, line: &str) -> Option<Request>
    ensures { result ≡ asked_of catalogue.now (words line.now) }
{
    let Some(time) = behind_until(line) else {
        return request_of(catalogue, line);
    };
    match one_number(time) {
        Some(time) => Some(Request::DelayUntil(time)),
        None => None,
    }
}

/// Performs what a line asks, by the names of a catalogue, and gives what it came to. A line is a request as a journal has it:
/// `call Unit.Object Operation VALUES`, `delay T` or `delay until T`, `clock` or `finish`; the last performs nothing. A call waits
/// as a task's call does: for an object that others hold, in an entry's queue, or on a suspension object.
pub fn perform_asked<R: Wait>(rt: &R, port: &mut Port, catalogue: &Catalogue, line: &str) -> Outcome
    ensures does { Does (asked_of catalogue.now (words line.now)) port.old result port.new }
    ensures stays { Stays (pass_of port.old) (pass_of port.new) }
{
    perform_if(rt, port, asked_of(catalogue, line))
}
