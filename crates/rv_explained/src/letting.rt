//! The smallest line that would have let in what the list refused. It is no advice: whether the call should be let in nobody has asked.

ghost use Rattle.std.specs.Prelude.{◌≡◌, ◌++◌, OnOk, string_bytes};
ghost use Rattle.rv_event.specs.Past.{last_queued};
ghost use Rattle.rv_shape.specs.Catalogue.{target};
ghost use Rattle.rv_shape.specs.Readers.{target_of};
ghost use Rattle.rv_history.specs.Subject.{subject};
ghost use Rattle.rv_explained.specs.Explanations.{letting, letting_line, letting_text};
ghost use Rattle.rv_explained.specs.Following.{KeepsTies};

use crate::refusals::call_of;
use crate::ties::Ties;
use rv_event::entry::{Body, Request, Rule};
use rv_host::host::Host;
use rv_shape::actor::Callee;
use std::alloc::AllocError;

// Puts the line that names this subject and this operation alone.
fn put_words(text: &mut String, subject: &str, callee: &Callee<'_>) -> Result<(), AllocError>
    ensures { OnOk result (string_bytes text.new ≡ string_bytes text.old ++ letting_text subject.now (target_of callee.now)) }
{
    write!(
        text,
        "the smallest line that would have let it in, which is no advice: allow {subject} {callee}\n"
    )
}

// Puts the line for a call.
fn put_line(text: &mut String, host: &Host, ties: &Ties, call: &Body) -> Result<(), AllocError>
    ensures { OnOk result (KeepsTies ties.now host.now → string_bytes text.new ≡ string_bytes text.old
        ++ letting_text (subject host.now call.now.actor) (target host.now.shapes call.now.object call.now.operation)) }
{
    let catalogue = host.catalogue();
    let holding = ties.holding();
    let callee = catalogue.callee(call.object, call.operation);
    put_words(text, holding.subject(catalogue, call.actor), &callee)
}

// The same, if there is a call.
fn put_letting_line(
    text: &mut String,
    host: &Host,
    ties: &Ties,
    call: Option<Body>,
) -> Result<(), AllocError>
    ensures { OnOk result (KeepsTies ties.now host.now → string_bytes text.new ≡ string_bytes text.old ++ letting_line host.now call) }
{
    match call {
        Some(call) => put_line(text, host, ties, &call),
        None => Ok(()),
    }
}

/// Puts the line for a request that a rule refused, where that is the first. Err where memory was refused.
pub fn put_letting(
    text: &mut String,
    host: &Host,
    ties: &Ties,
    actor: usize,
    request: &Request,
    rule: Rule,
) -> Result<(), AllocError>
    ensures { OnOk result (KeepsTies ties.now host.now →
        string_bytes text.new ≡ string_bytes text.old ++ letting host.now actor request.now rule) }
{
    match rule {
        Rule::Grant => {
            let call = call_of(host.catalogue(), actor, request);
            put_letting_line(text, host, ties, call)
        }
        _ => Ok(()),
    }
}

/// Puts the line for the call that an actor had queued last. Err where memory was refused.
pub fn put_letting_queued(
    text: &mut String,
    host: &Host,
    ties: &Ties,
    actor: usize,
) -> Result<(), AllocError>
    ensures { OnOk result (KeepsTies ties.now host.now →
        string_bytes text.new ≡ string_bytes text.old ++ letting_line host.now (last_queued actor host.now.past)) }
{
    let call = ties.holding().call(actor);
    put_letting_line(text, host, ties, call)
}
