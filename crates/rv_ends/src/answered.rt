//! What an answered request changes of what is afoot.

ghost use Rattle.std.specs.Prelude.{◌≡◌, ◌<◌, ◌≤◌, ◌^◌, ◌∷◌, ◌-◌, suc, length, map, option_map, remove, Some, None, OnOk, IfSome, IsNone};
ghost use Rattle.rv_event.specs.Past.{named_in};
ghost use Rattle.rv_ends.specs.Explained.{innermost};
ghost use Rattle.rv_ends.specs.Afoot.{begun, call_of, called, closed, components_of, fired, handed, handed_next, holding, is_ask, is_end, is_queued, joined, left, next_of, open_view, queued, started, with_ask, without};

use crate::afoot::{OpenBody, QueuedCall, Start};
use crate::others::of_others;
use rv_event::entry::{Answer, Exception, Exit, Next, Request, Rule};
use rv_host::host::Host;
use rv_value::{Args, Scalars};
use std::alloc::{AllocError, Global};

// Whether it is an ask of a body.
fn is_ask(request: &Request) -> bool
    ensures { result ≡ is_ask request.now }
{
    match request {
        Request::Resume | Request::Settle => false,
        _ => true,
    }
}

/// Whether it ends a body.
pub fn is_end(request: &Request) -> bool
    ensures { result ≡ is_end request.now }
{
    match request {
        Request::Complete(_, _) => true,
        _ => false,
    }
}

// A body with one more ask, where it is its actor's.
fn hear(
    body: &mut OpenBody,
    actor: usize,
    request: &Request,
    answer: &Answer,
) -> Result<(), AllocError>
    ensures { OnOk result (open_view body.new ≡ with_ask actor request.now answer.now (open_view body.old)) }
{
    // The check is told of these types only where they are named.
    let _exit: Option<Exit> = None;
    let _scalars: Option<Scalars> = None;
    let _args: Option<Args> = None;
    let _rule: Option<Rule> = None;
    let _next: Option<Next> = None;
    let _exception: Option<Exception> = None;
    if body.start.actor != actor || !is_ask(request) {
        return Ok(());
    }
    body.asked.push((*request, *answer))?;
    Ok(())
}

/// The open bodies with one more ask of an actor.
#[tactic(auto, using(crate::proofs::Heard::heard_more, crate::proofs::Heard::heard_all))]
pub fn hear_all(
    bodies: &mut [OpenBody],
    actor: usize,
    request: &Request,
    answer: &Answer,
) -> Result<(), AllocError>
    ensures { OnOk result (map open_view bodies.new ≡ map (with_ask actor request.now answer.now) (map open_view bodies.old)) }
{
    for body in bodies.iter_mut() {
        hear(body, actor, request, answer)?;
    }
    Ok(())
}

/// How many objects an actor holds.
pub fn holding(bodies: &[OpenBody], actor: usize) -> usize
    ensures count { result ≡ holding actor (map open_view bodies.now) }
    ensures most { result ≤ length bodies.now }
{
    let Some((first, rest)) = bodies.split_first() else {
        return 0;
    };
    let others = holding(rest, actor);
    if first.start.actor == actor {
        others + 1
    } else {
        others
    }
}

// Where the newest open body of an actor is, or how many bodies there are.
fn place_of(bodies: &[OpenBody], actor: usize) -> usize
    ensures found { result < length bodies.now → without actor (map open_view bodies.now) ≡ map open_view (remove bodies.now result) }
    ensures none { length bodies.now ≤ result → without actor (map open_view bodies.now) ≡ map open_view bodies.now }
    ensures most { result ≤ length bodies.now }
{
    let Some((first, rest)) = bodies.split_first() else {
        return 0;
    };
    if first.start.actor == actor {
        return 0;
    }
    place_of(rest, actor) + 1
}

/// The newest open body of an actor.
pub fn innermost(bodies: &[OpenBody], actor: usize) -> Option<&OpenBody>
    ensures some { IfSome result (λ b. innermost actor (map open_view bodies.now) ≡ Some (open_view b.now)) }
    ensures none { IsNone result → innermost actor (map open_view bodies.now) ≡ None }
{
    let (first, rest) = bodies.split_first()?;
    if first.start.actor == actor {
        return Some(first);
    }
    innermost(rest, actor)
}

/// The open bodies behind a request of an actor, which may end its newest.
pub fn close(bodies: &mut Vec<OpenBody>, actor: usize, request: &Request)
    ensures { map open_view bodies.new.items ≡ closed actor request.now (map open_view bodies.old.items) }
{
    if !is_end(request) {
        return;
    }
    let place = place_of(bodies.as_slice(), actor);
    if place < bodies.len() {
        let _ended = bodies.remove(place);
    }
}

/// The open bodies with one that starts, if one does.
pub fn begin(
    alloc: Global,
    bodies: &mut Vec<OpenBody>,
    start: Option<Start>,
) -> Result<(), AllocError>
    ensures { OnOk result (map open_view bodies.new.items ≡ begun start (map open_view bodies.old.items)) }
{
    let Some(start) = start else {
        return Ok(());
    };
    let body = OpenBody {
        start,
        asked: Vec::new(alloc),
    };
    bodies.insert(0, body)?;
    Ok(())
}

// The call that waits of an actor.
fn call_of(calls: &[QueuedCall], actor: usize) -> Option<QueuedCall>
    ensures { result ≡ call_of actor calls.now }
{
    let (first, rest) = calls.split_first()?;
    if first.actor == actor {
        return Some(*first);
    }
    call_of(rest, actor)
}

// The body of a call that waited, which is handed the object as the host has it now.
fn handed(host: &Host, held: usize, call: Option<QueuedCall>) -> Option<Start>
    requires { held < 2 ^ 63 }
    ensures { result ≡ handed host.now.shapes host.now.past held call }
{
    let call = call?;
    Some(Start {
        actor: call.actor,
        object: call.object,
        operation: call.operation,
        values: call.values,
        components: *host.scalars(call.object),
        held: held + 1,
    })
}

// The body of the call that an end or a settle names.
fn handed_next(host: &Host, calls: &[QueuedCall], bodies: &[OpenBody], next: Next) -> Option<Start>
    ensures { result ≡ handed_next host.now.shapes host.now.past (record { calls = calls.now; bodies = map open_view bodies.now }) next }
{
    match next {
        Next::HandedTo(actor) => handed(host, holding(bodies, actor), call_of(calls, actor)),
        Next::Nothing | Next::Dropped(_, _) => None,
    }
}

// The components that a start carries.
fn components_of(answer: &Answer) -> Option<Scalars>
    ensures { result ≡ components_of answer.now }
{
    match *answer {
        Answer::Started(components) => Some(components),
        _ => None,
    }
}

// The body of a call that was answered so.
fn called(
    actor: usize,
    object: usize,
    operation: usize,
    values: Args,
    held: usize,
    components: Option<Scalars>,
) -> Option<Start>
    requires { held < 2 ^ 63 }
    ensures { result ≡ called actor object operation values held components }
{
    let components = components?;
    Some(Start {
        actor,
        object,
        operation,
        values,
        components,
        held: held + 1,
    })
}

// The body of a handler, whose line fired and was answered so.
fn fired(
    actor: usize,
    held: usize,
    handler: Option<(usize, usize)>,
    components: Option<Scalars>,
) -> Option<Start>
    requires { held < 2 ^ 63 }
    ensures { result ≡ fired actor held (option_map (λ p. record { object = p.0; operation = p.1 }) handler) components }
{
    let (object, operation) = handler?;
    called(actor, object, operation, Args::new(), held, components)
}

/// The body that an answered request starts, the last entry of the host.
pub fn started(
    host: &Host,
    calls: &[QueuedCall],
    bodies: &[OpenBody],
    actor: usize,
    request: &Request,
    answer: &Answer,
) -> Option<Start>
    ensures { result ≡ started host.now.shapes host.now.past (record { calls = calls.now; bodies = map open_view bodies.now }) actor request.now answer.now }
{
    let held = holding(bodies, actor);
    match *request {
        Request::Call(object, operation, values) => {
            called(
                actor,
                object,
                operation,
                values,
                held,
                components_of(answer),
            )
        }
        Request::Fire => fired(
            actor,
            held,
            host.catalogue().handler(actor.saturating_sub(1)),
            components_of(answer),
        ),
        Request::Complete(_, _) | Request::Settle => {
            handed_next(host, calls, bodies, next_of(answer))
        }
        _ => None,
    }
}

fn is_queued(answer: &Answer) -> bool
    ensures { result ≡ is_queued answer.now }
{
    match answer {
        Answer::Queued => true,
        _ => false,
    }
}

// The call that an answered request puts into a queue.
fn queued(actor: usize, request: &Request, answer: &Answer) -> Option<QueuedCall>
    ensures { result ≡ queued actor request.now answer.now }
{
    match *request {
        Request::Call(object, operation, values) => {
            if !is_queued(answer) {
                return None;
            }
            Some(QueuedCall {
                actor,
                object,
                operation,
                values,
            })
        }
        _ => None,
    }
}

// What an answer says that becomes of a queue.
fn next_of(answer: &Answer) -> Next
    ensures { result ≡ next_of answer.now }
{
    match *answer {
        Answer::Done(next) => next,
        _ => Next::Nothing,
    }
}

// The calls without those of an actor, if one is named.
fn leave_if(
    alloc: Global,
    calls: &mut Vec<QueuedCall>,
    named: Option<usize>,
) -> Result<(), AllocError>
    ensures { OnOk result (calls.new.items ≡ left named calls.old.items) }
{
    let Some(actor) = named else {
        return Ok(());
    };
    let others = of_others(alloc, calls.as_slice(), actor)?;
    *calls = others;
    Ok(())
}

// The calls with one that joins them, if one does.
fn join(calls: &mut Vec<QueuedCall>, call: Option<QueuedCall>) -> Result<(), AllocError>
    ensures { OnOk result (calls.new.items ≡ joined call calls.old.items) }
{
    let Some(call) = call else {
        return Ok(());
    };
    calls.insert(0, call)?;
    Ok(())
}

/// The calls that wait behind an answered request.
pub fn queue(
    alloc: Global,
    calls: &mut Vec<QueuedCall>,
    actor: usize,
    request: &Request,
    answer: &Answer,
) -> Result<(), AllocError>
    ensures { OnOk result (calls.new.items ≡ joined (queued actor request.now answer.now) (left (named_in (next_of answer.now)) calls.old.items)) }
{
    leave_if(alloc, calls, next_of(answer).named())?;
    join(calls, queued(actor, request, answer))
}
