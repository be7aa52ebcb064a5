//! Who waits: in queues (9.5.3), on suspension objects (D.10), and for a time (9.6).

ghost use Rattle.std.specs.Prelude.{◌≡◌, ◌∷◌, ◌++◌, [], IfOk, OnOk, codes, length, string_bytes};
ghost use Rattle.std.specs.Fmt.{decimal};
ghost use Rattle.rv_shape.specs.Catalogue.{all_objects, place};
ghost use Rattle.rv_shape.specs.Printed.{actor_text};
ghost use Rattle.rv_shape.specs.Readers.{who_of};
ghost use Rattle.rv_state.specs.States.{actor_names, delay_line, delays_text, name_at, queue_line, queues_below, waiter_line, waiters_below, waiting_text};
ghost use Rattle.rv_waits.specs.Lasting.{Delays, lasting};

use rv_host::host::Host;
use rv_lasting::track::Begun;
use rv_shape::actor::Actor;
use rv_shape::catalogue::Catalogue;
use std::alloc::{AllocError, Global};

// The whole name of an object.
fn object_name(alloc: Global, catalogue: &Catalogue, object: usize) -> Result<String, AllocError>
    ensures { IfOk result (λ name. string_bytes name ≡ name_at (place catalogue.now object)) }
{
    match catalogue.object(object) {
        Some((shape, found)) => {
            let unit = shape.name();
            let name = found.name();
            format!(in alloc; "{unit}.{name}")
        }
        None => String::from_str(alloc, "?"),
    }
}

// Puts the name of an actor behind a mark.
fn put_actor(text: &mut String, mark: &str, who: &Actor<'_>) -> Result<(), AllocError>
    ensures { OnOk result (string_bytes text.new ≡ string_bytes text.old ++ (mark.now ++ actor_text (who_of who.now))) }
{
    write!(text, "{mark}{who}")
}

// Puts the names of actors, with this mark before the first, and commas between them.
fn put_actors(
    text: &mut String,
    catalogue: &Catalogue,
    mark: &str,
    actors: &[usize],
) -> Result<(), AllocError>
    ensures { OnOk result (string_bytes text.new ≡ string_bytes text.old ++ actor_names catalogue.now mark.now actors.now) }
{
    let Some((actor, others)) = actors.split_first() else {
        return Ok(());
    };
    put_actor(text, mark, &catalogue.who(*actor))?;
    put_actors(text, catalogue, ", ", others)
}

// Puts who waits in the queue of an object, if somebody does.
fn put_queue(
    alloc: Global,
    text: &mut String,
    catalogue: &Catalogue,
    object: usize,
    callers: &[usize],
) -> Result<(), AllocError>
    ensures { OnOk result (string_bytes text.new ≡ string_bytes text.old ++ queue_line catalogue.now object callers.now) }
{
    if callers.is_empty() {
        return Ok(());
    }
    let name = object_name(alloc, catalogue, object)?;
    let name = name.as_str();
    write!(text, "queue of {name}:")?;
    put_actors(text, catalogue, " ", callers)?;
    text.push_str("\n")
}

// Puts who waits in all queues.
fn put_queues(alloc: Global, text: &mut String, host: &Host) -> Result<(), AllocError>
    ensures { OnOk result (string_bytes text.new ≡ string_bytes text.old ++ queues_below host.now (length (all_objects host.now.shapes))) }
{
    let count = host.catalogue().objects();
    for place in 0..count {
        let callers = host.callers(place + 1);
        put_queue(alloc, text, host.catalogue(), place + 1, callers)?;
    }
    Ok(())
}

// Puts that an actor waits on an object of this name.
fn put_suspended(text: &mut String, name: &str, who: &Actor<'_>) -> Result<(), AllocError>
    ensures { OnOk result (string_bytes text.new ≡ string_bytes text.old
        ++ (codes "suspended on " ++ (name.now ++ (codes ": " ++ (actor_text (who_of who.now) ++ 10 ∷ []))))) }
{
    write!(text, "suspended on {name}: {who}\n")
}

// Puts who waits on a suspension object, if somebody does.
fn put_waiter(
    alloc: Global,
    text: &mut String,
    catalogue: &Catalogue,
    object: usize,
    waiter: Option<usize>,
) -> Result<(), AllocError>
    ensures { OnOk result (string_bytes text.new ≡ string_bytes text.old ++ waiter_line catalogue.now object waiter) }
{
    let Some(actor) = waiter else {
        return Ok(());
    };
    let name = object_name(alloc, catalogue, object)?;
    put_suspended(text, name.as_str(), &catalogue.who(actor))
}

// Puts who waits on all suspension objects.
fn put_waiters(alloc: Global, text: &mut String, host: &Host) -> Result<(), AllocError>
    ensures { OnOk result (string_bytes text.new ≡ string_bytes text.old ++ waiters_below host.now (length (all_objects host.now.shapes))) }
{
    let count = host.catalogue().objects();
    for place in 0..count {
        let waiter = host.waiter(place + 1);
        put_waiter(alloc, text, host.catalogue(), place + 1, waiter)?;
    }
    Ok(())
}

// Puts the line of a delay.
fn put_until(text: &mut String, time: u64, who: &Actor<'_>, number: usize) -> Result<(), AllocError>
    ensures { OnOk result (string_bytes text.new ≡ string_bytes text.old
        ++ (codes "delayed until " ++ (decimal time ++ (codes ": " ++ (actor_text (who_of who.now)
        ++ ((codes ", since entry " ++ decimal number) ++ 10 ∷ [])))))) }
{
    write!(text, "delayed until {time}: {who}, since entry {number}\n")
}

// Puts that of a delay that began.
fn put_delay(text: &mut String, catalogue: &Catalogue, it: &Begun) -> Result<(), AllocError>
    ensures { OnOk result (string_bytes text.new ≡ string_bytes text.old ++ delay_line catalogue.now it.now) }
{
    put_until(text, it.tick, &catalogue.who(it.call.actor), it.number)
}

// Puts those of delays, which come the newest first, the oldest first.
fn put_delays(text: &mut String, catalogue: &Catalogue, begun: &[Begun]) -> Result<(), AllocError>
    ensures { OnOk result (string_bytes text.new ≡ string_bytes text.old ++ delays_text catalogue.now begun.now) }
{
    let [it, begun @ ..] = begun else {
        return Ok(());
    };
    put_delays(text, catalogue, begun)?;
    put_delay(text, catalogue, it)
}

/// Puts who waits in queues, on suspension objects, and in these delays, which come the newest first. Err where memory was refused.
pub fn put_waiting(
    alloc: Global,
    text: &mut String,
    host: &Host,
    delays: &[Begun],
) -> Result<(), AllocError>
    ensures { OnOk result (delays.now ≡ lasting Delays host.now.shapes host.now.past
        → string_bytes text.new ≡ string_bytes text.old ++ waiting_text host.now) }
{
    put_queues(alloc, text, host)?;
    put_waiters(alloc, text, host)?;
    put_delays(text, host.catalogue(), delays)
}
