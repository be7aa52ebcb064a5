//! The bodies that an actor is in (9.5.1), and its active priority by them (D.3).

ghost use Rattle.std.specs.Prelude.{◌≡◌, ◌==◌, ◌++◌, ◌∷◌, [], OnOk, codes, if◌then◌else◌, max, string_bytes};
ghost use Rattle.std.specs.Fmt.{decimal};
ghost use Rattle.rv_shape.specs.Catalogue.{ceiling, who};
ghost use Rattle.rv_shape.specs.Printed.{actor_text, target_text};
ghost use Rattle.rv_shape.specs.Readers.{target_of, who_of};
ghost use Rattle.rv_history.specs.Subject.{active, base_of};
ghost use Rattle.rv_waits.specs.Lasting.{Bodies, lasting};
ghost use Rattle.rv_explained.specs.Explanations.{body_line, held_text, priorities_line, priority_by};

use rv_host::host::Host;
use rv_irq::priority;
use rv_lasting::track::Begun;
use rv_shape::actor::{Actor, Callee, FIRST_TASK};
use rv_shape::catalogue::Catalogue;
use rv_shape::object::Object;
use std::alloc::AllocError;

// Puts the line of a body.
fn put_held(
    text: &mut String,
    who: &Actor<'_>,
    callee: &Callee<'_>,
    number: usize,
) -> Result<(), AllocError>
    ensures { OnOk result (string_bytes text.new ≡ string_bytes text.old
        ++ (codes "held by " ++ (actor_text (who_of who.now) ++ (codes ": " ++ (target_text (target_of callee.now)
        ++ (codes ", since entry " ++ (decimal number ++ 10 ∷ []))))))) }
{
    write!(text, "held by {who}: {callee}, since entry {number}\n")
}

// Puts that of a body that began.
fn put_body(text: &mut String, catalogue: &Catalogue, it: &Begun) -> Result<(), AllocError>
    ensures { OnOk result (string_bytes text.new ≡ string_bytes text.old ++ body_line catalogue.now it.now) }
{
    let call = it.call;
    put_held(
        text,
        &catalogue.who(call.actor),
        &catalogue.callee(call.object, call.operation),
        it.number,
    )
}

// The same, if it is this actor's.
fn put_own(
    text: &mut String,
    catalogue: &Catalogue,
    actor: usize,
    it: &Begun,
) -> Result<(), AllocError>
    ensures { OnOk result (string_bytes text.new ≡ string_bytes text.old
        ++ (if it.now.call.actor == actor then body_line catalogue.now it.now else [])) }
{
    if it.call.actor == actor {
        return put_body(text, catalogue, it);
    }
    Ok(())
}

/// Puts those of an actor, the innermost first. Err where memory was refused.
pub fn put_bodies(
    text: &mut String,
    catalogue: &Catalogue,
    actor: usize,
    bodies: &[Begun],
) -> Result<(), AllocError>
    ensures { OnOk result (string_bytes text.new ≡ string_bytes text.old ++ held_text catalogue.now actor bodies.now) }
{
    let [it, bodies @ ..] = bodies else {
        return Ok(());
    };
    put_own(text, catalogue, actor, it)?;
    put_bodies(text, catalogue, actor, bodies)
}

/// The ceiling of an object (D.3); 0 stands for that of a suspension object, which has none.
pub fn ceiling(catalogue: &Catalogue, object: usize) -> usize
    ensures { result ≡ ceiling catalogue.now object }
{
    match catalogue.object(object) {
        Some((_, Object::Protected(found))) => found.ceiling(),
        Some((_, Object::Suspension(_))) => 0,
        None => 0,
    }
}

// The base priority of an actor (D.1); a line has that of its interrupts (C.3).
fn base_priority(catalogue: &Catalogue, actor: usize) -> usize
    ensures { result ≡ base_of (who catalogue.now actor) }
{
    if actor == 0 {
        return 0;
    }
    if actor < FIRST_TASK {
        return priority(actor - 1);
    }
    match catalogue.task(actor) {
        Some((_, task)) => task.priority(),
        None => 0,
    }
}

// The greater of two.
fn greater(one: usize, other: usize) -> usize
    ensures { result ≡ max one other }
{
    one.max(other)
}

// The greatest of a base priority and the ceilings of the objects that an actor holds by these bodies.
fn greatest(catalogue: &Catalogue, base: usize, actor: usize, bodies: &[Begun]) -> usize
    ensures { result ≡ priority_by catalogue.now base actor bodies.now }
{
    let [it, bodies @ ..] = bodies else {
        return base;
    };
    let rest = greatest(catalogue, base, actor, bodies);
    if it.call.actor == actor {
        return greater(ceiling(catalogue, it.call.object), rest);
    }
    rest
}

// The active priority of an actor, by the bodies that last (D.3).
fn active(host: &Host, actor: usize, bodies: &[Begun]) -> usize
    ensures { bodies.now ≡ lasting Bodies host.now.shapes host.now.past → result ≡ active host.now actor }
{
    host.replays();
    let catalogue = host.catalogue();
    greatest(catalogue, base_priority(catalogue, actor), actor, bodies)
}

// Puts an active priority and a ceiling.
fn put_two(text: &mut String, active: usize, ceiling: usize) -> Result<(), AllocError>
    ensures { OnOk result (string_bytes text.new ≡ string_bytes text.old
        ++ (codes "active priority " ++ (decimal active ++ (codes ", ceiling " ++ (decimal ceiling ++ 10 ∷ []))))) }
{
    write!(text, "active priority {active}, ceiling {ceiling}\n")
}

/// Puts the active priority of an actor, and the ceiling of an object. Err where memory was refused.
pub fn put_priorities(
    text: &mut String,
    host: &Host,
    actor: usize,
    object: usize,
    bodies: &[Begun],
) -> Result<(), AllocError>
    ensures { OnOk result (bodies.now ≡ lasting Bodies host.now.shapes host.now.past →
        string_bytes text.new ≡ string_bytes text.old ++ priorities_line host.now actor object) }
{
    let active = active(host, actor, bodies);
    let ceiling = ceiling(host.catalogue(), object);
    put_two(text, active, ceiling)
}
