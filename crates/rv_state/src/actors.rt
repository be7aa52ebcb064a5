//! What tasks are at, and who is in which body.

ghost use Rattle.std.specs.Prelude.{◌≡◌, ◌+◌, ◌∷◌, ◌++◌, ◌<◌, [], OnOk, codes, length, string_bytes};
ghost use Rattle.std.specs.Fmt.{decimal};
ghost use Rattle.rv_shape.specs.Catalogue.{all_tasks, first_task};
ghost use Rattle.rv_shape.specs.Printed.{actor_text, target_text};
ghost use Rattle.rv_shape.specs.Readers.{target_of, who_of};
ghost use Rattle.rv_state.specs.States.{bodies_text, body_line, mode_word, places_text, task_line, tasks_below};
ghost use Rattle.rv_waits.specs.Lasting.{Bodies, lasting};

use rv_event::entry::Mode;
use rv_host::host::Host;
use rv_lasting::track::Begun;
use rv_shape::actor::{Actor, Callee, FIRST_TASK};
use rv_shape::catalogue::Catalogue;
use std::alloc::AllocError;

// What a mode is called.
fn mode_word(mode: Mode) -> &'static str
    ensures { result.now ≡ mode_word mode }
{
    match mode {
        Mode::Idle => "idle",
        Mode::InBody => "in a body",
        Mode::Queued => "queued",
        Mode::Settling => "to settle an object",
        Mode::Handed => "handed an object",
        Mode::Dropped => "dropped from a queue",
        Mode::Suspended => "suspended",
        Mode::Delayed => "delayed",
        Mode::Ended => "ended",
    }
}

// Puts what a task is at.
fn put_mode(text: &mut String, who: &Actor<'_>, mode: Mode) -> Result<(), AllocError>
    ensures { OnOk result (string_bytes text.new ≡ string_bytes text.old
        ++ (codes "task " ++ (actor_text (who_of who.now) ++ (codes ": " ++ (mode_word mode ++ 10 ∷ []))))) }
{
    let word = mode_word(mode);
    write!(text, "task {who}: {word}\n")
}

// Puts what a task is at.
fn put_task(text: &mut String, host: &Host, actor: usize) -> Result<(), AllocError>
    requires { actor < first_task + length (all_tasks host.now.shapes) }
    ensures { OnOk result (string_bytes text.new ≡ string_bytes text.old ++ task_line host.now actor) }
{
    let Some(mode) = host.mode(actor) else {
        unreachable!()
    };
    put_mode(text, &host.catalogue().who(actor), mode)
}

// Puts what all tasks are at.
fn put_tasks(text: &mut String, host: &Host) -> Result<(), AllocError>
    ensures { OnOk result (string_bytes text.new ≡ string_bytes text.old ++ tasks_below host.now (length (all_tasks host.now.shapes))) }
{
    let count = host.catalogue().tasks();
    for place in 0..count {
        put_task(text, host, FIRST_TASK + place)?;
    }
    Ok(())
}

// Puts the line of a body.
fn put_held(
    text: &mut String,
    who: &Actor<'_>,
    callee: &Callee<'_>,
    number: usize,
) -> Result<(), AllocError>
    ensures { OnOk result (string_bytes text.new ≡ string_bytes text.old
        ++ (codes "held by " ++ (actor_text (who_of who.now) ++ (codes ": " ++ (target_text (target_of callee.now)
        ++ ((codes ", since entry " ++ decimal number) ++ 10 ∷ [])))))) }
{
    write!(text, "held by {who}: {callee}, since entry {number}\n")
}

// Puts that of a body that began.
fn put_body(text: &mut String, catalogue: &Catalogue, it: &Begun) -> Result<(), AllocError>
    ensures { OnOk result (string_bytes text.new ≡ string_bytes text.old ++ body_line catalogue.now it.now) }
{
    let call = it.call;
    put_held(
        text,
        &catalogue.who(call.actor),
        &catalogue.callee(call.object, call.operation),
        it.number,
    )
}

// Puts those of bodies, which come the newest first, the oldest first.
fn put_bodies(text: &mut String, catalogue: &Catalogue, begun: &[Begun]) -> Result<(), AllocError>
    ensures { OnOk result (string_bytes text.new ≡ string_bytes text.old ++ bodies_text catalogue.now begun.now) }
{
    let [it, begun @ ..] = begun else {
        return Ok(());
    };
    put_bodies(text, catalogue, begun)?;
    put_body(text, catalogue, it)
}

/// Puts what tasks are at, and who is in these bodies, which come the newest first. Err where memory was refused.
pub fn put_places(text: &mut String, host: &Host, bodies: &[Begun]) -> Result<(), AllocError>
    ensures { OnOk result (bodies.now ≡ lasting Bodies host.now.shapes host.now.past
        → string_bytes text.new ≡ string_bytes text.old ++ places_text host.now) }
{
    put_tasks(text, host)?;
    put_bodies(text, host.catalogue(), bodies)
}
