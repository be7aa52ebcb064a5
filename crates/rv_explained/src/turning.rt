//! What an entry ends, and what ended what another began.

ghost use Rattle.std.specs.Prelude.{◌≡◌, ◌-◌, ◌∷◌, ◌++◌, [], OnOk, codes, string_bytes};
ghost use Rattle.std.specs.Fmt.{decimal};
ghost use Rattle.rv_access.specs.Lines.{line_at};
ghost use Rattle.rv_history.specs.History.{force};
ghost use Rattle.rv_lasting.specs.Lines.{end_text, how};
ghost use Rattle.rv_refused.specs.Refusals.{line_words};
ghost use Rattle.rv_shape.specs.Printed.{actor_text, target_text};
ghost use Rattle.rv_shape.specs.Readers.{target_of, who_of};
ghost use Rattle.rv_explained.specs.Explanations.{body_end_text, denied, dropping_line, ended_body, ended_wait, freed_line, freeing, freeing_section, later_body, later_wait, when_text};
ghost use Rattle.rv_explained.specs.Ties.{list_since};
ghost use Rattle.rv_explained.specs.Following.{KeepsTies};

use crate::refusals::denied;
use crate::ties::Ties;
use crate::words::line_words;
use rv_asked::deciding::line_in_force;
use rv_event::entry::Next;
use rv_host::host::Host;
use rv_lasting::track::Begun;
use rv_shape::actor::{Actor, Callee};
use std::alloc::{AllocError, Global};

// Puts which body ends, and how long after its begin.
fn put_body_words(
    text: &mut String,
    callee: &Callee<'_>,
    number: usize,
    ticks: u64,
) -> Result<(), AllocError>
    ensures { OnOk result (string_bytes text.new ≡ string_bytes text.old
        ++ (codes "it ends the body of " ++ (target_text (target_of callee.now) ++ (codes " that began in entry " ++ (decimal number
        ++ (codes ", after " ++ (decimal ticks ++ (codes " ticks" ++ (codes " (9.5.1)" ++ 10 ∷ []))))))))) }
{
    write!(
        text,
        "it ends the body of {callee} that began in entry {number}, after {ticks} ticks (9.5.1)\n"
    )
}

/// Puts the body that the next entry ends, if it ends one. Err where memory was refused.
pub fn put_ended_body(text: &mut String, host: &Host, it: Option<Begun>) -> Result<(), AllocError>
    ensures { OnOk result (string_bytes text.new ≡ string_bytes text.old ++ ended_body host.now it) }
{
    let Some(it) = it else {
        return Ok(());
    };
    put_body_words(
        text,
        &host.catalogue().callee(it.call.object, it.call.operation),
        it.number,
        host.clock().saturating_sub(it.tick),
    )
}

// How an entry ends a wait.
fn freeing(next: Next) -> &'static str
    ensures { result.now ≡ freeing next }
{
    match next {
        Next::Nothing => "it releases ",
        Next::HandedTo(_) => "it hands the object over to ",
        Next::Dropped(_, _) => "it drops ",
    }
}

// By which section of the standard.
fn freeing_section(next: Next) -> &'static str
    ensures { result.now ≡ freeing_section next }
{
    match next {
        Next::Nothing => " (D.10)",
        Next::HandedTo(_) => " (9.5.3)",
        Next::Dropped(_, _) => " (own)",
    }
}

// Puts a text as a line.
fn put_text_line(text: &mut String, line: &str) -> Result<(), AllocError>
    ensures { OnOk result (string_bytes text.new ≡ string_bytes text.old ++ (line.now ++ 10 ∷ [])) }
{
    write!(text, "{line}\n")
}

// Puts that the line of this number of the list in force grants a queued call no more.
fn put_denied(
    alloc: Global,
    text: &mut String,
    host: &Host,
    ties: &Ties,
    number: usize,
) -> Result<(), AllocError>
    ensures { OnOk result (KeepsTies ties.now host.now → string_bytes text.new ≡ string_bytes text.old
        ++ (denied (line_words (line_at (force host.now) number)) (list_since host.now.past) ++ 10 ∷ [])) }
{
    let words = line_words(alloc, line_in_force(host, number))?;
    let denied = denied(alloc, words.as_str(), ties.list_entry())?;
    put_text_line(text, denied.as_str())
}

// Puts by which line of the list in force a caller is dropped, if one is.
fn put_dropping(
    alloc: Global,
    text: &mut String,
    host: &Host,
    ties: &Ties,
    next: Next,
) -> Result<(), AllocError>
    ensures { OnOk result (KeepsTies ties.now host.now → string_bytes text.new ≡ string_bytes text.old ++ dropping_line host.now next) }
{
    match next {
        Next::Nothing => Ok(()),
        Next::HandedTo(_) => Ok(()),
        Next::Dropped(_, number) => put_denied(alloc, text, host, ties, number),
    }
}

// Puts whose wait ends, and how long after its begin.
fn put_wait_words(
    text: &mut String,
    how: &str,
    who: &Actor<'_>,
    number: usize,
    ticks: u64,
    section: &str,
) -> Result<(), AllocError>
    ensures { OnOk result (string_bytes text.new ≡ string_bytes text.old ++ (how.now ++ (actor_text (who_of who.now)
        ++ (codes ", who called in entry " ++ (decimal number ++ (codes ", after " ++ (decimal ticks ++ (codes " ticks"
        ++ (section.now ++ 10 ∷ []))))))))) }
{
    write!(
        text,
        "{how}{who}, who called in entry {number}, after {ticks} ticks{section}\n"
    )
}

// The same of this wait.
fn put_freed(text: &mut String, host: &Host, next: Next, it: &Begun) -> Result<(), AllocError>
    ensures { OnOk result (string_bytes text.new ≡ string_bytes text.old ++ freed_line host.now next it.now) }
{
    put_wait_words(
        text,
        freeing(next),
        &host.catalogue().who(it.call.actor),
        it.number,
        host.clock().saturating_sub(it.tick),
        freeing_section(next),
    )
}

// Puts that a wait ends, and by which line its caller is dropped, if it is.
fn put_freed_wait(
    alloc: Global,
    text: &mut String,
    host: &Host,
    ties: &Ties,
    next: Next,
    it: &Begun,
) -> Result<(), AllocError>
    ensures { OnOk result (KeepsTies ties.now host.now → string_bytes text.new ≡ string_bytes text.old
        ++ (freed_line host.now next it.now ++ dropping_line host.now next)) }
{
    put_freed(text, host, next, it)?;
    put_dropping(alloc, text, host, ties, next)
}

/// Puts the wait that the next entry ends, if it ends one, where this becomes of a queue by it. Err where memory was refused.
pub fn put_ended_wait(
    alloc: Global,
    text: &mut String,
    host: &Host,
    ties: &Ties,
    next: Next,
    it: Option<Begun>,
) -> Result<(), AllocError>
    ensures { OnOk result (KeepsTies ties.now host.now → string_bytes text.new ≡ string_bytes text.old ++ ended_wait host.now next it) }
{
    match it {
        Some(it) => put_freed_wait(alloc, text, host, ties, next, &it),
        None => Ok(()),
    }
}

// Puts at which tick something ended, and how long after its begin.
fn put_when(text: &mut String, tick: u64, ticks: u64, section: &str) -> Result<(), AllocError>
    ensures { OnOk result (string_bytes text.new ≡ string_bytes text.old ++ (codes " at tick " ++ (decimal tick
        ++ (codes ", after " ++ (decimal ticks ++ (codes " ticks" ++ (section.now ++ (codes ":" ++ 10 ∷ [])))))))) }
{
    write!(text, " at tick {tick}, after {ticks} ticks{section}:\n")
}

// The same of what began.
fn put_ended_at(text: &mut String, host: &Host, it: &Begun, section: &str) -> Result<(), AllocError>
    ensures { OnOk result (string_bytes text.new ≡ string_bytes text.old ++ when_text host.now it.now section.now) }
{
    let tick = host.clock();
    put_when(text, tick, tick.saturating_sub(it.tick), section)
}

// How an entry ends a wait, in one word or two.
fn how(next: Next) -> &'static str
    ensures { result.now ≡ how next }
{
    match next {
        Next::Nothing => "released",
        Next::HandedTo(_) => "handed over",
        Next::Dropped(_, _) => "dropped",
    }
}

// Puts how the entry of this number ends a wait.
fn put_end(text: &mut String, next: Next, number: usize) -> Result<(), AllocError>
    ensures { OnOk result (string_bytes text.new ≡ string_bytes text.old ++ end_text next number) }
{
    let how = how(next);
    write!(text, "{how} in entry {number}")
}

// Puts when it does.
fn put_wait_when(text: &mut String, host: &Host, next: Next, it: &Begun) -> Result<(), AllocError>
    ensures { OnOk result (string_bytes text.new ≡ string_bytes text.old ++ when_text host.now it.now (freeing_section next)) }
{
    put_ended_at(text, host, it, freeing_section(next))
}

/// Puts a line of the journal. Err where memory was refused.
pub fn put_line(text: &mut String, line: &str) -> Result<(), AllocError>
    ensures { OnOk result (string_bytes text.new ≡ string_bytes text.old ++ line.now) }
{
    text.push_str(line)
}

// Puts how the entry of this number ends a wait, and its line of the journal.
fn put_wait_end(
    alloc: Global,
    text: &mut String,
    host: &Host,
    ties: &Ties,
    number: usize,
    next: Next,
    line: &str,
    it: &Begun,
) -> Result<(), AllocError>
    ensures { OnOk result (KeepsTies ties.now host.now → string_bytes text.new ≡ string_bytes text.old
        ++ (end_text next number ++ (when_text host.now it.now (freeing_section next) ++ (line.now ++ dropping_line host.now next)))) }
{
    put_end(text, next, number)?;
    put_wait_when(text, host, next, it)?;
    put_line(text, line)?;
    put_dropping(alloc, text, host, ties, next)
}

/// Puts that the next entry, of this number, ends the wait of the entry that is asked about, if it does. Err where memory was refused.
pub fn put_later_wait(
    alloc: Global,
    text: &mut String,
    host: &Host,
    ties: &Ties,
    asked: usize,
    number: usize,
    next: Next,
    line: &str,
    it: Option<Begun>,
) -> Result<(), AllocError>
    ensures { OnOk result (KeepsTies ties.now host.now → string_bytes text.new ≡ string_bytes text.old
        ++ later_wait asked host.now number next line.now it) }
{
    let Some(it) = it else {
        return Ok(());
    };
    if it.number == asked {
        return put_wait_end(alloc, text, host, ties, number, next, line, &it);
    }
    Ok(())
}

// Puts which entry ends a body.
fn put_body_number(text: &mut String, number: usize) -> Result<(), AllocError>
    ensures { OnOk result (string_bytes text.new ≡ string_bytes text.old ++ body_end_text number) }
{
    write!(text, "the body that it began ended in entry {number}")
}

// Puts when it does.
fn put_body_when(text: &mut String, host: &Host, it: &Begun) -> Result<(), AllocError>
    ensures { OnOk result (string_bytes text.new ≡ string_bytes text.old ++ when_text host.now it.now (codes " (9.5.1)")) }
{
    put_ended_at(text, host, it, " (9.5.1)")
}

// Puts that the entry of this number ends a body, and its line of the journal.
fn put_body_end(
    text: &mut String,
    host: &Host,
    number: usize,
    line: &str,
    it: &Begun,
) -> Result<(), AllocError>
    ensures { OnOk result (string_bytes text.new ≡ string_bytes text.old
        ++ (body_end_text number ++ (when_text host.now it.now (codes " (9.5.1)") ++ line.now))) }
{
    put_body_number(text, number)?;
    put_body_when(text, host, it)?;
    put_line(text, line)
}

/// Puts that the next entry, of this number, ends the body that the entry that is asked about began, if it does. Err where memory was
/// refused.
pub fn put_later_body(
    text: &mut String,
    host: &Host,
    asked: usize,
    number: usize,
    line: &str,
    it: Option<Begun>,
) -> Result<(), AllocError>
    ensures { OnOk result (string_bytes text.new ≡ string_bytes text.old ++ later_body asked host.now number line.now it) }
{
    let Some(it) = it else {
        return Ok(());
    };
    if it.number == asked {
        return put_body_end(text, host, number, line, &it);
    }
    Ok(())
}
