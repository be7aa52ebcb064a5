//! The line of a wait.

ghost use Rattle.std.specs.Prelude.{◌≡◌, ◌∷◌, ◌++◌, [], IfOk, OnOk, codes, string_bytes};
ghost use Rattle.std.specs.Fmt.{decimal};
ghost use Rattle.rv_shape.specs.Printed.{actor_text, target_text};
ghost use Rattle.rv_shape.specs.Readers.{target_of, who_of};
ghost use Rattle.rv_lasting.specs.Lines.{end_text, ended_line, how, wait_line};

use crate::track::Begun;
use rv_event::entry::Next;
use rv_shape::actor::{Actor, Callee};
use rv_shape::catalogue::Catalogue;
use std::alloc::{AllocError, Global};

// How an entry ends a wait.
fn how(next: Next) -> &'static str
    ensures { result.now ≡ how next }
{
    match next {
        Next::Nothing => "released",
        Next::HandedTo(_) => "handed over",
        Next::Dropped(_, _) => "dropped",
    }
}

// Puts the line of a wait behind a text.
fn put_words(
    text: &mut String,
    number: usize,
    tick: u64,
    who: &Actor<'_>,
    called: &Callee<'_>,
    end: &str,
    ticks: u64,
) -> Result<(), AllocError>
    ensures { OnOk result (string_bytes text.new ≡ string_bytes text.old ++ (decimal number ++ (codes " tick " ++ (decimal tick ++ 32 ∷ (actor_text (who_of who.now)
        ++ (codes " call " ++ (target_text (target_of called.now) ++ (codes " -> " ++ (end.now
        ++ (codes " after " ++ (decimal ticks ++ (codes " ticks" ++ 10 ∷ [])))))))))))) }
{
    write!(
        text,
        "{number} tick {tick} {who} call {called} -> {end} after {ticks} ticks\n"
    )
}

/// Puts the line of a wait, to this tick. Err where memory was refused.
pub fn put_wait(
    text: &mut String,
    catalogue: &Catalogue,
    it: &Begun,
    end: &str,
    tick: u64,
) -> Result<(), AllocError>
    ensures { OnOk result (string_bytes text.new ≡ string_bytes text.old ++ wait_line catalogue.now it.now end.now tick) }
{
    let call = it.call;
    put_words(
        text,
        it.number,
        it.tick,
        &catalogue.who(call.actor),
        &catalogue.callee(call.object, call.operation),
        end,
        tick.saturating_sub(it.tick),
    )
}

// How the entry of a number ends a wait, and which it is.
fn end_text(alloc: Global, next: Next, number: usize) -> Result<String, AllocError>
    ensures { IfOk result (λ text. string_bytes text ≡ end_text next number) }
{
    let how = how(next);
    format!(in alloc; "{how} in entry {number}")
}

/// Puts the line of a wait that the entry of this number ended at this tick, if one did.
pub fn put_ended(
    alloc: Global,
    text: &mut String,
    catalogue: &Catalogue,
    next: Next,
    number: usize,
    tick: u64,
    it: Option<Begun>,
) -> Result<(), AllocError>
    ensures { OnOk result (string_bytes text.new ≡ string_bytes text.old ++ ended_line catalogue.now next number tick it) }
{
    let Some(it) = it else {
        return Ok(());
    };
    let end = end_text(alloc, next, number)?;
    put_wait(text, catalogue, &it, end.as_str(), tick)
}
