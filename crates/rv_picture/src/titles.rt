//! What a bar stands for, in words.

ghost use Rattle.std.specs.Prelude.{◌≡◌, IfOk, string_bytes};
ghost use Rattle.rv_shape.specs.Readers.{target_of, who_of};
ghost use Rattle.rv_picture.specs.Titles.{callee_text, end_text, extent_text, span_text, title, was_at, words_text};

use crate::bar::{Bar, Kind};
use rv_shape::actor::{Actor, Callee};
use rv_shape::catalogue::Catalogue;
use std::alloc::{AllocError, Global};

// What an actor was at.
fn was_at(kind: Kind) -> &'static str
    ensures { result.now ≡ was_at kind }
{
    match kind {
        Kind::Wait => "waits for",
        Kind::Body => "is in",
        Kind::Delay => "is delayed",
        Kind::Refused => "is refused",
    }
}

// What is called, behind a space, if something is. Err where memory was refused.
fn callee_text(alloc: Global, callee: &Callee<'_>) -> Result<String, AllocError>
    ensures { IfOk result (λ text. string_bytes text ≡ callee_text (target_of callee.now)) }
{
    match callee {
        Callee::Nowhere => Ok(String::new(alloc)),
        Callee::Protected(_, _, _) => format!(in alloc; " {callee}"),
        Callee::Suspension(_, _, _) => format!(in alloc; " {callee}"),
    }
}

// By which entry a bar ends, if by one, and at which tick. Err where memory was refused.
fn end_text(alloc: Global, last: Option<usize>, tick: u64) -> Result<String, AllocError>
    ensures { IfOk result (λ text. string_bytes text ≡ end_text last tick) }
{
    match last {
        Some(last) => format!(in alloc; ", to entry {last}, tick {tick}"),
        None => String::from_str(alloc, ", and lasts"),
    }
}

// Since which entry and tick, and what follows. Err where memory was refused.
fn span_text(
    alloc: Global,
    kind: Kind,
    number: usize,
    tick: u64,
    end: &str,
) -> Result<String, AllocError>
    ensures { IfOk result (λ text. string_bytes text ≡ span_text kind number tick end.now) }
{
    match kind {
        Kind::Refused => format!(in alloc; "at entry {number}, tick {tick}"),
        Kind::Delay => format!(in alloc; "until tick {tick}, from entry {number}{end}"),
        Kind::Wait => format!(in alloc; "from entry {number}, tick {tick}{end}"),
        Kind::Body => format!(in alloc; "from entry {number}, tick {tick}{end}"),
    }
}

// Over which entries and ticks a bar reaches. Err where memory was refused.
fn extent_text(alloc: Global, bar: &Bar) -> Result<String, AllocError>
    ensures { IfOk result (λ text. string_bytes text ≡ extent_text bar.now) }
{
    let end = end_text(alloc, bar.last, bar.to)?;
    span_text(
        alloc,
        bar.kind,
        bar.begun.number,
        bar.begun.tick,
        end.as_str(),
    )
}

// The words of a title. Err where memory was refused.
fn words_text(
    alloc: Global,
    who: &Actor<'_>,
    kind: Kind,
    called: &str,
    extent: &str,
) -> Result<String, AllocError>
    ensures { IfOk result (λ text. string_bytes text ≡ words_text (who_of who.now) kind called.now extent.now) }
{
    let at = was_at(kind);
    format!(in alloc; "{who} {at}{called}, {extent}")
}

/// What a bar stands for, in words. Err where memory was refused.
pub fn title(alloc: Global, catalogue: &Catalogue, bar: &Bar) -> Result<String, AllocError>
    ensures { IfOk result (λ text. string_bytes text ≡ title catalogue.now bar.now) }
{
    let call = bar.begun.call;
    let called = callee_text(alloc, &catalogue.callee(call.object, call.operation))?;
    let extent = extent_text(alloc, bar)?;
    words_text(
        alloc,
        &catalogue.who(call.actor),
        bar.kind,
        called.as_str(),
        extent.as_str(),
    )
}
