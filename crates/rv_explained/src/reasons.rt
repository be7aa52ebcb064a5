//! Why an entry was answered so.

ghost use Rattle.std.specs.Prelude.{◌≡◌, ◌∷◌, ◌++◌, [], OnOk, codes, string_bytes};
ghost use Rattle.std.specs.Fmt.{decimal};
ghost use Rattle.rv_explained.specs.Explanations.{answer_line, ends_by, reason, tick_line, why_by};
ghost use Rattle.rv_explained.specs.Following.{KeepsTies};

use crate::refusals::{put_call, put_refused};
use crate::ties::{Ends, Ties};
use crate::turning::{put_ended_body, put_ended_wait};
use crate::words::force_text;
use rv_event::entry::{EntryRef, Next, Recorded, Request};
use rv_event::one_entry::next_of;
use rv_host::host::Host;
use std::alloc::{AllocError, Global};

// Puts the tick, and which list is in force.
fn put_clock(text: &mut String, tick: u64, force: &str) -> Result<(), AllocError>
    ensures { OnOk result (string_bytes text.new ≡ string_bytes text.old
        ++ (codes "tick " ++ (decimal tick ++ (codes ", " ++ (force.now ++ 10 ∷ []))))) }
{
    write!(text, "tick {tick}, {force}\n")
}

/// Puts the clock and the list in force. Err where memory was refused.
pub fn put_tick(
    alloc: Global,
    text: &mut String,
    host: &Host,
    ties: &Ties,
) -> Result<(), AllocError>
    ensures { OnOk result (KeepsTies ties.now host.now → string_bytes text.new ≡ string_bytes text.old ++ tick_line host.now) }
{
    let force = force_text(alloc, host.version(), ties.list_entry())?;
    put_clock(text, host.clock(), force.as_str())
}

// What an answer says.
fn answer_line(word: Recorded) -> &'static str
    ensures { result.now ≡ answer_line word }
{
    match word {
        Recorded::Started => "its body begins (9.5.1)\n",
        Recorded::Queued => "its barrier is closed: it waits in the queue (9.5.3)\n",
        Recorded::Suspended => "the state is False: it waits for a Set_True (D.10)\n",
        Recorded::Delayed => "its time hasn't come: it waits (9.6)\n",
        Recorded::Woken => {
            "what it waited for has come: the object (9.5.3), a Set_True (D.10) or its time (9.6)\n"
        }
        _ => "",
    }
}

// Puts why a request was answered so.
fn put_reason(
    alloc: Global,
    text: &mut String,
    host: &Host,
    ties: &Ties,
    actor: usize,
    request: &Request,
    word: Recorded,
) -> Result<(), AllocError>
    ensures { OnOk result (KeepsTies ties.now host.now →
        string_bytes text.new ≡ string_bytes text.old ++ reason host.now actor request.now word) }
{
    match word {
        Recorded::Refused(rule, _, _) => put_refused(alloc, text, host, ties, actor, request, rule),
        _ => text.push_str(answer_line(word)),
    }
}

// Puts the body and the wait that the next entry ends, where this becomes of a queue by it.
fn put_ends(
    alloc: Global,
    text: &mut String,
    host: &Host,
    ties: &Ties,
    next: Next,
    ends: &Ends,
) -> Result<(), AllocError>
    ensures { OnOk result (KeepsTies ties.now host.now →
        string_bytes text.new ≡ string_bytes text.old ++ ends_by host.now next ends.now.body ends.now.wait) }
{
    put_ended_body(text, host, ends.body)?;
    put_ended_wait(alloc, text, host, ties, next, ends.wait)
}

/// Puts why a request was answered so, where it ends this. Err where memory was refused.
pub fn put_why(
    alloc: Global,
    text: &mut String,
    host: &Host,
    ties: &Ties,
    actor: usize,
    request: &Request,
    word: Recorded,
    ends: &Ends,
) -> Result<(), AllocError>
    ensures { OnOk result (KeepsTies ties.now host.now →
        string_bytes text.new ≡ string_bytes text.old ++ why_by host.now actor request.now word ends.now.body ends.now.wait) }
{
    put_call(alloc, text, host, ties, actor, request)?;
    put_reason(alloc, text, host, ties, actor, request, word)?;
    let next = next_of(&EntryRef::Asked(actor, request, word));
    put_ends(alloc, text, host, ties, next, ends)
}
