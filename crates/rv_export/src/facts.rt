//! What follows from the entries before. An Err means that memory was refused.

ghost use Rattle.std.specs.Prelude.{◌≡◌, ◌-◌, ◌++◌, suc, OnOk, codes, length, string_bytes};
ghost use Rattle.std.specs.Fmt.{decimal};
ghost use Rattle.rv_event.specs.declared.entry.Entry.TheVariants.{Asked};
ghost use Rattle.rv_event.specs.declared.entry.Recorded.{Recorded};
ghost use Rattle.rv_history.specs.History.{History};
ghost use Rattle.rv_shape.specs.Printed.{actor_text};
ghost use Rattle.rv_shape.specs.Readers.{who_of};
ghost use Rattle.rv_asked.specs.Holding.{Keeps};
ghost use Rattle.rv_waits.specs.Lasting.{Bodies, end_of};
ghost use Rattle.rv_export.specs.Exports.{about, answer_fields, answered, answered_fields, decided_fields, decision_fields, derived, drop_fields, dropped_fields, is_call, next_fields, object_fields, outcome, refused_fields, rule_fields};
ghost use Rattle.rv_export.specs.Kept.{KeepsBut, KeepsDrops, KeepsLeft};
ghost use Rattle.rv_export.specs.Said.{IsSaid};

use crate::drops::Drops;
use crate::fields::{put_count, put_number, put_quoted, put_text, put_who};
use crate::kept::Kept;
use crate::left::Left;
use crate::said::Said;
use crate::words::why;
use rv_asked::asking::asked_at;
use rv_asked::holding::Holding;
use rv_event::entry::{Body, EntryRef, Recorded, Request, Rule};
use rv_event::one_entry::named;
use rv_host::host::Host;
use rv_lasting::track::Begun;
use rv_shape::actor::Actor;
use rv_shape::catalogue::Catalogue;
use std::alloc::AllocError;

// Puts what is called, if anything is.
fn put_object(
    text: &mut String,
    said: &Said,
    catalogue: &Catalogue,
    call: Option<Body>,
) -> Result<(), AllocError>
    ensures { OnOk result ((h : History) → catalogue.now ≡ h.shapes → IsSaid said.now h →
        string_bytes text.new ≡ string_bytes text.old ++ object_fields h.shapes call) }
{
    match call {
        Some(call) => said.put_call(text, catalogue, call.object, call.operation),
        None => Ok(()),
    }
}

// Puts for whom the list is asked, and the line by which it decides.
fn put_decision(
    text: &mut String,
    subject: &str,
    number: usize,
    line: &str,
) -> Result<(), AllocError>
    ensures { OnOk result (string_bytes text.new ≡ string_bytes text.old ++ (codes ",\"subject\":\"" ++ (subject.now
        ++ (codes "\",\"line\":" ++ (decimal number ++ (codes ",\"line_text\":\"" ++ (line.now ++ codes "\""))))))) }
{
    put_text(text, ",\"subject\":\"", subject)?;
    put_count(text, "\",\"line\":", number)?;
    put_quoted(text, ",\"line_text\":\"", line)
}

// The same of a call about which the list in force is asked.
fn put_decision_of(
    text: &mut String,
    said: &Said,
    host: &Host,
    holding: &Holding,
    call: &Body,
) -> Result<(), AllocError>
    ensures { OnOk result (IsSaid said.now host.now → Keeps holding.now host.now.shapes host.now.past →
        string_bytes text.new ≡ string_bytes text.old ++ decision_fields host.now call.now) }
{
    let number = said.decided(host, holding, call);
    let subject = holding.subject(host.catalogue(), call.actor);
    put_decision(text, subject, number, said.line(number))
}

// The same, if it is asked about one.
fn put_decided(
    text: &mut String,
    said: &Said,
    host: &Host,
    holding: &Holding,
    call: Option<Body>,
) -> Result<(), AllocError>
    ensures { OnOk result (IsSaid said.now host.now → Keeps holding.now host.now.shapes host.now.past →
        string_bytes text.new ≡ string_bytes text.old ++ decided_fields host.now call) }
{
    match call {
        Some(call) => put_decision_of(text, said, host, holding, &call),
        None => Ok(()),
    }
}

// Puts an actor that is handed the object or dropped.
fn put_named(text: &mut String, who: &Actor<'_>) -> Result<(), AllocError>
    ensures { OnOk result (string_bytes text.new ≡ string_bytes text.old ++ (codes ",\"next\":\"" ++ (actor_text (who_of who.now) ++ codes "\""))) }
{
    put_who(text, ",\"next\":\"", who)?;
    text.push_str("\"")
}

// The same, if one is.
fn put_next(
    text: &mut String,
    catalogue: &Catalogue,
    actor: Option<usize>,
) -> Result<(), AllocError>
    ensures { OnOk result (string_bytes text.new ≡ string_bytes text.old ++ next_fields catalogue.now actor) }
{
    match actor {
        Some(actor) => put_named(text, &catalogue.who(actor)),
        None => Ok(()),
    }
}

// Puts the rule by which a request was refused.
fn put_rule(text: &mut String, rule: Rule) -> Result<(), AllocError>
    ensures { OnOk result (string_bytes text.new ≡ string_bytes text.old ++ rule_fields rule) }
{
    put_count(text, ",\"rule\":", rule.number())?;
    put_quoted(text, ",\"why\":\"", why(rule))
}

// Puts the line of this number and these words.
fn put_line_text(text: &mut String, number: usize, line: &str) -> Result<(), AllocError>
    ensures { OnOk result (string_bytes text.new ≡ string_bytes text.old
        ++ (codes ",\"line\":" ++ (decimal number ++ (codes ",\"line_text\":\"" ++ (line.now ++ codes "\""))))) }
{
    put_count(text, ",\"line\":", number)?;
    put_quoted(text, ",\"line_text\":\"", line)
}

// Puts the line by which the call of an actor was dropped.
fn put_drop(text: &mut String, drops: &Drops, actor: usize, number: usize) -> Result<(), AllocError>
    ensures { OnOk result ((h : History) → KeepsDrops drops.now h.past h.lists →
        string_bytes text.new ≡ string_bytes text.old ++ drop_fields h actor number) }
{
    put_line_text(text, number, drops.line(actor))
}

// The same of a request, if it is a resume.
fn put_dropped(
    text: &mut String,
    drops: &Drops,
    actor: usize,
    request: &Request,
    number: usize,
) -> Result<(), AllocError>
    ensures { OnOk result ((h : History) → KeepsDrops drops.now h.past h.lists →
        string_bytes text.new ≡ string_bytes text.old ++ dropped_fields h actor request.now number) }
{
    match *request {
        Request::Resume => put_drop(text, drops, actor, number),
        _ => Ok(()),
    }
}

// Puts why a request was refused.
fn put_refusal(
    text: &mut String,
    drops: &Drops,
    actor: usize,
    request: &Request,
    rule: Rule,
    number: usize,
) -> Result<(), AllocError>
    ensures { OnOk result ((h : History) → KeepsDrops drops.now h.past h.lists →
        string_bytes text.new ≡ string_bytes text.old ++ (rule_fields rule ++ dropped_fields h actor request.now number)) }
{
    put_rule(text, rule)?;
    put_dropped(text, drops, actor, request, number)
}

// The same, if it was.
fn put_refused(
    text: &mut String,
    drops: &Drops,
    actor: usize,
    request: &Request,
    word: Recorded,
) -> Result<(), AllocError>
    ensures { OnOk result ((h : History) → KeepsDrops drops.now h.past h.lists →
        string_bytes text.new ≡ string_bytes text.old ++ refused_fields h actor request.now word) }
{
    match word {
        Recorded::Refused(rule, number, _) => put_refusal(
            text, drops, actor, request, rule, number,
        ),
        _ => Ok(()),
    }
}

// What an entry answers, which ends this body.
fn answered(left: &Left, actor: usize, request: &Request, ended: Option<Begun>) -> Option<Begun>
    ensures { (h : History) (word : Recorded) → KeepsLeft left.now h.past
        → ended ≡ end_of Bodies h.shapes h.past (Asked actor request.now word) → result ≡ answered h actor request.now word }
{
    match *request {
        Request::Resume => left.of(actor),
        _ => ended,
    }
}

// Puts which entry is answered, and how many entries and ticks there are between.
fn put_distance(
    text: &mut String,
    number: usize,
    entries: usize,
    ticks: u64,
) -> Result<(), AllocError>
    ensures { OnOk result (string_bytes text.new ≡ string_bytes text.old ++ (codes ",\"answers\":" ++ (decimal number
        ++ (codes ",\"entries\":" ++ (decimal entries ++ (codes ",\"ticks\":" ++ decimal ticks)))))) }
{
    put_count(text, ",\"answers\":", number)?;
    put_count(text, ",\"entries\":", entries)?;
    put_number(text, ",\"ticks\":", ticks)
}

// The same of what the entry of this number answers.
fn put_answer(text: &mut String, host: &Host, number: usize, it: &Begun) -> Result<(), AllocError>
    ensures { OnOk result (number ≡ suc (length host.now.past) →
        string_bytes text.new ≡ string_bytes text.old ++ answer_fields host.now it.now) }
{
    let entries = number.saturating_sub(it.number);
    let ticks = host.clock().saturating_sub(it.tick);
    put_distance(text, it.number, entries, ticks)
}

// The same, if it answers any.
fn put_answered(
    text: &mut String,
    host: &Host,
    number: usize,
    it: Option<Begun>,
) -> Result<(), AllocError>
    ensures { OnOk result (number ≡ suc (length host.now.past) →
        string_bytes text.new ≡ string_bytes text.old ++ answered_fields host.now it) }
{
    match it {
        Some(it) => put_answer(text, host, number, &it),
        None => Ok(()),
    }
}

// Whether a request is a call.
fn is_call(request: &Request) -> bool
    ensures { result ≡ is_call request.now }
{
    match *request {
        Request::Call(_, _, _) => true,
        Request::Fire => true,
        _ => false,
    }
}

// What a request is about.
fn about(request: &Request, asked: Option<Body>, it: Option<Begun>) -> Option<Body>
    ensures { result ≡ about request.now asked it }
{
    if is_call(request) {
        return asked;
    }
    match it {
        Some(it) => Some(it.call),
        None => None,
    }
}

// Puts what is called, and what the list decides.
fn put_called(
    text: &mut String,
    said: &Said,
    host: &Host,
    holding: &Holding,
    call: Option<Body>,
    asked: Option<Body>,
) -> Result<(), AllocError>
    ensures { OnOk result (IsSaid said.now host.now → Keeps holding.now host.now.shapes host.now.past → string_bytes text.new ≡ string_bytes text.old
        ++ (object_fields host.now.shapes call ++ decided_fields host.now asked)) }
{
    put_object(text, said, host.catalogue(), call)?;
    put_decided(text, said, host, holding, asked)
}

// Puts whom the object is handed to, why a request was refused, and which entry is answered.
fn put_outcome(
    text: &mut String,
    host: &Host,
    drops: &Drops,
    number: usize,
    actor: usize,
    request: &Request,
    word: Recorded,
    it: Option<Begun>,
) -> Result<(), AllocError>
    ensures { OnOk result (KeepsDrops drops.now host.now.past host.now.lists → number ≡ suc (length host.now.past) →
        string_bytes text.new ≡ string_bytes text.old ++ outcome host.now actor request.now word it) }
{
    let named = named(&EntryRef::Asked(actor, request, word));
    put_next(text, host.catalogue(), named)?;
    put_refused(text, drops, actor, request, word)?;
    put_answered(text, host, number, it)
}

/// Puts what follows of a request with its answer, the entry of this number, which ends this body.
pub fn put_derived(
    text: &mut String,
    host: &Host,
    kept: &Kept,
    said: &Said,
    number: usize,
    actor: usize,
    request: &Request,
    word: Recorded,
    ended: Option<Begun>,
) -> Result<(), AllocError>
    ensures { OnOk result (KeepsBut kept.now host.now (Asked actor request.now word) → IsSaid said.now host.now → number ≡ suc (length host.now.past)
        → ended ≡ end_of Bodies host.now.shapes host.now.past (Asked actor request.now word)
        → string_bytes text.new ≡ string_bytes text.old ++ derived host.now actor request.now word) }
{
    let holding = kept.holding();
    let entry = EntryRef::Asked(actor, request, word);
    let asked = asked_at(host.catalogue(), holding, &entry);
    let it = answered(kept.left(), actor, request, ended);
    put_called(text, said, host, holding, about(request, asked, it), asked)?;
    put_outcome(text, host, kept.drops(), number, actor, request, word, it)
}
