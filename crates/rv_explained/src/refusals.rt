//! Why a request was refused: the line of the list that decides, and the rules (docs/RULES.md).

ghost use Rattle.std.specs.Prelude.{◌≡◌, ◌∷◌, ◌++◌, ◌-◌, List, [], IfOk, OnOk, codes, string_bytes};
ghost use Rattle.std.specs.Fmt.{decimal};
ghost use Rattle.rv_access.specs.Words.{Words};
ghost use Rattle.rv_event.specs.Past.{fired, waiter};
ghost use Rattle.rv_event.specs.declared.entry.Entry.{Entry};
ghost use Rattle.rv_history.specs.Rules.{aim};
ghost use Rattle.rv_shape.specs.Catalogue.{handler};
ghost use Rattle.rv_shape.specs.Printed.{actor_text};
ghost use Rattle.rv_shape.specs.Readers.{who_of};
ghost use Rattle.rv_explained.specs.Explanations.{actor_names, against, broken_rule, broken_text, call_of, decided_line, decision_line, denied, dropped_line, held_text, priorities_line, queue_line, refused_request, refused_resume, refused_text, waiter_line};
ghost use Rattle.rv_waiting.specs.Queues.{callers};
ghost use Rattle.rv_waits.specs.Lasting.{Bodies, lasting};
ghost use Rattle.rv_explained.specs.Following.{KeepsTies};
ghost use Rattle.rv_explained.specs.Ties.{KeepsDrops};

use crate::bodies::{put_bodies, put_priorities};
use crate::drops::Drops;
use crate::letting::{put_letting, put_letting_queued};
use crate::ties::Ties;
use crate::words::{rule_text, since_text};
use rv_asked::deciding::{decided_in_force, line_in_force};
use rv_event::entry::{Body, Request, Rule};
use rv_grants::decision_text;
use rv_host::host::Host;
use rv_shape::actor::Actor;
use rv_shape::catalogue::Catalogue;
use std::alloc::{AllocError, Global};

// The call of its handler by a fired line, if it has one (C.3).
fn fired_by(catalogue: &Catalogue, actor: usize) -> Option<Body>
    ensures { result ≡ fired actor (handler catalogue.now (actor - 1)) }
{
    match catalogue.handler(actor.saturating_sub(1)) {
        Some((object, operation)) => Some(Body {
            actor,
            object,
            operation,
        }),
        None => None,
    }
}

/// The call that a request makes, if it makes one.
pub fn call_of(catalogue: &Catalogue, actor: usize, request: &Request) -> Option<Body>
    ensures { result ≡ call_of catalogue.now actor request.now }
{
    match *request {
        Request::Call(object, operation, _) => Some(Body {
            actor,
            object,
            operation,
        }),
        Request::Fire => fired_by(catalogue, actor),
        _ => None,
    }
}

// Puts what a line decides, and for whom.
fn put_decision(text: &mut String, decision: &str, subject: &str) -> Result<(), AllocError>
    ensures { OnOk result (string_bytes text.new ≡ string_bytes text.old
        ++ (codes "rule 1 (own): " ++ (decision.now ++ (codes ", for " ++ (subject.now ++ 10 ∷ []))))) }
{
    write!(text, "rule 1 (own): {decision}, for {subject}\n")
}

// Puts what the line of the list in force decides of this call.
fn put_decided(
    alloc: Global,
    text: &mut String,
    host: &Host,
    ties: &Ties,
    call: &Body,
) -> Result<(), AllocError>
    ensures { OnOk result (KeepsTies ties.now host.now → string_bytes text.new ≡ string_bytes text.old ++ decided_line host.now call.now) }
{
    let holding = ties.holding();
    let number = decided_in_force(host, holding, call);
    let decision = decision_text(alloc, line_in_force(host, number))?;
    put_decision(
        text,
        decision.as_str(),
        holding.subject(host.catalogue(), call.actor),
    )
}

// The same, if there is one.
fn put_deciding(
    alloc: Global,
    text: &mut String,
    host: &Host,
    ties: &Ties,
    call: Option<Body>,
) -> Result<(), AllocError>
    ensures { OnOk result (KeepsTies ties.now host.now → string_bytes text.new ≡ string_bytes text.old ++ decision_line host.now call) }
{
    match call {
        Some(call) => put_decided(alloc, text, host, ties, &call),
        None => Ok(()),
    }
}

/// Puts what the line of the list in force decides of the call that a request makes, if it makes one. Err where memory was refused.
pub fn put_call(
    alloc: Global,
    text: &mut String,
    host: &Host,
    ties: &Ties,
    actor: usize,
    request: &Request,
) -> Result<(), AllocError>
    ensures { OnOk result (KeepsTies ties.now host.now →
        string_bytes text.new ≡ string_bytes text.old ++ decision_line host.now (call_of host.now.shapes actor request.now)) }
{
    let call = call_of(host.catalogue(), actor, request);
    put_deciding(alloc, text, host, ties, call)
}

/// That a queued call isn't granted any more, by a line of these words of the list that the entry of this number brought.
pub fn denied(alloc: Global, words: &str, number: usize) -> Result<String, AllocError>
    ensures { IfOk result (λ text. string_bytes text ≡ denied words.now number) }
{
    let since = since_text(alloc, number)?;
    let since = since.as_str();
    format!(in alloc; "rule 1 (own): not granted: {words}, {since}")
}

// Puts in which entry a call was dropped, behind why.
fn put_drop(text: &mut String, denied: &str, number: usize) -> Result<(), AllocError>
    ensures { OnOk result (string_bytes text.new ≡ string_bytes text.old
        ++ (denied.now ++ (codes ", when entry " ++ (decimal number ++ (codes " dropped its call" ++ 10 ∷ []))))) }
{
    write!(text, "{denied}, when entry {number} dropped its call\n")
}

// Puts by which line the call of a resume was dropped, and in which entry.
fn put_dropped(
    alloc: Global,
    text: &mut String,
    drops: &Drops,
    actor: usize,
) -> Result<(), AllocError>
    ensures { OnOk result ((past : List Entry) (lists : List (List Words)) → KeepsDrops drops.now past lists →
        string_bytes text.new ≡ string_bytes text.old ++ dropped_line actor past lists) }
{
    let denied = denied(alloc, drops.line(actor), drops.list_entry(actor))?;
    put_drop(text, denied.as_str(), drops.number(actor))
}

// The object that a request calls, 0 where it calls none.
fn aimed(catalogue: &Catalogue, actor: usize, request: &Request) -> usize
    ensures { result ≡ (aim catalogue.now actor request.now).0 }
{
    match call_of(catalogue, actor, request) {
        Some(call) => call.object,
        None => 0,
    }
}

// Puts the name of an actor behind a mark.
fn put_actor(text: &mut String, mark: &str, who: &Actor<'_>) -> Result<(), AllocError>
    ensures { OnOk result (string_bytes text.new ≡ string_bytes text.old ++ (mark.now ++ actor_text (who_of who.now))) }
{
    write!(text, "{mark}{who}")
}

// Puts the names of actors, with this mark before the first, and commas between them.
fn put_actors(
    text: &mut String,
    catalogue: &Catalogue,
    mark: &str,
    actors: &[usize],
) -> Result<(), AllocError>
    ensures { OnOk result (string_bytes text.new ≡ string_bytes text.old ++ actor_names catalogue.now mark.now actors.now) }
{
    let Some((actor, others)) = actors.split_first() else {
        return Ok(());
    };
    put_actor(text, mark, &catalogue.who(*actor))?;
    put_actors(text, catalogue, ", ", others)
}

// Ends a line.
fn put_feed(text: &mut String) -> Result<(), AllocError>
    ensures { OnOk result (string_bytes text.new ≡ string_bytes text.old ++ 10 ∷ []) }
{
    text.push_str("\n")
}

// Puts who waits in the queue of an object, without the end of the line.
fn put_callers(text: &mut String, host: &Host, object: usize) -> Result<(), AllocError>
    ensures { OnOk result (string_bytes text.new ≡ string_bytes text.old
        ++ actor_names host.now.shapes (codes "in the queue: ") (callers object host.now.past)) }
{
    put_actors(
        text,
        host.catalogue(),
        "in the queue: ",
        host.callers(object),
    )
}

// Puts who waits in the queue of an object.
fn put_queue(text: &mut String, host: &Host, object: usize) -> Result<(), AllocError>
    ensures { OnOk result (string_bytes text.new ≡ string_bytes text.old ++ queue_line host.now object) }
{
    put_callers(text, host, object)?;
    put_feed(text)
}

// Puts a line with the name of an actor behind a mark.
fn put_named(text: &mut String, mark: &str, who: &Actor<'_>) -> Result<(), AllocError>
    ensures { OnOk result (string_bytes text.new ≡ string_bytes text.old ++ (mark.now ++ (actor_text (who_of who.now) ++ 10 ∷ []))) }
{
    write!(text, "{mark}{who}\n")
}

// Puts who waits on a suspension object, if somebody does.
fn put_waiter(
    text: &mut String,
    catalogue: &Catalogue,
    waiter: Option<usize>,
) -> Result<(), AllocError>
    ensures { OnOk result (string_bytes text.new ≡ string_bytes text.old ++ waiter_line catalogue.now waiter) }
{
    match waiter {
        Some(actor) => put_named(text, "waiting there: ", &catalogue.who(actor)),
        None => Ok(()),
    }
}

// The same of the object of a number.
fn put_waiter_on(text: &mut String, host: &Host, object: usize) -> Result<(), AllocError>
    ensures { OnOk result (string_bytes text.new ≡ string_bytes text.old ++ waiter_line host.now.shapes (waiter object host.now.past)) }
{
    put_waiter(text, host.catalogue(), host.waiter(object))
}

// Puts the bodies that an actor is in.
fn put_held(text: &mut String, host: &Host, ties: &Ties, actor: usize) -> Result<(), AllocError>
    ensures { OnOk result (KeepsTies ties.now host.now →
        string_bytes text.new ≡ string_bytes text.old ++ held_text host.now.shapes actor (lasting Bodies host.now.shapes host.now.past)) }
{
    put_bodies(text, host.catalogue(), actor, ties.bodies())
}

// Puts the two priorities.
fn put_both(
    text: &mut String,
    host: &Host,
    ties: &Ties,
    actor: usize,
    object: usize,
) -> Result<(), AllocError>
    ensures { OnOk result (KeepsTies ties.now host.now →
        string_bytes text.new ≡ string_bytes text.old ++ priorities_line host.now actor object) }
{
    put_priorities(text, host, actor, object, ties.bodies())
}

// Puts what stands against a request that calls this object, by a rule.
fn put_against(
    text: &mut String,
    host: &Host,
    ties: &Ties,
    actor: usize,
    object: usize,
    rule: Rule,
) -> Result<(), AllocError>
    ensures { OnOk result (KeepsTies ties.now host.now → string_bytes text.new ≡ string_bytes text.old ++ against host.now actor object rule) }
{
    match rule {
        Rule::Grant => Ok(()),
        Rule::Blocking => put_held(text, host, ties, actor),
        Rule::Reentry => put_held(text, host, ties, actor),
        Rule::Ceiling => put_both(text, host, ties, actor, object),
        Rule::Queue => put_queue(text, host, object),
        Rule::Waiter => put_waiter_on(text, host, object),
    }
}

// Puts the rule by which a request was refused; the first is told by the line that decides.
fn put_rule(alloc: Global, text: &mut String, rule: Rule) -> Result<(), AllocError>
    ensures { OnOk result (string_bytes text.new ≡ string_bytes text.old ++ broken_rule rule) }
{
    match rule {
        Rule::Grant => Ok(()),
        _ => {
            let words = rule_text(alloc, rule)?;
            text.push_str(words.as_str())
        }
    }
}

// Puts what stands against a request, by a rule.
fn put_against_it(
    text: &mut String,
    host: &Host,
    ties: &Ties,
    actor: usize,
    request: &Request,
    rule: Rule,
) -> Result<(), AllocError>
    ensures { OnOk result (KeepsTies ties.now host.now →
        string_bytes text.new ≡ string_bytes text.old ++ against host.now actor (aim host.now.shapes actor request.now).0 rule) }
{
    let object = aimed(host.catalogue(), actor, request);
    put_against(text, host, ties, actor, object, rule)
}

// Puts that a request broke a rule.
fn put_broken(
    alloc: Global,
    text: &mut String,
    host: &Host,
    ties: &Ties,
    actor: usize,
    request: &Request,
    rule: Rule,
) -> Result<(), AllocError>
    ensures { OnOk result (KeepsTies ties.now host.now →
        string_bytes text.new ≡ string_bytes text.old ++ broken_text host.now actor request.now rule) }
{
    put_rule(alloc, text, rule)?;
    put_against_it(text, host, ties, actor, request, rule)
}

// Puts by which line the call of a resume was dropped, by what is kept.
fn put_resumed(
    alloc: Global,
    text: &mut String,
    _host: &Host,
    ties: &Ties,
    actor: usize,
) -> Result<(), AllocError>
    ensures { OnOk result (KeepsTies ties.now _host.now →
        string_bytes text.new ≡ string_bytes text.old ++ dropped_line actor _host.now.past _host.now.lists) }
{
    put_dropped(alloc, text, ties.drops(), actor)
}

// Puts why a resume was refused.
fn put_refused_resume(
    alloc: Global,
    text: &mut String,
    host: &Host,
    ties: &Ties,
    actor: usize,
) -> Result<(), AllocError>
    ensures { OnOk result (KeepsTies ties.now host.now →
        string_bytes text.new ≡ string_bytes text.old ++ refused_resume host.now actor) }
{
    put_resumed(alloc, text, host, ties, actor)?;
    put_letting_queued(text, host, ties, actor)
}

// Puts why another request was refused.
fn put_refused_request(
    alloc: Global,
    text: &mut String,
    host: &Host,
    ties: &Ties,
    actor: usize,
    request: &Request,
    rule: Rule,
) -> Result<(), AllocError>
    ensures { OnOk result (KeepsTies ties.now host.now →
        string_bytes text.new ≡ string_bytes text.old ++ refused_request host.now actor request.now rule) }
{
    put_broken(alloc, text, host, ties, actor, request, rule)?;
    put_letting(text, host, ties, actor, request, rule)
}

/// Puts why a request was refused. Err where memory was refused.
pub fn put_refused(
    alloc: Global,
    text: &mut String,
    host: &Host,
    ties: &Ties,
    actor: usize,
    request: &Request,
    rule: Rule,
) -> Result<(), AllocError>
    ensures { OnOk result (KeepsTies ties.now host.now →
        string_bytes text.new ≡ string_bytes text.old ++ refused_text host.now actor request.now rule) }
{
    match *request {
        Request::Resume => put_refused_resume(alloc, text, host, ties, actor),
        _ => put_refused_request(alloc, text, host, ties, actor, request, rule),
    }
}
