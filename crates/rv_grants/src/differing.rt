//! Where one of two lists grants a call and the other doesn't, by spans of ticks.

ghost use Rattle.std.specs.Prelude.{◌≡◌, ◌++◌, IfOk, OnOk, string_bytes};
ghost use Rattle.rv_grants.specs.Grants.{json_row};
ghost use Rattle.rv_grants.specs.Differences.{AgreesWithoutRow, are_same, deciding, decided_before, decisions_fields, decisions_text, differ, difference_at, difference_row, differences_from, differences_text, edges_of, end_among, span_fields, span_text, told_apart};

use crate::{Asking, allows, decided, decision_fields, decision_text, put_ends, put_json};
use rv_access::AccessList;
use rv_spans::sorted;
use std::alloc::{AllocError, Global};

/// Where a call has no row, both lists grant it or neither does, at each tick. A law, on a function that does nothing.
#[tactic(auto, using(crate::proofs::Agreeing::agrees_without_row))]
pub fn no_row_where_lists_agree()
    ensures { AgreesWithoutRow }
{}

/// Two lists, the one and the other.
#[derive(Clone, Copy)]
pub struct Both<'l> {
    /// The one.
    pub one: &'l AccessList,
    /// The other.
    pub other: &'l AccessList,
}

// The ticks at which the windows of both lists begin and end, in order.
fn edges_of(alloc: Global, lists: Both<'_>) -> Result<Vec<u64>, AllocError>
    ensures { IfOk result (λ ticks. ticks.items ≡ edges_of lists.entry.one.now lists.entry.other.now) }
{
    let mut ticks = Vec::new(alloc);
    put_ends(&mut ticks, lists.one.lines())?;
    put_ends(&mut ticks, lists.other.lines())?;
    Ok(sorted(ticks))
}

// The lines that decide a call at a tick.
fn deciding(lists: Both<'_>, asking: &Asking<'_>, tick: u64) -> (usize, usize)
    ensures { result ≡ deciding lists.entry.one.now lists.entry.other.now asking.now tick }
{
    (
        decided(lists.one, asking, tick),
        decided(lists.other, asking, tick),
    )
}

// Whether these are the same.
fn are_same(these: (usize, usize), those: (usize, usize)) -> bool
    ensures { result ≡ are_same these those }
{
    these.0 == those.0 && these.1 == those.1
}

// Whether one of these two lines grants, and the other doesn't.
fn differ(lists: Both<'_>, these: (usize, usize)) -> bool
    ensures { result ≡ differ lists.entry.one.now lists.entry.other.now these }
{
    let ours = allows(lists.one.line(these.0));
    let theirs = allows(lists.other.line(these.1));
    if ours { !theirs } else { theirs }
}

// The first of these ticks at which other lines decide.
fn end_among(
    lists: Both<'_>,
    asking: &Asking<'_>,
    these: (usize, usize),
    ticks: &[u64],
) -> Option<u64>
    ensures { result ≡ end_among lists.entry.one.now lists.entry.other.now asking.now these ticks.now }
{
    let [tick, ticks @ ..] = ticks else {
        return None;
    };
    if are_same(these, deciding(lists, asking, *tick)) {
        return end_among(lists, asking, these, ticks);
    }
    Some(*tick)
}

// From which tick on and until when, if ever, in words.
fn span_text(alloc: Global, tick: u64, end: Option<u64>) -> Result<String, AllocError>
    ensures { IfOk result (λ text. string_bytes text ≡ span_text tick end) }
{
    match end {
        Some(end) => format!(in alloc; "{tick} until tick {end}"),
        None => format!(in alloc; "{tick}"),
    }
}

// What these lines decide, in words.
fn decisions_text(
    alloc: Global,
    lists: Both<'_>,
    these: (usize, usize),
) -> Result<String, AllocError>
    ensures { IfOk result (λ text. string_bytes text ≡ decisions_text lists.entry.one.now lists.entry.other.now these) }
{
    let ours = decision_text(alloc, lists.one.line(these.0))?;
    let theirs = decision_text(alloc, lists.other.line(these.1))?;
    let ours = ours.as_str();
    let theirs = theirs.as_str();
    format!(in alloc; "{ours}, against {theirs}")
}

// Puts a row, in these words.
fn put_words(
    text: &mut String,
    asking: &Asking<'_>,
    span: &str,
    decisions: &str,
) -> Result<(), AllocError>
    ensures { OnOk result (string_bytes text.new ≡ string_bytes text.old ++ difference_row asking.now span.now decisions.now) }
{
    let caller = asking.caller;
    let unit = asking.unit;
    let object = asking.object;
    let operation = asking.operation;
    write!(
        text,
        "{caller} {unit}.{object} {operation} from tick {span} -> {decisions}\n"
    )
}

// Puts the row of a call from a tick on until another, by what these lines decide.
fn put_row(
    alloc: Global,
    text: &mut String,
    lists: Both<'_>,
    asking: &Asking<'_>,
    tick: u64,
    end: Option<u64>,
    these: (usize, usize),
) -> Result<(), AllocError>
    ensures { OnOk result (string_bytes text.new ≡ string_bytes text.old ++ difference_row asking.now (span_text tick end)
        (decisions_text lists.entry.one.now lists.entry.other.now these)) }
{
    let span = span_text(alloc, tick, end)?;
    let decisions = decisions_text(alloc, lists, these)?;
    put_words(text, asking, span.as_str(), decisions.as_str())
}

// From which tick on and until when, if ever, as JSON.
fn span_fields(alloc: Global, tick: u64, end: Option<u64>) -> Result<String, AllocError>
    ensures { IfOk result (λ text. string_bytes text ≡ span_fields tick end) }
{
    match end {
        Some(end) => format!(in alloc; "{tick},\"until\":{end}"),
        None => format!(in alloc; "{tick}"),
    }
}

// What these lines decide, as JSON.
fn decisions_fields(
    alloc: Global,
    lists: Both<'_>,
    these: (usize, usize),
) -> Result<String, AllocError>
    ensures { IfOk result (λ text. string_bytes text ≡ decisions_fields lists.entry.one.now lists.entry.other.now these) }
{
    let ours = decision_fields(alloc, these.0, lists.one.line(these.0))?;
    let theirs = decision_fields(alloc, these.1, lists.other.line(these.1))?;
    let ours = ours.as_str();
    let theirs = theirs.as_str();
    format!(in alloc; "{ours},\"against\":{{{theirs}}}")
}

// Puts the row of a call from a tick on until another as JSON, by what these lines decide.
fn put_fields(
    alloc: Global,
    text: &mut String,
    lists: Both<'_>,
    asking: &Asking<'_>,
    tick: u64,
    end: Option<u64>,
    these: (usize, usize),
) -> Result<(), AllocError>
    ensures { OnOk result (string_bytes text.new ≡ string_bytes text.old ++ json_row asking.now (span_fields tick end)
        (decisions_fields lists.entry.one.now lists.entry.other.now these)) }
{
    let span = span_fields(alloc, tick, end)?;
    let decisions = decisions_fields(alloc, lists, these)?;
    put_json(text, asking, span.as_str(), decisions.as_str())
}

// Tells of a call from a tick on until another, by what these lines decide.
fn put_told(
    alloc: Global,
    text: &mut String,
    lists: Both<'_>,
    asking: &Asking<'_>,
    tick: u64,
    end: Option<u64>,
    these: (usize, usize),
) -> Result<(), AllocError>
    ensures { OnOk result (string_bytes text.new ≡ string_bytes text.old
        ++ told_apart lists.entry.one.now lists.entry.other.now asking.now tick end these) }
{
    if asking.as_json {
        return put_fields(alloc, text, lists, asking, tick, end, these);
    }
    put_row(alloc, text, lists, asking, tick, end, these)
}

// Whether these lines decided before.
fn decided_before(last: Option<(usize, usize)>, these: (usize, usize)) -> bool
    ensures { result ≡ decided_before last these }
{
    match last {
        Some(last) => are_same(last, these),
        None => false,
    }
}

// Tells of a call from a tick on, before these others, where other lines decide than before and the two lists differ.
fn put_difference(
    alloc: Global,
    text: &mut String,
    lists: Both<'_>,
    asking: &Asking<'_>,
    last: Option<(usize, usize)>,
    tick: u64,
    ticks: &[u64],
) -> Result<(), AllocError>
    ensures { OnOk result (string_bytes text.new ≡ string_bytes text.old
        ++ difference_at lists.entry.one.now lists.entry.other.now asking.now last tick ticks.now) }
{
    let these = deciding(lists, asking, tick);
    if decided_before(last, these) {
        return Ok(());
    }
    if !differ(lists, these) {
        return Ok(());
    }
    let end = end_among(lists, asking, these, ticks);
    put_told(alloc, text, lists, asking, tick, end, these)
}

// Puts the rows of a call at these ticks behind a text.
fn put_from(
    alloc: Global,
    text: &mut String,
    lists: Both<'_>,
    asking: &Asking<'_>,
    last: Option<(usize, usize)>,
    ticks: &[u64],
) -> Result<(), AllocError>
    ensures { OnOk result (string_bytes text.new ≡ string_bytes text.old
        ++ differences_from lists.entry.one.now lists.entry.other.now asking.now last ticks.now) }
{
    let [tick, ticks @ ..] = ticks else {
        return Ok(());
    };
    put_difference(alloc, text, lists, asking, last, *tick, ticks)?;
    let these = deciding(lists, asking, *tick);
    put_from(alloc, text, lists, asking, Some(these), ticks)
}

/// Puts the rows of a call behind a text: each span of ticks in which one of two lists grants it and the other doesn't, with the lines
/// that decide. Err where memory was refused.
pub fn put_differences(
    alloc: Global,
    text: &mut String,
    lists: Both<'_>,
    asking: &Asking<'_>,
) -> Result<(), AllocError>
    ensures { OnOk result (string_bytes text.new ≡ string_bytes text.old ++ differences_text lists.entry.one.now lists.entry.other.now asking.now) }
{
    let mut ticks = Vec::new(alloc);
    ticks.push(0)?;
    ticks.extend_from_slice(edges_of(alloc, lists)?.as_slice())?;
    put_from(alloc, text, lists, asking, None, ticks.as_slice())
}
