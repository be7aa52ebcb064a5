//! Who is granted which call by an access list, by spans of ticks.
#![tactic(auto)]

mod differing;

ghost use Rattle.std.specs.Prelude.{◌≡◌, ◌++◌, ◌∷◌, [], IfOk, OnOk, codes, option_copied, string_bytes};
ghost use Rattle.std.specs.Fmt.{decimal};
ghost use Rattle.rv_access.specs.Lines.{allows};
ghost use Rattle.rv_shape.specs.Catalogue.{dotted};
ghost use Rattle.rv_grants.specs.Grants.{DecidesBetween, change, decided, decision_fields, decision_text, edges, ends, grants_from, grants_text, granted_word, is_again, json_row, row, told, words_of};

pub use differing::{Both, no_row_where_lists_agree, put_differences};
use rv_access::{AccessList, Line, decide};
use rv_spans::sorted;
use std::alloc::{AllocError, Global};
use std::marker::Model;

/// Where no window of a list begins or ends between two ticks, the same line decides at both. A law, on a function that does nothing.
#[tactic(auto, using(crate::proofs::Between::decides_between))]
pub fn same_lines_decide_between_edges()
    ensures { DecidesBetween }
{}

/// What is asked: which unit calls which operation of which object, and in which form the answer is told.
#[derive(Drop)]
pub struct Asking<'a> {
    /// The unit that calls.
    pub caller: &'a str,
    /// The unit of the object.
    pub unit: &'a str,
    /// The object.
    pub object: &'a str,
    /// The operation.
    pub operation: &'a str,
    /// Whether it is told as JSON.
    pub as_json: bool,
}

impl<'a> Model for Asking<'a> {
    ghost use Rattle.rv_grants.specs.Grants.{Call};

    ghost Value = { Call };

    ghost view = { λ a. record {
      caller = a.caller.now;
      unit = a.unit.now;
      object = a.object.now;
      operation = a.operation.now;
      as_json = a.as_json;
    } };
}

// Puts the ticks at which the windows of lines begin and end behind others.
pub(crate) fn put_ends(ticks: &mut Vec<u64>, lines: &[Line]) -> Result<(), AllocError>
    ensures { OnOk result (ticks.new.items ≡ ticks.old.items ++ ends lines.now) }
{
    let [line, lines @ ..] = lines else {
        return Ok(());
    };
    if let Some(window) = line.window() {
        ticks.push(window.first())?;
        ticks.push(window.end())?;
    }
    put_ends(ticks, lines)
}

// The ticks at which the windows of a list begin and end, in order.
fn edges(alloc: Global, list: &AccessList) -> Result<Vec<u64>, AllocError>
    ensures { IfOk result (λ ticks. ticks.items ≡ edges list.now) }
{
    let mut ticks = Vec::new(alloc);
    put_ends(&mut ticks, list.lines())?;
    Ok(sorted(ticks))
}

/// What a line decides, in words; without one the call is denied. Err where memory was refused.
pub fn decision_text(alloc: Global, line: Option<&Line>) -> Result<String, AllocError>
    ensures { IfOk result (λ text. string_bytes text ≡ decision_text (option_copied line.entry)) }
{
    let Some(line) = line else {
        return String::from_str(alloc, "not granted: no line");
    };
    let words = line.text(alloc)?;
    let words = words.as_str();
    if line.allows() {
        return format!(in alloc; "granted: {words}");
    }
    format!(in alloc; "not granted: {words}")
}

// Puts a row: who may call what, from which tick on.
fn put_words(
    text: &mut String,
    asking: &Asking<'_>,
    tick: u64,
    decision: &str,
) -> Result<(), AllocError>
    ensures { OnOk result (string_bytes text.new ≡ string_bytes text.old ++ row asking.now tick decision.now) }
{
    let caller = asking.caller;
    let unit = asking.unit;
    let object = asking.object;
    let operation = asking.operation;
    write!(
        text,
        "{caller} {unit}.{object} {operation} from tick {tick} -> {decision}\n"
    )
}

// Puts who calls, as JSON has it.
fn put_caller(text: &mut String, asking: &Asking<'_>) -> Result<(), AllocError>
    ensures { OnOk result (string_bytes text.new ≡ string_bytes text.old ++ (codes "{\"caller\":\"" ++ asking.now.caller)) }
{
    let caller = asking.caller;
    write!(text, "{{\"caller\":\"{caller}")
}

// Puts a text and a dot.
fn put_before_dot(text: &mut String, unit: &str) -> Result<(), AllocError>
    ensures { OnOk result (string_bytes text.new ≡ string_bytes text.old ++ (unit.now ++ codes ".")) }
{
    text.push_str(unit)?;
    text.push_str(".")
}

// Puts two names with a dot between them.
fn put_dotted(text: &mut String, unit: &str, object: &str) -> Result<(), AllocError>
    ensures { OnOk result (string_bytes text.new ≡ string_bytes text.old ++ dotted unit.now object.now) }
{
    put_before_dot(text, unit)?;
    text.push_str(object)
}

// Puts which object is called.
fn put_object(text: &mut String, asking: &Asking<'_>) -> Result<(), AllocError>
    ensures { OnOk result (string_bytes text.new ≡ string_bytes text.old
        ++ (codes "\",\"object\":\"" ++ dotted asking.now.unit asking.now.object)) }
{
    text.push_str("\",\"object\":\"")?;
    put_dotted(text, asking.unit, asking.object)
}

// Puts which operation of it is called.
fn put_operation(text: &mut String, asking: &Asking<'_>) -> Result<(), AllocError>
    ensures { OnOk result (string_bytes text.new ≡ string_bytes text.old ++ (codes "\",\"operation\":\"" ++ asking.now.operation)) }
{
    let operation = asking.operation;
    write!(text, "\",\"operation\":\"{operation}")
}

// Puts the ticks, and the fields of what is decided.
fn put_decided(text: &mut String, span: &str, decision: &str) -> Result<(), AllocError>
    ensures { OnOk result (string_bytes text.new ≡ string_bytes text.old
        ++ (codes "\",\"from\":" ++ (span.now ++ (codes "," ++ (decision.now ++ (codes "}" ++ 10 ∷ [])))))) }
{
    write!(text, "\",\"from\":{span},{decision}}}\n")
}

// Puts a row as JSON: the ticks, and the fields of what is decided.
pub(crate) fn put_json(
    text: &mut String,
    asking: &Asking<'_>,
    span: &str,
    decision: &str,
) -> Result<(), AllocError>
    ensures { OnOk result (string_bytes text.new ≡ string_bytes text.old ++ json_row asking.now span.now decision.now) }
{
    put_caller(text, asking)?;
    put_object(text, asking)?;
    put_operation(text, asking)?;
    put_decided(text, span, decision)
}

// Whether there is a line, and it allows.
pub(crate) fn allows(line: Option<&Line>) -> bool
    ensures { result ≡ allows (option_copied line.entry) }
{
    match line {
        Some(line) => line.allows(),
        None => false,
    }
}

// Whether something is granted, as JSON has it.
fn granted_word(granted: bool) -> &'static str
    ensures { result.now ≡ granted_word granted }
{
    if granted { "true" } else { "false" }
}

// The words of a line, if there is one.
fn words_of(alloc: Global, line: Option<&Line>) -> Result<String, AllocError>
    ensures { IfOk result (λ text. string_bytes text ≡ words_of (option_copied line.entry)) }
{
    match line {
        Some(line) => line.text(alloc),
        None => String::from_str(alloc, "no line"),
    }
}

// The fields of what the line of this number decides.
pub(crate) fn decision_fields(
    alloc: Global,
    number: usize,
    line: Option<&Line>,
) -> Result<String, AllocError>
    ensures { IfOk result (λ text. string_bytes text ≡ decision_fields number (option_copied line.entry)) }
{
    let granted = granted_word(allows(line));
    let words = words_of(alloc, line)?;
    let words = words.as_str();
    format!(in alloc; "\"granted\":{granted},\"line\":{number},\"line_text\":\"{words}\"")
}

// The same of a call from a tick on, as a row.
fn put_fields(
    alloc: Global,
    text: &mut String,
    asking: &Asking<'_>,
    tick: u64,
    number: usize,
    line: Option<&Line>,
) -> Result<(), AllocError>
    ensures { OnOk result (string_bytes text.new ≡ string_bytes text.old
        ++ json_row asking.now (decimal tick) (decision_fields number (option_copied line.entry))) }
{
    let span = format!(in alloc; "{tick}")?;
    let decision = decision_fields(alloc, number, line)?;
    put_json(text, asking, span.as_str(), decision.as_str())
}

// Tells of a call from a tick on, at which the line of this number decides.
fn put_told(
    alloc: Global,
    text: &mut String,
    asking: &Asking<'_>,
    tick: u64,
    number: usize,
    line: Option<&Line>,
) -> Result<(), AllocError>
    ensures { OnOk result (string_bytes text.new ≡ string_bytes text.old ++ told asking.now tick number (option_copied line.entry)) }
{
    if asking.as_json {
        return put_fields(alloc, text, asking, tick, number, line);
    }
    let decision = decision_text(alloc, line)?;
    put_words(text, asking, tick, decision.as_str())
}

// Whether a line decided before.
fn is_again(last: Option<usize>, number: usize) -> bool
    ensures { result ≡ is_again last number }
{
    match last {
        Some(last) => last == number,
        None => false,
    }
}

// Tells of a call from a tick on, at which the line of this number decides, where another decided before.
fn put_change(
    alloc: Global,
    text: &mut String,
    list: &AccessList,
    asking: &Asking<'_>,
    last: Option<usize>,
    tick: u64,
    number: usize,
) -> Result<(), AllocError>
    ensures { OnOk result (string_bytes text.new ≡ string_bytes text.old ++ change list.now asking.now last tick number) }
{
    if is_again(last, number) {
        return Ok(());
    }
    put_told(alloc, text, asking, tick, number, list.line(number))
}

// The line that decides a call at a tick.
pub(crate) fn decided(list: &AccessList, asking: &Asking<'_>, tick: u64) -> usize
    ensures { result ≡ decided list.now asking.now tick }
{
    decide(
        list,
        asking.caller,
        asking.unit,
        asking.object,
        asking.operation,
        tick,
    )
    .1
}

// Puts the rows of a call behind a text: one for each of these ticks at which another line decides than before.
fn put_from(
    alloc: Global,
    text: &mut String,
    list: &AccessList,
    asking: &Asking<'_>,
    last: Option<usize>,
    ticks: &[u64],
) -> Result<(), AllocError>
    ensures { OnOk result (string_bytes text.new ≡ string_bytes text.old ++ grants_from list.now asking.now last ticks.now) }
{
    let [tick, ticks @ ..] = ticks else {
        return Ok(());
    };
    let number = decided(list, asking, *tick);
    put_change(alloc, text, list, asking, last, *tick, number)?;
    put_from(alloc, text, list, asking, Some(number), ticks)
}

/// Puts the rows of a call behind a text: from tick 0 on, and from each tick at which another line decides than before. Err where memory
/// was refused.
pub fn put_grants(
    alloc: Global,
    text: &mut String,
    list: &AccessList,
    asking: &Asking<'_>,
) -> Result<(), AllocError>
    ensures { OnOk result (string_bytes text.new ≡ string_bytes text.old ++ grants_text list.now asking.now) }
{
    let mut ticks = Vec::new(alloc);
    ticks.push(0)?;
    ticks.extend_from_slice(edges(alloc, list)?.as_slice())?;
    put_from(alloc, text, list, asking, None, ticks.as_slice())
}
