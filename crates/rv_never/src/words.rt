//! What notes say, for people.

ghost use Rattle.std.specs.Prelude.{◌≡◌, IfOk, codes, string_bytes};
ghost use Rattle.std.specs.Option.{unwrap_or};
ghost use Rattle.rv_text.specs.Names.{dotted};
ghost use Rattle.rv_shape.specs.Catalogue.{ceiling_at, handler, place};
ghost use Rattle.rv_shape.specs.Readers.{actor_task, target_of, unit_named};
ghost use Rattle.rv_never.specs.Telling as says;

use crate::denied::{INTERRUPTS, suspension_name, unit_name};
use crate::note::Never;
use rv_access::{AccessList, decide};
use rv_shape::actor::Callee;
use rv_shape::catalogue::Catalogue;
use rv_shape::object::Object;
use std::alloc::{AllocError, Global};

// The priority of line 0; each further line has one more (C.3, own).
const FIRST_PRIORITY: usize = 31;

// An operation of an object of a unit, as `Unit.Object.Operation`. Err where memory was refused.
fn operation_text(
    alloc: Global,
    unit: &str,
    object: &str,
    operation: &str,
) -> Result<String, AllocError>
    ensures { IfOk result (λ text. string_bytes text ≡ dotted (dotted unit.now object.now) operation.now) }
{
    let object = format!(in alloc; "{unit}.{object}")?;
    let object = object.as_str();
    format!(in alloc; "{object}.{operation}")
}

// What a call is a call of, as `Unit.Object.Operation`. Err where memory was refused.
fn call_text(alloc: Global, callee: &Callee<'_>) -> Result<String, AllocError>
    ensures { IfOk result (λ text. string_bytes text ≡ says.call_text (target_of callee.now)) }
{
    match *callee {
        Callee::Nowhere => String::from_str(alloc, "?"),
        Callee::Protected(shape, object, operation) => {
            operation_text(alloc, shape.name(), object.name(), operation.name())
        }
        Callee::Suspension(shape, object, operation) => {
            operation_text(
                alloc,
                shape.name(),
                object.name(),
                suspension_name(operation),
            )
        }
    }
}

// The number of the line of the list that decides a call at a tick, 0 if none does.
fn deciding(list: &AccessList, clock: u64, name: &str, callee: &Callee<'_>) -> usize
    ensures { result ≡ says.deciding list.now clock name.now (target_of callee.now) }
{
    match *callee {
        Callee::Nowhere => 0,
        Callee::Protected(shape, object, operation) => {
            decide(
                list,
                name,
                shape.name(),
                object.name(),
                operation.name(),
                clock,
            )
            .1
        }
        Callee::Suspension(shape, object, operation) => {
            decide(
                list,
                name,
                shape.name(),
                object.name(),
                suspension_name(operation),
                clock,
            )
            .1
        }
    }
}

// Why a call is denied, by the number of the line of the list that decides it. Err where memory was refused.
fn denial(alloc: Global, list: &AccessList, number: usize) -> Result<String, AllocError>
    ensures { IfOk result (λ text. string_bytes text ≡ says.denial list.now number) }
{
    let Some(line) = list.line(number) else {
        return String::from_str(alloc, "which no line grants");
    };
    let line = line.text(alloc)?;
    let line = line.as_str();
    format!(in alloc; "which list line {number} denies: {line}")
}

// The name of the unit of a number, from 1; `?` where there is none.
fn name_of(catalogue: &Catalogue, unit: usize) -> &str
    ensures { result.now ≡ unwrap_or (unit_named catalogue.now unit) (codes "?") }
{
    match unit_name(catalogue, unit) {
        Some(name) => name,
        None => "?",
    }
}

// That somebody of this name is denied a call. Err where memory was refused.
fn denied_words(
    alloc: Global,
    list: &AccessList,
    clock: u64,
    name: &str,
    callee: &Callee<'_>,
) -> Result<String, AllocError>
    ensures { IfOk result (λ text. string_bytes text ≡ says.denied_words list.now clock name.now (target_of callee.now)) }
{
    let call = call_text(alloc, callee)?;
    let call = call.as_str();
    let why = denial(alloc, list, deciding(list, clock, name, callee))?;
    let why = why.as_str();
    format!(in alloc; "{name} calls {call}, {why}")
}

// What the handler of a line is; nothing where it has none.
fn handler_callee<'a>(catalogue: &'a Catalogue, line: u8) -> Callee<'a>
    ensures { target_of result ≡ says.handler_target catalogue.now (handler catalogue.now line) }
{
    match catalogue.handler(usize::from(line)) {
        Some((object, operation)) => catalogue.callee(object, operation),
        None => catalogue.callee(0, 0),
    }
}

// The name of a line, `Int_0` .. `Int_9`. Err where memory was refused.
fn line_name(alloc: Global, line: u8) -> Result<String, AllocError>
    ensures { IfOk result (λ text. string_bytes text ≡ says.line_name line) }
{
    format!(in alloc; "Int_{line}")
}

// That a line makes a call. Err where memory was refused.
fn line_call_words(alloc: Global, line: u8, callee: &Callee<'_>) -> Result<String, AllocError>
    ensures { IfOk result (λ text. string_bytes text ≡ says.line_call_words line (target_of callee.now)) }
{
    let name = line_name(alloc, line)?;
    let name = name.as_str();
    let call = call_text(alloc, callee)?;
    let call = call.as_str();
    format!(in alloc; "{name} calls {call} as Interrupts")
}

// That a line is denied a call. Err where memory was refused.
fn line_words(
    alloc: Global,
    list: &AccessList,
    clock: u64,
    line: u8,
    callee: &Callee<'_>,
) -> Result<String, AllocError>
    ensures { IfOk result (λ text. string_bytes text ≡ says.line_words list.now clock line (target_of callee.now)) }
{
    let call = line_call_words(alloc, line, callee)?;
    let call = call.as_str();
    let why = denial(alloc, list, deciding(list, clock, INTERRUPTS, callee))?;
    let why = why.as_str();
    format!(in alloc; "{call}, {why}")
}

/// That a line is denied a call of its handler. Err where memory was refused.
pub(crate) fn line_denied_words(
    alloc: Global,
    catalogue: &Catalogue,
    list: &AccessList,
    clock: u64,
    line: u8,
) -> Result<String, AllocError>
    ensures { IfOk result (λ text. string_bytes text ≡ says.line_denied_words catalogue.now list.now clock line) }
{
    let callee = handler_callee(catalogue, line);
    line_words(alloc, list, clock, line, &callee)
}

// An object, as `Unit.Object`. Err where memory was refused.
fn object_text(alloc: Global, catalogue: &Catalogue, number: usize) -> Result<String, AllocError>
    ensures { IfOk result (λ text. string_bytes text ≡ says.object_text (place catalogue.now number)) }
{
    match catalogue.object(number) {
        Some((shape, object)) => {
            let unit = shape.name();
            let name = object.name();
            format!(in alloc; "{unit}.{name}")
        }
        None => String::from_str(alloc, "?"),
    }
}

// The ceiling of an object; 0 of one that has none.
fn ceiling_of(catalogue: &Catalogue, number: usize) -> usize
    ensures { result ≡ ceiling_at (place catalogue.now number) }
{
    match catalogue.object(number) {
        Some((_, Object::Protected(protected))) => protected.ceiling(),
        _ => 0,
    }
}

// The priority of somebody of this name. Err where memory was refused.
fn priority_words(alloc: Global, name: &str, priority: usize) -> Result<String, AllocError>
    ensures { IfOk result (λ text. string_bytes text ≡ says.priority_words name.now priority) }
{
    format!(in alloc; "{name} has priority {priority}")
}

// What comes of a ceiling that is too low. Err where memory was refused.
fn ceiling_words(alloc: Global, ceiling: usize) -> Result<String, AllocError>
    ensures { IfOk result (λ text. string_bytes text ≡ says.ceiling_words ceiling) }
{
    format!(in alloc; "whose ceiling is {ceiling}: each such call is refused (D.3)")
}

// That the priority of an actor of this name is above the ceiling of an object. Err where memory was refused.
fn above_words(
    alloc: Global,
    catalogue: &Catalogue,
    name: &str,
    priority: usize,
    object: usize,
) -> Result<String, AllocError>
    ensures { IfOk result (λ text. string_bytes text ≡ says.above_words name.now priority (place catalogue.now object)) }
{
    let who = priority_words(alloc, name, priority)?;
    let who = who.as_str();
    let why = ceiling_words(alloc, ceiling_of(catalogue, object))?;
    let why = why.as_str();
    let object = object_text(alloc, catalogue, object)?;
    let object = object.as_str();
    format!(in alloc; "{who} and calls {object}, {why}")
}

// The number of the object of a line's handler; 0 where it has none.
fn handler_object(catalogue: &Catalogue, line: u8) -> usize
    ensures { result ≡ says.handler_object (handler catalogue.now line) }
{
    match catalogue.handler(usize::from(line)) {
        Some((object, _)) => object,
        None => 0,
    }
}

/// That the priority of a line is above the ceiling of its handler's object. Err where memory was refused.
pub(crate) fn line_above_words(
    alloc: Global,
    catalogue: &Catalogue,
    line: u8,
) -> Result<String, AllocError>
    ensures { IfOk result (λ text. string_bytes text ≡ says.line_above_words catalogue.now line) }
{
    let name = line_name(alloc, line)?;
    above_words(
        alloc,
        catalogue,
        name.as_str(),
        FIRST_PRIORITY + usize::from(line),
        handler_object(catalogue, line),
    )
}

// The base priority of a task (D.1); 0 of an actor that is none.
fn priority_of(catalogue: &Catalogue, actor: usize) -> usize
    ensures { result ≡ says.priority_of (actor_task catalogue.now actor) }
{
    match catalogue.task(actor) {
        Some((_, task)) => task.priority(),
        None => 0,
    }
}

// That the priority of a task is above the ceiling of an object. Err where memory was refused.
fn task_above_words(
    alloc: Global,
    catalogue: &Catalogue,
    actor: usize,
    object: usize,
) -> Result<String, AllocError>
    ensures { IfOk result (λ text. string_bytes text ≡ says.task_above_words catalogue.now actor object) }
{
    let who = catalogue.who(actor);
    let name = format!(in alloc; "{who}")?;
    above_words(
        alloc,
        catalogue,
        name.as_str(),
        priority_of(catalogue, actor),
        object,
    )
}

/// What a note says, behind `warning: `. Err where memory was refused.
pub(crate) fn words_of(
    alloc: Global,
    catalogue: &Catalogue,
    list: &AccessList,
    clock: u64,
    note: Never,
) -> Result<String, AllocError>
    ensures { IfOk result (λ text. string_bytes text ≡ says.words_of catalogue.now list.now clock note) }
{
    match note {
        Never::Denied(unit, object, operation) => denied_words(
            alloc,
            list,
            clock,
            name_of(catalogue, unit),
            &catalogue.callee(object, operation),
        ),
        Never::Above(actor, object) => task_above_words(alloc, catalogue, actor, object),
        Never::LineDenied(line) => line_denied_words(alloc, catalogue, list, clock, line),
        Never::LineAbove(line) => line_above_words(alloc, catalogue, line),
    }
}

/// A line that tells words. Err where memory was refused.
pub(crate) fn warning(alloc: Global, words: &str) -> Result<String, AllocError>
    ensures { IfOk result (λ text. string_bytes text ≡ says.warning words.now) }
{
    format!(in alloc; "warning: {words}\n")
}
