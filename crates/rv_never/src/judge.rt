//! The notes on what can never work.

ghost use Rattle.std.specs.Prelude.{◌≡◌, ◌↔◌, ◌++◌, true, None, IfOk, IsTrue, OnOk};
ghost use Rattle.std.specs.List.{Contains};
ghost use Rattle.rv_shape.specs.Catalogue.{handler, place};
ghost use Rattle.rv_shape.specs.Readers.{actor_task};
ghost use Rattle.rv_never.specs.Denied.{DeniesLine};
ghost use Rattle.rv_never.specs.Written.{AreSame};
ghost use Rattle.rv_never.specs.Nevers.{Adds, AreAll, DueBelow, DueBy, IsDenial, IsDenialOf, IsLineDenial, IsLineTooHigh, IsThis, IsTooHigh, IsTooHighOf, OfTask, OfTasks, OfUnit, calls_of, is_above, is_below_at, is_handler_low};

use crate::calls::{Called, TaskCalls, UnitCalls, add_all_new};
use crate::denied::{denies_line, denies_unit};
use crate::note::Never;
use rv_access::AccessList;
use rv_shape::catalogue::Catalogue;
use rv_shape::object::Object;
use std::alloc::{AllocError, Global};

// How many lines there are.
const LINES: u8 = 10;

// The priority of line 0; each further line has one more (C.3, own).
const FIRST_PRIORITY: usize = 31;

// Whether a note is among these.
fn is_among(notes: &[Never], note: Never) -> bool
    ensures among { result ≡ true → Contains notes.now note }
{
    for other in notes {
        if *other == note {
            return true;
        }
    }
    false
}

// Adds a note, where it holds. Err where memory was refused.
#[tactic(auto, using(crate::proofs::Adding::told, crate::proofs::Adding::untold))]
fn tell(notes: &mut Vec<Never>, holds: bool, note: Never) -> Result<(), AllocError>
    ensures { OnOk result (Adds (IsThis note (IsTrue holds)) notes.old.items notes.new.items) }
{
    if holds {
        notes.push(note)?;
    }
    Ok(())
}

// Adds a note, where it holds, unless it is there. Err where memory was refused.
#[tactic(auto, using(crate::proofs::Adding::there))]
fn tell_new(notes: &mut Vec<Never>, holds: bool, note: Never) -> Result<(), AllocError>
    ensures { OnOk result (Adds (IsThis note (IsTrue holds)) notes.old.items notes.new.items) }
{
    if is_among(notes.as_slice(), note) {
        return Ok(());
    }
    tell(notes, holds, note)
}

// Denials

// The note on a call that a unit's tasks make, where the list denies it. Err where memory was refused.
fn add_denial(
    notes: &mut Vec<Never>,
    catalogue: &Catalogue,
    list: &AccessList,
    clock: u64,
    unit: usize,
    called: Called,
) -> Result<(), AllocError>
    ensures { OnOk result (Adds (IsDenialOf catalogue.now list.now clock unit called) notes.old.items notes.new.items) }
{
    let Called { object, operation } = called;
    let denied = denies_unit(catalogue, list, clock, unit, object, operation);
    tell(notes, denied, Never::Denied(unit, object, operation))
}

// The same of calls, in order.
fn add_denials(
    notes: &mut Vec<Never>,
    catalogue: &Catalogue,
    list: &AccessList,
    clock: u64,
    unit: usize,
    calls: &[Called],
) -> Result<(), AllocError>
    ensures { OnOk result (Adds (DueBy (IsDenialOf catalogue.now list.now clock unit) calls.now) notes.old.items notes.new.items) }
{
    for called in calls {
        add_denial(notes, catalogue, list, clock, unit, *called)?;
    }
    Ok(())
}

// Adds what tasks call, each once. Err where memory was refused.
fn add_calls(calls: &mut Vec<Called>, tasks: &[TaskCalls]) -> Result<(), AllocError>
    ensures { OnOk result (AreSame calls.new.items (calls.old.items ++ calls_of tasks.now)) }
{
    for task in tasks {
        add_all_new(calls, task.calls.as_slice())?;
    }
    Ok(())
}

// The notes on the calls of a unit that the list denies it. Err where memory was refused.
fn add_unit_denials(
    alloc: Global,
    notes: &mut Vec<Never>,
    catalogue: &Catalogue,
    list: &AccessList,
    clock: u64,
    calls: &UnitCalls,
) -> Result<(), AllocError>
    ensures { OnOk result (Adds (OfUnit catalogue.now list.now clock calls.now) notes.old.items notes.new.items) }
{
    let mut all = Vec::new(alloc);
    add_calls(&mut all, calls.tasks.as_slice())?;
    add_denials(notes, catalogue, list, clock, calls.unit, all.as_slice())
}

// The same of units, in order.
fn add_call_denials(
    alloc: Global,
    notes: &mut Vec<Never>,
    catalogue: &Catalogue,
    list: &AccessList,
    clock: u64,
    units: &[UnitCalls],
) -> Result<(), AllocError>
    ensures { OnOk result (Adds (DueBy (OfUnit catalogue.now list.now clock) units.now)
        notes.old.items notes.new.items) }
{
    for calls in units {
        add_unit_denials(alloc, notes, catalogue, list, clock, calls)?;
    }
    Ok(())
}

// Whether a line has a handler now and had none before, and the list denies it.
fn is_new_denied(
    before: &Catalogue,
    catalogue: &Catalogue,
    list: &AccessList,
    clock: u64,
    line: u8,
) -> bool
    ensures { IsTrue result ↔ ((handler before.now line ≡ None) × DeniesLine catalogue.now list.now clock line) }
{
    match before.handler(usize::from(line)) {
        Some(_) => false,
        None => denies_line(catalogue, list, clock, line),
    }
}

// The note on a line, if it has a handler now and had none before, where the list denies it. Err where memory was refused.
fn add_line_denial(
    notes: &mut Vec<Never>,
    before: &Catalogue,
    catalogue: &Catalogue,
    list: &AccessList,
    clock: u64,
    line: u8,
) -> Result<(), AllocError>
    ensures { OnOk result (Adds (IsLineDenial before.now catalogue.now list.now clock line) notes.old.items notes.new.items) }
{
    let denied = is_new_denied(before, catalogue, list, clock, line);
    tell(notes, denied, Never::LineDenied(line))
}

// The same of all lines.
fn add_line_denials(
    notes: &mut Vec<Never>,
    before: &Catalogue,
    catalogue: &Catalogue,
    list: &AccessList,
    clock: u64,
) -> Result<(), AllocError>
    ensures { OnOk result (Adds (DueBelow (IsLineDenial before.now catalogue.now list.now clock) LINES) notes.old.items notes.new.items) }
{
    for line in 0..LINES {
        add_line_denial(notes, before, catalogue, list, clock, line)?;
    }
    Ok(())
}

/// The notes on what the list denies at each tick from the clock on: calls that tasks of these units make in their own bodies,
/// unit by unit, and handlers of lines, but of those alone that had none in the catalogue before. Err where memory was refused.
pub fn denial_notes(
    alloc: Global,
    before: &Catalogue,
    catalogue: &Catalogue,
    units: &[UnitCalls],
    list: &AccessList,
    clock: u64,
) -> Result<Vec<Never>, AllocError>
    ensures { IfOk result (λ notes. AreAll (IsDenial before.now catalogue.now units.now list.now clock) notes.items) }
{
    let mut notes = Vec::new(alloc);
    add_call_denials(alloc, &mut notes, catalogue, list, clock, units)?;
    add_line_denials(&mut notes, before, catalogue, list, clock)?;
    Ok(notes)
}

// Ceilings (D.3)

// Whether the ceiling of the object of a number is below a priority; a suspension object has none.
fn is_below_at(catalogue: &Catalogue, priority: usize, object: usize) -> bool
    ensures { result ≡ is_below_at priority (place catalogue.now object) }
{
    match catalogue.object(object) {
        Some((_, Object::Protected(protected))) => protected.ceiling() < priority,
        _ => false,
    }
}

// Whether the base priority of a task is above the ceiling of an object.
fn is_above(catalogue: &Catalogue, actor: usize, object: usize) -> bool
    ensures { result ≡ is_above (actor_task catalogue.now actor) (place catalogue.now object) }
{
    match catalogue.task(actor) {
        Some((_, task)) => is_below_at(catalogue, task.priority(), object),
        None => false,
    }
}

// Whether the priority of a line is above the ceiling of its handler's object.
pub(crate) fn is_handler_low(catalogue: &Catalogue, line: u8) -> bool
    ensures { result ≡ is_handler_low catalogue.now line (handler catalogue.now line) }
{
    match catalogue.handler(usize::from(line)) {
        Some((object, _)) => is_below_at(catalogue, FIRST_PRIORITY + usize::from(line), object),
        None => false,
    }
}

// The note on a call of a task, where its priority is above the object's ceiling. Err where memory was refused.
fn add_too_high(
    notes: &mut Vec<Never>,
    catalogue: &Catalogue,
    actor: usize,
    called: Called,
) -> Result<(), AllocError>
    ensures { OnOk result (Adds (IsTooHighOf catalogue.now actor called) notes.old.items notes.new.items) }
{
    let object = called.object;
    let above = is_above(catalogue, actor, object);
    tell_new(notes, above, Never::Above(actor, object))
}

// The same of calls, in order.
fn add_calls_too_high(
    notes: &mut Vec<Never>,
    catalogue: &Catalogue,
    actor: usize,
    calls: &[Called],
) -> Result<(), AllocError>
    ensures { OnOk result (Adds (DueBy (IsTooHighOf catalogue.now actor) calls.now) notes.old.items notes.new.items) }
{
    for called in calls {
        add_too_high(notes, catalogue, actor, *called)?;
    }
    Ok(())
}

// The same of tasks, in order.
fn add_tasks_too_high(
    notes: &mut Vec<Never>,
    catalogue: &Catalogue,
    tasks: &[TaskCalls],
) -> Result<(), AllocError>
    ensures { OnOk result (Adds (DueBy (OfTask catalogue.now) tasks.now) notes.old.items notes.new.items) }
{
    for task in tasks {
        add_calls_too_high(notes, catalogue, task.actor, task.calls.as_slice())?;
    }
    Ok(())
}

// The same of units, in order.
fn add_units_too_high(
    notes: &mut Vec<Never>,
    catalogue: &Catalogue,
    units: &[UnitCalls],
) -> Result<(), AllocError>
    ensures { OnOk result (Adds (DueBy (OfTasks catalogue.now) units.now)
        notes.old.items notes.new.items) }
{
    for calls in units {
        add_tasks_too_high(notes, catalogue, calls.tasks.as_slice())?;
    }
    Ok(())
}

// Whether a line has a handler now and had none before, and its priority is above the ceiling.
fn is_new_too_high(before: &Catalogue, catalogue: &Catalogue, line: u8) -> bool
    ensures { IsTrue result ↔ ((handler before.now line ≡ None) × (is_handler_low catalogue.now line (handler catalogue.now line) ≡ true)) }
{
    match before.handler(usize::from(line)) {
        Some(_) => false,
        None => is_handler_low(catalogue, line),
    }
}

// The note on a line, if it has a handler now and had none before, where its priority is above the ceiling. Err where memory was
// refused.
fn add_line_too_high(
    notes: &mut Vec<Never>,
    before: &Catalogue,
    catalogue: &Catalogue,
    line: u8,
) -> Result<(), AllocError>
    ensures { OnOk result (Adds (IsLineTooHigh before.now catalogue.now line) notes.old.items notes.new.items) }
{
    let low = is_new_too_high(before, catalogue, line);
    tell(notes, low, Never::LineAbove(line))
}

// The same of all lines.
fn add_lines_too_high(
    notes: &mut Vec<Never>,
    before: &Catalogue,
    catalogue: &Catalogue,
) -> Result<(), AllocError>
    ensures { OnOk result (Adds (DueBelow (IsLineTooHigh before.now catalogue.now) LINES) notes.old.items notes.new.items) }
{
    for line in 0..LINES {
        add_line_too_high(notes, before, catalogue, line)?;
    }
    Ok(())
}

/// The notes on calls that ceilings forbid: of tasks of these units, by what they call in their own bodies, and of lines, but of
/// those alone that had no handler in the catalogue before (D.3). Err where memory was refused.
pub fn ceiling_notes(
    alloc: Global,
    before: &Catalogue,
    catalogue: &Catalogue,
    units: &[UnitCalls],
) -> Result<Vec<Never>, AllocError>
    ensures { IfOk result (λ notes. AreAll (IsTooHigh before.now catalogue.now units.now) notes.items) }
{
    let mut notes = Vec::new(alloc);
    add_units_too_high(&mut notes, catalogue, units)?;
    add_lines_too_high(&mut notes, before, catalogue)?;
    Ok(notes)
}
