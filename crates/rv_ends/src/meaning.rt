//! What the text of a body means on what was recorded of it.

ghost use Rattle.std.specs.Prelude.{◌≡◌, [], false, true, Some, option_map, IfOk, IfSome, IsNone};
ghost use Rattle.rv_exec.specs.Asking.{Along, Trace};
ghost use Rattle.rv_exec.specs.Blocks.{operation_run_at};
ghost use Rattle.rv_exec.specs.Bodies.{operation_of};
ghost use Rattle.rv_flat.specs.FlatUnits.{flat_view};
ghost use Rattle.rv_ends.specs.Afoot.{open_view};
ghost use Rattle.rv_ends.specs.Courses.{IsCourse, IsWeighed};
ghost use Rattle.rv_ends.specs.Following.{Plays, place_of};
ghost use Rattle.rv_ends.specs.Explained.{HasNoText, calls_without_text, is_without_text};

use crate::afoot::{OpenBody, Start};
use crate::following::{Following, is_same, is_stopped_end};
use rv_event::entry::{Answer, Request};
use rv_exec::asks::end_with;
use rv_exec::end::Ended;
use rv_flat::unit::FlatUnit;
use rv_machine::outcomes::operation;
use rv_runs::run::run_body;
use rv_runs::spare::Spare;
use rv_runs::tabled::Table;
use rv_shape::catalogue::Catalogue;
use std::alloc::AllocError;

/// What the text of a body means where an end of the body was recorded.
#[derive(Clone, Copy, Drop)]
pub enum Meaning {
    /// That end.
    Explained,
    /// The body has no text, or a body that it called has none.
    WithoutText,
    /// The end by this request.
    Gives(Request),
    /// It asks this request, of which there is no entry.
    Asks(Request),
}

/// What a body comes to on what was recorded of it.
#[derive(Clone, Copy, Drop)]
pub enum Course {
    /// It ends as was recorded.
    Explained,
    /// It has no text, or a body that it called has none.
    WithoutText,
    /// It ends by this request.
    Gives(Request),
    /// It ends as was recorded, where this ask, of which there is no entry, stopped it.
    Stops(Request),
    /// It asks this request, of which there is no entry.
    Asks(Request),
}

// Whether an ask started a body that has no text.
fn is_without_text(unit: &FlatUnit, request: &Request, answer: &Answer) -> bool
    ensures { result ≡ is_without_text (flat_view unit.now) request.now answer.now }
{
    match (request, answer) {
        (Request::Call(object, number, _), Answer::Started(_)) => {
            operation(unit, *object, *number).is_none()
        }
        _ => false,
    }
}

// Whether a body called one that has no text.
#[tactic(auto, using(crate::proofs::Heard::text_passed, crate::proofs::Heard::text_found))]
fn calls_without_text(unit: &FlatUnit, asked: &[(Request, Answer)]) -> bool
    ensures { result ≡ calls_without_text (flat_view unit.now) asked.now }
{
    for pair in asked {
        if is_without_text(unit, &pair.0, &pair.1) {
            return true;
        }
    }
    false
}

// Whether all that was recorded was asked, and this end is the one that was recorded.
fn is_as_recorded(following: &Following<'_>, given: &Request, end: &Request) -> bool
    ensures asked { result ≡ true → following.now.asked.now ≡ [] }
    ensures same { result ≡ true → given.now ≡ end.now }
    ensures other { result ≡ false → following.now.asked.now ≡ [] → given.now ≡ end.now → ⊥ }
{
    if following.asked.len() > 0 {
        return false;
    }
    is_same(given, end)
}

// What is found at the end of a run, which gave this, where another end may have been recorded.
fn weighed(following: &Following<'_>, given: Request, end: &Request) -> Course
    ensures { IsWeighed (place_of following.now) given end.now result }
{
    let is_recorded = is_as_recorded(following, &given, end);
    let Some(other) = following.other else {
        if is_recorded && !is_stopped_end(end) {
            return Course::Explained;
        }
        return Course::Gives(given);
    };
    if is_recorded && !following.is_broken {
        return Course::Stops(other);
    }
    Course::Asks(other)
}

// Runs a body again on what was recorded of it. Err where memory was refused.
fn run_again(
    spare: &mut Spare,
    table: &Table,
    start: &Start,
    following: &mut Following<'_>,
) -> Result<Ended, AllocError>
    ensures { IfOk result (λ end. (trace : Trace) × Along (operation_run_at (flat_view table.now.unit) start.now.held start.now.object start.now.operation start.now.values start.now.components) trace (end.exit, end.scalars) × Plays (place_of following.old) trace (place_of following.new)) }
{
    let stack = spare.taken(table)?;
    let (ended, stack) = run_body(
        &(),
        table,
        stack,
        start.held,
        start.object,
        start.operation,
        start.components,
        start.values,
        following,
    );
    spare.put_back(stack);
    Ok(ended)
}

// What a body comes to by its text, where none that it called lacks one. Err where memory was refused.
#[tactic(auto, using(crate::proofs::Courses::course_is))]
fn run(
    spare: &mut Spare,
    table: &Table,
    catalogue: &Catalogue,
    body: &OpenBody,
    is_function: bool,
    end: &Request,
) -> Result<Course, AllocError>
    requires texts { calls_without_text (flat_view table.now.unit) body.now.asked.items ≡ false }
    requires code { option_map (λ b. b.is_function) (operation_of (flat_view table.now.unit) body.now.start.object body.now.start.operation) ≡ Some is_function }
    ensures { IfOk result (λ course. IsCourse (flat_view table.now.unit) catalogue.now (open_view body.now) end.now course) }
{
    let mut following = Following {
        catalogue,
        asked: body.asked.as_slice(),
        held: body.start.held,
        other: None,
        is_broken: false,
    };
    let ended = run_again(spare, table, &body.start, &mut following)?;
    Ok(weighed(
        &following,
        end_with(is_function, ended.exit, ended.scalars),
        end,
    ))
}

// Whether the body is a function's, or `None` where it has no text, or a body that it called has none.
fn is_function_with_text(unit: &FlatUnit, body: &OpenBody) -> Option<bool>
    ensures some { IfSome result (λ is_function. option_map (λ b. b.is_function) (operation_of (flat_view unit.now) body.now.start.object body.now.start.operation) ≡ Some is_function) }
    ensures texts { IfSome result (λ is_function. calls_without_text (flat_view unit.now) body.now.asked.items ≡ false) }
    ensures none { IsNone result → HasNoText (flat_view unit.now) (open_view body.now) }
{
    let Some(code) = operation(unit, body.start.object, body.start.operation) else {
        return None;
    };
    if calls_without_text(unit, body.asked.as_slice()) {
        return None;
    }
    Some(code.is_function)
}

/// What a body comes to, by its text in a table and what was recorded of it, where this end was recorded. Err where memory was
/// refused.
pub fn course_of(
    spare: &mut Spare,
    table: &Table,
    catalogue: &Catalogue,
    body: &OpenBody,
    end: &Request,
) -> Result<Course, AllocError>
    ensures { IfOk result (λ course. IsCourse (flat_view table.now.unit) catalogue.now (open_view body.now) end.now course) }
{
    match is_function_with_text(&table.unit, body) {
        Some(is_function) => run(spare, table, catalogue, body, is_function, end),
        None => Ok(Course::WithoutText),
    }
}
