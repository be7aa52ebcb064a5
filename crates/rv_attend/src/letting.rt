//! Which units the loads of a run may bring: where what is kept of its journal doesn't fit with a unit more, that isn't let in.

ghost use Rattle.std.specs.Prelude.{◌≡◌, ◌≤◌, ◌||◌, is_some, length};
ghost use Rattle.std.specs.List.{list_any};
ghost use Rattle.rv_attend.specs.Going.{terms};
ghost use Rattle.rv_attend.specs.Least.{count_below};
ghost use Rattle.rv_attend.specs.Letting.{books_by, depth_with, fit_with, handle, is_enough_with, is_let_in, least_with, lines_with, protected_in, tasks_in};
ghost use Rattle.rv_shape.specs.Catalogue.{handler, operations_of};
ghost use Rattle.rv_shape.specs.Kinds as kinds;

use crate::attention::Attention;
use crate::least::{DEEPEST, LINES, owed_of, protected};
use rv_room::Books;
use rv_shape::catalogue::{Catalogue, MOST_TASKS};
use rv_shape::kind::Kind;
use rv_shape::object::{Object, Operation};
use rv_shape::shape::UnitShape;

/// How many tasks a unit has.
pub(crate) fn tasks_in(shape: &UnitShape) -> usize
    ensures count { result ≡ tasks_in shape.now }
    ensures few { result ≤ 64 }
{
    shape.tasks().len().min(MOST_TASKS)
}

// How many of these objects are protected ones.
fn protected_in(objects: &[Object]) -> usize
    ensures count { result ≡ protected_in objects.now }
    ensures few { result ≤ length objects.now }
{
    let [object, others @ ..] = objects else {
        return 0;
    };
    let count = protected_in(others);
    match object {
        Object::Protected(_) => count + 1,
        Object::Suspension(_) => count,
    }
}

// How deep bodies call at most with a unit more.
fn depth_with(catalogue: &Catalogue, shape: &UnitShape) -> usize
    ensures depth { result ≡ depth_with catalogue.now shape.now }
    ensures few { result ≤ 16 }
{
    let theirs = protected(catalogue).min(DEEPEST);
    let its = protected_in(shape.objects()).min(DEEPEST);
    (theirs + its).min(DEEPEST)
}

// Whether an operation is the handler of a line (C.3.1).
fn handles(kind: Kind, line: usize) -> bool
    ensures { result ≡ kinds.handles line kind }
{
    match kind {
        Kind::Handler(on) => on == line,
        _ => false,
    }
}

// Whether one of these operations is.
fn have_handler(operations: &[Operation], line: usize) -> bool
    ensures { result ≡ list_any (λ operation. kinds.handles line operation.kind) operations.now }
{
    let [operation, others @ ..] = operations else {
        return false;
    };
    handles(operation.kind(), line) || have_handler(others, line)
}

// Whether one of these objects has it.
fn handle(objects: &[Object], line: usize) -> bool
    ensures { result ≡ handle objects.now line }
{
    let [object, others @ ..] = objects else {
        return false;
    };
    have_handler(object.operations(), line) || handle(others, line)
}

// How many of the first so many lines have a handler with a unit more.
fn count_lines(catalogue: &Catalogue, shape: &UnitShape, below: usize) -> usize
    ensures count { result ≡ count_below (λ line. is_some (handler catalogue.now line) || handle shape.now.objects line) below }
    ensures few { result ≤ below }
{
    if below == 0 {
        return 0;
    }
    let others = count_lines(catalogue, shape, below - 1);
    if catalogue.handler(below - 1).is_some() || handle(shape.objects(), below - 1) {
        others + 1
    } else {
        others
    }
}

/// The least capacity of a run that lasts, with a unit more.
pub(crate) fn least_with(catalogue: &Catalogue, shape: &UnitShape) -> usize
    ensures { result ≡ least_with catalogue.now shape.now }
{
    let tasks = catalogue.tasks() + tasks_in(shape);
    let depth = depth_with(catalogue, shape);
    let lines = count_lines(catalogue, shape, LINES);
    owed_of(tasks, depth, lines) + 2
}

// Whether the capacity is enough with a unit more, where the run lasts.
fn is_enough_with(
    asked: &Attention,
    capacity: usize,
    catalogue: &Catalogue,
    shape: &UnitShape,
) -> bool
    ensures { result ≡ is_enough_with (terms asked.now capacity) catalogue.now shape.now }
{
    if asked.lasting {
        least_with(catalogue, shape) <= capacity
    } else {
        true
    }
}

// The books of a run that keeps entries for its operator, with what was counted of the operator so far.
fn books_by(asked: &Attention, counted: Books) -> Option<Books>
    ensures { result ≡ books_by asked.now.quota asked.now.operator_room counted }
{
    match (asked.quota, asked.operator_room) {
        (Some(quota), Some(kept)) => Some(Books {
            quota,
            kept,
            ..counted
        }),
        _ => None,
    }
}

// Whether a journal of a capacity holds what books need with a unit more, where there are books.
fn fit_with(
    books: &Option<Books>,
    capacity: usize,
    catalogue: &Catalogue,
    shape: &UnitShape,
) -> bool
    ensures { result ≡ fit_with books.now capacity catalogue.now shape.now }
{
    match books {
        Some(books) => books.needs_with(catalogue, tasks_in(shape)) <= capacity as u64,
        None => true,
    }
}

/// Whether a unit that a load brings is let in, behind what was counted of the operator so far.
pub(crate) fn lets_in(
    asked: &Attention,
    counted: Books,
    capacity: usize,
    catalogue: &Catalogue,
    shape: &UnitShape,
) -> bool
    ensures { result ≡ is_let_in (terms asked.now capacity) counted catalogue.now shape.now }
{
    is_enough_with(asked, capacity, catalogue, shape)
        && fit_with(&books_by(asked, counted), capacity, catalogue, shape)
}
