//! The actors of lines.

use crate::reason::Reason;
use rv_event::reading::words::interrupt_of;
use rv_shape::actor::Actor;
use rv_shape::catalogue::Catalogue;
use rv_text::dotted_parts;

const NO_ACTOR: &str = "{0} is no actor: those are operator, Int_0 .. Int_9 and Unit.Task";

const NO_TASK: &str = "{0} has no task {1}";

const SPELT: &str = "{0} was declared as {1}.{2}";

const NO_LINE: &str = "{0} is no line: those are Int_0 .. Int_9, in these letters";

/// Why no unit of a name is loaded, if there is none.
pub(crate) fn of_unit<'a>(loaded: &Catalogue, unit: &'a str) -> Option<Reason<'a>> {
    match loaded.find_unit(unit) {
        Some(_) => None,
        None => Some(Reason::NotLoaded(unit)),
    }
}

/// Why a name of two parts isn't written as it was declared, letter for letter, if it isn't.
pub(crate) fn of_spelling<'a>(word: &'a str, unit: &'a str, name: &'a str) -> Option<Reason<'a>> {
    match word.split_once('.') {
        Some((front, behind)) if front == unit && behind == name => None,
        _ => Some(Reason::Said(SPELT, word, unit, name)),
    }
}

// Why the task of an actor isn't written as it was declared, if it isn't.
fn of_declared<'a>(loaded: &'a Catalogue, word: &'a str, actor: usize) -> Option<Reason<'a>> {
    match loaded.who(actor) {
        Actor::Task(shape, task) => of_spelling(word, shape.name(), task.name()),
        _ => None,
    }
}

// Why a name of two parts is no task's, if it is none.
fn of_task<'a>(
    loaded: &'a Catalogue,
    word: &'a str,
    unit: &'a str,
    task: &'a str,
) -> Option<Reason<'a>> {
    if let Some(reason) = of_unit(loaded, unit) {
        return Some(reason);
    }
    match loaded.find_task(word) {
        Some(actor) => of_declared(loaded, word, actor),
        None => Some(Reason::pair(NO_TASK, unit, task)),
    }
}

// Why a word without a dot is no actor, if it is none.
fn of_simple<'a>(word: &'a str) -> Option<Reason<'a>> {
    if word == "operator" {
        return None;
    }
    match interrupt_of(word) {
        Some(_) if word.starts_with("Int_") => None,
        Some(_) => Some(Reason::of(NO_LINE, word)),
        None => Some(Reason::of(NO_ACTOR, word)),
    }
}

/// Why a word is no actor, if it is none.
pub(crate) fn of_actor<'a>(loaded: &'a Catalogue, word: &'a str) -> Option<Reason<'a>> {
    match dotted_parts(word) {
        Some((unit, task)) => of_task(loaded, word, unit, task),
        None => of_simple(word),
    }
}
