//! Names with points whose last part can't stand where it does: an object where a variable is wanted, a part that others don't see, a
//! constant of a library package.

use rv_cause::around::Around;
use rv_cause::cause::Cause;
use rv_cause::declared::{Declared, is_a};
use rv_cause::known::{Group, Known};
use rv_cause::words::Words;
use rv_judged::judged::Judged;
use rv_text::is_same_name;

const ASSIGNED: &str = "; what is assigned is a variable or a component (5.2)";

const HIDDEN: &str = "{0} stands behind private in {1}, and is seen in its bodies only (9.4)";

// The object that a name of two parts denotes, behind its package.
fn object_of<'k, 'a>(words: &Words<'_, 'a>, known: &'k Known<'a>) -> Option<&'k Declared<'a>> {
    if words.last_part() < 2 || !known.has_unit(words.word(0)) {
        return None;
    }
    known.find(Group::Package(words.word(0)), words.word(2))
}

// That an object of a package is assigned to.
fn assigned<'a>(words: &Words<'_, 'a>, known: &Known<'a>) -> Option<Cause<'a>> {
    let item = object_of(words, known)?;
    if words.last_part() == 2 && words.is(3, ":=") {
        Some(is_a(words.place(2), item, ASSIGNED))
    } else {
        None
    }
}

// That a component of another unit's object is named.
fn hidden<'a>(words: &Words<'_, 'a>, around: &Around<'a>, known: &Known<'a>) -> Option<Cause<'a>> {
    let item = object_of(words, known)?;
    if words.last_part() != 4 || is_same_name(item.unit, around.unit) {
        return None;
    }
    let members = Group::Members(item.unit, item.operations_home());
    let part = known.find(members, words.word(4))?;
    if part.is_hidden {
        Some(part.cause(words.place(4), HIDDEN))
    } else {
        None
    }
}

/// Why a name with points denotes nothing, where what it names is there.
pub(crate) fn unknown<'a>(
    words: &Words<'_, 'a>,
    around: &Around<'a>,
    known: &Known<'a>,
) -> Option<Cause<'a>> {
    match assigned(words, known) {
        Some(cause) => Some(cause),
        None => hidden(words, around, known),
    }
}

/// That a constant of a library package is written, if the name is one with points that nothing of the script declares.
pub(crate) fn constant_written<'a>(
    words: &Words<'_, 'a>,
    judged: &Judged<'_, '_, '_, 'a>,
) -> Option<Cause<'a>> {
    let last = words.last_part();
    if last == 0 || judged.denoted(words).is_some() {
        return None;
    }
    Some(words.cause(last, "{0} is a constant, which isn't written (3.3)"))
}
