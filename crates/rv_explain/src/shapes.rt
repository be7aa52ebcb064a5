//! What stands against the text of a shape.

use crate::line::{Line, said_of};
use rv_cause::cause::Cause;
use rv_cause::forms::{Form, is_listed};
use rv_cause::known::Known;
use rv_misread::{ShapeReason, shape_reason};
use rv_text::is_same_name;
use std::alloc::{AllocError, Global};

const PARTS: [&str; 5] = ["scalar", "function", "procedure", "entry", "handler"];

const RESERVED: [&str; 5] = ["Ada", "System", "Standard", "Host", "Interrupts"];

const BARRIER: &str = "a barrier is open, closed, or the number of a scalar of range 0 .. 1";

const HANDLED: &str = "a line of a handler is one of 0 .. 9";

const OUTSIDE: &str = "{0} stands directly below a protected object only";

const FIRST: &str = "the first line of a shape is unit and its name";

// What a line is, by its first word.
const FORMS: [Form; 8] = [
    Form {
        word: "task",
        said: "task NAME PRIORITY",
    },
    Form {
        word: "suspension",
        said: "suspension NAME",
    },
    Form {
        word: "protected",
        said: "protected NAME CEILING",
    },
    Form {
        word: "scalar",
        said: "scalar LOW HIGH START",
    },
    Form {
        word: "function",
        said: "function NAME LOW HIGH {in LOW HIGH}",
    },
    Form {
        word: "procedure",
        said: "procedure NAME {MODE LOW HIGH}, a mode in, out or inout",
    },
    Form {
        word: "entry",
        said: "entry NAME BARRIER {MODE LOW HIGH}, a mode in, out or inout",
    },
    Form {
        word: "handler",
        said: "handler NAME K, K in 0 .. 9",
    },
];

// Whether a line is a part of a protected object.
fn is_part(line: &Line<'_>) -> bool {
    is_listed(&PARTS, line.word(0))
}

// What is said of a line that is none of a shape's.
fn no_form<'a>(line: &Line<'a>) -> Cause<'a> {
    if line.count() == 0 || line.word(0).starts_with("#") {
        return line.cause(0, "a shape has no blank lines, and no comments");
    }
    match said_of(&FORMS, line.word(0)) {
        Some(form) => Cause::of(line.at(0), "this line has to be: {0}", form),
        None => line.cause(0, "{0} begins no line of a shape"),
    }
}

// What is said of a first line that isn't that of a unit.
fn no_unit<'a>(lines: &[Line<'a>]) -> Cause<'a> {
    let Some(line) = lines.get(0) else {
        return Cause::plain(0, FIRST);
    };
    if line.count() > 0 && !line.word(0).starts_with("#") {
        return line.cause(0, FIRST);
    }
    no_form(line)
}

// What is said of the line of a number that is none of a shape's.
fn of_form<'a>(lines: &[Line<'a>], number: usize) -> Cause<'a> {
    let Some(line) = lines.get(number) else {
        return Cause::plain(0, FIRST);
    };
    no_form(line)
}

// What is said of a word of the line of a number.
fn of_word<'a>(lines: &[Line<'a>], number: usize, word: usize, said: &'static str) -> Cause<'a> {
    let Some(line) = lines.get(number) else {
        return Cause::plain(0, said);
    };
    line.cause(word, said)
}

// What is said of a text by a reason.
fn told<'a>(lines: &[Line<'a>], reason: ShapeReason) -> Cause<'a> {
    match reason {
        ShapeReason::NoUnit => no_unit(lines),
        ShapeReason::NoForm(number) => of_form(lines, number),
        ShapeReason::Outside(number) => of_word(lines, number, 0, OUTSIDE),
        ShapeReason::NoBarrier(number) => of_word(lines, number, 2, BARRIER),
        ShapeReason::NoInterrupt(number) => of_word(lines, number, 2, HANDLED),
    }
}

/// Which line of a text, which has these lines, isn't one of a shape. Err where memory was refused.
pub(crate) fn bad_text<'a>(
    alloc: Global,
    text: &str,
    lines: &[Line<'a>],
) -> Result<Cause<'a>, AllocError> {
    let reason = shape_reason(alloc, text)?;
    Ok(told(lines, reason.unwrap_or(ShapeReason::NoUnit)))
}

/// That a unit may not have its name.
pub(crate) fn unit_name<'a>(at: usize, name: &'a str, known: &Known<'_>) -> Option<Cause<'a>> {
    if is_listed(&RESERVED, name) {
        return Some(Cause::of(at, "{0} is a name that no unit may have", name));
    }
    if known.has_unit(name) {
        return Some(Cause::of(at, "a unit {0} is loaded already", name));
    }
    None
}

// The first lines, so many.
fn front<'l, 'a>(lines: &'l [Line<'a>], count: usize) -> &'l [Line<'a>] {
    lines.get(..count).unwrap_or(lines)
}

// Whether the name of a line stands on those before it, within the object or, of a task or an object, within the unit. They are
// looked at from the last on, so that of an object's many parts each is compared with those of its object alone.
fn is_before(lines: &[Line<'_>], line: &Line<'_>) -> bool {
    for before in lines.iter().rev() {
        if is_part(line) && (before.is(0, "protected") || before.is(0, "suspension")) {
            return false;
        }
        if is_part(before) == is_part(line)
            && is_same_name(before.word(1), line.word(1))
            && !before.is(0, "scalar")
            && !before.is(0, "unit")
        {
            return true;
        }
    }
    false
}

/// Which name is taken.
pub(crate) fn name_taken<'a>(lines: &[Line<'a>], known: &Known<'_>) -> Cause<'a> {
    for (number, line) in lines.iter().enumerate() {
        if number == 0 {
            if let Some(cause) = unit_name(line.at(1), line.word(1), known) {
                return cause;
            }
        } else if !line.is(0, "scalar") && is_before(front(lines, number), line) {
            return line.cause(1, "{0} stands here already; give one another name");
        }
    }
    Cause::plain(0, "a name stands twice")
}

// Whether a number is a value of Integer.
fn is_integer(number: i64) -> bool {
    number >= -2_147_483_648 && number <= 2_147_483_647
}

// That a range, whose bounds stand at a word and behind it, is none.
fn bad_bounds<'a>(line: &Line<'a>, word: usize) -> Option<Cause<'a>> {
    let next = word.saturating_add(1);
    let low = line.number(word)?;
    let high = line.number(next)?;
    if !is_integer(low) || !is_integer(high) {
        let at = if is_integer(low) { next } else { word };
        return Some(line.cause(at, "{0} is no Integer, which has 32 bits (3.5)"));
    }
    if low <= high {
        return None;
    }
    Some(Cause::new(
        line.at(word),
        "{0} is above {1}: no value is between (3.5)",
        [line.word(word), line.word(next), ""],
    ))
}

// That a scalar starts outside its range.
fn bad_start<'a>(line: &Line<'a>) -> Option<Cause<'a>> {
    let low = line.number(1)?;
    let high = line.number(2)?;
    let start = line.number(3)?;
    if low <= start && start <= high {
        return None;
    }
    Some(line.cause(3, "{0} is outside the range of its scalar (3.5)"))
}

// That a priority or a ceiling is none.
fn bad_priority<'a>(line: &Line<'a>) -> Option<Cause<'a>> {
    let number = line.number(2)?;
    if 1 <= number && number <= 40 {
        return None;
    }
    Some(line.cause(2, "{0} is no priority: those are 1 .. 40 (D.1)"))
}

// Which range of a line is none.
fn bad_ranges<'a>(line: &Line<'a>) -> Option<Cause<'a>> {
    for word in 1..line.count() {
        if let Some(cause) = bad_bounds(line, word) {
            return Some(cause);
        }
    }
    None
}

// Which number of a line is out of range.
fn bad_numbers<'a>(line: &Line<'a>) -> Option<Cause<'a>> {
    match line.word(0) {
        "task" | "protected" => bad_priority(line),
        "scalar" => match bad_bounds(line, 1) {
            Some(cause) => Some(cause),
            None => bad_start(line),
        },
        _ => bad_ranges(line),
    }
}

/// Which number is out of range.
pub(crate) fn bad_range<'a>(lines: &[Line<'a>]) -> Cause<'a> {
    for line in lines {
        if let Some(cause) = bad_numbers(line) {
            return cause;
        }
    }
    Cause::plain(0, "a number is out of range")
}

/// Which object with a handler has too low a ceiling.
pub(crate) fn ceiling_too_low<'a>(lines: &[Line<'a>]) -> Cause<'a> {
    let mut low = None;
    for line in lines {
        if line.is(0, "protected") {
            low = match line.number(2) {
                Some(ceiling) if ceiling < 31 => Some((line.at(2), line.word(1))),
                _ => None,
            };
        }
        if line.is(0, "handler") {
            if let Some((at, name)) = low {
                let said = "{0} has a handler, so its ceiling is 31 .. 40 (C.3.1)";
                return Cause::of(at, said, name);
            }
        }
    }
    Cause::plain(
        0,
        "an object with a handler has a ceiling of 31 .. 40 (C.3.1)",
    )
}

/// What there is too much of.
pub(crate) fn too_many<'a>(lines: &[Line<'a>]) -> Cause<'a> {
    let mut has_entry = false;
    for line in lines {
        if line.is(0, "entry") && has_entry {
            let said = "{0} is a second entry of its object; one is the most (D.7)";
            return line.cause(1, said);
        }
        if line.count() > 16 {
            return line.cause(1, "{0} has a fifth parameter; an operation has 4 at most");
        }
        has_entry = line.is(0, "entry") || has_entry && !line.is(0, "protected");
    }
    Cause::plain(
        0,
        "with this unit there would be more units, tasks, objects or parts than fit",
    )
}
