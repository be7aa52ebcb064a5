//! Lines that are no lines of a list.

use crate::line::Line;
use rv_access::ListFault;
use rv_cause::cause::Cause;
use rv_misread::{LineReason, line_reason};
use rv_text::is_identifier;

const NO_TICK: &str = "{0} is no tick: ticks are 1 to 18 digits";

// That a word is no object; with a star it is neither one nor a star.
fn no_object<'a>(line: &Line<'a>, number: usize) -> Cause<'a> {
    let word = line.word(number);
    if !word.contains("*") {
        return line.cause(number, "{0} is no object: write Unit.Object, or *");
    }
    let unit = match word.split_once('.') {
        Some((unit, _)) if is_identifier(unit) => unit,
        _ => "Unit",
    };
    let said = "a word of a list is *, or a whole name: {0} isn't one; write * or {1}.Name";
    Cause::pair(line.at(number), said, word, unit)
}

// Which word of a line, from the first of the list's on, a reason speaks of.
fn word_of(reason: LineReason) -> usize {
    match reason {
        LineReason::NoVerb => 0,
        LineReason::NoUnit => 1,
        LineReason::NoObject => 2,
        LineReason::NoOperation => 3,
        LineReason::NoFrom | LineReason::Missing => 4,
        LineReason::NoFirst => 5,
        LineReason::NoUntil => 6,
        LineReason::NoEnd | LineReason::PastLast | LineReason::Empty => 7,
        LineReason::NoWindow => 8,
    }
}

// What is said of that word, but of objects and of both numbers.
fn said_of(reason: LineReason) -> &'static str {
    match reason {
        LineReason::NoVerb => {
            "{0} begins no line of a list; write allow or deny, in small letters"
        }
        LineReason::Missing => {
            "a word is missing: behind allow or deny stand a unit, a Unit.Object and an operation"
        }
        LineReason::NoFrom => "{0} stands where only from A until B may",
        LineReason::NoUntil => "{0} stands where until has to",
        LineReason::NoWindow => "a window is from A until B, with nothing behind it",
        LineReason::NoUnit => "{0} is no unit: write one name, or *",
        LineReason::NoOperation => "{0} is no operation: write one name, or *",
        LineReason::PastLast => "{0} is past the last tick, 10**15",
        LineReason::NoFirst | LineReason::NoEnd => NO_TICK,
        LineReason::NoObject | LineReason::Empty => "",
    }
}

const COMMENT: &str = "a comment of a list has a line of its own, which begins with #";

// What is said of a word that stands behind a list's operation, but is no window.
fn behind_operation<'a>(line: &Line<'a>, first: usize, number: usize) -> Option<Cause<'a>> {
    let object = first.saturating_add(2);
    let operation = first.saturating_add(3);
    let window = first.saturating_add(4);
    if line.word(window).starts_with("#") || line.word(window).starts_with("--") {
        return Some(line.cause(window, COMMENT));
    }
    if line.word(operation).ends_with(",") {
        let said = "a line of a list has one operation: write a line of its own for each";
        return Some(line.cause(operation, said));
    }
    let word = line.word(object);
    if is_identifier(word) && is_identifier(line.word(operation)) && number == window {
        let said = "an object has its unit and a point before it: write {0}.{1}";
        return Some(Cause::pair(line.at(object), said, word, line.word(operation)));
    }
    None
}

// What is said of a word that begins no line.
fn said_of_first(word: &str) -> &'static str {
    if word.starts_with("--") || word.starts_with("//") {
        COMMENT
    } else {
        said_of(LineReason::NoVerb)
    }
}

// What is said of a line whose first word of the list has a number.
fn told<'a>(line: &Line<'a>, first: usize, reason: LineReason) -> Cause<'a> {
    let number = line.count().min(first.saturating_add(word_of(reason)));
    match reason {
        LineReason::NoVerb => line.cause(number, said_of_first(line.word(number))),
        LineReason::NoFrom | LineReason::NoWindow => match behind_operation(line, first, number) {
            Some(cause) => cause,
            None => line.cause(number, said_of(reason)),
        },
        LineReason::NoObject => no_object(line, number),
        LineReason::Empty => {
            let low = line.word(number.saturating_sub(2));
            let said = "this window is empty: {0} isn't below {1}";
            Cause::pair(line.at(number), said, low, line.word(number))
        }
        _ => line.cause(number, said_of(reason)),
    }
}

/// Why the words of a line of this text, from one of a number on, aren't taken into a list; the fault is the one that was told.
pub(crate) fn cause_of_list<'a>(
    text: &'a str,
    line: &Line<'a>,
    first: usize,
    fault: ListFault,
) -> Cause<'a> {
    if let ListFault::TooMany(_) = fault {
        return line.cause(0, "this is the 513th line of the list; 512 are the most");
    }
    match line_reason(text.get(line.at(first)..).unwrap_or("")) {
        Some(reason) => told(line, first, reason),
        None => Cause::plain(0, "memory was refused"),
    }
}
