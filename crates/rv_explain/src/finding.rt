//! Finds what is said of a fault.

use crate::bytes::of_bytes;
use crate::commands::bad_command;
use crate::explanation::{Explanation, nothing, of_line, of_part, of_place, of_script};
use crate::line::{Line, lines_of};
use crate::lists::cause_of_list;
use crate::loaded::Loaded;
use crate::parts::{
    catalogue_before, declared_by, known_before, load_at, opening_before, part_at, texts_before,
};
use crate::sections::bad_section;
use crate::settings::cause_of_settings;
use crate::shapes;
use crate::spot::{Spot, line_spot};
use crate::steps::bad_step;
use crate::taken::line_taken_by_shape;
use crate::units::of_unit;
use rv_access::ListFault;
use rv_cause::cause::Cause;
use rv_cause::known::Known;
use rv_fault::{Part, ScriptFault, What};
use rv_script::unit_text::unit_text;
use rv_script::{Opening, TextError, opening_of, text_of};
use rv_settings::SettingsFault;
use rv_shape::fault::ShapeFault;
use std::alloc::{AllocError, Global};

const TOO_LONG: &str = "a unit text has at most 262144 bytes; this one has more";

const UNKNOWN_IN_A_DEVICE: &str =
    "a device names what isn't loaded, or an operation that has parameters";

const NO_ROOM_FOR_A_DEVICE: &str =
    "the unit of a device doesn't fit: its name is taken, or there are too many";

// The number of the line at fault among those of a list, from 1, if it has one.
fn list_line(fault: ListFault) -> usize {
    match fault {
        ListFault::BadWord(line)
        | ListFault::BadName(line)
        | ListFault::BadWindow(line)
        | ListFault::TooMany(line) => line,
        ListFault::NoMemory => 0,
    }
}

// Which word of a step, or of a command, begins the line of a list.
fn first_of_step(words: &Line<'_>) -> usize {
    if words.is(0, "append") {
        return 1;
    }
    if words.is(0, "replace") || words.is(1, "append") {
        return 2;
    }
    3
}

// What is said of a fault of a list, in a part of its own or in the line of a step.
fn of_list<'a>(
    alloc: Global,
    script: &'a str,
    line: usize,
    fault: ListFault,
) -> Result<Explanation<'a>, AllocError> {
    let is_part = part_at(script, line).is_some();
    let number = if is_part {
        line.saturating_add(list_line(fault))
    } else {
        line
    };
    let Some(spot) = line_spot(script, number) else {
        return of_script(alloc, "this is no list");
    };
    let words = Line::of(alloc, spot.line, 0)?;
    let first = if is_part { 0 } else { first_of_step(&words) };
    let cause = cause_of_list(spot.line, &words, first, fault);
    of_line(alloc, &spot, &cause, &Known::new(alloc))
}

// What is said of a step that names what isn't loaded.
fn of_unknown<'a>(
    alloc: Global,
    script: &'a str,
    line: usize,
    spot: &Spot<'a>,
) -> Result<Explanation<'a>, AllocError> {
    let words = Line::of(alloc, spot.line, 0)?;
    let texts = texts_before(alloc, script, line)?;
    let known = declared_by(alloc, texts.as_slice())?;
    let catalogue = catalogue_before(alloc, script, line)?;
    let loaded = Loaded {
        alloc,
        catalogue: &catalogue,
        known: &known,
    };
    let told = loaded.unknown_name(&words)?;
    Ok(of_place(alloc, spot.at(told.at), told.sentence))
}

// The cause of a line that is no step or no command.
fn cause_of_step<'a>(
    alloc: Global,
    script: &str,
    line: usize,
    text: &'a str,
) -> Result<Cause<'a>, AllocError> {
    let words = Line::of(alloc, text, 0)?;
    match opening_before(script, line) {
        Some(Opening::Run) => Ok(bad_command(&words)),
        _ => bad_step(alloc, text, &words),
    }
}

// The cause of a fault of a line of this text.
fn cause_of_line<'a>(
    alloc: Global,
    script: &str,
    line: usize,
    text: &'a str,
    what: What,
) -> Result<Cause<'a>, AllocError> {
    match what {
        What::BadSection => bad_section(alloc, text, opening_before(script, line)),
        What::UnknownName => Ok(Cause::plain(0, UNKNOWN_IN_A_DEVICE)),
        What::TooLong => Ok(Cause::plain(0, TOO_LONG)),
        _ => cause_of_step(alloc, script, line, text),
    }
}

// What is said of a line.
fn of_spot<'a>(
    alloc: Global,
    script: &'a str,
    line: usize,
    what: What,
) -> Result<Explanation<'a>, AllocError> {
    let Some(spot) = line_spot(script, line) else {
        return of_script(alloc, "the script has no such line");
    };
    if what == What::UnknownName && opening_of(spot.line).is_none() {
        return of_unknown(alloc, script, line, &spot);
    }
    let cause = cause_of_line(alloc, script, line, spot.line, what)?;
    of_line(alloc, &spot, &cause, &Known::new(alloc))
}

// What is said of a fault of settings.
fn of_settings<'a>(
    alloc: Global,
    part: &Part<'a>,
    fault: SettingsFault,
) -> Result<Explanation<'a>, AllocError> {
    let text = unit_text(alloc, part.text)?;
    let cause = cause_of_settings(alloc, text.as_str(), fault)?;
    of_part(alloc, part, &cause, &Known::new(alloc))
}

// Which name of a shape in a script is taken.
fn name_taken<'a>(
    alloc: Global,
    script: &str,
    line: usize,
    lines: &[Line<'a>],
) -> Result<Cause<'a>, AllocError> {
    let texts = texts_before(alloc, script, line)?;
    let known = known_before(alloc, script, line, texts.as_slice())?;
    Ok(shapes::name_taken(lines, &known))
}

// The cause of a fault of a shape of these lines, in a script.
fn cause_of_shape<'a>(
    alloc: Global,
    script: &str,
    line: usize,
    text: &str,
    lines: &[Line<'a>],
    fault: ShapeFault,
) -> Result<Cause<'a>, AllocError> {
    match fault {
        ShapeFault::BadText => shapes::bad_text(alloc, text, lines),
        ShapeFault::NameTaken => name_taken(alloc, script, line, lines),
        ShapeFault::TooMany => Ok(shapes::too_many(lines)),
        ShapeFault::LineTaken => Ok(Cause::plain(
            0,
            "an interrupt line has a handler already (C.3.1)",
        )),
        ShapeFault::CeilingTooLow => Ok(shapes::ceiling_too_low(lines)),
        ShapeFault::BadRange => Ok(shapes::bad_range(lines)),
        ShapeFault::NoMemory => Ok(Cause::plain(0, "memory was refused")),
    }
}

// What is said of a fault of a shape.
fn of_shape<'a>(
    alloc: Global,
    script: &'a str,
    part: &Part<'a>,
    fault: ShapeFault,
) -> Result<Explanation<'a>, AllocError> {
    let known = Known::new(alloc);
    if part.opening == Some(Opening::Settings) {
        return of_part(alloc, part, &Cause::plain(0, NO_ROOM_FOR_A_DEVICE), &known);
    }
    if fault == ShapeFault::LineTaken {
        return line_taken_by_shape(alloc, script, part);
    }
    let text = unit_text(alloc, part.text)?;
    let lines = lines_of(alloc, text.as_str())?;
    let cause = cause_of_shape(
        alloc,
        script,
        part.line,
        text.as_str(),
        lines.as_slice(),
        fault,
    )?;
    of_part(alloc, part, &cause, &known)
}

// What is said of a fault of a part's text.
fn of_text<'a>(
    alloc: Global,
    script: &'a str,
    line: usize,
    what: What,
) -> Result<Explanation<'a>, AllocError> {
    if let Some(part) = part_at(script, line) {
        return of_fault(alloc, script, &part, what);
    }
    let Some(load) = load_at(script, line) else {
        return of_spot(alloc, script, line, what);
    };
    of_fault(alloc, script, &load, what)
}

// What is said of a fault of the text of a part, or of the unit text behind a command `load`.
fn of_fault<'a>(
    alloc: Global,
    script: &'a str,
    part: &Part<'a>,
    what: What,
) -> Result<Explanation<'a>, AllocError> {
    match what {
        What::Unit(fault) => of_unit(alloc, script, part, fault),
        What::Shape(fault) => of_shape(alloc, script, part, fault),
        What::Settings(fault) => of_settings(alloc, part, fault),
        _ => of_spot(alloc, script, part.line, what),
    }
}

// What is said of a fault, if memory lasts.
fn found(alloc: Global, script: &[u8], fault: ScriptFault) -> Result<Explanation<'_>, AllocError> {
    let text = match text_of(script) {
        Ok(text) => text,
        Err(TextError::TooLong) => {
            return of_script(
                alloc,
                "a script has at most 16777216 bytes; this one has more",
            );
        }
        Err(TextError::NotText) => return of_bytes(alloc, script),
    };
    match fault.what {
        What::List(told) => of_list(alloc, text, fault.line, told),
        what => of_text(alloc, text, fault.line, what),
    }
}

/// What is said below the line of a fault that was told of a script.
pub fn explain(alloc: Global, script: &[u8], fault: ScriptFault) -> Explanation<'_> {
    match found(alloc, script, fault) {
        Ok(explanation) => explanation,
        Err(_) => nothing(alloc),
    }
}

// What is said of a command behind `@run`, by its own line.
fn of_command<'a>(
    alloc: Global,
    number: usize,
    line: &'a str,
    what: What,
) -> Result<Explanation<'a>, AllocError> {
    let words = Line::of(alloc, line, 0)?;
    let cause = match what {
        What::List(fault) => cause_of_list(line, &words, first_of_step(&words), fault),
        _ => bad_command(&words),
    };
    let spot = Spot {
        number,
        line,
        offset: 0,
    };
    of_line(alloc, &spot, &cause, &Known::new(alloc))
}

/// What `explain` says of a fault of a command behind `@run` other than `load`, whose line has this number in the script. No other line is
/// looked at, so what it takes doesn't grow with the script.
pub fn explain_command(alloc: Global, number: usize, line: &str, what: What) -> Explanation<'_> {
    match of_command(alloc, number, line, what) {
        Ok(explanation) => explanation,
        Err(_) => nothing(alloc),
    }
}
