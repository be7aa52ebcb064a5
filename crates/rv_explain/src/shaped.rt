//! What the shapes of a script declare.

use crate::line::Line;
use rv_cause::declared::{Declared, Sort};
use rv_cause::known::Known;
use rv_text::next_line;
use std::alloc::{AllocError, Global};

// What the first word of a shape's line declares.
fn sort_of(word: &str) -> Option<Sort> {
    match word {
        "unit" => Some(Sort::Unit),
        "task" => Some(Sort::Task),
        "protected" => Some(Sort::Protected),
        "suspension" => Some(Sort::Object),
        "function" => Some(Sort::Function),
        "entry" => Some(Sort::Entry),
        "procedure" | "handler" => Some(Sort::Procedure),
        _ => None,
    }
}

// One of two words: the first where something is so.
fn either<'a>(is_so: bool, first: &'a str, second: &'a str) -> &'a str {
    if is_so { first } else { second }
}

// What a line of a shape declares, in a unit and a protected object.
fn declared<'a>(words: &Line<'a>, unit: &'a str, object: &'a str) -> Option<Declared<'a>> {
    let sort = sort_of(words.word(0))?;
    let name = words.word(1);
    let unit = either(sort == Sort::Unit, name, unit);
    let home = either(sort.is_operation(), object, "");
    let mark = either(sort == Sort::Object, "Suspension_Object", "");
    Some(Declared::shaped(unit, home, name, sort).of(mark))
}

/// Adds what the text of a shape declares.
pub(crate) fn add_shape<'a>(
    alloc: Global,
    known: &mut Known<'a>,
    text: &'a str,
) -> Result<(), AllocError> {
    let mut unit = "";
    let mut object = "";
    let mut rest = text;
    'each: while let Some((line, behind)) = next_line(rest) {
        let words = Line::of(alloc, line, 0)?;
        if let Some(item) = declared(&words, unit, object) {
            unit = item.unit;
            if item.sort == Sort::Protected {
                object = item.name;
            }
            known.add(item)?;
        }
        rest = behind;
    }
    Ok(())
}
