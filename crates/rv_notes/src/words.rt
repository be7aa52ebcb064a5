//! What notes say, for people.

ghost use Rattle.std.specs.Prelude.{IfOk, string_bytes};
ghost use Rattle.rv_notes.specs.Telling.{Names, Says};

use crate::names::INTERRUPTS;
use crate::note::Note;
use rv_access::{AccessList, Line};
use rv_near::nearest;
use rv_shape::catalogue::Catalogue;
use rv_shape::object::Object;
use rv_text::{dotted_parts, is_same_name};
use std::alloc::{AllocError, Global};

// How many names a sentence holds at most.
const MOST_NAMES: usize = 5;

// How many names are looked at closely, to find the nearest one.
const MOST_CANDIDATES: usize = 32;

// Adds the names of the operations of an object. Err where memory was refused.
fn add_operations<'a>(names: &mut Vec<&'a str>, object: &'a Object) -> Result<(), AllocError> {
    if let Object::Protected(protected) = object {
        for operation in protected.operations() {
            names.push(operation.name())?;
        }
        return Ok(());
    }
    names.push("Set_True")?;
    names.push("Set_False")?;
    names.push("Current_State")?;
    names.push("Suspend_Until_True")?;
    Ok(())
}

// The names of the units that are loaded. Err where memory was refused.
fn units(alloc: Global, catalogue: &Catalogue) -> Result<Vec<&str>, AllocError> {
    let mut names = Vec::new(alloc);
    for shape in catalogue.shapes() {
        names.push(shape.name())?;
    }
    Ok(names)
}

// The names of all operations of all objects. Err where memory was refused.
fn all_operations(alloc: Global, catalogue: &Catalogue) -> Result<Vec<&str>, AllocError> {
    let mut names = Vec::new(alloc);
    for shape in catalogue.shapes() {
        for object in shape.objects() {
            add_operations(&mut names, object)?;
        }
    }
    Ok(names)
}

// Names with commas between them; `none` where there are none. Err where memory was refused.
fn joined(alloc: Global, names: &[&str]) -> Result<String, AllocError> {
    let mut text = String::new(alloc);
    for name in names {
        if !text.is_empty() {
            text.push_str(", ")?;
        }
        text.push_str(name)?;
    }
    if text.is_empty() {
        text.push_str("none")?;
    }
    Ok(text)
}

// The first of names, and how many more there are, where they are too many for a sentence; else all. Err where memory was
// refused.
fn first_or_all(alloc: Global, names: &[&str]) -> Result<String, AllocError> {
    if names.len() <= MOST_NAMES {
        return joined(alloc, names);
    }
    let (first, others) = names.split_at(MOST_NAMES - 1);
    let text = joined(alloc, first)?;
    let text = text.as_str();
    let more = others.len();
    format!(in alloc; "{text} and {more} more")
}

// Whether a byte is among these, case of ASCII letters ignored.
fn has_byte(bytes: &[u8], byte: u8) -> bool {
    let byte = byte.to_ascii_lowercase();
    for other in bytes {
        if other.to_ascii_lowercase() == byte {
            return true;
        }
    }
    false
}

// How many bytes of a word a name hasn't: it takes as many edits at least to come from one to the other.
fn count_missing(word: &str, name: &str) -> usize {
    let mut missing: usize = 0;
    for byte in word.as_bytes() {
        if !has_byte(name.as_bytes(), *byte) {
            missing = missing.saturating_add(1);
        }
    }
    missing
}

// The bytes that a word has, each as one of 64 bits, case of ASCII letters ignored. Two bytes may share a bit.
fn bits_of(word: &str) -> u64 {
    let mut bits: u64 = 0;
    for byte in word.as_bytes() {
        bits |= 1 << (byte.to_ascii_lowercase() & 63);
    }
    bits
}

// Whether a name may be near to a word that has these bits. This is quickly told, and spares most names the table of edits.
fn may_be_near(word: &str, bits: u64, name: &str) -> bool {
    let most = word.len() / 3;
    if word.len() > name.len().saturating_add(most)
        || name.len() > word.len().saturating_add(most)
    {
        return false;
    }
    let missing = (bits & !bits_of(name)).count_ones() as usize;
    missing <= most && count_missing(word, name) <= most
}

// The name that is nearest to a word, among the first of those that may be near. Err where memory was refused.
fn nearest_of<'a>(
    alloc: Global,
    word: &str,
    names: &[&'a str],
) -> Result<Option<&'a str>, AllocError> {
    let bits = bits_of(word);
    let mut candidates = Vec::new(alloc);
    for name in names {
        if candidates.len() < MOST_CANDIDATES && may_be_near(word, bits, *name) {
            candidates.push(*name)?;
        }
    }
    nearest(alloc, word, candidates.as_slice())
}

// The name that is nearest to a word, or all of them; `none` where there are none. Err where memory was refused.
fn near_or_all(alloc: Global, word: &str, names: &[&str]) -> Result<String, AllocError> {
    match nearest_of(alloc, word, names)? {
        Some(near) => String::from_str(alloc, near),
        None => first_or_all(alloc, names),
    }
}

// The unit that has a task of this name, if one has.
fn home_of_task<'a>(catalogue: &'a Catalogue, name: &str) -> Option<&'a str> {
    for shape in catalogue.shapes() {
        for task in shape.tasks() {
            if is_same_name(task.name(), name) {
                return Some(shape.name());
            }
        }
    }
    None
}

// That there is no unit which a word names, and which there is that may be meant.
fn of_unit(
    alloc: Global,
    catalogue: &Catalogue,
    word: &str,
    unit: &str,
) -> Result<String, AllocError>
    ensures { IfOk result (λ words. Names word.now (string_bytes words)) }
{
    let names = units(alloc, catalogue)?;
    if let Some(near) = nearest_of(alloc, unit, names.as_slice())? {
        return format!(in alloc; "names {word}; {near} is loaded");
    }
    if let Some(home) = home_of_task(catalogue, unit) {
        return format!(in alloc; "names {word}; that is a task of {home}");
    }
    format!(in alloc; "names {word}; no unit of this name is loaded")
}

// That there is no such caller, and which there is.
fn of_caller(alloc: Global, catalogue: &Catalogue, word: &str) -> Result<String, AllocError>
    ensures { IfOk result (λ words. Names word.now (string_bytes words)) }
{
    if nearest(alloc, word, &[INTERRUPTS])?.is_some() {
        return format!(in alloc; "names {word}; lines call as Interrupts");
    }
    of_unit(alloc, catalogue, word, word)
}

// That there is no such object in a unit that is loaded, and which there are.
fn of_object<'a>(
    alloc: Global,
    catalogue: &'a Catalogue,
    word: &str,
    unit: &'a str,
    name: &str,
) -> Result<String, AllocError>
    ensures { IfOk result (λ words. Names word.now (string_bytes words)) }
{
    let mut names = Vec::new(alloc);
    let mut home = unit;
    if let Some(number) = catalogue.find_unit(unit) {
        if let Some(shape) = catalogue.shapes().get(number.saturating_sub(1)) {
            home = shape.name();
            for object in shape.objects() {
                names.push(object.name())?;
            }
        }
    }
    let there = near_or_all(alloc, name, names.as_slice())?;
    let there = there.as_str();
    format!(in alloc; "names {word}; {home} has {there}")
}

// That an object that is loaded, or all of them, have no such operation, and which there are.
fn of_operation(alloc: Global, catalogue: &Catalogue, line: &Line) -> Result<String, AllocError>
    ensures { IfOk result (λ words. Names line.now.operation (string_bytes words)) }
{
    let word = line.operation();
    let Some(number) = catalogue.find_object(line.object()) else {
        let names = all_operations(alloc, catalogue)?;
        return match nearest_of(alloc, word, names.as_slice())? {
            Some(near) => format!(in alloc; "names {word}; there is {near}"),
            None => format!(in alloc; "names {word}; no object has it"),
        };
    };
    let mut names = Vec::new(alloc);
    let mut unit = "";
    let mut object = "";
    if let Some((shape, found)) = catalogue.object(number) {
        unit = shape.name();
        object = found.name();
        add_operations(&mut names, found)?;
    }
    let there = near_or_all(alloc, word, names.as_slice())?;
    let there = there.as_str();
    format!(in alloc; "names {word}; {unit}.{object} has {there}")
}

/// What a note says of its line, behind the line's place: the word that names nothing, and what there is instead, as
/// `names Plant.Vlave; Plant has Valve`. Empty where the list has no such line. Err where memory was refused.
pub fn words_of(
    alloc: Global,
    catalogue: &Catalogue,
    list: &AccessList,
    note: Note,
) -> Result<String, AllocError>
    ensures { IfOk result (λ words. Says list.now note (string_bytes words)) }
{
    let Some(line) = list.line(note.line()) else {
        return Ok(String::new(alloc));
    };
    let (unit, name) = dotted_parts(line.object()).unwrap_or(("", ""));
    match note {
        Note::Caller(_) => of_caller(alloc, catalogue, line.unit()),
        Note::Home(_) => of_unit(alloc, catalogue, line.object(), unit),
        Note::Object(_) => of_object(alloc, catalogue, line.object(), unit, name),
        Note::Operation(_) => of_operation(alloc, catalogue, line),
        Note::Past(_) => String::from_str(
            alloc,
            "decides no call any more, since its window has ended",
        ),
        Note::Covered(_) => String::from_str(alloc, "decides no call, since later lines cover it"),
    }
}
