//! Which line makes a text no shape. Each line is judged by the reader, in a text of a unit and an object, and each barrier among the
//! scalars of its object.

ghost use Rattle.std.specs.Prelude.{◌≡◌, is_some, IfOk};
ghost use Rattle.rv_shape.specs.ShapeText.{shape_of};

use rv_shape::fault::ShapeFault;
use rv_shape::reading::read_shape;
use rv_text::{integer_of, next_line, next_word};
use std::alloc::{AllocError, Global};

/// Why a text is no shape. A number is that of a line, from 0.
#[derive(Clone, Copy)]
pub enum ShapeReason {
    /// This first line isn't `unit` and a name, or there is none.
    NoUnit,
    /// This line is none of those that a shape has.
    NoForm(usize),
    /// This line is a part of a protected object, and stands directly below none.
    Outside(usize),
    /// The barrier of the entry in this line is none of its object's.
    NoBarrier(usize),
    /// The handler in this line has no interrupt line.
    NoInterrupt(usize),
}

// Whether a text is a shape. Err where memory was refused.
fn is_shape(alloc: Global, text: &str) -> Result<bool, AllocError>
    ensures { IfOk result (λ is. is ≡ is_some (shape_of text.now)) }
{
    match read_shape(alloc, text) {
        Ok(_) => Ok(true),
        Err(ShapeFault::NoMemory) => Err(AllocError),
        Err(_) => Ok(false),
    }
}

// Whether a line stands in a shape below a unit. Err where memory was refused.
fn is_of_unit(alloc: Global, line: &str) -> Result<bool, AllocError> {
    let text = format!(in alloc; "unit U\n{line}\n")?;
    is_shape(alloc, text.as_str())
}

// Whether a line stands in a shape below a protected object of these lines. Err where memory was refused.
fn is_of_object(alloc: Global, lines: &str, line: &str) -> Result<bool, AllocError> {
    let text = format!(in alloc; "unit U\nprotected P 1\n{lines}{line}\n")?;
    is_shape(alloc, text.as_str())
}

// Whether a line begins with a word.
fn begins(line: &str, key: &str) -> bool {
    match next_word(line) {
        Some((word, _)) => word == key,
        None => false,
    }
}

// The first three words of a line, and what stands behind them.
#[derive(Clone, Copy)]
struct Front<'a> {
    key: &'a str,
    name: &'a str,
    word: &'a str,
    rest: &'a str,
}

// The first three words of a line that has as many.
fn front_of(line: &str) -> Option<Front<'_>> {
    let (key, rest) = next_word(line)?;
    let (name, rest) = next_word(rest)?;
    let (word, rest) = next_word(rest)?;
    Some(Front {
        key,
        name,
        word,
        rest,
    })
}

// What is right in the place of the third word, if that is a barrier or the number of an interrupt line.
fn right_word(front: &Front<'_>) -> Option<&'static str> {
    if front.key == "entry" {
        return Some("open");
    }
    if front.key == "handler" && integer_of(front.word).is_some() {
        return Some("0");
    }
    None
}

// The line with a word that is right in the place of a barrier, or of a number of an interrupt line. Err where memory was refused.
fn mended(alloc: Global, line: &str) -> Result<String, AllocError> {
    let Some(front) = front_of(line) else {
        return String::from_str(alloc, line);
    };
    let Some(word) = right_word(&front) else {
        return String::from_str(alloc, line);
    };
    let (key, name, rest) = (front.key, front.name, front.rest);
    format!(in alloc; "{key} {name} {word} {rest}")
}

// Why a line behind the first, of this number, stands where it does in no shape, barriers and interrupt lines aside.
fn line_reason(
    alloc: Global,
    number: usize,
    line: &str,
    is_inside: bool,
) -> Result<Option<ShapeReason>, AllocError> {
    let mended = mended(alloc, line)?;
    if !is_of_object(alloc, "", mended.as_str())? {
        return Ok(Some(ShapeReason::NoForm(number)));
    }
    if !is_inside && !is_of_unit(alloc, mended.as_str())? {
        return Ok(Some(ShapeReason::Outside(number)));
    }
    Ok(None)
}

// Whether a line that is right goes on with the parts of a protected object, where the one before it does or doesn't.
fn goes_on(alloc: Global, line: &str, is_inside: bool) -> Result<bool, AllocError> {
    if begins(line, "protected") {
        return Ok(true);
    }
    if !is_inside {
        return Ok(false);
    }
    let mended = mended(alloc, line)?;
    Ok(!is_of_unit(alloc, mended.as_str())?)
}

// The lines of the scalars of the object whose parts a text begins with.
fn scalars_of(alloc: Global, text: &str) -> Result<String, AllocError> {
    let mut scalars = String::new(alloc);
    let mut rest = text;
    'each: while let Some((line, behind)) = next_line(rest) {
        if begins(line, "scalar") {
            scalars.push_str(line)?;
            scalars.push_str("\n")?;
        } else if begins(line, "protected") || begins(line, "task") || begins(line, "suspension") {
            return Ok(scalars);
        }
        rest = behind;
    }
    Ok(scalars)
}

// Which barrier or interrupt line is none, where all lines are right but for those.
fn barrier_reason(alloc: Global, text: &str) -> Result<Option<ShapeReason>, AllocError> {
    let mut scalars = String::new(alloc);
    let mut number = 0usize;
    let mut rest = text;
    'each: while let Some((line, behind)) = next_line(rest) {
        if begins(line, "protected") {
            scalars = scalars_of(alloc, behind)?;
        }
        if begins(line, "entry") && !is_of_object(alloc, scalars.as_str(), line)? {
            return Ok(Some(ShapeReason::NoBarrier(number)));
        }
        if begins(line, "handler") && !is_of_object(alloc, "", line)? {
            return Ok(Some(ShapeReason::NoInterrupt(number)));
        }
        number = number.saturating_add(1);
        rest = behind;
    }
    Ok(None)
}

/// Why a text is no shape; `None` where it is one. Err where memory was refused.
pub fn shape_reason(alloc: Global, text: &str) -> Result<Option<ShapeReason>, AllocError> {
    let Some((first, behind)) = next_line(text) else {
        return Ok(Some(ShapeReason::NoUnit));
    };
    if !is_shape(alloc, first)? {
        return Ok(Some(ShapeReason::NoUnit));
    }
    let mut is_inside = false;
    let mut number = 1usize;
    let mut rest = behind;
    'each: while let Some((line, behind)) = next_line(rest) {
        if let Some(reason) = line_reason(alloc, number, line, is_inside)? {
            return Ok(Some(reason));
        }
        is_inside = goes_on(alloc, line, is_inside)?;
        number = number.saturating_add(1);
        rest = behind;
    }
    barrier_reason(alloc, text)
}
