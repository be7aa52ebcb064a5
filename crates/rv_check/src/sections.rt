//! Looks at one part, and says that it is well formed.

ghost use Rattle.std.specs.Prelude.{◌≡◌, ℕ, List, length, IfOk, string_bytes};
ghost use Rattle.rv_fault.specs.Written.{Puts};
ghost use Rattle.rv_check.specs.Checks.{unit_line, shape_line, list_line, shape_failure, Adds, OfUnit, OfShape, OfList, OfSection, WritesOne, at_line};
ghost use Rattle.rv_fault.specs.Parts.{section_of};
ghost use Rattle.rv_script.specs.UnitTexts.{without_returns};

use rv_fault::{Failure, Part, What, list_of, put, refused, shape_of, unit_of};
use rv_script::Opening;
use rv_shape::catalogue::Catalogue;
use rv_shape::fault::ShapeFault;
use rv_unit::Unit;
use std::alloc::{AllocError, Global};
use std::io::Write;

// The line that is said of a unit text.
fn unit_line(alloc: Global, name: &str) -> Result<String, AllocError>
    ensures { IfOk result (λ line. string_bytes line ≡ unit_line name.now) }
{
    format!(in alloc; "unit {name}: ok\n")
}

/// The line that is said of a shape.
pub(crate) fn shape_line(alloc: Global, name: &str) -> Result<String, AllocError>
    ensures { IfOk result (λ line. string_bytes line ≡ shape_line name.now) }
{
    format!(in alloc; "shape {name}: ok\n")
}

// The line that is said of a list.
fn list_line(alloc: Global, count: usize) -> Result<String, AllocError>
    ensures { IfOk result (λ line. string_bytes line ≡ list_line count) }
{
    format!(in alloc; "list: ok {count} lines\n")
}

/// Says that a part is well formed.
pub(crate) fn say<W: Write>(writer: &mut W, line: Result<String, AllocError>) -> Result<(), Failure>
    ensures { (text : List ℕ) → IfOk line (λ l. string_bytes l ≡ text)
        → Puts (W.contents writer.old) (W.contents writer.new) text result }
{
    match line {
        Ok(line) => put(writer, line.as_str()),
        Err(_) => Err(Failure::Memory),
    }
}

// Adds a unit, which fits, to those of the sections before: memory alone may be refused.
fn add_unit<W: Write>(
    alloc: Global,
    writer: &mut W,
    catalogue: &mut Catalogue,
    line: usize,
    unit: &Unit,
) -> Result<(), Failure>
    ensures { WritesOne (W.contents writer.old) (W.contents writer.new)
        (at_line line (Adds catalogue.old catalogue.new unit.now.shape)) result }
{
    match catalogue.add(&unit.shape) {
        Ok(()) => say(writer, unit_line(alloc, unit.shape.name())),
        Err(_) => Err(Failure::Memory),
    }
}

// Looks at a unit text, without each carriage return that stands before a line feed, and adds the unit to those of the
// sections before.
fn check_unit<W: Write>(
    alloc: Global,
    writer: &mut W,
    catalogue: &mut Catalogue,
    part: &Part<'_>,
) -> Result<(), Failure>
    ensures { WritesOne (W.contents writer.old) (W.contents writer.new)
        (at_line part.now.line (OfUnit catalogue.old catalogue.new (without_returns part.now.text.now))) result }
{
    let unit = unit_of(alloc, catalogue, part.line, part.text)?;
    add_unit(alloc, writer, catalogue, part.line, &unit)
}

// Why a shape doesn't fit whose section opens at a line.
fn shape_failure(line: usize, fault: ShapeFault) -> Failure
    ensures { result ≡ shape_failure line fault }
{
    match fault {
        ShapeFault::NoMemory => Failure::Memory,
        _ => refused(line, What::Shape(fault)),
    }
}

// Looks at a shape, and adds it to those of the sections before.
fn check_shape<W: Write>(
    alloc: Global,
    writer: &mut W,
    catalogue: &mut Catalogue,
    part: &Part<'_>,
) -> Result<(), Failure>
    ensures { WritesOne (W.contents writer.old) (W.contents writer.new)
        (at_line part.now.line (OfShape catalogue.old catalogue.new part.now.text.now)) result }
{
    let shape = shape_of(alloc, part.line, part.text)?;
    match catalogue.add(&shape) {
        Ok(()) => say(writer, shape_line(alloc, shape.name())),
        Err(fault) => Err(shape_failure(part.line, fault)),
    }
}

// Looks at a list.
fn check_list<W: Write>(alloc: Global, writer: &mut W, part: &Part<'_>) -> Result<(), Failure>
    ensures { WritesOne (W.contents writer.old) (W.contents writer.new)
        (at_line part.now.line (OfList part.now.text.now)) result }
{
    let list = list_of(alloc, part.line, part.text)?;
    say(writer, list_line(alloc, list.len()))
}

/// Looks at a part behind the settings. Steps, journals and commands aren't checked.
pub fn check_part<W: Write>(
    alloc: Global,
    writer: &mut W,
    catalogue: &mut Catalogue,
    part: &Part<'_>,
) -> Result<(), Failure>
    ensures { WritesOne (W.contents writer.old) (W.contents writer.new)
        (at_line part.now.line (OfSection catalogue.old catalogue.new (section_of part.now))) result }
{
    match part.opening {
        Some(Opening::UnitText) => check_unit(alloc, writer, catalogue, part),
        Some(Opening::Shape) => check_shape(alloc, writer, catalogue, part),
        Some(Opening::AccessList) => check_list(alloc, writer, part),
        _ => Err(part.not_taken()),
    }
}
