//! What is said of the room left.

ghost use Rattle.std.specs.Prelude.{◌≡◌, ◌++◌, ◌∷◌, ◌<◌, ◌^◌, IfOk, List, OnOk, length, string_bytes};
ghost use Rattle.rv_event.specs.declared.entry.Entry.{Entry};
ghost use Rattle.rv_tally.specs.Tallying.{IsTally};
ghost use Rattle.rv_tally.specs.Wording.{grouped, room_head, room_line, room_words, three, unit_part, unit_parts};

use crate::tally::Tally;
use rv_shape::catalogue::Catalogue;
use rv_shape::shape::UnitShape;
use std::alloc::{AllocError, Global};

// The last three digits of a number.
fn three(alloc: Global, number: u64) -> Result<String, AllocError>
    ensures { IfOk result (λ text. string_bytes text ≡ three number) }
{
    let hundreds = number / 100 % 10;
    let tens = number / 10 % 10;
    let ones = number % 10;
    format!(in alloc; "{hundreds}{tens}{ones}")
}

/// A number with commas between its thousands and its millions.
pub fn grouped(alloc: Global, number: u64) -> Result<String, AllocError>
    ensures { IfOk result (λ text. string_bytes text ≡ grouped number) }
{
    let thousands = number / 1000;
    let millions = number / 1_000_000;
    if number < 1000 {
        return format!(in alloc; "{number}");
    }
    let ones = three(alloc, number)?;
    if number < 1_000_000 {
        return format!(in alloc; "{thousands},{ones}");
    }
    let thousands = three(alloc, thousands)?;
    format!(in alloc; "{millions},{thousands},{ones}")
}

// What is said of the room of a journal, of numbers that were written.
fn room_words(alloc: Global, left: &str, capacity: &str) -> Result<String, AllocError>
    ensures { IfOk result (λ text. string_bytes text ≡ room_words left.now capacity.now) }
{
    format!(in alloc; "journal: {left} of {capacity} entries left")
}

// What is said of the room of a journal.
fn room_head(alloc: Global, capacity: usize, left: usize) -> Result<String, AllocError>
    ensures { IfOk result (λ text. string_bytes text ≡ room_head capacity left) }
{
    let left = grouped(alloc, left as u64)?;
    let capacity = grouped(alloc, capacity as u64)?;
    room_words(alloc, left.as_str(), capacity.as_str())
}

// A name and a number.
fn named_number(alloc: Global, name: &str, number: u64) -> Result<String, AllocError>
    ensures { IfOk result (λ text. string_bytes text ≡ name.now ++ 32 ∷ grouped number) }
{
    let number = grouped(alloc, number)?;
    let mut text = String::from_str(alloc, name)?;
    text.push_str(" ")?;
    text.push_str(number.as_str())?;
    Ok(text)
}

// What is said of a unit.
fn unit_part(
    alloc: Global,
    catalogue: &Catalogue,
    tally: &Tally,
    shape: &UnitShape,
) -> Result<String, AllocError>
    ensures { (entries : List Entry) → length entries < 2 ^ 64 → IsTally entries tally.now
        → IfOk result (λ text. string_bytes text ≡ unit_part catalogue.now entries shape.now) }
{
    let name = shape.name();
    named_number(alloc, name, tally.of_unit(catalogue, name))
}

// Puts units behind a text, with these marks before the first, and commas between them.
fn push_parts(
    text: &mut String,
    alloc: Global,
    catalogue: &Catalogue,
    tally: &Tally,
    mark: &str,
    shapes: &[UnitShape],
) -> Result<(), AllocError>
    ensures { (entries : List Entry) → length entries < 2 ^ 64 → IsTally entries tally.now
        → OnOk result (string_bytes text.new ≡ string_bytes text.old ++ unit_parts catalogue.now entries mark.now shapes.now) }
{
    let Some((shape, others)) = shapes.split_first() else {
        return Ok(());
    };
    let part = unit_part(alloc, catalogue, tally, shape)?;
    text.push_str(mark)?;
    text.push_str(part.as_str())?;
    push_parts(text, alloc, catalogue, tally, ", ", others)
}

/// The line of a journal's room: what is left of the capacity, and how many entries the tasks of each unit have added,
/// in the order of loading. Err where memory was refused.
pub fn room_line(
    alloc: Global,
    catalogue: &Catalogue,
    tally: &Tally,
    capacity: usize,
    used: usize,
) -> Result<String, AllocError>
    ensures { (entries : List Entry) → length entries < 2 ^ 64 → IsTally entries tally.now
        → IfOk result (λ text. string_bytes text ≡ room_line catalogue.now entries capacity used) }
{
    let mut text = room_head(alloc, capacity, capacity.saturating_sub(used))?;
    push_parts(&mut text, alloc, catalogue, tally, "; ", catalogue.shapes())?;
    text.push_str("\n")?;
    Ok(text)
}
