//! Reading the texts that a caller gives.

ghost use Rattle.std.specs.Prelude.{◌≡◌, ℕ, List, Some};
ghost use Rattle.rv_access.specs.declared.change.Change.TheVariants as Changes;
ghost use Rattle.rv_shape.specs.ShapeText.{shape_of};
ghost use Rattle.rv_c_host.specs.Carried.{ReadsLine, ReadsList, ReadsShape};

use rv_access::{Change, ListFault, read_line, read_list};
use rv_code::Unit;
use rv_shape::fault::ShapeFault;
use rv_shape::reading::read_shape;
use rv_shape::shape::UnitShape;
use std::alloc::{AllocError, Global};

/// What a text is read as.
#[derive(Drop)]
pub enum Read {
    /// A unit to load.
    Bring(Unit),
    /// A change of the list.
    Do(Change),
    /// None, by these words; by no words where there was no memory for them.
    Bad(String),
    /// Memory was refused.
    Memory,
}

/// Words that there was memory for; else none.
pub fn words_or_none(alloc: Global, told: Result<String, AllocError>) -> String {
    match told {
        Ok(told) => told,
        Err(_) => String::new(alloc),
    }
}

// The unit that is a shape alone.
fn alone(alloc: Global, shape: UnitShape) -> Read
    ensures { (text : List ℕ) → shape_of text ≡ Some shape → ReadsShape text result }
{
    match Unit::of_shape(alloc, shape) {
        Ok(unit) => Read::Bring(unit),
        Err(_) => Read::Memory,
    }
}

/// Reads a text as the unit that is the shape of it alone.
pub fn shape_read(alloc: Global, text: &[u8]) -> Read
    ensures { ReadsShape text.now result }
{
    let Ok(text) = str::from_utf8(text) else {
        return Read::Bad(words_or_none(alloc, String::from_str(alloc, "NotText")));
    };
    match read_shape(alloc, text) {
        Ok(shape) => alone(alloc, shape),
        Err(ShapeFault::NoMemory) => Read::Memory,
        Err(fault) => Read::Bad(words_or_none(alloc, format!(in alloc; "shape {fault}"))),
    }
}

/// Reads a text as the change to the whole list that it is.
pub fn list_read(alloc: Global, text: &[u8]) -> Read
    ensures { ReadsList text.now result }
{
    let Ok(text) = str::from_utf8(text) else {
        return Read::Bad(words_or_none(alloc, String::from_str(alloc, "NotText")));
    };
    match read_list(alloc, text) {
        Ok(list) => Read::Do(Change::Whole(list)),
        Err(ListFault::NoMemory) => Read::Memory,
        Err(fault) => Read::Bad(words_or_none(alloc, format!(in alloc; "list {fault}"))),
    }
}

/// Reads a text as the line more that it is.
pub fn append_read(alloc: Global, text: &[u8]) -> Read
    ensures { ReadsLine Changes.Append text.now result }
{
    let Ok(text) = str::from_utf8(text) else {
        return Read::Bad(words_or_none(alloc, String::from_str(alloc, "NotText")));
    };
    match read_line(alloc, text) {
        Ok(line) => Read::Do(Change::Append(line)),
        Err(ListFault::NoMemory) => Read::Memory,
        Err(fault) => Read::Bad(words_or_none(alloc, format!(in alloc; "list {fault}"))),
    }
}

/// Reads a text as the line that it is, for the place of another.
pub fn replace_read(alloc: Global, number: usize, text: &[u8]) -> Read
    ensures { ReadsLine (Changes.Replace number) text.now result }
{
    let Ok(text) = str::from_utf8(text) else {
        return Read::Bad(words_or_none(alloc, String::from_str(alloc, "NotText")));
    };
    match read_line(alloc, text) {
        Ok(line) => Read::Do(Change::Replace(number, line)),
        Err(ListFault::NoMemory) => Read::Memory,
        Err(fault) => Read::Bad(words_or_none(alloc, format!(in alloc; "list {fault}"))),
    }
}
