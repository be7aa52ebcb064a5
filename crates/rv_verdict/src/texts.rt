//! The texts of the units that a script gives, and the bodies that come of them.

ghost use Rattle.std.specs.Prelude.{◌≡◌, ◌++◌, ℕ, List, Option, Some, true, false, IfOk, OnOk};
ghost use Rattle.rv_code.specs.BodyView.{unit_view};
ghost use Rattle.rv_code.specs.Bodies.{without_bodies};
ghost use Rattle.rv_fits.specs.Fits.{numbered_as};
ghost use Rattle.rv_script.specs.Openings.{opening_of};
ghost use Rattle.rv_verdict.specs.Texts.{HasBodies, text_named, text_now, texts_in, texts_now, unit_texts, with_text};

use rv_code::UnitBodies;
use rv_fault::{Failure, Part, Parts, unit_of};
use rv_script::{Opening, open};
use rv_shape::catalogue::Catalogue;
use rv_shape::shape::UnitShape;
use std::alloc::{AllocError, Global};

// Puts the text of a part's unit behind the others, or none where it gives a shape. A part that gives no unit puts nothing.
fn put_text<'a>(texts: &mut Vec<Option<&'a str>>, part: &Part<'a>) -> Result<(), AllocError>
    ensures { OnOk result ((more : List (Option (List ℕ))) →
        texts_now texts.old.items ++ with_text (opening_of part.now.heading.now) part.now.text.now more ≡ texts_now texts.new.items ++ more) }
{
    let text = match part.opening {
        Some(Opening::UnitText) => Some(part.text),
        Some(Opening::Shape) => None,
        _ => return Ok(()),
    };
    texts.push(text)?;
    Ok(())
}

// The texts of the units that parts give, in order.
fn unit_texts<'a>(alloc: Global, mut parts: Parts<'a>) -> Result<Vec<Option<&'a str>>, AllocError>
    ensures { IfOk result (λ texts. texts_now texts.items ≡ unit_texts parts.entry) }
{
    let mut texts = Vec::new(alloc);
    'each: while let Some(part) = parts.next_part() {
        put_text(&mut texts, &part)?;
    }
    Ok(texts)
}

/// For each unit of a script, in order, its text, or none where it is a shape alone; those of devices, which have none, aside.
pub fn texts_of<'a>(alloc: Global, script: &'a str) -> Result<Vec<Option<&'a str>>, AllocError>
    ensures { IfOk result (λ texts. texts_now texts.items ≡ texts_in script.now) }
{
    match open(script) {
        Ok(opened) => unit_texts(alloc, Parts::of(opened.sections)),
        Err(_) => Ok(Vec::new(alloc)),
    }
}

/// The text of the first unit of exactly this name; units behind those that have a place among the texts have none.
pub fn text_named<'a>(units: &[UnitShape], texts: &[Option<&'a str>], name: &str) -> Option<&'a str>
    ensures { text_now result ≡ text_named units.now (texts_now texts.now) name.now }
{
    for (index, unit) in units.iter().enumerate() {
        let Some(text) = texts.get(index) else {
            return None;
        };
        if unit.name() == name {
            return *text;
        }
    }
    None
}

// Whether bodies are those of a shape's objects and tasks.
fn is_of(bodies: &UnitBodies, shape: &UnitShape) -> bool
    ensures { result ≡ numbered_as shape.now (unit_view bodies.now) }
{
    bodies.objects.len() == shape.objects().len() && bodies.tasks.len() == shape.tasks().len()
}

// These bodies, where they are those of a shape's objects and tasks, else none.
fn bodies_if(alloc: Global, shape: &UnitShape, bodies: UnitBodies) -> Result<UnitBodies, AllocError>
    ensures own { IfOk result (λ b. numbered_as shape.now (unit_view bodies) ≡ true → unit_view b ≡ unit_view bodies) }
    ensures none { IfOk result (λ b. numbered_as shape.now (unit_view bodies) ≡ false → unit_view b ≡ without_bodies shape.now) }
{
    if is_of(&bodies, shape) {
        return Ok(bodies);
    }
    UnitBodies::of_shape(alloc, shape)
}

// The bodies that a text has behind a catalogue, as a unit of this shape.
fn bodies_in(
    alloc: Global,
    catalogue: &Catalogue,
    shape: &UnitShape,
    text: &str,
) -> Result<UnitBodies, AllocError>
    ensures { IfOk result (λ bodies. HasBodies (Some text.now) catalogue.now shape.now (unit_view bodies)) }
{
    match unit_of(alloc, catalogue, 1, text) {
        Ok(unit) => bodies_if(alloc, shape, unit.bodies),
        Err(Failure::Refused(_)) => UnitBodies::of_shape(alloc, shape),
        Err(_) => Err(AllocError),
    }
}

/// The bodies of a unit that is loaded behind those of a catalogue: of its text, where it has one that can be compiled there,
/// else of its shape alone.
pub fn bodies_of(
    alloc: Global,
    catalogue: &Catalogue,
    shape: &UnitShape,
    text: Option<&str>,
) -> Result<UnitBodies, AllocError>
    ensures { IfOk result (λ bodies. HasBodies (text_now text.entry) catalogue.now shape.now (unit_view bodies)) }
{
    match text {
        Some(text) => bodies_in(alloc, catalogue, shape, text),
        None => UnitBodies::of_shape(alloc, shape),
    }
}
