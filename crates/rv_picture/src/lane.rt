//! The lanes of a timeline: an actor on an object each.

ghost use Rattle.std.specs.Prelude.{◌≡◌, ◌++◌, ◌∷◌, IfOk, OnOk, length, string_bytes, suc};
ghost use Rattle.rv_shape.specs.Catalogue.{all_objects, place};
ghost use Rattle.rv_shape.specs.Printed.{actor_text};
ghost use Rattle.rv_shape.specs.Readers.{who_of};
ghost use Rattle.rv_lasting.specs.Rows.{object_text};
ghost use Rattle.rv_picture.specs.Bars.{of_actor, of_lane};
ghost use Rattle.rv_picture.specs.Lanes.{is_on_object, lane_name, lanes, lanes_on, with_lane};

use crate::bar::Bar;
use rv_shape::actor::{Actor, FIRST_TASK};
use rv_shape::catalogue::Catalogue;
use std::alloc::{AllocError, Global};

/// An actor on an object.
#[derive(Clone, Copy, Drop)]
pub struct Lane {
    /// The actor.
    pub actor: usize,
    /// The object; 0 where it is of none.
    pub object: usize,
    /// How many lanes stand above it.
    pub place: usize,
}

// The bars of an actor. Err where memory was refused.
fn of_actor(alloc: Global, actor: usize, bars: &[Bar]) -> Result<Vec<Bar>, AllocError>
    ensures { IfOk result (λ mine. mine.items ≡ of_actor actor bars.now) }
{
    let mut mine = Vec::new(alloc);
    for bar in bars {
        if bar.begun.call.actor == actor {
            mine.push(*bar)?;
        }
    }
    Ok(mine)
}

/// The bars of an actor on an object. Err where memory was refused.
pub fn of_lane(
    alloc: Global,
    actor: usize,
    object: usize,
    bars: &[Bar],
) -> Result<Vec<Bar>, AllocError>
    ensures { IfOk result (λ mine. mine.items ≡ of_lane actor object bars.now) }
{
    let mut mine = Vec::new(alloc);
    for bar in bars {
        if bar.is_on(actor, object) {
            mine.push(*bar)?;
        }
    }
    Ok(mine)
}

// Whether one of these bars is on an object.
fn is_on_object(object: usize, bars: &[Bar]) -> bool
    ensures { result ≡ is_on_object object bars.now }
{
    for bar in bars {
        if bar.begun.call.object == object {
            return true;
        }
    }
    false
}

// Adds a lane behind the others, if it is to be.
fn add_lane(
    lanes: &mut Vec<Lane>,
    is_there: bool,
    actor: usize,
    object: usize,
) -> Result<(), AllocError>
    ensures { OnOk result (lanes.new.items ≡ with_lane is_there actor object lanes.old.items) }
{
    if is_there {
        let place = lanes.len();
        lanes.push(Lane {
            actor,
            object,
            place,
        })?;
    }
    Ok(())
}

// Adds the lanes of an actor, of its bars on all objects.
fn add_lanes_on(
    lanes: &mut Vec<Lane>,
    catalogue: &Catalogue,
    actor: usize,
    bars: &[Bar],
) -> Result<(), AllocError>
    ensures { OnOk result (lanes.new.items ≡ lanes_on actor bars.now (suc (length (all_objects catalogue.now))) lanes.old.items) }
{
    let count = catalogue.objects() + 1;
    for object in 0..count {
        add_lane(lanes, is_on_object(object, bars), actor, object)?;
    }
    Ok(())
}

/// The lanes that have one of these bars, in the order of the actors and of each in that of the objects. Err where memory was refused.
pub fn lanes(alloc: Global, catalogue: &Catalogue, bars: &[Bar]) -> Result<Vec<Lane>, AllocError>
    ensures { IfOk result (λ found. found.items ≡ lanes catalogue.now bars.now) }
{
    let mut found = Vec::new(alloc);
    let count = FIRST_TASK + catalogue.tasks();
    for actor in 0..count {
        let mine = of_actor(alloc, actor, bars)?;
        add_lanes_on(&mut found, catalogue, actor, mine.as_slice())?;
    }
    Ok(found)
}

// The name of an object, `-` where there is none. Err where memory was refused.
fn object_text(alloc: Global, catalogue: &Catalogue, object: usize) -> Result<String, AllocError>
    ensures { IfOk result (λ text. string_bytes text ≡ object_text (place catalogue.now object)) }
{
    let Some((shape, object)) = catalogue.object(object) else {
        return String::from_str(alloc, "-");
    };
    let unit = shape.name();
    let name = object.name();
    format!(in alloc; "{unit}.{name}")
}

// The names of an actor and of an object. Err where memory was refused.
fn both_names(alloc: Global, who: &Actor<'_>, object: &str) -> Result<String, AllocError>
    ensures { IfOk result (λ text. string_bytes text ≡ actor_text (who_of who.now) ++ 32 ∷ object.now) }
{
    format!(in alloc; "{who} {object}")
}

/// The name of a lane. Err where memory was refused.
pub fn lane_name(
    alloc: Global,
    catalogue: &Catalogue,
    actor: usize,
    object: usize,
) -> Result<String, AllocError>
    ensures { IfOk result (λ text. string_bytes text ≡ lane_name catalogue.now actor object) }
{
    let object = object_text(alloc, catalogue, object)?;
    both_names(alloc, &catalogue.who(actor), object.as_str())
}
