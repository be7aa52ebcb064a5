//! Where the parts of units stand.

ghost use Rattle.std.specs.Prelude.{◌≡◌, ◌++◌, [], IfOk, length};
ghost use Rattle.std.specs.Option.{option_copied, option_map};
ghost use Rattle.rv_shape.specs.Catalogue.{numbered, objects_of, tasks_of};
ghost use Rattle.rv_shape.specs.Places.{part_at, places_from};

use crate::object::Object;
use crate::shape::UnitShape;
use crate::task::Task;
use std::alloc::{AllocError, Global};
use std::marker::Model;

/// Where a part of a unit stands: the unit's number, from 1, and its place in the unit, from 0.
#[derive(Clone, Copy, Drop)]
pub(crate) struct Place {
    pub unit: usize,
    pub part: usize,
}

/// The places of parts of all units, in the order of load.
#[derive(Drop)]
pub(crate) struct Places {
    places: Vec<Place>,
}

impl Model for Places {
    ghost use Rattle.std.specs.Prelude.{List};
    ghost use Rattle.rv_shape.specs.declared.catalogue.places.Place.{Place};

    ghost Value = { List Place };

    ghost view = { λ p. p.places.items };
}

impl Places {
    /// No places.
    pub fn new(alloc: Global) -> Places
        ensures { result ≡ [] }
    {
        Places {
            places: Vec::new(alloc),
        }
    }

    /// How many there are.
    pub fn len(&self) -> usize
        ensures { result ≡ length self.now }
    {
        self.places.len()
    }

    /// The place of a number, from 1, or `None` where there is none.
    pub fn place(&self, number: usize) -> Option<Place>
        ensures { result ≡ numbered self.now number }
    {
        if number < 1 {
            return None;
        }
        self.places.get(number - 1).copied()
    }

    /// These places, with those of so many parts of one more unit behind them. Err where memory was
    /// refused.
    #[tactic(auto, using(crate::proofs::Indexed::part_step))]
    pub fn with(&self, unit: usize, parts: usize) -> Result<Places, AllocError>
        ensures { IfOk result (λ more. more ≡ self.now ++ places_from unit 0 parts) }
    {
        let mut places = self.places.clone()?;
        for part in 0..parts {
            places.push(Place { unit, part })?;
        }
        Ok(Places { places })
    }
}

// The unit of a number, from 1.
fn unit_at(shapes: &[UnitShape], number: usize) -> Option<&UnitShape>
    ensures { option_copied result ≡ numbered shapes.now number }
{
    if number < 1 {
        return None;
    }
    shapes.get(number - 1)
}

/// The object that stands at a place, with its unit.
#[tactic(auto, using(crate::proofs::Indexed::object_of_unit))]
pub(crate) fn object_in(shapes: &[UnitShape], place: Place) -> Option<(&UnitShape, &Object)>
    ensures { option_map (λ p. record { unit = p.0.now.name; object = p.1.now }) result
        ≡ part_at objects_of shapes.now place }
{
    let Some(shape) = unit_at(shapes, place.unit) else {
        return None;
    };
    match shape.objects().get(place.part) {
        Some(object) => Some((shape, object)),
        None => None,
    }
}

/// The task that stands at a place, with its unit.
#[tactic(auto, using(crate::proofs::Indexed::task_of_unit))]
pub(crate) fn task_in(shapes: &[UnitShape], place: Place) -> Option<(&UnitShape, &Task)>
    ensures { option_map (λ p. record { unit = p.0.now.name; task = p.1.now }) result
        ≡ part_at tasks_of shapes.now place }
{
    let Some(shape) = unit_at(shapes, place.unit) else {
        return None;
    };
    match shape.tasks().get(place.part) {
        Some(task) => Some((shape, task)),
        None => None,
    }
}
