//! The units that are loaded with one more behind them.

ghost use Rattle.std.specs.Prelude.{◌≡◌, ◌++◌, ◌∷◌, [], slice_get};
ghost use Rattle.std.specs.Option.{option_copied, option_map};
ghost use Rattle.rv_shape.specs.Catalogue.{UnitObject, numbered, place, target, at_object};
ghost use Rattle.rv_shape.specs.Readers.{target_of};

use rv_shape::actor::Callee;
use rv_shape::catalogue::{Catalogue, suspension_operation};
use rv_shape::object::{Object, Operation, ProtectedObject};
use rv_shape::shape::UnitShape;
use std::marker::Model;

/// The units that are loaded, and one more behind them. Both are lent side by side: a catalogue isn't copied for a unit that
/// may not be loaded yet.
#[derive(Drop)]
pub struct Units<'a> {
    loaded: &'a Catalogue,
    last: &'a UnitShape,
}

impl<'a> Model for Units<'a> {
    ghost use Rattle.std.specs.Prelude.{List, [], ◌∷◌, ◌++◌};
    ghost use Rattle.rv_shape.specs.Shape.{Shape};

    ghost Value = { List Shape };

    ghost view = { λ u. u.loaded.now ++ u.last.now ∷ [] };
}

// The unit and its object at a place, which counts from 0, or `None` where there is none.
fn object_of(shape: &UnitShape, place: usize) -> Option<(&UnitShape, &Object)>
    ensures { option_map {U = UnitObject} (λ p. record { unit = p.0.now.name; object = p.1.now }) result
        ≡ option_map (λ object. record { unit = shape.now.name; object = object }) (slice_get shape.now.objects place) }
{
    match shape.objects().get(place) {
        Some(object) => Some((shape, object)),
        None => None,
    }
}

/// An operation, by its number from 1.
pub(crate) fn operation_at(operations: &[Operation], number: usize) -> Option<&Operation>
    ensures { option_copied result ≡ numbered operations.now number }
{
    if number < 1 {
        return None;
    }
    operations.get(number - 1)
}

// What a call of the operation of a number of an object is a call of.
fn callee_of<'a>(shape: &'a UnitShape, object: &'a Object, operation: usize) -> Callee<'a>
    ensures { target_of result ≡ at_object operation shape.now.name object.now }
{
    match object {
        Object::Protected(protected) => match operation_of(protected, operation) {
            Some(operation) => Callee::Protected(shape, protected, operation),
            None => Callee::Nowhere,
        },
        Object::Suspension(suspension) => match suspension_operation(operation) {
            Some(operation) => Callee::Suspension(shape, suspension, operation),
            None => Callee::Nowhere,
        },
    }
}

// An operation of a protected object, by its number from 1.
fn operation_of(object: &ProtectedObject, number: usize) -> Option<&Operation>
    ensures { option_copied result ≡ numbered object.now.operations number }
{
    operation_at(object.operations(), number)
}

impl<'a> Units<'a> {
    /// These units, and this one behind them.
    pub fn new(loaded: &'a Catalogue, last: &'a UnitShape) -> Units<'a>
        ensures { result ≡ loaded.now ++ last.now ∷ [] }
    {
        Units { loaded, last }
    }

    /// The unit and the object of a number, 1 being the first object, or `None` where there is none.
    pub fn object(&self, number: usize) -> Option<(&'a UnitShape, &'a Object)>
        ensures { option_map (λ p. record { unit = p.0.now.name; object = p.1.now }) result ≡ place self.now number }
    {
        let before = self.loaded.objects();
        if number <= before {
            return self.loaded.object(number);
        }
        object_of(self.last, number - before - 1)
    }

    /// What a call is a call of, by the numbers of its object and of its operation, each from 1.
    pub fn callee(&self, object: usize, operation: usize) -> Callee<'a>
        ensures { target_of result ≡ target self.now object operation }
    {
        match self.object(object) {
            Some((shape, object)) => callee_of(shape, object, operation),
            None => Callee::Nowhere,
        }
    }
}
