//! Laws of bodies that fit, each on a function that does nothing.

ghost use Rattle.std.specs.Prelude.{◌≡◌, ◌++◌, ◌∷◌, [], List, true};
ghost use Rattle.rv_shape.specs.Shape.{Shape};
ghost use Rattle.rv_code.specs.Bodies.{UnitBodies, without_bodies};
ghost use Rattle.rv_ranged.specs.Ranged.{ranges_fit};
ghost use Rattle.rv_fits.specs.Fits.{are_of, calls_fit, numbered_as, unit_calls_fit};

/// Calls that fit keep fitting when more units are loaded.
pub fn calls_keep_fitting()
    ensures { (old more : List Shape) (bodies : UnitBodies) →
        calls_fit old bodies ≡ true → calls_fit (old ++ more) bodies ≡ true }
{}

/// A unit that is a shape alone calls nothing.
pub fn shapes_alone_fit()
    ensures { (shapes : List Shape) (shape : Shape) → calls_fit shapes (without_bodies shape) ≡ true }
{}

/// Bodies that may be loaded with a shape are numbered as it is, call what is there, and keep to their ranges.
pub fn loaded_bodies_fit()
    ensures { (shapes : List Shape) (shape : Shape) (unit : UnitBodies) → are_of shapes shape unit ≡ true →
        (numbered_as shape unit ≡ true) × (unit_calls_fit shapes shape unit ≡ true)
        × (ranges_fit (shapes ++ shape ∷ []) shape.objects unit ≡ true) }
{}
