//! A unit that a text gives, or a shape.

ghost use Rattle.std.specs.Prelude.{◌≡◌, IfOk};
ghost use Rattle.rv_code.specs.Bodies.{without_bodies};
ghost use Rattle.rv_code.specs.BodyView.{unit_view};

use crate::body::UnitBodies;
use rv_shape::shape::UnitShape;
use std::alloc::{AllocError, Global};

/// A unit that a text gives (10.1): its shape, as the host knows it, and the compiled bodies of its objects and tasks, in
/// the order of their numbers.
#[derive(Drop)]
pub struct Unit {
    pub shape: UnitShape,
    pub bodies: UnitBodies,
}

impl Unit {
    /// A unit that is a shape alone: none of its operations and tasks has a body. Err where memory was refused.
    pub fn of_shape(alloc: Global, shape: UnitShape) -> Result<Unit, AllocError>
        ensures shape { IfOk result (λ unit. unit.shape ≡ shape) }
        ensures bodies { IfOk result (λ unit. unit_view unit.bodies ≡ without_bodies shape) }
    {
        let bodies = UnitBodies::of_shape(alloc, &shape)?;
        Ok(Unit { shape, bodies })
    }
}
