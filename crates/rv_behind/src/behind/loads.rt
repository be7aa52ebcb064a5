//! Loads by the operator, on the host behind the turn.

ghost use Rattle.std.specs.Prelude.{◌≡◌, ◌++◌, ◌∷◌, [], true, IfOk, IfSome};
ghost use Rattle.std.specs.Arc.{arc_value};
ghost use Rattle.rv_exec.specs.Bodies.{units_of, held};
ghost use Rattle.rv_behind.specs.Events.{log_in};
ghost use Rattle.rv_behind.specs.Acting.{LoadedIf, Unloaded, fits_behind};

use super::Behind;
use rv_code::UnitBodies;
use rv_event::entry::Answer;
use rv_exec::bodies::{Bodies, SharedUnit};
use rv_fits::may_load;
use rv_runs::ready::Ready;
use rv_shape::shape::UnitShape;
use std::alloc::{AllocError, Global};
use std::sync::Arc;

// The bodies with those of one more unit, which others may hold.
fn grown(alloc: Global, bodies: &Bodies, unit: SharedUnit) -> Result<Arc<Ready, Global>, AllocError>
    ensures { IfOk result (λ b. units_of (arc_value b).bodies ≡ units_of bodies.now ++ held unit ∷ []) }
{
    let ready = Ready::of(alloc, bodies.with(unit)?)?;
    match Arc::new(alloc, ready) {
        Ok(ready) => Ok(ready),
        Err(_) => Err(AllocError),
    }
}

impl Behind {
    // Whether a unit's bodies are found to be numbered as its shape is, their calls to fit the units that are loaded, with its
    // own, and their values to lie in their ranges.
    fn are_fitting(&self, shape: &UnitShape, unit: &UnitBodies) -> bool
        ensures { result ≡ true → fits_behind (log_in self.now.host.value (arc_value self.now.bodies).bodies) shape.now unit.now ≡ true }
    {
        let host = &*self.host;
        host.replays();
        match may_load(self.alloc, host.catalogue(), shape, unit) {
            Some(may) => may,
            None => false,
        }
    }

    // The bodies with those of one more unit, which fit. None where they don't, or memory is refused.
    fn grown_by(&self, shape: &UnitShape, unit: SharedUnit) -> Option<Arc<Ready, Global>>
        ensures units { IfSome result (λ b. units_of (arc_value b).bodies ≡ units_of (arc_value self.now.bodies).bodies ++ held unit ∷ []) }
        ensures fits { IfSome result (λ _. fits_behind (log_in self.now.host.value (arc_value self.now.bodies).bodies) shape.now (held unit) ≡ true) }
    {
        if !self.are_fitting(shape, unit.bodies()) {
            return None;
        }
        match grown(self.alloc, &self.bodies.bodies, unit) {
            Ok(bodies) => Some(bodies),
            Err(_) => None,
        }
    }

    /// A load by the operator. The memory of its bodies is taken before its entry is added. A unit whose bodies don't fit
    /// isn't accepted.
    pub(crate) fn load(&mut self, shape: &UnitShape, unit: SharedUnit) -> Answer
        ensures does { LoadedIf (fits_behind (log_in self.old.host.value (arc_value self.old.bodies).bodies) shape.now (held unit)) self.old.host.value.limits (log_in self.old.host.value (arc_value self.old.bodies).bodies) shape.now (held unit) result (log_in self.new.host.value (arc_value self.new.bodies).bodies) }
        ensures about { self.new.host.value.limits ≡ self.old.host.value.limits }
    {
        self.host.replays();
        let Some(bodies) = self.grown_by(shape, unit) else {
            return self.load_without_memory(shape);
        };
        let answer = self.host.load(shape);
        if answer.recorded().is_none() {
            return answer;
        }
        self.bodies = bodies;
        answer
    }

    /// A load by the operator, for which there is no memory.
    pub(crate) fn load_without_memory(&mut self, shape: &UnitShape) -> Answer
        ensures does { Unloaded self.old.host.value.limits (log_in self.old.host.value (arc_value self.old.bodies).bodies) shape.now result (log_in self.new.host.value (arc_value self.new.bodies).bodies) }
        ensures about { self.new.host.value.limits ≡ self.old.host.value.limits }
    {
        let host = &*self.host;
        host.replays();
        let due = host.due_load(shape);
        if due.recorded().is_some() {
            return Answer::OutOfMemory;
        }
        due
    }
}
