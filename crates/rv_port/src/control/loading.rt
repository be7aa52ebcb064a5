//! Loads of units, with their bodies and as shapes alone.

ghost use Rattle.std.specs.Prelude.{◌≡◌, IfErr, IfOk, IfSome, MatchResult, map};
ghost use Rattle.std.specs.Arc.{arc_value};
ghost use Rattle.rv_code.specs.BodyView.{unit_view};
ghost use Rattle.rv_fits.specs.Fits.{are_of};
ghost use Rattle.rv_exec.specs.Bodies.{held, shared_view, units_of};
ghost use Rattle.rv_turn.specs.Passes.{IsWorn};
ghost use Rattle.rv_port.specs.Controls.{Told, LoadTold, Brings, IsLoadFault, answer_or_worn, no_bodies_of};
ghost use Rattle.rv_behind.specs.Events.{catalogue_of};

use super::{Control, heard};
use crate::fault::LoadFault;
use rv_behind::event::Ask;
use rv_code::{Unit, UnitBodies};
use rv_event::entry::Answer;
use rv_exec::bodies::{Bodies, SharedUnit};
use rv_fits::{may_load, with_unit};
use rv_runs::ready::Ready;
use rv_shape::shape::UnitShape;
use rv_turn::Worn;
use std::alloc::{AllocError, Global};
use std::sync::{Arc, Wait};

// The bodies of a unit that is loaded as a shape alone.
fn no_bodies_of(alloc: Global, shape: &UnitShape) -> Result<SharedUnit, AllocError>
    ensures { IfOk result (λ u. shared_view u ≡ no_bodies_of shape.now) }
{
    SharedUnit::new(alloc, UnitBodies::of_shape(alloc, shape)?)
}

/// The bodies of units that were loaded before as shapes alone. Err where memory was refused.
pub(crate) fn no_bodies_of_all(
    alloc: Global,
    shapes: &[UnitShape],
) -> Result<Arc<Ready, Global>, AllocError>
    ensures { IfOk result (λ b. map unit_view (units_of (arc_value b).bodies) ≡ map no_bodies_of shapes.now) }
{
    let mut bodies = Bodies::new(alloc);
    for shape in shapes {
        let unit = no_bodies_of(alloc, shape)?;
        bodies = bodies.with(unit)?;
    }
    let ready = Ready::of(alloc, bodies)?;
    match Arc::new(alloc, ready) {
        Ok(ready) => Ok(ready),
        Err(_) => Err(AllocError),
    }
}

// The answer to a load, where an act was left.
fn or_worn(answer: Result<Answer, Worn>) -> Result<Answer, LoadFault>
    ensures { result ≡ answer_or_worn answer }
{
    match answer {
        Ok(answer) => Ok(answer),
        Err(_) => Err(LoadFault::Worn),
    }
}

impl Control {
    // Whether a unit's bodies may be loaded with its shape. None where the shape doesn't fit, or memory is refused.
    fn allows(&self, shape: &UnitShape, bodies: &UnitBodies) -> Option<bool>
        ensures { IfSome result (λ b. b ≡ are_of (catalogue_of self.now.seen) shape.now (unit_view bodies.now)) }
    {
        may_load(self.alloc, self.catalogue(), shape, bodies)
    }

    // A load of a unit with its own bodies; where there was no memory to look whether they fit, as one for which there is none.
    fn load_fitting<R: Wait>(
        &mut self,
        rt: &R,
        shape: UnitShape,
        bodies: UnitBodies,
        is_known: bool,
    ) -> Result<Answer, Worn>
        ensures { MatchResult
            result
            (λ r. LoadTold self.old shape (λ u. u ≡ bodies) r self.new)
            (λ _. IsWorn self.old self.new) }
    {
        if !is_known {
            return self.load_nothing(rt, shape);
        }
        let Ok(unit) = SharedUnit::new(self.alloc, bodies) else {
            return self.load_nothing(rt, shape);
        };
        self.load_shared(rt, shape, unit)
    }

    /// Loads a unit as a text gives it, compiled against `catalogue`: its shape and its bodies, which
    /// ports run from then on. Where it isn't accepted, it is dropped.
    ///
    /// # Errors
    /// `Unfit` where its bodies have another number of objects or tasks than the shape, or call what isn't there: then nothing is
    /// asked, and it is dropped. `load_shape` loads such a unit without bodies. `Worn` where no act is left.
    #[tactic(auto, using(crate::proofs::Controls::told_fault))]
    pub fn load<R: Wait>(&mut self, rt: &R, unit: Unit) -> Result<Answer, LoadFault>
        ensures ok { IfOk result (λ r. LoadTold self.old unit.shape (λ u. u ≡ unit.bodies) r self.new) }
        ensures fault { IfErr result (λ fault. IsLoadFault self.old unit.shape unit.bodies fault self.new) }
    {
        let Unit { shape, bodies } = unit;
        let fits = self.allows(&shape, &bodies);
        if let Some(is_whole) = fits {
            if !is_whole {
                return Err(LoadFault::Unfit);
            }
        }
        or_worn(self.load_fitting(rt, shape, bodies, fits.is_some()))
    }

    /// Loads a unit as `load` does. Bodies that don't fit are none of its own: then the shape is loaded alone.
    pub fn load_or_shape<R: Wait>(&mut self, rt: &R, unit: Unit) -> Result<Answer, Worn>
        ensures { MatchResult
            result
            (λ r. LoadTold self.old unit.shape (λ u. Brings (catalogue_of self.old.seen) unit.shape unit.bodies u) r self.new)
            (λ _. IsWorn self.old self.new) }
    {
        let Unit { shape, bodies } = unit;
        let Some(is_whole) = self.allows(&shape, &bodies) else {
            return self.load_nothing(rt, shape);
        };
        if !is_whole {
            return self.load_shape(rt, shape);
        }
        self.load_fitting(rt, shape, bodies, true)
    }

    /// Loads a unit as a shape alone: its bodies leave the scalars as they are, and exit by
    /// `raise Program_Error`. Where it isn't accepted, it is dropped.
    pub fn load_shape<R: Wait>(&mut self, rt: &R, shape: UnitShape) -> Result<Answer, Worn>
        ensures { MatchResult
            result
            (λ r. LoadTold self.old shape (λ u. unit_view u ≡ no_bodies_of shape) r self.new)
            (λ _. IsWorn self.old self.new) }
    {
        let Ok(unit) = no_bodies_of(self.alloc, &shape) else {
            return self.load_nothing(rt, shape);
        };
        self.load_shared(rt, shape, unit)
    }

    // A load for which there is no memory.
    fn load_nothing<R: Wait>(&mut self, rt: &R, shape: UnitShape) -> Result<Answer, Worn>
        ensures { MatchResult
            result
            (λ r. Told self.old (Ask.LoadWithoutMemory shape) r self.new)
            (λ _. IsWorn self.old self.new) }
    {
        self.act(rt, Ask::LoadWithoutMemory(shape))
    }

    // A load with bodies that others may hold.
    fn load_shared<R: Wait>(
        &mut self,
        rt: &R,
        shape: UnitShape,
        unit: SharedUnit,
    ) -> Result<Answer, Worn>
        ensures { MatchResult
            result
            (λ r. LoadTold self.old shape (λ u. u ≡ held unit) r self.new)
            (λ _. IsWorn self.old self.new) }
    {
        let Some(catalogue) = with_unit(self.alloc, &self.catalogue, &shape) else {
            return self.load_nothing(rt, shape);
        };
        let Ok(bodies) = self.stacks.put_by(rt, &unit, self.given.len()) else {
            return self.load_nothing(rt, shape);
        };
        let reply = self.pass.act(rt, Ask::Load(shape, unit))?;
        let answer = heard(&self.bell, &reply);
        if answer.recorded().is_none() {
            return Ok(answer);
        }
        self.catalogue = catalogue;
        self.stacks.keep(bodies);
        Ok(answer)
    }
}
