//! The texts of what was loaded.

ghost use Rattle.std.specs.Prelude.{◌≡◌, IfOk, OnOk};
ghost use Rattle.rv_code.specs.BodyView.{unit_view};
ghost use Rattle.rv_exec.specs.Bodies.{bodies_view, no_bodies, with_unit};
ghost use Rattle.rv_flat.specs.FlatUnits.{flat_view};
ghost use Rattle.rv_ends.specs.Afoot.{open_view};
ghost use Rattle.rv_ends.specs.Courses.{IsCourse};
ghost use Rattle.rv_ends.specs.Texts.{AreTabled};

use crate::afoot::OpenBody;
use crate::meaning::{Course, course_of};
use rv_code::UnitBodies;
use rv_event::entry::Request;
use rv_exec::bodies::Bodies;
use rv_runs::spare::Spare;
use rv_runs::tabled::Table;
use rv_shape::catalogue::Catalogue;
use std::alloc::{AllocError, Global};

/// The bodies of the units that were loaded; from the first end behind a load on, as a machine runs them too.
#[derive(Drop)]
pub struct Texts {
    pub alloc: Global,
    pub bodies: Bodies,
    pub table: Option<Table>,
    pub spare: Spare,
}

impl Texts {
    /// Before the first load.
    pub fn new(alloc: Global) -> Texts
        ensures texts { bodies_view result.bodies ≡ no_bodies }
        ensures tabled { AreTabled result }
    {
        Texts {
            alloc,
            bodies: Bodies::new(alloc),
            table: None,
            spare: Spare::new(alloc),
        }
    }

    /// Puts the bodies of a unit that was loaded behind the others. Err where memory was refused.
    pub fn add(&mut self, bodies: UnitBodies) -> Result<(), AllocError>
        ensures tabled { AreTabled self.new }
        ensures texts { OnOk result (bodies_view self.new.bodies ≡ with_unit (unit_view bodies) (bodies_view self.old.bodies)) }
    {
        self.table = None;
        self.bodies.add(bodies)
    }

    // The table is taken out; where there is none yet, it is made. Err where memory was refused.
    fn taken(&mut self) -> Result<Table, AllocError>
        ensures table { AreTabled self.old → IfOk result (λ t. flat_view t.unit ≡ bodies_view self.old.bodies) }
        ensures none { AreTabled self.new }
        ensures same { self.new.bodies ≡ self.old.bodies }
    {
        if let Some(there) = self.table.take() {
            return Ok(there);
        }
        Table::of(self.alloc, &self.bodies)
    }

    /// What a body comes to, by its text and what was recorded of it, where this end was recorded. Err where memory was
    /// refused.
    pub fn course(
        &mut self,
        catalogue: &Catalogue,
        body: &OpenBody,
        end: &Request,
    ) -> Result<Course, AllocError>
        ensures course { AreTabled self.old → IfOk result (λ course. IsCourse (bodies_view self.old.bodies) catalogue.now (open_view body.now) end.now course) }
        ensures tabled { AreTabled self.old → AreTabled self.new }
        ensures same { self.new.bodies ≡ self.old.bodies }
    {
        let there = self.taken()?;
        let course = course_of(&mut self.spare, &there, catalogue, body, end);
        self.table = Some(there);
        course
    }
}
