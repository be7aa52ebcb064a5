//! Bodies as a machine runs them.

ghost use Rattle.std.specs.Prelude.{◌≡◌, IfOk};
ghost use Rattle.rv_exec.specs.Bodies.{bodies_view};
ghost use Rattle.rv_flat.specs.FlatUnits.{flat_view};
ghost use Rattle.rv_machine.specs.Machines.{IsFor};
ghost use Rattle.rv_machine.specs.Needs.{IsNeed};

use rv_exec::bodies::Bodies;
use rv_flat::unit::FlatUnit;
use rv_machine::machine::Machine;
use rv_machine::needs::Need;
use rv_machine::stack::Stack;
use rv_machine::table::table;
use std::alloc::{AllocError, Global};

/// Bodies over one table, and how much memory any run of them takes.
pub struct Table {
    pub unit: FlatUnit,
    pub need: Need,
    ghost needed: { IsNeed unit need },
}

impl Drop for Table {
    // A function of its own: a derived one is written out wherever a table is let go, and proved there.
    fn drop(self) {
        let Table { unit: _, need: _ } = self;
    }
}

impl Table {
    /// The bodies of all units that are loaded, as a machine runs them. Err where memory was refused.
    pub fn of(alloc: Global, bodies: &Bodies) -> Result<Table, AllocError>
        ensures { IfOk result (λ t. flat_view t.unit ≡ bodies_view bodies.now) }
    {
        let unit = table(alloc, bodies)?;
        let need = Need::of(alloc, &unit)?;
        Ok(Table { unit, need })
    }

    /// An empty stack with all memory that any run of these bodies takes. Err where memory was refused.
    pub fn stack(&self, alloc: Global) -> Result<Stack, AllocError>
        ensures { IfOk result (IsFor self.now.unit) }
    {
        Machine::reserve(alloc, &self.unit, self.need)
    }
}
