//! The bodies that are loaded, over one table.

ghost use Rattle.std.specs.Prelude.{◌≡◌, IfOk};
ghost use Rattle.rv_exec.specs.Bodies.{bodies_view};
ghost use Rattle.rv_flat.specs.FlatUnits.{flat_view};
ghost use Rattle.rv_machine.specs.Needs.{IsNeed};

use rv_exec::bodies::Bodies;
use rv_flat::unit::FlatUnit;
use rv_machine::needs::Need;
use rv_machine::table::table;
use std::alloc::{AllocError, Global};

/// The bodies that are loaded over one table, and the memory that a run of them takes.
#[derive(Drop)]
pub struct Running {
    pub table: FlatUnit,
    pub need: Need,
    ghost needed: { IsNeed table need },
}

impl Running {
    /// The table of these bodies. Err where memory was refused.
    pub fn new(alloc: Global, bodies: &Bodies) -> Result<Running, AllocError>
        ensures { IfOk result (λ r. flat_view r.table ≡ bodies_view bodies.now) }
    {
        let table = table(alloc, bodies)?;
        let need = Need::of(alloc, &table)?;
        Ok(Running { table, need })
    }
}
