//! Bodies, ready to run.

ghost use Rattle.std.specs.Prelude.{◌≡◌, IfOk};
ghost use Rattle.rv_exec.specs.Bodies.{bodies_view};
ghost use Rattle.rv_flat.specs.FlatUnits.{flat_view};

use crate::tabled::Table;
use rv_exec::bodies::Bodies;
use std::alloc::{AllocError, Global};

/// The bodies of all units that are loaded, as their texts give them and as a machine runs them.
pub struct Ready {
    pub bodies: Bodies,
    pub table: Table,
    ghost tabled: { ∥ flat_view table.unit ≡ bodies_view bodies ∥₁ },
}

impl Drop for Ready {
    // A function of its own: a derived one is written out wherever bodies are let go, and proved there.
    fn drop(self) {
        let Ready {
            bodies: _,
            table: _,
        } = self;
    }
}

impl Ready {
    /// These bodies. Err where memory was refused.
    pub fn of(alloc: Global, bodies: Bodies) -> Result<Ready, AllocError>
        ensures { IfOk result (λ ready. ready.bodies ≡ bodies) }
    {
        let table = Table::of(alloc, &bodies)?;
        Ok(Ready { bodies, table })
    }
}
