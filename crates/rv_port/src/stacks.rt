//! The memory of runs. A port is given with a stack of its own, which has all that any run of the loaded bodies takes. Where a load
//! brings bodies that take more, a greater stack is put by for each port before the load is asked. So no run takes memory.

ghost use Rattle.std.specs.Prelude.{IfSome};
ghost use Rattle.rv_machine.specs.Machines.{IsFor};

use rv_exec::bodies::{Bodies, SharedUnit};
use rv_machine::needs::Need;
use rv_machine::stack::Stack;
use rv_runs::spare::Spare;
use rv_runs::tabled::Table;
use std::alloc::{AllocError, Global};
use std::sync::{Arc, Mutex, Wait};

/// The stacks that are put by for the ports of a turn, the greatest last.
struct Pool {
    spares: Mutex<Vec<Spare>>,
}

impl Drop for Pool {
    // A function of its own, as that of a port.
    fn drop(self) {
        let Pool { spares: _ } = self;
    }
}

impl Pool {
    // Puts stacks by.
    fn put<R: Wait>(&self, rt: &R, mut more: Vec<Spare>) -> Result<(), AllocError> {
        let mut spares = self.spares.lock(rt);
        let spares = &mut *spares;
        spares.append(&mut more)
    }

    // The greatest stack, if there is one.
    fn take<R: Wait>(&self, rt: &R) -> Option<Spare> {
        let mut spares = self.spares.lock(rt);
        let spares = &mut *spares;
        spares.pop()
    }
}

/// The stack of a port's runs, and where a greater one is put by for it.
pub(crate) struct PortStack {
    spare: Spare,
    pool: Arc<Pool, Global>,
}

impl Drop for PortStack {
    // A function of its own, as that of a port.
    fn drop(self) {
        let PortStack { spare: _, pool: _ } = self;
    }
}

impl PortStack {
    /// The stack, with the memory that any run of these bodies takes: the port's own one, or one that was put by for it. None where
    /// neither has it.
    pub(crate) fn taken<R: Wait>(&mut self, rt: &R, table: &Table) -> Option<Stack>
        ensures { IfSome result (IsFor table.now.unit) }
    {
        if let Some(stack) = self.spare.fitting(table) {
            return Some(stack);
        }
        let Some(mut spare) = self.pool.take(rt) else {
            return None;
        };
        spare.fitting(table)
    }

    /// The stack of a run that has ended is kept for the next one.
    pub(crate) fn put_back(&mut self, stack: Stack) {
        self.spare.put_back(stack);
    }
}

/// What the control knows of the memory of runs: the bodies of all units that are loaded, and how much memory each port has.
pub(crate) struct Stacks {
    alloc: Global,
    pool: Arc<Pool, Global>,
    bodies: Bodies,
    need: Need,
}

impl Drop for Stacks {
    // A function of its own, as that of a control.
    fn drop(self) {
        let Stacks {
            alloc: _,
            pool: _,
            bodies: _,
            need: _,
        } = self;
    }
}

// The same bodies once more. Err where memory was refused.
fn copy_of(alloc: Global, bodies: &Bodies) -> Result<Bodies, AllocError> {
    let mut copy = Bodies::new(alloc);
    for unit in bodies.units() {
        copy = copy.with(unit.share()?)?;
    }
    Ok(copy)
}

// So many stacks with so much memory each. Err where memory was refused.
fn spares_of(alloc: Global, need: Need, count: usize) -> Result<Vec<Spare>, AllocError> {
    let mut spares = Vec::new(alloc);
    for _ in 0..count {
        spares.push(Spare::reserve(alloc, need)?)?;
    }
    Ok(spares)
}

// The greater of two numbers.
fn greater(a: usize, b: usize) -> usize {
    if a < b { b } else { a }
}

// Whether one need is no greater than another.
fn is_within(need: Need, other: Need) -> bool {
    need.frames <= other.frames && need.activations <= other.activations
}

// What serves both needs.
fn both(a: Need, b: Need) -> Need {
    Need {
        frames: greater(a.frames, b.frames),
        activations: greater(a.activations, b.activations),
    }
}

impl Stacks {
    /// What a control begins with, whose host has these bodies. Err where memory was refused.
    pub(crate) fn of(alloc: Global, bodies: &Bodies) -> Result<Stacks, AllocError> {
        let bodies = copy_of(alloc, bodies)?;
        let need = Table::of(alloc, &bodies)?.need;
        let pool = Pool {
            spares: Mutex::new(Vec::new(alloc)),
        };
        let Ok(pool) = Arc::new(alloc, pool) else {
            return Err(AllocError);
        };
        Ok(Stacks {
            alloc,
            pool,
            bodies,
            need,
        })
    }

    /// The stack of a new port. Err where memory was refused.
    pub(crate) fn given(&self) -> Result<PortStack, AllocError> {
        let spare = Spare::reserve(self.alloc, self.need)?;
        Ok(PortStack {
            spare,
            pool: Arc::try_clone(&self.pool)?,
        })
    }

    // Puts a stack by for each of so many ports, where those that they have are too small for a need.
    fn raise<R: Wait>(&mut self, rt: &R, need: Need, ports: usize) -> Result<(), AllocError> {
        if is_within(need, self.need) {
            return Ok(());
        }
        let need = both(need, self.need);
        self.pool.put(rt, spares_of(self.alloc, need, ports)?)?;
        self.need = need;
        Ok(())
    }

    /// The bodies with those of one more unit, for whose runs each of so many ports has memory then. Err where it was refused.
    pub(crate) fn put_by<R: Wait>(
        &mut self,
        rt: &R,
        unit: &SharedUnit,
        ports: usize,
    ) -> Result<Bodies, AllocError> {
        let bodies = self.bodies.with(unit.share()?)?;
        let need = Table::of(self.alloc, &bodies)?.need;
        self.raise(rt, need, ports)?;
        Ok(bodies)
    }

    /// These are the bodies of all units from now on.
    pub(crate) fn keep(&mut self, bodies: Bodies) {
        self.bodies = bodies;
    }
}
