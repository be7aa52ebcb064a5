//! The start of a thread on a port, and what becomes of the port where none runs.

ghost use Rattle.std.specs.Prelude.{◌≡◌};
ghost use Rattle.rv_crew.specs.Hiring.{hired};

use crate::crew::{Crew, StartFault};
use crate::job::{Duty, Job};
use rv_port::port::Port;
use std::thread::Threads;

/// Why no thread runs on a port, which is gone then.
#[derive(Clone, Copy, Debug, PartialEq, Eq, Drop)]
pub enum HireFault {
    /// No thread can be started. The crew keeps the actor as lost.
    NoThread,
    /// Memory was refused. The port was given up, so the crew keeps the actor as lost.
    GivenUp,
    /// Memory was refused, and for the name of the lost actor too: nobody names it.
    NoMemory,
}

/// Gives up a port for whose thread memory was refused: its actor is lost.
pub fn give_up<D: Duty>(crew: &mut Crew<D>, port: Port) -> Result<(), HireFault>
    ensures { (duty : D) → crew.new ≡ hired crew.old port duty result }
{
    match crew.give_up(port) {
        Ok(()) => Err(HireFault::GivenUp),
        Err(_port) => Err(HireFault::NoMemory),
    }
}

/// Starts the thread of a job, which does this duty; where that fails, job and port are let go, and the actor is lost.
pub fn start<R: Threads, D: Duty>(
    rt: &R,
    crew: &mut Crew<D>,
    job: Job,
    duty: D,
    port: Port,
) -> Result<(), HireFault>
    requires port { port ≡ job.port.value }
    requires does { (f : _) → post job.run port f → D.does duty port f }
    ensures { crew.new ≡ hired crew.old port duty result }
{
    match crew.start(rt, job, duty, port) {
        Ok(()) => Ok(()),
        Err(StartFault::NoThread) => Err(HireFault::NoThread),
        Err(StartFault::NoMemory(_job, port)) => give_up(crew, port),
    }
}
