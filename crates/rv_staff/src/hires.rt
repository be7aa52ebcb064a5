//! How threads are started: by whoever boxes their jobs.

ghost use Rattle.std.specs.Prelude.{◌≡◌};
ghost use Rattle.rv_crew.specs.Hiring.{hired};

use crate::task::Task;
use crate::work::Work;
use rv_crew::crew::Crew;
use rv_crew::hiring::HireFault;
use rv_port::port::Port;

/// Starts the threads of a crew. Their jobs are boxed where the runtime is, in `main`.
pub trait Hires {
    /// Starts a thread that does the work of a port's actor.
    fn hire(&self, crew: &mut Crew<Task>, port: Port, work: Work) -> Result<(), HireFault>
        ensures { crew.new ≡ hired crew.old port work result };
}
