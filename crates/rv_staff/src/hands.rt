//! The threads of a program: each runs a job that is boxed in its `main`.

ghost use Rattle.std.specs.Coded.{codes};
ghost use Rattle.std.specs.Prelude.{◌≡◌};
ghost use Rattle.rv_behind.specs.contracts.event.Event as e;
ghost use Rattle.rv_crew.specs.Hiring.{hired};
ghost use Rattle.rv_staff.specs.contracts.work.Work as w;

use crate::hires::Hires;
use crate::task::Task;
use crate::work::Work;
use rv_crew::crew::Crew;
use rv_crew::hiring::HireFault;
use rv_port::port::Port;

/// Starts threads by a closure of `main`, which boxes their jobs.
#[derive(Drop)]
pub struct Hands {
    /// The closure.
    pub begin: Box<dyn Fn(&mut Crew<Task>, Port, Work) -> Result<(), HireFault> + Send>,
    pub ghost callable: { (crew : _) (port : _) (work : _) → pre begin crew port work },
    pub ghost starts: { (crew : _) (port : _) (work : _) (result : _) (after : _)
        → post begin crew port work result after → after.now ≡ hired crew.now port work result } by { Prim.hlevel (codes, e.the_row.coded, w.the_row.coded) },
}

impl Hires for Hands {
    fn hire(&self, crew: &mut Crew<Task>, port: Port, work: Work) -> Result<(), HireFault>
        ensures { crew.new ≡ hired crew.old port work result }
    {
        (self.begin)(crew, port, work)
    }
}
