//! Who starts the threads of a crew: each runs a job that is boxed in `main`, in a role of the program.

ghost use Rattle.std.specs.Coded.{codes};
ghost use Rattle.std.specs.Prelude.{◌≡◌};
ghost use Rattle.rv_behind.specs.contracts.event.Event as e;
ghost use Rattle.rv_crew.specs.Hiring.{hired};
ghost use Rattle.rv_crew.specs.contracts.job.NoDuty as n;
ghost use Rattle.thread_rows.specs.Fitting.{Fits};

use crate::role::Role;
use rv_crew::crew::Crew;
use rv_crew::hiring::HireFault;
use rv_crew::job::NoDuty;
use rv_port::port::Port;

/// Starts threads by a closure of `main`, which boxes their jobs.
#[derive(Drop)]
pub struct Hands {
    /// The closure.
    pub begin: Box<dyn Fn(&mut Crew<NoDuty>, Port, Role) -> Result<(), HireFault> + Send>,
    pub ghost callable: { (crew : _) (port : _) (role : _) → Fits role port → pre begin crew port role },
    pub ghost starts: { (crew : _) (port : _) (role : _) (result : _) (after : _)
        → post begin crew port role result after → after.now ≡ hired crew.now port (record {}) result } by { Prim.hlevel (codes, e.the_row.coded, n.the_row.coded) },
}

impl Hands {
    /// Starts a thread in a role.
    pub fn start(&self, crew: &mut Crew<NoDuty>, port: Port, role: Role) -> Result<(), HireFault>
        requires { Fits role port }
        ensures { crew.new ≡ hired crew.old port (record {}) result }
    {
        (self.begin)(crew, port, role)
    }
}
