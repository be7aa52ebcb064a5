//! The threads of the plant: each runs a job that is boxed in `main`.

ghost use Rattle.std.specs.Coded.{codes};
ghost use Rattle.std.specs.Prelude.{◌≡◌};
ghost use Rattle.rv_behind.specs.contracts.event.Event as e;
ghost use Rattle.rv_crew.specs.Hiring.{hired};
ghost use Rattle.rv_crew.specs.contracts.job.NoDuty as n;
ghost use Rattle.rv_crew.specs.Teams.{IsOfTurn};

use crate::actuator::{Actuator, actuate};
use crate::panel::{Panel, serve};
use crate::sensor::{Sensor, sense};
use rv_crew::crew::Crew;
use rv_crew::hiring::HireFault;
use rv_crew::job::NoDuty;
use rv_port::port::{Finished, Port};
use std::sync::Wait;
use std::time::Clock;

/// What a thread does with its port.
#[derive(Drop)]
pub enum Work {
    Sensor(Sensor),
    Actuator(Actuator),
    Panel(Panel),
}

/// Does the work, and finishes the port.
pub fn act<R: Wait + Clock + Input + Print + AllocGlobal>(
    rt: &R,
    port: Port,
    work: Work,
) -> Finished
    ensures { (result.turn ≡ port.turn) × (result.actor ≡ port.actor) }
{
    match work {
        Work::Sensor(sensor) => sense(rt, port, sensor, rt.reader()),
        Work::Actuator(actuator) => actuate(rt, port, actuator),
        Work::Panel(panel) => serve(rt, port, panel),
    }
}

/// Starts threads by a closure of `main`, which boxes their jobs.
#[derive(Drop)]
pub struct Hands {
    /// The closure.
    pub begin: Box<dyn Fn(&mut Crew<NoDuty>, Port, Work) -> Result<(), HireFault> + Send>,
    pub ghost callable: { (crew : _) (port : _) (work : _) → pre begin crew port work },
    pub ghost begins: { (crew : _) (port : _) (work : _) (result : _) (after : _)
        → post begin crew port work result after → after.now ≡ hired crew.now port (record {}) result } by { Prim.hlevel (codes, e.the_row.coded, n.the_row.coded) },
}

impl Hands {
    // Calls the closure.
    fn begin(&self, crew: &mut Crew<NoDuty>, port: Port, work: Work) -> Result<(), HireFault>
        ensures { crew.new ≡ hired crew.old port (record {}) result }
    {
        (self.begin)(crew, port, work)
    }

    /// Starts a thread that does the work of a port's actor. The crew stays of the port's turn.
    #[tactic(auto, using(rv_crew::proofs::Turns::hired_of_turn))]
    pub fn start(&self, crew: &mut Crew<NoDuty>, port: Port, work: Work)
        requires { IsOfTurn port.turn crew.old }
        ensures { IsOfTurn port.turn crew.new }
    {
        let _hired = self.begin(crew, port, work);
    }
}
