//! How a maker embeds the libraries: a caller of a plain host, and a plant with a sensor and a valve on threads of a crew.
#![tactic(auto)]

ghost use Rattle.std.specs.Prelude.{◌≡◌};
ghost use Rattle.rv_crew.specs.Hiring.{hired};

mod actuator;
mod hands;
mod host_caller;
mod panel;
mod plant;
mod sensor;

use hands::{Hands, Work, act};
use rv_crew::crew::Crew;
use rv_crew::hiring::{HireFault, give_up, start};
use rv_crew::job::{Job, NoDuty};
use rv_port::port::{Finished, Port};
use std::io;
use std::snapshot::Snapshot;

// The jobs of threads are boxed here, where the runtime is.
fn main(rt: HostRuntime) -> io::Result<()> {
    let begin = move |crew: &mut Crew<NoDuty>, port: Port, work: Work| -> Result<(), HireFault>
        ensures { crew.new ≡ hired crew.old port (record {}) result }
    {
        let given = Snapshot::of(&port);
        let boxed = Box::new(
            rt.alloc(),
            move |port: Port| -> Finished
                ensures { (result.turn ≡ port.turn) × (result.actor ≡ port.actor) }
            { act(&rt, port, work) },
        );
        match boxed {
            Ok(run) => start(&rt, crew, Job { port: given, run }, NoDuty, port),
            Err(_) => give_up(crew, port),
        }
    };
    let hands = Hands {
        begin: Box::new(rt.alloc(), begin)?,
    };
    println!(rt; "# A plain host")?;
    host_caller::play(&rt)?;
    println!(rt; "# A plant on threads")?;
    plant::play(&rt, &hands)?;
    println!(rt; "# A panel of another process")?;
    panel::play(&rt, &hands)
}
