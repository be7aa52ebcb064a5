//! Games of a crew on threads, of what no contract says. More games stand beside the gate, in `bench/thread_games`; the rows of
//! whole runs are those of `run_rows`.
#![tactic(auto)]

ghost use Rattle.std.specs.Prelude.{◌≡◌};
ghost use Rattle.rv_crew.specs.Hiring.{hired};
ghost use Rattle.thread_rows.specs.Fitting.{Fits};

mod crews;
mod role;
mod stage;

use role::{Role, act};
use rv_crew::crew::Crew;
use rv_crew::hiring::{HireFault, give_up, start};
use rv_crew::job::{Job, NoDuty};
use rv_port::port::{Finished, Port};
use stage::hands::Hands;
use std::io;
use std::snapshot::Snapshot;

// The jobs of threads are boxed here, where the runtime is.
fn main(rt: HostRuntime) -> io::Result<()> {
    let begin = move |crew: &mut Crew<NoDuty>, port: Port, role: Role| -> Result<(), HireFault>
        requires { Fits role port }
        ensures { crew.new ≡ hired crew.old port (record {}) result }
    {
        let given = Snapshot::of(&port);
        let boxed = Box::new(
            rt.alloc(),
            move |port: Port| -> Finished
                requires { Fits role port }
                ensures { (result.turn ≡ port.turn) × (result.actor ≡ port.actor) }
            { act(&rt, port, role) },
        );
        match boxed {
            Ok(run) => start(&rt, crew, Job { port: given, run }, NoDuty, port),
            Err(_) => give_up(crew, port),
        }
    };
    let hands = Hands {
        begin: Box::new(rt.alloc(), begin)?,
    };
    crews::play_all(&rt, &hands)
}
