//! Worked rows of runs: plays each transcript of the folder `data` at a terminal of its own, on threads, of what no contract says.
#![tactic(auto)]

ghost use Rattle.std.specs.Prelude.{◌≡◌};
ghost use Rattle.rv_crew.specs.Hiring.{hired};
ghost use Rattle.rv_staff.specs.Working.{Works};

mod runs;

use rv_crew::crew::Crew;
use rv_crew::hiring::{HireFault, give_up, start};
use rv_crew::job::Job;
use rv_port::port::{Finished, Port};
use rv_staff::{Hands, Task, Work, perform};
use std::io;
use std::snapshot::Snapshot;

// The jobs of threads are boxed here, where the runtime is.
fn main(rt: HostRuntime) -> io::Result<()> {
    let begin = move |crew: &mut Crew<Task>, port: Port, work: Work| -> Result<(), HireFault>
        ensures { crew.new ≡ hired crew.old port work result }
    {
        let given = Snapshot::of(&port);
        let task = Task::of(&work);
        let boxed = Box::new(
            rt.alloc(),
            move |port: Port| -> Finished
                ensures works { Works work port result }
                ensures same { (result.turn ≡ port.turn) × (result.actor ≡ port.actor) }
            { perform(&rt, port, work) },
        );
        match boxed {
            Ok(run) => start(&rt, crew, Job { port: given, run }, task, port),
            Err(_) => give_up(crew, port),
        }
    };
    let hands = Hands {
        begin: Box::new(rt.alloc(), begin)?,
    };
    runs::play_all(&rt, &hands)
}
