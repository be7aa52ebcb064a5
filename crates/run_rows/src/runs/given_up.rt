//! A run whose ports are all given up, as where memory is refused for their threads.

ghost use Rattle.std.specs.Prelude.{◌≡◌};
ghost use Rattle.rv_crew.specs.Hiring.{hired};

use rv_crew::crew::Crew;
use rv_crew::hiring::{HireFault, give_up};
use rv_port::port::Port;
use rv_run::outputs::Outputs;
use rv_run::run::run;
use rv_staff::{Hires, Task, Work};
use std::alloc::Global;
use std::sync::Wait;
use std::thread::Threads;

// A line and two tasks are to have threads.
const SCRIPT: &[u8] = b"@unit\nwith Ada.Interrupts.Names;\npackage Plant is\n\
    protected Alarm is procedure Trip with Attach_Handler => Ada.Interrupts.Names.Int_4;\n\
    private Trips : Integer := 0; end Alarm;\ntask Pump;\ntask Pilot;\nend Plant;\n\
    package body Plant is\n\
    protected body Alarm is procedure Trip is begin Trips := Trips + 1; end Trip; end Alarm;\n\
    task body Pump is begin null; end Pump;\ntask body Pilot is begin null; end Pilot;\nend Plant;\n\
    @list\nallow * * *\n@run\nraise 4\nquit\n";

// What a run writes for it.
const DUE: &[u8] = b"nomemory\nnomemory\nnomemory\nno thread Int_4\nentries 3\n";

// Whom it names on standard error.
const LOST: &[u8] = b"lost Int_4\nlost Plant.Pump\nlost Plant.Pilot\n";

// Gives up each port.
#[derive(Drop)]
struct NoThreads {}

impl Hires for NoThreads {
    fn hire(&self, crew: &mut Crew<Task>, port: Port, work: Work) -> Result<(), HireFault>
        ensures { crew.new ≡ hired crew.old port work result }
    {
        let _ = work;
        give_up(crew, port)
    }
}

/// Whether a run names the actors whose ports are given up, in words.
pub fn named<T: Threads + Wait>(rt: &T, alloc: Global) -> &'static str {
    let mut reader = SCRIPT;
    let mut outputs = Outputs {
        writer: Vec::<u8>::new(alloc),
        errors: Vec::<u8>::new(alloc),
    };
    let outcome = run(rt, &NoThreads {}, alloc, &mut reader, &mut outputs);
    let written = outputs.writer.as_slice();
    if outcome.is_ok() && written == DUE && outputs.errors.as_slice() == LOST {
        "actors of ports that are given up: named"
    } else {
        "actors of ports that are given up: not named"
    }
}
