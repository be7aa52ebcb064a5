//! What the threads of a run do.

ghost use Rattle.std.specs.Prelude.{◌≡◌};
ghost use Rattle.rv_staff.specs.Working.{LinesWork, Works};

use crossbeam_channel::{Receiver, Sender};
use rv_actor::{Desk, actor_task};
use rv_crew::notice::Notice;
use rv_crew::tasks::{device, line_task, noticed_text_task};
use rv_pipes::Pipes;
use rv_port::budget::Budget;
use rv_port::port::{Finished, Port};
use rv_shape::catalogue::Catalogue;
use std::alloc::Global;
use std::io::BufReader;
use std::sync::Wait;
use std::time::Clock;

/// What a thread does with the port of its actor.
#[derive(Drop)]
pub enum Work {
    /// It runs the text of a task, which may make so many requests of its own, and notifies of how that ended.
    Text(Budget, Option<Sender<Notice>>),
    /// It calls an operation, by the numbers of its object and of the operation, so many times.
    Device(usize, usize, u32),
    /// It makes an interrupt for each number that is received, and notifies of each whose handler raised an exception.
    Line(Receiver<u8>, Option<Sender<Notice>>),
    /// It performs what another process asks by pipes, with the names of a catalogue.
    Lines(Global, Pipes, Catalogue),
}

// Performs what comes by pipes, a line after another, and finishes the port.
fn serve_pipes<R: Wait>(
    rt: &R,
    alloc: Global,
    port: Port,
    pipes: &Pipes,
    names: &Catalogue,
) -> Finished
    ensures serves { LinesWork names.now port result }
    ensures turn { result.turn ≡ port.turn }
    ensures actor { result.actor ≡ port.actor }
{
    let Ok(reader) = BufReader::new(alloc, pipes.requests(rt)) else {
        return port.finish(rt);
    };
    let mut desk = Desk::new(alloc, reader, pipes.replies(rt));
    let (finished, _) = actor_task(rt, port, names, &mut desk);
    finished
}

// The same; then what the process was told last is waited for until it is written, but not for long.
fn serve_lines<R: Wait + Clock>(
    rt: &R,
    alloc: Global,
    port: Port,
    pipes: Pipes,
    names: &Catalogue,
) -> Finished
    ensures serves { LinesWork names.now port result }
    ensures turn { result.turn ≡ port.turn }
    ensures actor { result.actor ≡ port.actor }
{
    let finished = serve_pipes(rt, alloc, port, &pipes, names);
    pipes.leave(rt);
    finished
}

/// Does the work of an actor, and finishes its port.
pub fn perform<R: Wait + Clock>(rt: &R, port: Port, work: Work) -> Finished
    ensures works { Works work port result }
    ensures turn { result.turn ≡ port.turn }
    ensures actor { result.actor ≡ port.actor }
{
    match work {
        Work::Text(budget, notices) => noticed_text_task(rt, port, budget, &notices),
        Work::Device(object, operation, calls) => device(rt, port, object, operation, calls),
        Work::Line(raised, notices) => line_task(rt, port, raised.into_iter(rt), notices),
        Work::Lines(alloc, pipes, names) => serve_lines(rt, alloc, port, pipes, &names),
    }
}
