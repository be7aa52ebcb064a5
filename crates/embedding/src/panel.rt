//! A panel that belongs to another process: its task asks by lines, one request each, and is told by lines. A thread of the crew
//! has the task; the program's own carries the lines, as one that reads and writes two pipes would.

ghost use Rattle.std.specs.Prelude.{◌≡◌};

use crate::hands::{Hands, Work};
use crate::plant::{close, halt, loaded, port_of};
use rv_actor::{Desk, actor_task};
use rv_crew::crew::{Closed, Crew};
use rv_pipes::{Pipes, ends};
use rv_port::control::Control;
use rv_port::port::{Finished, Port};
use rv_shape::catalogue::Catalogue;
use std::alloc::Global;
use std::io;
use std::io::BufReader;
use std::sync::Wait;
use std::thread::Threads;
use std::time::Clock;

// What the process of the panel writes. The list doesn't grant its task to set what the tank sets.
const REQUESTS: &str = "call Plant.Tank Measured 90
call Plant.Tank Moved
call Plant.Tank Drained
call Plant.Taken Set_True
clock
tick 1
finish
";

/// What the thread of the panel's task has: where requests come from, and the names in them.
#[derive(Drop)]
pub struct Panel {
    alloc: Global,
    pipes: Pipes,
    names: Catalogue,
}

// The task serves requests, up to their end, and finishes.
fn serve_lines<R: Wait>(rt: &R, port: Port, panel: &Panel) -> Finished
    ensures { (result.turn ≡ port.turn) × (result.actor ≡ port.actor) }
{
    let Ok(reader) = BufReader::new(panel.alloc, panel.pipes.requests(rt)) else {
        return port.finish(rt);
    };
    let mut desk = Desk::new(panel.alloc, reader, panel.pipes.replies(rt));
    let (finished, _) = actor_task(rt, port, &panel.names, &mut desk);
    finished
}

/// The job of the panel's task.
pub fn serve<R: Wait + Clock>(rt: &R, port: Port, panel: Panel) -> Finished
    ensures { (result.turn ≡ port.turn) × (result.actor ≡ port.actor) }
{
    let finished = serve_lines(rt, port, &panel);
    panel.pipes.leave(rt);
    finished
}

// Has a thread serve the requests of the panel, which are carried to it, and prints what each came to. None where there is no
// memory.
fn played<R: Threads + Wait + AllocGlobal + Print>(
    rt: &R,
    hands: &Hands,
    mut control: Control,
) -> Option<Closed> {
    let alloc = rt.alloc();
    let port = port_of(&mut control, "Devices.Panel")?;
    let names = control.catalogue().copy(alloc).ok()?;
    let (pipes, carrier, _ender) = ends(rt, alloc).ok()?;
    let mut crew = Crew::new(alloc);
    let panel = Panel {
        alloc,
        pipes,
        names,
    };
    hands.start(&mut crew, port, Work::Panel(panel));
    let _ = carrier.carry(rt, REQUESTS.as_bytes(), &mut io::writer(rt));
    halt(rt, &mut control);
    close(rt, crew, control)
}

/// Serves the requests of a panel, and prints what each came to.
pub fn play<R: Threads + Wait + AllocGlobal + Print>(rt: &R, hands: &Hands) -> io::Result<()> {
    let alloc = rt.alloc();
    let closed = match loaded(rt, alloc) {
        Some(control) => played(rt, hands, control),
        None => None,
    };
    match closed {
        Some(_) => Ok(()),
        None => println!(rt; "no memory for the panel"),
    }
}
