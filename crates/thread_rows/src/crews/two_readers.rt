//! Two readers of one object at once: the body of the first is held open in its thread until the second, in a thread of its
//! own, was answered. The journal has the second's end before the first's.

ghost use Rattle.std.specs.Prelude.{◌≡◌};
ghost use Rattle.rv_crew.specs.Teams.{IsOfTurn};

use crate::crews::tasks::{read_valve, with_tasks};
use crate::role::Role;
use crate::stage::hands::Hands;
use crate::stage::host::port_of;
use crate::stage::threads::{begin, close};
use crate::stage::units::{FIRST, GET, VALVE};
use crate::stage::waiting::receive;
use crossbeam_channel::{Receiver, Sender, unbounded};
use rv_crew::crew::{Closed, Crew};
use rv_crew::job::NoDuty;
use rv_port::control::Control;
use rv_port::gate::Gate;
use rv_port::port::{Finished, Port};
use rv_value::Args;
use std::alloc::Global;
use std::sync::Wait;
use std::thread::Threads;

/// By what a reader lets the other one go on, and is let go on.
#[derive(Drop)]
pub struct Ends {
    goes: Sender<()>,
    comes: Receiver<()>,
}

impl<R: Wait> Gate<R> for Ends {
    // The body is open here: the other one goes on, until it was answered.
    fn pass(&self, rt: &R) {
        let _ = self.goes.send(rt, ());
        let _ = receive(rt, &self.comes);
    }
}

// Reads, with the body held open.
fn read_held<R: Wait>(rt: &R, port: &mut Port, ends: &Ends)
    ensures { (port.new.turn ≡ port.old.turn) × (port.new.actor ≡ port.old.actor) }
{
    let _ = port.call_gated(rt, VALVE, GET, Args::new(), ends);
}

/// The job of the reader whose body stays open.
pub fn read_open<R: Wait>(rt: &R, mut port: Port, ends: Ends) -> Finished
    ensures { (result.turn ≡ port.turn) × (result.actor ≡ port.actor) }
{
    read_held(rt, &mut port, &ends);
    port.finish(rt)
}

/// The job of the reader beside it. It finishes behind the other one, whose ends are gone then.
pub fn read_beside<R: Wait>(rt: &R, mut port: Port, ends: Ends) -> Finished
    ensures { (result.turn ≡ port.turn) × (result.actor ≡ port.actor) }
{
    let _ = receive(rt, &ends.comes);
    let _ = read_valve(rt, &mut port);
    let _ = ends.goes.send(rt, ());
    let _ = receive(rt, &ends.comes);
    port.finish(rt)
}

// The ends of both readers. None where there is no memory.
fn both_ends(alloc: Global) -> Option<(Ends, Ends)> {
    let (opens, opened) = unbounded(alloc).ok()?;
    let (answers, answered) = unbounded(alloc).ok()?;
    let open = Ends {
        goes: opens,
        comes: answered,
    };
    let beside = Ends {
        goes: answers,
        comes: opened,
    };
    Some((open, beside))
}

// Starts the threads of both readers. None where one gets none.
fn begin_both(
    hands: &Hands,
    alloc: Global,
    control: &mut Control,
    crew: &mut Crew<NoDuty>,
) -> Option<()>
    requires { IsOfTurn control.old.turn crew.old }
    ensures { IsOfTurn control.new.turn crew.new }
{
    let (open, beside) = both_ends(alloc)?;
    let first = port_of(control, FIRST)?;
    if !begin(hands, crew, first, Role::OpenReader(open)) {
        return None;
    }
    let second = port_of(control, FIRST + 1)?;
    if begin(hands, crew, second, Role::Beside(beside)) {
        return Some(());
    }
    None
}

/// Plays the game. None where there is no memory or no thread.
pub fn play<R: Threads + Wait + AllocGlobal>(rt: &R, hands: &Hands) -> Option<Closed> {
    let mut control = with_tasks(rt, rt.alloc())?;
    let mut crew = Crew::new(rt.alloc());
    begin_both(hands, rt.alloc(), &mut control, &mut crew)?;
    close(rt, crew, control)
}
