//! A right that is taken away from a job that has called: once it is told of that, its next call is refused.

ghost use Rattle.std.specs.Prelude.{◌≡◌};
ghost use Rattle.rv_crew.specs.Teams.{IsOfTurn};
ghost use Rattle.thread_rows.specs.Hearing.{Hears, Tells};

use crate::crews::notes::{Hearer, Teller, ends};
use crate::crews::tasks::{read_valve, with_tasks};
use crate::role::Role;
use crate::stage::changes::change_list;
use crate::stage::hands::Hands;
use crate::stage::host::port_of;
use crate::stage::threads::{begin, close};
use crate::stage::units::FIRST;
use crate::stage::waiting::receive;
use crossbeam_channel::{Receiver, Sender, unbounded};
use rv_access::Change;
use rv_crew::crew::{Closed, Crew};
use rv_event::entry::Rule;
use rv_port::control::Control;
use rv_port::port::{Finished, Port};
use rv_port::reached::Reached;
use rv_value::Args;
use std::sync::Wait;
use std::thread::Threads;

/// Who reads the valve, and tells what came of it.
#[derive(Drop)]
struct Caller {
    replies: Sender<Reached>,
}

impl Caller {
    // Reads the valve.
    fn read<R: Wait>(&self, rt: &R, port: &mut Port)
        ensures { (port.new.turn ≡ port.old.turn) × (port.new.actor ≡ port.old.actor) }
    {
        let reached = read_valve(rt, port);
        let _ = self.replies.send(rt, reached);
    }
}

/// What the reader has that is told.
#[derive(Drop)]
pub struct ToldReader {
    notes: Hearer,
    caller: Caller,
}

// Reads once it is told a note.
fn read_once<R: Wait>(rt: &R, port: &mut Port, reader: &mut ToldReader)
    requires { Hears port.old.turn reader.old.notes }
    ensures port { (port.new.turn ≡ port.old.turn) × (port.new.actor ≡ port.old.actor) }
    ensures reader { Hears port.old.turn reader.new.notes }
{
    if let Some(note) = reader.notes.hear(rt) {
        port.told(note);
        reader.caller.read(rt, port);
    }
}

/// The job of a reader that is told twice.
pub fn read_told<R: Wait>(rt: &R, mut port: Port, mut reader: ToldReader) -> Finished
    requires { Hears port.turn reader.notes }
    ensures { (result.turn ≡ port.turn) × (result.actor ≡ port.actor) }
{
    read_once(rt, &mut port, &mut reader);
    read_once(rt, &mut port, &mut reader);
    port.finish(rt)
}

// Whether a call was let in, and gave 0.
fn is_granted(reached: &Reached) -> bool {
    let zero = Reached::Returned(Args::from_slice(&[0]));
    *reached == zero
}

// Whether a call was refused for want of a grant, by the list of version 2 or a later one.
fn is_denied(reached: &Reached) -> bool {
    match *reached {
        Reached::Refused(rule, _, version) => rule == Rule::Grant && version >= 2,
        _ => false,
    }
}

// Takes the grant away, and tells that.
fn revoke<R: Wait>(rt: &R, control: &mut Control, teller: &mut Teller)
    requires { Tells control.old.turn teller.old }
    ensures { control.new.turn ≡ control.old.turn }
{
    change_list(rt, control, Change::Remove(1));
    teller.tell(rt, control.note());
}

// Takes the grant away once a call was granted. Whether that was so, and the next call was refused.
fn is_seen<R: Wait>(
    rt: &R,
    control: &mut Control,
    teller: &mut Teller,
    replies: &Receiver<Reached>,
) -> Option<bool>
    requires { Tells control.old.turn teller.old }
    ensures { control.new.turn ≡ control.old.turn }
{
    let first = receive(rt, replies)?;
    revoke(rt, control, teller);
    let second = receive(rt, replies)?;
    Some(is_granted(&first) && is_denied(&second))
}

// Lets a job read on a port, and closes the crew once its second call was refused.
fn read<R: Threads + Wait + AllocGlobal>(
    rt: &R,
    hands: &Hands,
    port: Port,
    control: Control,
) -> Option<Closed>
    requires { port.turn ≡ control.turn }
{
    let mut control = control;
    let (mut teller, notes) = ends(rt, rt.alloc(), control.note())?;
    let (replies, come) = unbounded(rt.alloc()).ok()?;
    let mut crew = Crew::new(rt.alloc());
    let reader = ToldReader {
        notes,
        caller: Caller { replies },
    };
    if !begin(hands, &mut crew, port, Role::ToldReader(reader)) {
        return None;
    }
    if is_seen(rt, &mut control, &mut teller, &come)? {
        return close(rt, crew, control);
    }
    None
}

/// Plays the game. None where it isn't as it should be: then threads may be left.
pub fn play<R: Threads + Wait + AllocGlobal>(rt: &R, hands: &Hands) -> Option<Closed> {
    let mut control = with_tasks(rt, rt.alloc())?;
    let port = port_of(&mut control, FIRST)?;
    read(rt, hands, port, control)
}
