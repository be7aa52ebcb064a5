//! A call for which the journal has no room: it waits, and its body starts once entries are given up. Entries were given up before the port was
//! given, so it knows that the journal lasts.

ghost use Rattle.std.specs.Prelude.{◌≡◌};

use crate::crews::tasks::{load_tasks, read_valve};
use crate::role::Role;
use crate::stage::hands::Hands;
use crate::stage::host::port_of;
use crate::stage::threads::{begin, close};
use crate::stage::units::FIRST;
use rv_crew::crew::{Closed, Crew};
use rv_event::entry::Answer;
use rv_port::control::Control;
use rv_port::port::{Finished, Port};
use std::sync::Wait;
use std::thread;
use std::thread::Threads;

// How many entries the journal has room for.
const CAPACITY: usize = 16;

// How many entries both units and the list are.
const LOADED: usize = 3;

// How often others are let run before room is made.
const PAUSES: usize = 1000;

/// The job of the reader: it reads once.
pub fn read_one<R: Wait>(rt: &R, mut port: Port) -> Finished
    ensures { (result.turn ≡ port.turn) × (result.actor ≡ port.actor) }
{
    let _ = read_valve(rt, &mut port);
    port.finish(rt)
}

// A tick. Whether there was room for it.
fn tick<R: Wait>(rt: &R, control: &mut Control) -> bool
    ensures { control.new.turn ≡ control.old.turn }
{
    matches!(control.tick(rt, 1), Ok(Answer::Accepted(_)))
}

// Gives up the first so many entries.
fn archive<R: Wait>(rt: &R, control: &mut Control, number: usize)
    ensures { control.new.turn ≡ control.old.turn }
{
    let _ = control.archive(rt, number);
}

// Fills the journal with ticks. Gives how many entries there are then, where there were so many.
fn fill<R: Wait>(rt: &R, control: &mut Control, before: usize) -> usize
    ensures { control.new.turn ≡ control.old.turn }
{
    let mut entries = before;
    for _ in 0..CAPACITY {
        if !tick(rt, control) {
            return entries;
        }
        entries = entries.saturating_add(1);
    }
    entries
}

// Lets a job read on a port of a full host, and then gives all entries up.
fn read<R: Threads + Wait + AllocGlobal>(
    rt: &R,
    hands: &Hands,
    port: Port,
    control: Control,
    entries: usize,
) -> Option<Closed>
    requires { port.turn ≡ control.turn }
{
    let mut control = control;
    let mut crew = Crew::new(rt.alloc());
    if !begin(hands, &mut crew, port, Role::Reader) {
        return None;
    }
    for _ in 0..PAUSES {
        thread::yield_now();
    }
    archive(rt, &mut control, entries);
    close(rt, crew, control)
}

/// Plays the game. None where there is no memory or no thread.
pub fn play<R: Threads + Wait + AllocGlobal>(rt: &R, hands: &Hands) -> Option<Closed> {
    let mut control = Control::of_new(rt.alloc(), CAPACITY, 1)?;
    load_tasks(rt, rt.alloc(), &mut control)?;
    archive(rt, &mut control, LOADED);
    let port = port_of(&mut control, FIRST)?;
    let entries = fill(rt, &mut control, LOADED + 1);
    read(rt, hands, port, control, entries)
}
