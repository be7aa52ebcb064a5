//! What jobs do: plain functions, each of which takes a port and gives it back done.

ghost use Rattle.std.specs.Iterator.{Drains, IsFinite};
ghost use Rattle.std.specs.Prelude.{◌≡◌, ℕ, List, length};
ghost use Rattle.rv_port.specs.Endings.{TextEnded};
ghost use Rattle.rv_port.specs.Following.{FollowsUnless};
ghost use Rattle.rv_port.specs.Ports.{Porting, pass_of, IsExplained};
ghost use Rattle.rv_event.specs.declared.entry.Exit.{Exit};
ghost use Rattle.rv_port.specs.Calls.{Quits, Stays};
ghost use Rattle.rv_port.specs.Texts.{LeavesText, TextRan};
ghost use Rattle.rv_crew.specs.Tasks.{Calls, Fires, goes_on};

use crate::notice::{Notice, notify};
use crossbeam_channel::Sender;
use rv_port::budget::Budget;
use rv_port::ended::Ending;
use rv_port::port::{Finished, Port};
use rv_port::reached::Reached;
use rv_value::Args;
use std::sync::Wait;

// Whether a device goes on after a call.
fn goes_on(reached: &Reached) -> bool
    ensures { result ≡ goes_on reached.now }
{
    !matches!(reached, Reached::Stopped | Reached::Misuse)
}

// Makes the calls of a device.
fn make_calls<R: Wait>(rt: &R, port: &mut Port, object: usize, operation: usize, calls: u32)
    ensures calls { Calls object operation calls port.old port.new }
    ensures stays { Stays (pass_of port.old) (pass_of port.new) }
{
    let mut left = calls;
    while left > 0 {
        left -= 1;
        let reached = port.call(rt, object, operation, Args::new());
        if !goes_on(&reached) {
            return;
        }
    }
}

/// The job of a task with a text: it runs the text to its end (9.2, 9.3), with so many requests of
/// its own, and finishes. What its actor asked is then what the text asks. It gives how the text ended.
pub fn text_task<R: Wait>(rt: &R, mut port: Port, budget: Budget) -> (Finished, Ending)
    ensures ran { (exit : Exit) × (done : Porting) × TextRan (pass_of port) port.refused budget exit (pass_of done) done.refused × LeavesText done.refused (pass_of done) (pass_of result.0) × (result.0.refused ≡ done.refused) }
    ensures ended { (exit : Exit) × (done : Porting) × TextEnded (pass_of port) port.refused budget exit result.1 (pass_of done) done.refused × LeavesText done.refused (pass_of done) (pass_of result.0) }
    ensures stays { Stays (pass_of port) (pass_of result.0) }
    ensures explained { IsExplained result.0 }
    ensures followed { FollowsUnless result.0.refused budget (pass_of port) (pass_of result.0) }
{
    let (_, ending) = port.run_text(rt, budget);
    (port.finish_text(rt), ending)
}

/// The same job, which notifies of how the text ended, where there is a channel for that.
pub fn noticed_text_task<R: Wait>(
    rt: &R,
    port: Port,
    budget: Budget,
    notices: &Option<Sender<Notice>>,
) -> Finished
    ensures ran { (exit : Exit) × (done : Porting) × TextRan (pass_of port) port.refused budget exit (pass_of done) done.refused × LeavesText done.refused (pass_of done) (pass_of result) × (result.refused ≡ done.refused) }
    ensures stays { Stays (pass_of port) (pass_of result) }
    ensures explained { IsExplained result }
    ensures followed { FollowsUnless result.refused budget (pass_of port) (pass_of result) }
{
    let actor = port.actor();
    let (finished, ending) = text_task(rt, port, budget);
    notify(rt, notices, actor, ending);
    finished
}

/// The job of a device: it calls an operation without parameters so many times, by the numbers of
/// its object and of the operation, and finishes. It goes on where a call is refused or raises an
/// exception, and ends where one is stopped or doesn't fit its actor.
pub fn device<R: Wait>(
    rt: &R,
    mut port: Port,
    object: usize,
    operation: usize,
    calls: u32,
) -> Finished
    ensures calls { (done : Porting) × Calls object operation calls port done × Quits (pass_of done) (pass_of result) × (result.refused ≡ done.refused) }
    ensures stays { Stays (pass_of port) (pass_of result) }
    ensures explained { IsExplained result }
{
    make_calls(rt, &mut port, object, operation, calls);
    port.finish(rt)
}

// Notifies of an exception that a handler raised, if it did.
fn notify_raised<R: Wait>(rt: &R, notices: &Option<Sender<Notice>>, actor: u64, reached: &Reached) {
    if let Reached::Raised(exception) = reached {
        let ending = Ending::Raised(*exception);
        notify(rt, notices, actor, ending);
    }
}

// Fires once for each number that comes, until no more can come.
fn fire_each<R: Wait, I: Iterator<Item = u8> + Drop>(
    rt: &R,
    port: &mut Port,
    numbers: I,
    notices: &Option<Sender<Notice>>,
)
    requires can { I.can_next numbers }
    requires ends { IsFinite (I.remaining numbers) }
    ensures fires { (received : List ℕ) × Drains I.next_gives numbers received × Fires (length received) port.old port.new }
    ensures stays { Stays (pass_of port.old) (pass_of port.new) }
{
    for _ in numbers {
        let actor = port.actor();
        let reached = port.fire(rt);
        notify_raised(rt, notices, actor, &reached);
    }
}

/// The job of a line: an interrupt for each line number that is received, as many as come, until no more can come (C.3): with a
/// channel, until it closes. It notifies of each whose handler raised an exception.
pub fn line_task<R: Wait, I: Iterator<Item = u8> + Drop>(
    rt: &R,
    mut port: Port,
    numbers: I,
    notices: Option<Sender<Notice>>,
) -> Finished
    requires can { I.can_next numbers }
    requires ends { IsFinite (I.remaining numbers) }
    ensures fires { (received : List ℕ) × (done : Porting) × Drains I.next_gives numbers received × Fires (length received) port done
        × Quits (pass_of done) (pass_of result) × (result.refused ≡ done.refused) }
    ensures stays { Stays (pass_of port) (pass_of result) }
    ensures explained { IsExplained result }
{
    fire_each(rt, &mut port, numbers, &notices);
    port.finish(rt)
}
