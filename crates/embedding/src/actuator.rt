//! The job of an actuator: it waits in an entry until that opens, and prints what it gives.

ghost use Rattle.std.specs.Prelude.{◌≡◌, ℕ, []};
ghost use Rattle.rv_event.specs.declared.entry.Request.TheVariants.{Call};
ghost use Rattle.embedding.specs.Jobs.{Asks};

use rv_port::control::PORT_ACTS;
use rv_port::port::{Finished, Port};
use rv_port::reached::Reached;
use rv_value::Args;
use std::sync::Wait;

/// What an actuator has.
#[derive(Clone, Copy, Drop)]
pub struct Actuator {
    /// The object whose entry it waits in, by number.
    pub object: usize,
    /// The entry, with one `out` parameter.
    pub entry: usize,
}

// Calls the entry until a call gives nothing, and prints what each gives before the next. Each takes an act at least.
fn wait_each<R: Wait + Print>(rt: &R, port: &mut Port, actuator: Actuator)
    ensures asks { (count : ℕ) × Asks (Call actuator.object actuator.entry []) count port.old port.new }
    ensures stays { (port.new.turn ≡ port.old.turn) × (port.new.actor ≡ port.old.actor) }
{
    for _ in 0..PORT_ACTS {
        let reached = port.call(rt, actuator.object, actuator.entry, Args::new());
        let Reached::Returned(values) = reached else {
            return;
        };
        show(rt, &values);
    }
}

// Prints what the entry gave. A failed write stops no actuator.
fn show<R: Print>(rt: &R, values: &Args) {
    if let Some(value) = values.get(0) {
        let _ = println!(rt; "valve {value}");
    }
}

/// The job of an actuator: it ends where a call is refused or stopped.
pub fn actuate<R: Wait + Print>(rt: &R, mut port: Port, actuator: Actuator) -> Finished
    ensures { (result.turn ≡ port.turn) × (result.actor ≡ port.actor) }
{
    wait_each(rt, &mut port, actuator);
    port.finish(rt)
}
