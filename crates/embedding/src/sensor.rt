//! The job of a sensor: it reads numbers, and calls an operation with each.

ghost use Rattle.std.specs.Prelude.{◌≡◌, ◌∷◌, [], List};
ghost use Rattle.rv_crew.specs.Tasks.{goes_on};
ghost use Rattle.embedding.specs.Jobs.{Sample, Samples, Sampled};

use crossbeam_channel::Sender;
use rv_port::port::{Finished, Port};
use rv_port::reached::Reached;
use rv_value::Args;
use std::io::BufRead;
use std::sync::Wait;

/// What a sensor calls, by number.
#[derive(Clone, Copy, Drop)]
pub struct Wiring {
    /// The object that takes the numbers.
    pub object: usize,
    /// Its operation with one parameter.
    pub operation: usize,
    /// The suspension object that is set when a number was taken.
    pub taken: usize,
}

/// What a sensor has.
#[derive(Drop)]
pub struct Sensor {
    pub wiring: Wiring,
    /// Where it tells how many calls it made, once it ends.
    pub ended: Sender<u64>,
}

// Whether a sensor goes on after a call: also where it was refused, since the list may change.
fn goes_on(reached: &Reached) -> bool
    ensures { result ≡ goes_on reached.now }
{
    !matches!(reached, Reached::Stopped | Reached::Misuse)
}

// The values of a call with a number.
fn values_of(number: i64) -> Args
    ensures { result ≡ number ∷ [] }
{
    Args::from_slice(&[number])
}

// One call with a number; where it returned, the sensor waits until the number is taken.
fn send<R: Wait>(rt: &R, port: &mut Port, wiring: Wiring, number: i64) -> Reached
    ensures sample { Sample wiring number result port.old port.new }
    ensures stays { (port.new.turn ≡ port.old.turn) × (port.new.actor ≡ port.old.actor) }
{
    let reached = port.call(rt, wiring.object, wiring.operation, values_of(number));
    if let Reached::Returned(_) = reached {
        let _ = port.suspend(rt, wiring.taken);
    }
    reached
}

// The number that a line gives.
fn number_of(line: &str) -> Option<i64> {
    line.trim().parse::<i64>().ok()
}

// Sends the number of each line, up to the end of the input or to the first call that is stopped or doesn't fit. A line that is
// no number is passed over. Gives how many calls were made.
fn send_each<R: Wait + AllocGlobal, I: BufRead + Drop>(
    rt: &R,
    port: &mut Port,
    wiring: Wiring,
    reader: I,
) -> u64
    ensures samples { (samples : List Sampled) × Samples wiring samples port.old port.new }
    ensures stays { (port.new.turn ≡ port.old.turn) × (port.new.actor ≡ port.old.actor) }
{
    let mut calls = 0u64;
    for line in reader.lines(rt.alloc()) {
        let Ok(line) = line else {
            return calls;
        };
        let Some(number) = number_of(line.as_str()) else {
            continue;
        };
        calls = calls.saturating_add(1);
        let reached = send(rt, port, wiring, number);
        if !goes_on(&reached) {
            return calls;
        }
    }
    calls
}

/// The job of a sensor, over the input that it reads.
pub fn sense<R: Wait + AllocGlobal, I: BufRead + Drop>(
    rt: &R,
    mut port: Port,
    sensor: Sensor,
    reader: I,
) -> Finished
    ensures { (result.turn ≡ port.turn) × (result.actor ≡ port.actor) }
{
    let calls = send_each(rt, &mut port, sensor.wiring, reader);
    let finished = port.finish(rt);
    let _ = sensor.ended.send(rt, calls);
    finished
}
