//! A plant: a tank that a unit text describes, with a sensor and a valve whose jobs are of Rattle.

ghost use Rattle.std.specs.Prelude.{◌≡◌, IfSome};
ghost use Rattle.rv_crew.specs.Teams.{IsOfTurn};

use crate::actuator::Actuator;
use crate::hands::{Hands, Work};
use crate::sensor::{Sensor, Wiring};
use crossbeam_channel::{Receiver, Sender, unbounded};
use rv_access::read_list;
use rv_crew::crew::{Closed, Crew};
use rv_crew::job::NoDuty;
use rv_crew::laws::joins_keep_the_turn;
use rv_port::control::Control;
use rv_port::port::Port;
use rv_shape::catalogue::Catalogue;
use rv_shape::reading::read_shape;
use rv_unit::compile;
use std::alloc::Global;
use std::io;
use std::sync::Wait;
use std::thread::Threads;

// How many entries the journal has room for.
const CAPACITY: usize = 10_000;

// How many callers a queue has room for.
const QUEUE: usize = 1;

// The tank. The valve opens above 80, and closes below 20; a level that moves nothing is taken at once.
const TANK: &str = "with Ada.Synchronous_Task_Control; use Ada.Synchronous_Task_Control;
package Plant is
   Taken : Suspension_Object;
   protected Tank with Priority => 20 is
      procedure Measured (Level : in Integer);
      entry Moved (Valve : out Integer);
   private
      Open : Integer range 0 .. 1 := 0;
      Changed : Boolean := False;
   end Tank;
end Plant;
package body Plant is
   protected body Tank is
      procedure Measured (Level : in Integer) is
      begin
         if Level > 80 and Open = 0 then
            Open := 1; Changed := True;
         elsif Level < 20 and Open = 1 then
            Open := 0; Changed := True;
         else
            Set_True (Taken);
         end if;
      end Measured;
      entry Moved (Valve : out Integer) when Changed is
      begin
         Valve := Open; Changed := False;
         Set_True (Taken);
      end Moved;
   end Tank;
end Plant;
";

// The tasks whose jobs are of Rattle: they have no text.
const DEVICES: &str = "unit Devices
task Sensor 15
task Valve 15
task Panel 15
";

const LIST: &str = "allow Devices Plant.Tank *
allow Devices Plant.Taken Suspend_Until_True
allow Plant Plant.Taken Set_True
";

// Loads the tank and its devices, and sets their list. None where one isn't taken.
fn load<R: Wait>(rt: &R, alloc: Global, control: &mut Control) -> Option<()> {
    let tank = compile(alloc, TANK, control.catalogue()).ok()?;
    control.load(rt, tank).ok()?;
    control
        .load_shape(rt, read_shape(alloc, DEVICES).ok()?)
        .ok()?;
    control.set_list(rt, read_list(alloc, LIST).ok()?).ok()?;
    Some(())
}

/// The port of a task, by its name.
pub fn port_of(control: &mut Control, task: &str) -> Option<Port>
    ensures given { IfSome result (λ port. port.turn ≡ control.new.turn) }
    ensures turn { control.new.turn ≡ control.old.turn }
{
    let actor = control.catalogue().find_task(task)?;
    control.port(actor as u64).ok()
}

// The ports of the sensor and of the valve, which this control hasn't given out yet.
fn ports_of(control: &mut Control) -> Option<(Port, Port)>
    ensures sensor { IfSome result (λ ports. ports.0.turn ≡ control.old.turn) }
    ensures valve { IfSome result (λ ports. ports.1.turn ≡ control.old.turn) }
    ensures turn { control.new.turn ≡ control.old.turn }
{
    let sensor = port_of(control, "Devices.Sensor")?;
    let valve = port_of(control, "Devices.Valve")?;
    Some((sensor, valve))
}

// What the sensor and the actuator call, by the names of the text.
fn wired(catalogue: &Catalogue) -> Option<(Wiring, Actuator)> {
    let object = catalogue.find_object("Plant.Tank")?;
    let wiring = Wiring {
        object,
        operation: catalogue.find_operation(object, "Measured")?,
        taken: catalogue.find_object("Plant.Taken")?,
    };
    let entry = catalogue.find_operation(object, "Moved")?;
    Some((wiring, Actuator { object, entry }))
}

// Starts the threads of both. The sensor tells by the channel that it has ended.
fn begin(
    hands: &Hands,
    crew: &mut Crew<NoDuty>,
    ports: (Port, Port),
    calls: (Wiring, Actuator),
    ended: Sender<u64>,
)
    requires crew { IsOfTurn ports.0.turn crew.old }
    requires valve { ports.1.turn ≡ ports.0.turn }
    ensures { IsOfTurn ports.0.turn crew.new }
{
    let (sensor, valve) = ports;
    let (wiring, actuator) = calls;
    hands.start(crew, valve, Work::Actuator(actuator));
    hands.start(crew, sensor, Work::Sensor(Sensor { wiring, ended }));
}

// Waits until the sensor has ended, and gives how many calls it made. Where it got no thread, its end of the channel is
// gone at once.
fn wait_for_end<R: Wait>(rt: &R, ends: Receiver<u64>) -> u64 {
    ends.recv(rt).unwrap_or(0)
}

/// Halts the host, so that who waits goes on and is stopped.
pub fn halt<R: Wait>(rt: &R, control: &mut Control)
    ensures { control.new.turn ≡ control.old.turn }
{
    let _ = control.halt(rt);
}

/// Joins the threads, and closes the host. None where there is no memory.
pub fn close<R: Threads + Wait>(rt: &R, mut crew: Crew<NoDuty>, control: Control) -> Option<Closed>
    requires { IsOfTurn control.turn crew }
{
    joins_keep_the_turn::<NoDuty>();
    match crew.join_all(rt) {
        Ok(()) => crew.close(rt, control).ok(),
        Err(_) => None,
    }
}

// Lets the devices work until the sensor has ended.
fn run<R: Threads + Wait + AllocGlobal>(
    rt: &R,
    hands: &Hands,
    mut control: Control,
    ports: (Port, Port),
    calls: (Wiring, Actuator),
    channel: (Sender<u64>, Receiver<u64>),
) -> Option<(u64, Closed)>
    requires sensor { ports.0.turn ≡ control.turn }
    requires valve { ports.1.turn ≡ control.turn }
{
    let mut crew = Crew::new(rt.alloc());
    let (ended, ends) = channel;
    begin(hands, &mut crew, ports, calls, ended);
    let sent = wait_for_end(rt, ends);
    halt(rt, &mut control);
    Some((sent, close(rt, crew, control)?))
}

/// The control of a new host with the tank and its devices.
pub fn loaded<R: Wait>(rt: &R, alloc: Global) -> Option<Control> {
    let mut control = Control::of_new(alloc, CAPACITY, QUEUE)?;
    load(rt, alloc, &mut control)?;
    Some(control)
}

// Makes the plant, and runs it.
fn played<R: Threads + Wait + AllocGlobal>(rt: &R, hands: &Hands) -> Option<(u64, Closed)> {
    let mut control = loaded(rt, rt.alloc())?;
    let calls = wired(control.catalogue())?;
    let ports = ports_of(&mut control)?;
    let channel = unbounded(rt.alloc()).ok()?;
    run(rt, hands, control, ports, calls, channel)
}

/// Plays the plant over standard input, a number a line, and tells what came of its threads.
pub fn play<R: Threads + Wait + AllocGlobal + Print>(rt: &R, hands: &Hands) -> io::Result<()> {
    match played(rt, hands) {
        Some((sent, closed)) => {
            let back = closed.finished.len();
            let lost = closed.lost.len();
            println!(rt; "{sent} numbers sent; {back} ports came back, {lost} were lost")
        }
        None => println!(rt; "no memory for the plant"),
    }
}
