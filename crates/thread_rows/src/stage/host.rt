//! The hosts that games begin on, and the ports of their actors.

ghost use Rattle.std.specs.Prelude.{◌≡◌, IfSome};

use rv_port::control::Control;
use rv_port::port::Port;
use std::alloc::Global;

/// How many entries a journal has room for.
pub const CAPACITY: usize = 65_536;

/// The control of a new host without units, whose queues have room for so many callers. None where there is no memory.
pub fn new_control(alloc: Global, queue: usize) -> Option<Control> {
    Control::of_new(alloc, CAPACITY, queue)
}

/// The port of an actor of a control.
pub fn port_of(control: &mut Control, actor: u64) -> Option<Port>
    ensures given { IfSome result (λ port. port.turn ≡ control.new.turn) }
    ensures turn { control.new.turn ≡ control.old.turn }
{
    control.port(actor).ok()
}
