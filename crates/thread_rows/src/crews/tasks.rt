//! What both games are played on: the plant, and two tasks beside it, who may call everything, and read its valve.

ghost use Rattle.std.specs.Prelude.{◌≡◌};

use crate::stage::host::new_control;
use crate::stage::units::{GET, VALVE, load_text, set_list};
use row_files::texts::{NAV, PLANT};
use rv_port::control::Control;
use rv_port::port::Port;
use rv_port::reached::Reached;
use rv_value::Args;
use std::alloc::Global;
use std::sync::Wait;

/// Loads both units, and sets the list: three entries.
pub fn load_tasks<R: Wait>(rt: &R, alloc: Global, control: &mut Control) -> Option<()> {
    load_text(rt, alloc, control, PLANT)?;
    load_text(rt, alloc, control, NAV)?;
    set_list(rt, alloc, control, "allow * * *\n")
}

/// The control of a host with both units loaded and the list set.
pub fn with_tasks<R: Wait>(rt: &R, alloc: Global) -> Option<Control> {
    let mut control = new_control(alloc, 1)?;
    load_tasks(rt, alloc, &mut control)?;
    Some(control)
}

/// A task reads the valve.
pub fn read_valve<R: Wait>(rt: &R, port: &mut Port) -> Reached
    ensures { (port.new.turn ≡ port.old.turn) × (port.new.actor ≡ port.old.actor) }
{
    port.call(rt, VALVE, GET, Args::new())
}
