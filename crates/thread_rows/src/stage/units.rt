//! What a control loads, its list, and the numbers by which the plant of `row_files` and the first task are known.

use rv_access::read_list;
use rv_fault::unit_of;
use rv_port::control::Control;
use std::alloc::Global;
use std::sync::Wait;

/// The number of the first task.
pub const FIRST: u64 = 11;

/// The valve of the plant.
pub const VALVE: usize = 1;

/// Its function without parameters.
pub const GET: usize = 1;

/// Loads the unit of a text.
pub fn load_text<R: Wait>(rt: &R, alloc: Global, control: &mut Control, text: &str) -> Option<()> {
    let unit = unit_of(alloc, control.catalogue(), 1, text).ok()?;
    let _ = control.load(rt, unit);
    Some(())
}

/// Sets the list.
pub fn set_list<R: Wait>(rt: &R, alloc: Global, control: &mut Control, text: &str) -> Option<()> {
    let list = read_list(alloc, text).ok()?;
    let _ = control.set_list(rt, list);
    Some(())
}
