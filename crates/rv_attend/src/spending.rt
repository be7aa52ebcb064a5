//! What is told at the end of a run of the units that have spent their allowance.

use rv_host::host::Host;
use rv_staff::say;
use rv_tally::spent_line;
use std::alloc::Global;
use std::io::Write;

// Tells of the unit at a place, where it has spent its quota, and there is memory for the line.
fn tell_of<E: Write>(alloc: Global, host: &Host, place: usize, quota: u32, errors: &mut E) {
    let Some(shape) = host.catalogue().shapes().get(place) else {
        return;
    };
    if host.spent(place.saturating_add(1)) < quota as usize {
        return;
    }
    if let Ok(line) = spent_line(alloc, shape.name(), quota) {
        let _ = say(errors, line.as_str());
    }
}

/// Names each unit of a closed host to which as many entries are charged as its quota has, if there is one: by it its tasks and
/// bodies were stopped, and who called these.
pub(crate) fn tell_spent<E: Write>(alloc: Global, host: &Host, quota: Option<u32>, errors: &mut E) {
    let Some(quota) = quota else {
        return;
    };
    for place in 0..host.catalogue().shapes().len() {
        tell_of(alloc, host, place, quota, errors);
    }
}
