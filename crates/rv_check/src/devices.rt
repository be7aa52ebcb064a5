//! Looks at the devices of settings, as a run loads them behind its sections.

ghost use Rattle.rv_check.specs.DeviceFaults.{DeviceEnds, LoadsAll};

use rv_fault::{Failure, fitting_device};
use rv_settings::Device;
use rv_shape::catalogue::Catalogue;
use std::alloc::Global;

// Loads the unit of a device, if nothing stands against it. Its settings open at a line.
#[tactic(auto, using(crate::proofs::Loaded::unit_fits))]
fn load_device(
    alloc: Global,
    catalogue: &mut Catalogue,
    line: usize,
    device: &Device,
) -> Result<(), Failure>
    ensures { DeviceEnds line catalogue.old catalogue.new device.now result }
{
    match fitting_device(alloc, catalogue, line, device) {
        Ok(found) => match catalogue.add_fitting(&found.shape) {
            Ok(()) => Ok(()),
            Err(_) => Err(Failure::Memory),
        },
        Err(failure) => Err(failure),
    }
}

/// Loads the units of devices, in order, up to the first that something stands against.
pub(crate) fn load_devices(
    alloc: Global,
    catalogue: &mut Catalogue,
    line: usize,
    devices: &[Device],
) -> Result<(), Failure>
    ensures { LoadsAll line catalogue.old catalogue.new devices.now result }
{
    'each: for device in devices {
        match load_device(alloc, catalogue, line, device) {
            Ok(()) => {}
            Err(failure) => return Err(failure),
        }
    }
    Ok(())
}
