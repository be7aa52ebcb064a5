//! The devices of settings: the unit that each is, and what it calls.

ghost use Rattle.std.specs.Prelude.{◌≡◌, IfErr, IfOk};
ghost use Rattle.rv_shape.specs.Readers.{target_of};
ghost use Rattle.rv_fault.specs.Devices.{FitsDevice, RefusesDevice, called, is_plain};
ghost use Rattle.rv_fault.specs.Sections.{device_shape};

use crate::failure::{Failure, refused};
use crate::fault::What;
use rv_settings::Device;
use rv_shape::actor::Callee;
use rv_shape::catalogue::Catalogue;
use rv_shape::shape::UnitShape;
use rv_shape::task::Task;
use std::alloc::{AllocError, Global};

/// The unit that a device is: one task, and no objects. Err where memory was refused.
pub fn device_unit(alloc: Global, device: &Device) -> Result<UnitShape, AllocError>
    ensures { IfOk result (λ shape. shape ≡ device_shape device.now) }
{
    let name = String::from_str(alloc, device.unit())?;
    let task = String::from_str(alloc, device.task())?;
    let mut tasks = Vec::new(alloc);
    tasks.push(Task::new(task, device.priority() as usize))?;
    Ok(UnitShape::new(name, tasks, Vec::new(alloc)))
}

// Whether a call takes no values.
fn is_plain(callee: Callee<'_>) -> bool
    ensures { result ≡ is_plain (target_of callee.entry) }
{
    match callee {
        Callee::Protected(_, _, called) => called.parameters().is_empty(),
        Callee::Suspension(_, _, _) => true,
        Callee::Nowhere => false,
    }
}

// What a device calls: an object, and an operation of it that takes no values, by their numbers.
fn called_by(catalogue: &Catalogue, device: &Device) -> Option<(usize, usize)>
    ensures { result ≡ called catalogue.now device.now }
{
    let object = catalogue.find_object(device.object())?;
    let operation = catalogue.find_operation(object, device.operation())?;
    if is_plain(catalogue.callee(object, operation)) {
        Some((object, operation))
    } else {
        None
    }
}

/// A device that fits: the unit that it is, and what it calls.
#[derive(Drop)]
pub struct FittingDevice {
    /// Its unit.
    pub shape: UnitShape,
    /// The number of the object that it calls.
    pub object: usize,
    /// The number of the operation.
    pub operation: usize,
}

/// A device over the units that are loaded, if what it calls is among them and its unit fits. Its settings open at a
/// line.
pub fn fitting_device(
    alloc: Global,
    catalogue: &Catalogue,
    line: usize,
    device: &Device,
) -> Result<FittingDevice, Failure>
    ensures ok { IfOk result (FitsDevice catalogue.now device.now) }
    ensures err { IfErr result (RefusesDevice line catalogue.now device.now) }
{
    let Some((object, operation)) = called_by(catalogue, device) else {
        return Err(refused(line, What::UnknownName));
    };
    let Ok(shape) = device_unit(alloc, device) else {
        return Err(Failure::Memory);
    };
    if let Some(fault) = catalogue.shape_fits(&shape) {
        return Err(refused(line, What::Shape(fault)));
    }
    Ok(FittingDevice {
        shape,
        object,
        operation,
    })
}
