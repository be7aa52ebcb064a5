//! The devices of settings: each becomes a unit of one task, and a job for it.

ghost use Rattle.std.specs.Prelude.{◌≡◌, ◌⊎◌, Some, None, Ok, Err, IfOk, IfErr};
ghost use Rattle.rv_fault.specs.Devices.{RefusesDevice, called, device_fault};
ghost use Rattle.rv_fault.specs.Sections.{device_shape};
ghost use Rattle.rv_behind.specs.Events.{catalogue_of};
ghost use Rattle.rv_run.specs.Preparing.{HeardOf, KeptAnswer, LoadsDevice, LoadsDevices};

use rv_event::entry::Answer;
use rv_fault::{Failure, fitting_device};
use rv_port::control::Control;
use rv_settings::Device;
use rv_shape::actor::FIRST_TASK;
use rv_shape::catalogue::Catalogue;
use rv_shape::shape::UnitShape;
use rv_staff::DeviceJob;
use rv_turn::Worn;
use std::alloc::Global;
use std::sync::Wait;

// The unit and the job of a device, whose settings open at a line.
fn fitting(
    alloc: Global,
    catalogue: &Catalogue,
    line: usize,
    device: &Device,
) -> Result<(UnitShape, DeviceJob), Failure>
    ensures ok { IfOk result (λ p. p.0 ≡ device_shape device.now) }
    ensures job { IfOk result (λ p. called catalogue.now device.now ≡ Some (p.1.object, p.1.operation)) }
    ensures fits { IfOk result (λ p. device_fault catalogue.now device.now ≡ None) }
    ensures err { IfErr result (RefusesDevice line catalogue.now device.now) }
{
    match fitting_device(alloc, catalogue, line, device) {
        Ok(found) => {
            let job = DeviceJob {
                actor: FIRST_TASK.saturating_add(catalogue.tasks()),
                object: found.object,
                operation: found.operation,
                calls: device.calls(),
            };
            Ok((found.shape, job))
        }
        Err(failure) => Err(failure),
    }
}

// Keeps a job, if there is memory for it.
fn keep_job(jobs: &mut Vec<DeviceJob>, job: DeviceJob) -> Result<(), Failure>
    ensures { (result ≡ Ok tt) ⊎ (result ≡ Err Failure.Memory) }
{
    match jobs.push(job) {
        Ok(()) => Ok(()),
        Err(_) => Err(Failure::Memory),
    }
}

// Keeps the job of a device that was answered so.
#[tactic(auto, using(crate::proofs::Prepared::kept_else))]
fn keep_answered(jobs: &mut Vec<DeviceJob>, job: DeviceJob, answer: Answer) -> Result<(), Failure>
    ensures { KeptAnswer answer result }
{
    match answer {
        Answer::OutOfMemory => Err(Failure::Memory),
        Answer::Accepted(_) => keep_job(jobs, job),
        _ => Ok(()),
    }
}

// The same, where an act may not have been left.
fn keep(
    jobs: &mut Vec<DeviceJob>,
    job: DeviceJob,
    answer: Result<Answer, Worn>,
) -> Result<(), Failure>
    ensures { HeardOf answer result }
{
    match answer {
        Ok(answer) => keep_answered(jobs, job, answer),
        Err(_) => Ok(()),
    }
}

// Loads a device.
fn load_device<R: Wait>(
    rt: &R,
    alloc: Global,
    control: &mut Control,
    jobs: &mut Vec<DeviceJob>,
    line: usize,
    device: &Device,
) -> Result<(), Failure>
    ensures { LoadsDevice control.old control.new line device.now result }
{
    match fitting(alloc, control.catalogue(), line, device) {
        Ok((shape, job)) => {
            let answer = control.load_shape(rt, shape);
            keep(jobs, job, answer)
        }
        Err(failure) => Err(failure),
    }
}

/// Loads devices, in order, up to the first that doesn't fit. Their settings open at a line.
pub(crate) fn load_devices<R: Wait>(
    rt: &R,
    alloc: Global,
    control: &mut Control,
    jobs: &mut Vec<DeviceJob>,
    line: usize,
    devices: &[Device],
) -> Result<(), Failure>
    ensures { LoadsDevices control.old control.new line devices.now result }
{
    'each: for device in devices {
        match load_device(rt, alloc, control, jobs, line, device) {
            Ok(()) => {}
            Err(failure) => return Err(failure),
        }
    }
    Ok(())
}
