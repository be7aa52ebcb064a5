//! What stands before the commands: units, lists and devices, carried out in order.

ghost use Rattle.std.specs.Prelude.{◌≡◌, Some, IfSome};
ghost use Rattle.rv_history.specs.Legal.{empty};
ghost use Rattle.rv_history.specs.Limits.{limits_within};
ghost use Rattle.rv_fault.specs.Parts.{section_of};
ghost use Rattle.rv_port.specs.Controls.{IsControlOf};
ghost use Rattle.rv_script.specs.Openings.{AreNumbered};
ghost use Rattle.rv_run.specs.Preparing.{CarriesOutAll, CarriesOutAs, Prepares};

use crate::devices::load_devices;
use crate::loads::{list_section, load_section};
use rv_fault::{Failure, Part, Parts};
use rv_history::limits::Limits;
use rv_port::control::Control;
use rv_script::Opening;
use rv_settings::Settings;
use rv_staff::DeviceJob;
use rv_text::Sections;
use std::alloc::Global;
use std::sync::Wait;

// Carries out one part by what it opens.
fn carry_out<R: Wait>(
    rt: &R,
    alloc: Global,
    control: &mut Control,
    part: &Part,
) -> Result<(), Failure>
    ensures { CarriesOutAs part.now.opening control.old control.new (section_of part.now) result }
{
    match part.opening {
        Some(Opening::UnitText) => load_section(rt, alloc, control, part.line, part.text),
        Some(Opening::AccessList) => list_section(rt, alloc, control, part.line, part.text),
        _ => Err(part.not_taken()),
    }
}

// Carries out parts, in order, up to the first fault.
fn carry_out_all<R: Wait>(
    rt: &R,
    alloc: Global,
    control: &mut Control,
    mut parts: Parts<'_>,
) -> Result<(), Failure>
    ensures { CarriesOutAll control.old control.new parts.entry result }
{
    'each: while let Some(part) = parts.next_part() {
        match carry_out(rt, alloc, control, &part) {
            Ok(()) => {}
            Err(failure) => return Err(failure),
        }
    }
    Ok(())
}

/// Carries out the parts that sections are, and then loads the devices of settings that open at a line, whose jobs are kept.
pub(crate) fn prepare<R: Wait>(
    rt: &R,
    alloc: Global,
    control: &mut Control,
    jobs: &mut Vec<DeviceJob>,
    sections: Sections<'_>,
    line: usize,
    settings: &Settings,
) -> Result<(), Failure>
    requires { AreNumbered sections }
    ensures { Prepares control.old control.new sections.entry line settings.now.devices result }
{
    match carry_out_all(rt, alloc, control, Parts::of(sections)) {
        Ok(()) => load_devices(rt, alloc, control, jobs, line, settings.devices()),
        Err(failure) => Err(failure),
    }
}

/// The control of a host without entries, within the limits of settings, where each unit may spend so many entries, if that is
/// bounded. None where memory was refused.
pub(crate) fn control_of(
    alloc: Global,
    settings: &Settings,
    allowance: Option<u32>,
) -> Option<Control>
    ensures { IfSome result (IsControlOf (empty (limits_within settings.now.capacity settings.now.queue_limit allowance))) }
{
    let limits = Limits::within(settings.capacity(), settings.queue_limit(), allowance);
    Control::within(alloc, limits)
}
