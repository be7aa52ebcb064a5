//! What a script brings to an audit.

ghost use Rattle.std.specs.Prelude.{◌≡◌, ◌≤◌, ◌^◌, length, IfErr, IfOk};
ghost use Rattle.rv_history.specs.Limits.{limits_with};
ghost use Rattle.rv_history.specs.Legal.{empty};
ghost use Rattle.rv_script.specs.Whole.{most_bytes};
ghost use Rattle.rv_verdict.specs.Brought.{GivesScript};

use crate::given::{Given, given_by};
use rv_audit::audit::Audit;
use rv_fault::{Failure, Parts, What, refused, settings_of};
use rv_history::limits::Limits;
use rv_script::open;
use rv_settings::Settings;
use std::alloc::Global;

// The limits of a host with these settings.
fn limits_of(settings: &Settings) -> Limits
    ensures { result ≡ limits_with settings.now.capacity settings.now.queue_limit }
{
    Limits::with(settings.capacity(), settings.queue_limit())
}

/// The limits, and what the sections of a script give. Its journal is taken only where `has_journal`.
pub fn script_of(
    alloc: Global,
    text: &str,
    has_journal: bool,
) -> Result<(Limits, Given<'_>), Failure>
    requires { length text.now ≤ most_bytes }
    ensures { GivesScript has_journal text.now result }
{
    let script = match open(text) {
        Ok(script) => script,
        Err(line) => return Err(refused(line, What::BadSection)),
    };
    let settings = settings_of(alloc, &script.settings)?;
    let mut given = given_by(alloc, Parts::of(script.sections), has_journal)?;
    given.add_devices(alloc, settings.devices())?;
    let limits = limits_of(&settings);
    Ok((limits, given))
}

/// An audit before its first line. Err where memory was refused.
pub fn audit_over(alloc: Global, limits: Limits) -> Result<Audit, Failure>
    ensures ok { IfOk result (λ audit. audit ≡ empty limits) }
    ensures err { IfErr result (λ failure. failure ≡ Failure.Memory) }
{
    match Audit::within(alloc, limits) {
        Ok(audit) => Ok(audit),
        Err(_) => Err(Failure::Memory),
    }
}
