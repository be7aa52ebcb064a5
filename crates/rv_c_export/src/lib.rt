//! The exports to C, as include/ravenhost.h declares them: here those of rv_c, on scripts; in `hosts` those of a host behind its handle.
#![tactic(auto)]

pub mod hosts;

ghost use Rattle.std.specs.Prelude.{◌≡◌, ◌≢◌, pos, true, false};
ghost use Rattle.rv_c.specs.Calls.{Audits, Plays};

use rv_c::{audit_into, play_into};
use rv_c_text::Text;
use std::alloc::Global;

/// As `rv_c::audit_into`.
#[unsafe(no_mangle)]
pub extern "C" fn rh_audit(alloc: Global, script: &[u8], told: &mut Text<'_>) -> i32
    ensures { Audits script.now told.old told.new result }
{
    audit_into(alloc, script, told)
}

/// As `rv_c::play_into`; all is asked for by any number but 0.
#[unsafe(no_mangle)]
pub extern "C" fn rh_play(alloc: Global, script: &[u8], all: i32, told: &mut Text<'_>) -> i32
    ensures journal { all ≡ pos 0 → Plays false script.now told.old told.new result }
    ensures answers { all ≢ pos 0 → Plays true script.now told.old told.new result }
{
    play_into(alloc, script, all != 0, told)
}
