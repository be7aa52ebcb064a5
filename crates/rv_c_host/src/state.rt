//! What a caller may ask of the state of its host.

ghost use Rattle.std.specs.Prelude.{◌≡◌, pos, MatchOption};
ghost use Rattle.rv_c_host.specs.States.{state};
ghost use Rattle.rv_c_host.specs.Numbers.{no_host};

use crate::numbers::NO_HOST;
use rv_handle::Handle;
use rv_host::host::Host;
use std::alloc::Global;

/// The state of a host: `rh_state` of include/ravenhost.h.
#[repr(C)]
#[derive(Clone, Copy, Drop)]
pub struct State {
    /// How many entries there are.
    pub used: usize,
    /// How many entries may still come, beside those that are owed.
    pub room: usize,
    /// How many list changes there were.
    pub version: usize,
    /// 1 where the host is halted, else 0.
    pub halted: usize,
}

// The state of a host.
fn told_state(host: &Host) -> State
    ensures { result ≡ state host.now }
{
    let halted = if host.is_halted() { 1 } else { 0 };
    State {
        used: host.used(),
        room: host.room(),
        version: host.version(),
        halted,
    }
}

/// Tells the state of the host behind a handle. Gives 0 where there is one.
pub fn state_of(alloc: Global, handle: &mut Handle, told: &mut State) -> i32
    ensures state { MatchOption handle.old.value ((told.new ≡ told.old) × (result ≡ no_host))
        (λ k. (told.new ≡ state k.host) × (result ≡ pos 0)) }
    ensures same { handle.new.value ≡ handle.old.value }
{
    let Some(kept) = handle.take(alloc) else {
        return NO_HOST;
    };
    *told = told_state(&kept.host);
    handle.put(kept);
    0
}
