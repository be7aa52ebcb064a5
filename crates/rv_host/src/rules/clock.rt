//! The clock (D.8), at which the list in force is judged.

ghost use Rattle.std.specs.Prelude.{◌≡◌, ◌<◌, ◌^◌};
ghost use Rattle.rv_event.specs.Past as past;
ghost use Rattle.rv_host.specs.Seen.{IsSeen, history_of};

use crate::seen::Seen;

/// The ticks so far, a number of 63 bits.
pub fn ticks(seen: &Seen) -> u64
    requires { IsSeen seen.now }
    ensures value { result ≡ past.clock (history_of seen.now).past }
    ensures within { result < 2 ^ 63 }
{
    seen.present.clock()
}
