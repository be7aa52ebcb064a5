//! What is kept of what a thread owed.

ghost use Rattle.std.specs.Prelude.{◌≡◌};

use crate::job::Duty;
use rv_port::port::Port;
use std::snapshot::Snapshot;

/// The port that a thread was given, as it was then, and the duty of its job.
pub(crate) struct Kept<D: Duty> {
    port: Snapshot<Port>,
    duty: D,
}

impl<D: Duty> Drop for Kept<D> {
    fn drop(self) {
        let Kept { port: _, duty: _ } = self;
    }
}

impl<D: Duty> Kept<D> {
    /// This port, and this duty.
    pub fn of(port: &Port, duty: D) -> Kept<D>
        ensures port { result.port.value ≡ port.now }
        ensures duty { result.duty ≡ duty }
    {
        Kept {
            port: Snapshot::of(port),
            duty,
        }
    }
}
