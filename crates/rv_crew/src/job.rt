//! Jobs for ports, and their duties.

ghost use Rattle.std.specs.Prelude.{◌≡◌};

use rv_port::port::{Finished, Port};
use std::snapshot::Snapshot;
use std::thread::Promise;

/// What a job has to do with its port, in the words of whoever gives the job. A value of it goes to the crew with the job, and
/// what the crew leaves tells by it what was done.
pub trait Duty: Drop {
    ghost use Rattle.rv_port.specs.Ports.{Porting};

    ghost does: { Self → Porting → Porting → Type 0 };
}

/// No duty: of what a job does nothing is said but that its port comes back.
#[derive(Clone, Copy, Drop)]
pub struct NoDuty;

impl Duty for NoDuty {
    ghost use Rattle.std.specs.Prelude.{⊤};

    ghost does = { λ _ _ _. ⊤ };
}

/// What is done with one port, in a thread of its own. It may be called on that port, and gives a
/// port of the same turn and actor back.
#[derive(Drop)]
pub struct Job {
    /// The port that it is for, as it is when the thread starts. It takes no bytes.
    pub port: Snapshot<Port>,
    /// The job itself. It is boxed where the thread's handles are: in `main` or in a test.
    pub run: Box<dyn FnOnce(Port) -> Finished + Send>,
    pub ghost callable: { (p : _) → p ≡ port.value → pre run p },
    pub ghost keeps: { (p : _) (f : _) → post run p f → (f.turn ≡ p.turn) × (f.actor ≡ p.actor) },
}

/// What a thread owes: the port that it was given, with which its duty is done.
#[derive(Drop)]
pub struct OfPort<D: Duty>(Snapshot<Port>, Snapshot<D>);

impl<D: Duty> Promise<Finished> for OfPort<D> {
    ghost use Rattle.rv_crew.specs.Teams.{Pays, owing};

    ghost kept_by = { λ p f. Pays D.does (owing p.0.value p.1.value) f };
}

impl<D: Duty> OfPort<D> {
    /// What is owed for this port by this duty.
    pub(crate) fn of(port: &Port, duty: &D) -> OfPort<D>
        ensures port { result.0.value ≡ port.now }
        ensures duty { result.1.value ≡ duty.now }
    {
        OfPort(Snapshot::of(port), Snapshot::of(duty))
    }
}
