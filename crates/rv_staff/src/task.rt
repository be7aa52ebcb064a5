//! The duty of a run's thread.

ghost use Rattle.std.specs.Prelude.{◌≡◌};

use crate::work::Work;
use rv_crew::job::Duty;
use std::marker::Model;
use std::snapshot::Snapshot;

/// What a thread of a run has to do: this work. It takes no bytes. Contracts see the work.
pub struct Task {
    work: Snapshot<Work>,
}

impl Model for Task {
    ghost use Rattle.rv_staff.specs.declared.work.Work.{Work};
    ghost use Rattle.rv_staff.specs.contracts.work.Work as w;

    ghost Value = { Work };

    ghost coded = { w.the_row.coded };

    ghost view = { λ t. t.work.value };
}

impl Drop for Task {
    // A function of its own, as a session's.
    fn drop(self) {
        let Task { work: _ } = self;
    }
}

impl Task {
    /// This work.
    pub fn of(work: &Work) -> Task
        ensures { result ≡ work.now }
    {
        Task {
            work: Snapshot::of(work),
        }
    }
}

impl Duty for Task {
    ghost use Rattle.rv_staff.specs.Working.{Works};

    ghost does = { Works };
}
