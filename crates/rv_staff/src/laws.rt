//! A law of runs, on a function that does nothing.

ghost use Rattle.rv_behind.specs.Events.{log_of};
ghost use Rattle.rv_crew.specs.Crews.{IsClosedBy};
ghost use Rattle.rv_crew.specs.Teams.{EachTwo};
ghost use Rattle.rv_crew.specs.declared.crew.Closed.{Closed};
ghost use Rattle.rv_port.specs.Traces.{Passing};
ghost use Rattle.rv_staff.specs.Staffs.{Workers};
ghost use Rattle.rv_staff.specs.Texts.{TextIsFollowed};
ghost use Rattle.rv_staff.specs.Working.{Works};

/// In the journal of a run that is closed, what each task asked whose thread had its text as its work is what that text asks.
#[tactic(auto, using(crate::proofs::Texts::texts_followed))]
pub fn texts_are_followed()
    ensures { (crew : Workers) → (control : Passing) → (closed : Closed) → (by_close : IsClosedBy Works crew control closed)
        → EachTwo (TextIsFollowed closed.host.limits (log_of closed.host by_close.host.units)) crew.paid crew.joined }
{}
