//! The threads of a crew whose ports are of one control: their start and their end.

ghost use Rattle.std.specs.Prelude.{◌≡◌};
ghost use Rattle.rv_crew.specs.Teams.{IsOfTurn};
ghost use Rattle.thread_rows.specs.Fitting.{Fits};

use crate::role::Role;
use crate::stage::hands::Hands;
use rv_crew::crew::{Closed, Crew};
use rv_crew::job::NoDuty;
use rv_crew::laws::joins_keep_the_turn;
use rv_port::control::Control;
use rv_port::port::Port;
use std::sync::Wait;
use std::thread::Threads;

/// Starts a thread of a crew in this role. False where there is none.
#[tactic(auto, using(rv_crew::proofs::Turns::hired_of_turn))]
pub fn begin(hands: &Hands, crew: &mut Crew<NoDuty>, port: Port, role: Role) -> bool
    requires crew { IsOfTurn port.turn crew.old }
    requires role { Fits role port }
    ensures { IsOfTurn port.turn crew.new }
{
    hands.start(crew, port, role).is_ok()
}

/// Joins a crew whose ports are of a control, and closes both.
pub fn close<R: Threads + Wait>(rt: &R, mut crew: Crew<NoDuty>, control: Control) -> Option<Closed>
    requires { IsOfTurn control.turn crew }
{
    joins_keep_the_turn::<NoDuty>();
    match crew.join_all(rt) {
        Ok(()) => crew.close(rt, control).ok(),
        Err(_) => None,
    }
}
