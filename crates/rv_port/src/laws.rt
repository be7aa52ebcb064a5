//! Laws, each on a function that does nothing.

ghost use Rattle.std.specs.Prelude.{◌≡◌, ℕ, false, List, length, reverse};
ghost use Rattle.rv_code.specs.declared.body.UnitBodies.{UnitBodies};
ghost use Rattle.rv_event.specs.declared.entry.Answer.{Answer};
ghost use Rattle.rv_event.specs.declared.entry.Request.{Request};
ghost use Rattle.rv_history.specs.Allowance.{may_spend};
ghost use Rattle.rv_history.specs.History.{History};
ghost use Rattle.rv_history.specs.Legal.{Legal};
ghost use Rattle.rv_history.specs.declared.limits.Limits.{Limits};
ghost use Rattle.rv_turn.specs.Histories.{mine, StartsWith};
ghost use Rattle.rv_port.specs.Alone.{IsUnused, quit_alone};
ghost use Rattle.rv_port.specs.Calls.{Quits};
ghost use Rattle.rv_port.specs.Controls.{IsGiven};
ghost use Rattle.rv_behind.specs.Events.{by, catalogue_of, history_at, log_of, units_in};
ghost use Rattle.rv_port.specs.Later.{NoEarlierList, KeepsBodies};
ghost use Rattle.rv_port.specs.Settled.{EndsAreSettled};
ghost use Rattle.rv_port.specs.Traces.{Passing, asks_on, comes_again, lasts};
ghost use Rattle.rv_behind.specs.declared.event.Event.{Event};

/// The catalogue is that of the operator's own events, whatever others add.
#[tactic(auto, using(crate::proofs::Catalogues::catalogue_mine))]
pub fn catalogue_is_the_operators()
    ensures { (log : List Event) → catalogue_of (mine by 0 log) ≡ catalogue_of log }
{}

/// The events of a legal history stand for that very history, whatever bodies its units have: so what
/// is said of events is said of the host's journal.
#[tactic(auto, using(rv_behind::proofs::Zips::rebuilt))]
pub fn events_are_the_journal()
    ensures { (h : History) (units : List UnitBodies) → Legal h → history_at h.limits (log_of h units) ≡ h }
{}

/// And the bodies in them are these, where there are as many as units.
#[tactic(auto, using(rv_behind::proofs::Zips::rebuilt_units))]
pub fn events_keep_the_bodies()
    ensures { (h : History) (units : List UnitBodies) → Legal h → length units ≡ length h.shapes → units_in (reverse (log_of h units)) ≡ units }
{}

/// In a history that begins with another, the list in force is the one in force there, or a later one.
pub fn lists_are_never_forgotten()
    ensures { (seen at : List Event) → StartsWith at seen → NoEarlierList seen at }
{}

/// What anyone saw of an actor's events stays in every history that begins with what was seen.
#[tactic(auto, using(crate::proofs::Closings::mine_later))]
pub fn events_stay()
    ensures { (actor : ℕ) (seen log : List Event) → StartsWith log seen → StartsWith (mine by actor log) (mine by actor seen) }
{}

/// What a body runs by isn't lost: the bodies of a history keep their numbers in every history that begins with it. So a caller
/// that was handed an object runs by the bodies of then, and those of units loaded since.
pub fn bodies_stay()
    ensures { (seen log : List Event) → StartsWith log seen → KeepsBodies seen log }
{}

/// Behind an end that a call or a body asked, and the settles that the port asks behind it, the actor has
/// no object to settle, unless no act is left: then the object stays unsettled (9.5.3).
pub fn ends_leave_objects_settled()
    ensures { EndsAreSettled }
{}

/// A port on which nothing was called is finished by its quit alone, which is accepted; of a line there is nothing.
#[tactic(auto, using(crate::proofs::Alone::quits_alone))]
pub fn unused_ports_quit_alone()
    ensures { (port done : Passing) → IsUnused port → Quits port done → done.own ≡ quit_alone port.actor }
{}

/// A port as it is given is such a port.
#[tactic(auto, using(crate::proofs::Alone::given_unused))]
pub fn given_ports_are_unused()
    ensures { (control : Passing) → (after : Passing) → (port : Passing) → (actor : ℕ) → IsGiven control actor after port → IsUnused port }
{}

/// A request is made again at Full only in a journal that gave entries up, and for a unit that hasn't spent its allowance. In any other
/// it is made again at Busy and Waiting alone.
#[tactic(auto, using(crate::proofs::Lasting::never_at_full, crate::proofs::Lasting::never_when_spent))]
pub fn full_comes_again_for_room_alone()
    ensures whole { (limits : Limits) (log : List Event) (actor : ℕ) (request : Request) (answer : Answer)
        → lasts log ≡ false → comes_again limits log actor request answer ≡ asks_on answer }
    ensures spent { (limits : Limits) (log : List Event) (actor : ℕ) (request : Request) (answer : Answer)
        → may_spend (history_at limits log) actor request ≡ false → comes_again limits log actor request answer ≡ asks_on answer }
{}
