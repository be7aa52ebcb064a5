//! What the bodies of compiled units ask fits: laws, each on a function that does nothing.
#![tactic(auto)]

ghost use Rattle.rv_asks.specs.Asks.{BodiesAskWhatFits, LinesAskWhatFits, TasksAskWhatFits};
ghost use Rattle.rv_asks.specs.Misused.{NoneIsMisused};

/// Each request that a body asks fits the host's units and where its actor stands, and so do those of the bodies that it calls,
/// where the unit's bodies are ranged and the body starts on values in range. The end that it comes to fits too.
pub fn bodies_ask_what_fits()
    ensures { BodiesAskWhatFits }
{}

/// And so does each that a task's text asks; it quits where it is idle.
pub fn tasks_ask_what_fits()
    ensures { TasksAskWhatFits }
{}

/// And each that a line asks whose handler takes no values: it fires, and calls from its handler alone.
pub fn lines_ask_what_fits()
    ensures { LinesAskWhatFits }
{}

/// A request that fits where an actor stands is never answered Misuse, on whatever history the actor stands there.
pub fn none_is_misused()
    ensures { NoneIsMisused }
{}
