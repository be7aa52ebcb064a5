//! Laws of runs, each on a function that does nothing.

ghost use Rattle.rv_exec.specs.Stops.{BodiesStopBy, TasksStopBy};

/// A body exits by stopped only where an answer stopped it, or a body inside it: `Halted`, `Full`, another than `Done` to
/// the end of a body, or one of a form that isn't given to what was called, which is such as all that the bodies call.
/// Behind it come ends by stopped alone.
pub fn bodies_stop_by_an_answer()
    ensures { BodiesStopBy }
{}

/// And so does a task: behind that answer come ends by stopped alone, and its `Quit`.
pub fn tasks_stop_by_an_answer()
    ensures { TasksStopBy }
{}
