//! What recorded ends of bodies mean, what runs of bodies ask, and what the host answers to that. Laws, each on a function that
//! does nothing.
#![tactic(auto)]

ghost use Rattle.rv_meant.specs.Answers.{CallsGoOn, ResumesGoOn};
ghost use Rattle.rv_meant.specs.Holds.{AsksCountTheHeld};
ghost use Rattle.rv_meant.specs.Nested.{BodiesNest, TasksNest};
ghost use Rattle.rv_meant.specs.Settles.{BodiesNeverSettle, TasksNeverSettle};
ghost use Rattle.rv_meant.specs.Told.{InnerEndsAreExplained, OuterEndsAreExplained, TaskEndsAreExplained};

/// Each end of a body that a body asked, and that was answered Done, closes a body that it called: it is what that one
/// means on what was asked between its start and this end, with as many objects held as there were. Where no answer strays
/// before, all that started have ended, and each ask has an entry; of a run that stopped one has none, and behind it come
/// ends by stopped alone; or it left its actor in a body, whose end wasn't answered Done.
pub fn bodies_nest()
    ensures { BodiesNest }
{}

/// And so does each that a task asked, before its quit.
pub fn tasks_nest()
    ensures { TasksNest }
{}

/// Each end of a body that a run of another asked is explained in a history that has what the run asked: so it means what
/// was recorded, where no answer before it strays from what the host gives.
pub fn inner_ends_are_explained()
    ensures { InnerEndsAreExplained }
{}

/// And so is the end of the body that runs.
pub fn outer_ends_are_explained()
    ensures { OuterEndsAreExplained }
{}

/// And each end that a task's text asked.
pub fn task_ends_are_explained()
    ensures { TaskEndsAreExplained }
{}

/// No body asks to settle an object, nor does one that it calls: that is a port's alone.
pub fn bodies_never_settle()
    ensures { BodiesNeverSettle }
{}

/// Nor does a task.
pub fn tasks_never_settle()
    ensures { TasksNeverSettle }
{}

/// By its starts and ends an actor holds as many objects as the history's open starts say: so a body whose end is explained ran
/// with as many as its actor held at the start. Only between a hand-over and the caller's wake the history counts one more.
pub fn asks_count_the_held()
    ensures { AsksCountTheHeld }
{}

/// A request of a callee that fits the host's units goes on by its answer, where it needn't be made again and isn't `Halted`
/// or `Full`: no answer is of a form that what called can't go on by.
pub fn calls_go_on()
    ensures { CallsGoOn }
{}

/// And so does the resume of an actor that waits by such a request.
pub fn resumes_go_on()
    ensures { ResumesGoOn }
{}
