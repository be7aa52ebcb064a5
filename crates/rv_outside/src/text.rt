//! The text of a task, run to its end.

ghost use Rattle.rv_exec.specs.Asking.{Ran};
ghost use Rattle.rv_exec.specs.Bodies.{bodies_view};
ghost use Rattle.rv_exec.specs.Tasks.{task_run};
ghost use Rattle.rv_machine.specs.Machines.{IsFor};

use rv_event::entry::Exit;
use rv_exec::outward::Outward;
use rv_machine::stack::Stack;
use rv_runs::ready::Ready;
use rv_runs::run::run_task;

/// Runs the text of an actor's task to its end (9.2, 9.3): its own body, which may make so many requests, and
/// each body that starts for it, on a stack that has the memory for it, which it gives back. Its last request is Quit, where the
/// task's mode allows it.
pub fn run_text<R, O: Outward<R>>(
    runtime: &R,
    ready: &Ready,
    stack: Stack,
    actor: usize,
    budget: u32,
    outward: &mut O,
) -> (Exit, Stack)
    requires { IsFor ready.now.table.unit stack }
    ensures { Ran O.went outward.old (task_run (bodies_view ready.now.bodies) actor budget) outward.new result.0 }
{
    run_task(runtime, &ready.table, stack, actor, budget, outward)
}
