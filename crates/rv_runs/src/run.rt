//! The body of an operation, and a task, run to their end by an outside that answers what they ask.

ghost use Rattle.rv_exec.specs.Asking.{Ran};
ghost use Rattle.rv_exec.specs.Blocks.{operation_run_at};
ghost use Rattle.rv_exec.specs.Tasks.{task_run};
ghost use Rattle.rv_flat.specs.FlatUnits.{flat_view};
ghost use Rattle.rv_machine.specs.Machines.{IsFor};

use crate::tabled::Table;
use rv_event::entry::Exit;
use rv_exec::end::Ended;
use rv_exec::outward::Outward;
use rv_machine::machine::Machine;
use rv_machine::next::Final;
use rv_machine::stack::Stack;
use rv_value::{Args, Scalars};

/// Runs the body of an operation that has started, with these components and values of the call (9.5.1), on a stack that has
/// the memory for it, which it gives back. The actor holds so many objects, this one with them: 1 where it holds no other, at
/// most 16. It takes no memory. An operation without a body leaves the components and raises Program_Error.
pub fn run_body<R, O: Outward<R>>(
    runtime: &R,
    table: &Table,
    stack: Stack,
    held: usize,
    object: usize,
    operation: usize,
    scalars: Scalars,
    values: Args,
    outward: &mut O,
) -> (Ended, Stack)
    requires { IsFor table.now.unit stack }
    ensures { Ran O.went outward.old (operation_run_at (flat_view table.now.unit) held object operation values scalars) outward.new (result.0.exit, result.0.scalars) }
{
    let mut machine = Machine::start_body(
        stack,
        &table.unit,
        held,
        object,
        operation,
        values,
        scalars,
    );
    let how = machine.run(&table.unit, runtime, outward);
    let Machine { stack, .. } = machine;
    match how {
        Final::Exited(exit, scalars) => (Ended { scalars, exit }, stack),
        _ => unreachable!(),
    }
}

/// Runs the task of an actor to its end (9.2, 9.3): its own body, which may make so many requests, and each body that starts
/// for it, on a stack that has the memory for it, which it gives back. Its last request is Quit, where its mode allows that. It
/// takes no memory. A task without a body quits at once.
pub fn run_task<R, O: Outward<R>>(
    runtime: &R,
    table: &Table,
    stack: Stack,
    actor: usize,
    requests: u64,
    outward: &mut O,
) -> (Exit, Stack)
    requires { IsFor table.now.unit stack }
    ensures { Ran O.went outward.old (task_run (flat_view table.now.unit) actor requests) outward.new result.0 }
{
    let mut machine = Machine::start_task(stack, &table.unit, actor, requests);
    let how = machine.run(&table.unit, runtime, outward);
    let Machine { stack, .. } = machine;
    match how {
        Final::Quitted(exit) => (exit, stack),
        _ => unreachable!(),
    }
}
