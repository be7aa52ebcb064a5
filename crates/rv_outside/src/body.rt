//! The body of an operation, from its start to the request for its end.

ghost use Rattle.std.specs.Prelude.{◌≡◌};
ghost use Rattle.rv_exec.specs.Bodies.{bodies_view};
ghost use Rattle.rv_event.specs.declared.entry.Request.TheVariants.{Complete};
ghost use Rattle.rv_machine.specs.Machines.{IsFor};
ghost use Rattle.rv_outside.specs.Ends.{given_by, RanToEnd};

use rv_behind::event::Begun;
use rv_event::entry::{Exit, Request};
use rv_exec::outward::Outward;
use rv_machine::stack::Stack;
use rv_runs::ready::Ready;
use rv_runs::run::run_body as run_tabled;
use rv_value::{Args, Scalars};

/// Puts the request for the end of a body that exits so and leaves these components (9.5.1): a function leaves none.
pub fn put_end(request: &mut Request, begun: &Begun, scalars: &Scalars, exit: &Exit)
    ensures { request.new ≡ Complete (given_by begun.now scalars.now) exit.now }
{
    if begun.is_function {
        *request = Request::Complete(Scalars::new(), *exit);
    } else {
        *request = Request::Complete(*scalars, *exit);
    }
}

/// Runs the body of an operation that has started (9.5.1), on these components and with these values of the call, and puts the
/// request for its end, whose exit it gives. The actor holds so many objects, this one with them. It runs on a stack that has
/// the memory for it, which it gives back. An operation without a body leaves the components and exits by
/// `raise Program_Error`.
pub fn run_body<R, O: Outward<R>>(
    runtime: &R,
    ready: &Ready,
    stack: Stack,
    held: usize,
    begun: &Begun,
    scalars: &Scalars,
    args: &Args,
    outward: &mut O,
    request: &mut Request,
) -> (Exit, Stack)
    requires { IsFor ready.now.table.unit stack }
    ensures { RanToEnd O.went outward.old (bodies_view ready.now.bodies) held begun.now scalars.now args.now outward.new request.new result.0 }
{
    let (ended, stack) = run_tabled(
        runtime,
        &ready.table,
        stack,
        held,
        begun.object,
        begun.operation,
        *scalars,
        *args,
        outward,
    );
    put_end(request, begun, &ended.scalars, &ended.exit);
    (ended.exit, stack)
}
