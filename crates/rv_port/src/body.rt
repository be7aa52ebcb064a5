//! What runs between a start and its end.

ghost use Rattle.std.specs.Prelude.{◌≡◌, Option, Some};
ghost use Rattle.rv_behind.specs.declared.event.Lent.{Lent as Brought};
ghost use Rattle.rv_event.specs.declared.entry.Request.TheVariants.{Complete};
ghost use Rattle.rv_machine.specs.Machines.{IsFor};
ghost use Rattle.rv_exec.specs.Bodies.{bodies_view};
ghost use Rattle.rv_port.specs.Bodies.{RanTo, RunsTo, left_alone};
ghost use Rattle.rv_port.specs.Held.{held_by};
ghost use Rattle.rv_port.specs.Traces.{Trace, Went};

use crate::asker::Asker;
use rv_behind::event::{Begun, Lent};
use rv_event::entry::{Exception, Exit, Request};
use rv_machine::stack::Stack;
use rv_outside::{put_end, run_body};
use rv_runs::ready::Ready;
use rv_value::{Args, Scalars};
use std::sync::Wait;

/// How a body ended, and the scalars that it leaves, none for a function. No value of it is made: only
/// contracts speak of it.
pub(crate) struct Ended {
    pub(crate) scalars: Scalars,
    pub(crate) exit: Exit,
}

// The end of a body that couldn't be had.
fn leave_alone(begun: &Begun, scalars: &Scalars, request: &mut Request) -> Exit
    ensures request { request.new ≡ Complete (left_alone begun.now scalars.now).scalars (left_alone begun.now scalars.now).exit }
    ensures exit { result ≡ (left_alone begun.now scalars.now).exit }
{
    let exit = Exit::Raise(Exception::ProgramError);
    put_end(request, begun, scalars, &exit);
    exit
}

// The same; the port is marked.
fn leave_marked(
    asker: &mut Asker,
    begun: &Begun,
    scalars: &Scalars,
    args: &Args,
    request: &mut Request,
) -> Exit
    ensures { (lent : Option Brought) → RanTo lent asker.old.pass asker.old.is_refused begun.now scalars.now args.now request.new result asker.new.pass asker.new.is_refused }
{
    let _ = args;
    asker.is_refused = true;
    leave_alone(begun, scalars, request)
}

// Runs the body of an operation, of these.
fn run_one<R: Wait>(
    rt: &R,
    asker: &mut Asker,
    ready: &Ready,
    stack: Stack,
    begun: &Begun,
    scalars: &Scalars,
    args: &Args,
    request: &mut Request,
) -> Exit
    requires { IsFor ready.now.table.unit stack }
    ensures runs { (trace : Trace) × RunsTo (Some (bodies_view ready.now.bodies)) (held_by asker.old.pass) begun.now scalars.now args.now trace request.new result × Went asker.old.pass trace asker.new.pass }
    ensures mark { asker.new.is_refused ≡ asker.old.is_refused }
{
    let (exit, stack) = run_body(
        rt,
        ready,
        stack,
        asker.held as usize,
        begun,
        scalars,
        args,
        asker,
        request,
    );
    asker.stack.put_back(stack);
    exit
}

/// Runs the body of an operation on these scalars, with these values, asking by the port's own
/// asker, outside the turn; and puts the request for its end, whose exit it gives. Where the bodies
/// couldn't be had, or a stack for their run, it asks nothing, leaves the scalars and exits by
/// `raise Program_Error`.
pub(crate) fn run<R: Wait>(
    rt: &R,
    asker: &mut Asker,
    lent: &Option<Lent>,
    begun: &Begun,
    scalars: &Scalars,
    args: &Args,
    request: &mut Request,
) -> Exit
    ensures { RanTo lent.now asker.old.pass asker.old.is_refused begun.now scalars.now args.now request.new result asker.new.pass asker.new.is_refused }
{
    let Some(lent) = lent else {
        return leave_marked(asker, begun, scalars, args, request);
    };
    let ready = &*lent.bodies;
    match asker.stack.taken(rt, &ready.table) {
        Some(stack) => run_one(rt, asker, ready, stack, begun, scalars, args, request),
        None => leave_marked(asker, begun, scalars, args, request),
    }
}
