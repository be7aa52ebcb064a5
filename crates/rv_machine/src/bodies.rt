//! A machine for the body of an operation that has started (9.5.1).

ghost use Rattle.std.specs.Prelude.{◌≡◌, ◌≤◌, ◌-◌, [], pos, replicate};
ghost use Rattle.rv_exec.specs.Asking.{ended, and_then};
ghost use Rattle.rv_exec.specs.Blocks.{operation_run_at};
ghost use Rattle.rv_flat.specs.FlatUnits.{flat_view};
ghost use Rattle.rv_frames.specs.Frames.{exit};
ghost use Rattle.rv_machine.specs.Machines.{stands, Fits, IsFor};

use crate::calls::{begun, inner, no_activation};
use crate::frame::EndFrame;
use crate::machine::Machine;
use crate::outcomes::operation;
use crate::point::{Point, Step};
use crate::stack::Stack;
use rv_event::entry::Exception;
use rv_exec::activation::MOST_STEPS;
use rv_exec::end::Cause;
use rv_exec::setting::of_operation;
use rv_flat::unit::FlatUnit;
use rv_value::{Args, Scalars};

impl Machine {
    /// A machine at the start of the body of an operation that has started, with these values and components; its actor holds
    /// so many objects, this one with them, and its stack is empty (9.5.1).
    pub fn start_body(
        stack: Stack,
        unit: &FlatUnit,
        held: usize,
        object: usize,
        number: usize,
        values: Args,
        components: Scalars,
    ) -> Machine
        requires { IsFor unit.now stack }
        ensures stands { stands unit.now result ≡ and_then (operation_run_at (flat_view unit.now) held object number values components) (exit ended) }
        ensures fits { Fits unit.now result }
    {
        let setting = of_operation(held, object);
        let mut frames = stack;
        frames.push_exiting();
        match operation(unit, object, number) {
            Some(body) => {
                frames.push_end(EndFrame::Closing(object, number));
                frames.push_end(EndFrame::Opening(body.statements, body.handlers));
                Machine {
                    point: Point::At(Step::Declares(body.declarations)),
                    activation: begun(body, values, components, MOST_STEPS),
                    setting: inner(&setting),
                    stack: frames,
                }
            }
            None => {
                let mut activation = no_activation();
                activation.components = components;
                activation.steps = MOST_STEPS;
                Machine {
                    point: Point::Closes(Err(Cause::Raised(Exception::ProgramError))),
                    activation,
                    setting,
                    stack: frames,
                }
            }
        }
    }
}
