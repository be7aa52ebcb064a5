//! A machine for a task: it starts at the task's declarations (9.2).

ghost use Rattle.std.specs.Prelude.{◌≡◌, ◌≤◌, [], pos, replicate};
ghost use Rattle.rv_exec.specs.Activations.{opened};
ghost use Rattle.rv_exec.specs.Asking.{ended, and_then};
ghost use Rattle.rv_exec.specs.Tasks.{task_run};
ghost use Rattle.rv_flat.specs.FlatUnits.{flat_view};
ghost use Rattle.rv_frames.specs.Frames.{quit};
ghost use Rattle.rv_machine.specs.Machines.{stands, Fits, IsFor};

use crate::frame::EndFrame;
use crate::machine::Machine;
use crate::outcomes::task;
use crate::point::{Point, Step};
use crate::stack::Stack;
use rv_code::MOST_SLOTS;
use rv_exec::activation::{Activation, MOST_STEPS};
use rv_exec::setting::of_task;
use rv_flat::unit::FlatUnit;
use rv_value::{Args, Scalars};

// A task's own body before its declarations.
fn of_budget(requests: u64) -> Activation
    ensures { result ≡ opened (replicate 132 (pos 0)) [] 100000 requests }
{
    Activation {
        slots: [0; MOST_SLOTS],
        components: Scalars::new(),
        steps: MOST_STEPS,
        requests,
    }
}

impl Machine {
    /// A machine at the start of an actor's task, which may make so many requests; its stack is empty (9.2).
    pub fn start_task(stack: Stack, unit: &FlatUnit, actor: usize, requests: u64) -> Machine
        requires { IsFor unit.now stack }
        ensures stands { stands unit.now result ≡ and_then (task_run (flat_view unit.now) actor requests) (quit ended) }
        ensures fits { Fits unit.now result }
    {
        let activation = of_budget(requests);
        match task(unit, actor) {
            Some(body) => {
                let mut frames = stack;
                frames.push_end(EndFrame::Quitting(actor));
                frames.push_end(EndFrame::Opening(body.statements, body.handlers));
                Machine {
                    point: Point::At(Step::Declares(body.declarations)),
                    activation,
                    setting: of_task(),
                    stack: frames,
                }
            }
            None => Machine {
                point: Point::Quits(Ok(Args::new())),
                activation,
                setting: of_task(),
                stack,
            },
        }
    }
}
