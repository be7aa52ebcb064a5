//! Calls: inside the object the body of the operation begins; another is asked of the host (6.4, 9.5).

ghost use Rattle.std.specs.Prelude.{◌≡◌, ◌≤◌, ◌<◌, ◌-◌, ◌∷◌, [], pos, replicate, length, None};
ghost use Rattle.rv_exec.specs.Activations.{opened, bound};
ghost use Rattle.rv_exec.specs.Calls.{internal};
ghost use Rattle.rv_flat.specs.FlatUnits.{flat_view};
ghost use Rattle.rv_frames.specs.Frames.{calls, enters, inner_setting};
ghost use Rattle.rv_machine.specs.Machines.{MovesTo};
ghost use Rattle.rv_machine.specs.Points.{Apart};
ghost use Rattle.rv_machine.specs.Stacks.{below, HasRoom, HasSpace, room};

use crate::frame::EndFrame;
use crate::machine::Machine;
use crate::outcomes::operation;
use crate::point::{Point, Step};
use rv_code::{Callee, MOST_SLOTS, of_object};
use rv_event::entry::Exception;
use rv_exec::activation::Activation;
use rv_exec::asks::{internal, is_past};
use rv_exec::end::Cause;
use rv_exec::setting::Setting;
use rv_flat::body::FlatBody;
use rv_flat::unit::FlatUnit;
use rv_value::{Args, Scalars};

// The same activation once more.
fn copy_of(activation: &Activation) -> Activation
    ensures { result ≡ activation.now }
{
    Activation {
        slots: activation.slots,
        components: activation.components,
        steps: activation.steps,
        requests: activation.requests,
    }
}

/// The activation of a body with these values, as its declarations begin (6.4.1).
pub(crate) fn begun(body: &FlatBody, values: Args, components: Scalars, steps: u32) -> Activation
    ensures { result ≡ opened (bound body.now.parameters.items 0 0 values (replicate 132 (pos 0))) components steps 0 }
{
    let mut activation = Activation {
        slots: [0; MOST_SLOTS],
        components,
        steps,
        requests: 0,
    };
    activation.bind(&body.parameters, values);
    activation
}

/// An activation that nothing runs in.
pub(crate) fn no_activation() -> Activation {
    Activation {
        slots: [0; MOST_SLOTS],
        components: Scalars::new(),
        steps: 0,
        requests: 0,
    }
}

/// What the body of a call inside the object runs in.
pub(crate) fn inner(setting: &Setting) -> Setting
    ensures { result ≡ inner_setting setting.now (setting.now.nested - 1) }
{
    Setting {
        object: setting.object,
        held: setting.held,
        nested: if setting.nested > 0 {
            setting.nested - 1
        } else {
            0
        },
        is_task: false,
        handling: None,
    }
}

impl Machine {
    /// An operation's body begins on these values, components and steps, in this setting: its declarations are next, where it has
    /// a body and one more call may nest (6.4, 9.5.1).
    pub(crate) fn begin(
        &mut self,
        unit: &FlatUnit,
        setting: Setting,
        number: usize,
        values: Args,
        components: Scalars,
        steps: u32,
    )
        requires { HasRoom 2 self.old.stack }
        ensures moves { Apart (flat_view unit.now) (below unit.now self.old.stack) → MovesTo unit.now (enters number values components steps) (below unit.now self.old.stack) setting self.new }
        ensures kept { room self.new.stack ≡ room self.old.stack }
    {
        self.setting = setting;
        if setting.nested == 0 {
            self.activation.components = components;
            self.activation.steps = steps;
            self.point = Point::Closes(Err(Cause::Overrun));
            return;
        }
        match operation(unit, setting.object, number) {
            None => {
                let outcome = Err(Cause::Raised(Exception::ProgramError));
                self.activation.components = components;
                self.activation.steps = steps;
                self.point = Point::Closes(outcome);
            }
            Some(body) => {
                self.stack
                    .push_end(EndFrame::Closing(setting.object, number));
                self.stack
                    .push_end(EndFrame::Opening(body.statements, body.handlers));
                self.activation = begun(body, values, components, steps);
                self.setting = inner(&setting);
                self.point = Point::At(Step::Declares(body.declarations));
            }
        }
    }

    /// A call inside the object: what it comes to waits, and its body begins (6.4).
    fn call_inside(&mut self, unit: &FlatUnit, number: usize, values: Args)
        requires room { HasRoom 3 self.old.stack }
        requires space { HasSpace self.old.stack }
        ensures moves { MovesTo unit.now (calls (Callee.Internal number) values self.old.activation) (below unit.now self.old.stack) self.old.setting self.new }
        ensures kept { room self.new.stack ≡ room self.old.stack }
    {
        let setting = self.setting;
        let components = self.activation.components;
        let steps = self.activation.steps;
        self.stack.set_aside(copy_of(&self.activation));
        self.stack.push_resuming(setting);
        self.begin(unit, setting, number, values, components, steps);
    }

    /// A call of another object or of an own entry, a delay or Clock: it waits, and is asked of the host, where the actor may make
    /// it (9.5). An entry of the same object is one of the object whose body runs.
    fn call_outside(&mut self, unit: &FlatUnit, callee: Callee, values: Args)
        requires other { internal callee ≡ None }
        requires room { HasRoom 3 self.old.stack }
        requires space { HasSpace self.old.stack }
        ensures moves { MovesTo unit.now (calls callee values self.old.activation) (below unit.now self.old.stack) self.old.setting self.new }
        ensures kept { room self.new.stack ≡ room self.old.stack }
    {
        let _ = unit;
        let setting = self.setting;
        if !self.activation.spend(setting.is_task) {
            self.point = Point::At(Step::Listed(Err(Cause::Overrun)));
            return;
        }
        self.stack.set_aside(copy_of(&self.activation));
        self.stack.push_answering();
        let at = of_object(setting.object, callee);
        if is_past(setting.held, at) {
            self.point = Point::Outside(Err(Cause::Raised(Exception::ProgramError)));
            return;
        }
        self.stack.push_performing(setting.held, values);
        self.point = Point::Asks(at, values);
    }

    /// A call with these values (6.4, 9.5).
    pub(crate) fn call(&mut self, unit: &FlatUnit, callee: Callee, values: Args)
        requires room { HasRoom 3 self.old.stack }
        requires space { HasSpace self.old.stack }
        ensures moves { MovesTo unit.now (calls callee values self.old.activation) (below unit.now self.old.stack) self.old.setting self.new }
        ensures kept { room self.new.stack ≡ room self.old.stack }
    {
        match internal(callee) {
            Some(number) => self.call_inside(unit, number, values),
            None => self.call_outside(unit, callee, values),
        }
    }
}
