//! The stack of a machine: frames and activations are put on it and taken off.

ghost use Rattle.std.specs.Prelude.{◌≡◌, ◌≤◌, ◌<◌, ◌+◌, ◌∷◌, [], IfOk, IfSome, IsNone, IsTrue, IsFalse, length};
ghost use Rattle.rv_flat.specs.declared.unit.FlatUnit.{FlatUnit};
ghost use Rattle.rv_machine.specs.Stacks.{below, frames_with, waiting, set_aside, first_of, rest_of, room, HasRoom, HasSpace};

use crate::frame::{Count, EndFrame, Frame, OperandFrame, ValueFrame, ValuesFrame};
use crate::pile::Pile;
use crate::stack::Stack;
use rv_code::MOST_SLOTS;
use rv_event::entry::Exception;
use rv_exec::activation::Activation;
use rv_exec::setting::Setting;
use rv_value::{Args, Scalars};
use std::alloc::{AllocError, Global};

impl Stack {
    /// An empty stack with the memory for so many frames and activations. Err where memory was refused.
    pub fn reserve(alloc: Global, frames: usize, activations: usize) -> Result<Stack, AllocError>
        ensures empty { IfOk result (λ s. waiting s ≡ []) }
        ensures alone { IfOk result (λ s. set_aside s ≡ []) }
        ensures frames { IfOk result (λ s. s.frames.capacity ≡ frames) }
        ensures activations { IfOk result (λ s. s.activations.capacity ≡ activations) }
    {
        let frames = Pile::reserve(alloc, frames)?;
        let activations = Pile::reserve(alloc, activations)?;
        Ok(Stack {
            frames,
            activations,
        })
    }

    /// Whether nothing waits, and no activation is set aside.
    pub fn is_empty(&self) -> bool
        ensures yes { IsTrue result → waiting self.now ≡ [] }
        ensures alone { IsTrue result → set_aside self.now ≡ [] }
        ensures no { IsFalse result → waiting self.now ≡ [] → set_aside self.now ≡ [] → ⊥ }
    {
        self.frames.is_empty() && self.activations.is_empty()
    }

    /// A frame of an expression is put on top.
    pub fn push_operand(&mut self, frame: OperandFrame)
        requires { HasRoom 1 self.old }
        ensures frames { waiting self.new ≡ Frame.Operand frame ∷ waiting self.old }
        ensures activations { self.new.activations ≡ self.old.activations }
        ensures longer { length self.new.frames.items.items ≡ length self.old.frames.items.items + 1 }
        ensures capacity { self.new.frames.capacity ≡ self.old.frames.capacity }
        ensures kept { room self.new ≡ room self.old }
    {
        self.frames.push(Frame::Operand(frame));
    }

    /// The values of the arguments before one that is evaluated, and those behind it, are put on top.
    pub fn push_argument(&mut self, values: Args, arguments: usize)
        requires { HasRoom 1 self.old }
        ensures frames { waiting self.new ≡ Frame.Arguing values arguments ∷ waiting self.old }
        ensures activations { self.new.activations ≡ self.old.activations }
        ensures longer { length self.new.frames.items.items ≡ length self.old.frames.items.items + 1 }
        ensures capacity { self.new.frames.capacity ≡ self.old.frames.capacity }
        ensures kept { room self.new ≡ room self.old }
    {
        self.frames.push(Frame::Arguing(values, arguments));
    }

    /// The values of a loop's range that are left are put on top.
    pub fn push_count(&mut self, count: Count, statements: usize)
        requires { HasRoom 1 self.old }
        ensures frames { waiting self.new ≡ Frame.Counting count statements ∷ waiting self.old }
        ensures activations { self.new.activations ≡ self.old.activations }
        ensures longer { length self.new.frames.items.items ≡ length self.old.frames.items.items + 1 }
        ensures capacity { self.new.frames.capacity ≡ self.old.frames.capacity }
        ensures kept { room self.new ≡ room self.old }
    {
        self.frames.push(Frame::Counting(count, statements));
    }

    /// A frame that waits for a value, in a statement, is put on top.
    pub fn push_value(&mut self, frame: ValueFrame)
        requires { HasRoom 1 self.old }
        ensures frames { waiting self.new ≡ Frame.Value frame ∷ waiting self.old }
        ensures activations { self.new.activations ≡ self.old.activations }
        ensures longer { length self.new.frames.items.items ≡ length self.old.frames.items.items + 1 }
        ensures capacity { self.new.frames.capacity ≡ self.old.frames.capacity }
        ensures kept { room self.new ≡ room self.old }
    {
        self.frames.push(Frame::Value(frame));
    }

    /// A frame that waits for the values of a call is put on top.
    pub fn push_values(&mut self, frame: ValuesFrame)
        requires { HasRoom 1 self.old }
        ensures frames { waiting self.new ≡ Frame.Values frame ∷ waiting self.old }
        ensures activations { self.new.activations ≡ self.old.activations }
        ensures longer { length self.new.frames.items.items ≡ length self.old.frames.items.items + 1 }
        ensures capacity { self.new.frames.capacity ≡ self.old.frames.capacity }
        ensures kept { room self.new ≡ room self.old }
    {
        self.frames.push(Frame::Values(frame));
    }

    /// A frame that waits for an end is put on top.
    pub fn push_end(&mut self, frame: EndFrame)
        requires { HasRoom 1 self.old }
        ensures frames { waiting self.new ≡ Frame.End frame ∷ waiting self.old }
        ensures activations { self.new.activations ≡ self.old.activations }
        ensures longer { length self.new.frames.items.items ≡ length self.old.frames.items.items + 1 }
        ensures capacity { self.new.frames.capacity ≡ self.old.frames.capacity }
        ensures kept { room self.new ≡ room self.old }
    {
        self.frames.push(Frame::End(frame));
    }

    /// The handlers of a body are put on top.
    pub fn push_handling(&mut self, handlers: usize)
        requires { HasRoom 1 self.old }
        ensures frames { waiting self.new ≡ Frame.Handling handlers ∷ waiting self.old }
        ensures activations { self.new.activations ≡ self.old.activations }
        ensures longer { length self.new.frames.items.items ≡ length self.old.frames.items.items + 1 }
        ensures capacity { self.new.frames.capacity ≡ self.old.frames.capacity }
        ensures kept { room self.new ≡ room self.old }
    {
        self.frames.push(Frame::Handling(handlers));
    }

    /// The exception that was handled before a handler is put on top.
    pub fn push_restoring(&mut self, exception: Option<Exception>)
        requires { HasRoom 1 self.old }
        ensures frames { waiting self.new ≡ Frame.Restoring exception ∷ waiting self.old }
        ensures activations { self.new.activations ≡ self.old.activations }
        ensures longer { length self.new.frames.items.items ≡ length self.old.frames.items.items + 1 }
        ensures capacity { self.new.frames.capacity ≡ self.old.frames.capacity }
        ensures kept { room self.new ≡ room self.old }
    {
        self.frames.push(Frame::Restoring(exception));
    }

    /// The setting of a call inside the object is put on top.
    pub fn push_resuming(&mut self, setting: Setting)
        requires { HasRoom 1 self.old }
        ensures frames { waiting self.new ≡ Frame.Resuming setting ∷ waiting self.old }
        ensures activations { self.new.activations ≡ self.old.activations }
        ensures longer { length self.new.frames.items.items ≡ length self.old.frames.items.items + 1 }
        ensures capacity { self.new.frames.capacity ≡ self.old.frames.capacity }
        ensures kept { room self.new ≡ room self.old }
    {
        self.frames.push(Frame::Resuming(setting));
    }

    /// A call of another object is put on top.
    pub fn push_answering(&mut self)
        requires { HasRoom 1 self.old }
        ensures frames { waiting self.new ≡ Frame.Answering ∷ waiting self.old }
        ensures activations { self.new.activations ≡ self.old.activations }
        ensures longer { length self.new.frames.items.items ≡ length self.old.frames.items.items + 1 }
        ensures capacity { self.new.frames.capacity ≡ self.old.frames.capacity }
        ensures kept { room self.new ≡ room self.old }
    {
        self.frames.push(Frame::Answering);
    }

    /// The values of a call of another object are put on top, by an actor that may hold so many more.
    pub fn push_performing(&mut self, held: u32, values: Args)
        requires { HasRoom 1 self.old }
        ensures frames { waiting self.new ≡ Frame.Performing held values ∷ waiting self.old }
        ensures activations { self.new.activations ≡ self.old.activations }
        ensures longer { length self.new.frames.items.items ≡ length self.old.frames.items.items + 1 }
        ensures capacity { self.new.frames.capacity ≡ self.old.frames.capacity }
        ensures kept { room self.new ≡ room self.old }
    {
        self.frames.push(Frame::Performing(held, values));
    }

    /// The end of a body of another object is put on top.
    pub fn push_completing(&mut self, is_function: bool, setting: Setting)
        requires { HasRoom 1 self.old }
        ensures frames { waiting self.new ≡ Frame.Completing is_function setting ∷ waiting self.old }
        ensures activations { self.new.activations ≡ self.old.activations }
        ensures longer { length self.new.frames.items.items ≡ length self.old.frames.items.items + 1 }
        ensures capacity { self.new.frames.capacity ≡ self.old.frames.capacity }
        ensures kept { room self.new ≡ room self.old }
    {
        self.frames.push(Frame::Completing(is_function, setting));
    }

    /// The end of an operation that was started is put on top.
    pub fn push_exiting(&mut self)
        requires { HasRoom 1 self.old }
        ensures frames { waiting self.new ≡ Frame.Exiting ∷ waiting self.old }
        ensures activations { self.new.activations ≡ self.old.activations }
        ensures longer { length self.new.frames.items.items ≡ length self.old.frames.items.items + 1 }
        ensures capacity { self.new.frames.capacity ≡ self.old.frames.capacity }
        ensures kept { room self.new ≡ room self.old }
    {
        self.frames.push(Frame::Exiting);
    }

    /// The frame on top is taken off, if something waits. An activation that was set aside without a frame is one of a call that
    /// waits for another object.
    pub fn pop(&mut self) -> Option<Frame>
        ensures some { IfSome result (λ frame. (unit : FlatUnit) → below unit self.old ≡ frames_with unit (frame ∷ waiting self.new) (set_aside self.new)) }
        ensures none { IsNone result → waiting self.old ≡ [] }
        ensures alone { IsNone result → set_aside self.old ≡ [] }
        ensures shorter { length self.new.frames.items.items ≤ length self.old.frames.items.items }
        ensures capacity { self.new.frames.capacity ≡ self.old.frames.capacity }
        ensures kept { room self.new ≡ room self.old }
    {
        if let Some(frame) = self.frames.pop() {
            return Some(frame);
        }
        if self.activations.is_empty() {
            return None;
        }
        Some(Frame::Answering)
    }

    /// An activation is set aside while its call runs.
    pub fn set_aside(&mut self, activation: Activation)
        requires { HasSpace self.old }
        ensures frames { self.new.frames ≡ self.old.frames }
        ensures activations { set_aside self.new ≡ activation ∷ set_aside self.old }
        ensures same { length self.new.frames.items.items ≡ length self.old.frames.items.items }
        ensures capacity { self.new.frames.capacity ≡ self.old.frames.capacity }
        ensures kept { room self.new ≡ room self.old }
    {
        self.activations.push(activation);
    }

    /// The activation that was set aside last is taken up again; an empty one where there is none.
    pub fn take_up(&mut self) -> Activation
        ensures frames { self.new.frames ≡ self.old.frames }
        ensures first { result ≡ first_of (set_aside self.old) }
        ensures rest { set_aside self.new ≡ rest_of (set_aside self.old) }
        ensures kept { room self.new ≡ room self.old }
    {
        match self.activations.pop() {
            Some(activation) => activation,
            None => Activation {
                slots: [0; MOST_SLOTS],
                components: Scalars::new(),
                steps: 0,
                requests: 0,
            },
        }
    }
}
