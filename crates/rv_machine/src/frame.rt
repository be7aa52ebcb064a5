//! What waits on the stack: frames, which name what is left to run by numbers of the unit's table. Each takes one kind of what
//! comes to it, and by these kinds they stand in groups.

ghost use Rattle.std.specs.Prelude.{◌≤◌};
ghost use Rattle.rv_exec.specs.Activations.{span};

use rv_code::{Callee, Operator, Prefix, Target};
use rv_event::entry::Exception;
use rv_exec::ranges::{Scheme, Values};
use rv_exec::setting::Setting;
use rv_shape::kind::Range;
use rv_value::Args;

/// The values of a loop's range, of which so many are left (5.5).
#[derive(Clone, Copy)]
pub struct Count {
    pub values: Values,
    pub left: u64,
    ghost within: { left ≤ span values.low values.high },
}

/// Waits for a value, in an expression (4.4).
#[derive(Clone, Copy)]
pub enum OperandFrame {
    /// The operator before the operand.
    Prefixing(Prefix),
    /// The links behind the first operand.
    Linking(usize),
    /// The operator behind its left operand's value, and the links behind it.
    Operating(Operator, i64, usize),
    /// The range in which the value lies.
    Bounding(Range),
}

/// Waits for a value, in a statement or a declaration (5.1, 3.11).
#[derive(Clone, Copy)]
pub enum ValueFrame {
    /// The target of an assignment.
    Assigning(Target),
    /// The statements of a branch, the branches behind it, and the statements behind `else`.
    Branching(usize, usize, usize),
    /// The alternatives of a case statement.
    Selecting(usize),
    /// The most turns of a loop, its condition and its statements.
    Testing(u64, usize, usize),
    /// The upper bound of a loop's range, and its statements.
    Lowering(Scheme, usize, usize),
    /// The lower bound's value, and the statements of the loop.
    Raising(Scheme, i64, usize),
    /// An exit.
    Leaving,
    /// A return.
    Returning,
    /// The target of a declaration, and the declarations behind it.
    Declaring(Target, usize),
}

/// Waits for the values of arguments, or for those that a call gives (6.4.1).
#[derive(Clone, Copy)]
pub enum ValuesFrame {
    /// The call.
    Passing(Callee),
    /// The value of a call in an expression.
    Giving,
    /// The targets of a call statement.
    Copying(usize),
}

/// Waits for the end of statements or declarations (5.1).
#[derive(Clone, Copy)]
pub enum EndFrame {
    /// The most turns of a loop, its condition and its statements.
    Turning(u64, usize, usize),
    /// The statements behind.
    Sequencing(usize),
    /// The statements of a body, and its handlers.
    Opening(usize, usize),
    /// The body of an operation of an object, by their numbers.
    Closing(usize, usize),
    /// The body of a task, by the number of its actor.
    Quitting(usize),
}

/// What waits.
#[derive(Clone, Copy)]
pub enum Frame {
    Operand(OperandFrame),
    Value(ValueFrame),
    Values(ValuesFrame),
    End(EndFrame),
    /// An argument of a call, by the values of those before it, and those behind it (6.4.1).
    Arguing(Args, usize),
    /// The end of the statements for one value of a loop's range, by the values that are left (5.5).
    Counting(Count, usize),
    /// The end of a body's statements, by its handlers (11.4).
    Handling(usize),
    /// The exception that was handled before a handler.
    Restoring(Option<Exception>),
    /// A call inside the object, whose caller ran in this setting.
    Resuming(Setting),
    /// A call of another object.
    Answering,
    /// The values of a call of another object, by an actor that may hold so many more.
    Performing(u32, Args),
    /// The end of a body of another object, a function or not, whose caller ran in this setting.
    Completing(bool, Setting),
    /// The end of an operation that was started.
    Exiting,
}
