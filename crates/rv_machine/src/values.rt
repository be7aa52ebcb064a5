//! The value of an expression comes to what waits for it.

ghost use Rattle.std.specs.Prelude.{◌≡◌, ◌∷◌, List, Ok, Err, pos};
ghost use Rattle.rv_flat.specs.Tables.{trees};
ghost use Rattle.rv_flat.specs.Trees.{tree_at, as_expressions};
ghost use Rattle.rv_frames.specs.Frames.{Frame as Waiting, arguing, comes, valued, listed, done};
ghost use Rattle.rv_machine.specs.Points.{control_in, Leads};
ghost use Rattle.rv_machine.specs.Stacks.{below, operand_frame, value_frame, values_frame, HasRoom, room};

use crate::copying::copy_back;
use crate::ends::is_next;
use crate::frame::{Count, EndFrame, OperandFrame, ValueFrame, ValuesFrame};
use crate::point::Step;
use crate::stack::Stack;
use rv_event::entry::Exception;
use rv_exec::activation::{Activation, join, value_at};
use rv_exec::end::{Cause, End};
use rv_exec::operators::{is_true, prefix_of, result_of, within};
use rv_exec::outcome::exit_where;
use rv_exec::ranges::{Scheme, Values, fits, span};
use rv_flat::unit::FlatUnit;
use rv_value::Args;

/// The value of an operand comes: what its operator makes of it, or the links or arguments behind it (4.4).
pub fn take_operand(
    unit: &FlatUnit,
    activation: &Activation,
    frame: OperandFrame,
    value: i64,
) -> Step
    ensures { (fs : List Waiting) → Leads (comes (valued (Ok value) activation.now)) (operand_frame (trees unit.now.code) frame ∷ fs) (control_in (trees unit.now.code) result activation.now) fs }
{
    match frame {
        OperandFrame::Prefixing(prefix) => Step::Valued(prefix_of(prefix, value)),
        OperandFrame::Linking(links) => Step::Links(links, value),
        OperandFrame::Operating(operator, left, links) => {
            match result_of(operator, left, value) {
                Ok(result) => Step::Links(links, result),
                Err(cause) => Step::Valued(Err(cause)),
            }
        }
        OperandFrame::Bounding(range) => Step::Valued(within(range, value)),
    }
}

/// An operand fails: so does what waits for it (11.4).
pub fn fail_operand(
    unit: &FlatUnit,
    activation: &Activation,
    frame: OperandFrame,
    cause: Cause,
) -> Step
    ensures { (fs : List Waiting) → Leads (comes (valued (Err cause) activation.now)) (operand_frame (trees unit.now.code) frame ∷ fs) (control_in (trees unit.now.code) result activation.now) fs }
{
    let _ = unit;
    let _ = activation;
    let _ = frame;
    Step::Valued(Err(cause))
}

/// The value of an argument comes: it stands behind those before it (6.4.1).
pub fn take_argument(
    unit: &FlatUnit,
    activation: &Activation,
    before: Args,
    arguments: usize,
    value: i64,
) -> Step
    ensures { (fs : List Waiting) → Leads (comes (valued (Ok value) activation.now)) (arguing before (as_expressions (tree_at (trees unit.now.code) arguments)) ∷ fs) (control_in (trees unit.now.code) result activation.now) fs }
{
    let _ = unit;
    let _ = activation;
    let mut values = before;
    join(&mut values, value);
    Step::Argues(arguments, values)
}

// The condition of a loop: a turn takes a step (5.5).
fn test(
    unit: &FlatUnit,
    stack: &mut Stack,
    activation: &mut Activation,
    turns: u64,
    condition: usize,
    statements: usize,
    value: i64,
) -> Step
    requires { HasRoom 1 stack.old }
    ensures leads { Leads (comes (valued (Ok value) activation.old)) (value_frame (trees unit.now.code) (ValueFrame.Testing turns condition statements) ∷ below unit.now stack.old) (control_in (trees unit.now.code) result activation.new) (below unit.now stack.new) }
    ensures kept { room stack.new ≡ room stack.old }
{
    if !is_true(value) {
        return Step::Done(End::Next);
    }
    if !activation.step() {
        return Step::Done(End::Abandoned(Cause::Overrun));
    }
    stack.push_end(EndFrame::Turning(turns, condition, statements));
    Step::RunsAll(statements)
}

// The upper bound of a loop's range: the values between the bounds, if the range isn't null (3.5, 5.5).
fn start_count(
    unit: &FlatUnit,
    activation: &Activation,
    scheme: Scheme,
    low: i64,
    high: i64,
    statements: usize,
) -> Step
    ensures { (fs : List Waiting) → Leads (comes (valued (Ok high) activation.now)) (value_frame (trees unit.now.code) (ValueFrame.Raising scheme low statements) ∷ fs) (control_in (trees unit.now.code) result activation.now) fs }
{
    if high < low {
        return Step::Done(End::Next);
    }
    if !fits(scheme.range, low, high) {
        return Step::Done(End::Abandoned(Cause::Raised(Exception::ConstraintError)));
    }
    let values = Values {
        slot: scheme.parameter,
        is_reverse: scheme.is_reverse,
        low,
        high,
    };
    let left = span(values);
    Step::Counts(Count { values, left }, statements)
}

/// The value that a statement or a declaration waits for comes (5.1, 3.11).
pub fn take_value(
    unit: &FlatUnit,
    stack: &mut Stack,
    activation: &mut Activation,
    frame: ValueFrame,
    value: i64,
) -> Step
    requires { HasRoom 1 stack.old }
    ensures leads { Leads (comes (valued (Ok value) activation.old)) (value_frame (trees unit.now.code) frame ∷ below unit.now stack.old) (control_in (trees unit.now.code) result activation.new) (below unit.now stack.new) }
    ensures kept { room stack.new ≡ room stack.old }
{
    match frame {
        ValueFrame::Assigning(target) => Step::Done(activation.assign(target, value)),
        ValueFrame::Branching(statements, branches, otherwise) => {
            if is_true(value) {
                Step::RunsAll(statements)
            } else {
                Step::Tries(branches, otherwise)
            }
        }
        ValueFrame::Selecting(alternatives) => Step::Selects(alternatives, value),
        ValueFrame::Testing(turns, condition, statements) => {
            test(unit, stack, activation, turns, condition, statements, value)
        }
        ValueFrame::Lowering(scheme, high, statements) => {
            stack.push_value(ValueFrame::Raising(scheme, value, statements));
            Step::Evaluates(high)
        }
        ValueFrame::Raising(scheme, low, statements) => {
            start_count(unit, activation, scheme, low, value, statements)
        }
        ValueFrame::Leaving => Step::Done(exit_where(value)),
        ValueFrame::Returning => Step::Done(End::Return(Some(value))),
        ValueFrame::Declaring(target, declarations) => {
            let end = activation.assign(target, value);
            if is_next(end) {
                Step::Declares(declarations)
            } else {
                Step::Done(end)
            }
        }
    }
}

/// The value that a statement or a declaration waits for fails: so does the statement (11.4).
pub fn fail_value(unit: &FlatUnit, activation: &Activation, frame: ValueFrame, cause: Cause) -> Step
    ensures { (fs : List Waiting) → Leads (comes (valued (Err cause) activation.now)) (value_frame (trees unit.now.code) frame ∷ fs) (control_in (trees unit.now.code) result activation.now) fs }
{
    let _ = unit;
    let _ = activation;
    let _ = frame;
    Step::Done(End::Abandoned(cause))
}

/// The value of an operand comes, or the cause that it fails by.
pub fn operand_comes(
    unit: &FlatUnit,
    activation: &Activation,
    frame: OperandFrame,
    value: Result<i64, Cause>,
) -> Step
    ensures { (fs : List Waiting) → Leads (comes (valued value activation.now)) (operand_frame (trees unit.now.code) frame ∷ fs) (control_in (trees unit.now.code) result activation.now) fs }
{
    match value {
        Ok(value) => take_operand(unit, activation, frame, value),
        Err(cause) => fail_operand(unit, activation, frame, cause),
    }
}

/// The value of an argument comes, or the cause that it fails by (6.4.1).
pub fn argument_comes(
    unit: &FlatUnit,
    activation: &Activation,
    before: Args,
    arguments: usize,
    value: Result<i64, Cause>,
) -> Step
    ensures { (fs : List Waiting) → Leads (comes (valued value activation.now)) (arguing before (as_expressions (tree_at (trees unit.now.code) arguments)) ∷ fs) (control_in (trees unit.now.code) result activation.now) fs }
{
    match value {
        Ok(value) => take_argument(unit, activation, before, arguments, value),
        Err(cause) => Step::Listed(Err(cause)),
    }
}

/// The value that a statement or a declaration waits for comes, or the cause that it fails by.
pub fn part_comes(
    unit: &FlatUnit,
    stack: &mut Stack,
    activation: &mut Activation,
    frame: ValueFrame,
    value: Result<i64, Cause>,
) -> Step
    requires { HasRoom 1 stack.old }
    ensures leads { Leads (comes (valued value activation.old)) (value_frame (trees unit.now.code) frame ∷ below unit.now stack.old) (control_in (trees unit.now.code) result activation.new) (below unit.now stack.new) }
    ensures kept { room stack.new ≡ room stack.old }
{
    match value {
        Ok(value) => take_value(unit, stack, activation, frame, value),
        Err(cause) => fail_value(unit, activation, frame, cause),
    }
}

/// The values of arguments come, or those that a call gives (6.4.1).
pub fn give_values(
    unit: &FlatUnit,
    activation: &mut Activation,
    frame: ValuesFrame,
    values: Args,
) -> Step
    ensures { (fs : List Waiting) → Leads (comes (listed (Ok values) activation.old)) (values_frame (trees unit.now.code) frame ∷ fs) (control_in (trees unit.now.code) result activation.new) fs }
{
    match frame {
        ValuesFrame::Passing(callee) => Step::Calls(callee, values),
        ValuesFrame::Giving => Step::Valued(Ok(value_at(values, 0))),
        ValuesFrame::Copying(targets) => {
            Step::Done(copy_back(&unit.code, targets, values, activation))
        }
    }
}

/// An argument fails, or a call (11.4).
pub fn fail_values(
    unit: &FlatUnit,
    activation: &Activation,
    frame: ValuesFrame,
    cause: Cause,
) -> Step
    ensures { (fs : List Waiting) → Leads (comes (listed (Err cause) activation.now)) (values_frame (trees unit.now.code) frame ∷ fs) (control_in (trees unit.now.code) result activation.now) fs }
{
    let _ = unit;
    let _ = activation;
    match frame {
        ValuesFrame::Passing(_) => Step::Listed(Err(cause)),
        ValuesFrame::Giving => Step::Valued(Err(cause)),
        ValuesFrame::Copying(_) => Step::Done(End::Abandoned(cause)),
    }
}

/// The values of arguments come, or those that a call gives, or the cause that one fails by.
pub fn values_come_to(
    unit: &FlatUnit,
    activation: &mut Activation,
    frame: ValuesFrame,
    outcome: Result<Args, Cause>,
) -> Step
    ensures { (fs : List Waiting) → Leads (comes (listed outcome activation.old)) (values_frame (trees unit.now.code) frame ∷ fs) (control_in (trees unit.now.code) result activation.new) fs }
{
    match outcome {
        Ok(values) => give_values(unit, activation, frame, values),
        Err(cause) => fail_values(unit, activation, frame, cause),
    }
}
