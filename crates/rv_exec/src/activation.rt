//! The activation of a body: its variables, the components that it works on, and what it may still do.

ghost use Rattle.std.specs.Prelude.{◌≡◌, ◌≤◌, ◌<◌, ◌+◌, ◌^◌, IsTrue, IsFalse, Some, None, pos, slice_index_or, slice_set, []};
ghost use Rattle.rv_exec.specs.Activations.{assigned, joined, stepped, spent, refilled, steps_left, put_slot, put_at, copied_back, given_back, bound, first_value, start_of, next_given};

use crate::end::End;
use crate::operators::within;
use rv_code::{MOST_SLOTS, Place, Target};
use rv_shape::kind::{Parameter, ParameterMode, Range, ValueType};
use rv_value::{Args, Scalars};

/// The steps of a body, and of a task's own body between two requests; the limit is our own.
pub const MOST_STEPS: u32 = 100_000;

/// A body between two statements: its parameters and variables, and the components of the object that it holds.
#[derive(Drop)]
pub struct Activation {
    /// Parameters and variables, each in its slot; 0 where nothing was put yet.
    pub slots: [i64; MOST_SLOTS],
    pub components: Scalars,
    /// How many steps may still be taken, at most `MOST_STEPS`.
    pub steps: u32,
    /// How many requests may still be made.
    pub requests: u64,
}

// The list with the value at the index, where it has that index.
#[tactic(auto, using(crate::proofs::Lists::front_same, crate::proofs::Lists::front_other))]
fn replaced(values: &Scalars, index: usize, value: i64) -> Scalars
    ensures { result ≡ slice_set values.now index value }
{
    let mut changed = Scalars::new();
    for (place, old) in values.as_slice().iter().enumerate() {
        if place == index {
            changed.push(value);
            continue;
        }
        changed.push(*old);
    }
    changed
}

/// Puts one more value behind the others, where there are fewer than four.
pub fn join(values: &mut Args, value: i64)
    ensures { values.new ≡ joined values.old value }
{
    if !values.is_full() {
        values.push(value);
    }
}

/// The value at an index, or 0 past the last.
pub fn value_at(values: Args, index: usize) -> i64
    ensures { result ≡ slice_index_or values index (pos 0) }
{
    let given = values.as_slice();
    if index < given.len() { given[index] } else { 0 }
}

impl Activation {
    /// What stands in a slot; 0 past the last.
    pub fn variable(&self, slot: usize) -> i64
        ensures { result ≡ slice_index_or self.now.slots slot (pos 0) }
    {
        if slot < MOST_SLOTS {
            self.slots[slot]
        } else {
            0
        }
    }

    /// The component of that index, from 0; 0 past the last.
    pub fn component(&self, index: usize) -> i64
        ensures { result ≡ slice_index_or self.now.components index (pos 0) }
    {
        let values = self.components.as_slice();
        if index < values.len() {
            values[index]
        } else {
            0
        }
    }

    /// Puts a value into a slot. Past the last nothing changes.
    pub fn put_slot(&mut self, slot: usize, value: i64)
        ensures { self.new ≡ put_slot slot value self.old }
    {
        if slot < MOST_SLOTS {
            self.slots[slot] = value;
        }
    }

    fn put_at(&mut self, place: Place, value: i64)
        ensures { self.new ≡ put_at place value self.old }
    {
        match place {
            Place::Variable(slot) => self.put_slot(slot, value),
            Place::Component(index) => self.components = replaced(&self.components, index, value),
        }
    }

    /// The target takes a value of its range (5.2).
    pub fn assign(&mut self, target: Target, value: i64) -> End
        ensures { (result, self.new) ≡ assigned target value self.old }
    {
        match within(target.range, value) {
            Ok(value) => {
                self.put_at(target.place, value);
                End::Next
            }
            Err(cause) => End::Abandoned(cause),
        }
    }

    /// Takes a statement step, where one is left.
    pub fn step(&mut self) -> bool
        ensures yes { IsTrue result → stepped self.old ≡ Some self.new }
        ensures no { IsFalse result → stepped self.old ≡ None }
        ensures same { IsFalse result → self.new ≡ self.old }
        ensures fewer { IsTrue result → steps_left self.new < steps_left self.old }
    {
        if self.steps == 0 {
            return false;
        }
        self.steps -= 1;
        true
    }

    /// Takes a request of a task's budget, where one is left.
    pub fn spend(&mut self, is_task: bool) -> bool
        ensures yes { IsTrue result → spent is_task self.old ≡ Some self.new }
        ensures no { IsFalse result → spent is_task self.old ≡ None }
        ensures same { IsFalse result → self.new ≡ self.old }
        ensures fewer { IsTrue result → steps_left (refilled is_task self.new) ≤ steps_left self.old }
    {
        if !is_task {
            return true;
        }
        if self.requests == 0 {
            return false;
        }
        self.requests -= 1;
        true
    }

    /// Gives a task's own body its steps anew.
    pub fn refill(&mut self, is_task: bool)
        ensures { self.new ≡ refilled is_task self.old }
    {
        if is_task {
            self.steps = MOST_STEPS;
        }
    }

    /// The values that come back from a call go to the targets (6.4.1).
    pub fn copy_back(&mut self, targets: &Vec<Target>, values: Args) -> End
        ensures { (result, self.new) ≡ copied_back targets.now.items 0 values self.old }
    {
        for (index, target) in targets.iter().enumerate() {
            match self.assign(*target, value_at(values, index)) {
                End::Next => {}
                end => return end,
            }
        }
        End::Next
    }

    /// The values of the parameters that come back (6.4.1).
    pub fn given_back(&self, parameters: &Vec<Parameter>) -> Args
        ensures { result ≡ given_back parameters.now.items 0 self.now.slots [] }
    {
        let mut values = Args::new();
        for (slot, parameter) in parameters.iter().enumerate() {
            if parameter.mode.goes_out() {
                join(&mut values, self.variable(slot));
            }
        }
        values
    }

    /// The parameters take the values of a call (6.4.1).
    pub fn bind(&mut self, parameters: &Vec<Parameter>, values: Args)
        ensures slots { self.new.slots ≡ bound parameters.now.items 0 0 values self.old.slots }
        ensures rest { (self.new.components ≡ self.old.components) × (self.new.steps ≡ self.old.steps) × (self.new.requests ≡ self.old.requests) }
    {
        let mut given: usize = 0;
        for (slot, parameter) in parameters.iter().enumerate() {
            self.put_slot(slot, start_of(parameter, values, given));
            given = next_given(parameter.mode, given);
        }
    }
}

fn start_of(parameter: &Parameter, values: Args, given: usize) -> i64
    ensures { result ≡ start_of parameter.now values given }
{
    if parameter.mode.goes_in() {
        value_at(values, given)
    } else {
        first_value(parameter.range)
    }
}

fn next_given(mode: ParameterMode, given: usize) -> usize
    requires { given < 2 ^ 63 }
    ensures { result ≡ next_given mode given }
{
    if mode.goes_in() { given + 1 } else { given }
}

fn first_value(range: Range) -> i64
    ensures { result ≡ first_value range.of range.low }
{
    match range.of {
        ValueType::Integer | ValueType::Boolean => range.low,
        ValueType::Time | ValueType::TimeSpan => 0,
    }
}
