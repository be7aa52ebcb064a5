//! One move of a machine.

ghost use Rattle.std.specs.Prelude.{◌≡◌, ◌≤◌, ◌<◌, [], true, false, None};
ghost use Rattle.rv_flat.specs.Tables.{trees};
ghost use Rattle.rv_machine.specs.Machines.{MovesTo, question, comes_in, is_coming};
ghost use Rattle.rv_machine.specs.Points.{control, control_in};
ghost use Rattle.rv_machine.specs.Stacks.{below, waiting, set_aside, HasRoom, HasSpace, room};

use crate::expressions::{argue, evaluate, link};
use crate::frame::Count;
use crate::machine::Machine;
use crate::point::{Point, Step};
use crate::select::select;
use crate::statements::{count, declare, run, run_all, try_branches, turn};
use rv_exec::asks::exit_of;
use rv_exec::end::Cause;
use rv_flat::unit::FlatUnit;
use rv_value::Args;

impl Machine {
    // An expression (4.4).
    fn at_expression(&mut self, unit: &FlatUnit, number: usize)
        requires { HasRoom 2 self.old.stack }
        ensures moves { MovesTo unit.now (control_in (trees unit.now.code) (Step.Evaluates number) self.old.activation) (below unit.now self.old.stack) self.old.setting self.new }
        ensures kept { room self.new.stack ≡ room self.old.stack }
    {
        let step = evaluate(unit, &mut self.stack, &self.activation, number);
        self.point = Point::At(step);
    }

    // The links behind a value (4.5).
    fn at_links(&mut self, unit: &FlatUnit, links: usize, value: i64)
        requires { HasRoom 2 self.old.stack }
        ensures moves { MovesTo unit.now (control_in (trees unit.now.code) (Step.Links links value) self.old.activation) (below unit.now self.old.stack) self.old.setting self.new }
        ensures kept { room self.new.stack ≡ room self.old.stack }
    {
        let step = link(unit, &mut self.stack, &self.activation, links, value);
        self.point = Point::At(step);
    }

    // The arguments behind these values (6.4.1).
    fn at_arguments(&mut self, unit: &FlatUnit, arguments: usize, values: Args)
        requires { HasRoom 2 self.old.stack }
        ensures moves { MovesTo unit.now (control_in (trees unit.now.code) (Step.Argues arguments values) self.old.activation) (below unit.now self.old.stack) self.old.setting self.new }
        ensures kept { room self.new.stack ≡ room self.old.stack }
    {
        let step = argue(unit, &mut self.stack, &self.activation, arguments, values);
        self.point = Point::At(step);
    }

    // A statement (5.1).
    fn at_statement(&mut self, unit: &FlatUnit, number: usize)
        requires { HasRoom 2 self.old.stack }
        ensures moves { MovesTo unit.now (control_in (trees unit.now.code) (Step.Runs number) self.old.activation) (below unit.now self.old.stack) self.old.setting self.new }
        ensures kept { room self.new.stack ≡ room self.old.stack }
    {
        let step = run(
            unit,
            &mut self.stack,
            &mut self.activation,
            &self.setting,
            number,
        );
        self.point = Point::At(step);
    }

    // Statements (5.1).
    fn at_statements(&mut self, unit: &FlatUnit, statements: usize)
        requires { HasRoom 3 self.old.stack }
        ensures moves { MovesTo unit.now (control_in (trees unit.now.code) (Step.RunsAll statements) self.old.activation) (below unit.now self.old.stack) self.old.setting self.new }
        ensures kept { room self.new.stack ≡ room self.old.stack }
    {
        let step = run_all(
            unit,
            &mut self.stack,
            &mut self.activation,
            &self.setting,
            statements,
        );
        self.point = Point::At(step);
    }

    // Branches, before the statements behind `else` (5.3).
    fn at_branches(&mut self, unit: &FlatUnit, branches: usize, otherwise: usize)
        requires { HasRoom 1 self.old.stack }
        ensures moves { MovesTo unit.now (control_in (trees unit.now.code) (Step.Tries branches otherwise) self.old.activation) (below unit.now self.old.stack) self.old.setting self.new }
        ensures kept { room self.new.stack ≡ room self.old.stack }
    {
        let step = try_branches(
            unit,
            &mut self.stack,
            &mut self.activation,
            branches,
            otherwise,
        );
        self.point = Point::At(step);
    }

    // The alternatives for a value (5.4).
    fn at_alternatives(&mut self, unit: &FlatUnit, alternatives: usize, value: i64)
        ensures moves { MovesTo unit.now (control_in (trees unit.now.code) (Step.Selects alternatives value) self.old.activation) (below unit.now self.old.stack) self.old.setting self.new }
        ensures kept { room self.new.stack ≡ room self.old.stack }
    {
        let step = select(unit, &self.activation, alternatives, value);
        self.point = Point::At(step);
    }

    // So many turns of a loop at most (5.5).
    fn at_turns(&mut self, unit: &FlatUnit, turns: u64, condition: usize, statements: usize)
        requires { HasRoom 2 self.old.stack }
        ensures moves { MovesTo unit.now (control_in (trees unit.now.code) (Step.Turns turns condition statements) self.old.activation) (below unit.now self.old.stack) self.old.setting self.new }
        ensures kept { room self.new.stack ≡ room self.old.stack }
    {
        let step = turn(
            unit,
            &mut self.stack,
            &mut self.activation,
            turns,
            condition,
            statements,
        );
        self.point = Point::At(step);
    }

    // The values of a loop's range that are left (5.5).
    fn at_values(&mut self, unit: &FlatUnit, values: Count, statements: usize)
        requires { HasRoom 2 self.old.stack }
        ensures moves { MovesTo unit.now (control_in (trees unit.now.code) (Step.Counts values statements) self.old.activation) (below unit.now self.old.stack) self.old.setting self.new }
        ensures kept { room self.new.stack ≡ room self.old.stack }
    {
        let step = count(
            unit,
            &mut self.stack,
            &mut self.activation,
            values,
            statements,
        );
        self.point = Point::At(step);
    }

    // Declarations (3.11).
    fn at_declarations(&mut self, unit: &FlatUnit, declarations: usize)
        requires { HasRoom 1 self.old.stack }
        ensures moves { MovesTo unit.now (control_in (trees unit.now.code) (Step.Declares declarations) self.old.activation) (below unit.now self.old.stack) self.old.setting self.new }
        ensures kept { room self.new.stack ≡ room self.old.stack }
    {
        let step = declare(unit, &mut self.stack, &mut self.activation, declarations);
        self.point = Point::At(step);
    }

    // The end of a body that isn't asked, since its actor is left waiting, or in a body that it called (9.5.1).
    fn at_end(&mut self, unit: &FlatUnit, is_function: bool, outcome: Result<Args, Cause>)
        requires { question (Point.Ends is_function outcome) self.old.activation ≡ None }
        ensures moves { MovesTo unit.now (control (trees unit.now.code) (Point.Ends is_function outcome) self.old.activation) (below unit.now self.old.stack) self.old.setting self.new }
        ensures kept { room self.new.stack ≡ room self.old.stack }
    {
        let _ = unit;
        let _ = is_function;
        self.point = Point::Outside(outcome);
    }

    // The end of a task that can't quit (9.3).
    fn at_task_end(&mut self, unit: &FlatUnit, outcome: Result<Args, Cause>)
        requires { question (Point.Quits outcome) self.old.activation ≡ None }
        ensures moves { MovesTo unit.now (control (trees unit.now.code) (Point.Quits outcome) self.old.activation) (below unit.now self.old.stack) self.old.setting self.new }
        ensures kept { room self.new.stack ≡ room self.old.stack }
    {
        let _ = unit;
        self.point = Point::Quitted(exit_of(&outcome));
    }

    // One move within a body.
    fn at_step(&mut self, unit: &FlatUnit, step: Step)
        requires room { HasRoom 3 self.old.stack }
        requires space { HasSpace self.old.stack }
        requires waits { comes_in step ≡ true → waiting self.old.stack ≡ [] → set_aside self.old.stack ≡ [] → ⊥ }
        ensures moves { MovesTo unit.now (control_in (trees unit.now.code) step self.old.activation) (below unit.now self.old.stack) self.old.setting self.new }
        ensures kept { room self.new.stack ≡ room self.old.stack }
    {
        match step {
            Step::Evaluates(number) => self.at_expression(unit, number),
            Step::Links(links, value) => self.at_links(unit, links, value),
            Step::Argues(arguments, values) => self.at_arguments(unit, arguments, values),
            Step::Calls(callee, values) => self.call(unit, callee, values),
            Step::Runs(number) => self.at_statement(unit, number),
            Step::RunsAll(statements) => self.at_statements(unit, statements),
            Step::Tries(branches, otherwise) => self.at_branches(unit, branches, otherwise),
            Step::Selects(alternatives, value) => self.at_alternatives(unit, alternatives, value),
            Step::Turns(turns, condition, statements) => {
                self.at_turns(unit, turns, condition, statements)
            }
            Step::Counts(values, statements) => self.at_values(unit, values, statements),
            Step::Declares(declarations) => self.at_declarations(unit, declarations),
            Step::Valued(value) => self.value_comes(unit, value),
            Step::Listed(outcome) => self.values_come(unit, outcome),
            Step::Done(end) => self.end_comes(unit, end),
        }
    }

    /// One move, where nothing is asked and the run isn't over: the run turns to a part of an expression, of a statement or of a
    /// body, or what comes is taken by the frame on top.
    pub(crate) fn advance(&mut self, unit: &FlatUnit)
        requires room { HasRoom 3 self.old.stack }
        requires space { HasSpace self.old.stack }
        requires unasked { question self.old.point self.old.activation ≡ None }
        requires waits { is_coming self.old.point ≡ true → waiting self.old.stack ≡ [] → set_aside self.old.stack ≡ [] → ⊥ }
        ensures moves { MovesTo unit.now (control (trees unit.now.code) self.old.point self.old.activation) (below unit.now self.old.stack) self.old.setting self.new }
        ensures kept { room self.new.stack ≡ room self.old.stack }
    {
        match self.point {
            Point::At(step) => self.at_step(unit, step),
            Point::Ends(is_function, outcome) => self.at_end(unit, is_function, outcome),
            Point::Quits(outcome) => self.at_task_end(unit, outcome),
            Point::Closes(outcome) => self.body_comes(unit, outcome),
            Point::Reaches(outcome) => self.request_comes(unit, outcome),
            Point::Starts(object, number, is_function) => {
                self.start_comes(unit, object, number, is_function)
            }
            Point::Outside(outcome) => self.call_comes(unit, outcome),
            Point::Exited(_) | Point::Quitted(_) => self.over_comes(unit),
            Point::Asks(_, _) | Point::Waits(_) | Point::Fires(_, _) => {}
        }
    }
}
