//! Looks at the commands of a run, as long as a run reads them.

ghost use Rattle.std.specs.Prelude.{◌≡◌, ◌<◌, ◌+◌, None, Some, Ok, true, false, string_bytes};
ghost use Rattle.rv_fault.specs.Parts.{section_of};
ghost use Rattle.rv_shell.specs.Orders.{order_of};
ghost use Rattle.rv_text.specs.Words.{words};
ghost use Rattle.rv_check.specs.ScriptLines.{lines_behind};
ghost use Rattle.rv_check.specs.CommandLines.{CountsCommands, IsLeft, Leads, Loads, LoadsUnit, TakesLine, before_commands, by_end, by_order, most_commands, unless_most};

use crate::lines::LinesBehind;
use rv_fault::{Failure, Part, Parts, What, refused, text_unit};
use rv_shape::catalogue::Catalogue;
use rv_shell::{Order, order_of};
use rv_step::reading::StepError;
use std::alloc::Global;
use std::marker::Model;
use std::mem;

// How many commands a run reads at most.
const MOST_COMMANDS: usize = 100_000;

// A unit text that is being read behind a command `load` at a line.
#[derive(Drop)]
struct Loading {
    line: usize,
    text: String,
}

// Loads the unit of a text, whose command stands on a line.
fn load_unit(
    alloc: Global,
    catalogue: &mut Catalogue,
    line: usize,
    text: &str,
) -> Result<(), Failure>
    ensures { LoadsUnit line catalogue.old catalogue.new text.now result }
{
    let unit = match text_unit(alloc, catalogue, line, text) {
        Ok(unit) => unit,
        Err(failure) => return Err(failure),
    };
    match catalogue.add(&unit.shape) {
        Ok(()) => Ok(()),
        Err(_) => Err(Failure::Memory),
    }
}

// A run whose commands are looked at: the units that are loaded, what a `load` began, and how many commands were read.
#[derive(Drop)]
struct Review {
    alloc: Global,
    catalogue: Catalogue,
    load: Option<Loading>,
    count: usize,
}

impl Model for Review {
    ghost use Rattle.std.specs.Prelude.{◌≤◌, option_map, string_bytes};
    ghost use Rattle.rv_check.specs.CommandLines.{Serving, most_commands};

    ghost Value = { Serving };

    ghost view = { λ r. record {
      shapes = r.catalogue;
      load = option_map (λ l. record { line = l.line; text = string_bytes l.text }) r.load;
      count = r.count;
    } };

    ghost invariant = { λ r. r.count ≤ most_commands };
}

impl Review {
    // One command more, behind which the run goes on.
    fn go_on(&mut self) -> Result<bool, Failure>
        requires { self.now.count < most_commands }
        ensures { (result ≡ Ok true) × (self.new ≡ record self.old { count = self.old.count + 1 }) }
    {
        self.count += 1;
        Ok(true)
    }

    // What a command at a line asks.
    fn take_order(&mut self, line: usize, order: Order) -> Result<bool, Failure>
        requires { self.now.count < most_commands }
        ensures { Leads (λ taken. taken ≡ by_order self.old line (Some order)) self.new result }
    {
        match order {
            Order::Change(Err(fault)) => Err(refused(line, What::List(fault))),
            Order::Quit => {
                self.count += 1;
                Ok(false)
            }
            Order::Load => {
                let text = String::new(self.alloc);
                self.load = Some(Loading { line, text });
                self.go_on()
            }
            _ => self.go_on(),
        }
    }

    // A line that has to be a command.
    fn take_command(&mut self, line: usize, text: &str) -> Result<bool, Failure>
        requires { self.now.count < most_commands }
        ensures { Leads (λ taken. taken ≡ by_order self.old line (order_of (words text.now))) self.new result }
    {
        match order_of(self.alloc, text) {
            Ok(order) => self.take_order(line, order),
            Err(StepError::BadStep) => Err(refused(line, What::BadStep)),
            Err(StepError::NoMemory) => Err(Failure::Memory),
        }
    }

    // A unit text that is whole.
    fn load(&mut self, load: Loading) -> Result<bool, Failure>
        requires { self.now.load ≡ None }
        ensures { Leads (Loads self.old (record { line = load.line; text = string_bytes load.text })) self.new result }
    {
        match load_unit(
            self.alloc,
            &mut self.catalogue,
            load.line,
            load.text.as_str(),
        ) {
            Ok(()) => Ok(true),
            Err(failure) => Err(failure),
        }
    }

    // A line more of a unit text.
    fn keep(&mut self, load: Loading, text: &str) -> Result<bool, Failure>
        ensures { Leads (by_end false self.old (record { line = load.line; text = string_bytes load.text }) text.now) self.new result }
    {
        let Loading {
            line,
            text: mut whole,
        } = load;
        if whole.push_str(text).is_err() || whole.push_str("\n").is_err() {
            return Err(Failure::Memory);
        }
        self.load = Some(Loading { line, text: whole });
        Ok(true)
    }

    // A line, behind those that were taken.
    fn take(&mut self, line: usize, text: &str) -> Result<bool, Failure>
        ensures { Leads (TakesLine self.old (record { number = line; text = text.now })) self.new result }
    {
        match mem::replace(&mut self.load, None) {
            Some(load) => {
                if text == "@end" {
                    return self.load(load);
                }
                self.keep(load, text)
            }
            None => {
                if self.count == MOST_COMMANDS {
                    return Ok(false);
                }
                self.take_command(line, text)
            }
        }
    }

    // How many commands there were, unless a unit text is left without its end.
    fn end(&self) -> Result<usize, Failure>
        ensures { IsLeft self.now result }
    {
        match &self.load {
            Some(load) => Err(refused(load.line, What::BadStep)),
            None => Ok(self.count),
        }
    }
}

/// How many commands stand behind the opening of a part, which others follow, where nothing stands against one of them.
/// The units are loaded before the first.
pub(crate) fn count_commands<'a>(
    alloc: Global,
    catalogue: Catalogue,
    part: &Part<'a>,
    others: Parts<'a>,
) -> Result<usize, Failure>
    ensures { CountsCommands catalogue (lines_behind (section_of part.now) others.entry) result }
{
    let mut lines = LinesBehind::new(part, others);
    let mut review = Review {
        alloc,
        catalogue,
        load: None,
        count: 0,
    };
    while let Some((number, line)) = lines.take_line() {
        match review.take(number, line) {
            Ok(true) => {}
            Ok(false) => return Ok(review.count),
            Err(failure) => return Err(failure),
        }
    }
    review.end()
}
