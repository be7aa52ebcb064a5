//! Looks at a whole script, as the command that it is for takes it: at its steps, its commands or its journal too.

ghost use Rattle.std.specs.Prelude.{◌≡◌, length, false, IfErr, IfOk, OnOk, string_bytes};
ghost use Rattle.std.specs.Str.Lines.{lines};
ghost use Rattle.rv_shape.specs.Fits.{fault};
ghost use Rattle.rv_shape.specs.ShapeText.{shape_of};
ghost use Rattle.rv_fault.specs.Written.{Writes};
ghost use Rattle.rv_fault.specs.Parts.{section_of};
ghost use Rattle.rv_check.specs.Checks.{TellsAll, WritesOne};
ghost use Rattle.rv_check.specs.Purposes.{is_last};
ghost use Rattle.rv_check.specs.Scripts.{OfJournal, OfRole, OfRun, OfSteps, as_given, commands_line, fitted, journal_line, judging, outcome_of_whole, steps_line};

use crate::commands::count_commands;
use crate::devices::load_devices;
use crate::purpose::{Purpose, Role, is_last, purpose_in, role_of};
use crate::sections::{check_part, say, shape_line};
use crate::steps::count_steps;
use rv_fault::{Failure, Part, Parts, What, refused, settings_line, settings_of, shape_of};
use rv_script::open;
use rv_settings::Device;
use rv_shape::catalogue::Catalogue;
use rv_shape::shape::UnitShape;
use rv_text::next_line;
use std::alloc::{AllocError, Global};
use std::io::Write;

// The line that is said of steps.
fn steps_line(alloc: Global, count: usize) -> Result<String, AllocError>
    ensures { IfOk result (λ line. string_bytes line ≡ steps_line count) }
{
    format!(in alloc; "steps: ok {count} steps\n")
}

// The line that is said of a journal.
fn journal_line(alloc: Global, count: usize) -> Result<String, AllocError>
    ensures { IfOk result (λ line. string_bytes line ≡ journal_line count) }
{
    format!(in alloc; "journal: {count} lines\n")
}

// The line that is said of commands.
fn commands_line(alloc: Global, count: usize) -> Result<String, AllocError>
    ensures { IfOk result (λ line. string_bytes line ≡ commands_line count) }
{
    format!(in alloc; "commands: ok {count} commands\n")
}

// How many lines a text has.
fn count_lines(text: &str) -> usize
    ensures { result ≡ length (lines text.now) }
{
    let mut rest = text;
    let mut count = 0;
    while let Some((_, after)) = next_line(rest) {
        count += 1;
        rest = after;
    }
    count
}

// Looks at steps.
fn check_steps<W: Write>(
    alloc: Global,
    writer: &mut W,
    catalogue: &Catalogue,
    part: &Part<'_>,
) -> Result<(), Failure>
    ensures { WritesOne (W.contents writer.old) (W.contents writer.new)
        (OfSteps catalogue.now (section_of part.now)) result }
{
    match count_steps(alloc, catalogue, part) {
        Ok(count) => say(writer, steps_line(alloc, count)),
        Err(failure) => Err(failure),
    }
}

// Looks at a journal.
fn check_journal<W: Write>(alloc: Global, writer: &mut W, part: &Part<'_>) -> Result<(), Failure>
    ensures { WritesOne (W.contents writer.old) (W.contents writer.new)
        (OfJournal (section_of part.now)) result }
{
    say(writer, journal_line(alloc, count_lines(part.text)))
}

// Adds a shape to those of the sections before where it fits, and leaves it out where it doesn't. Memory alone may be refused.
#[tactic(auto, using(crate::proofs::Judged::fits_behind, crate::proofs::Judged::left_out))]
fn add_where_it_fits(catalogue: &mut Catalogue, shape: &UnitShape) -> Result<(), Failure>
    ensures ok { OnOk result (catalogue.new ≡ fitted (fault catalogue.old shape.now) catalogue.old shape.now) }
    ensures err { IfErr result (λ failure. failure ≡ Failure.Memory) }
{
    match catalogue.shape_fits(shape) {
        Some(_) => Ok(()),
        None => match catalogue.add_fitting(shape) {
            Ok(()) => Ok(()),
            Err(_) => Err(Failure::Memory),
        },
    }
}

// Looks at a shape for an audit, which need not fit those of the sections before.
fn check_given<W: Write>(
    alloc: Global,
    writer: &mut W,
    catalogue: &mut Catalogue,
    part: &Part<'_>,
) -> Result<(), Failure>
    ensures { WritesOne (W.contents writer.old) (W.contents writer.new)
        (as_given catalogue.old catalogue.new part.now.line (shape_of part.now.text.now)) result }
{
    let shape = match shape_of(alloc, part.line, part.text) {
        Ok(shape) => shape,
        Err(failure) => return Err(failure),
    };
    match add_where_it_fits(catalogue, &shape) {
        Ok(()) => say(writer, shape_line(alloc, shape.name())),
        Err(failure) => Err(failure),
    }
}

// Looks at a part in a role, which isn't that of the commands.
fn check_as<W: Write>(
    alloc: Global,
    writer: &mut W,
    catalogue: &mut Catalogue,
    role: Role,
    part: &Part<'_>,
) -> Result<(), Failure>
    requires { is_last role ≡ false }
    ensures { WritesOne (W.contents writer.old) (W.contents writer.new)
        (OfRole role catalogue.old catalogue.new (section_of part.now)) result }
{
    match role {
        Role::Steps => check_steps(alloc, writer, catalogue, part),
        Role::Journal => check_journal(alloc, writer, part),
        Role::Given => check_given(alloc, writer, catalogue, part),
        Role::NotTaken => Err(part.not_taken()),
        Role::AsChecked | Role::Commands => check_part(alloc, writer, catalogue, part),
    }
}

// Loads the devices, whose settings open at a line, and looks at the commands behind the opening of a part.
fn check_commands<'a, W: Write>(
    alloc: Global,
    writer: &mut W,
    mut catalogue: Catalogue,
    line: usize,
    devices: &[Device],
    part: &Part<'a>,
    others: Parts<'a>,
) -> Result<(), Failure>
    ensures { WritesOne (W.contents writer.old) (W.contents writer.new)
        (OfRun line devices.now catalogue (section_of part.now) others.entry) result }
{
    match load_devices(alloc, &mut catalogue, line, devices) {
        Ok(()) => {}
        Err(failure) => return Err(failure),
    }
    match count_commands(alloc, catalogue, part, others) {
        Ok(count) => say(writer, commands_line(alloc, count)),
        Err(failure) => Err(failure),
    }
}

// Looks at parts, in order, up to the first that something stands against.
fn check_all<W: Write>(
    alloc: Global,
    writer: &mut W,
    purpose: Purpose,
    line: usize,
    devices: &[Device],
    mut parts: Parts<'_>,
) -> Result<(), Failure>
    ensures { TellsAll (judging purpose line devices.now) (W.contents writer.old) (W.contents writer.new) parts.entry result }
{
    let mut catalogue = Catalogue::new(alloc);
    'each: while let Some(part) = parts.next_part() {
        let role = role_of(purpose, part.opening);
        if is_last(role) {
            return check_commands(alloc, writer, catalogue, line, devices, &part, parts);
        }
        match check_as(alloc, writer, &mut catalogue, role, &part) {
            Ok(()) => {}
            Err(failure) => return Err(failure),
        }
    }
    Ok(())
}

/// Looks at the text of a script as the command takes it that it is for.
pub(crate) fn check_script_text<W: Write>(
    alloc: Global,
    writer: &mut W,
    text: &str,
) -> Result<(), Failure>
    ensures { Writes (W.contents writer.old) (W.contents writer.new) (outcome_of_whole text.now) result }
{
    let script = match open(text) {
        Ok(script) => script,
        Err(line) => return Err(refused(line, What::BadSection)),
    };
    let settings = match settings_of(alloc, &script.settings) {
        Ok(settings) => settings,
        Err(failure) => return Err(failure),
    };
    let line = settings_line(&script.settings);
    check_all(
        alloc,
        writer,
        purpose_in(text),
        line,
        settings.devices(),
        Parts::of(script.sections),
    )
}
