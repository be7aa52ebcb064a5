//! Carries out a script, part by part, and writes the journal of what it did.

ghost use Rattle.std.specs.Prelude.{◌+◌, ◌∷◌, [], replicate, IfOk, IfSome, option_map};
ghost use Rattle.std.specs.Str.Lines.{lines};
ghost use Rattle.rv_text.specs.Words.{words};
ghost use Rattle.rv_fault.specs.Parts.{section_of};
ghost use Rattle.rv_fault.specs.Written.{Writes, WritesScript};
ghost use Rattle.rv_play.specs.Acts.{Act, Goes, line_of, asked_acts, line_acts, step_acts, section_acts, acts_from};
ghost use Rattle.rv_play.specs.Deeds.{Comes, ComesToDeed};
ghost use Rattle.rv_play.specs.Carried.{Carries};
ghost use Rattle.rv_play.specs.Scripted.{playing, ReadsLimits, outcome_of};

use crate::acts::{go_deed, list_deed, shape_deed, step_deed, unit_deed};
use crate::counts::Counts;
use crate::deed::Deed;
use crate::player::{Limits, Player};
use rv_fault::{Failure, Part, Parts, What, refused, settings_of};
use rv_host::host::NewFault;
use rv_script::{Opening, open, read_script, text_of};
use rv_step::reading::{StepError, step_of};
use rv_step::step::{Asked, Asker, Step};
use rv_text::{Section, has_words, next_line};
use std::alloc::Global;
use std::io::{Read, Write};

// Carries out what an act came to.
fn perform<W: Write>(
    player: &mut Player,
    writer: &mut W,
    deed: Result<Deed, Failure>,
) -> Result<(), Failure>
    ensures { (act : Act) → Comes (line_of act) (ComesToDeed (playing player.old).stage act) deed
        → Carries (W.contents writer.old) (W.contents writer.new) (playing player.old) (playing player.new) (act ∷ []) result }
{
    match deed {
        Ok(deed) => {
            player.tell(writer, deed)?;
            Ok(())
        }
        Err(failure) => Err(failure),
    }
}

// Carries out so many `go`s, one after another.
fn perform_goes<W: Write>(
    alloc: Global,
    player: &mut Player,
    writer: &mut W,
    line: usize,
    asker: &Asker,
    count: usize,
) -> Result<(), Failure>
    ensures { Carries (W.contents writer.old) (W.contents writer.new) (playing player.old) (playing player.new)
        (replicate count (Goes line asker.now)) result }
{
    for _ in 0..count {
        let deed = go_deed(alloc, player, line, asker);
        perform(player, writer, deed)?;
    }
    Ok(())
}

// Carries out a step.
fn perform_step<W: Write>(
    alloc: Global,
    player: &mut Player,
    writer: &mut W,
    line: usize,
    asker: &Asker,
    asked: Asked,
) -> Result<(), Failure>
    ensures { Carries (W.contents writer.old) (W.contents writer.new) (playing player.old) (playing player.new)
        (asked_acts line asker.now asked) result }
{
    match asked {
        Asked::Go(count) => perform_goes(alloc, player, writer, line, asker, count),
        asked => {
            let deed = step_deed(alloc, player, line, asker, asked);
            perform(player, writer, deed)
        }
    }
}

// Carries out the step of a line of the script, if it isn't blank.
fn perform_line<W: Write>(
    alloc: Global,
    player: &mut Player,
    writer: &mut W,
    line: usize,
    text: &str,
) -> Result<(), Failure>
    ensures { Carries (W.contents writer.old) (W.contents writer.new) (playing player.old) (playing player.new)
        (line_acts line (words text.now)) result }
{
    if !has_words(text) {
        return Ok(());
    }
    match step_of(alloc, text) {
        Ok(Step { asker, asked }) => perform_step(alloc, player, writer, line, &asker, asked),
        Err(StepError::BadStep) => Err(refused(line, What::BadStep)),
        Err(StepError::NoMemory) => Err(Failure::Memory),
    }
}

// Carries out steps, one a line.
fn perform_all<W: Write>(
    alloc: Global,
    player: &mut Player,
    writer: &mut W,
    steps: &Part,
) -> Result<(), Failure>
    ensures { Carries (W.contents writer.old) (W.contents writer.new) (playing player.old) (playing player.new)
        (step_acts (steps.now.line + 1) (lines steps.now.text.now)) result }
{
    let mut rest = steps.text;
    let mut line = steps.line;
    while let Some((text, after)) = next_line(rest) {
        line += 1;
        perform_line(alloc, player, writer, line, text)?;
        rest = after;
    }
    Ok(())
}

// Carries out one part.
fn carry_out<W: Write>(
    alloc: Global,
    player: &mut Player,
    writer: &mut W,
    part: &Part,
) -> Result<(), Failure>
    ensures { Carries (W.contents writer.old) (W.contents writer.new) (playing player.old) (playing player.new)
        (section_acts (section_of part.now)) result }
{
    let Some(opening) = part.opening else {
        return Err(part.not_taken());
    };
    match opening {
        Opening::UnitText => {
            let deed = unit_deed(alloc, player, part.line, part.text);
            perform(player, writer, deed)
        }
        Opening::Shape => {
            let deed = shape_deed(alloc, player, part.line, part.text);
            perform(player, writer, deed)
        }
        Opening::AccessList => {
            let deed = list_deed(alloc, player, part.line, part.text);
            perform(player, writer, deed)
        }
        Opening::Steps => perform_all(alloc, player, writer, part),
        _ => Err(part.not_taken()),
    }
}

// Carries out parts, in order, up to the first fault.
fn carry_out_all<W: Write>(
    alloc: Global,
    player: &mut Player,
    writer: &mut W,
    mut parts: Parts<'_>,
) -> Result<(), Failure>
    ensures { Carries (W.contents writer.old) (W.contents writer.new) (playing player.old) (playing player.new)
        (acts_from parts.entry) result }
{
    'each: while let Some(part) = parts.next_part() {
        carry_out(alloc, player, writer, &part)?;
    }
    Ok(())
}

// How many entries the journal of a script may have, how many callers a queue, and how many requests a task's own body
// may make.
fn limits_of(alloc: Global, settings: &Option<Section<'_>>) -> Result<Limits, Failure>
    ensures { ReadsLimits (option_map (λ s. record { line = s.line; opening = s.opening.now; text = s.text.now })
        settings.now) result }
{
    let settings = settings_of(alloc, settings)?;
    Ok(Limits {
        capacity: settings.capacity(),
        queue: settings.queue_limit(),
        budget: settings.budget(),
    })
}

// How many sections of a script bring a unit.
fn units_in(text: &str) -> usize {
    let mut units: usize = 0;
    if let Ok(script) = open(text) {
        let mut parts = Parts::of(script.sections);
        'each: while let Some(part) = parts.next_part() {
            match part.opening {
                Some(Opening::UnitText) | Some(Opening::Shape) => {
                    units = units.saturating_add(1);
                }
                _ => {}
            }
        }
    }
    units
}

// Carries out a text from the beginning.
fn play_text<W: Write>(
    alloc: Global,
    writer: &mut W,
    all: bool,
    text: &str,
    counts: &mut Counts,
) -> Result<(), Failure>
    ensures { Writes (W.contents writer.old) (W.contents writer.new) (outcome_of all text.now) result }
{
    let script = match open(text) {
        Ok(script) => script,
        Err(line) => return Err(refused(line, What::BadSection)),
    };
    let limits = limits_of(alloc, &script.settings)?;
    match Player::new(alloc, limits, units_in(text), all) {
        Ok(mut player) => {
            let done = carry_out_all(alloc, &mut player, writer, Parts::of(script.sections));
            *counts = player.counts;
            done
        }
        Err(NewFault::BadCapacity) | Err(NewFault::BadLimit) | Err(NewFault::NoMemory) => {
            Err(Failure::Memory)
        }
    }
}

/// As `play`; and gives how many answers there were, and which of them the journal doesn't have.
pub fn play_counted<R: Read, W: Write>(
    alloc: Global,
    reader: &mut R,
    writer: &mut W,
    all: bool,
    counts: &mut Counts,
) -> Result<(), Failure>
    ensures { IfSome (R.remaining reader.old) (λ script.
        WritesScript (W.contents writer.old) (W.contents writer.new) (outcome_of all) script result) }
{
    let bytes = read_script(alloc, reader)?;
    let text = text_of(bytes.as_slice())?;
    play_text(alloc, writer, all, text, counts)
}

/// Carries out the script that a reader gives, and writes its journal: the line of each entry and,
/// where all is asked for, of each answer that isn't recorded.
pub fn play<R: Read, W: Write>(
    alloc: Global,
    reader: &mut R,
    writer: &mut W,
    all: bool,
) -> Result<(), Failure>
    ensures { IfSome (R.remaining reader.old) (λ script.
        WritesScript (W.contents writer.old) (W.contents writer.new) (outcome_of all) script result) }
{
    let mut counts = Counts::new();
    play_counted(alloc, reader, writer, all, &mut counts)
}
