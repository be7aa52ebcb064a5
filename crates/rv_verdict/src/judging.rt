//! Audits over any readers and any writer.

ghost use Rattle.std.specs.Prelude.{◌≡◌, ◌≤◌, IfOk, IfSome, length, true, false};
ghost use Rattle.rv_history.specs.Legal.{empty};
ghost use Rattle.rv_script.specs.UnitTexts.{without_returns};
ghost use Rattle.rv_script.specs.Whole.{most_bytes};
ghost use Rattle.rv_verdict.specs.Audits.{AuditsScript, AuditsText, SaysOf, SaysOfBytes, SaysOfFile, SaysOfSection};
ghost use Rattle.rv_verdict.specs.Brought.{AreLimits};
ghost use Rattle.rv_verdict.specs.Ends.{IsFollowed};

use crate::said::say;
use crate::script::{audit_over, script_of};
use rv_audit::lines::judge_lines;
use rv_audit::observer::{Nobody, Observer, Watch};
use rv_fault::Failure;
use rv_history::limits::Limits;
use rv_script::unit_text::unit_text;
use rv_script::{read_script, text_of};
use rv_shape::shape::UnitShape;
use std::alloc::Global;
use std::io::{Read, Write};

/// What came of the audit of a file.
#[derive(Clone, Copy, Debug, PartialEq, Eq, Drop)]
pub struct Audited {
    /// Whether its journal is that of a legal history.
    pub is_legal: bool,
    /// How many bytes were taken as the rest of a line that a crash cut off.
    pub torn: usize,
}

/// Judges what a reader gives, of which an observer is told, and says what was found. Every audit comes this way.
pub fn audit_lines<J: Read, W: Write, H: Watch, O: Observer>(
    alloc: Global,
    journal: &mut J,
    takes_torn: bool,
    watch: &mut H,
    writer: &mut W,
    limits: Limits,
    units: &[UnitShape],
    observer: &mut O,
) -> Result<Audited, Failure>
    requires { AreLimits limits }
    ensures says { SaysOfBytes (J.remaining journal.old) takes_torn (W.contents writer.old) (W.contents writer.new) limits units.now result }
    ensures follows { IfOk result (λ told. (begun : O) → O.follows begun observer.old units.now (empty limits) → told.is_legal ≡ true →
        IsFollowed (J.remaining journal.old) takes_torn limits units.now told.torn (O.follows begun observer.new units.now)) }
{
    let mut audit = audit_over(alloc, limits)?;
    let (verdict, torn) = judge_lines(
        alloc, &mut audit, units, journal, takes_torn, watch, observer,
    )?;
    let is_legal = say(alloc, writer, audit.catalogue(), &verdict)?;
    Ok(Audited { is_legal, torn })
}

// Judges the journal of a section, and says what was found.
fn audit_section<W: Write>(
    alloc: Global,
    writer: &mut W,
    limits: Limits,
    units: &[UnitShape],
    journal: &str,
) -> Result<bool, Failure>
    requires { AreLimits limits }
    ensures { SaysOf (W.contents writer.old) (W.contents writer.new) limits units.now (without_returns journal.now) result }
{
    let journal = unit_text(alloc, journal)?;
    let mut bytes = journal.as_bytes();
    let audited = audit_lines(
        alloc,
        &mut bytes,
        false,
        &mut Nobody {},
        writer,
        limits,
        units,
        &mut Nobody {},
    )?;
    Ok(audited.is_legal)
}

// Judges the journal that the text of a script brings.
fn audit_text<W: Write>(alloc: Global, writer: &mut W, text: &str) -> Result<bool, Failure>
    requires { length text.now ≤ most_bytes }
    ensures { AuditsText true SaysOfSection (W.contents writer.old) (W.contents writer.new) text.now result }
{
    let (limits, given) = script_of(alloc, text, true)?;
    audit_section(alloc, writer, limits, given.units(), given.journal())
}

/// Judges the journal that a script brings in a section, without each carriage return that stands before a line feed, and
/// writes one line that says what was found. Gives whether it is that of a legal history.
///
/// # Errors
/// `Refused` where a section isn't what it should be; `Memory` and `Io` as the first growth, read or write that fails.
pub fn audit<R: Read, W: Write>(
    alloc: Global,
    reader: &mut R,
    writer: &mut W,
) -> Result<bool, Failure>
    ensures { IfSome (R.remaining reader.old) (λ script.
        AuditsScript true SaysOfSection (W.contents writer.old) (W.contents writer.new) script result) }
{
    let bytes = read_script(alloc, reader)?;
    let text = text_of(bytes.as_slice())?;
    audit_text(alloc, writer, text)
}

// Judges what a reader gives over what the text of a script brings.
fn audit_file_text<J: Read, W: Write, H: Watch>(
    alloc: Global,
    journal: &mut J,
    takes_torn: bool,
    watch: &mut H,
    writer: &mut W,
    text: &str,
) -> Result<Audited, Failure>
    requires { length text.now ≤ most_bytes }
    ensures { AuditsText false (SaysOfFile (J.remaining journal.old) takes_torn) (W.contents writer.old) (W.contents writer.new) text.now result }
{
    let (limits, given) = script_of(alloc, text, false)?;
    audit_lines(
        alloc,
        journal,
        takes_torn,
        watch,
        writer,
        limits,
        given.units(),
        &mut Nobody {},
    )
}

/// Judges the journal that a reader of its own gives, a line at a time and byte for byte, over the sections of a script,
/// and writes one line that says what was found. Where `takes_torn`, a last line of at most 162,304 bytes without its
/// line feed is taken as cut off, and isn't judged.
///
/// # Errors
/// As `audit`. A section that holds a journal is refused.
pub fn audit_file<R: Read, J: Read, W: Write, H: Watch>(
    alloc: Global,
    reader: &mut R,
    journal: &mut J,
    takes_torn: bool,
    watch: &mut H,
    writer: &mut W,
) -> Result<Audited, Failure>
    ensures { IfSome (R.remaining reader.old) (λ script.
        AuditsScript false (SaysOfFile (J.remaining journal.old) takes_torn) (W.contents writer.old) (W.contents writer.new) script result) }
{
    let bytes = read_script(alloc, reader)?;
    let text = text_of(bytes.as_slice())?;
    audit_file_text(alloc, journal, takes_torn, watch, writer, text)
}
